//! The accesses that no rule of some covers.

ghost use Rattle.std.specs.Prelude.{◌≡◌, ◌<◌, ◌+◌, ◌/◌, ◌&&◌, ℕ, length, not, false, true, IfOk, OnOk, IsTrue};
ghost use Rattle.sm_bits.specs.Bits.{has, row};
ghost use Rattle.sm_rules.specs.Keeping.{FitsRule, covers};
ghost use Rattle.sm_matrices.specs.Matrices.{Square};
ghost use Rattle.sm_unused.specs.Missing.{IsTable, is_missing};

use crate::pairs::Pairs;
use sm_bits::{BitRow, SharedSet};
use sm_rules::{Kept, PERM_COUNT, has_perm};
use sm_types::TypeCount;
use sm_values::drop_fields;
use std::alloc::{AllocError, Global};

/// Returns the row of a set.
fn row_of(alloc: Global, set: &SharedSet, count: TypeCount) -> Result<BitRow, AllocError>
    requires { length set.now ≡ count / 64 + 1 }
    ensures room { IfOk result (λ row. length row ≡ count / 64 + 1) }
    ensures same { IfOk result (λ row. (t : ℕ) → has row t ≡ has set.now t) }
{
    let mut row = BitRow::empty(alloc, count.words())?;
    set.add_to(&mut row);
    Ok(row)
}

/// Returns all pairs, for each permission.
fn all_pairs(alloc: Global, count: TypeCount) -> Result<Vec<Pairs>, AllocError>
    ensures table { IfOk result (λ pairs. IsTable count pairs.items) }
    ensures all { IfOk result (λ pairs. (b s t : ℕ) → b < 7 → s < count → t < count
        → is_missing pairs.items b s t ≡ true) }
{
    let mut all = Vec::new(alloc);
    for _ in 0..PERM_COUNT {
        let pairs = Pairs::all(alloc, count)?;
        all.push(pairs)?;
    }
    Ok(all)
}

/// Removes the pairs that a rule joins, whose row of targets is `targets`, for a permission that it has.
fn remove_perm(pairs: &mut Pairs, rule: &Kept, targets: &BitRow, count: TypeCount, bit: u32)
    requires bit { bit < 7 }
    requires square { Square pairs.old count }
    requires fits { FitsRule count rule.now }
    requires room { length targets.now ≡ count / 64 + 1 }
    requires targets { (t : ℕ) → has targets.now t ≡ has rule.now.targets t }
    ensures square { Square pairs.new count }
    ensures removed { (s t : ℕ) → s < count → has (row pairs.new s) t
        ≡ (has (row pairs.old s) t && not (covers bit s t rule.now)) }
{
    if has_perm(rule.perms, bit) {
        pairs.remove(rule, targets, count);
    }
}

/// Removes the accesses that a rule covers, whose row of targets is `targets`.
fn remove_perms(all: &mut Vec<Pairs>, rule: &Kept, targets: &BitRow, count: TypeCount)
    requires table { IsTable count all.old.items }
    requires fits { FitsRule count rule.now }
    requires room { length targets.now ≡ count / 64 + 1 }
    requires targets { (t : ℕ) → has targets.now t ≡ has rule.now.targets t }
    ensures table { IsTable count all.new.items }
    ensures removed { (b s t : ℕ) → b < 7 → s < count → is_missing all.new.items b s t
        ≡ (is_missing all.old.items b s t && not (covers b s t rule.now)) }
{
    for bit in 0..PERM_COUNT {
        let pairs = &mut all[bit as usize];
        remove_perm(pairs, rule, targets, count, bit);
    }
}

/// The accesses that no rule of some covers: for each permission, the pairs of types.
pub struct Missing {
    count: TypeCount,
    pairs: Vec<Pairs>,
}

impl Drop for Missing {
    fn drop(self) {
        drop_fields!(self: count, pairs);
    }
}

impl Missing {
    /// Returns all accesses, of which no rule covers any yet.
    pub fn all(alloc: Global, count: TypeCount) -> Result<Missing, AllocError>
        ensures count { IfOk result (λ missing. missing.count ≡ count) }
        ensures table { IfOk result (λ missing. IsTable count missing.pairs.items) }
        ensures all { IfOk result (λ missing. (b s t : ℕ) → b < 7 → s < count → t < count
            → is_missing missing.pairs.items b s t ≡ true) }
    {
        let pairs = all_pairs(alloc, count)?;
        Ok(Missing { count, pairs })
    }

    /// Returns whether a rule covers one of the accesses.
    pub fn meets(&self, rule: &Kept) -> bool
        requires table { IsTable self.now.count self.now.pairs.items }
        requires fits { FitsRule self.now.count rule.now }
        ensures none { result ≡ false → (b s t : ℕ) → b < 7 → s < self.now.count
            → (is_missing self.now.pairs.items b s t && covers b s t rule.now) ≡ false }
        ensures some { IsTrue result → (b : ℕ) × (s : ℕ) × (t : ℕ) × (b < 7) × (s < self.now.count)
            × ((is_missing self.now.pairs.items b s t && covers b s t rule.now) ≡ true) }
    {
        for bit in 0..PERM_COUNT {
            if has_perm(rule.perms, bit) && self.pairs[bit as usize].meets(rule, self.count) {
                return true;
            }
        }
        false
    }

    /// Removes the accesses that a rule covers.
    pub fn remove(&mut self, alloc: Global, rule: &Kept) -> Result<(), AllocError>
        requires table { IsTable self.old.count self.old.pairs.items }
        requires fits { FitsRule self.old.count rule.now }
        ensures count { self.new.count ≡ self.old.count }
        ensures table { OnOk result (IsTable self.old.count self.new.pairs.items) }
        ensures removed { OnOk result ((b s t : ℕ) → b < 7 → s < self.old.count
            → is_missing self.new.pairs.items b s t
            ≡ (is_missing self.old.pairs.items b s t && not (covers b s t rule.now))) }
    {
        let targets = row_of(alloc, &rule.targets, self.count)?;
        remove_perms(&mut self.pairs, rule, &targets, self.count);
        Ok(())
    }

    /// Returns whether a rule covers one of the accesses, and removes those that it covers.
    pub fn take(&mut self, alloc: Global, rule: &Kept) -> Result<bool, AllocError>
        requires table { IsTable self.old.count self.old.pairs.items }
        requires fits { FitsRule self.old.count rule.now }
        ensures count { self.new.count ≡ self.old.count }
        ensures table { OnOk result (IsTable self.old.count self.new.pairs.items) }
        ensures removed { OnOk result ((b s t : ℕ) → b < 7 → s < self.old.count
            → is_missing self.new.pairs.items b s t
            ≡ (is_missing self.old.pairs.items b s t && not (covers b s t rule.now))) }
        ensures none { IfOk result (λ met. met ≡ false → (b s t : ℕ) → b < 7 → s < self.old.count
            → (is_missing self.old.pairs.items b s t && covers b s t rule.now) ≡ false) }
        ensures some { IfOk result (λ met. IsTrue met → (b : ℕ) × (s : ℕ) × (t : ℕ) × (b < 7) × (s < self.old.count)
            × ((is_missing self.old.pairs.items b s t && covers b s t rule.now) ≡ true)) }
    {
        if !self.meets(rule) {
            return Ok(false);
        }
        self.remove(alloc, rule)?;
        Ok(true)
    }
}
