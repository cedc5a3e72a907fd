//! Pairs of types, as rows of bits.

ghost use Rattle.std.specs.Prelude.{◌≡◌, ◌<◌, ◌≤◌, ◌+◌, ◌*◌, ◌/◌, ◌&&◌, ◌||◌, ℕ, length, not, nat_eq, false, true};
ghost use Rattle.std.specs.Prelude.{IfOk, IsTrue};
ghost use Rattle.sm_bits.specs.Bits.{has, row};
ghost use Rattle.sm_rules.specs.Keeping.{FitsRule, joins};
ghost use Rattle.sm_matrices.specs.Matrices.{Square};

use sm_bits::{BitRow, empty_rows};
use sm_rules::Kept;
use sm_types::TypeCount;
use std::alloc::{AllocError, Global};
use std::marker::Model;

/// Returns the row of all types.
fn all_types(alloc: Global, count: TypeCount) -> Result<BitRow, AllocError>
    ensures room { IfOk result (λ row. length row ≡ count / 64 + 1) }
    ensures all { IfOk result (λ row. (i : ℕ) → i < count → has row i ≡ true) }
{
    let mut row = BitRow::empty(alloc, count.words())?;
    for number in 0..count.get() {
        row.insert(number);
    }
    Ok(row)
}

/// Adds the numbers of a row to each of the rows.
fn add_to_all(rows: &mut Vec<BitRow>, all: &BitRow, count: TypeCount)
    requires all { length all.now ≡ count / 64 + 1 }
    requires square { Square rows.old.items count }
    ensures square { Square rows.new.items count }
    ensures added { (s t : ℕ) → s < count → has (row rows.new.items s) t
        ≡ (has (row rows.old.items s) t || has all.now t) }
{
    for s in 0..rows.len() {
        let row = &mut rows[s];
        row.union_with(all);
    }
}

/// Returns whether a rule joins one of its sources to a number of the source's row.
fn row_meets(row: &BitRow, rule: &Kept, s: usize) -> bool
    requires targets { length rule.now.targets ≡ length row.now }
    requires source { s < 64 * length row.now }
    requires has { has rule.now.sources s ≡ true }
    ensures none { result ≡ false → (t : ℕ) → (has row.now t && joins s t rule.now) ≡ false }
    ensures some { IsTrue result → (t : ℕ) × IsTrue (has row.now t && joins s t rule.now) }
{
    if rule.targets.meets_row(row) {
        return true;
    }
    rule.to_self && row.has(s)
}

/// Returns whether a rule joins some source to a number of the source's row.
fn rows_meet(rows: &[BitRow], rule: &Kept, count: TypeCount) -> bool
    requires square { Square rows.now count }
    requires fits { FitsRule count rule.now }
    ensures none { result ≡ false → (s t : ℕ) → s < count
        → (has (row rows.now s) t && joins s t rule.now) ≡ false }
    ensures some { IsTrue result → (s : ℕ) × (t : ℕ) × (s < count)
        × IsTrue (has (row rows.now s) t && joins s t rule.now) }
{
    let mut from = 0;
    while let Some(s) = rule.sources.next(from) {
        if row_meets(&rows[s], rule, s) {
            return true;
        }
        from = s + 1;
    }
    false
}

/// Removes some targets and, if the source is a target of its own, the source.
fn remove_targets(row: &mut BitRow, targets: &BitRow, to_self: bool, s: usize)
    requires targets { length targets.now ≡ length row.old }
    requires source { s < 64 * length row.old }
    ensures room { length row.new ≡ length row.old }
    ensures removed { (t : ℕ) → has row.new t ≡ (has row.old t && not (has targets.now t || (to_self && nat_eq s t))) }
{
    row.subtract(targets);
    if to_self {
        row.remove(s);
    }
}

/// Removes the targets of a rule, whose row is `targets`, from the row of one of its sources.
fn remove_from_row(row: &mut BitRow, rule: &Kept, targets: &BitRow, s: usize)
    requires room { length targets.now ≡ length row.old }
    requires targets { (t : ℕ) → has targets.now t ≡ has rule.now.targets t }
    requires source { s < 64 * length row.old }
    requires has { has rule.now.sources s ≡ true }
    ensures room { length row.new ≡ length row.old }
    ensures removed { (t : ℕ) → has row.new t ≡ (has row.old t && not (joins s t rule.now)) }
{
    remove_targets(row, targets, rule.to_self, s);
}

/// Removes the targets of a rule, whose row is `targets`, from the rows of its sources.
fn remove_from_rows(rows: &mut Vec<BitRow>, rule: &Kept, targets: &BitRow, count: TypeCount)
    requires square { Square rows.old.items count }
    requires fits { FitsRule count rule.now }
    requires room { length targets.now ≡ count / 64 + 1 }
    requires targets { (t : ℕ) → has targets.now t ≡ has rule.now.targets t }
    ensures square { Square rows.new.items count }
    ensures removed { (s t : ℕ) → s < count → has (row rows.new.items s) t
        ≡ (has (row rows.old.items s) t && not (joins s t rule.now)) }
{
    let mut from = 0;
    while let Some(s) = rule.sources.next(from) {
        let row = &mut rows[s];
        remove_from_row(row, rule, targets, s);
        from = s + 1;
    }
}

/// Pairs of types. Contracts see a row of targets for each source.
pub struct Pairs {
    rows: Vec<BitRow>,
}

impl Model for Pairs {
    ghost use Rattle.std.specs.Prelude.{List, ℕ};

    ghost Value = { List (List ℕ) };

    ghost view = { λ p. p.rows.items };
}

impl Drop for Pairs {
    fn drop(self) {
        let Pairs { rows: _ } = self;
    }
}

impl Pairs {
    /// Returns all pairs.
    pub fn all(alloc: Global, count: TypeCount) -> Result<Pairs, AllocError>
        ensures square { IfOk result (λ pairs. Square pairs count) }
        ensures all { IfOk result (λ pairs. (s t : ℕ) → s < count → t < count → has (row pairs s) t ≡ true) }
    {
        let all = all_types(alloc, count)?;
        let mut rows = empty_rows(alloc, count.get(), count.words())?;
        add_to_all(&mut rows, &all, count);
        Ok(Pairs { rows })
    }

    /// Returns whether a rule joins one of the pairs.
    pub fn meets(&self, rule: &Kept, count: TypeCount) -> bool
        requires square { Square self.now count }
        requires fits { FitsRule count rule.now }
        ensures none { result ≡ false → (s t : ℕ) → s < count
            → (has (row self.now s) t && joins s t rule.now) ≡ false }
        ensures some { IsTrue result → (s : ℕ) × (t : ℕ) × (s < count)
            × IsTrue (has (row self.now s) t && joins s t rule.now) }
    {
        rows_meet(&self.rows, rule, count)
    }

    /// Removes the pairs that a rule joins, whose row of targets is `targets`.
    pub fn remove(&mut self, rule: &Kept, targets: &BitRow, count: TypeCount)
        requires square { Square self.old count }
        requires fits { FitsRule count rule.now }
        requires room { length targets.now ≡ count / 64 + 1 }
        requires targets { (t : ℕ) → has targets.now t ≡ has rule.now.targets t }
        ensures square { Square self.new count }
        ensures removed { (s t : ℕ) → s < count → has (row self.new s) t
            ≡ (has (row self.old s) t && not (joins s t rule.now)) }
    {
        remove_from_rows(&mut self.rows, rule, targets, count);
    }
}
