//! The accesses that a filter leaves, as bits.

ghost use Rattle.std.specs.Prelude.{◌≡◌, ◌<◌, ◌≤◌, ◌+◌, ◌*◌, ◌/◌, ◌^◌, ◌&&◌, ℕ, length, false, true, IfOk, IsTrue};
ghost use Rattle.sm_bits.specs.Bits.{has};
ghost use Rattle.sm_types.specs.Denoting.{types};
ghost use Rattle.sm_types.specs.Names.{at};
ghost use Rattle.sm_rules.specs.Keeping.{FitsRule, covers};
ghost use Rattle.sm_questions.specs.Accesses as spec;
ghost use Rattle.sm_questions.specs.Covering.{AreLeft, IsWhole, grants_at, joins_at};

use crate::Filter;
use crate::filtering::is_left;
use crate::lookups::{type_count, type_name};
use sm_bits::BitRow;
use sm_policy::Prepared;
use sm_rules::{Kept, PERM_COUNT, has_perm};
use sm_types::TypeCount;
use sm_values::{Perms, Word, drop_fields};
use std::alloc::{AllocError, Global};

/// The types and the permissions of the accesses that a filter leaves.
pub struct Left {
    sources: BitRow,
    targets: BitRow,
    /// The types that are left as a source and as a target.
    own: BitRow,
    perms: Perms,
}

impl Drop for Left {
    fn drop(self) {
        drop_fields!(self: sources, targets, own, perms);
    }
}

/// Returns the numbers of the types that are asked for.
fn types_left(
    alloc: Global,
    policy: &Prepared,
    wanted: &Option<Word<'_>>,
) -> Result<BitRow, AllocError>
    ensures room { IfOk result (λ row. length row ≡ length (types policy.now.statements) / 64 + 1) }
    ensures left { IfOk result (λ row. (i : ℕ) → i < length (types policy.now.statements)
        → has row i ≡ spec.is_left wanted.now (at (types policy.now.statements) i)) }
    ensures past { IfOk result (λ row. (i : ℕ) → length (types policy.now.statements) ≤ i → has row i ≡ false) }
{
    let mut row = BitRow::empty(alloc, policy.rules().type_count().words())?;
    for number in 0..type_count(policy) {
        if is_left(wanted, type_name(policy, number)) {
            row.insert(usize::from(number));
        }
    }
    Ok(row)
}

/// Returns the numbers that are in two rows.
fn in_both(
    alloc: Global,
    first: &BitRow,
    second: &BitRow,
    count: TypeCount,
) -> Result<BitRow, AllocError>
    requires first { length first.now ≡ count / 64 + 1 }
    requires second { length second.now ≡ count / 64 + 1 }
    requires past { (i : ℕ) → count ≤ i → has first.now i ≡ false }
    ensures room { IfOk result (λ row. length row ≡ count / 64 + 1) }
    ensures common { IfOk result (λ row. (i : ℕ) → has row i ≡ (has first.now i && has second.now i)) }
{
    let mut row = BitRow::empty(alloc, count.words())?;
    for number in 0..count.get() {
        if first.has(number) && second.has(number) {
            row.insert(number);
        }
    }
    Ok(row)
}

impl Left {
    /// Returns the accesses that a filter leaves.
    pub fn of(alloc: Global, policy: &Prepared, filter: &Filter<'_>) -> Result<Left, AllocError>
        ensures { IfOk result (λ left. AreLeft policy.now filter.now left) }
    {
        let sources = types_left(alloc, policy, &filter.source)?;
        let targets = types_left(alloc, policy, &filter.target)?;
        let own = in_both(alloc, &sources, &targets, policy.rules().type_count())?;
        Ok(Left {
            sources,
            targets,
            own,
            perms: filter.perms,
        })
    }

    /// Returns whether a rule has a permission that is left.
    fn grants_some(&self, rule: &Kept) -> bool
        ensures none { result ≡ false → (b : ℕ) → b < 7 → grants_at self.now rule.now b ≡ false }
        ensures some { IsTrue result → (b : ℕ) × (b < 7) × (grants_at self.now rule.now b ≡ true) }
    {
        for bit in 0..PERM_COUNT {
            if has_perm(self.perms, bit) && has_perm(rule.perms, bit) {
                return true;
            }
        }
        false
    }

    /// Returns whether a rule joins two types that are left.
    fn joins_some(&self, rule: &Kept, count: TypeCount) -> bool
        requires whole { IsWhole count self.now }
        requires fits { FitsRule count rule.now }
        ensures none { result ≡ false → (s t : ℕ) → joins_at self.now rule.now s t ≡ false }
        ensures some { IsTrue result → (s : ℕ) × (t : ℕ) × (joins_at self.now rule.now s t ≡ true) }
    {
        if rule.sources.meets_row(&self.sources) && rule.targets.meets_row(&self.targets) {
            return true;
        }
        rule.to_self && rule.sources.meets_row(&self.own)
    }

    /// Returns whether a rule covers an access that is left.
    pub fn meets(&self, rule: &Kept, count: TypeCount) -> bool
        requires whole { IsWhole count self.now }
        requires fits { FitsRule count rule.now }
        ensures none { result ≡ false → (b s t : ℕ) → b < 7
            → (joins_at self.now rule.now s t && grants_at self.now rule.now b) ≡ false }
        ensures some { IsTrue result → (b : ℕ) × (s : ℕ) × (t : ℕ) × (b < 7)
            × ((joins_at self.now rule.now s t && grants_at self.now rule.now b) ≡ true) }
    {
        self.grants_some(rule) && self.joins_some(rule, count)
    }
}
