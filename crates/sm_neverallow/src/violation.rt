//! An allow rule that breaks a neverallow rule.

ghost use Rattle.std.specs.Prelude.{◌≡◌, ◌<◌, ◌≤◌, ◌*◌, ℕ, List, length, ◌&&◌, All, false, true, IfSome, IfNone, IfOk};
ghost use Rattle.std.specs.Prelude.{Some, slice_get};
ghost use Rattle.sm_bits.specs.Bits.{has_bit};
ghost use Rattle.sm_ruletext.specs.declared.statement.Statement.{Statement as TheStatement};
ghost use Rattle.sm_types.specs.Names.{at};
ghost use Rattle.sm_rules.specs.Access.{written, forbidden, IsConsistent};
ghost use Rattle.sm_rules.specs.Keeping.{FitsRule, RulesOf};
ghost use Rattle.sm_matrices.specs.Matrices.{perm_set, AllSquare, AllCompiled, AreSetsOf};
ghost use Rattle.sm_neverallow.specs.Hitting.{IsClear, IsBroken};
ghost use Rattle.sm_neverallow.specs.Violating.{both_join, AreApart, IsBetween, IsFirstOf, IsFirstAmong, AllApart};
ghost use Rattle.sm_neverallow.specs.Violating.{IsFirstViolation};
ghost use Rattle.sm_rules.specs.declared.kept.Kept.{Kept as TheKept};

use crate::hits::first_hit;
use bitflags::Flags;
use sm_bits::BitRow;
use sm_matrices::{Matrices, SET_COUNT, sets_of};
use sm_rules::{Kept, PERM_COUNT, Rules, class_at, has_perm, perm_at};
use sm_types::TypeCount;
use sm_values::{Class, Perms};
use std::alloc::{AllocError, Global};

/// The first tuple that a neverallow rule forbids and an allow rule allows.
#[derive(Clone, Copy, PartialEq, Eq)]
pub struct NumberedViolation {
    /// The line of the neverallow rule.
    pub never_line: u32,
    /// The line of the allow rule.
    pub allow_line: u32,
    /// The source and the target, by the numbers of their types.
    pub source: u16,
    pub target: u16,
    pub class: Class,
    /// A single permission of the class.
    pub perm: Perms,
}

/// Returns the permissions that both sets have.
#[tactic(auto, using(sm_rules::proofs::PermBits::both_bits))]
fn common(first: Perms, second: Perms) -> Perms
    ensures { (b : ℕ) → has_bit result.0 b ≡ (has_bit first.0 b && has_bit second.0 b) }
{
    first.intersection(second)
}

/// Returns the lowest permission in both sets.
fn common_bit(first: Perms, second: Perms) -> Option<u32>
    ensures none { IfNone result ((b : ℕ) → b < 7 → (has_bit first.0 b && has_bit second.0 b) ≡ false) }
    ensures some { IfSome result (λ b. (b < 7) × ((has_bit first.0 b && has_bit second.0 b) ≡ true)) }
    ensures lowest { IfSome result (λ b. (c : ℕ) → c < b
        → (has_bit first.0 c && has_bit second.0 c) ≡ false) }
{
    let both = common(first, second);
    for bit in 0..PERM_COUNT {
        if has_perm(both, bit) {
            return Some(bit);
        }
    }
    None
}

/// Returns whether two rules join a type to itself, one of them by `self`.
fn own_meet(a: &Kept, b: &Kept, s: usize) -> bool
    requires a_source { s < 64 * length a.now.sources }
    requires a_target { s < 64 * length a.now.targets }
    requires b_source { s < 64 * length b.now.sources }
    requires b_target { s < 64 * length b.now.targets }
    ensures { result ≡ both_join s s a.now b.now }
{
    a.joins(s, s) && b.joins(s, s)
}

/// Returns whether two rules join some pair of types both.
fn meet(a: &Kept, b: &Kept, count: TypeCount) -> bool
    requires first { FitsRule count a.now }
    requires second { FitsRule count b.now }
    ensures none { result ≡ false → (s t : ℕ) → both_join s t a.now b.now ≡ false }
{
    if !a.sources.meets(&b.sources) {
        return false;
    }
    if a.targets.meets(&b.targets) {
        return true;
    }
    for s in 0..count.get() {
        if own_meet(a, b, s) {
            return true;
        }
    }
    false
}

/// Returns the first target to which two rules join a source both.
fn first_target(a: &Kept, b: &Kept, count: TypeCount, s: usize) -> Option<usize>
    requires first { FitsRule count a.now }
    requires second { FitsRule count b.now }
    requires source { s < count }
    ensures none { IfNone result ((t : ℕ) → t < count → both_join s t a.now b.now ≡ false) }
    ensures some { IfSome result (λ t. (t < count) × (both_join s t a.now b.now ≡ true)) }
    ensures first { IfSome result (λ t. (u : ℕ) → u < t → both_join s u a.now b.now ≡ false) }
{
    if !(a.sources.has(s) && b.sources.has(s)) {
        return None;
    }
    for t in 0..count.get() {
        if a.joins(s, t) && b.joins(s, t) {
            return Some(t);
        }
    }
    None
}

/// Returns the first source, and its first target, that two rules join both.
fn first_pair(a: &Kept, b: &Kept, count: TypeCount) -> Option<(u16, u16)>
    requires first { FitsRule count a.now }
    requires second { FitsRule count b.now }
    ensures none { IfNone result ((s t : ℕ) → s < count → t < count
        → both_join s t a.now b.now ≡ false) }
    ensures some { IfSome result (λ p. (p.0 < count) × (p.1 < count)
        × (both_join p.0 p.1 a.now b.now ≡ true)) }
    ensures source { IfSome result (λ p. (s t : ℕ) → s < p.0 → t < count
        → both_join s t a.now b.now ≡ false) }
    ensures target { IfSome result (λ p. (t : ℕ) → t < p.1 → both_join p.0 t a.now b.now ≡ false) }
{
    for s in 0..count.get() {
        if let Some(t) = first_target(a, b, count, s) {
            return Some((s as u16, t as u16));
        }
    }
    None
}

/// Returns the first violation of a neverallow rule by an allow rule, if there is one.
fn violation_between(allow: &Kept, never: &Kept, count: TypeCount) -> Option<NumberedViolation>
    requires allow { FitsRule count allow.now }
    requires never { FitsRule count never.now }
    ensures none { IfNone result (AreApart allow.now never.now count) }
    ensures some { IfSome result (λ v. IsBetween allow.now never.now count v) }
{
    let bit = common_bit(allow.perms, never.perms)?;
    if !meet(allow, never, count) {
        return None;
    }
    let (source, target) = first_pair(allow, never, count)?;
    Some(NumberedViolation {
        never_line: never.line,
        allow_line: allow.line,
        source,
        target,
        class: class_at(bit),
        perm: perm_at(bit),
    })
}

/// Returns the first violation of a neverallow rule by the first allow rule that breaks it, if one does.
fn first_of(allows: &[Kept], never: &Kept, count: TypeCount) -> Option<NumberedViolation>
    requires allows { All (FitsRule count) allows.now }
    requires never { FitsRule count never.now }
    ensures none { IfNone result ((i : ℕ) (allow : TheKept) → slice_get allows.now i ≡ Some allow
        → AreApart allow never.now count) }
    ensures some { IfSome result (λ v. IsFirstOf allows.now never.now count v) }
{
    for i in 0..allows.len() {
        if let Some(violation) = violation_between(&allows[i], never, count) {
            return Some(violation);
        }
    }
    None
}

/// Returns the index of the first neverallow rule below `end` that has exactly the permissions `set` and forbids
/// something that the matrices have, or `end` if none does.
fn first_broken_of(
    alloc: Global,
    matrices: &Matrices,
    neverallows: &[Kept],
    sets: &BitRow,
    count: TypeCount,
    set: Perms,
    end: usize,
) -> Result<usize, AllocError>
    requires set { set.0 < 128 }
    requires sets { AreSetsOf neverallows.now sets.now }
    requires number { length matrices.now ≡ 7 }
    requires square { AllSquare matrices.now count }
    requires fits { All (FitsRule count) neverallows.now }
    requires end { end ≤ length neverallows.now }
    ensures end { IfOk result (λ place. place ≤ end) }
    ensures broken { IfOk result (λ place. (never : TheKept) → place < end
        → slice_get neverallows.now place ≡ Some never → IsBroken matrices.now count never) }
    ensures first { IfOk result (λ place. (n : ℕ) (never : TheKept) → n < place
        → slice_get neverallows.now n ≡ Some never → perm_set never ≡ set.0
        → IsClear matrices.now count never) }
{
    if !sets.has(usize::from(set.0)) {
        return Ok(end);
    }
    let joined = matrices.union_of(alloc, count, set)?;
    first_hit(alloc, &joined, neverallows, count, set, end)
}

/// Returns the index of the first neverallow rule that forbids something that the matrices have.
///
/// Rules are tested by the sets of their permissions: all rules of a set against one matrix, of the pairs that some
/// permission of the set has.
fn first_broken(
    alloc: Global,
    matrices: &Matrices,
    neverallows: &[Kept],
    count: TypeCount,
) -> Result<Option<usize>, AllocError>
    requires number { length matrices.now ≡ 7 }
    requires square { AllSquare matrices.now count }
    requires fits { All (FitsRule count) neverallows.now }
    ensures none { IfOk result (λ o. IfNone o ((n : ℕ) (never : TheKept)
        → slice_get neverallows.now n ≡ Some never → IsClear matrices.now count never)) }
    ensures inside { IfOk result (λ o. IfSome o (λ place. place < length neverallows.now)) }
    ensures broken { IfOk result (λ o. IfSome o (λ place. (never : TheKept)
        → slice_get neverallows.now place ≡ Some never → IsBroken matrices.now count never)) }
    ensures first { IfOk result (λ o. IfSome o (λ place. (n : ℕ) (never : TheKept) → n < place
        → slice_get neverallows.now n ≡ Some never → IsClear matrices.now count never)) }
{
    let sets = sets_of(alloc, neverallows)?;
    let mut place = neverallows.len();
    for set in 1..SET_COUNT {
        place = first_broken_of(
            alloc,
            matrices,
            neverallows,
            &sets,
            count,
            Perms(set),
            place,
        )?;
    }
    if place < neverallows.len() {
        Ok(Some(place))
    } else {
        Ok(None)
    }
}

/// Returns the first violation: that of the first broken neverallow rule, by the first allow rule that breaks it.
fn first_among(
    alloc: Global,
    matrices: &Matrices,
    allows: &[Kept],
    neverallows: &[Kept],
    count: TypeCount,
) -> Result<Option<NumberedViolation>, AllocError>
    requires compiled { AllCompiled allows.now count 7 matrices.now }
    requires allows { All (FitsRule count) allows.now }
    requires neverallows { All (FitsRule count) neverallows.now }
    ensures none { IfOk result (λ o. IfNone o (AllApart allows.now neverallows.now count)) }
    ensures some { IfOk result (λ o. IfSome o
        (λ v. IsFirstAmong allows.now neverallows.now count v)) }
{
    match first_broken(alloc, matrices, neverallows, count)? {
        Some(n) => Ok(first_of(allows, &neverallows[n], count)),
        None => Ok(None),
    }
}

/// Returns the first violation of the neverallow rules: of the first broken neverallow rule in the order of the source,
/// by the first allow rule that breaks it; then of the least source and the least target by the order of declaration,
/// and the lowest permission by the order of bits. `None` if no allow rule allows what a neverallow rule forbids. The
/// matrices are those of the rules.
pub fn first_violation(
    alloc: Global,
    rules: &Rules,
    matrices: &Matrices,
) -> Result<Option<NumberedViolation>, AllocError>
    requires { AllCompiled rules.now.allows rules.now.count 7 matrices.now }
    ensures none { IfOk result
        (λ o. IfNone o ((policy : List TheStatement) (names : List (List ℕ))
        → RulesOf policy names rules.now
        → IsConsistent policy)) }
    ensures some { IfOk result (λ o. IfSome o
        (λ v. (policy : List TheStatement) (names : List (List ℕ))
        → RulesOf policy names rules.now
        → IsFirstViolation policy names v)) }
    ensures both { IfOk result (λ o. IfSome o
        (λ v. (policy : List TheStatement) (names : List (List ℕ))
        → RulesOf policy names rules.now
        → (written policy (at names v.source) (at names v.target) v.class v.perm
        && forbidden policy (at names v.source) (at names v.target) v.class v.perm) ≡ true)) }
{
    let allows = rules.allows();
    let neverallows = rules.neverallows();
    let count = rules.type_count();
    match first_among(alloc, matrices, allows, neverallows, count)? {
        Some(violation) => Ok(Some(violation)),
        None => Ok(None),
    }
}
