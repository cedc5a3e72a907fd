//! What an allow rule and a neverallow rule have in common.

ghost use Rattle.std.specs.Prelude.{◌≡◌, ◌<◌, ◌≤◌, ◌+◌, ◌*◌, ◌/◌, ◌^◌, ◌&&◌, ℕ, length, false, true, IfSome, IfNone};
ghost use Rattle.sm_bits.specs.Bits.{has, has_bit};
ghost use Rattle.sm_rules.specs.Keeping.{FitsRule};
ghost use Rattle.sm_neverallow.specs.Violating.{both_join, AreApart, IsBetween};
ghost use Rattle.sm_violations.specs.Clashing.{in_both, join_own, IsFirstCommon, IsFirstTarget};

use sm_bits::SharedSet;
use sm_neverallow::NumberedViolation;
use sm_rules::{Kept, PERM_COUNT, class_at, has_perm, perm_at};
use sm_types::TypeCount;

/// Returns the lowest permission that both rules grant or forbid.
fn first_perm(allow: &Kept, never: &Kept) -> Option<u32>
    ensures none { IfNone result ((b : ℕ) → b < 7
        → (has_bit allow.now.perms.0 b && has_bit never.now.perms.0 b) ≡ false) }
    ensures some { IfSome result (λ b. (b < 7)
        × ((has_bit allow.now.perms.0 b && has_bit never.now.perms.0 b) ≡ true)) }
    ensures lowest { IfSome result (λ b. (c : ℕ) → c < b
        → (has_bit allow.now.perms.0 c && has_bit never.now.perms.0 c) ≡ false) }
{
    for bit in 0..PERM_COUNT {
        if has_perm(allow.perms, bit) && has_perm(never.perms, bit) {
            return Some(bit);
        }
    }
    None
}

/// Returns the least number from `start` on that is in both sets.
fn next_common(first: &SharedSet, second: &SharedSet, start: usize) -> Option<usize>
    requires room { length first.now ≡ length second.now }
    requires few { length first.now < 2 ^ 32 }
    ensures none { IfNone result ((j : ℕ) → start ≤ j → in_both first.now second.now j ≡ false) }
    ensures some { IfSome result (λ i. (start ≤ i) × (i < 64 * length first.now)
        × (in_both first.now second.now i ≡ true)) }
    ensures first { IfSome result (λ i. (j : ℕ) → start ≤ j → j < i → in_both first.now second.now j ≡ false) }
{
    if !first.meets(second) {
        return None;
    }
    let mut from = start;
    'search: loop {
        let i = first.next(from)?;
        let j = second.next(i)?;
        if i == j {
            return Some(i);
        }
        from = j;
    }
}

/// Returns whether both rules may join a type to itself, if they have no target in common. `false` is sure.
fn may_join_own(allow: &Kept, never: &Kept) -> bool
    requires sources { length allow.now.targets ≡ length never.now.sources }
    requires targets { length never.now.targets ≡ length allow.now.sources }
    ensures { result ≡ false → (s : ℕ) → join_own s allow.now never.now ≡ false }
{
    (allow.to_self || allow.targets.meets(&never.sources))
        && (never.to_self || never.targets.meets(&allow.sources))
}

/// Returns the first target to which both rules join a source that both have. `common` is the first target that both
/// have.
fn first_target(allow: &Kept, never: &Kept, common: Option<usize>, s: usize) -> Option<usize>
    requires allow { s < 64 * length allow.now.targets }
    requires never { s < 64 * length never.now.targets }
    requires allow_source { s < 64 * length allow.now.sources }
    requires never_source { s < 64 * length never.now.sources }
    requires source { in_both allow.now.sources never.now.sources s ≡ true }
    requires common { IsFirstCommon allow.now.targets never.now.targets common }
    ensures { IsFirstTarget allow.now never.now s result }
{
    let own = allow.joins(s, s) && never.joins(s, s);
    match common {
        Some(t) if t <= s => Some(t),
        _ if own => Some(s),
        _ => common,
    }
}

/// Returns the first source, and its first target, that both rules join.
fn first_pair(allow: &Kept, never: &Kept, count: TypeCount) -> Option<(u16, u16)>
    requires first { FitsRule count allow.now }
    requires second { FitsRule count never.now }
    ensures none { IfNone result ((s t : ℕ) → both_join s t allow.now never.now ≡ false) }
    ensures some { IfSome result (λ p. (p.0 < count) × (p.1 < count)
        × (both_join p.0 p.1 allow.now never.now ≡ true)) }
    ensures source { IfSome result (λ p. (s t : ℕ) → s < p.0 → both_join s t allow.now never.now ≡ false) }
    ensures target { IfSome result (λ p. (t : ℕ) → t < p.1 → both_join p.0 t allow.now never.now ≡ false) }
{
    let common = next_common(&allow.targets, &never.targets, 0);
    if common.is_none() && !may_join_own(allow, never) {
        return None;
    }
    let mut from = 0;
    'sources: loop {
        let s = next_common(&allow.sources, &never.sources, from)?;
        if let Some(t) = first_target(allow, never, common, s) {
            return Some((s as u16, t as u16));
        }
        from = s + 1;
    }
}

/// Returns the first thing that a neverallow rule forbids and an allow rule allows: the least source, then the least
/// target, then the lowest permission.
pub fn clash(allow: &Kept, never: &Kept, count: TypeCount) -> Option<NumberedViolation>
    requires allow { FitsRule count allow.now }
    requires never { FitsRule count never.now }
    ensures none { IfNone result (AreApart allow.now never.now count) }
    ensures some { IfSome result (λ v. IsBetween allow.now never.now count v) }
{
    let bit = first_perm(allow, never)?;
    let (source, target) = first_pair(allow, never, count)?;
    Some(NumberedViolation {
        never_line: never.line,
        allow_line: allow.line,
        source,
        target,
        class: class_at(bit),
        perm: perm_at(bit),
    })
}
