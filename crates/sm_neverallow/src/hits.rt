//! The first neverallow rule that joins a pair of a matrix.
//!
//! Many rules are tested by groups of eight sources: the rows of a group are joined once for each
//! subset of them, so that a rule is tested once for all its sources in the group. Each rule is
//! tested with a few groups in turn, since the rules together are larger than a processor's
//! cache, and the unions of a few groups are not.

ghost use Rattle.std.specs.Prelude.{◌≡◌, ◌<◌, ◌≤◌, ◌+◌, ◌*◌, ◌/◌, ◌++◌, ◌∷◌, [], ℕ, length, ◌&&◌, All, IsTrue, IfOk};
ghost use Rattle.std.specs.Prelude.{Some, slice_get, nat_eq, ◌||◌, false, true, if◌then◌else◌};
ghost use Rattle.sm_bits.specs.Bits.{has, row, has_bit};
ghost use Rattle.sm_rules.specs.Keeping.{FitsRule};
ghost use Rattle.sm_matrices.specs.Matrices.{perm_set, is_of_set, Square};
ghost use Rattle.sm_matrices.specs.Uniting.{AreWide};
ghost use Rattle.sm_neverallow.specs.Hitting.{Misses, Hits, IsPlaceOf, UnionMisses, UnionHits, AreReady, AllUnite};
ghost use Rattle.sm_neverallow.specs.Hitting.{AllMiss, SomeHit, MissesGroups, OwnMisses, OwnHits, ArePlaces, Escapes};
ghost use Rattle.sm_neverallow.specs.Hitting.{Chosen, FindsFirst};
ghost use Rattle.sm_rules.specs.declared.kept.Kept.{Kept as TheKept};

use sm_bits::{BitRow, with_bit};
use sm_matrices::{GROUP, Matrix, Unions, perm_set};
use sm_rules::Kept;
use sm_types::TypeCount;
use sm_values::Perms;
use std::alloc::{AllocError, Global};

/// The number of rules with every source that cost as much as the unions of all groups.
const MANY: usize = 192;

/// The number of groups that are tested together.
const GROUPS: usize = 4;

/// Adds a bit, if the rule has that source of the group.
fn with_source(byte: u8, rule: &Kept, group: usize, bit: u32) -> u8
    requires bit { bit < 8 }
    requires room { 8 * group + 8 ≤ 64 * length rule.now.sources }
    requires group { group < 1024 }
    ensures { (b : ℕ) → has_bit result b
        ≡ (has_bit byte b || (nat_eq b bit && has rule.now.sources (8 * group + bit))) }
{
    if rule.sources.has(GROUP * group + bit as usize) {
        with_bit(byte, bit)
    } else {
        byte
    }
}

/// Which of the eight sources of a group a rule has, a bit for each.
fn place_in_group(rule: &Kept, group: usize) -> u8
    requires room { 8 * group + 8 ≤ 64 * length rule.now.sources }
    requires group { group < 1024 }
    ensures { IsPlaceOf result group rule.now }
{
    let mut place = 0u8;
    for bit in 0..8u32 {
        place = with_source(place, rule, group, bit);
    }
    place
}

/// Returns whether a rule joins a source of the group to a target of its row.
fn is_group_hit(unions: &Unions, rule: &Kept, count: TypeCount, group: usize) -> bool
    requires group { group < 8 * (count / 64 + 1) }
    requires number { length unions.now ≡ 256 }
    requires wide { AreWide (count / 64 + 1) unions.now }
    requires none { (t : ℕ) → has (row unions.now 0) t ≡ false }
    requires rule { FitsRule count rule.now }
    ensures none { result ≡ false → UnionMisses unions.now group rule.now }
    ensures some { IsTrue result → UnionHits unions.now group rule.now }
{
    let words = count.words();
    let place = place_in_group(rule, group);
    // The first union is empty.
    place != 0 && unions.meets(place as usize, &rule.targets, words)
}

/// Returns whether a rule joins one of these sources to itself by `self`.
fn is_own_hit(own: &BitRow, rule: &Kept) -> bool
    requires { length own.now ≡ length rule.now.sources }
    ensures none { result ≡ false → OwnMisses own.now rule.now }
    ensures some { IsTrue result → OwnHits own.now rule.now }
{
    rule.to_self && rule.sources.meets_row(own)
}

/// Returns whether a rule joins a source of one of the groups to a target of its row.
fn is_hit(all: &[Unions], rule: &Kept, count: TypeCount, first: usize) -> bool
    requires groups { first + length all.now ≤ 8 * (count / 64 + 1) }
    requires ready { AreReady count all.now }
    requires rule { FitsRule count rule.now }
    ensures none { result ≡ false → AllMiss all.now first rule.now }
    ensures some { IsTrue result → SomeHit all.now first rule.now }
{
    prove!(first <= 8 * count.words());
    for j in 0..all.len() {
        if is_group_hit(&all[j], rule, count, first + j) {
            return true;
        }
    }
    false
}

/// Returns the first of the indexes below `end` whose rule joins a source of one of the groups to a target of its row,
/// or `end` if there is none.
fn first_in_groups(
    all: &[Unions],
    rules: &[Kept],
    places: &[usize],
    count: TypeCount,
    first: usize,
    end: usize,
) -> usize
    requires groups { first + length all.now ≤ 8 * (count / 64 + 1) }
    requires ready { AreReady count all.now }
    requires fits { All (FitsRule count) rules.now }
    requires places { ArePlaces rules.now places.now }
    requires end { end ≤ length places.now }
    ensures { FindsFirst rules.now places.now end result
        (SomeHit all.now first) (AllMiss all.now first) }
{
    for k in 0..end {
        if is_hit(all, &rules[places[k]], count, first) {
            return k;
        }
    }
    end
}

/// Returns the unions of the rows of a few groups.
fn unions_of(
    alloc: Global,
    matrix: &Matrix,
    count: TypeCount,
    first: usize,
) -> Result<Vec<Unions>, AllocError>
    requires groups { first + 4 ≤ 8 * (count / 64 + 1) }
    requires square { Square matrix.now count }
    ensures number { IfOk result (λ all. length all.items ≡ 4) }
    ensures ready { IfOk result (λ all. AreReady count all.items) }
    ensures united { IfOk result (λ all. AllUnite matrix.now first all.items) }
{
    prove!(first <= 8 * count.words());
    let mut all = Vec::new(alloc);
    for j in 0..GROUPS {
        let unions = matrix.unions_of(alloc, count, first + j)?;
        all.push(unions)?;
    }
    Ok(all)
}

/// Returns the first of the indexes whose rule joins one of these sources to itself by `self`, or their number if there
/// is none.
fn first_own(own: &BitRow, rules: &[Kept], places: &[usize], count: TypeCount) -> usize
    requires own { length own.now ≡ count / 64 + 1 }
    requires fits { All (FitsRule count) rules.now }
    requires places { ArePlaces rules.now places.now }
    ensures { FindsFirst rules.now places.now (length places.now) result
        (OwnHits own.now) (OwnMisses own.now) }
{
    for k in 0..places.len() {
        if is_own_hit(own, &rules[places[k]]) {
            return k;
        }
    }
    places.len()
}

/// Returns the first index below `end` whose rule joins a source of one of a few groups to a target of its row in the
/// matrix, or `end` if there is none.
fn first_of_groups(
    alloc: Global,
    matrix: &Matrix,
    rules: &[Kept],
    places: &[usize],
    count: TypeCount,
    first: usize,
    end: usize,
) -> Result<usize, AllocError>
    requires groups { first + 4 ≤ 8 * (count / 64 + 1) }
    requires square { Square matrix.now count }
    requires fits { All (FitsRule count) rules.now }
    requires places { ArePlaces rules.now places.now }
    requires end { end ≤ length places.now }
    ensures { IfOk result (λ found. FindsFirst rules.now places.now end found
        (Hits matrix.now count) (MissesGroups matrix.now first 4)) }
{
    let all = unions_of(alloc, matrix, count, first)?;
    Ok(first_in_groups(&all, rules, places, count, first, end))
}

/// Returns the first of the indexes whose rule joins a pair of the matrix, found rule by rule, or their number if there
/// is none.
fn first_by_rules(matrix: &Matrix, rules: &[Kept], places: &[usize], count: TypeCount) -> usize
    requires square { Square matrix.now count }
    requires fits { All (FitsRule count) rules.now }
    requires places { ArePlaces rules.now places.now }
    ensures { FindsFirst rules.now places.now (length places.now) result
        (Hits matrix.now count) (Misses matrix.now count) }
{
    for k in 0..places.len() {
        if matrix.meets(&rules[places[k]], count) {
            return k;
        }
    }
    places.len()
}

/// Returns whether a rule may join a source to one of these targets, which are those of all sources.
fn may_hit(targets: &BitRow, rule: &Kept) -> bool
    requires row { length targets.now ≡ length rule.now.targets }
    requires own { length targets.now ≡ length rule.now.sources }
    ensures { result ≡ false → Escapes targets.now rule.now }
{
    rule.targets.meets_row(targets) || is_own_hit(targets, rule)
}

/// Returns whether a rule has exactly the permissions `set`, and may join a source to one of these targets.
fn is_candidate(targets: &BitRow, rule: &Kept, count: TypeCount, set: Perms) -> bool
    requires row { length targets.now ≡ count / 64 + 1 }
    requires rule { FitsRule count rule.now }
    ensures some { result ≡ true → perm_set rule.now ≡ set.0 }
    ensures none { result ≡ false → perm_set rule.now ≡ set.0 → Escapes targets.now rule.now }
{
    perm_set(rule) == set && may_hit(targets, rule)
}

/// Returns the indexes of the rules below `end` that have exactly the permissions `set`. Some are left out that join no
/// source to one of these targets, which are those of all sources. Most neverallow rules forbid what no rule allows to
/// any source.
fn places_of(
    alloc: Global,
    rules: &[Kept],
    targets: &BitRow,
    count: TypeCount,
    set: Perms,
    end: usize,
) -> Result<Vec<usize>, AllocError>
    requires row { length targets.now ≡ count / 64 + 1 }
    requires fits { All (FitsRule count) rules.now }
    requires end { end ≤ length rules.now }
    ensures { IfOk result (λ places. Chosen rules.now set.0 end (Escapes targets.now) places.items) }
{
    let mut places = Vec::new(alloc);
    for place in 0..end {
        if is_candidate(targets, &rules[place], count, set) {
            places.push(place)?;
        }
    }
    Ok(places)
}

/// Returns whether the rules have enough sources in all for the unions to cost less than they save. Either answer is
/// right; only the time differs.
fn have_many_sources(rules: &[Kept], places: &[usize], count: TypeCount) -> bool
    requires fits { All (FitsRule count) rules.now }
    requires places { ArePlaces rules.now places.now }
{
    let many = MANY * count.get();
    let mut sources = 0;
    for place in places {
        sources += rules[*place].sources.weight();
        if sources >= many {
            return true;
        }
    }
    false
}

/// Returns the first of the indexes whose rule joins a pair of the matrix, or their number if there is none.
fn first_of_places(
    alloc: Global,
    matrix: &Matrix,
    rules: &[Kept],
    places: &[usize],
    count: TypeCount,
) -> Result<usize, AllocError>
    requires square { Square matrix.now count }
    requires fits { All (FitsRule count) rules.now }
    requires places { ArePlaces rules.now places.now }
    ensures { IfOk result (λ found. FindsFirst rules.now places.now (length places.now) found
        (Hits matrix.now count) (Misses matrix.now count)) }
{
    if !have_many_sources(rules, places, count) {
        return Ok(first_by_rules(matrix, rules, places, count));
    }
    let own = matrix.own_sources(alloc, count)?;
    let mut found = first_own(&own, rules, places, count);
    // A word of a row has 64 sources, and so eight groups.
    for step in 0..2 * count.words() {
        found = first_of_groups(alloc, matrix, rules, places, count, GROUPS * step, found)?;
    }
    Ok(found)
}

/// Returns the index of the first rule below `end` that has exactly the permissions `set` and joins a pair of the
/// matrix, or `end` if none does.
pub fn first_hit(
    alloc: Global,
    matrix: &Matrix,
    rules: &[Kept],
    count: TypeCount,
    set: Perms,
    end: usize,
) -> Result<usize, AllocError>
    requires square { Square matrix.now count }
    requires fits { All (FitsRule count) rules.now }
    requires end { end ≤ length rules.now }
    ensures end { IfOk result (λ place. place ≤ end) }
    ensures hit { IfOk result (λ place. (rule : TheKept) → place < end
        → slice_get rules.now place ≡ Some rule
        → (perm_set rule ≡ set.0) × Hits matrix.now count rule) }
    ensures first { IfOk result (λ place. (n : ℕ) (rule : TheKept) → n < place
        → slice_get rules.now n ≡ Some rule → perm_set rule ≡ set.0
        → Misses matrix.now count rule) }
{
    let targets = matrix.all_targets(alloc, count)?;
    let places = places_of(alloc, rules, &targets, count, set, end)?;
    let found = first_of_places(alloc, matrix, rules, &places, count)?;
    if found < places.len() {
        Ok(places[found])
    } else {
        Ok(end)
    }
}
