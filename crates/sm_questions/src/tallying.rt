//! The number of accesses that only one of two policies allows, by the lines of the rules that grant them.

ghost use Rattle.std.specs.Prelude.{◌≡◌, ◌+◌, ◌*◌, ◌<◌, ◌≤◌, ◌^◌, ℕ, IfOk, OnOk, length, map, max, set};
ghost use Rattle.std.proofs.Common.{get_or};
ghost use Rattle.sm_types.specs.Names.{at};
ghost use Rattle.sm_types.specs.Denoting.{types};
ghost use Rattle.sm_policy.specs.Policy.{type_index};
ghost use Rattle.sm_questions.specs.FirstLines.{HasPair};
ghost use Rattle.sm_questions.specs.Granted.{LosesNothing};
ghost use Rattle.sm_questions.specs.RuleChanges as spec;
ghost use Rattle.sm_questions.specs.Tallies.{Adds, AreAll, AreCounts, CanAdd, HasPlaces, IsFull, end_of};
ghost use Rattle.sm_questions.specs.Tallies.{end_of_kept, place_of};
ghost use Rattle.sm_questions.specs.TypeNumbers.{AreNumbersIn};

use crate::first_lines::LineTable;
use crate::lookups::type_count;
use crate::lost::{is_kept, is_lost, kept_end, row_there};
use crate::type_numbers::TypeNumbers;
use sm_policy::Prepared;
use sm_rules::{Kept, PERM_COUNT};
use std::alloc::{AllocError, Global};

/// Returns the place of a line among the counts: the last one if there is none.
fn place(line: Option<u32>, end: usize) -> usize
    ensures { result ≡ place_of end line }
{
    match line {
        Some(number) => number as usize,
        None => end,
    }
}

/// Counts one more at a place.
fn count_at(counts: &mut [u64], place: usize)
    requires place { place < length counts.old }
    requires few { get_or counts.old place 0 + 1 < 2 ^ 64 }
    ensures { counts.new ≡ set counts.old place (get_or counts.old place 0 + 1) }
{
    counts[place] += 1;
}

/// Counts an access of two types, if only the first policy allows it.
#[tactic(auto, unfolding(crate::specs::RuleChanges::lost_access))]
fn count_perm(
    one: &Prepared,
    other: &Prepared,
    numbers: &[Option<u16>],
    table: &LineTable<'_>,
    source: u16,
    target: u16,
    bit: u32,
    counts: &mut [u64],
)
    requires bit { bit < 7 }
    requires numbers { numbers.now ≡ map (type_index other.now) (types one.now.statements) }
    requires table { HasPair one.now table.now source target }
    requires places { HasPlaces one.now counts.old }
    requires few { CanAdd counts.old 1 }
    ensures { Adds one.now counts.old counts.new (spec.lost_access one.now other.now
        (at (types one.now.statements) source) (at (types one.now.statements) target) bit) }
{
    if !is_lost(one, other, numbers, source, target, bit) {
        return;
    }
    let end = counts.len() - 1;
    let line = table.line(source, target, bit);
    count_at(counts, place(line, end));
}

/// Counts the accesses of two types.
#[tactic(auto, unfolding(crate::specs::RuleChanges::lost_of_pair))]
fn count_pair(
    one: &Prepared,
    other: &Prepared,
    numbers: &[Option<u16>],
    table: &LineTable<'_>,
    source: u16,
    target: u16,
    counts: &mut [u64],
)
    requires numbers { numbers.now ≡ map (type_index other.now) (types one.now.statements) }
    requires table { HasPair one.now table.now source target }
    requires places { HasPlaces one.now counts.old }
    requires few { CanAdd counts.old 7 }
    ensures { Adds one.now counts.old counts.new (spec.lost_of_pair one.now other.now
        (at (types one.now.statements) source) (at (types one.now.statements) target)) }
{
    for bit in 0..PERM_COUNT {
        count_perm(one, other, numbers, table, source, target, bit, counts);
    }
}

/// Counts the accesses of a source, which loses nothing on the targets below `from`.
#[tactic(auto, unfolding(crate::specs::RuleChanges::lost_of_source))]
fn count_rest(
    alloc: Global,
    one: &Prepared,
    other: &Prepared,
    numbers: &[Option<u16>],
    table: &LineTable<'_>,
    source: u16,
    from: u16,
    counts: &mut [u64],
) -> Result<(), AllocError>
    requires source { source < length (types one.now.statements) }
    requires from { from ≤ length (types one.now.statements) }
    requires nothing { LosesNothing 0 one.now other.now source from }
    requires numbers { numbers.now ≡ map (type_index other.now) (types one.now.statements) }
    requires table { (t : ℕ) → t < length (types one.now.statements) → HasPair one.now table.now source t }
    requires places { HasPlaces one.now counts.old }
    requires few { CanAdd counts.old (7 * length (types one.now.statements)) }
    ensures { OnOk result (Adds one.now counts.old counts.new (spec.lost_of_source one.now other.now
        (at (types one.now.statements) source))) }
{
    let here = one.granted_row(alloc, source)?;
    let there = row_there(alloc, other, numbers[usize::from(source)])?;
    for target in from..type_count(one) {
        if !is_kept(&here, &there, target, numbers[usize::from(target)]) {
            count_pair(one, other, numbers, table, source, target, counts);
        }
    }
    Ok(())
}

/// Counts the accesses of a source.
fn count_source(
    alloc: Global,
    one: &Prepared,
    other: &Prepared,
    numbers: &TypeNumbers,
    table: &mut LineTable<'_>,
    source: u16,
    counts: &mut [u64],
) -> Result<(), AllocError>
    requires source { source < length (types one.now.statements) }
    requires numbers { AreNumbersIn one.now other.now numbers.now }
    requires table { IsFull one.now table.old }
    requires places { HasPlaces one.now counts.old }
    requires few { CanAdd counts.old (7 * length (types one.now.statements)) }
    ensures table { OnOk result (IsFull one.now table.new) }
    ensures counted { OnOk result (Adds one.now counts.old counts.new (spec.lost_of_source one.now other.now
        (at (types one.now.statements) source))) }
{
    let from = kept_end(one, other, numbers, source);
    if from == type_count(one) {
        return Ok(());
    }
    table.find(usize::from(source))?;
    let numbers = numbers.numbers.as_slice();
    count_rest(alloc, one, other, numbers, table, source, from, counts)
}

/// Counts the accesses of all sources.
fn count_sources(
    alloc: Global,
    one: &Prepared,
    other: &Prepared,
    numbers: &TypeNumbers,
    table: &mut LineTable<'_>,
    counts: &mut [u64],
) -> Result<(), AllocError>
    requires numbers { AreNumbersIn one.now other.now numbers.now }
    requires table { IsFull one.now table.old }
    requires places { HasPlaces one.now counts.old }
    requires none { (p : ℕ) → p < length counts.old → get_or counts.old p 0 ≡ 0 }
    ensures { OnOk result (AreCounts one.now other.now counts.new) }
{
    for source in 0..type_count(one) {
        count_source(alloc, one, other, numbers, table, source, counts)?;
    }
    Ok(())
}

/// Returns the numbers of all types.
fn all_numbers(alloc: Global, count: u16) -> Result<Vec<u16>, AllocError>
    ensures { IfOk result (λ numbers. AreAll count numbers.items) }
{
    let mut numbers = Vec::new(alloc);
    for number in 0..count {
        numbers.push(number)?;
    }
    Ok(numbers)
}

/// Returns the greater of two numbers.
fn greater(one: usize, other: usize) -> usize
    ensures { result ≡ max one other }
{
    if one < other { other } else { one }
}

/// Returns the least number that is greater than the lines of these rules.
fn end_of_rules(rules: &[Kept]) -> usize
    ensures end { result ≡ end_of_kept rules.now }
    ensures small { result ≤ 2 ^ 32 }
{
    let mut end = 0;
    for rule in rules {
        end = greater(end, rule.line as usize + 1);
    }
    end
}

/// Returns the least number that is greater than the lines of all allow rules.
fn end_of_lines(policy: &Prepared) -> usize
    ensures end { result ≡ end_of policy.now }
    ensures small { result ≤ 2 ^ 32 }
{
    end_of_rules(policy.rules().allows())
}

/// Counts the accesses that only the first policy allows, by the line of the first rule that grants them. There is a
/// count for each line, from 0 on. The last count is that of the accesses which no rule grants.
pub fn count_lost(alloc: Global, one: &Prepared, other: &Prepared) -> Result<Vec<u64>, AllocError>
    ensures counts { IfOk result (λ counts. AreCounts one.now other.now counts.items) }
    ensures small { IfOk result (λ counts. length counts.items ≤ 2 ^ 32 + 1) }
{
    let numbers = TypeNumbers::between(alloc, one, other)?;
    let targets = all_numbers(alloc, type_count(one))?;
    let mut table = LineTable::new(alloc, one.rules(), &targets)?;
    let mut counts = vec![in alloc; 0; end_of_lines(one) + 1]?;
    count_sources(alloc, one, other, &numbers, &mut table, &mut counts)?;
    Ok(counts)
}
