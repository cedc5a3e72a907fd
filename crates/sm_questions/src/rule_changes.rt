//! Lines for rules that grant what only one of two policies allows.

ghost use Rattle.std.specs.Prelude.{◌≡◌, ◌<◌, ◌≤◌, ◌+◌, ◌^◌, ◌++◌, ◌∷◌, [], codes, IfErr, IfOk, OnOk, OnErr, length};
ghost use Rattle.std.specs.List.{flat_map};
ghost use Rattle.sm_engine.specs.Counts.{failures_of, inner_of, greatest_count};
ghost use Rattle.sm_values.specs.Messages.{numbered};
ghost use Rattle.sm_questions.specs.Buffered.{Fails, Passes, Stops};
ghost use Rattle.sm_questions.specs.Covering.{AreQuotes};
ghost use Rattle.sm_questions.specs.Differences.{is_any};
ghost use Rattle.sm_questions.specs.RuleChanges as spec;
ghost use Rattle.sm_questions.specs.Tallies.{counted_at};

use crate::buffer::{either, write_full};
use crate::quotes::Quotes;
use crate::tallying::count_lost;
use sm_engine::{Counted, Fault};
use sm_policy::Prepared;
use sm_values::push_numbered;
use std::alloc::{AllocError, Global};
use std::io::Write;

/// A policy source, by its path and its text.
#[derive(Drop)]
pub struct RulesFile<'a> {
    pub path: &'a [u8],
    pub text: &'a [u8],
}

/// Appends a sign, a count and a space.
fn push_count(sign: u8, count: u64, held: &mut Vec<u8>) -> Result<(), AllocError>
    ensures { OnOk result (held.new.items
        ≡ held.old.items ++ (sign ∷ 32 ∷ (numbered [] count ++ codes " "))) }
{
    held.extend_from_slice(&[sign, b' '])?;
    push_numbered(held, b"", count)?;
    held.extend_from_slice(b" ")
}

/// Appends the line for the count at a place, unless it is 0.
fn push_place(
    alloc: Global,
    sign: u8,
    counts: &[u64],
    place: usize,
    quotes: &mut Quotes<'_>,
    held: &mut Vec<u8>,
) -> Result<(), AllocError>
    requires place { place < length counts.now }
    requires small { length counts.now ≤ 2 ^ 32 + 1 }
    requires quotes { AreQuotes quotes.old.path.now quotes.old.text.now quotes.old }
    ensures quotes { OnOk result (AreQuotes quotes.old.path.now quotes.old.text.now quotes.new) }
    ensures line { OnOk result (held.new.items ≡ held.old.items
        ++ counted_at sign quotes.old.path.now quotes.old.text.now counts.now place) }
{
    let count = counts[place];
    if count == 0 {
        return Ok(());
    }
    push_count(sign, count, held)?;
    if place + 1 == counts.len() {
        return held.extend_from_slice(b"permissive\n");
    }
    quotes.push(alloc, place as u32, held)
}

/// Writes the lines for all counts, and holds the last ones. Returns whether there are any.
fn put_counts<W: Write>(
    alloc: Global,
    sign: u8,
    counts: &[u64],
    quotes: &mut Quotes<'_>,
    writer: &mut Counted<W>,
    held: &mut Vec<u8>,
) -> Result<bool, Fault>
    requires count { failures_of writer.old < greatest_count }
    requires quotes { AreQuotes quotes.old.path.now quotes.old.text.now quotes.old }
    requires small { length counts.now ≤ 2 ^ 32 + 1 }
    ensures ok { OnOk result (Passes (W.contents (inner_of writer.old)) (W.contents (inner_of writer.new))
        held.old.items held.new.items
        (flat_map (counted_at sign quotes.old.path.now quotes.old.text.now counts.now)
        (spec.numbers_from 0 (length counts.now)))) }
    ensures any { IfOk result (λ any. any ≡ is_any
        (flat_map (counted_at sign quotes.old.path.now quotes.old.text.now counts.now)
        (spec.numbers_from 0 (length counts.now)))) }
    ensures count { OnOk result (failures_of writer.new ≡ failures_of writer.old) }
    ensures stopped { OnErr result (Stops (W.contents (inner_of writer.old)) (W.contents (inner_of writer.new))
        held.old.items
        (flat_map (counted_at sign quotes.old.path.now quotes.old.text.now counts.now)
        (spec.numbers_from 0 (length counts.now)))) }
    ensures fault { IfErr result (λ e. Fails e (failures_of writer.old) (failures_of writer.new)) }
{
    let mut any = false;
    for place in 0..counts.len() {
        let before = held.len();
        push_place(alloc, sign, counts, place, quotes, held)?;
        any = either(any, held.len() > before);
        write_full(writer, held)?;
    }
    Ok(any)
}

/// Writes the lines for the rules that are the first to grant what only the first policy allows, and holds the last
/// ones. Returns whether there are any.
pub fn put_changes<W: Write>(
    alloc: Global,
    sign: u8,
    one: &Prepared,
    other: &Prepared,
    file: &RulesFile<'_>,
    writer: &mut Counted<W>,
    held: &mut Vec<u8>,
) -> Result<bool, Fault>
    requires { failures_of writer.old < greatest_count }
    ensures ok { OnOk result (Passes (W.contents (inner_of writer.old)) (W.contents (inner_of writer.new))
        held.old.items held.new.items
        (spec.rule_changes sign file.now.path.now file.now.text.now one.now other.now)) }
    ensures any { IfOk result (λ any. any
        ≡ is_any (spec.rule_changes sign file.now.path.now file.now.text.now one.now other.now)) }
    ensures count { OnOk result (failures_of writer.new ≡ failures_of writer.old) }
    ensures stopped { OnErr result (Stops (W.contents (inner_of writer.old)) (W.contents (inner_of writer.new))
        held.old.items
        (spec.rule_changes sign file.now.path.now file.now.text.now one.now other.now)) }
    ensures fault { IfErr result (λ e. Fails e (failures_of writer.old) (failures_of writer.new)) }
{
    let counts = count_lost(alloc, one, other)?;
    let mut quotes = Quotes::new(alloc, file.path, file.text)?;
    put_counts(alloc, sign, &counts, &mut quotes, writer, held)
}
