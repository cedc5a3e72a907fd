//! The answer to `svcmgr unused`.

ghost use Rattle.std.specs.Prelude.{◌≡◌, ◌<◌, ◌++◌, ◌&&◌, not, ℕ, Ok, IfErr, IfOk, OnOk, OnErr};
ghost use Rattle.std.specs.Prelude.{length, nat_eq, take};
ghost use Rattle.std.specs.List.{flat_map};
ghost use Rattle.std.specs.Io.KnownBytes.{Appends};
ghost use Rattle.sm_engine.specs.Counts.{Reports, failures_of, inner_of, greatest_count};
ghost use Rattle.sm_policy.specs.Preparing.{rules_of};
ghost use Rattle.sm_questions.specs.Buffered.{Fails, Passes, Stops};
ghost use Rattle.sm_questions.specs.Covering.{AreQuotes};
ghost use Rattle.sm_questions.specs.Differences.{is_any};
ghost use Rattle.sm_unused.specs.Unused as spec;

use crate::declarations::declaration_lines;
use crate::unused_rules::UnusedRules;
use sm_engine::{Counted, Fault, write_whole};
use sm_policy::Prepared;
use sm_questions::{Quotes, write_full};
use sm_ruletext::read;
use std::alloc::{AllocError, Global};
use std::io::Write;

/// Appends a word and the statement of a line.
fn push_rule(
    alloc: Global,
    word: &[u8],
    number: u32,
    quotes: &mut Quotes<'_>,
    held: &mut Vec<u8>,
) -> Result<(), AllocError>
    requires quotes { AreQuotes quotes.old.path.now quotes.old.text.now quotes.old }
    ensures quotes { OnOk result (AreQuotes quotes.old.path.now quotes.old.text.now quotes.new) }
    ensures line { OnOk result (held.new.items ≡ held.old.items
        ++ spec.word_line word.now quotes.old.path.now quotes.old.text.now number) }
{
    held.extend_from_slice(word)?;
    quotes.push(alloc, number, held)
}

/// Writes a line for the statement of each of these lines, and holds the last ones.
fn put_rules<W: Write>(
    alloc: Global,
    word: &[u8],
    numbers: &[u32],
    quotes: &mut Quotes<'_>,
    writer: &mut Counted<W>,
    held: &mut Vec<u8>,
) -> Result<(), Fault>
    requires count { failures_of writer.old < greatest_count }
    requires quotes { AreQuotes quotes.old.path.now quotes.old.text.now quotes.old }
    ensures quotes { OnOk result (AreQuotes quotes.old.path.now quotes.old.text.now quotes.new) }
    ensures ok { OnOk result (Passes (W.contents (inner_of writer.old)) (W.contents (inner_of writer.new))
        held.old.items held.new.items
        (flat_map (spec.word_line word.now quotes.old.path.now quotes.old.text.now) numbers.now)) }
    ensures count { OnOk result (failures_of writer.new ≡ failures_of writer.old) }
    ensures stopped { OnErr result (Stops (W.contents (inner_of writer.old)) (W.contents (inner_of writer.new))
        held.old.items (flat_map (spec.word_line word.now quotes.old.path.now quotes.old.text.now) numbers.now)) }
    ensures fault { IfErr result (λ e. Fails e (failures_of writer.old) (failures_of writer.new)) }
{
    for number in numbers {
        push_rule(alloc, word, *number, quotes, held)?;
        write_full(writer, held)?;
    }
    Ok(())
}

/// Writes a line for each rule that was found and then these lines, and holds the last ones.
fn put_all<W: Write>(
    alloc: Global,
    found: &UnusedRules,
    declared: &[u8],
    quotes: &mut Quotes<'_>,
    writer: &mut Counted<W>,
    held: &mut Vec<u8>,
) -> Result<(), Fault>
    requires count { failures_of writer.old < greatest_count }
    requires quotes { AreQuotes quotes.old.path.now quotes.old.text.now quotes.old }
    ensures ok { OnOk result (Passes (W.contents (inner_of writer.old)) (W.contents (inner_of writer.new))
        held.old.items held.new.items (spec.found_lines quotes.old.path.now quotes.old.text.now
        found.now.allows.items found.now.dontaudits.items declared.now)) }
    ensures count { OnOk result (failures_of writer.new ≡ failures_of writer.old) }
    ensures stopped { OnErr result (Stops (W.contents (inner_of writer.old)) (W.contents (inner_of writer.new))
        held.old.items (spec.found_lines quotes.old.path.now quotes.old.text.now
        found.now.allows.items found.now.dontaudits.items declared.now)) }
    ensures fault { IfErr result (λ e. Fails e (failures_of writer.old) (failures_of writer.new)) }
{
    put_rules(alloc, b"rule ", &found.allows, quotes, writer, held)?;
    put_rules(
        alloc,
        b"dontaudit ",
        &found.dontaudits,
        quotes,
        writer,
        held,
    )?;
    held.extend_from_slice(declared)?;
    Ok(())
}

/// Returns whether there are no lines.
fn is_empty(found: &UnusedRules, declared: &[u8]) -> bool
    ensures { result ≡ ((nat_eq (length found.now.allows.items) 0 && nat_eq (length found.now.dontaudits.items) 0)
        && nat_eq (length declared.now) 0) }
{
    found.are_none() && declared.is_empty()
}

/// Writes a line for each statement of a policy that is of no use, and returns whether there is none.
///
/// RULES and CONTEXTS are `rules_path` and `contexts_path`, and `text` is the policy source. The lines are of these
/// kinds, in this order, those of a kind in the order of its file:
///
/// - `rule RULES:LINE: STATEMENT`: an allow rule that grants no access which the allow rules above it don't grant
/// - `dontaudit RULES:LINE: STATEMENT`: a dontaudit rule that covers only what some allow rule grants
/// - `attribute RULES:LINE: NAME`: an attribute that no type has, or that is in no rule's source or target
/// - `type RULES:LINE: NAME`: a type that is in no rule's source or target, also by an attribute, is not permissive, and
///   is the type of no label
/// - `key CONTEXTS:LINE: KEY`: an entry whose key is no valid name, or with whose label no type may add a service. The
///   entry `*` of all other names has no line.
///
/// A STATEMENT is on one line, as [`rules`](sm_questions::rules) shows it. Rules that aren't kept don't count. A
/// neverallow rule counts for the types and attributes that it names alone.
///
/// # Errors
///
/// `WriteFault` if a write fails, `Memory` if an allocation fails; a prefix of the lines is then written.
#[tactic(auto, using(sm_questions::proofs::Sources::read_is))]
pub fn unused<W: Write>(
    alloc: Global,
    policy: &Prepared,
    rules_path: &[u8],
    contexts_path: &[u8],
    text: &[u8],
    writer: &mut Counted<W>,
) -> Result<bool, Fault>
    requires count { failures_of writer.old < greatest_count }
    requires source { rules_of text.now ≡ Ok policy.now.statements }
    ensures none { IfOk result (λ none. none
        ≡ not (is_any (spec.unused_lines rules_path.now contexts_path.now text.now policy.now))) }
    ensures written { OnOk result (Appends (W.contents (inner_of writer.old)) (W.contents (inner_of writer.new))
        (spec.unused_lines rules_path.now contexts_path.now text.now policy.now)) }
    ensures front { OnErr result ((n : ℕ)
        × Appends (W.contents (inner_of writer.old)) (W.contents (inner_of writer.new))
        (take n (spec.unused_lines rules_path.now contexts_path.now text.now policy.now))) }
    ensures reports { Reports result writer.old writer.new }
{
    let mut held = Vec::new(alloc);
    let found = UnusedRules::find(alloc, policy)?;
    // The text is a policy's source, so that it is refused only if an allocation fails.
    let Ok(statements) = read(alloc, text) else {
        return Err(Fault::Memory);
    };
    let declared = declaration_lines(alloc, policy, &statements, rules_path, contexts_path)?;
    let mut quotes = Quotes::new(alloc, rules_path, text)?;
    put_all(alloc, &found, &declared, &mut quotes, writer, &mut held)?;
    write_whole(writer, &held)?;
    Ok(is_empty(&found, &declared))
}
