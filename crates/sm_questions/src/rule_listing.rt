//! The answer to `svcmgr rules`.

ghost use Rattle.std.specs.Prelude.{◌≡◌, ◌<◌, ℕ, Ok, IfErr, IfOk, OnOk, OnErr, take};
ghost use Rattle.std.specs.Io.KnownBytes.{Appends};
ghost use Rattle.sm_engine.specs.Counts.{Reports, failures_of, inner_of, greatest_count};
ghost use Rattle.sm_policy.specs.Preparing.{rules_of};
ghost use Rattle.sm_questions.specs.Buffered.{Fails, Passes, Stops};
ghost use Rattle.sm_questions.specs.Covering.{AreLeft, AreQuotes};
ghost use Rattle.sm_questions.specs.RuleLines as spec;

use crate::RuleFilter;
use crate::buffer::write_full;
use crate::left::Left;
use crate::listed::push_listed;
use crate::passed::Passed;
use crate::quotes::Quotes;
use sm_engine::{Counted, Fault, write_whole};
use sm_policy::Prepared;
use sm_ruletext::{Statement, read};
use std::alloc::Global;
use std::io::Write;

/// Writes the lines for all statements of the policy, and holds the last ones.
fn put_statements<W: Write>(
    alloc: Global,
    policy: &Prepared,
    filter: &RuleFilter<'_>,
    left: &Left,
    statements: &[Statement],
    quotes: &mut Quotes<'_>,
    writer: &mut Counted<W>,
    held: &mut Vec<u8>,
) -> Result<(), Fault>
    requires count { failures_of writer.old < greatest_count }
    requires left { AreLeft policy.now filter.now.accesses left.now }
    requires statements { statements.now ≡ policy.now.statements }
    requires quotes { AreQuotes quotes.old.path.now quotes.old.text.now quotes.old }
    ensures ok { OnOk result (Passes (W.contents (inner_of writer.old)) (W.contents (inner_of writer.new))
        held.old.items held.new.items (spec.rule_lines quotes.old.path.now quotes.old.text.now policy.now filter.now)) }
    ensures count { OnOk result (failures_of writer.new ≡ failures_of writer.old) }
    ensures stopped { OnErr result (Stops (W.contents (inner_of writer.old)) (W.contents (inner_of writer.new))
        held.old.items (spec.rule_lines quotes.old.path.now quotes.old.text.now policy.now filter.now)) }
    ensures fault { IfErr result (λ e. Fails e (failures_of writer.old) (failures_of writer.new)) }
{
    let mut passed = Passed::none();
    for statement in statements {
        push_listed(
            alloc, policy, filter, left, &passed, statement, quotes, held,
        )?;
        write_full(writer, held)?;
        passed.add(statement);
    }
    Ok(())
}

/// Writes a line `FILE:LINE: STATEMENT` for each kept rule of the kind that is asked for which covers an access that the
/// filter leaves.
///
/// FILE is `path`, and `text` is the policy source. STATEMENT is the rule on one line, with one space between its words
/// and without comments. The lines are in the order of the source.
///
/// # Errors
///
/// `WriteFault` if a write fails, `Memory` if an allocation fails; a prefix of the lines is then written.
#[tactic(auto, using(crate::proofs::Sources::read_is))]
pub fn rules<W: Write>(
    alloc: Global,
    policy: &Prepared,
    filter: &RuleFilter<'_>,
    path: &[u8],
    text: &[u8],
    writer: &mut Counted<W>,
) -> Result<(), Fault>
    requires count { failures_of writer.old < greatest_count }
    requires source { rules_of text.now ≡ Ok policy.now.statements }
    ensures written { OnOk result (Appends (W.contents (inner_of writer.old)) (W.contents (inner_of writer.new))
        (spec.rule_lines path.now text.now policy.now filter.now)) }
    ensures front { OnErr result ((n : ℕ)
        × Appends (W.contents (inner_of writer.old)) (W.contents (inner_of writer.new))
        (take n (spec.rule_lines path.now text.now policy.now filter.now))) }
    ensures reports { Reports result writer.old writer.new }
{
    let mut held = Vec::new(alloc);
    let left = Left::of(alloc, policy, &filter.accesses)?;
    // The text is a policy's source, so that it is refused only if an allocation fails.
    let Ok(statements) = read(alloc, text) else {
        return Err(Fault::Memory);
    };
    let mut quotes = Quotes::new(alloc, path, text)?;
    put_statements(
        alloc,
        policy,
        filter,
        &left,
        &statements,
        &mut quotes,
        writer,
        &mut held,
    )?;
    write_whole(writer, &held)
}
