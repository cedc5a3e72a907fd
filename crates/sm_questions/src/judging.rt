//! The answer to `svcmgr check --all`.

ghost use Rattle.std.specs.Prelude.{◌≡◌, ◌<◌, ◌++◌, ℕ, IfErr, IfOk, OnOk, OnErr, take};
ghost use Rattle.std.specs.List.{flat_map};
ghost use Rattle.std.specs.Io.KnownBytes.{Appends};
ghost use Rattle.sm_engine.specs.Counts.{Reports, failures_of, inner_of, greatest_count};
ghost use Rattle.sm_policy.specs.Preparing.{prepared};
ghost use Rattle.sm_questions.specs.Checking.{refusal_in};
ghost use Rattle.sm_violations.specs.Listing.{violations_in};
ghost use Rattle.sm_questions.specs.Buffered.{Fails, Passes, Stops};
ghost use Rattle.sm_questions.specs.Judged as spec;

use crate::buffer::write_full;
use crate::checking::{judge, refused_line};
use sm_engine::{Counted, Fault, write_whole};
use sm_policy::{PolicyFault, Violation};
use sm_violations::Violations;
use std::alloc::{AllocError, Global};
use std::io::Write;

/// Appends the line for a violation.
fn push_violation(alloc: Global, violation: Violation, held: &mut Vec<u8>) -> Result<(), AllocError>
    ensures { OnOk result (held.new.items ≡ held.old.items ++ spec.violation_line violation) }
{
    let line = refused_line(alloc, &PolicyFault::Neverallow(violation))?;
    held.extend_from_slice(&line)
}

/// Writes the lines for all violations that aren't taken yet, and holds the last ones.
fn put_violations<W: Write>(
    alloc: Global,
    violations: &mut Violations,
    writer: &mut Counted<W>,
    held: &mut Vec<u8>,
) -> Result<(), Fault>
    requires count { failures_of writer.old < greatest_count }
    ensures ok { OnOk result (Passes (W.contents (inner_of writer.old)) (W.contents (inner_of writer.new))
        held.old.items held.new.items (flat_map spec.violation_line violations.old)) }
    ensures count { OnOk result (failures_of writer.new ≡ failures_of writer.old) }
    ensures stopped { OnErr result (Stops (W.contents (inner_of writer.old)) (W.contents (inner_of writer.new))
        held.old.items (flat_map spec.violation_line violations.old)) }
    ensures fault { IfErr result (λ e. Fails e (failures_of writer.old) (failures_of writer.new)) }
{
    'violations: while let Some(violation) = violations.take(alloc)? {
        push_violation(alloc, violation, held)?;
        write_full(writer, held)?;
    }
    Ok(())
}

/// Writes the lines for all violations in a policy source.
fn put_all<W: Write>(alloc: Global, rules: &[u8], writer: &mut Counted<W>) -> Result<(), Fault>
    requires count { failures_of writer.old < greatest_count }
    ensures written { OnOk result (Appends (W.contents (inner_of writer.old)) (W.contents (inner_of writer.new))
        (spec.violation_lines (violations_in rules.now))) }
    ensures front { OnErr result ((n : ℕ)
        × Appends (W.contents (inner_of writer.old)) (W.contents (inner_of writer.new))
        (take n (spec.violation_lines (violations_in rules.now)))) }
    ensures reports { Reports result writer.old writer.new }
{
    let mut violations = match Violations::read(alloc, rules) {
        Ok(violations) => violations,
        Err(PolicyFault::Memory) => return Err(Fault::Memory),
        Err(_) => return Ok(()),
    };
    let mut held = Vec::new(alloc);
    put_violations(alloc, &mut violations, writer, &mut held)?;
    write_whole(writer, &held)
}

/// Returns whether a policy is refused for a neverallow rule.
fn is_broken(refusal: &Option<PolicyFault>) -> bool
    ensures { result ≡ spec.is_broken refusal.now }
{
    matches!(refusal, Some(PolicyFault::Neverallow(_)))
}

/// Writes a line as [`check`](crate::check) does; of a policy source that breaks neverallow rules, a line for each
/// of these with each allow rule that breaks it. Returns the refusal of the policy, if it is refused.
///
/// The lines are in the order of the neverallow rules, and for each of these in that of the allow rules. Each has the
/// first access that both rules have: that of the least source, then the least target and the lowest permission.
///
/// # Errors
///
/// `WriteFault` if a write fails, `Memory` if an allocation fails; a prefix of the lines is then written.
pub fn check_all<W: Write>(
    alloc: Global,
    rules: &[u8],
    contexts: &[u8],
    writer: &mut Counted<W>,
) -> Result<Option<PolicyFault>, Fault>
    requires { failures_of writer.old < greatest_count }
    ensures refusal { IfOk result (λ refusal. refusal ≡ refusal_in (prepared rules.now contexts.now)) }
    ensures written { OnOk result (Appends (W.contents (inner_of writer.old)) (W.contents (inner_of writer.new))
        (spec.judged_lines rules.now contexts.now)) }
    ensures front { OnErr result ((n : ℕ)
        × Appends (W.contents (inner_of writer.old)) (W.contents (inner_of writer.new))
        (take n (spec.judged_lines rules.now contexts.now))) }
    ensures reports { Reports result writer.old writer.new }
{
    let verdict = judge(alloc, rules, contexts)?;
    if is_broken(&verdict.refusal) {
        put_all(alloc, rules, writer)?;
    } else {
        write_whole(writer, &verdict.line)?;
    }
    Ok(verdict.refusal)
}
