//! The answer to `svcmgr diff --rules`.

ghost use Rattle.std.specs.Prelude.{◌≡◌, ◌<◌, not, ℕ, IfErr, IfOk, OnOk, OnErr, take};
ghost use Rattle.std.specs.Io.KnownBytes.{Appends};
ghost use Rattle.sm_engine.specs.Counts.{Reports, failures_of, inner_of, greatest_count};
ghost use Rattle.sm_questions.specs.Buffered.{Fails, Passes, Stops};
ghost use Rattle.sm_questions.specs.Differences.{is_any, rest};
ghost use Rattle.sm_questions.specs.RuleChanges as spec;

use crate::buffer::either;
use crate::comparing::put_part;
use crate::part::Part;
use crate::rule_changes::{RulesFile, put_changes};
use sm_engine::{Counted, Fault, write_whole};
use sm_policy::Prepared;
use std::alloc::Global;
use std::io::Write;

/// The parts of the answer behind its rules, in their order.
const OTHER_PARTS: [Part; 4] = [Part::Relabelled, Part::Added, Part::Ceased, Part::Became];

/// Writes the lines for labels and permissive types, and holds the last ones. Returns whether there are any.
fn put_others<W: Write>(
    alloc: Global,
    old: &Prepared,
    new: &Prepared,
    writer: &mut Counted<W>,
    held: &mut Vec<u8>,
) -> Result<bool, Fault>
    requires { failures_of writer.old < greatest_count }
    ensures ok { OnOk result (Passes (W.contents (inner_of writer.old)) (W.contents (inner_of writer.new))
        held.old.items held.new.items (rest old.now new.now)) }
    ensures any { IfOk result (λ any. any ≡ is_any (rest old.now new.now)) }
    ensures count { OnOk result (failures_of writer.new ≡ failures_of writer.old) }
    ensures stopped { OnErr result (Stops (W.contents (inner_of writer.old)) (W.contents (inner_of writer.new))
        held.old.items (rest old.now new.now)) }
    ensures fault { IfErr result (λ e. Fails e (failures_of writer.old) (failures_of writer.new)) }
{
    let mut any = false;
    for part in &OTHER_PARTS {
        let more = put_part(alloc, *part, old, new, writer, held)?;
        any = either(any, more);
    }
    Ok(any)
}

/// Writes what differs between two policies as [`diff`](crate::diff) does, but a line for each rule that grants some of
/// what differs in place of one for each access. Returns whether nothing differs.
///
/// `- COUNT FILE:LINE: STATEMENT` is a rule of the old policy. COUNT is the number of accesses that it is the first to
/// grant and that the new policy doesn't allow; rules that begin on one line are counted together. `- COUNT permissive`
/// follows for the accesses that no rule grants. The same with `+` follows for the new policy, and then what else
/// differs.
///
/// # Errors
///
/// `WriteFault` if a write fails, `Memory` if an allocation fails; a prefix of the lines is then written.
pub fn diff_rules<W: Write>(
    alloc: Global,
    old: &Prepared,
    old_file: &RulesFile<'_>,
    new: &Prepared,
    new_file: &RulesFile<'_>,
    writer: &mut Counted<W>,
) -> Result<bool, Fault>
    requires { failures_of writer.old < greatest_count }
    ensures same { IfOk result (λ same. same ≡ not (is_any (spec.rule_differences old_file.now.path.now
        old_file.now.text.now new_file.now.path.now new_file.now.text.now old.now new.now))) }
    ensures written { OnOk result (Appends (W.contents (inner_of writer.old)) (W.contents (inner_of writer.new))
        (spec.rule_differences old_file.now.path.now old_file.now.text.now new_file.now.path.now
        new_file.now.text.now old.now new.now)) }
    ensures front { OnErr result ((n : ℕ)
        × Appends (W.contents (inner_of writer.old)) (W.contents (inner_of writer.new))
        (take n (spec.rule_differences old_file.now.path.now old_file.now.text.now new_file.now.path.now
        new_file.now.text.now old.now new.now))) }
    ensures reports { Reports result writer.old writer.new }
{
    let mut held = Vec::new(alloc);
    let lost = put_changes(alloc, b'-', old, new, old_file, writer, &mut held)?;
    let gained = put_changes(alloc, b'+', new, old, new_file, writer, &mut held)?;
    let others = put_others(alloc, old, new, writer, &mut held)?;
    write_whole(writer, &held)?;
    Ok(!either(either(lost, gained), others))
}
