//! The answer to `svcmgr diff`.

ghost use Rattle.std.specs.Prelude.{◌≡◌, ◌<◌, not, ℕ, IfErr, IfOk, OnOk, OnErr, take};
ghost use Rattle.std.specs.Io.KnownBytes.{Appends};
ghost use Rattle.sm_engine.specs.Counts.{Reports, failures_of, inner_of, greatest_count};
ghost use Rattle.sm_questions.specs.Differences as spec;
ghost use Rattle.sm_questions.specs.Differences.{is_any};
ghost use Rattle.sm_questions.specs.Parts.{part_lines};
ghost use Rattle.sm_questions.specs.Buffered.{Fails, Passes, Stops};

use crate::buffer::{either, write_full};
use crate::part::Part;
use sm_engine::{Counted, Fault, write_whole};
use sm_policy::Prepared;
use std::alloc::Global;
use std::io::Write;

/// The parts of the answer, in their order.
const PARTS: [Part; 6] = [
    Part::Lost,
    Part::Gained,
    Part::Relabelled,
    Part::Added,
    Part::Ceased,
    Part::Became,
];

/// Writes the lines of a part, and holds the last ones. Returns whether there are any.
#[tactic(auto, unfolding(crate::specs::Parts::part_lines))]
pub fn put_part<W: Write>(
    alloc: Global,
    part: Part,
    old: &Prepared,
    new: &Prepared,
    writer: &mut Counted<W>,
    held: &mut Vec<u8>,
) -> Result<bool, Fault>
    requires { failures_of writer.old < greatest_count }
    ensures ok { OnOk result (Passes (W.contents (inner_of writer.old)) (W.contents (inner_of writer.new))
        held.old.items held.new.items (part_lines old.now new.now part)) }
    ensures any { IfOk result (λ any. any ≡ is_any (part_lines old.now new.now part)) }
    ensures count { OnOk result (failures_of writer.new ≡ failures_of writer.old) }
    ensures stopped { OnErr result (Stops (W.contents (inner_of writer.old)) (W.contents (inner_of writer.new))
        held.old.items (part_lines old.now new.now part)) }
    ensures fault { IfErr result (λ e. Fails e (failures_of writer.old) (failures_of writer.new)) }
{
    let numbers = part.numbers(alloc, old, new)?;
    let mut any = false;
    for index in 0..part.count(old, new) {
        let before = held.len();
        part.push(alloc, old, new, &numbers, index, held)?;
        any = either(any, held.len() > before);
        write_full(writer, held)?;
    }
    Ok(any)
}

/// Writes what differs between two policies, and returns whether nothing does. Types are compared by their names.
///
/// Accesses come first: `- SOURCE TARGET CLASS PERM` if only the old policy allows it, and the same with `+` if only the
/// new one does. Then come labels: `~ KEY OLD NEW` for each key whose name gets another context, keys of the old policy
/// first. `- permissive TYPE` and `+ permissive TYPE` follow for types that are permissive in one policy only.
///
/// # Errors
///
/// `WriteFault` if a write fails, `Memory` if an allocation fails; a prefix of the lines is then written.
pub fn diff<W: Write>(
    alloc: Global,
    old: &Prepared,
    new: &Prepared,
    writer: &mut Counted<W>,
) -> Result<bool, Fault>
    requires { failures_of writer.old < greatest_count }
    ensures same { IfOk result (λ same. same ≡ not (is_any (spec.differences old.now new.now))) }
    ensures written { OnOk result (Appends (W.contents (inner_of writer.old)) (W.contents (inner_of writer.new))
        (spec.differences old.now new.now)) }
    ensures front { OnErr result ((n : ℕ)
        × Appends (W.contents (inner_of writer.old)) (W.contents (inner_of writer.new))
        (take n (spec.differences old.now new.now))) }
    ensures reports { Reports result writer.old writer.new }
{
    let mut held = Vec::new(alloc);
    let mut any = false;
    for part in &PARTS {
        let more = put_part(alloc, *part, old, new, writer, &mut held)?;
        any = either(any, more);
    }
    write_whole(writer, &held)?;
    Ok(!any)
}
