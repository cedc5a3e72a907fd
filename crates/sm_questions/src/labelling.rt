//! The answer to `svcmgr label`.

ghost use Rattle.std.specs.Prelude.{◌≡◌, ◌<◌, ℕ, IfOk, OnOk, take};
ghost use Rattle.std.specs.Io.KnownBytes.{Appends};
ghost use Rattle.sm_engine.specs.Counts.{Reports, failures_of, inner_of, greatest_count};
ghost use Rattle.sm_questions.specs.Labels as spec;

use crate::lookups::label_entry;
use sm_engine::{Counted, Fault, write_whole};
use sm_policy::Prepared;
use sm_values::push_numbered;
use std::alloc::{AllocError, Global};
use std::io::Write;

/// Writes the context of a name's service, and the number of the line in the contexts file that gives it.
///
/// # Errors
///
/// `WriteFault` if a write fails; a prefix of the line is then written. `Memory` if an allocation fails; nothing is
/// then written.
pub fn label<W: Write>(
    alloc: Global,
    policy: &Prepared,
    name: &[u8],
    writer: &mut Counted<W>,
) -> Result<(), Fault>
    requires { failures_of writer.old < greatest_count }
    ensures written { OnOk result (Appends (W.contents (inner_of writer.old)) (W.contents (inner_of writer.new))
        (spec.label_line policy.now name.now)) }
    ensures front { result ≡ Err Fault.WriteFault → (n : ℕ)
        × Appends (W.contents (inner_of writer.old)) (W.contents (inner_of writer.new))
        (take n (spec.label_line policy.now name.now)) }
    ensures unwritten { result ≡ Err Fault.Memory → writer.new ≡ writer.old }
    ensures reports { Reports result writer.old writer.new }
{
    let line = label_line(alloc, policy, name)?;
    write_whole(writer, &line)
}

/// Returns `CONTEXT LINE`, the label of a name.
fn label_line(alloc: Global, policy: &Prepared, name: &[u8]) -> Result<Vec<u8>, AllocError>
    ensures { IfOk result (λ line. line.items ≡ spec.label_line policy.now name.now) }
{
    let (number, context) = label_entry(policy, name);
    let mut line = Vec::from_slice(alloc, context.text())?;
    push_numbered(&mut line, b" ", u64::from(number))?;
    line.extend_from_slice(b"\n")?;
    Ok(line)
}
