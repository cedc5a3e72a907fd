//! Answers the items of one piece.

ghost use Rattle.std.specs.Prelude.{◌≡◌, ◌<◌, ◌≤◌, ◌+◌, ◌-◌, ℕ, [], length, OnOk, OnErr, take, ◌⊎◌, ◌↔◌};
ghost use Rattle.std.specs.Io.KnownBytes.{Appends};
ghost use Rattle.sm_wire.specs.Items.{scan_after, items_after};
ghost use Rattle.sm_engine.specs.Buffers.{IsIdle};
ghost use Rattle.sm_engine.specs.Counts.{failures_of, inner_of, greatest_count};
ghost use Rattle.sm_engine.specs.Running.{IsSilent, Wrote, Stopped, Spilled};

use crate::buffers::Buffers;
use crate::counted::Counted;
use crate::fault::Fault;
use crate::machine::Machine;
use crate::writing::write_whole;
use sm_wire::LineReader;
use std::io::Write;

/// Answers each item that ends in the piece when it is read, and writes the answers.
pub fn answer_piece<M: Machine, W: Write, A: Write>(
    machine: &mut M,
    lines: &mut LineReader,
    piece: &[u8],
    buffers: &mut Buffers,
    writer: &mut Counted<W>,
    audit: &mut Counted<A>,
) -> Result<(), Fault>
    requires idle { IsIdle buffers.old }
    requires writer { failures_of writer.old < greatest_count }
    requires audit { failures_of audit.old < greatest_count }
    ensures scan { OnOk result (lines.new ≡ scan_after lines.old piece.now) }
    ensures ok { OnOk result (Wrote M.answers machine.old (items_after lines.old piece.now)
        (W.contents (inner_of writer.old)) (W.contents (inner_of writer.new))
        (A.contents (inner_of audit.old)) (A.contents (inner_of audit.new)) machine.new) }
    ensures writer_count { OnOk result (failures_of writer.new ≡ failures_of writer.old) }
    ensures audit_count { OnOk result (failures_of audit.new ≡ failures_of audit.old) }
    ensures err { OnErr result (Stopped M.hold_limit M.answers machine.old (items_after lines.old piece.now)
        (W.contents (inner_of writer.old)) (W.contents (inner_of writer.new))
        (A.contents (inner_of audit.old)) (A.contents (inner_of audit.new)) machine.new) }
    ensures fault { OnErr result ((result ≡ Err Fault.WriteFault) ⊎ (result ≡ Err Fault.Memory)) }
    ensures told { (result ≡ Err Fault.WriteFault) ↔ (failures_of writer.old + failures_of audit.old
        < failures_of writer.new + failures_of audit.new) }
    ensures unaudited { IsSilent M.answers → audit.new ≡ audit.old }
{
    let mut start = 0;
    while start < piece.len() {
        start += lines.take_one(&piece[start..], &mut buffers.items)?;
        let Some(item) = buffers.items.pop() else {
            continue;
        };
        machine.answer(item, &mut buffers.replies, &mut buffers.lines)?;
        let limit = machine.hold_limit();
        spill(writer, limit, &mut buffers.replies)?;
        if buffers.replies.is_empty() {
            machine.written();
        }
        spill(audit, limit, &mut buffers.lines)?;
    }
    spill(writer, 0, &mut buffers.replies)?;
    machine.written();
    spill(audit, 0, &mut buffers.lines)
}

/// Writes what is held back, if there is anything and it has at least `limit` bytes.
#[inline(always)]
fn spill<W: Write>(writer: &mut Counted<W>, limit: usize, held: &mut Vec<u8>) -> Result<(), Fault>
    requires { failures_of writer.old < greatest_count }
    ensures ok { OnOk result
        (Spilled (W.contents (inner_of writer.old)) (W.contents (inner_of writer.new)) held.old.items held.new.items) }
    ensures short { OnOk result (length held.new.items ≤ limit - 1) }
    ensures count { OnOk result (failures_of writer.new ≡ failures_of writer.old) }
    ensures front { OnErr result
        ((n : ℕ) × Appends (W.contents (inner_of writer.old)) (W.contents (inner_of writer.new))
        (take n held.old.items)) }
    ensures fault { OnErr result (result ≡ Err Fault.WriteFault) }
    ensures failed { OnErr result (failures_of writer.old < failures_of writer.new) }
    ensures nothing { held.old.items ≡ [] → (writer.new ≡ writer.old) × (held.new.items ≡ []) }
{
    if held.is_empty() || held.len() < limit {
        return Ok(());
    }
    write_whole(writer, held)?;
    held.clear();
    Ok(())
}
