//! A buffer before a writer.

ghost use Rattle.std.specs.Prelude.{◌≡◌, ◌<◌, ◌||◌, [], IfErr, OnOk, OnErr};
ghost use Rattle.sm_engine.specs.Counts.{failures_of, inner_of, greatest_count};
ghost use Rattle.sm_questions.specs.Buffered.{Fails, Passes, Stops};

use sm_engine::{Counted, Fault, write_whole};
use std::io::Write;

/// Lines are written once they have this number of bytes.
pub const HELD_BYTES: usize = 65536;

/// Writes what is held, if the buffer is full.
pub fn write_full<W: Write>(writer: &mut Counted<W>, held: &mut Vec<u8>) -> Result<(), Fault>
    requires { failures_of writer.old < greatest_count }
    ensures ok { OnOk result (Passes (W.contents (inner_of writer.old)) (W.contents (inner_of writer.new))
        held.old.items held.new.items []) }
    ensures count { OnOk result (failures_of writer.new ≡ failures_of writer.old) }
    ensures stopped { OnErr result (Stops (W.contents (inner_of writer.old)) (W.contents (inner_of writer.new))
        held.old.items []) }
    ensures fault { IfErr result (λ e. Fails e (failures_of writer.old) (failures_of writer.new)) }
{
    if held.len() < HELD_BYTES {
        return Ok(());
    }
    write_whole(writer, held)?;
    held.clear();
    Ok(())
}

/// Returns whether one of two steps wrote a line.
pub fn either(one: bool, other: bool) -> bool
    ensures { result ≡ (one || other) }
{
    one || other
}
