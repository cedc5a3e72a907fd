//! Writes whole buffers, and says how much was written before a fault.

ghost use Rattle.std.specs.Prelude.{◌≡◌, ◌<◌, ◌≤◌, ℕ, take, OnOk, OnErr};
ghost use Rattle.std.specs.Io.KnownBytes.{Appends};
ghost use Rattle.sm_engine.specs.Counts.{failures_of, inner_of, greatest_count};

use crate::counted::Counted;
use crate::fault::Fault;
use std::io::Write;

/// Writes all of `text`. After a fault a prefix of it is written.
pub fn write_whole<W: Write>(writer: &mut Counted<W>, text: &[u8]) -> Result<(), Fault>
    requires { failures_of writer.old < greatest_count }
    ensures ok { OnOk result (Appends (W.contents (inner_of writer.old)) (W.contents (inner_of writer.new)) text.now) }
    ensures count { OnOk result (failures_of writer.new ≡ failures_of writer.old) }
    ensures front { OnErr result
        ((n : ℕ) × Appends (W.contents (inner_of writer.old)) (W.contents (inner_of writer.new)) (take n text.now)) }
    ensures fault { OnErr result (result ≡ Err Fault.WriteFault) }
    ensures failed { OnErr result (failures_of writer.old < failures_of writer.new) }
{
    let mut at = 0;
    while at < text.len() {
        match writer.write(&text[at..]) {
            Err(_) => return Err(Fault::WriteFault),
            Ok(n) => {
                if n == 0 {
                    return Err(Fault::WriteFault);
                }
                at += n;
            }
        }
    }
    Ok(())
}
