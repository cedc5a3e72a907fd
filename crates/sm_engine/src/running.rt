//! Reads lines, answers them, and writes the answers, until the input ends or the machine is over.

ghost use Rattle.std.specs.Prelude.{◌≡◌, false, MatchBool, ◌<◌, ◌≤◌, ◌+◌, ◌-◌, IfOk, OnOk, OnErr, take, length, min, ℕ};
ghost use Rattle.std.specs.Prelude.{codes, [], ◌⊎◌, ◌↔◌, if◌then◌else◌};
ghost use Rattle.std.specs.Io.KnownBytes.{Appends, Consumes, Keeps, IsAtEnd};
ghost use Rattle.sm_wire.specs.Items.{IsAlive, scan_after, items_after};
ghost use Rattle.sm_engine.specs.Buffers.{IsIdle};
ghost use Rattle.sm_engine.specs.Counts.{failures_of, calls_of, inner_of, greatest_count, one_more};
ghost use Rattle.sm_engine.specs.Running.{IsSilent, Wrote, Stopped, Served, ending_of};

use crate::answering::answer_piece;
use crate::buffers::Buffers;
use crate::counted::Counted;
use crate::fault::Fault;
use crate::machine::Machine;
use crate::writing::write_whole;
use sm_wire::{Kind, LineReader};
use std::alloc::Global;
use std::io::{Read, Write};

const PIECE: usize = 8192;

/// Answers lines of this kind from the reader, until the input ends, the machine is over, a fault occurs, or `bound`
/// reads were made.
pub fn run<M: Machine, R: Read, W: Write, A: Write>(
    alloc: Global,
    kind: Kind,
    machine: &mut M,
    bound: u32,
    reader: &mut Counted<R>,
    writer: &mut Counted<W>,
    audit: &mut Counted<A>,
) -> Result<(), Fault>
    requires begins { M.over machine.old ≡ false }
    requires reader { failures_of reader.old < greatest_count }
    requires writer { failures_of writer.old < greatest_count }
    requires audit { failures_of audit.old < greatest_count }
    ensures served { Served kind M.answers M.over M.hold_limit result bound
        (calls_of reader.new - calls_of reader.old) machine.old
        (R.remaining (inner_of reader.old)) (R.remaining (inner_of reader.new))
        (W.contents (inner_of writer.old)) (W.contents (inner_of writer.new))
        (A.contents (inner_of audit.old)) (A.contents (inner_of audit.new)) machine.new }
    ensures end { OnOk result
        (MatchBool (M.over machine.new) (Unit {0}) (IsAtEnd (R.remaining (inner_of reader.new)))) }
    ensures reads { calls_of reader.new ≤ calls_of reader.old + bound }
    ensures too_many { result ≡ Err Fault.TooManyReads
        → calls_of reader.new ≡ min (calls_of reader.old + bound) greatest_count }
    ensures read_fault { result ≡ Err Fault.ReadFault → failures_of reader.old < failures_of reader.new }
    ensures write_fault { result ≡ Err Fault.WriteFault → failures_of writer.old + failures_of audit.old
        < failures_of writer.new + failures_of audit.new }
    ensures read_told { failures_of reader.old < failures_of reader.new → result ≡ Err Fault.ReadFault }
    ensures write_told { failures_of writer.old + failures_of audit.old < failures_of writer.new + failures_of audit.new
        → result ≡ Err Fault.WriteFault }
    ensures unaudited { IsSilent M.answers → audit.new ≡ audit.old }
{
    let mut lines = LineReader::new(alloc, kind);
    let mut buffers = Buffers::new(alloc);
    let mut buffer = [0u8; PIECE];
    for reads in 0..bound {
        let Ok(n) = reader.read(&mut buffer) else {
            return Err(Fault::ReadFault);
        };
        if n == 0 {
            return write_ending(&lines, writer);
        }
        answer_piece(
            machine,
            &mut lines,
            &buffer[..n],
            &mut buffers,
            writer,
            audit,
        )?;
        buffers.clear();
        if machine.is_over() {
            return Ok(());
        }
        if lines.is_dead() {
            return Err(Fault::LineTooLong);
        }
    }
    Err(Fault::TooManyReads)
}

// Reports the end of the input inside a line or a file.
fn write_ending<W: Write>(lines: &LineReader, writer: &mut Counted<W>) -> Result<(), Fault>
    requires { failures_of writer.old < greatest_count }
    ensures ok { OnOk result
        (Appends (W.contents (inner_of writer.old)) (W.contents (inner_of writer.new)) (ending_of lines.now)) }
    ensures front { OnErr result
        ((n : ℕ) × Appends (W.contents (inner_of writer.old)) (W.contents (inner_of writer.new))
        (take n (ending_of lines.now))) }
    ensures fault { OnErr result (result ≡ Err Fault.WriteFault) }
    ensures failed { OnErr result (failures_of writer.old < failures_of writer.new) }
    ensures told { failures_of writer.old < failures_of writer.new → result ≡ Err Fault.WriteFault }
{
    write_whole(writer, ending(lines.rest()))
}

// Returns the words for an incomplete item, or none.
fn ending(is_part: bool) -> &'static [u8]
    ensures { result.now ≡ (if is_part then codes "fault cut\n" else []) }
{
    if is_part { b"fault cut\n" } else { b"" }
}
