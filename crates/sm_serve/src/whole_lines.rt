//! Writes whole lines to a writer that may fail in the middle of one.

ghost use Rattle.std.specs.Prelude.{◌≡◌, ◌≤◌, ◌↔◌, ℕ, [], IsTrue, drop, length, take};
ghost use Rattle.std.specs.Io.KnownBytes.{Appends};
ghost use Rattle.sm_serve.specs.Lines.{BreaksAt, WritesLines, bytes_of};

use crate::log_lines::{LogLines, count_lines};
use sm_values::drop_fields;
use std::io::Write;

/// A writer of whole lines. If a write fails in the middle of a line, the rest of it is written before anything else;
/// lines that weren't begun are lost.
pub struct WholeLines<W> {
    writer: W,
    // Lines of which the first `written` bytes are written.
    cut: LogLines,
    written: usize,
    ghost within: { written ≤ length (bytes_of cut) },
}

impl<W: Drop> Drop for WholeLines<W> {
    fn drop(self) {
        drop_fields!(self: writer, cut, written);
    }
}

impl<W: Write> WholeLines<W> {
    /// Makes a writer that has begun no line.
    pub fn new(writer: W) -> WholeLines<W>
        ensures writer { result.writer ≡ writer }
        ensures cut { bytes_of result.cut ≡ [] }
    {
        WholeLines {
            writer,
            cut: LogLines::Fixed(&[]),
            written: 0,
        }
    }

    /// Writes the rest of the line that was cut. Returns whether nothing is left of it.
    pub fn complete(&mut self) -> bool
        ensures front { (n : ℕ)
            × Appends (W.contents self.old.writer) (W.contents self.new.writer)
            (take n (drop self.old.written (bytes_of self.old.cut)))
            × (drop self.new.written (bytes_of self.new.cut) ≡ drop n (drop self.old.written (bytes_of self.old.cut))) }
        ensures whole { IsTrue result ↔ (drop self.new.written (bytes_of self.new.cut) ≡ []) }
    {
        let more = write_front(&mut self.writer, &self.cut.bytes()[self.written..]);
        self.written += more;
        self.written == self.cut.bytes().len()
    }

    /// Writes these lines, after the rest of the line that was cut. Returns the number of lines that were lost.
    pub fn write(&mut self, lines: LogLines) -> u64
        ensures { WritesLines (drop self.old.written (bytes_of self.old.cut)) (bytes_of lines)
            (W.contents self.old.writer) (W.contents self.new.writer)
            (drop self.new.written (bytes_of self.new.cut)) result }
    {
        if !self.complete() {
            return lines.count();
        }
        let text = lines.bytes();
        let written = write_front(&mut self.writer, text);
        let end = line_end(text, written);
        let lost = count_lines(&text[end..]);
        self.keep(lines.truncated(end), written);
        lost
    }

    // Keeps lines of which the first `written` bytes are written.
    fn keep(&mut self, lines: LogLines, written: usize)
        requires { written ≤ length (bytes_of lines) }
        ensures writer { self.new.writer ≡ self.old.writer }
        ensures cut { bytes_of self.new.cut ≡ bytes_of lines }
        ensures written { self.new.written ≡ written }
    {
        self.cut = lines;
        self.written = written;
    }
}

/// Writes a text up to its end, or until a write fails. Returns the number of bytes written.
fn write_front<W: Write>(writer: &mut W, text: &[u8]) -> usize
    ensures within { result ≤ length text.now }
    ensures written { Appends (W.contents writer.old) (W.contents writer.new) (take result text.now) }
{
    let mut at = 0;
    while at < text.len() {
        match writer.write(&text[at..]) {
            Err(_) => return at,
            Ok(n) => {
                if n == 0 {
                    return at;
                }
                at += n;
            }
        }
    }
    at
}

/// Returns the end of the line of which the first `written` bytes are the last that were written.
fn line_end(lines: &[u8], written: usize) -> usize
    requires { written ≤ length lines.now }
    ensures low { written ≤ result }
    ensures high { result ≤ length lines.now }
    ensures breaks { BreaksAt lines.now result }
{
    let mut end = written;
    while end < lines.len() {
        if end == 0 || lines[end - 1] == b'\n' {
            return end;
        }
        end += 1;
    }
    end
}
