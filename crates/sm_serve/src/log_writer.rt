//! The writer of a server's log.

ghost use Rattle.std.specs.Prelude.{◌≡◌, IfOk};
ghost use Rattle.sm_serve.specs.Lines.{bytes_of, lost_line};

use crate::level::{Level, LogEntry, prefixed};
use crate::log_lines::LogLines;
use crate::rate::Rate;
use crate::server_log::{ServerLog, WaitingLines};
use crate::uninterrupted::Uninterrupted;
use crate::whole_lines::WholeLines;
use crossbeam_channel::RecvTimeoutError;
use sm_values::drop_fields;
use std::alloc::{AllocError, Global};
use std::io::Write;
use std::rt::Clock;
use std::sync::Wait;
use std::time::Duration;

/// Milliseconds after which a writer tries again that has something left to write.
const PAUSE: u64 = 250;

/// How the lines of a log are written.
#[derive(Clone, Copy, PartialEq, Eq)]
pub struct LogForm {
    /// Whether each line has the prefix of its level.
    pub is_journal: bool,
    /// The number of audit lines that are written in a second, at most. 0: no limit.
    pub audit_rate: u32,
}

/// What comes next from the log.
enum Next {
    Entry(LogEntry),
    /// Nothing came for a while.
    Nothing,
    End,
}

/// Writes the lines of a log as they come, until it ends, and how many were lost. A line that can't be written is lost,
/// and counted; one that is cut is completed first. Audit lines beyond their rate are left out, and counted too.
pub fn write_log<R: Wait + Clock, W: Write + Drop>(
    rt: &R,
    alloc: Global,
    log: &ServerLog,
    lines: WaitingLines,
    form: LogForm,
    writer: W,
) {
    let mut writer = LogWriter {
        alloc,
        log,
        is_journal: form.is_journal,
        rate: Rate::new(form.audit_rate),
        writer: WholeLines::new(Uninterrupted::new(writer)),
    };
    let mut pause = None;
    for _ in rt.forever() {
        match come(rt, log, &lines, pause) {
            Next::Entry(entry) => log.lose(writer.take(rt, entry)),
            Next::Nothing => {}
            Next::End => {
                writer.tell_left_out();
                writer.tell_lost();
                return;
            }
        }
        pause = writer.catch_up(rt);
    }
}

// Waits for the next lines, and no longer than for this pause, if any.
fn come<R: Wait + Clock>(
    rt: &R,
    log: &ServerLog,
    lines: &WaitingLines,
    pause: Option<Duration>,
) -> Next {
    let taken = match pause {
        Some(pause) => lines.recv_timeout(rt, pause),
        None => lines.recv(rt).map_err(|_| RecvTimeoutError::Disconnected),
    };
    match taken {
        Ok(Some(entry)) => {
            log.make_room(entry.lines.capacity());
            Next::Entry(entry)
        }
        Err(RecvTimeoutError::Timeout) => Next::Nothing,
        _ => Next::End,
    }
}

/// The writer of a log.
struct LogWriter<'a, W> {
    alloc: Global,
    log: &'a ServerLog,
    // Whether each line has the prefix of its level.
    is_journal: bool,
    rate: Rate,
    writer: WholeLines<W>,
}

impl<'a, W: Drop> Drop for LogWriter<'a, W> {
    fn drop(self) {
        drop_fields!(self: alloc, log, is_journal, rate, writer);
    }
}

impl<'a, W: Write> LogWriter<'a, W> {
    // Writes these lines, of audit lines only those that the rate lets through. Returns the number of lines that were
    // lost.
    fn take<R: Clock>(&mut self, rt: &R, entry: LogEntry) -> u64 {
        self.tell_due(rt);
        let number = entry.lines.count();
        match entry.level {
            Level::Audit => {
                let most = self.rate.admit(rt, number);
                self.write(entry, most)
            }
            _ => self.write(entry, number),
        }
    }

    // Writes the first lines, at most this many. Returns the number of them that were lost.
    fn write(&mut self, entry: LogEntry, most: u64) -> u64 {
        let LogEntry { level, lines } = entry;
        let number = lines.count();
        if !self.is_journal && number <= most {
            return self.writer.write(lines);
        }
        let prefix: &[u8] = if self.is_journal { level.prefix() } else { b"" };
        match prefixed(self.alloc, prefix, &lines, most) {
            Ok(prefixed) => self.writer.write(prefixed),
            Err(_) => number.min(most),
        }
    }

    // Writes what is due besides lines. Returns the longest time until more is, if any is.
    fn catch_up<R: Clock>(&mut self, rt: &R) -> Option<Duration> {
        let is_told = self.tell_due(rt);
        if !self.tell_lost() || !is_told {
            return Some(Duration::from_millis(PAUSE));
        }
        if self.rate.left_out() == 0 {
            return None;
        }
        self.rate.rest(rt).or(Some(Duration::from_millis(PAUSE)))
    }

    // At the end of a second, writes how many audit lines were left out. Returns whether nothing is left to write of it.
    fn tell_due<R: Clock>(&mut self, rt: &R) -> bool {
        self.rate.rest(rt).is_some() || self.tell_left_out()
    }

    // Writes how many audit lines were left out. Returns whether nothing is left to write of it.
    fn tell_left_out(&mut self) -> bool {
        let number = self.rate.left_out();
        if number == 0 {
            return true;
        }
        let is_told = self.warns(audit_warning(self.alloc, number));
        if is_told {
            self.rate.report();
        }
        is_told
    }

    // Completes a line that was cut, and writes how many lines were lost. Returns whether nothing is left to write.
    fn tell_lost(&mut self) -> bool {
        if !self.writer.complete() {
            return false;
        }
        let lost = self.log.take_lost();
        if lost == 0 {
            return true;
        }
        if !self.warns(warning(self.alloc, lost)) {
            self.log.lose(lost);
            return false;
        }
        self.writer.complete()
    }

    // Writes a warning. Returns whether it was begun.
    fn warns(&mut self, line: Result<LogLines, AllocError>) -> bool {
        match line {
            Ok(lines) => {
                let level = Level::Warning;
                self.write(LogEntry { level, lines }, 1) == 0
            }
            Err(_) => false,
        }
    }
}

fn audit_warning(alloc: Global, number: u64) -> Result<LogLines, AllocError> {
    let line = format!(in alloc; "warning: {number} audit lines were left out by --audit-rate\n")?;
    Ok(LogLines::Made(line.into_bytes()))
}

fn warning(alloc: Global, lost: u64) -> Result<LogLines, AllocError>
    ensures { IfOk result (λ line. bytes_of line ≡ lost_line lost) }
{
    let line = format!(in alloc; "warning: {lost} lines were lost\n")?;
    Ok(LogLines::Made(line.into_bytes()))
}
