//! How grave the lines of a server's log are.

use crate::log_lines::LogLines;
use std::alloc::{AllocError, Global};

/// How grave a line is.
#[derive(Clone, Copy, PartialEq, Eq)]
pub enum Level {
    /// Why a server has ended, or wasn't started.
    Fault,
    Warning,
    /// An access that was denied, or allowed to a permissive type.
    Audit,
    Information,
}

impl Level {
    /// Returns the prefix of a line of this level, which is its priority for systemd's journal (sd-daemon(3)).
    pub fn prefix(self) -> &'static [u8] {
        match self {
            Level::Fault => b"<3>",
            Level::Warning => b"<4>",
            Level::Audit => b"<5>",
            Level::Information => b"<6>",
        }
    }
}

/// Lines of one level.
#[derive(Drop)]
pub struct LogEntry {
    pub level: Level,
    pub lines: LogLines,
}

/// Returns the first lines, at most this many, each with this prefix.
pub fn prefixed(
    alloc: Global,
    prefix: &[u8],
    lines: &LogLines,
    most: u64,
) -> Result<LogLines, AllocError> {
    let mut text = Vec::new(alloc);
    let mut left = most;
    for line in lines.bytes().split_inclusive(|byte| *byte == b'\n') {
        if left == 0 {
            break;
        }
        left = left.saturating_sub(1);
        text.extend_from_slice(prefix)?;
        text.extend_from_slice(line)?;
    }
    Ok(LogLines::Made(text))
}
