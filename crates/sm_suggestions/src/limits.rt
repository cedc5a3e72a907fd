//! Limits of a log.

/// The most bytes of a log.
pub const MOST_LOG_BYTES: usize = 67_108_864;

/// The most bytes of a line that is read, without its end.
pub const MOST_LINE_BYTES: usize = 65_536;
