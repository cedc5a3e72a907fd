//! Limits of contexts files.

/// The most entry lines of a file: those with words whose first doesn't begin with `#`, bad ones too.
pub const MOST_ENTRY_LINES: u32 = 16_384;
