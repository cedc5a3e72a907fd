//! Limits of names, calls, journals and files.

/// The most bytes of a service's name (`ServiceManager.cpp`, `isValidServiceName`).
pub const MOST_NAME_BYTES: usize = 127;

/// The most bytes of a call's payload.
pub const MOST_PAYLOAD_BYTES: usize = 1_024;

/// The most references of a call.
pub const MOST_REFS: usize = 16;

/// The fewest slots of a journal.
pub const LEAST_PLACES: u32 = 2;

/// The most slots of a journal.
pub const MOST_PLACES: u32 = 1_048_576;

/// The most bytes of a policy source, and of a contexts file.
pub const MOST_TEXT_BYTES: usize = 4_194_304;
