//! Limits of a manager.

/// Live clients at once.
pub const MOST_CLIENTS: usize = 64;

/// Names with a service.
pub const MOST_NAMES: usize = 4_096;

/// Watches of all live clients together.
pub const MOST_WATCHES: usize = 4_096;

/// Objects that a client holds handles to.
pub const MOST_HANDLES: usize = 65_536;

/// Deliveries in a client's inbox.
pub const MOST_DELIVERIES: usize = 256;

/// The greatest client number; numbers rise from 1 and are never used again.
pub const LAST_CLIENT: u32 = u32::MAX;

/// Lengths, versions, turns and counts of grants stay below it.
pub const GREATEST: u64 = u64::MAX;
