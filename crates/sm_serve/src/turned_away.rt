//! How many connections were turned away.

use sm_values::drop_fields;
use std::sync::atomic::{AtomicU64, Ordering};

/// The number of connections of a server that were turned away.
pub struct TurnedAway {
    number: AtomicU64,
}

impl Drop for TurnedAway {
    fn drop(self) {
        drop_fields!(self: number);
    }
}

impl TurnedAway {
    /// Begins with none.
    pub fn new() -> TurnedAway {
        TurnedAway {
            number: AtomicU64::new(0),
        }
    }

    /// Returns the number of them.
    pub fn number(&self) -> u64 {
        self.number.load(Ordering::SeqCst)
    }

    /// Counts one more.
    pub fn count(&self) {
        self.number.fetch_add(1, Ordering::SeqCst);
    }
}
