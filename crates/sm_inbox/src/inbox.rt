//! The inbox of one client.

ghost use Rattle.std.specs.Prelude.{◌≤◌};
ghost use Rattle.std.specs.VecDeque.{deque_capacity};
ghost use Rattle.sm_history.specs.declared.limits.TheConstants.{MOST_DELIVERIES};

use sm_history::{Delivery, OfClient, Shared};
use std::collections::VecDeque;

/// A client's deliveries, oldest first.
#[derive(Drop)]
pub struct Inbox {
    pub client: u32,
    pub waiting: VecDeque<Shared<Delivery>>,
    ghost has_places: { MOST_DELIVERIES ≤ deque_capacity waiting },
}

impl OfClient for Inbox {
    ghost client_of = { λ r. r.client };

    fn client(&self) -> u32 {
        self.client
    }
}
