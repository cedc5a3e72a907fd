//! A live client's row.

use crate::delivery::Delivery;
use crate::held::Held;
use crate::shared::Shared;
use sm_values::{Identity, drop_fields};

/// A live client: its number, its process, what it holds under each number, and its deliveries, oldest first.
pub struct ClientRow {
    pub client: u32,
    pub who: Identity,
    pub held: Vec<Option<Held>>,
    pub waiting: Vec<Shared<Delivery>>,
}

impl Drop for ClientRow {
    fn drop(self) {
        drop_fields!(self: client, who, held, waiting);
    }
}
