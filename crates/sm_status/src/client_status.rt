//! A live client in numbers.

use sm_values::{Identity, drop_fields};

/// A live client: its number, its process, the number of its changes, of the objects that it holds, and of the
/// deliveries in its inbox.
pub struct ClientStatus {
    pub client: u32,
    pub who: Identity,
    pub turns: u64,
    pub handles: u64,
    pub deliveries: u64,
}

impl Drop for ClientStatus {
    fn drop(self) {
        drop_fields!(self: client, who, turns, handles, deliveries);
    }
}
