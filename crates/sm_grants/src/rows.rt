//! Rows of handles, one for each client that has any.

ghost use Rattle.std.specs.Prelude.{◌≡◌, ◌≤◌, ◌==◌, ◌&&◌, not, option_map, count_by, length};
ghost use Rattle.sm_grants.specs.Slots.{is_in};
ghost use Rattle.sm_grants.specs.Rows.{table_of};
ghost use Rattle.sm_grants.specs.Once.{AreOnce};

use crate::handles::Handles;
use sm_history::{OfClient, row_index};
use sm_values::Node;

/// A client and its handles. Rows are in the order of their clients.
#[derive(Drop)]
pub struct ClientHandles {
    pub client: u32,
    pub handles: Handles,
}

impl OfClient for ClientHandles {
    ghost client_of = { λ r. r.client };

    fn client(&self) -> u32 {
        self.client
    }
}

/// Returns a client's handles, if it has a row.
pub fn handles_of(rows: &[ClientHandles], client: u32) -> Option<&Handles>
    requires { AreOnce rows.now }
    ensures { option_map (λ h. h.now) result ≡ table_of rows.now client }
{
    match row_index(rows, client) {
        Some(place) => Some(&rows[place].handles),
        None => None,
    }
}

/// Returns the index at which a client's row is to be inserted.
pub fn place_for(rows: &[ClientHandles], client: u32) -> usize
    ensures { result ≤ length rows.now }
{
    rows.partition_point(|row| row.client < client)
}

/// Returns the number of clients other than `except` that hold an object.
pub fn holders_in(rows: &[ClientHandles], node: Node, except: u32) -> usize
    ensures { result ≡ count_by (λ r. not (r.client == except) && is_in r.handles.slots node) rows.now }
{
    rows.iter()
        .filter(|row| row.client != except && row.handles.holds(node))
        .count()
}
