//! The room left in the inboxes of clients while watchers are notified.

ghost use Rattle.std.specs.Prelude.{◌≡◌, ◌==◌, ℕ, None, Some, MatchOption, OnOk, cond, nat_eq};
ghost use Rattle.std.specs.List.{find};
ghost use Rattle.sm_history.specs.Tables.{IsPlace};
ghost use Rattle.sm_core.specs.InboxRooms.{left_of, AreOnce, AreUpTo};

use sm_history::{OfClient, row_index};
use std::alloc::{AllocError, Global};

/// The number of deliveries for which a client's inbox still has room.
#[derive(Clone, Copy)]
pub struct InboxRoom {
    pub client: u32,
    pub left: usize,
}

impl OfClient for InboxRoom {
    ghost client_of = { λ r. r.client };

    fn client(&self) -> u32 {
        self.client
    }
}

/// The room left in the inboxes of the clients that were notified so far: a row for each, of at most 64.
pub struct InboxRooms {
    rows: Vec<InboxRoom>,
    /// No row is of a client with a greater number, so a client that is newer has none.
    newest: u32,
    ghost once: { AreOnce rows.items },
    ghost newer: { AreUpTo newest rows.items },
}

impl Drop for InboxRooms {
    fn drop(self) {
        let InboxRooms { rows: _, newest: _ } = self;
    }
}

/// Returns the index of a client's row.
fn room_index(rows: &[InboxRoom], newest: u32, client: u32) -> Option<usize>
    requires once { AreOnce rows.now }
    requires newer { AreUpTo newest rows.now }
    ensures { MatchOption result (find (λ r. r.client == client) rows.now ≡ None)
        (IsPlace (λ r. r.client) rows.now client) }
{
    if newest < client {
        return None;
    }
    row_index(rows, client)
}

impl InboxRooms {
    /// Makes a table without rows.
    pub fn new(alloc: Global) -> InboxRooms
        ensures { (c : ℕ) → left_of result.rows.items c ≡ None }
    {
        InboxRooms {
            rows: Vec::new(alloc),
            newest: 0,
        }
    }

    /// Returns the number of deliveries for which a client's inbox still has room, if the client was notified.
    pub fn of(&self, client: u32) -> Option<usize>
        ensures { result ≡ left_of self.now.rows.items client }
    {
        let i = room_index(&self.rows, self.newest, client)?;
        Some(self.rows[i].left)
    }

    /// Sets the number of deliveries for which a client's inbox still has room.
    pub fn set(&mut self, client: u32, left: usize) -> Result<(), AllocError>
        ensures { OnOk result ((c : ℕ) → left_of self.new.rows.items c
            ≡ cond (nat_eq client c) (Some left) (left_of self.old.rows.items c)) }
    {
        let row = InboxRoom { client, left };
        match room_index(&self.rows, self.newest, client) {
            Some(i) => self.rows[i] = row,
            None => {
                self.rows.push(row)?;
                self.newest = self.newest.max(client);
            }
        }
        Ok(())
    }
}
