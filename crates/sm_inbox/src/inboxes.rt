//! The inboxes of all clients.

ghost use Rattle.std.specs.Prelude.{◌≡◌, ℕ, ◌+◌, ◌-◌, ◌≤◌, ◌<◌, ◌==◌, ◌↔◌, true, false, [], ◌∷◌, drop, length, IsTrue};
ghost use Rattle.std.specs.Prelude.{IsOk, IfOk, OnOk, OnErr, MatchOption, if◌then◌else◌};
ghost use Rattle.sm_history.specs.declared.limits.TheConstants.{MOST_DELIVERIES};
ghost use Rattle.sm_history.specs.declared.effect.Effect.TheVariants.{Delivers, Takes, Dies};
ghost use Rattle.sm_history.specs.Effects.{Effects};
ghost use Rattle.sm_history.specs.Clients.{is_live};
ghost use Rattle.sm_history.specs.Inboxes.{inbox_at, has_inbox_room};
ghost use Rattle.sm_inbox.specs.Rows.{AreOnce};

use crate::inbox::Inbox;
use crate::places::inbox_index;
use sm_history::{Delivery, MOST_DELIVERIES, Shared};
use std::alloc::{AllocError, Global};
use std::collections::VecDeque;

/// The inboxes of live clients: one row for each, of at most 64.
pub struct Inboxes {
    alloc: Global,
    rows: Vec<Inbox>,
    ghost once: { AreOnce rows.items },
}

impl Drop for Inboxes {
    fn drop(self) {
        let Inboxes { alloc: _, rows: _ } = self;
    }
}

/// Copies deliveries, which are shared. Returns an error if an allocation fails.
fn copies_of(
    alloc: Global,
    waiting: &VecDeque<Shared<Delivery>>,
) -> Result<Vec<Shared<Delivery>>, AllocError>
    ensures { IfOk result (λ v. v.items ≡ waiting.now.items) }
{
    let mut copies = Vec::with_capacity(alloc, waiting.len())?;
    for i in 0..waiting.len() {
        copies.push(waiting[i].clone()?)?;
    }
    Ok(copies)
}

impl Inboxes {
    ghost use Rattle.sm_inbox.specs.Tracking.{TracksInboxes, is_open, deliveries_of, room_of};

    /// Makes a table without inboxes.
    pub fn new(alloc: Global) -> Inboxes
        ensures tracks { TracksInboxes [] result }
        ensures none { (c : ℕ) → is_open result c ≡ false }
    {
        Inboxes {
            alloc,
            rows: Vec::new(alloc),
        }
    }

    /// Makes a client's inbox, with room for 256 deliveries, unless it has one.
    ///
    /// # Errors
    ///
    /// An error if an allocation fails; the client then has no inbox.
    pub fn reserve(&mut self, client: u32) -> Result<(), AllocError>
        ensures tracks { (d : Effects) → TracksInboxes d self.old → TracksInboxes d self.new }
        ensures open { is_open self.old client ≡ true → IsOk result }
        ensures opened { OnOk result (is_open self.new client ≡ true) }
        ensures still { (k : ℕ) → is_open self.old k ≡ true → is_open self.new k ≡ true }
        ensures room { OnOk result
            (room_of self.new client ≡ MOST_DELIVERIES - length (deliveries_of self.new client)) }
        ensures err { OnErr result (room_of self.new client ≡ room_of self.old client) }
        ensures others { (k : ℕ) → (client == k) ≡ false → room_of self.new k ≡ room_of self.old k }
    {
        if inbox_index(&self.rows, client).is_some() {
            return Ok(());
        }
        self.rows.reserve(1)?;
        let waiting = VecDeque::with_capacity(self.alloc, MOST_DELIVERIES)?;
        self.rows.push_reserved(Inbox { client, waiting });
        Ok(())
    }

    /// Returns a client's deliveries, oldest first.
    pub fn listed(&self, alloc: Global, client: u32) -> Result<Vec<Shared<Delivery>>, AllocError>
        ensures { IfOk result (λ v. (d : Effects) → TracksInboxes d self.now → v.items ≡ inbox_at d client) }
    {
        match inbox_index(&self.rows, client) {
            Some(i) => copies_of(alloc, &self.rows[i].waiting),
            None => Ok(Vec::new(alloc)),
        }
    }

    /// Returns the number of a client's deliveries.
    pub fn waiting(&self, client: u32) -> usize
        ensures is { result ≡ length (deliveries_of self.now client) }
        ensures tracks { (d : Effects) → TracksInboxes d self.now → result ≡ length (inbox_at d client) }
    {
        match inbox_index(&self.rows, client) {
            Some(i) => self.rows[i].waiting.len(),
            None => 0,
        }
    }

    /// Returns whether a client's inbox has room for one more delivery.
    pub fn has_room(&self, client: u32) -> bool
        ensures { (d : Effects) → TracksInboxes d self.now → result ≡ has_inbox_room d client }
    {
        self.waiting(client) < MOST_DELIVERIES
    }

    /// Returns the number of deliveries for which a client's inbox still has room.
    pub fn free(&self, client: u32) -> usize
        ensures free { (d : Effects) → TracksInboxes d self.now
            → result ≡ MOST_DELIVERIES - length (inbox_at d client) }
        ensures room { is_open self.now client ≡ true → result ≡ room_of self.now client }
    {
        MOST_DELIVERIES.saturating_sub(self.waiting(client))
    }

    /// Appends a delivery to a client's inbox if a delivery may be put into it, and returns whether it may. Otherwise the
    /// delivery is dropped. Allocates nothing.
    pub fn put_if_room(&mut self, client: u32, delivery: Shared<Delivery>) -> bool
        ensures may { IsTrue result ↔ (0 < room_of self.old client) }
        ensures tracks { (d : Effects) → TracksInboxes d self.old → is_live d client ≡ true
            → TracksInboxes (if result then Delivers client delivery ∷ d else d) self.new }
        ensures still { (k : ℕ) → is_open self.new k ≡ is_open self.old k }
        ensures room { (if result then room_of self.new client + 1 else room_of self.new client)
            ≡ room_of self.old client }
        ensures others { (k : ℕ) → (client == k) ≡ false → room_of self.new k ≡ room_of self.old k }
    {
        let Some(i) = inbox_index(&self.rows, client) else {
            return false;
        };
        let row = &mut self.rows[i];
        if row.waiting.len() >= MOST_DELIVERIES {
            return false;
        }
        row.waiting.push_back_reserved(delivery);
        true
    }

    /// Returns a client's oldest delivery.
    pub fn first(&self, client: u32) -> Option<&Shared<Delivery>>
        ensures { (d : Effects) → TracksInboxes d self.now → MatchOption result (inbox_at d client ≡ [])
            (λ x. inbox_at d client ≡ x.now ∷ drop 1 (inbox_at d client)) }
    {
        let i = inbox_index(&self.rows, client)?;
        self.rows[i].waiting.front()
    }

    /// Takes a client's oldest delivery.
    pub fn take(&mut self, client: u32) -> Option<Shared<Delivery>>
        ensures taken { (d : Effects) → TracksInboxes d self.old → MatchOption result
            ((inbox_at d client ≡ []) × TracksInboxes d self.new)
            (λ x. (inbox_at d client ≡ x ∷ drop 1 (inbox_at d client)) × TracksInboxes (Takes client ∷ d) self.new) }
        ensures still { (k : ℕ) → is_open self.new k ≡ is_open self.old k }
        ensures room { (k : ℕ) → room_of self.old k ≤ room_of self.new k }
    {
        let i = inbox_index(&self.rows, client)?;
        let row = &mut self.rows[i];
        row.waiting.pop_front()
    }

    /// Removes a client's inbox with its deliveries.
    pub fn remove_client(&mut self, client: u32)
        ensures tracks { (d : Effects) → TracksInboxes d self.old → TracksInboxes (Dies client ∷ d) self.new }
        ensures still { (k : ℕ) → (client == k) ≡ false → is_open self.new k ≡ is_open self.old k }
        ensures others { (k : ℕ) → (client == k) ≡ false → room_of self.new k ≡ room_of self.old k }
    {
        self.rows.retain(|row| row.client != client);
    }
}
