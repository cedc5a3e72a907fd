//! The journal with the tables that it leaves, which judgements read.

mod access;
mod adding;
mod calling;
mod changing;
mod closing;
mod connecting;
mod dying;
mod getting;
mod judging;
mod looking;
mod notifications;
mod opening;
mod releasing;
mod reloading;
mod taking;
mod telling;
mod unregistering;
mod watching;

ghost use Rattle.std.specs.Prelude.{◌≡◌, ◌≤◌, true, false, MatchOption};
ghost use Rattle.sm_values.specs.declared.limits.TheConstants.{MOST_PLACES};
ghost use Rattle.sm_history.specs.Clients.{is_live};
ghost use Rattle.sm_history.specs.Histories.{turn_of};
ghost use Rattle.sm_history.specs.Holdings.{resolve_at};
ghost use Rattle.sm_history.specs.Lawful.{IsLawful, FitsPlaces};
ghost use Rattle.sm_core.specs.Tables.{client_row};
ghost use Rattle.sm_core.specs.Managed.{effects_in};

use crate::client::LiveClient;
use crate::journal::Journal;
use crate::state::State;
use crate::turns::Turns;
use sm_history::By;
use sm_values::{Node, ObjRef, drop_fields};
use std::alloc::Global;
use std::marker::Model;

/// The journal with the tables that it leaves. Contracts see the slots, the history, and the room for a change.
pub struct Ledger {
    alloc: Global,
    places: u32,
    journal: Journal,
    turns: Turns,
    state: State,
}

impl Drop for Ledger {
    fn drop(self) {
        drop_fields!(self: alloc, places, journal, turns, state);
    }
}

impl Model for Ledger {
    ghost use Rattle.sm_core.specs.Counting.{turn_room};
    ghost use Rattle.sm_core.specs.Managed.{Ledgered};
    ghost use Rattle.sm_core.specs.Kept.{Kept};

    ghost Value = { Ledgered };

    ghost view = { λ m. record {
      book = record { places = m.places; history = m.journal.history };
      entries = m.journal.room;
      turns = turn_room m.turns;
      state = m.state;
    } };

    ghost invariant = { λ m. Kept m.places m.journal.history m.turns m.state };
}

impl Ledger {
    /// What every ledger keeps: its history is lawful, and fits its places together with the deaths to come.
    pub fn lawful(&self)
        ensures lawful { IsLawful self.now.book.places self.now.book.history }
        ensures fits { FitsPlaces self.now.book.places self.now.book.history }
        ensures few { self.now.book.places ≤ MOST_PLACES }
    {
        // Reads a field, so that the invariant is known: see docs/PROOFS.md.
        let _ = &self.places;
    }

    /// Returns the number of changes that an actor made, which is the turn of its next one. A dead client's stays until
    /// a seal.
    #[inline(always)]
    pub fn turn(&self, by: By) -> u64
        ensures { result ≡ turn_of self.now.book.history by }
    {
        self.turns.of(by)
    }

    fn client_row(&self, id: u32) -> Option<&LiveClient>
        ensures { MatchOption result (is_live (effects_in self.now) id ≡ false)
            (λ r. (is_live (effects_in self.now) id ≡ true) × (r.now ≡ client_row (effects_in self.now) id)) }
    {
        self.state.principals.client(id)
    }

    /// Returns the object that a client's reference names.
    fn resolved(&self, client: u32, obj: ObjRef) -> Option<Node>
        ensures { result ≡ resolve_at (effects_in self.now) client obj }
    {
        self.state.grants.resolve(client, obj)
    }
}
