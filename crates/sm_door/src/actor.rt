//! Actors with their reader slots.

ghost use Rattle.std.specs.Prelude.{◌≡◌, [], nat_eq, MatchOption};
ghost use Rattle.left_right.specs.Sides.{view as place_view};
ghost use Rattle.sm_history.specs.Histories.{turn_of};
ghost use Rattle.sm_history.specs.BookOrder.{Begins, IsLawfulBook};
ghost use Rattle.sm_history.specs.Promises.{Queried};
ghost use Rattle.sm_history.specs.Tokens.{Sees as SeesNow, keeps_turn, token, turn};
ghost use Rattle.sm_door.specs.Logged.{ReadFrom, ReadLogged};
ghost use Rattle.sm_door.specs.Rule.{known};

use crate::locked_manager::LockedManager;
use crate::published::{Sees, ViewReader};
use crate::registry::Naming;
use sm_history::{By, Query, Record, Refusal, Reply};
use sm_values::drop_fields;
use std::alloc::Global;
use std::marker::Model;
use std::sync::Wait;

/// An actor with its reader slot. Contracts see the actor, the history that it has seen, and the number of its reads.
pub struct Actor<J: Naming> {
    alloc: Global,
    pub(crate) by: By,
    /// The number of its own changes that it has seen.
    turn: u64,
    /// Its reader slot, which is absent only within a call.
    reader: Option<ViewReader<J>>,
}

impl<J: Naming> Drop for Actor<J> {
    fn drop(self) {
        drop_fields!(self: alloc, by, turn, reader);
    }
}

impl<J: Naming> Model for Actor<J> {
    ghost use Rattle.std.specs.Prelude.{◌≡◌, MatchOption};
    ghost use Rattle.left_right.specs.Sides.{view as place_view};
    ghost use Rattle.sm_history.specs.Histories.{turn_of};
    ghost use Rattle.sm_history.specs.BookOrder.{Begins, IsLawfulBook};
    ghost use Rattle.sm_history.specs.Tokens.{Knows, token, at_or};
    ghost use Rattle.sm_door.specs.Rule.{known};

    ghost Value = { Knows };

    ghost view = { λ s. token s.by (at_or (known J.opening 0) (λ r. place_view r.place) s.reader).seen
        (at_or (known J.opening 0) (λ r. place_view r.place) s.reader).reads };

    ghost invariant = { λ s. MatchOption s.reader ⊥
        (λ r. (s.turn ≡ turn_of (place_view r.place).seen.history s.by) × IsLawfulBook (place_view r.place).seen
        × Begins (place_view r.place).seen J.opening) };
}

impl<J: Naming> Actor<J> {
    /// Makes an actor with a new slot.
    pub(crate) fn new(alloc: Global, by: By, turn: u64, reader: ViewReader<J>) -> Actor<J>
        requires new { place_view reader.place ≡ known J.opening 0 }
        requires turn { turn ≡ turn_of J.opening.history by }
        requires lawful { IsLawfulBook J.opening }
        ensures { result ≡ token by J.opening 0 }
    {
        Actor {
            alloc,
            by,
            turn,
            reader: Some(reader),
        }
    }

    /// Returns an empty list of records.
    pub(crate) fn no_records(&self) -> Vec<Record>
        ensures { result.items ≡ [] }
    {
        Vec::new(self.alloc)
    }

    /// Returns the number of its own changes that it has seen, which is its next turn. The history that it has seen is
    /// lawful, and begins with that of the door's opening.
    pub fn due(&self) -> u64
        ensures turn { result ≡ turn self.now }
        ensures lawful { IsLawfulBook self.now.seen }
        ensures begins { Begins self.now.seen J.opening }
    {
        match &self.reader {
            Some(_) => self.turn,
            None => unreachable!(),
        }
    }

    /// Answers a query from the published shared view. Never blocks. `NoSeat` if no entry was free; the token is then
    /// unchanged. `OutOfTurn` if the actor made another number of changes than the token knew.
    pub fn read(&mut self, query: Query) -> Reply
        ensures { Queried self.old self.new query result }
    {
        match self.read_view(query) {
            Some((reply, _records)) => reply,
            None => Reply::Refused(Refusal::NoSeat),
        }
    }

    /// As `read`, and returns the audit records of the query, oldest first.
    pub fn read_recorded(&mut self, query: Query) -> (Reply, Vec<Record>)
        ensures { ReadLogged self.old self.new query result.0 result.1.items }
    {
        match self.read_view(query) {
            Some(answered) => answered,
            None => (Reply::Refused(Refusal::NoSeat), Vec::new(self.alloc)),
        }
    }

    /// Returns the answer of the published shared view, with the query's records, or `None` if no entry was free.
    fn read_view(&mut self, query: Query) -> Option<(Reply, Vec<Record>)>
        ensures { MatchOption result (self.new ≡ self.old) (λ r. ReadFrom self.old self.new query r.0 r.1.items) }
    {
        match self.reader.take().unwrap().enter_as::<Sees>() {
            Ok(reading) => {
                let shared_view = &reading.get().shared_view;
                let answered = shared_view.look_in_turn(self.alloc, self.by, self.turn, query);
                self.turn = shared_view.turn(self.by);
                self.reader = Some(reading.leave());
                Some(answered)
            }
            Err(reader) => {
                self.reader = Some(reader);
                None
            }
        }
    }

    /// Returns whether the actor made as many changes as the token knows, under the lock.
    fn is_in_turn(&self, locked: &LockedManager<J>) -> bool
        ensures { result ≡ nat_eq (turn_of locked.now.book.history self.now.by) (turn self.now) }
    {
        locked.turn(self.by) == self.due()
    }

    /// Sees the whole history, under the lock. Returns whether it has as many changes of the actor as the token knew.
    pub(crate) fn meet<R: Wait>(&mut self, rt: &R, locked: &LockedManager<J>) -> bool
        ensures sees { SeesNow self.old locked.now.book self.new }
        ensures turn { result ≡ keeps_turn self.old self.new }
    {
        let is_known = self.is_in_turn(locked);
        self.see(rt, locked);
        is_known
    }

    /// Sees the whole history, under the lock.
    pub(crate) fn see<R: Wait>(&mut self, rt: &R, locked: &LockedManager<J>)
        ensures { SeesNow self.old locked.now.book self.new }
    {
        let reader = self.reader.take().unwrap();
        let reader = locked.publisher.inform(rt, reader);
        self.turn = locked.turn(self.by);
        self.reader = Some(reader);
    }

    /// Passes the slot to another actor, who made `turn` changes.
    pub(crate) fn passed(self, by: By, turn: u64) -> Actor<J>
        requires { turn ≡ turn_of self.seen.history by }
        ensures { result ≡ token by self.seen self.reads }
    {
        let Actor {
            alloc,
            by: _,
            turn: _,
            reader,
        } = self;
        Actor {
            alloc,
            by,
            turn,
            reader,
        }
    }
}
