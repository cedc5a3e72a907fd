//! What is under the lock: the manager, and the publisher of its views.

ghost use Rattle.std.specs.Prelude.{◌≡◌, ◌≤◌, ◌&&◌, true, length, IfOk, MatchResult};
ghost use Rattle.std.specs.List.{All};
ghost use Rattle.sm_audit.specs.declared.ring.TheConstants.{MOST_RECORDS};
ghost use Rattle.sm_core.specs.Managed.{ring_after, step_leaves};
ghost use Rattle.sm_core.specs.Readying.{IsReady};
ghost use Rattle.sm_core.specs.SealReady.{IsReadySeal};
ghost use Rattle.sm_history.specs.declared.outcome.Outcome.TheVariants.{Connected};
ghost use Rattle.sm_history.specs.declared.reply.Reply.TheVariants.{Done, Refused};
ghost use Rattle.sm_history.specs.Histories.{client_of, turn_of};
ghost use Rattle.sm_history.specs.Records.{IsTrueOnce};
ghost use Rattle.sm_history.specs.BookOrder.{IsLawfulBook, extended, sealed_book};
ghost use Rattle.sm_history.specs.PossibleReplies.{OfConnect};
ghost use Rattle.sm_history.specs.Promises.{Submitted, Joined, Turned, TellsRecords, NotTold, Closed, NotClosed};
ghost use Rattle.sm_history.specs.Steps.{Steps, ClosesSegment, StaysOpen};
ghost use Rattle.sm_history.specs.Tokens.{Sees, keeps_turn, turn};
ghost use Rattle.sm_status.specs.States.{state_of};
ghost use Rattle.sm_door.specs.Locked.{Connects};
ghost use Rattle.sm_door.specs.Logged.{Logged};
ghost use Rattle.sm_door.specs.Telling.{TellsState};

use crate::actor::Actor;
use crate::published::Published;
use crate::publisher::Publisher;
use crate::registry::Naming;
use crate::seat::Seat;
use crate::session::Session;
use crate::shared_view::SharedView;
use left_right::Absorb;
use sm_core::{Manager, Ready, ReadySeal, View};
use sm_history::{By, Event, Failure, Gate, Record, Refusal, Reply, Segment, connected, moves};
use sm_status::Status;
use sm_values::Identity;
use std::alloc::{AllocError, Global};
use std::marker::Model;
use std::sync::{Arc, Wait};

/// The manager, and the publisher of its views. Readers find exactly the manager's history. Contracts see that history
/// with its slots, and the newest audit records.
pub struct LockedManager<J: Naming>
where
    Published<J>: Absorb<Arc<SharedView<J>>, State = View>,
{
    alloc: Global,
    manager: Manager,
    pub(crate) publisher: Publisher<J>,
}

impl<J: Naming> Model for LockedManager<J>
where
    Published<J>: Absorb<Arc<SharedView<J>>, State = View>,
{
    ghost use Rattle.std.specs.Prelude.{◌≡◌};
    ghost use Rattle.sm_door.specs.Locked.{Locked};

    ghost Value = { Locked };

    ghost view = { λ d. record { book = d.manager.book; ring = d.manager.ring } };

    ghost invariant = { λ d. d.publisher ≡ d.manager.book };
}

/// Publishes what a ready event leaves. On an error readers find what they found.
fn show_ready<J: Naming, R: Wait>(
    rt: &R,
    manager: &Manager,
    publisher: &mut Publisher<J>,
    ready: &Ready,
) -> Result<(), AllocError>
    requires ready { IsReady manager.now ready.now }
    requires shown { publisher.old ≡ manager.now.book }
    ensures { MatchResult result (λ done. publisher.new ≡ extended manager.now.book ready.now.entry)
        (λ e. publisher.new ≡ publisher.old) }
{
    let view = manager.view_after(ready, &publisher.shared_view().view)?;
    publisher.publish(rt, view)
}

/// Publishes what a seal leaves. On an error readers find what they found.
fn show_sealed<J: Naming, R: Wait>(
    rt: &R,
    manager: &Manager,
    publisher: &mut Publisher<J>,
    ready: &ReadySeal,
) -> Result<(), AllocError>
    requires ready { IsReadySeal manager.now.book ready.now }
    requires shown { publisher.old ≡ manager.now.book }
    ensures { MatchResult result (λ done. publisher.new ≡ sealed_book manager.now.book)
        (λ e. publisher.new ≡ publisher.old) }
{
    let view = manager.view_sealed(ready, &publisher.shared_view().view)?;
    publisher.publish(rt, view)
}

impl<J: Naming> LockedManager<J> {
    /// Makes it of a manager and the publisher that shows the manager's book.
    pub(crate) fn new(alloc: Global, manager: Manager, publisher: Publisher<J>) -> LockedManager<J>
        requires { publisher ≡ manager.book }
        ensures book { result.book ≡ manager.book }
        ensures ring { result.ring ≡ manager.ring }
    {
        LockedManager {
            alloc,
            manager,
            publisher,
        }
    }

    /// Judges an event of an actor at its turn, and makes it if it is accepted: this is the one step of the manager. The
    /// token then sees the history that answered, unless an allocation failed or the event isn't its actor's. Returns
    /// the event's audit records with the answer. The gate is told of the change's deliveries.
    #[inline(always)]
    pub fn act<R: Wait, G: Gate>(
        &mut self,
        rt: &R,
        gate: &G,
        me: &mut Actor<J>,
        event: Event,
    ) -> (Reply, Vec<Record>)
        ensures steps { Steps self.old.book me.old.by (turn me.old) event result.0 self.new.book }
        ensures ring { self.new.ring
            ≡ ring_after self.old.ring self.old.book me.old.by (turn me.old) event result.0 }
        ensures submitted { Submitted me.old me.new event result.0 }
        ensures logged { Logged me.old me.new event result.0 result.1.items }
        ensures by { me.new.by ≡ me.old.by }
    {
        let (reply, records) = self.step(rt, gate, me.by, me.due(), event);
        if !moves(&reply) {
            return (reply, records);
        }
        me.see(rt, self);
        (reply, records)
    }

    /// Connects a process, by a change of the manager's, which is the one step. The seat sees the history before it. On
    /// error (`TooManyClients`, `JournalFull` or `Memory`) the seat comes back, and no change was made.
    pub fn connect<R: Wait, G: Gate>(
        &mut self,
        rt: &R,
        gate: &G,
        seat: Seat<J>,
        who: Identity,
    ) -> Result<Session<J>, (Refusal, Seat<J>)>
        ensures steps { MatchResult result
            (λ s. Connects self.old who (Done (Connected (record { 0 = client_of s.by }))) self.new)
            (λ r. Connects self.old who (Refused r.0) self.new) }
        ensures joined { MatchResult result (λ s. Joined seat s who) (λ r. OfConnect r.0 × Turned seat r.1 who r.0) }
    {
        let mut seat = seat;
        seat.actor.see(rt, self);
        let due = self.turn(By::Manager);
        let (reply, _records) = self.step(rt, gate, By::Manager, due, Event::Connect(who));
        match connected(reply) {
            Ok(client) => {
                seat.actor.see(rt, self);
                let turn = self.turn(By::Client(client));
                Ok(seat.into_session(client, turn))
            }
            Err(refusal) => Err((refusal, seat)),
        }
    }

    /// Closes the open segment, and returns it. The token sees the history before the seal, and then the next segment.
    ///
    /// # Errors
    ///
    /// `Empty` if the segment has no changes, `Memory` if an allocation failed. Nothing is closed then.
    pub fn seal<R: Wait>(&mut self, rt: &R, me: &mut Actor<J>) -> Result<Segment, Refusal>
        ensures seals { MatchResult result (λ s. ClosesSegment self.old.book s self.new.book)
            (λ r. StaysOpen self.old.book r self.new.book) }
        ensures ring { self.new.ring ≡ self.old.ring }
        ensures closed { MatchResult result (λ s. Closed me.old me.new s) (λ r. NotClosed me.old me.new r) }
    {
        me.see(rt, self);
        match self.close_segment(rt) {
            Ok(segment) => {
                me.see(rt, self);
                Ok(segment)
            }
            Err(refusal) => Err(refusal),
        }
    }

    /// Returns the records of the ring, at most 1,024, oldest first. The token then sees the whole history; each record
    /// is true of a lawful history with which this one begins.
    ///
    /// # Errors
    ///
    /// `Memory` if an allocation failed; the token then stays as it is. `OutOfTurn` if the history has another number of
    /// changes of the actor than the token knew.
    pub fn denials<R: Wait>(&self, rt: &R, me: &mut Actor<J>) -> Result<Vec<Record>, Refusal>
        ensures { MatchResult result (λ v. (v.items ≡ self.now.ring) × TellsRecords me.old me.new v.items)
            (λ r. NotTold me.old me.new r) }
    {
        let Ok(records) = self.records() else {
            return Err(Refusal::Memory);
        };
        if me.meet(rt, self) {
            Ok(records)
        } else {
            Err(Refusal::Failed(Failure::OutOfTurn(me.due())))
        }
    }

    /// Returns the state that the history left. The token then sees this history. If an allocation failed, the token stays
    /// as it is.
    pub fn status<R: Wait>(&self, rt: &R, me: &mut Actor<J>) -> Result<Status, AllocError>
        ensures { MatchResult result (λ s. (s ≡ state_of self.now.book.history) × TellsState me.old me.new s)
            (λ e. me.new ≡ me.old) }
    {
        let status = self.manager.status()?;
        me.see(rt, self);
        Ok(status)
    }

    /// Shows two tokens the whole history. Returns whether it has as many changes of each one's actor as the token knew.
    pub fn meet<R: Wait>(&self, rt: &R, one: &mut Actor<J>, other: &mut Actor<J>) -> bool
        ensures one { Sees one.old self.now.book one.new }
        ensures other { Sees other.old self.now.book other.new }
        ensures turns { result ≡ (keeps_turn one.old one.new && keeps_turn other.old other.new) }
    {
        let first = one.meet(rt, self);
        let second = other.meet(rt, self);
        first && second
    }

    /// One step of the manager, with the audit records that it adds to the ring. A change is published before it is
    /// committed: if it can't be published, nothing is committed and the answer is `Memory`.
    #[inline(always)]
    fn step<R: Wait, G: Gate>(
        &mut self,
        rt: &R,
        gate: &G,
        by: By,
        turn: u64,
        event: Event,
    ) -> (Reply, Vec<Record>)
        ensures answers { Steps self.old.book by turn event result.0 self.new.book }
        ensures ring { self.new.ring ≡ ring_after self.old.ring self.old.book by turn event result.0 }
        ensures records { result.1.items ≡ step_leaves self.old.book by turn event result.0 }
    {
        let ready = match self.manager.ready(by, turn, event) {
            Ok(ready) => ready,
            Err(refused) => return refused,
        };
        match show_ready(rt, &self.manager, &mut self.publisher, &ready) {
            Ok(()) => {
                gate.changed(self.manager.drafted());
                self.manager.commit(ready)
            }
            Err(_) => {
                self.manager.cancel(ready);
                (Reply::Refused(Refusal::Memory), Vec::new(self.alloc))
            }
        }
    }

    /// Closes the open segment, and returns it. What follows it is published first: if that fails, nothing is closed.
    fn close_segment<R: Wait>(&mut self, rt: &R) -> Result<Segment, Refusal>
        ensures seals { MatchResult result (λ s. ClosesSegment self.old.book s self.new.book)
            (λ r. StaysOpen self.old.book r self.new.book) }
        ensures ring { self.new.ring ≡ self.old.ring }
    {
        let ready = match self.manager.ready_seal() {
            Ok(ready) => ready,
            Err(refusal) => return Err(refusal),
        };
        match show_sealed(rt, &self.manager, &mut self.publisher, &ready) {
            Ok(()) => Ok(self.manager.commit_seal(ready)),
            Err(_) => Err(Refusal::Memory),
        }
    }

    /// The number of changes that an actor made. The history is lawful.
    pub fn turn(&self, by: By) -> u64
        ensures turn { result ≡ turn_of self.now.book.history by }
        ensures lawful { IsLawfulBook self.now.book }
    {
        self.manager.lawful();
        self.manager.turn(by)
    }

    /// The newest records, at most 1,024, oldest first. Each is true of a lawful history with which this one begins.
    fn records(&self) -> Result<Vec<Record>, AllocError>
        ensures all { IfOk result (λ v. v.items ≡ self.now.ring) }
        ensures few { IfOk result (λ v. length v.items ≤ MOST_RECORDS) }
        ensures true_records { IfOk result
            (λ v. All (IsTrueOnce self.now.book.places self.now.book.history) v.items) }
    {
        self.manager.lawful();
        self.manager.records()
    }

    /// Ends the publication. Waits for the readers that are inside.
    pub fn close<R: Wait>(self, rt: &R) {
        let LockedManager {
            alloc: _,
            manager: _manager,
            publisher,
        } = self;
        publisher.close(rt);
    }
}
