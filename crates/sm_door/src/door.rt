//! The door: a manager behind a lock.

ghost use Rattle.std.specs.Prelude.{◌≡◌, ◌≤◌, ◌⊎◌, ◌&&◌, true, false, [], IfOk, IfErr, MatchResult};
ghost use Rattle.sm_values.specs.Contexts.{type_of};
ghost use Rattle.sm_values.specs.declared.class.Class.TheVariants.{Binder};
ghost use Rattle.sm_policy.specs.Policy.{allowed};
ghost use Rattle.sm_history.specs.declared.event.Event.TheVariants.{Die, Reload};
ghost use Rattle.sm_history.specs.declared.outcome.Outcome.TheVariants.{Died, Reloaded};
ghost use Rattle.sm_history.specs.declared.refusal.Refusal.TheVariants.{Failed, Memory, NoSeat as WantsPlace};
ghost use Rattle.sm_history.specs.declared.refusal.Failure.TheVariants.{NotYours};
ghost use Rattle.sm_history.specs.declared.query.Query.TheVariants.{List as ListNames, Version, Explain};
ghost use Rattle.sm_history.specs.declared.reply.Reply.TheVariants.{Refused};
ghost use Rattle.sm_history.specs.Checks.{managing};
ghost use Rattle.sm_history.specs.Lawful.{MayOpen};
ghost use Rattle.sm_history.specs.Verdict.{is_die};
ghost use Rattle.sm_core.specs.Opening.{opened, opening_denial};
ghost use Rattle.sm_history.specs.Promises.{Submitted, Accepted, Queried, Joined, TellsRecords, Turned, Closed};
ghost use Rattle.sm_history.specs.Promises.{NotClosed, NotTold};
ghost use Rattle.sm_history.specs.PossibleReplies.{OfConnect, OfDeath, OfInstall};
ghost use Rattle.sm_history.specs.Tokens.{Sees, keeps_turn, token};
ghost use Rattle.sm_history.specs.declared.limits.TheConstants.{MOST_CLIENTS};
ghost use Rattle.sm_door.specs.declared.opening.TheConstants.{ADMINS};
ghost use Rattle.sm_door.specs.Logged.{Logged, ReadLogged};
ghost use Rattle.sm_door.specs.Opening.{new_seats, new_admins};
ghost use Rattle.sm_door.specs.Telling.{TellsState};

use crate::actor::Actor;
use crate::admin::Admin;
use crate::locked_manager::LockedManager;
use crate::opening::{tokens_of, writer_of};
use crate::published::Published;
use crate::publisher::Publisher;
use crate::registry::{Naming, UnnamedRegistry};
use crate::seat::Seat;
use crate::session::Session;
use crate::shared_view::SharedView;
use crate::token::Token;
use crossbeam_utils::Backoff;
use left_right::Absorb;
use sm_core::{Manager, View};
use sm_history::{
    Event, Failure, Gate, MOST_CLIENTS, Query, Record, Refusal, Reply, Segment, died, installed,
    is_death,
};
use sm_policy::Prepared;
use sm_status::Status;
use sm_values::{Class, Identity, Name, Perms, Places};
use std::alloc::{AllocError, Global};
use std::sync::{Arc, Mutex, MutexGuard, Wait};

/// How often a thread tries to take the lock before it sleeps. Between two tries it spins, longer each time, up to 64
/// iterations.
const ATTEMPTS: u32 = 16;

/// The manager behind one lock. A door isn't dropped: its owner ends it by `close`.
pub struct Door<J: Naming, G: Gate>
where
    Published<J>: Absorb<Arc<SharedView<J>>, State = View>,
{
    locked: Mutex<LockedManager<J>>,
    gate: G,
}

impl<J: Naming, G: Gate + Drop> Door<J, G> {
    /// Opens a manager under this identity and policy, with a journal of this many slots. Returns free seats for 64
    /// clients and the tokens of four administrators, too, which have all seen the opening. The identity's type needs
    /// SELinux's `set_context_mgr` on itself.
    ///
    /// # Errors
    ///
    /// A denial of `set_context_mgr`; if it is granted, `NoSeat` if a reader slot was refused. `Memory` if an
    /// allocation failed.
    pub fn open<R: Wait>(
        rt: &R,
        alloc: Global,
        unnamed: UnnamedRegistry,
        who: Identity,
        policy: Prepared,
        places: Places,
        gate: G,
    ) -> Result<(Door<J, G>, Vec<Seat<J>>, Vec<Admin<J>>), Refusal>
        requires registry { unnamed.seen.book ≡ J.registry }
        requires opening { J.opening ≡ opened places who policy }
        ensures opened { IfOk result (λ r. MayOpen who policy
            × (r.1.items ≡ new_seats (opened places who policy) MOST_CLIENTS)
            × (r.2.items ≡ new_admins (opened places who policy) ADMINS)) }
        ensures refused { IfErr result (λ r. (r ≡ Memory) ⊎ ((MayOpen who policy × (r ≡ WantsPlace))
            ⊎ ((allowed policy (type_of who.context) (type_of who.context) Binder managing ≡ false)
            × (r ≡ opening_denial who)))) }
    {
        Door::<J, G>::open_for(rt, alloc, unnamed, who, policy, places, gate, MOST_CLIENTS)
    }

    /// Opens a manager as `open` does, with free seats for this many clients, at most 64. Each change visits the reader
    /// slot of each seat, so fewer seats make changes faster.
    ///
    /// # Errors
    ///
    /// Those of `open`.
    pub fn open_for<R: Wait>(
        rt: &R,
        alloc: Global,
        unnamed: UnnamedRegistry,
        who: Identity,
        policy: Prepared,
        places: Places,
        gate: G,
        clients: usize,
    ) -> Result<(Door<J, G>, Vec<Seat<J>>, Vec<Admin<J>>), Refusal>
        requires registry { unnamed.seen.book ≡ J.registry }
        requires few { clients ≤ MOST_CLIENTS }
        requires opening { J.opening ≡ opened places who policy }
        ensures opened { IfOk result (λ r. MayOpen who policy
            × (r.1.items ≡ new_seats (opened places who policy) clients)
            × (r.2.items ≡ new_admins (opened places who policy) ADMINS)) }
        ensures refused { IfErr result (λ r. (r ≡ Memory) ⊎ ((MayOpen who policy × (r ≡ WantsPlace))
            ⊎ ((allowed policy (type_of who.context) (type_of who.context) Binder managing ≡ false)
            × (r ≡ opening_denial who)))) }
    {
        let manager = Manager::open(alloc, who, policy, places)?;
        let mut registry = unnamed.named::<J>();
        let Ok(view) = manager.view() else {
            return Err(Refusal::Memory);
        };
        let Ok(shared_view) = SharedView::new(rt, alloc, &mut registry, view) else {
            return Err(Refusal::Memory);
        };
        let Ok(writer) = writer_of(alloc, shared_view, clients) else {
            return Err(Refusal::Memory);
        };
        match tokens_of(alloc, &manager, &writer, clients) {
            Ok((seats, admins)) => {
                let publisher = Publisher::new(alloc, registry, writer);
                let locked = Mutex::new(LockedManager::new(alloc, manager, publisher));
                Ok((Door { locked, gate }, seats, admins))
            }
            Err(refusal) => {
                writer.take(rt);
                Err(refusal)
            }
        }
    }

    /// Returns the gate with which it was opened.
    pub fn gate(&self) -> &G
        ensures { result.now ≡ self.now.gate }
    {
        &self.gate
    }

    /// Takes the lock. A change takes less time than a thread needs to wake up, so this tries for some microseconds
    /// before it sleeps. `Mutex::lock` alone sleeps as soon as another thread does.
    fn lock<R: Wait>(&self, rt: &R) -> MutexGuard<'_, LockedManager<J>> {
        let backoff = Backoff::new();
        for _ in 0..ATTEMPTS {
            if let Some(guard) = self.locked.try_lock() {
                return guard;
            }
            backoff.spin();
        }
        self.locked.lock(rt)
    }

    /// Connects a process, by a change of the manager's. On error (`TooManyClients`, `JournalFull` or `Memory`) the
    /// seat comes back, and has seen the history that refused.
    pub fn connect<R: Wait>(
        &self,
        rt: &R,
        seat: Seat<J>,
        who: Identity,
    ) -> Result<Session<J>, (Refusal, Seat<J>)>
        ensures { MatchResult result (λ s. Joined seat s who) (λ r. OfConnect r.0 × Turned seat r.1 who r.0) }
    {
        let mut guard = self.lock(rt);
        self.gate.inside();
        let locked = &mut *guard;
        let answer = locked.connect(rt, &self.gate, seat, who);
        MutexGuard::unlock(guard);
        answer
    }

    /// Judges an event of this actor, and makes it if it is accepted. Returns the event's audit records with the
    /// answer.
    #[inline(always)]
    fn act<R: Wait>(&self, rt: &R, me: &mut Actor<J>, event: Event) -> (Reply, Vec<Record>)
        ensures submitted { Submitted me.old me.new event result.0 }
        ensures logged { Logged me.old me.new event result.0 result.1.items }
        ensures by { me.new.by ≡ me.old.by }
    {
        let mut guard = self.lock(rt);
        self.gate.inside();
        let locked = &mut *guard;
        let answer = locked.act(rt, &self.gate, me, event);
        MutexGuard::unlock(guard);
        answer
    }

    /// Judges an event of a client, and makes it if it is accepted. A death can't be submitted (`NotYours`): it is made
    /// by `die`.
    pub fn submit<R: Wait>(&self, rt: &R, me: &mut Session<J>, event: Event) -> Reply
        ensures death { is_die event ≡ true → (result ≡ Refused (Failed NotYours)) × (me.new ≡ me.old) }
        ensures other { is_die event ≡ false → Submitted me.old me.new event result }
    {
        if is_death(&event) {
            return Reply::Refused(Refusal::Failed(Failure::NotYours));
        }
        let (reply, _records) = self.act(rt, &mut me.actor, event);
        reply
    }

    /// As `submit`, and returns the audit records that the event added to the ring, oldest first: none where an
    /// allocation failed, or for a death.
    pub fn submit_recorded<R: Wait>(
        &self,
        rt: &R,
        me: &mut Session<J>,
        event: Event,
    ) -> (Reply, Vec<Record>)
        ensures death { is_die event ≡ true → (result.0 ≡ Refused (Failed NotYours)) × (result.1.items ≡ [])
            × (me.new ≡ me.old) }
        ensures other { is_die event ≡ false → Submitted me.old me.new event result.0 }
        ensures logged { is_die event ≡ false → Logged me.old me.new event result.0 result.1.items }
    {
        if is_death(&event) {
            let refused = Reply::Refused(Refusal::Failed(Failure::NotYours));
            return (refused, me.actor.no_records());
        }
        self.act(rt, &mut me.actor, event)
    }

    /// Makes the client's death, which is its last change, and returns its free seat. On error (`OutOfTurn`,
    /// `NotConnected` or `Memory`, and never `JournalFull`) the session comes back.
    pub fn die<R: Wait>(&self, rt: &R, me: Session<J>) -> Result<Seat<J>, (Refusal, Session<J>)>
        ensures { MatchResult result (λ s. Accepted me (token me.by s.seen s.reads) Die Died)
            (λ r. OfDeath r.0 × Submitted me r.1 Die (Refused r.0)) }
    {
        let mut me = me;
        let (reply, _records) = self.act(rt, &mut me.actor, Event::Die);
        match died(reply) {
            None => Ok(me.into_seat()),
            Some(refusal) => Err((refusal, me)),
        }
    }

    /// Replaces the policy if the one in force has the expected version, and returns the version of the new one. On
    /// error (`OutOfTurn`, `VersionMoved`, `JournalFull` or `Memory`) the policy comes back.
    pub fn install<R: Wait>(
        &self,
        rt: &R,
        me: &mut Admin<J>,
        expected: u64,
        prepared: Prepared,
    ) -> Result<u64, (Refusal, Prepared)>
        ensures { MatchResult result (λ v. Accepted me.old me.new (Reload expected prepared) (Reloaded v))
            (λ r. (r.1 ≡ prepared) × OfInstall r.0 × Submitted me.old me.new (Reload expected prepared) (Refused r.0)) }
    {
        let Ok(shared) = prepared.share() else {
            return Err((Refusal::Memory, prepared));
        };
        let event = Event::Reload {
            expected,
            prepared: shared,
        };
        let (reply, _records) = self.act(rt, &mut me.actor, event);
        match installed(reply) {
            Ok(version) => Ok(version),
            Err(refusal) => Err((refusal, prepared)),
        }
    }

    /// Returns the newest records of denials, at most 1,024, oldest first. Each is true of a lawful history with which
    /// the one begins that the token sees now. Returns `Memory` if an allocation failed; the token then stays as it is.
    pub fn denials<R: Wait>(&self, rt: &R, me: &mut Admin<J>) -> Result<Vec<Record>, Refusal>
        ensures { MatchResult result (λ v. TellsRecords me.old me.new v.items) (λ r. NotTold me.old me.new r) }
    {
        let guard = self.lock(rt);
        let locked = &*guard;
        let records = locked.denials(rt, &mut me.actor);
        MutexGuard::unlock(guard);
        records
    }

    /// Returns the state that the history left which the token sees now. It shares texts and the policy with the manager.
    /// Returns an error if an allocation failed; the token then stays as it is.
    pub fn status<R: Wait>(&self, rt: &R, me: &mut Admin<J>) -> Result<Status, AllocError>
        ensures { MatchResult result (λ s. TellsState me.old me.new s) (λ e. me.new ≡ me.old) }
    {
        let guard = self.lock(rt);
        let locked = &*guard;
        let status = locked.status(rt, &mut me.actor);
        MutexGuard::unlock(guard);
        status
    }

    /// Closes the open segment, and returns it. The token then sees the next segment, without changes. `Empty` if there
    /// were no changes. The token has seen the history before the seal in any case.
    pub fn seal<R: Wait>(&self, rt: &R, me: &mut Admin<J>) -> Result<Segment, Refusal>
        ensures { MatchResult result (λ s. Closed me.old me.new s) (λ r. NotClosed me.old me.new r) }
    {
        let mut guard = self.lock(rt);
        self.gate.inside();
        let locked = &mut *guard;
        let segment = locked.seal(rt, &mut me.actor);
        MutexGuard::unlock(guard);
        segment
    }

    /// Shows both sessions the whole history, so the answers of one come before the next answer of the other. Returns
    /// whether it has as many changes of each one's client as the session knew.
    pub fn meet<R: Wait>(&self, rt: &R, one: &mut Session<J>, other: &mut Session<J>) -> bool
        ensures one { Sees one.old one.new.seen one.new }
        ensures other { Sees other.old one.new.seen other.new }
        ensures turns { result ≡ (keeps_turn one.old one.new && keeps_turn other.old other.new) }
    {
        self.bring(rt, &mut one.actor, &mut other.actor)
    }

    /// Shows an administrator and a session the whole history, as in `meet`.
    pub fn meet_admin<R: Wait>(&self, rt: &R, one: &mut Admin<J>, other: &mut Session<J>) -> bool
        ensures one { Sees one.old one.new.seen one.new }
        ensures other { Sees other.old one.new.seen other.new }
        ensures turns { result ≡ (keeps_turn one.old one.new && keeps_turn other.old other.new) }
    {
        self.bring(rt, &mut one.actor, &mut other.actor)
    }

    /// Shows an administrator and a free seat the whole history, as in `meet`.
    pub fn meet_seat<R: Wait>(&self, rt: &R, one: &mut Admin<J>, other: &mut Seat<J>)
        ensures one { Sees one.old one.new.seen one.new }
        ensures other { Sees other.old one.new.seen other.new }
    {
        self.bring(rt, &mut one.actor, &mut other.actor);
    }

    /// Shows two administrators the whole history, as in `meet`.
    pub fn meet_admins<R: Wait>(&self, rt: &R, one: &mut Admin<J>, other: &mut Admin<J>)
        ensures one { Sees one.old one.new.seen one.new }
        ensures other { Sees other.old one.new.seen other.new }
    {
        self.bring(rt, &mut one.actor, &mut other.actor);
    }

    fn bring<R: Wait>(&self, rt: &R, one: &mut Actor<J>, other: &mut Actor<J>) -> bool
        ensures one { Sees one.old one.new.seen one.new }
        ensures other { Sees other.old one.new.seen other.new }
        ensures turns { result ≡ (keeps_turn one.old one.new && keeps_turn other.old other.new) }
    {
        let guard = self.lock(rt);
        let locked = &*guard;
        let are_known = locked.meet(rt, one, other);
        MutexGuard::unlock(guard);
        are_known
    }

    /// Lists the names whose dump flags share a bit with the mask (`listServices`). Never blocks. A denial is in the
    /// reply, and isn't added to the ring.
    pub fn list(&self, me: &mut Session<J>, mask: u32) -> Reply
        ensures { Queried me.old me.new (ListNames mask) result }
    {
        me.actor.read(Query::List(mask))
    }

    /// As `list`, and returns the query's audit records, oldest first. They are not added to the ring.
    pub fn list_recorded(&self, me: &mut Session<J>, mask: u32) -> (Reply, Vec<Record>)
        ensures { ReadLogged me.old me.new (ListNames mask) result.0 result.1.items }
    {
        me.actor.read_recorded(Query::List(mask))
    }

    /// Returns the version of the policy in force. Never blocks.
    pub fn version<T: Token>(&self, me: &mut T) -> Reply
        ensures { Queried (T.knows me.old) (T.knows me.new) Version result }
    {
        me.read_version()
    }

    /// Returns the line of the first allow rule that grants a permission. Never blocks.
    pub fn explain(
        &self,
        me: &mut Admin<J>,
        source: Name,
        target: Name,
        class: Class,
        perm: Perms,
    ) -> Reply
        ensures { Queried me.old me.new (Explain source target class perm) result }
    {
        me.actor.read(Query::Explain {
            source,
            target,
            class,
            perm,
        })
    }

    /// Ends the door. It waits for the readers that are inside.
    pub fn close<R: Wait>(self, rt: &R) {
        let Door {
            locked,
            gate: _gate,
        } = self;
        locked.into_inner().close(rt);
    }
}
