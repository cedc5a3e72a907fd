//! A door: sessions, changes, reads, installs, denials, states, seals and audit records.

ghost use Rattle.std.specs.Prelude.{◌≡◌};
ghost use Rattle.sm_core.specs.Opening.{opened};

use super::events::activity;
use super::manager::{is_memory, lists_activity, prepared, process};
use super::outcome::same;
use sm_door::{Admin, Door, Naming, Seat, Session, UnnamedRegistry};
use sm_history::{Event, NoGate, Outcome, Record, Refusal, Reply};
use sm_policy::Prepared;
use sm_samples::DEVICE_RULES;
use sm_status::push_status;
use sm_values::{Identity, Name, Places, drop_fields};
use std::alloc::Global;
use std::marker::Brand;
use std::process::Abort;
use std::sync::Wait;

/// What calls at a door take.
struct Caller<'a, J: Naming, R> {
    rt: &'a R,
    alloc: Global,
    door: &'a Door<J, NoGate>,
}

impl<'a, J: Naming, R> Drop for Caller<'a, J, R> {
    fn drop(self) {
        drop_fields!(self: rt, alloc, door);
    }
}

impl<'a, J: Naming, R: Wait + Abort> Caller<'a, J, R> {
    /// A session of a process. After a failed allocation the seat comes back, and another try succeeds.
    fn joined(&self, seats: &mut Vec<Seat<J>>, context: &[u8]) -> Option<Session<J>> {
        let who = process(self.alloc, context)?;
        let seat = seats.pop().expect(self.rt, "a seat");
        match self.door.connect(self.rt, seat, who) {
            Ok(session) => Some(session),
            Err((refusal, seat)) => {
                assert!(self.rt; matches!(refusal, Refusal::Memory));
                let again = process(self.alloc, context).expect(self.rt, "an identity");
                let session = self.door.connect(self.rt, seat, again).ok();
                assert!(self.rt; session.is_some());
                session
            }
        }
    }

    /// Adds `activity`. After a refusal nothing has changed, and another try succeeds.
    fn adds(&self, me: &mut Session<J>) -> Option<()> {
        let event = activity(self.alloc)?;
        if !is_added(self.rt, self.door.submit(self.rt, me, event)) {
            let again = activity(self.alloc)?;
            assert!(self.rt; is_added(self.rt, self.door.submit(self.rt, me, again)));
        }
        Some(())
    }

    /// Installs a policy over version 1. If an allocation failed, the policy comes back.
    fn refused(&self, me: &mut Admin<J>, rules: Prepared) -> Option<Prepared> {
        match self.door.install(self.rt, me, 1, rules) {
            Ok(version) => {
                same(self.rt, version, 2);
                None
            }
            Err((refusal, back)) => {
                assert!(self.rt; matches!(refusal, Refusal::Memory));
                Some(back)
            }
        }
    }

    /// Installs a policy. One that comes back is installed at the second try.
    fn installs(&self, me: &mut Admin<J>) -> Option<()> {
        let rules = permissive(self.rt, self.alloc)?;
        if let Some(back) = self.refused(me, rules) {
            assert!(self.rt; self.refused(me, back).is_none());
        }
        Some(())
    }

    /// Installs a policy over a version that isn't in force any more. The policy comes back. `None` if an allocation
    /// failed.
    fn loses(&self, me: &mut Admin<J>) -> Option<()> {
        let rules = permissive(self.rt, self.alloc)?;
        let counts = rules.counts();
        match self.door.install(self.rt, me, 1, rules) {
            Err((Refusal::VersionMoved(2), back)) => {
                assert!(self.rt; back.counts().rules == counts.rules);
                Some(())
            }
            Err((refusal, _)) => {
                assert!(self.rt; matches!(refusal, Refusal::Memory));
                None
            }
            Ok(_) => None.expect(self.rt, "a refusal"),
        }
    }

    /// Whether a seal returns the first segment, with four changes.
    fn closes(&self, me: &mut Admin<J>) -> bool {
        match self.door.seal(self.rt, me) {
            Ok(segment) => {
                same(self.rt, segment.number(), 1);
                same(self.rt, segment.history_length(), 4);
                true
            }
            Err(_) => false,
        }
    }

    /// Seals. After a refusal nothing has changed, and another try succeeds.
    fn seals(&self, me: &mut Admin<J>) {
        if !self.closes(me) {
            assert!(self.rt; self.closes(me));
        }
    }

    /// Returns no session if its client dies. If it doesn't, an allocation failed, and the session comes back.
    fn kept(&self, me: Session<J>) -> Option<Session<J>> {
        match self.door.die(self.rt, me) {
            Ok(_) => None,
            Err((refusal, me)) => {
                assert!(self.rt; matches!(refusal, Refusal::Memory));
                Some(me)
            }
        }
    }

    /// A session's client dies. After a failed allocation another try succeeds.
    fn dies(&self, me: Session<J>) {
        if let Some(me) = self.kept(me) {
            assert!(self.rt; self.kept(me).is_none());
        }
    }

    /// A watch that is done because its client is permissive comes with its record. `None` if an allocation failed.
    fn watches(&self, me: &mut Session<J>) -> Option<()> {
        let event = power(self.alloc)?;
        let (reply, records) = self.door.submit_recorded(self.rt, me, event);
        let is_watched = matches!(&reply, Reply::Done(Outcome::Watched(_)));
        has_record(self.rt, is_watched, reply, records)
    }

    /// An add that is denied comes with its record. `None` if an allocation failed.
    fn may_not_add(&self, me: &mut Session<J>) -> Option<()> {
        let event = activity(self.alloc)?;
        let (reply, records) = self.door.submit_recorded(self.rt, me, event);
        is_denied(self.rt, reply, records)
    }

    /// A list that is denied comes with its record. `None` if an allocation failed.
    fn may_not_list(&self, me: &mut Session<J>) -> Option<()> {
        let (reply, records) = self.door.list_recorded(me, 15);
        is_denied(self.rt, reply, records)
    }

    /// The calls of an application.
    fn application(&self, seats: &mut Vec<Seat<J>>) -> Option<()> {
        let mut me = self.joined(seats, b"u:r:untrusted_app:s0")?;
        again!(self.rt; self.may_not_add(&mut me));
        again!(self.rt; self.may_not_list(&mut me));
        self.dies(me);
        Some(())
    }

    /// There is this number of records. `None` if an allocation failed.
    fn has_denials(&self, me: &mut Admin<J>, wanted: usize) -> Option<()> {
        let records = self.door.denials(self.rt, me).ok()?;
        assert!(self.rt; records.len() == wanted);
        Some(())
    }

    /// The state has a line for its counts, the client, the service and the watch. `None` if an allocation failed.
    fn tells_state(&self, me: &mut Admin<J>) -> Option<()> {
        let status = self.door.status(self.rt, me).ok()?;
        let mut text = Vec::new(self.alloc);
        push_status(self.alloc, &mut text, &status).ok()?;
        assert!(self.rt; text.starts_with(b"state "));
        assert!(self.rt; text.ends_with(b"\nwatch power 1 o7\n"));
        assert!(self.rt; text.iter().filter(|byte| **byte == b'\n').count() == 4);
        Some(())
    }

    /// The calls of an administrator.
    fn administrator(&self, me: &mut Admin<J>) -> Option<()> {
        self.installs(me)?;
        again!(self.rt; self.loses(me));
        again!(self.rt; self.has_denials(me, 0));
        self.seals(me);
        Some(())
    }

    /// The calls of a server, and then those of an administrator.
    fn server(&self, me: &mut Session<J>, admin: &mut Admin<J>) -> Option<()> {
        self.adds(me)?;
        again!(self.rt; lists_activity(self.rt, self.door.list(me, 15), 3));
        self.administrator(admin)?;
        again!(self.rt; self.watches(me));
        again!(self.rt; self.has_denials(admin, 1));
        again!(self.rt; self.tells_state(admin));
        Some(())
    }

    /// The calls while a server has a session.
    fn while_served(&self, seats: &mut Vec<Seat<J>>, admin: &mut Admin<J>) -> Option<()> {
        let mut me = self.joined(seats, b"u:r:system_server:s0")?;
        let ended = self.server(&mut me, admin);
        self.dies(me);
        ended
    }

    fn calls(&self, seats: &mut Vec<Seat<J>>, admins: &mut Vec<Admin<J>>) -> Option<()> {
        let admin = admins.first_mut().expect(self.rt, "an administrator");
        self.while_served(seats, admin)?;
        self.application(seats)
    }
}

/// Whether `activity` was added. If it wasn't, an allocation failed.
fn is_added(rt: &impl Abort, reply: Reply) -> bool {
    if matches!(&reply, Reply::Done(Outcome::Added(_))) {
        return true;
    }
    assert!(rt; is_memory(&reply));
    false
}

/// A watch of a name that no rule lets a server find.
fn power(alloc: Global) -> Option<Event> {
    Some(Event::Watch {
        name: Name::new(alloc, b"power").ok()?,
        object: 7,
    })
}

/// The rules of a device, under which servers are permissive.
fn permissive(rt: &impl Abort, alloc: Global) -> Option<Prepared> {
    let mut rules = Vec::from_slice(alloc, DEVICE_RULES).ok()?;
    rules
        .extend_from_slice(b"permissive system_server;\n")
        .ok()?;
    prepared(rt, alloc, rules.as_slice())
}

/// A request was denied, with its record. `None` if an allocation failed, and then there is no record.
fn is_denied(rt: &impl Abort, reply: Reply, records: Vec<Record>) -> Option<()> {
    let is_denied = matches!(&reply, Reply::Refused(Refusal::Denied(_)));
    has_record(rt, is_denied, reply, records)
}

/// An answered request has one record. `None` if an allocation failed, and then there is none.
fn has_record(
    rt: &impl Abort,
    is_answered: bool,
    reply: Reply,
    records: Vec<Record>,
) -> Option<()> {
    if is_answered {
        assert!(rt; records.len() == 1);
        return Some(());
    }
    assert!(rt; is_memory(&reply));
    assert!(rt; records.is_empty());
    None
}

fn opens<J: Naming, R: Wait + Abort>(
    rt: &R,
    alloc: Global,
    unnamed: UnnamedRegistry,
    who: Identity,
    rules: Prepared,
    places: Places,
) -> Option<()>
    requires registry { unnamed.seen.book ≡ J.registry }
    requires opening { J.opening ≡ opened places who rules }
{
    match Door::<J, NoGate>::open(rt, alloc, unnamed, who, rules, places, NoGate) {
        Ok((door, mut seats, mut admins)) => {
            let ended = Caller {
                rt,
                alloc,
                door: &door,
            }
            .calls(&mut seats, &mut admins);
            door.close(rt);
            ended
        }
        Err(refusal) => {
            assert!(rt; matches!(refusal, Refusal::Memory | Refusal::NoSeat));
            None
        }
    }
}

fn door<R: Wait + Abort>(rt: &R, alloc: Global) -> Option<()> {
    let who = process(alloc, b"u:r:servicemanager:s0")?;
    let rules = permissive(rt, alloc)?;
    let places = Places::new(1000).expect(rt, "places");
    opens::<Brand, R>(rt, alloc, UnnamedRegistry::new(), who, rules, places)
}

#[test]
fn each_call_of_a_door(rt: HostRuntime) {
    again!(rt; door(&rt, rt.alloc()));
}
