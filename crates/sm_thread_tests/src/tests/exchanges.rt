//! What two clients and an administrator are answered through a door, one after another, in the words of their lines,
//! and the audit lines of what they ask.

use super::door::{Scene, plays};
use sm_audit::push_lines;
use sm_door::{Admin, Door, Naming, Seat, Session};
use sm_history::{Event, Failure, NoGate, Outcome, Query, Record, Refusal, Reply, is_death};
use sm_replay::replay;
use sm_samples::Talk;
use sm_values::Identity;
use sm_wire::{Kind, Request, Telling, push_denials, reply_line};
use std::alloc::{AllocError, Global};
use std::process::Abort;
use std::sync::Wait;

/// Who sends a line.
#[derive(Clone, Copy, PartialEq, Eq)]
pub enum Sender {
    Service,
    Application,
    Admin,
}

/// What one of them says.
#[derive(Clone, Copy)]
pub enum Turn {
    /// Lines of the service, each with the line that answers it.
    Service(Talk),
    /// Lines of the application.
    Application(Talk),
    /// Lines of the administrator.
    Administrator(Talk),
    /// A line, the line that answers it, and the audit lines behind that.
    Audited(Sender, &'static str, &'static str, &'static [&'static str]),
}

use Turn::{Administrator, Application, Audited, Service};

/// What is said, in turn.
pub type Exchange = &'static [Turn];

/// The connections at a door.
#[derive(Drop)]
struct Parties<J: Naming> {
    seats: Vec<Seat<J>>,
    service: Option<Session<J>>,
    application: Option<Session<J>>,
    admin: Admin<J>,
}

fn not_connected() -> Reply {
    Reply::Refused(Refusal::Failed(Failure::NotConnected))
}

fn hello<J: Naming, R: Wait + Abort>(
    rt: &R,
    door: &Door<J, NoGate>,
    seat: Option<Seat<J>>,
    who: Identity,
) -> (Reply, Option<Session<J>>) {
    match door.connect(rt, seat.expect(rt, "a seat"), who) {
        Ok(session) => (
            Reply::Done(Outcome::Connected(session.client())),
            Some(session),
        ),
        Err((refusal, _)) => (Reply::Refused(refusal), None),
    }
}

fn die<J: Naming, R: Wait>(rt: &R, door: &Door<J, NoGate>, session: Session<J>) -> Reply {
    match door.die(rt, session) {
        Ok(_) => Reply::Done(Outcome::Died),
        Err((refusal, _)) => Reply::Refused(refusal),
    }
}

/// What a client is answered, the audit records of its request, and its session, if that goes on.
#[derive(Drop)]
struct Heard<J: Naming> {
    reply: Reply,
    records: Vec<Record>,
    session: Option<Session<J>>,
}

impl<J: Naming> Heard<J> {
    /// An answer without records.
    fn plain(alloc: Global, (reply, session): (Reply, Option<Session<J>>)) -> Heard<J> {
        Heard {
            reply,
            records: Vec::new(alloc),
            session,
        }
    }
}

/// What a client's change is answered.
fn change<J: Naming, R: Wait>(
    rt: &R,
    alloc: Global,
    door: &Door<J, NoGate>,
    session: Option<Session<J>>,
    event: Event,
) -> Heard<J> {
    let Some(mut session) = session else {
        return Heard::plain(alloc, (not_connected(), None));
    };
    if is_death(&event) {
        return Heard::plain(alloc, (die(rt, door, session), None));
    }
    let (reply, records) = door.submit_recorded(rt, &mut session, event);
    Heard {
        reply,
        records,
        session: Some(session),
    }
}

fn look<J: Naming>(
    alloc: Global,
    door: &Door<J, NoGate>,
    session: Option<Session<J>>,
    query: Query,
) -> Heard<J> {
    let Some(mut session) = session else {
        return Heard::plain(alloc, (not_connected(), None));
    };
    let (reply, records) = match query {
        Query::List(mask) => door.list_recorded(&mut session, mask),
        _ => (door.version(&mut session), Vec::new(alloc)),
    };
    Heard {
        reply,
        records,
        session: Some(session),
    }
}

/// The line that answers a client's line, with its audit lines. Keeps the client's session, if that goes on.
fn client_line<J: Naming, R: Wait + Abort>(
    rt: &R,
    alloc: Global,
    door: &Door<J, NoGate>,
    seats: &mut Vec<Seat<J>>,
    place: &mut Option<Session<J>>,
    line: &str,
) -> Vec<u8> {
    let session = place.take();
    let request = Request::read(alloc, Kind::Client, line.as_bytes()).ok();
    let request = request.expect(rt, "a request");
    let telling = request.telling();
    let heard = match request {
        Request::Hello(who) => Heard::plain(alloc, hello(rt, door, seats.pop(), who)),
        Request::Change(_, event) => change(rt, alloc, door, session, event),
        Request::Look(_, query) => look(alloc, door, session, query),
        _ => Heard::plain(alloc, (not_connected(), session)),
    };
    let told = reply_line(alloc, telling, &heard.reply).ok();
    let mut told = told.expect(rt, "a line");
    assert!(rt; push_lines(alloc, &mut told, &heard.records).is_ok());
    *place = heard.session;
    told
}

fn whole_line(rt: &impl Abort, alloc: Global, reply: &Reply) -> Vec<u8> {
    let told = reply_line(alloc, Telling::Whole, reply).ok();
    told.expect(rt, "a line")
}

/// The lines that answer the administrator.
fn admin_line<J: Naming, R: Wait + Abort>(
    rt: &R,
    alloc: Global,
    door: &Door<J, NoGate>,
    admin: &mut Admin<J>,
    line: &str,
) -> Vec<u8> {
    let request = Request::read(alloc, Kind::Admin, line.as_bytes()).ok();
    match request.expect(rt, "a request") {
        Request::Denials => denials(rt, alloc, door, admin),
        Request::Seal => whole_line(rt, alloc, &seal(rt, door, admin)),
        Request::Look(_, query) => whole_line(rt, alloc, &admin_look(door, admin, query)),
        _ => whole_line(rt, alloc, &not_connected()),
    }
}

fn admin_look<J: Naming>(door: &Door<J, NoGate>, admin: &mut Admin<J>, query: Query) -> Reply {
    match query {
        Query::Explain {
            source,
            target,
            class,
            perm,
        } => door.explain(admin, source, target, class, perm),
        _ => door.version(admin),
    }
}

fn denials<J: Naming, R: Wait + Abort>(
    rt: &R,
    alloc: Global,
    door: &Door<J, NoGate>,
    admin: &mut Admin<J>,
) -> Vec<u8> {
    let records = door.denials(rt, admin).ok().expect(rt, "records");
    let mut told = Vec::new(alloc);
    assert!(rt; push_denials(alloc, &mut told, records.as_slice()).is_ok());
    told
}

/// Seals. A segment's replay has the length of the segment.
fn seal<J: Naming, R: Wait + Abort>(rt: &R, door: &Door<J, NoGate>, admin: &mut Admin<J>) -> Reply {
    match door.seal(rt, admin) {
        Ok(segment) => {
            let rows = replay(&segment).ok().expect(rt, "rows");
            assert_eq!(rt; rows.history_length(), segment.history_length());
            Reply::Sealed {
                number: segment.number(),
                length: segment.history_length(),
            }
        }
        Err(refusal) => Reply::Refused(refusal),
    }
}

impl<J: Naming> Parties<J> {
    fn answered<R: Wait + Abort>(
        &mut self,
        rt: &R,
        alloc: Global,
        door: &Door<J, NoGate>,
        sender: Sender,
        line: &str,
    ) -> Vec<u8> {
        match sender {
            Sender::Admin => admin_line(rt, alloc, door, &mut self.admin, line),
            Sender::Service => {
                client_line(rt, alloc, door, &mut self.seats, &mut self.service, line)
            }
            Sender::Application => {
                client_line(
                    rt,
                    alloc,
                    door,
                    &mut self.seats,
                    &mut self.application,
                    line,
                )
            }
        }
    }

    /// Sends these lines. Asserts that they are answered as they should be, without audit lines.
    fn talk<R: Wait + Abort>(
        &mut self,
        rt: &R,
        alloc: Global,
        door: &Door<J, NoGate>,
        sender: Sender,
        talk: Talk,
    ) {
        for (line, answer) in talk {
            self.hears(rt, alloc, door, sender, (line, answer), &[]);
        }
    }

    /// Sends a line. Asserts that it is answered by this line and these audit lines.
    fn hears<R: Wait + Abort>(
        &mut self,
        rt: &R,
        alloc: Global,
        door: &Door<J, NoGate>,
        sender: Sender,
        (line, answer): (&str, &str),
        audit: &[&str],
    ) {
        let told = self.answered(rt, alloc, door, sender, line);
        let wanted = answer_with(alloc, answer, audit).ok();
        assert_eq!(rt; told, wanted.expect(rt, "memory"));
    }
}

/// An answer's lines, each with its newline.
fn answer_with(alloc: Global, answer: &str, audit: &[&str]) -> Result<Vec<u8>, AllocError> {
    let mut lines = Vec::from_slice(alloc, answer.as_bytes())?;
    for line in audit {
        lines.push(b'\n')?;
        lines.extend_from_slice(line.as_bytes())?;
    }
    lines.push(b'\n')?;
    Ok(lines)
}

/// Sends the lines of an exchange. Asserts that each is answered as the exchange says.
pub fn converse<J: Naming, R: Wait + Abort>(
    rt: &R,
    alloc: Global,
    door: &Door<J, NoGate>,
    seats: Vec<Seat<J>>,
    mut admins: Vec<Admin<J>>,
    exchange: Exchange,
) {
    let mut parties = Parties {
        seats,
        service: None,
        application: None,
        admin: admins.pop().expect(rt, "an administrator"),
    };
    for turn in exchange {
        match turn {
            Service(talk) => parties.talk(rt, alloc, door, Sender::Service, talk),
            Application(talk) => parties.talk(rt, alloc, door, Sender::Application, talk),
            Administrator(talk) => parties.talk(rt, alloc, door, Sender::Admin, talk),
            Audited(sender, line, answer, audit) => {
                parties.hears(rt, alloc, door, *sender, (line, answer), audit);
            }
        }
    }
}

const A_FULL_JOURNAL_IS_SEALED: Exchange = &[
    Service(&[
        ("hello 100 1000 u:r:system_server:s0", "client 1"),
        ("add activity o1 0 8", "ok"),
        ("add activity o1 0 8", "failed journal-full"),
        ("list 15", "names 1 3 1 activity"),
    ]),
    Administrator(&[("seal", "sealed 1 3")]),
    Service(&[
        ("add activity o1 0 8", "ok"),
        ("list 15", "names 1 4 1 activity"),
    ]),
    Application(&[
        ("hello 200 10007 u:r:untrusted_app:s0", "client 2"),
        ("get activity", "failed journal-full"),
    ]),
    Administrator(&[("seal", "sealed 2 5")]),
    Application(&[("get activity", "handle 1"), ("get activity", "handle 1")]),
    Administrator(&[("seal", "sealed 3 7")]),
    Application(&[
        ("release 1", "ok"),
        ("release 1", "ok"),
        ("release 1", "failed bad-handle"),
    ]),
    Administrator(&[
        ("seal", "sealed 4 9"),
        ("seal", "empty"),
        ("version", "version 1 9"),
    ]),
];

#[test]
fn a_full_journal_is_sealed(rt: HostRuntime) {
    plays(&rt, rt.alloc(), 4, Scene::Lines(A_FULL_JOURNAL_IS_SEALED));
}

const CHANGES_OF_EACH_KIND: Exchange = &[
    Service(&[
        ("hello 100 1000 u:r:system_server:s0", "client 1"),
        ("watch activity o3", "ok"),
        ("add activity o1 0 8", "ok"),
        ("take", "registered o3 activity o1"),
    ]),
    Application(&[
        ("hello 200 10007 u:r:untrusted_app:s0", "client 2"),
        ("get activity", "handle 1"),
        ("call 1 00 o5 h9", "failed bad-handle"),
    ]),
    Service(&[("take", "empty")]),
    Application(&[("call 1 00 o5 o5", "ok")]),
    Service(&[
        ("take", "call o1 200 10007 00 h1 h1"),
        ("release 1", "ok"),
        ("release 1", "ok"),
        ("release 1", "failed bad-handle"),
        ("unregister activity o1", "exception -5 in-use"),
        ("unwatch activity o3", "ok"),
        ("unwatch activity o3", "exception -5 nothing-to-unregister"),
        ("bye", "bye"),
        ("take", "failed not-connected"),
    ]),
    Application(&[("get activity", "null"), ("call 1 00", "dead")]),
    Service(&[
        ("hello 103 1000 u:r:system_server:s0", "client 3"),
        ("add activity o1 0 8", "ok"),
    ]),
    Application(&[("get activity", "handle 2"), ("release 2", "ok")]),
    Service(&[
        ("unregister activity o1", "ok"),
        ("unregister activity o1", "exception -5 not-registered"),
    ]),
    Application(&[("bye", "bye")]),
];

#[test]
fn changes_of_each_kind(rt: HostRuntime) {
    plays(&rt, rt.alloc(), 1000, Scene::Lines(CHANGES_OF_EACH_KIND));
}

const BARRED: &str =
    "journal=6 version=1 clause: denied app for pid=200 uid=10007 name=activity scontext=u:r:untrusted_app:s0";

const FIND_DENIED: &str =
    "journal=6 version=1 avc: denied { find } for pid=200 uid=10007 name=foo scontext=u:r:untrusted_app:s0 tcontext=u:object_r:default_android_service:s0 tclass=service_manager permissive=0";

const EXPLANATIONS_AND_DENIALS: Exchange = &[
    Administrator(&[
        (
            "explain untrusted_app system_server binder call",
            "allowed 1 15",
        ),
        (
            "explain system_server untrusted_app binder call",
            "unwritten 1",
        ),
        ("denials", "denials 0"),
    ]),
    Service(&[
        ("hello 100 1000 u:r:system_server:s0", "client 1"),
        ("add activity o1 0 8", "ok"),
    ]),
    Application(&[
        ("hello 200 10007 u:r:untrusted_app:s0", "client 2"),
        ("get activity", "handle 1"),
        ("get activity", "handle 1"),
    ]),
    Audited(
        Sender::Application,
        "add activity o1 0 8",
        "exception -1 app 10007",
        &[BARRED],
    ),
    Audited(Sender::Admin, "denials", "denials 1", &[BARRED]),
    Audited(
        Sender::Application,
        "list 15",
        "exception -1 denied untrusted_app servicemanager service_manager list",
        &[
            "journal=6 version=1 avc: denied { list } for pid=200 uid=10007 scontext=u:r:untrusted_app:s0 tcontext=u:r:servicemanager:s0 tclass=service_manager permissive=0",
        ],
    ),
    Audited(Sender::Application, "get foo", "null", &[FIND_DENIED]),
    Audited(
        Sender::Admin,
        "denials",
        "denials 2",
        &[BARRED, FIND_DENIED],
    ),
    Administrator(&[("seal", "sealed 1 6")]),
    Audited(Sender::Application, "get foo", "null", &[FIND_DENIED]),
];

#[test]
fn explanations_and_denials(rt: HostRuntime) {
    let scene = Scene::Lines(EXPLANATIONS_AND_DENIALS);
    plays(&rt, rt.alloc(), 1000, scene);
}
