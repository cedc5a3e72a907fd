//! Managers that are called directly: the changes of these tests, and what is seen of the replies.

use sm_core::Manager;
use sm_history::{
    Answer, By, Event, Failure, Notice, Outcome, Query, Reason, Refusal, Reply, Told,
};
use sm_policy::Prepared;
use sm_samples::{DEVICE_LABELS, DEVICE_RULES, stricter_rules};
use sm_values::{AdminId, ClientId, Context, Identity, Name, ObjRef, Payload, Places, Refs};
use std::alloc::Global;
use std::process::Abort;

/// The client that connects first, a system server.
pub const SERVER: By = By::Client(ClientId(1));

/// The client that connects second, an application.
pub const APPLICATION: By = By::Client(ClientId(2));

pub const ADMIN: By = By::Admin(AdminId(1));

/// A change, without what it takes memory to say. The name is `activity` in each.
#[derive(Clone, Copy)]
pub enum Act {
    Open,
    /// A system server connects.
    ConnectServer,
    /// An application connects.
    ConnectApplication,
    Add,
    Get,
    Watch(u32),
    Unwatch(u32),
    /// A call of handle 1.
    Call,
    /// The same, with two references to one object of the caller's.
    CallWithObject,
    /// One grant of handle 1.
    Release,
    Take,
    Die,
    /// The device's rules again, if the policy has this version.
    Reload(u64),
    /// Rules by which an application may not find `activity`.
    ReloadStricter(u64),
}

/// What these tests ask of a reply. One small value in place of each reply keeps their proofs short.
#[derive(Clone, Copy, PartialEq, Eq)]
pub enum Seen {
    Connected(u32),
    /// An add or a watch of which no watcher heard.
    Unheard,
    /// An add or a watch: the first watcher, its object and what became of it.
    Heard(u32, u32, Became),
    Reloaded(u64),
    /// Another change was made.
    Done,
    NotYours,
    NotConnected,
    OutOfTurn(u64),
    VersionMoved(u64),
    /// The version, the length and the number of names.
    Names(u64, u64, usize),
    /// The version and the length.
    Version(u64, u64),
    Another,
}

#[derive(Clone, Copy, PartialEq, Eq)]
pub enum Became {
    Told,
    Denied,
    TargetFull,
}

fn end_of(told: &Told) -> Became {
    match told {
        Told::Told(_) => Became::Told,
        Told::NotTold(reason) => match reason.get() {
            Reason::Denied(_) => Became::Denied,
            Reason::TargetFull => Became::TargetFull,
        },
    }
}

fn heard(notice: &Notice) -> Seen {
    Seen::Heard(notice.client.0, notice.object, end_of(&notice.result))
}

fn done(outcome: &Outcome) -> Seen {
    match outcome {
        Outcome::Connected(client) => Seen::Connected(client.0),
        Outcome::Added(notices) => match notices.list() {
            [] => Seen::Unheard,
            [notice, ..] => heard(notice),
        },
        Outcome::Watched(None) => Seen::Unheard,
        Outcome::Watched(Some(shared)) => heard(shared.get()),
        Outcome::Reloaded(version) => Seen::Reloaded(*version),
        _ => Seen::Done,
    }
}

fn refused(refusal: &Refusal) -> Seen {
    match refusal {
        Refusal::Failed(Failure::NotYours) => Seen::NotYours,
        Refusal::Failed(Failure::NotConnected) => Seen::NotConnected,
        Refusal::Failed(Failure::OutOfTurn(turn)) => Seen::OutOfTurn(*turn),
        Refusal::VersionMoved(version) => Seen::VersionMoved(*version),
        _ => Seen::Another,
    }
}

fn looked(version: u64, length: u64, answer: &Answer) -> Seen {
    match answer {
        Answer::Names(names) => Seen::Names(version, length, names.get().len()),
        Answer::Version => Seen::Version(version, length),
        Answer::Why(_) => Seen::Another,
    }
}

pub fn seen_of(reply: &Reply) -> Seen {
    match reply {
        Reply::Done(outcome) => done(outcome),
        Reply::Refused(refusal) => refused(refusal),
        Reply::Looked {
            version,
            length,
            answer,
        } => looked(*version, *length, answer),
        _ => Seen::Another,
    }
}

pub fn look(manager: &Manager, by: By, query: Query) -> Seen {
    seen_of(&manager.look(by, query))
}

pub fn policy(rt: &impl Abort, alloc: Global, rules: &[u8]) -> Prepared {
    let policy = Prepared::from_texts(alloc, rules, DEVICE_LABELS);
    policy.ok().expect(rt, "a policy")
}

fn process(rt: &impl Abort, alloc: Global, pid: u32, uid: u32, context: &[u8]) -> Identity {
    Identity {
        pid,
        uid,
        context: Context::read(alloc, context).ok().expect(rt, "a context"),
    }
}

/// A manager under this policy, with a journal of `places` slots.
pub fn opened_under(rt: &impl Abort, alloc: Global, policy: Prepared, places: u32) -> Manager {
    let places = Places::new(places).expect(rt, "places");
    let who = process(rt, alloc, 1, 1000, b"u:r:servicemanager:s0");
    let manager = Manager::open(alloc, who, policy, places);
    manager.ok().expect(rt, "a manager")
}

/// A manager under a device's policy.
pub fn opened(rt: &impl Abort, alloc: Global, places: u32) -> Manager {
    opened_under(rt, alloc, policy(rt, alloc, DEVICE_RULES), places)
}

fn server(rt: &impl Abort, alloc: Global) -> Identity {
    process(rt, alloc, 100, 1000, b"u:r:system_server:s0")
}

pub fn application(rt: &impl Abort, alloc: Global) -> Identity {
    process(rt, alloc, 200, 10007, b"u:r:untrusted_app:s0")
}

pub fn name(rt: &impl Abort, alloc: Global, bytes: &[u8]) -> Name {
    Name::new(alloc, bytes).ok().expect(rt, "a name")
}

fn activity(rt: &impl Abort, alloc: Global) -> Name {
    name(rt, alloc, b"activity")
}

fn add(rt: &impl Abort, alloc: Global) -> Event {
    Event::Add {
        name: activity(rt, alloc),
        obj: ObjRef::Own(1),
        allow_isolated: false,
        dump: 8,
    }
}

fn call(rt: &impl Abort, alloc: Global, refs: &[ObjRef]) -> Event {
    let payload = Payload::from_vec(Vec::new(alloc));
    let refs = Vec::from_slice(alloc, refs).ok().expect(rt, "memory");
    Event::Call {
        handle: 1,
        payload: payload.ok().expect(rt, "a payload"),
        refs: Refs::from_vec(alloc, refs).ok().expect(rt, "references"),
    }
}

fn reload(rt: &impl Abort, alloc: Global, expected: u64, rules: &[u8]) -> Event {
    Event::Reload {
        expected,
        prepared: policy(rt, alloc, rules),
    }
}

/// The change of a client.
fn client_event(rt: &impl Abort, alloc: Global, act: Act) -> Event {
    match act {
        Act::Add => add(rt, alloc),
        Act::Get => Event::Get {
            name: activity(rt, alloc),
        },
        Act::Watch(object) => Event::Watch {
            name: activity(rt, alloc),
            object,
        },
        Act::Unwatch(object) => Event::Unwatch {
            name: activity(rt, alloc),
            object,
        },
        Act::Call => call(rt, alloc, &[]),
        Act::CallWithObject => call(rt, alloc, &[ObjRef::Own(5), ObjRef::Own(5)]),
        Act::Release => Event::Release { handle: 1 },
        Act::Take => Event::Take,
        _ => Event::Die,
    }
}

pub fn event(rt: &impl Abort, alloc: Global, act: Act) -> Event {
    match act {
        Act::Open => Event::Open(server(rt, alloc), policy(rt, alloc, DEVICE_RULES)),
        Act::ConnectServer => Event::Connect(server(rt, alloc)),
        Act::ConnectApplication => Event::Connect(application(rt, alloc)),
        Act::Reload(expected) => reload(rt, alloc, expected, DEVICE_RULES),
        Act::ReloadStricter(expected) => {
            let rules = stricter_rules(alloc).ok().expect(rt, "memory");
            reload(rt, alloc, expected, &rules)
        }
        _ => client_event(rt, alloc, act),
    }
}

pub fn step(
    rt: &impl Abort,
    alloc: Global,
    manager: &mut Manager,
    by: By,
    turn: u64,
    act: Act,
) -> Seen {
    seen_of(&manager.step(by, turn, event(rt, alloc, act)).0)
}

/// Makes changes, each at its actor's turn, and checks what is seen of the replies.
pub fn steps(rt: &impl Abort, alloc: Global, manager: &mut Manager, rows: &[(By, Act, Seen)]) {
    for (by, act, wanted) in rows {
        let turn = manager.turn(*by);
        let seen = step(rt, alloc, manager, *by, turn, *act);
        assert!(rt; seen == *wanted);
    }
}

/// The first connection, of a system server.
pub const A_SERVER: &[(By, Act, Seen)] = &[(By::Manager, Act::ConnectServer, Seen::Connected(1))];

pub const AN_ADD: &[(By, Act, Seen)] = &[(SERVER, Act::Add, Seen::Unheard)];

/// An actor's next turn.
pub fn has_turn(rt: &impl Abort, manager: &Manager, by: By, wanted: u64) {
    assert!(rt; manager.turn(by) == wanted);
}
