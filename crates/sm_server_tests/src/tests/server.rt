//! A server over Unix sockets: what clients and an administrator are answered, and what a lost connection leaves.

ghost use Rattle.std.specs.Prelude.{◌≡◌};
ghost use Rattle.sm_core.specs.Opening.{opened};

use super::differences::is_left;
use super::remembers::Remembers;
use super::steps::Step::{self, Close, Over, ReloadStricter, Say, SayAll, Vanish};
use super::steps::connected;
use sm_account::Account;
use sm_bells::Ringer;
use sm_connection::{SealAt, ServerEvent, Supervisor};
use sm_door::{Door, Naming, Seat, UnnamedRegistry};
use sm_engine::ServeFault;
use sm_history::{Gate, NoGate, Record};
use sm_policy::Prepared;
use sm_samples::{DEVICE_LABELS, DEVICE_RULES};
use sm_serve::{Entrance, Milestone, Numbers, Operator, Patience, serve};
use sm_values::{Context, Identity, Places};
use std::alloc::Global;
use std::io::ErrorKind;
use std::marker::Brand;
use std::net::Net;
use std::os::unix::net::UnixStream;
use std::process::Abort;
use std::rt::Clock;
use std::sync::Wait;
use std::sync::atomic::{AtomicU64, Ordering};
use std::test::Fail;
use std::thread::Threads;
use std::{io, thread};

/// Connections that were made before the server started, the last one first. The listener fails with these errors of
/// the system before the first connection, and for good after the last.
#[derive(Drop)]
pub struct Waiting {
    pub failures: &'static [i32],
    pub streams: Vec<UnixStream>,
}

impl Waiting {
    /// Has the listener fail with these errors first.
    pub fn fail_first(&mut self, failures: &'static [i32]) {
        self.failures = failures;
    }
}

impl Entrance for Waiting {
    fn accept(&mut self) -> io::Result<UnixStream> {
        if let [first, rest @ ..] = self.failures {
            self.failures = rest;
            return Err(io::Error::from_raw_os_error(*first));
        }
        self.streams.pop().ok_or(io::Error::from(ErrorKind::Other))
    }

    fn try_accept(&mut self) -> Option<UnixStream> {
        self.streams.pop()
    }
}

/// What a supervisor heard, and how often its entrances were closed.
#[derive(Clone, Copy, PartialEq, Eq)]
pub struct Heard {
    pub listening: u64,
    pub delayed: u64,
    pub failed: u64,
    pub waits: u64,
    /// The connections that waited beside those, each time.
    pub others: u64,
    pub almost_full: u64,
    pub full: u64,
    pub short: u64,
    /// The audit records of clients' requests.
    pub records: u64,
    pub closed: u64,
}

/// What is heard of a server that meets no fault.
pub const LISTENING: Heard = Heard {
    listening: 1,
    delayed: 0,
    failed: 0,
    waits: 0,
    others: 0,
    almost_full: 0,
    full: 0,
    short: 0,
    records: 0,
    closed: 0,
};

/// What is heard of a server whose journal was almost full this often, and then full.
pub fn filled(almost_full: u64) -> Heard {
    Heard {
        almost_full,
        full: 1,
        ..LISTENING
    }
}

/// Counts the notices of a server.
#[derive(Drop)]
pub struct Ear {
    listening: AtomicU64,
    delayed: AtomicU64,
    failed: AtomicU64,
    waits: AtomicU64,
    others: AtomicU64,
    almost_full: AtomicU64,
    full: AtomicU64,
    short: AtomicU64,
    records: AtomicU64,
    closed: AtomicU64,
    heartbeat: Option<u64>,
    beats: AtomicU64,
}

impl Ear {
    /// Makes one that has heard nothing, and wants a heartbeat of this many microseconds.
    pub fn new(heartbeat: Option<u64>) -> Ear {
        Ear {
            heartbeat,
            beats: AtomicU64::new(0),
            listening: AtomicU64::new(0),
            delayed: AtomicU64::new(0),
            failed: AtomicU64::new(0),
            waits: AtomicU64::new(0),
            others: AtomicU64::new(0),
            almost_full: AtomicU64::new(0),
            full: AtomicU64::new(0),
            short: AtomicU64::new(0),
            records: AtomicU64::new(0),
            closed: AtomicU64::new(0),
        }
    }

    fn heard(&self) -> Heard {
        Heard {
            listening: self.listening.load(Ordering::SeqCst),
            delayed: self.delayed.load(Ordering::SeqCst),
            failed: self.failed.load(Ordering::SeqCst),
            waits: self.waits.load(Ordering::SeqCst),
            others: self.others.load(Ordering::SeqCst),
            almost_full: self.almost_full.load(Ordering::SeqCst),
            full: self.full.load(Ordering::SeqCst),
            short: self.short.load(Ordering::SeqCst),
            records: self.records.load(Ordering::SeqCst),
            closed: self.closed.load(Ordering::SeqCst),
        }
    }
}

impl Supervisor for Ear {
    fn tell(&self, notice: ServerEvent) {
        let count = match notice {
            ServerEvent::Listening => &self.listening,
            ServerEvent::AcceptDelayed(_) => &self.delayed,
            ServerEvent::AcceptFailed(_) => &self.failed,
            ServerEvent::ClientWaits { others } => {
                self.others.fetch_add(others as u64, Ordering::SeqCst);
                &self.waits
            }
            ServerEvent::AlmostFull { .. } => &self.almost_full,
            ServerEvent::Full => &self.full,
            ServerEvent::MemoryShort => &self.short,
        };
        count.fetch_add(1, Ordering::SeqCst);
    }

    fn audit(&self, records: &[Record]) {
        self.records
            .fetch_add(records.len() as u64, Ordering::SeqCst);
    }

    fn close_entrances(&self) {
        self.closed.fetch_add(1, Ordering::SeqCst);
    }
}

impl Operator for Ear {
    fn reach(&self, _milestone: Milestone) {}

    fn heartbeat(&self) -> Option<u64> {
        self.heartbeat
    }

    fn beat(&self) {
        self.beats.fetch_add(1, Ordering::SeqCst);
    }
}

/// An exchange at the connections of a server while it runs.
pub trait Talk {
    /// Runs the steps. On error returns the index of the failed step.
    fn run(&mut self) -> Result<(), usize>;
}

/// A gate that says in the end whether all came through it.
pub trait Watched: Gate {
    /// Whether nobody was held for longer than a test waits.
    fn is_well(&self) -> bool;
}

impl Watched for NoGate {
    fn is_well(&self) -> bool {
        true
    }
}

/// The connections of a test.
pub struct Visits {
    pub clients: Waiting,
    pub admins: Waiting,
    pub numbers: Numbers,
    /// The microseconds between two beats of the server's heart, if the supervisor wants to hear them.
    pub heartbeat: Option<u64>,
}

/// How long a server waits here: longer than a test.
const PATIENCE: Patience = Patience {
    hello: 60,
    reply: 60,
    admin: 60,
    end: 60,
};

/// These numbers of workers, of clients' connections and of administrators' connections.
pub fn numbers(workers: u32, clients: u64, admins: u64) -> Numbers {
    Numbers {
        workers,
        clients,
        admins,
        owners: 0,
        patience: PATIENCE,
        slots: 0,
        seal_at: SealAt {
            entries: None,
            bytes: None,
        },
    }
}

/// What is left when a server has ended.
#[derive(Clone, Copy, PartialEq, Eq)]
pub struct Left {
    /// The index of the failed step, if one failed.
    pub failed: Option<usize>,
    pub came_through: bool,
    /// The number of connections that were accepted and not served.
    pub turned_away: u64,
    pub heard: Heard,
    pub ending: Result<(), ServeFault>,
}

/// What is left when a server has ended, how often its heart beat, and the chronicle of all its accounts.
#[derive(Drop)]
pub struct Ended {
    pub left: Left,
    pub beats: u64,
    pub chronicle: Remembers,
}

/// What is left of a server that met all that was said.
pub const ALL_IS_WELL: Left = Left {
    failed: None,
    came_through: true,
    turned_away: 0,
    heard: LISTENING,
    ending: Ok(()),
};

/// What is left if all steps succeeded before the listener failed for good.
pub const ENDED_BY_ITS_LISTENER: Left = Left {
    heard: Heard {
        failed: 1,
        closed: 1,
        ..LISTENING
    },
    ending: Err(ServeFault::AcceptFault),
    ..ALL_IS_WELL
};

/// Serves an exchange at a door with a journal of `places` slots. Asserts that all steps succeed and that the
/// supervisor hears exactly this.
pub fn holds<R: Net + Threads + Wait + Clock + Abort + Sync>(
    rt: &R,
    alloc: Global,
    places: u32,
    numbers: Numbers,
    steps: &'static [Step],
    heard: Heard,
) {
    let (visits, exchange) = connected(rt, alloc, numbers, steps)
        .ok()
        .expect(rt, "connections");
    let left = at_a_door(rt, alloc, places, NoGate, visits, exchange);
    let wanted = Left {
        heard,
        ..ALL_IS_WELL
    };
    is_left(rt, alloc, &[steps], left, wanted);
}

/// A device's service manager and its policy.
fn device(rt: &impl Abort, alloc: Global) -> (Identity, Prepared) {
    let who = Identity {
        pid: 1,
        uid: 1000,
        context: Context::read(alloc, b"u:r:servicemanager:s0")
            .ok()
            .expect(rt, "a context"),
    };
    let rules = Prepared::from_texts(alloc, DEVICE_RULES, DEVICE_LABELS)
        .ok()
        .expect(rt, "a policy");
    (who, rules)
}

/// Serves these connections, at a door with a journal of `places` slots, during the exchange.
pub fn at_a_door<
    T: Talk + Send + Drop + 'static,
    G: Watched + Drop + Send + Sync,
    R: Threads + Wait + Clock + Abort + Sync,
>(rt: &R, alloc: Global, places: u32, gate: G, visits: Visits, talk: T) -> Left {
    at_a_door_with_chronicle(rt, alloc, places, gate, visits, talk).left
}

/// Serves these connections as `at_a_door` does, and also returns the chronicle of all accounts.
pub fn at_a_door_with_chronicle<
    T: Talk + Send + Drop + 'static,
    G: Watched + Drop + Send + Sync,
    R: Threads + Wait + Clock + Abort + Sync,
>(rt: &R, alloc: Global, places: u32, gate: G, mut visits: Visits, talk: T) -> Ended {
    visits.numbers.slots = places;
    let places = Places::new(places).expect(rt, "places");
    let (who, rules) = device(rt, alloc);
    serves::<Brand, T, G, R>(
        rt,
        alloc,
        UnnamedRegistry::new(),
        who,
        rules,
        places,
        gate,
        visits,
        talk,
    )
}

fn serves<
    J: Naming + Send + Sync,
    T: Talk + Send + Drop + 'static,
    G: Watched + Drop + Send + Sync,
    R: Threads + Wait + Clock + Abort + Sync,
>(
    rt: &R,
    alloc: Global,
    unnamed: UnnamedRegistry,
    who: Identity,
    policy: Prepared,
    places: Places,
    gate: G,
    visits: Visits,
    mut talk: T,
) -> Ended
    requires registry { unnamed.seen.book ≡ J.registry }
    requires opening { J.opening ≡ opened places who policy }
{
    let (door, seats, mut tokens) = Door::<J, G>::open(
        rt, alloc, unnamed, who, policy, places, gate,
    ).ok()
        .expect(rt, "a door");
    let workers = workers_at(rt, alloc, seats);
    let admin = Account::new(tokens.pop().expect(rt, "a token"), Remembers::new(alloc));
    let gathered = Account::new(
        tokens.pop().expect(rt, "another one"),
        Remembers::new(alloc),
    );
    let sealer = tokens.pop().expect(rt, "a third one");
    let Visits {
        mut clients,
        admins,
        numbers,
        heartbeat,
    } = visits;
    let ear = Ear::new(heartbeat);
    let talking = thread::spawn(rt, move || talk.run())
        .ok()
        .expect(rt, "a thread");
    let (account, ending) = serve(
        rt,
        alloc,
        &ear,
        &mut clients,
        admins,
        None,
        &door,
        workers,
        admin,
        gathered,
        sealer,
        numbers,
        Ringer::silent(),
    );
    let said = talking.join(rt);
    let chronicle = account.into_chronicle();
    let came_through = door.gate().is_well();
    door.close(rt);
    let left = Left {
        failed: said.err(),
        came_through,
        turned_away: chronicle.turned_away,
        heard: ear.heard(),
        ending,
    };
    let beats = ear.beats.load(Ordering::SeqCst);
    Ended {
        left,
        beats,
        chronicle,
    }
}

/// The accounts of workers at these seats.
fn workers_at<J: Naming>(
    rt: &impl Abort,
    alloc: Global,
    seats: Vec<Seat<J>>,
) -> Vec<Account<Seat<J>, Remembers>> {
    let mut workers = Vec::new(alloc);
    for seat in seats {
        workers
            .push(Account::new(seat, Remembers::new(alloc)))
            .ok()
            .expect(rt, "memory");
    }
    workers
}

/// The `hello` of a system service.
pub const HELLO: &[u8] = b"hello 100 1000 u:r:system_server:s0\n";

const HELLO_OF_AN_APPLICATION: &[u8] = b"hello 200 10007 u:r:untrusted_app:s0\n";

/// A system service and an application beside each other, and an administrator after them.
const TWO_CLIENTS_AND_AN_ADMINISTRATOR: &[Step] = &[
    Say(0, HELLO, b"client 1\n"),
    Say(0, b"add activity o1 0 8\n", b"ok\n"),
    Say(1, HELLO_OF_AN_APPLICATION, b"client 2\n"),
    Say(1, b"get activity\n", b"handle 1\n"),
    Say(1, b"get activity\n", b"handle 1\n"),
    Say(2, b"version\n", b"version 1 6\n"),
    Say(2, b"seal\n", b"sealed 1 6\n"),
    Say(2, b"seal\n", b"empty\n"),
    Say(0, b"bye\n", b"bye\n"),
    Say(1, b"get activity\n", b"null\n"),
    Say(1, b"bye\n", b"bye\n"),
    Over(0),
    Over(1),
    Close(2),
    Over(2),
];

#[test]
fn two_clients_and_an_administrator(rt: HostRuntime) {
    let steps = TWO_CLIENTS_AND_AN_ADMINISTRATOR;
    holds(&rt, rt.alloc(), 1000, numbers(2, 2, 1), steps, LISTENING);
}

/// A connection that is cut inside a line, and one after it, with a journal of four slots.
const A_CONNECTION_THAT_IS_CUT: &[Step] = &[
    Say(0, HELLO, b"client 1\n"),
    Say(0, b"add activity o1 0 8\nadd activ", b"ok\n"),
    Close(0),
    Say(0, b"", b"fault cut\n"),
    Over(0),
    Say(1, HELLO_OF_AN_APPLICATION, b"failed journal-full\n"),
    Say(2, b"version\n", b"version 1 4\n"),
    Close(1),
    Close(2),
];

#[test]
fn a_connection_that_is_cut_ends_its_client(rt: HostRuntime) {
    let steps = A_CONNECTION_THAT_IS_CUT;
    holds(&rt, rt.alloc(), 4, numbers(1, 2, 1), steps, filled(1));
}

/// A connection that vanishes inside a line, and one after it.
const A_CLIENT_THAT_VANISHED: &[Step] = &[
    Say(0, HELLO, b"client 1\n"),
    Say(0, b"add activity o1 0 8\nget activ", b"ok\n"),
    Vanish(0),
    Say(1, HELLO, b"client 2\n"),
    Say(1, b"get activity\n", b"null\n"),
    Say(1, b"bye\n", b"bye\n"),
];

#[test]
fn the_service_of_a_client_that_vanished_is_gone(rt: HostRuntime) {
    let steps = A_CLIENT_THAT_VANISHED;
    holds(&rt, rt.alloc(), 1000, numbers(1, 2, 0), steps, LISTENING);
}

/// One client more than there are seats, which waits for a worker.
const ONE_CLIENT_TOO_MANY: &[Step] = &[
    SayAll(64, HELLO, b"client "),
    Say(0, b"", b"1\n"),
    Say(0, b"bye\n", b"bye\n"),
    Over(0),
    Say(64, HELLO, b"client 65\n"),
];

#[test]
fn one_client_too_many(rt: HostRuntime) {
    let steps = ONE_CLIENT_TOO_MANY;
    holds(&rt, rt.alloc(), 1000, numbers(65, 65, 0), steps, LISTENING);
}

const DENIALS: &[u8] =
    b"denials 1\njournal=5 version=1 clause: denied app for pid=200 uid=10007 name=activity scontext=u:r:untrusted_app:s0\n";

/// A service, an application that is denied, and an administrator who asks for that and takes the rule away by which
/// the application found the service.
const A_POLICY_IS_REPLACED: &[Step] = &[
    Say(0, HELLO, b"client 1\n"),
    Say(0, b"add activity o1 0 8\n", b"ok\n"),
    Say(1, HELLO_OF_AN_APPLICATION, b"client 2\n"),
    Say(1, b"get activity\n", b"handle 1\n"),
    Say(1, b"add activity o1 0 8\n", b"exception -1 app 10007\n"),
    Say(2, b"denials\n", DENIALS),
    Say(
        2,
        b"explain untrusted_app activity_service service_manager find\n",
        b"allowed 1 13\n",
    ),
    ReloadStricter(2, 1, b"reloaded 2\n"),
    Say(1, b"get activity\n", b"null\n"),
    Say(2, b"version\n", b"version 2 6\n"),
    Close(2),
    Close(0),
    Close(1),
];

#[test]
fn a_policy_is_replaced_while_clients_are_connected(rt: HostRuntime) {
    let steps = A_POLICY_IS_REPLACED;
    // Of the add that a clause bars, and of the get under the stricter policy.
    let heard = Heard {
        records: 2,
        ..LISTENING
    };
    holds(&rt, rt.alloc(), 1000, numbers(2, 2, 1), steps, heard);
}

#[test]
fn a_listener_that_fails_ends_the_server(rt: HostRuntime) -> Result<(), Fail> {
    let (mut visits, silence) = connected(&rt, rt.alloc(), numbers(2, 0, 0), &[])?;
    visits.numbers.clients = 1;
    let left = at_a_door(&rt, rt.alloc(), 1000, NoGate, visits, silence);
    is_left(&rt, rt.alloc(), &[], left, ENDED_BY_ITS_LISTENER);
    Ok(())
}
