//! What no contract says: that changes are made, and that many threads make progress.

ghost use Rattle.std.specs.Prelude.{◌≡◌};
ghost use Rattle.sm_core.specs.Opening.{opened};
ghost use denote.Param.Send.{IsSend, IsSync};

use super::connection::serves;
use super::exchanges::{Exchange, converse};
use crossbeam_utils::Backoff;
use sm_door::{Admin, Door, Gate, Naming, Seat, Session, UnnamedRegistry};
use sm_history::{Answer, Event, NameList, NoGate, Outcome, Refusal, Reply, Segment};
use sm_policy::Prepared;
use sm_samples::{DEVICE_LABELS, DEVICE_RULES, stricter_rules};
use sm_values::{Class, Context, Identity, Name, ObjRef, Perms, Places};
use std::alloc::Global;
use std::marker::Brand;
use std::process::Abort;
use std::sync::atomic::{AtomicU64, Ordering};
use std::sync::{Mutex, Wait};
use std::thread;
use std::thread::Threads;

/// The number of policies that are installed while others read.
const INSTALLS: u64 = 100;

/// The number of reads, and of looks at other threads, after which a thread gives up.
const MOST_TURNS: u64 = 100_000_000;

pub fn policy(rt: &impl Abort, alloc: Global, rules: &[u8]) -> Prepared {
    Prepared::from_texts(alloc, rules, DEVICE_LABELS)
        .ok()
        .expect(rt, "a policy")
}

fn stricter_policy(rt: &impl Abort, alloc: Global) -> Prepared {
    let rules = stricter_rules(alloc).ok().expect(rt, "memory");
    policy(rt, alloc, &rules)
}

fn process(rt: &impl Abort, alloc: Global, pid: u32, context: &[u8]) -> Identity {
    Identity {
        pid,
        uid: 1000,
        context: Context::read(alloc, context).ok().expect(rt, "a context"),
    }
}

pub fn manager(rt: &impl Abort, alloc: Global) -> Identity {
    process(rt, alloc, 1, b"u:r:servicemanager:s0")
}

fn server(rt: &impl Abort, alloc: Global, pid: u32) -> Identity {
    process(rt, alloc, pid, b"u:r:system_server:s0")
}

fn name(rt: &impl Abort, alloc: Global, bytes: &[u8]) -> Name {
    Name::new(alloc, bytes).ok().expect(rt, "a name")
}

/// `activity`, an object of the client's own.
fn activity(rt: &impl Abort, alloc: Global) -> Event {
    Event::Add {
        name: name(rt, alloc, b"activity"),
        obj: ObjRef::Own(1),
        allow_isolated: false,
        dump: 8,
    }
}

fn joined<J: Naming, G: Gate + Drop, R: Wait + Abort>(
    rt: &R,
    door: &Door<J, G>,
    seat: Option<Seat<J>>,
    who: Identity,
) -> Session<J> {
    match door.connect(rt, seat.expect(rt, "a seat"), who) {
        Ok(session) => session,
        Err(_) => None.expect(rt, "a session"),
    }
}

fn is_added(reply: &Reply) -> bool {
    matches!(reply, Reply::Done(Outcome::Added(_)))
}

/// Whether these names are listed, under the first policy, from a history of `entries` changes.
fn lists(reply: &Reply, entries: u64, names: &[&[u8]]) -> bool {
    match reply {
        Reply::Looked {
            version: 1,
            length,
            answer: Answer::Names(list),
        } => *length == entries && are(list.get(), names),
        _ => false,
    }
}

fn are(list: &NameList, names: &[&[u8]]) -> bool {
    if list.len() != names.len() {
        return false;
    }
    for i in 0..list.len() {
        if list.name(i) != names[i] {
            return false;
        }
    }
    true
}

/// What a test does at a door of its own.
#[derive(Clone, Copy)]
pub enum Scene {
    Meeting,
    FullJournal,
    Installs,
    Race,
    /// Lines of two clients and an administrator.
    Lines(Exchange),
    /// Connections over bytes.
    Connections,
}

/// Plays a scene at a door of its own, under a device's policy and with a journal of `places` slots.
pub fn plays<R: Threads + Wait + Abort + Sync>(rt: &R, alloc: Global, places: u32, scene: Scene) {
    let who = manager(rt, alloc);
    let rules = policy(rt, alloc, DEVICE_RULES);
    let places = Places::new(places).expect(rt, "places");
    opens::<Brand, R>(rt, alloc, UnnamedRegistry::new(), who, rules, places, scene);
}

fn opens<J: Naming + Send + Sync, R: Threads + Wait + Abort + Sync>(
    rt: &R,
    alloc: Global,
    unnamed: UnnamedRegistry,
    who: Identity,
    rules: Prepared,
    places: Places,
    scene: Scene,
)
    requires registry { unnamed.seen.book ≡ J.registry }
    requires opening { J.opening ≡ opened places who rules }
{
    let (door, mut seats, admins) = Door::<J, NoGate>::open(
        rt, alloc, unnamed, who, rules, places, NoGate,
    ).ok()
        .expect(rt, "a door");
    match scene {
        Scene::Meeting => meets(rt, alloc, &door, &mut seats, admins),
        Scene::FullJournal => fills(rt, alloc, &door, &mut seats),
        Scene::Installs => grows(rt, alloc, &door, admins),
        Scene::Race => rivals(rt, alloc, &door, admins),
        Scene::Lines(exchange) => converse(rt, alloc, &door, seats, admins, exchange),
        Scene::Connections => serves(rt, alloc, &door, seats, admins),
    }
    door.close(rt);
}

#[test]
fn a_change_is_seen_after_a_meeting_and_without_one(rt: HostRuntime) {
    plays(&rt, rt.alloc(), 1000, Scene::Meeting);
}

fn meets<J: Naming, R: Wait + Abort>(
    rt: &R,
    alloc: Global,
    door: &Door<J, NoGate>,
    seats: &mut Vec<Seat<J>>,
    mut admins: Vec<Admin<J>>,
) {
    let mut admin = admins.pop().expect(rt, "an administrator");
    let mut a = joined(rt, door, seats.pop(), server(rt, alloc, 100));
    let mut b = joined(rt, door, seats.pop(), server(rt, alloc, 101));
    assert_eq!(rt; (a.client().0, b.client().0), (1, 2));
    clients_meet(rt, alloc, door, &mut a, &mut b);
    an_administrator_meets(rt, alloc, door, &mut admin, &mut a);
}

/// A list by the second client holds what the first one changed: after a meeting, and without one.
fn clients_meet<J: Naming, R: Wait + Abort>(
    rt: &R,
    alloc: Global,
    door: &Door<J, NoGate>,
    a: &mut Session<J>,
    b: &mut Session<J>,
) {
    adds_activity(rt, alloc, door, a);
    lists_activity(rt, door, a, 4);
    assert!(rt; door.meet(rt, a, b));
    lists_activity(rt, door, b, 4);
    adds_activity(rt, alloc, door, a);
    lists_activity(rt, door, b, 5);
}

/// An administrator sees what the client changed, and the client sees the administrator's policy.
fn an_administrator_meets<J: Naming, R: Wait + Abort>(
    rt: &R,
    alloc: Global,
    door: &Door<J, NoGate>,
    admin: &mut Admin<J>,
    a: &mut Session<J>,
) {
    assert!(rt; door.meet_admin(rt, admin, a));
    has_version(rt, &door.version(admin), 1, 5);
    let stricter = stricter_policy(rt, alloc);
    assert!(rt; matches!(door.install(rt, admin, 1, stricter), Ok(2)));
    assert!(rt; door.meet_admin(rt, admin, a));
    has_version(rt, &door.version(a), 2, 6);
}

#[test]
fn a_full_journal_refuses_changes_but_a_last_one(rt: HostRuntime) {
    plays(&rt, rt.alloc(), 4, Scene::FullJournal);
}

/// The opening, a connect and an add leave one of four slots, which is kept for the client's death.
fn fills<J: Naming, R: Wait + Abort>(
    rt: &R,
    alloc: Global,
    door: &Door<J, NoGate>,
    seats: &mut Vec<Seat<J>>,
) {
    let mut me = joined(rt, door, seats.pop(), server(rt, alloc, 100));
    adds_activity(rt, alloc, door, &mut me);
    let reply = door.submit(rt, &mut me, activity(rt, alloc));
    assert!(rt; matches!(reply, Reply::Refused(Refusal::JournalFull)));
    is_turned_away(rt, alloc, door, seats);
    assert!(rt; door.die(rt, me).is_ok());
    is_turned_away(rt, alloc, door, seats);
}

/// No slot is left to connect a process, and the seat comes back.
fn is_turned_away<J: Naming, R: Wait + Abort>(
    rt: &R,
    alloc: Global,
    door: &Door<J, NoGate>,
    seats: &mut Vec<Seat<J>>,
) {
    let seat = seats.pop().expect(rt, "a seat");
    match door.connect(rt, seat, server(rt, alloc, 101)) {
        Err((Refusal::JournalFull, seat)) => {
            let _ = seats.push(seat);
        }
        _ => None.expect(rt, "a refusal"),
    }
}

fn adds_activity<J: Naming, R: Wait + Abort>(
    rt: &R,
    alloc: Global,
    door: &Door<J, NoGate>,
    me: &mut Session<J>,
) {
    assert!(rt; is_added(&door.submit(rt, me, activity(rt, alloc))));
}

fn lists_activity<J: Naming, R: Abort>(
    rt: &R,
    door: &Door<J, NoGate>,
    me: &mut Session<J>,
    entries: u64,
) {
    assert!(rt; lists(&door.list(me, 15), entries, &[b"activity"]));
}

#[test]
fn versions_never_go_back(rt: HostRuntime) {
    plays(&rt, rt.alloc(), 1000, Scene::Installs);
}

fn grows<J: Naming + Send + Sync, R: Threads + Wait + Abort + Sync>(
    rt: &R,
    alloc: Global,
    door: &Door<J, NoGate>,
    mut admins: Vec<Admin<J>>,
) {
    let first = admins.pop().expect(rt, "an administrator");
    let readers = Mutex::new(admins);
    let overlap = Overlap::new();
    assert!(rt; all_at_once(rt, alloc, door, first, &readers, &overlap));
    assert!(rt; overlap.has_begun());
    see_the_last(rt, alloc, door, readers.into_inner());
}

/// Three readers are left, and they see the last version.
fn see_the_last<J: Naming, R: Abort>(
    rt: &R,
    alloc: Global,
    door: &Door<J, NoGate>,
    mut left: Vec<Admin<J>>,
) {
    for _ in 0..2 {
        let mut reader = left.pop().expect(rt, "a reader that saw what it should");
        has_version(rt, &door.version(&mut reader), 101, 101);
    }
    let mut reader = left.pop().expect(rt, "a reader that saw what it should");
    let reply = finds(rt, alloc, door, &mut reader);
    assert_eq!(rt; rightly_found(&reply), Some(101));
}

fn has_version(rt: &impl Abort, reply: &Reply, wanted: u64, entries: u64) {
    let found = match reply {
        Reply::Looked {
            version,
            length,
            answer: Answer::Version,
        } => Some((*version, *length)),
        _ => None,
    };
    assert_eq!(rt; found, Some((wanted, entries)));
}

/// Which rule lets an untrusted application find `activity`.
fn finds<J: Naming, R: Abort>(
    rt: &R,
    alloc: Global,
    door: &Door<J, NoGate>,
    me: &mut Admin<J>,
) -> Reply {
    let source = name(rt, alloc, b"untrusted_app");
    let target = name(rt, alloc, b"activity_service");
    door.explain(me, source, target, Class::ServiceManager, Perms::FIND)
}

/// The version of the answer, if it is the one that the policy of that version gives: line 13 under an odd one, and no
/// rule under an even one.
fn rightly_found(reply: &Reply) -> Option<u64> {
    match reply {
        Reply::Looked {
            version,
            length: _,
            answer: Answer::Why(line),
        } => {
            let wanted = if *version % 2 == 1 { Some(13) } else { None };
            if *line == wanted {
                Some(*version)
            } else {
                None
            }
        }
        _ => None,
    }
}

/// How often readers found a version between the first and the last.
#[derive(Drop)]
struct Overlap {
    between: AtomicU64,
}

impl Overlap {
    fn new() -> Overlap {
        Overlap {
            between: AtomicU64::new(0),
        }
    }

    /// Whether a reader has found one.
    fn has_begun(&self) -> bool {
        self.between.load(Ordering::SeqCst) > 0
    }

    fn note(&self, version: u64) {
        if 1 < version && version <= INSTALLS {
            self.between.fetch_add(1, Ordering::SeqCst);
        }
    }

    /// Waits until a reader has found one, but not for ever.
    fn wait(&self) {
        let backoff = Backoff::new();
        for _ in 0..MOST_TURNS {
            if self.has_begun() {
                return;
            }
            backoff.snooze();
        }
    }
}

/// One installs and seals while three read. Whether all three began, and all policies were installed.
fn all_at_once<J: Naming + Send + Sync, R: Threads + Wait + Abort + Sync>(
    rt: &R,
    alloc: Global,
    door: &Door<J, NoGate>,
    first: Admin<J>,
    readers: &Mutex<Vec<Admin<J>>>,
    overlap: &Overlap,
) -> bool {
    let mut first = first;
    let mut started = true;
    let mut done = false;
    thread::scope(thread::scope_env(), rt, |scope| {
        sends::<Admin<J>>();
        shares::<Door<J, NoGate>>();
        shares::<Mutex<Vec<Admin<J>>>>();
        shares::<Overlap>();
        for _ in 0..3 {
            if scope
                .spawn(move || reads(rt, alloc, door, readers, overlap))
                .is_err()
            {
                started = false;
            }
        }
        done = installs(rt, alloc, door, &mut first, overlap);
    });
    done && started
}

/// Installs two policies in turn, the stricter one first, and seals after each. Before the last one a reader has found a
/// version between.
fn installs<J: Naming, R: Wait + Abort>(
    rt: &R,
    alloc: Global,
    door: &Door<J, NoGate>,
    me: &mut Admin<J>,
    overlap: &Overlap,
) -> bool {
    let stricter = stricter_policy(rt, alloc);
    let device = policy(rt, alloc, DEVICE_RULES);
    for version in 1..INSTALLS + 1 {
        let next = if version % 2 == 1 { &stricter } else { &device };
        let next = next.share().ok().expect(rt, "memory");
        if version == INSTALLS {
            overlap.wait();
        }
        match door.install(rt, me, version, next) {
            Ok(now) => {
                if now != version + 1 {
                    return false;
                }
            }
            Err(_) => return false,
        }
        if !is_sealed(door.seal(rt, me), version) {
            return false;
        }
    }
    true
}

/// Whether the segment has this number and ends with the install that came before the seal. The first one has the
/// opening, too.
fn is_sealed(closed: Result<Segment, Refusal>, number: u64) -> bool {
    match closed {
        Ok(segment) => {
            let (full, last) = segment.entries();
            segment.number() == number
                && segment.history_length() == number.saturating_add(1)
                && full.is_empty()
                && last.len() == if number == 1 { 2 } else { 1 }
        }
        Err(_) => false,
    }
}

/// Reads until the last version. A reader whose versions never go back, and whose answers are those of their versions,
/// comes back among the readers.
fn reads<J: Naming, R: Wait + Abort>(
    rt: &R,
    alloc: Global,
    door: &Door<J, NoGate>,
    readers: &Mutex<Vec<Admin<J>>>,
    overlap: &Overlap,
) {
    let free = readers.lock(rt).pop();
    let mut me = free.expect(rt, "an administrator");
    let mut last = 1;
    for _ in 0..MOST_TURNS {
        match rightly_found(&finds(rt, alloc, door, &mut me)) {
            Some(version) => {
                if version < last {
                    return;
                }
                last = version;
                overlap.note(version);
            }
            None => return,
        }
        if last > INSTALLS {
            break;
        }
    }
    if last > INSTALLS {
        let _ = readers.lock(rt).push(me);
    }
}

/// How the installs of two administrators ended.
#[derive(Drop)]
struct Race {
    done: AtomicU64,
    moved: AtomicU64,
}

impl Race {
    fn new() -> Race {
        Race {
            done: AtomicU64::new(0),
            moved: AtomicU64::new(0),
        }
    }

    /// Whether one was done, and the other got its policy back.
    fn is_one_of_two(&self) -> bool {
        self.done.load(Ordering::SeqCst) == 1 && self.moved.load(Ordering::SeqCst) == 1
    }
}

#[test]
fn one_of_two_installs_is_done(rt: HostRuntime) {
    plays(&rt, rt.alloc(), 1000, Scene::Race);
}

fn rivals<J: Naming + Send + Sync, R: Threads + Wait + Abort + Sync>(
    rt: &R,
    alloc: Global,
    door: &Door<J, NoGate>,
    mut admins: Vec<Admin<J>>,
) {
    let first = admins.pop().expect(rt, "an administrator");
    let second = admins.pop().expect(rt, "an administrator");
    let mut third = admins.pop().expect(rt, "an administrator");
    let installs = Race::new();
    assert!(rt; both_install(rt, alloc, door, first, second, &installs));
    assert!(rt; installs.is_one_of_two());
    has_version(rt, &door.version(&mut third), 2, 2);
}

/// Two administrators install over one version at once. Whether both threads ran.
fn both_install<J: Naming + Send + Sync, R: Threads + Wait + Abort + Sync>(
    rt: &R,
    alloc: Global,
    door: &Door<J, NoGate>,
    first: Admin<J>,
    second: Admin<J>,
    installs: &Race,
) -> bool {
    let mut second = second;
    let mut started = false;
    thread::scope(thread::scope_env(), rt, |scope| {
        sends::<Admin<J>>();
        shares::<Door<J, NoGate>>();
        shares::<Race>();
        started = scope
            .spawn(move || {
                let mut first = first;
                let stricter = stricter_policy(rt, alloc);
                install_over_first(rt, door, &mut first, stricter, false, installs);
            })
            .is_ok();
        let device = policy(rt, alloc, DEVICE_RULES);
        install_over_first(rt, door, &mut second, device, true, installs);
    });
    started
}

/// Installs this policy over version 1, as another administrator does. A policy that is returned decides
/// whether an untrusted application may find `activity` as the one that was passed.
fn install_over_first<J: Naming, R: Wait>(
    rt: &R,
    door: &Door<J, NoGate>,
    me: &mut Admin<J>,
    policy: Prepared,
    finds: bool,
    installs: &Race,
) {
    match door.install(rt, me, 1, policy) {
        Ok(2) => {
            installs.done.fetch_add(1, Ordering::SeqCst);
        }
        Err((Refusal::VersionMoved(2), back)) => {
            let found = back.allows(
                b"untrusted_app",
                b"activity_service",
                Class::ServiceManager,
                Perms::FIND,
            );
            if found == finds {
                installs.moved.fetch_add(1, Ordering::SeqCst);
            }
        }
        _ => (),
    }
}

/// Shows that threads may share values of the type.
fn shares<X: Sync>()
    ensures { IsSync X.row }
{}

/// Shows that values of the type may be sent to another thread.
fn sends<X: Send>()
    ensures { IsSend X.row }
{}
