//! A manager: its events, queries, records, views and seals.

ghost use Rattle.std.specs.Prelude.{◌≡◌};

use super::events::{Step, activity, event_of};
use super::outcome::same;
use sm_core::{Manager, View};
use sm_history::{Answer, By, Event, Outcome, Query, Record, Refusal, Reply, Segment};
use sm_policy::{PolicyFault, Prepared};
use sm_replay::replay;
use sm_samples::{DEVICE_LABELS, DEVICE_RULES};
use sm_values::{AdminId, ClientId, Context, Identity, Name, Places};
use std::alloc::Global;
use std::process::Abort;

pub const SERVER: By = By::Client(ClientId(1));

pub const ADMIN: By = By::Admin(AdminId(0));

pub fn process(alloc: Global, context: &[u8]) -> Option<Identity> {
    let context = Context::read(alloc, context).ok()?;
    Some(Identity {
        pid: 100,
        uid: 1000,
        context,
    })
}

/// A policy of these rules. `None` if an allocation failed.
pub fn prepared(rt: &impl Abort, alloc: Global, rules: &[u8]) -> Option<Prepared> {
    match Prepared::from_texts(alloc, rules, DEVICE_LABELS) {
        Ok(policy) => Some(policy),
        Err(fault) => {
            assert!(rt; matches!(fault, PolicyFault::Memory));
            None
        }
    }
}

pub fn policy(rt: &impl Abort, alloc: Global) -> Option<Prepared> {
    prepared(rt, alloc, DEVICE_RULES)
}

/// Whether an allocation failed.
pub fn is_memory(reply: &Reply) -> bool {
    matches!(reply, Reply::Refused(Refusal::Memory))
}

/// Whether a change was done. If it wasn't, an allocation failed.
pub fn is_done(rt: &impl Abort, reply: Reply) -> bool {
    if matches!(&reply, Reply::Done(_)) {
        return true;
    }
    assert!(rt; is_memory(&reply));
    false
}

/// `activity` alone is listed, from a history of this length. `None` if an allocation failed.
pub fn lists_activity(rt: &impl Abort, reply: Reply, wanted: u64) -> Option<()> {
    match &reply {
        Reply::Looked {
            version: 1,
            length,
            answer: Answer::Names(names),
        } => {
            same(rt, *length, wanted);
            assert!(rt; names.get().len() == 1);
            Some(())
        }
        _ => {
            assert!(rt; is_memory(&reply));
            None
        }
    }
}

/// A manager of 1,000 slots. `None` if an allocation failed.
fn opened(rt: &impl Abort, alloc: Global) -> Option<Manager> {
    let who = process(alloc, b"u:r:servicemanager:s0")?;
    let policy = policy(rt, alloc)?;
    let places = Places::new(1000).expect(rt, "places");
    match Manager::open(alloc, who, policy, places) {
        Ok(manager) => Some(manager),
        Err(refusal) => {
            assert!(rt; matches!(refusal, Refusal::Memory));
            None
        }
    }
}

/// What is seen of a manager.
#[derive(Clone, Copy, PartialEq, Eq)]
struct Seen {
    version: u64,
    length: u64,
    records: usize,
    /// The names that the server lists: none before it is connected.
    names: usize,
}

/// The number of listed names. `None` if an allocation failed.
fn names_in(reply: Reply) -> Option<usize> {
    match &reply {
        Reply::Looked {
            version: _,
            length: _,
            answer: Answer::Names(names),
        } => Some(names.get().len()),
        Reply::Refused(Refusal::Memory) => None,
        _ => Some(0),
    }
}

/// What is seen of a manager now. `None` if an allocation failed.
fn looked(rt: &impl Abort, manager: &Manager) -> Option<Seen> {
    let (version, length) = manager.version_seen(ADMIN).expect(rt, "a version");
    let records = manager.records().ok()?.len();
    let names = names_in(manager.look(SERVER, Query::List(15)))?;
    Some(Seen {
        version,
        length,
        records,
        names,
    })
}

/// What is seen of a manager now, at the second look if an allocation failed.
fn seen_of(rt: &impl Abort, manager: &Manager) -> Seen {
    match looked(rt, manager) {
        Some(seen) => seen,
        None => looked(rt, manager).expect(rt, "memory"),
    }
}

/// A call on a manager.
#[derive(Clone, Copy)]
pub enum Call {
    /// An actor's next change, which is done.
    Changes(By, Step),
    /// The server lists `activity`, from a history of this length.
    Lists(u64),
    /// What the server's changes and lists would record.
    WouldRecord,
    /// The server gets a name that it may not find.
    IsDenied,
    /// The manager has this many records.
    HasRecords(usize),
    /// An add of the server's, and a view that is made before the change is committed.
    ShowsAnAdd,
    /// The first seal, and a view that is made before it.
    ShowsASeal,
    /// The second seal.
    SealsAgain,
}

/// Makes calls on a manager of their own.
pub fn makes_all(rt: &impl Abort, alloc: Global, calls: &[Call]) {
    again!(rt; opens_and_makes(rt, alloc, calls));
}

/// Makes calls on a new manager. `None` if an allocation failed before it was open.
fn opens_and_makes(rt: &impl Abort, alloc: Global, calls: &[Call]) -> Option<()> {
    let mut manager = opened(rt, alloc)?;
    makes_each(rt, alloc, &mut manager, calls);
    Some(())
}

fn makes_each(rt: &impl Abort, alloc: Global, manager: &mut Manager, calls: &[Call]) {
    for call in calls {
        makes(rt, alloc, manager, *call);
    }
}

/// Makes a call. If an allocation failed, the manager is as it was, and the same call succeeds at the next try.
fn makes(rt: &impl Abort, alloc: Global, manager: &mut Manager, call: Call) {
    let before = seen_of(rt, manager);
    if tries(rt, alloc, manager, call).is_none() {
        assert!(rt; seen_of(rt, manager) == before);
        assert!(rt; tries(rt, alloc, manager, call).is_some());
    }
}

/// Makes a call. `None` if an allocation failed.
fn tries(rt: &impl Abort, alloc: Global, manager: &mut Manager, call: Call) -> Option<()> {
    match call {
        Call::Changes(by, step) => changes(rt, alloc, manager, by, step),
        Call::Lists(length) => lists(rt, manager, length),
        Call::WouldRecord => would_record(rt, alloc, manager),
        Call::IsDenied => is_denied(rt, alloc, manager),
        Call::HasRecords(count) => has_records(rt, manager, count),
        Call::ShowsAnAdd => shows_an_add(rt, alloc, manager),
        Call::ShowsASeal => shows_a_seal(rt, manager),
        Call::SealsAgain => seals_again(rt, manager),
    }
}

/// Makes an actor's next change. `None` if an allocation failed; then it is still the actor's turn.
fn changes(
    rt: &impl Abort,
    alloc: Global,
    manager: &mut Manager,
    by: By,
    step: Step,
) -> Option<()> {
    let event = event_of(rt, alloc, step)?;
    let turn = manager.turn(by);
    if is_done(rt, manager.step(by, turn, event).0) {
        same(rt, manager.turn(by), turn.saturating_add(1));
        Some(())
    } else {
        same(rt, manager.turn(by), turn);
        None
    }
}

const JOINS: Call = Call::Changes(By::Manager, Step::ConnectsServer);

const ADDS: Call = Call::Changes(SERVER, Step::Adds);

/// Lists on the manager, and on a view of it.
fn lists(rt: &impl Abort, manager: &Manager, wanted: u64) -> Option<()> {
    lists_activity(rt, manager.look(SERVER, Query::List(15)), wanted)?;
    let view = manager.view().ok()?;
    lists_activity(rt, view.look(SERVER, Query::List(15)), wanted)
}

#[test]
fn services_are_listed(rt: HostRuntime) {
    makes_all(&rt, rt.alloc(), &[JOINS, ADDS, Call::Lists(3)]);
}

/// An event under which a check is denied: the server gets a name that it may not find.
fn denied(alloc: Global) -> Option<Event> {
    let name = Name::new(alloc, b"power").ok()?;
    Some(Event::Get { name })
}

/// A step of the event would be recorded, and a list wouldn't.
fn would_record(rt: &impl Abort, alloc: Global, manager: &Manager) -> Option<()> {
    let event = denied(alloc)?;
    let turn = manager.turn(SERVER);
    is_recorded(rt, manager.step_records(SERVER, turn, &event).ok())?;
    let records = manager.look_records(SERVER, &Query::List(15)).ok()?;
    assert!(rt; records.is_empty());
    Some(())
}

/// One record, after three changes.
fn is_recorded(rt: &impl Abort, records: Option<Vec<Record>>) -> Option<()> {
    let records = records?;
    assert!(rt; records.len() == 1);
    same(rt, records[0].length, 3);
    Some(())
}

/// Makes the step. `None` if an allocation failed.
fn is_denied(rt: &impl Abort, alloc: Global, manager: &mut Manager) -> Option<()> {
    let event = denied(alloc)?;
    let turn = manager.turn(SERVER);
    if has_no_memory(manager.step(SERVER, turn, event).0) {
        return None;
    }
    Some(())
}

fn has_no_memory(reply: Reply) -> bool {
    is_memory(&reply)
}

fn has_records(rt: &impl Abort, manager: &Manager, wanted: usize) -> Option<()> {
    let records = manager.records().ok()?;
    assert!(rt; records.len() == wanted);
    Some(())
}

#[test]
fn denials_are_recorded(rt: HostRuntime) {
    let calls = [
        JOINS,
        ADDS,
        Call::WouldRecord,
        Call::IsDenied,
        Call::HasRecords(1),
    ];
    makes_all(&rt, rt.alloc(), &calls);
}

/// Lists on a view.
fn view_lists(rt: &impl Abort, view: &View, wanted: u64) {
    again!(rt; lists_activity(rt, view.look(SERVER, Query::List(15)), wanted));
}

/// Adds `activity` once more, and lists on the view that was made before the change was committed. `None` if an
/// allocation failed.
fn shows(rt: &impl Abort, alloc: Global, manager: &mut Manager, last: &View) -> Option<()>
    requires { last.now ≡ manager.old.book }
{
    let event = activity(alloc)?;
    let turn = manager.turn(SERVER);
    match manager.ready(SERVER, turn, event) {
        Ok(ready) => match manager.view_after(&ready, last) {
            Ok(view) => {
                is_added(rt, manager.commit(ready).0);
                view_lists(rt, &view, 4);
                Some(())
            }
            Err(_) => None,
        },
        Err((reply, _)) => {
            assert!(rt; has_no_memory(reply));
            None
        }
    }
}

fn is_added(rt: &impl Abort, reply: Reply) {
    assert!(rt; matches!(&reply, Reply::Done(Outcome::Added(_))));
}

fn shows_an_add(rt: &impl Abort, alloc: Global, manager: &mut Manager) -> Option<()> {
    let Ok(last) = manager.view() else {
        return None;
    };
    shows(rt, alloc, manager, &last)
}

#[test]
fn a_change_is_seen(rt: HostRuntime) {
    makes_all(&rt, rt.alloc(), &[JOINS, ADDS, Call::ShowsAnAdd]);
}

/// The first segment, with three changes.
fn is_first(rt: &impl Abort, segment: &Segment) {
    same(rt, segment.number(), 1);
    same(rt, segment.history_length(), 3);
    again!(rt; is_replayed(rt, segment));
}

fn is_replayed(rt: &impl Abort, segment: &Segment) -> Option<()> {
    let rows = replay(segment).ok()?;
    same(rt, rows.history_length(), 3);
    assert!(rt; rows.names().len() == 1);
    Some(())
}

/// Closes the first segment, and lists on the view that was made before. `None` if an allocation failed.
fn closes(rt: &impl Abort, manager: &mut Manager, last: &View) -> Option<()>
    requires { last.now ≡ manager.old.book }
{
    match manager.ready_seal() {
        Ok(ready) => match manager.view_sealed(&ready, last) {
            Ok(view) => {
                is_first(rt, &manager.commit_seal(ready));
                view_lists(rt, &view, 3);
                Some(())
            }
            Err(_) => None,
        },
        Err(refusal) => {
            assert!(rt; matches!(refusal, Refusal::Memory));
            None
        }
    }
}

fn shows_a_seal(rt: &impl Abort, manager: &mut Manager) -> Option<()> {
    let Ok(last) = manager.view() else {
        return None;
    };
    closes(rt, manager, &last)
}

/// Seals the manager once more, after one more change.
fn seals_again(rt: &impl Abort, manager: &mut Manager) -> Option<()> {
    match manager.seal() {
        Ok(segment) => {
            same(rt, segment.number(), 2);
            same(rt, segment.history_length(), 4);
            Some(())
        }
        Err(refusal) => {
            assert!(rt; matches!(refusal, Refusal::Memory));
            None
        }
    }
}

#[test]
fn segments_are_closed(rt: HostRuntime) {
    let calls = [JOINS, ADDS, Call::ShowsASeal, ADDS, Call::SealsAgain];
    makes_all(&rt, rt.alloc(), &calls);
}
