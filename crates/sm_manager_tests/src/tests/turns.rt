//! A manager that is called directly: whose turn it is, and who may do and ask what.

use super::acts::{
    A_SERVER, ADMIN, AN_ADD, APPLICATION, Act, SERVER, Seen, event, has_turn, look, name, opened,
    step, steps,
};
use sm_audit::push_lines;
use sm_core::Manager;
use sm_history::{By, Entry, Notice, Query, Record};
use sm_values::{AdminId, Class, Perms};
use std::alloc::Global;
use std::mem::size_of;
use std::process::Abort;

/// Changes at these turns, each with what is seen of its reply.
fn steps_at(rt: &impl Abort, alloc: Global, manager: &mut Manager, rows: &[(By, u64, Act, Seen)]) {
    for (by, turn, act, wanted) in rows {
        let seen = step(rt, alloc, manager, *by, *turn, *act);
        assert!(rt; seen == *wanted);
    }
}

const OUT_OF_TURN: &[(By, u64, Act, Seen)] = &[
    (By::Manager, 0, Act::ConnectServer, Seen::OutOfTurn(1)),
    (By::Manager, 1, Act::ConnectServer, Seen::Connected(1)),
    (SERVER, 5, Act::Take, Seen::OutOfTurn(0)),
    (SERVER, 5, Act::Get, Seen::OutOfTurn(0)),
    (SERVER, 1, Act::Add, Seen::OutOfTurn(0)),
    (SERVER, 0, Act::Add, Seen::Unheard),
];

#[test]
fn changes_out_of_turn(rt: HostRuntime) {
    let alloc = rt.alloc();
    let mut manager = opened(&rt, alloc, 1000);
    has_turn(&rt, &manager, By::Manager, 1);
    steps_at(&rt, alloc, &mut manager, OUT_OF_TURN);
    has_turn(&rt, &manager, By::Manager, 2);
    has_turn(&rt, &manager, SERVER, 1);
    has_turn(&rt, &manager, APPLICATION, 0);
}

const OF_OTHERS: &[(By, u64, Act, Seen)] = &[
    (By::Manager, 1, Act::ConnectServer, Seen::Connected(1)),
    (By::Manager, 0, Act::Open, Seen::NotYours),
    (SERVER, 0, Act::Open, Seen::NotYours),
    (ADMIN, 0, Act::Open, Seen::NotYours),
    (SERVER, 0, Act::ConnectServer, Seen::NotYours),
    (ADMIN, 0, Act::ConnectServer, Seen::NotYours),
];

fn explain(rt: &impl Abort, alloc: Global) -> Query {
    Query::Explain {
        source: name(rt, alloc, b"system_server"),
        target: name(rt, alloc, b"servicemanager"),
        class: Class::Binder,
        perm: Perms::CALL,
    }
}

#[test]
fn openings_connects_and_queries_of_others(rt: HostRuntime) {
    let alloc = rt.alloc();
    let mut manager = opened(&rt, alloc, 1000);
    steps_at(&rt, alloc, &mut manager, OF_OTHERS);
    has_turn(&rt, &manager, By::Manager, 2);
    let queries = [
        (By::Manager, Query::Version),
        (ADMIN, Query::List(15)),
        (SERVER, explain(&rt, alloc)),
    ];
    for (by, query) in queries {
        assert!(rt; look(&manager, by, query) == Seen::NotYours);
    }
}

#[test]
fn versions_that_are_seen(rt: HostRuntime) {
    let alloc = rt.alloc();
    let mut manager = opened(&rt, alloc, 1000);
    steps_at(&rt, alloc, &mut manager, OF_OTHERS);
    assert!(rt; manager.version_seen(SERVER) == Some((1, 2)));
    assert!(rt; manager.version_seen(ADMIN) == Some((1, 2)));
    assert!(rt; manager.version_seen(APPLICATION).is_none());
    assert!(rt; manager.version_seen(By::Manager).is_none());
}

#[test]
fn a_journal_of_a_hundred_thousand(rt: HostRuntime) {
    let alloc = rt.alloc();
    let mut manager = opened(&rt, alloc, 1_048_576);
    steps(&rt, alloc, &mut manager, A_SERVER);
    for _ in 0..100_000 {
        steps(&rt, alloc, &mut manager, AN_ADD);
    }
    let seen = look(&manager, SERVER, Query::Version);
    assert!(rt; seen == Seen::Version(1, 100_002));
}

#[test]
fn an_entry_and_a_notice_are_small(rt: HostRuntime) {
    assert!(rt; size_of::<Entry>() <= 96 && size_of::<Notice>() <= 24);
}

const SECOND_ADMIN: By = By::Admin(AdminId(0));

const TWO_ADMINISTRATORS: &[(By, u64, Act, Seen)] = &[
    (ADMIN, 0, Act::Reload(1), Seen::Reloaded(2)),
    (SECOND_ADMIN, 0, Act::Reload(1), Seen::VersionMoved(2)),
    (ADMIN, 0, Act::Reload(2), Seen::OutOfTurn(1)),
    (SECOND_ADMIN, 0, Act::Reload(2), Seen::Reloaded(3)),
];

#[test]
fn two_administrators(rt: HostRuntime) {
    let alloc = rt.alloc();
    let mut manager = opened(&rt, alloc, 1000);
    steps_at(&rt, alloc, &mut manager, TWO_ADMINISTRATORS);
    has_turn(&rt, &manager, SECOND_ADMIN, 1);
}

/// An application's add, which its user number bars.
const BARRED_ADD: &[u8] =
    b"journal=3 version=1 clause: denied app for pid=200 uid=10007 name=activity scontext=u:r:untrusted_app:s0
";

const TWO_BARRED_ADDS: &[u8] =
    b"journal=3 version=1 clause: denied app for pid=200 uid=10007 name=activity scontext=u:r:untrusted_app:s0
journal=3 version=1 clause: denied app for pid=200 uid=10007 name=activity scontext=u:r:untrusted_app:s0
";

/// An application's list, which no rule gives.
const MISSING_LIST: &[u8] =
    b"journal=3 version=1 avc: denied { list } for pid=200 uid=10007 scontext=u:r:untrusted_app:s0 tcontext=u:r:servicemanager:s0 tclass=service_manager permissive=0
";

/// These are the audit lines of the records.
fn are_told(rt: &impl Abort, alloc: Global, records: &[Record], lines: &[u8]) {
    let mut told = Vec::new(alloc);
    let pushed = push_lines(alloc, &mut told, records);
    pushed.ok().expect(rt, "memory");
    assert_eq!(rt; told.as_slice(), lines);
}

/// The ring has just these records.
fn are_kept(rt: &impl Abort, alloc: Global, manager: &Manager, lines: &[u8]) {
    let records = manager.records().ok().expect(rt, "memory");
    are_told(rt, alloc, &records, lines);
}

/// An add by the application would leave these records.
fn add_would_leave(rt: &impl Abort, alloc: Global, manager: &Manager, lines: &[u8]) {
    let records = manager.step_records(APPLICATION, 0, &event(rt, alloc, Act::Add));
    let records = records.ok().expect(rt, "memory");
    are_told(rt, alloc, &records, lines);
}

/// An add by the application leaves these records.
fn add_leaves(rt: &impl Abort, alloc: Global, manager: &mut Manager, lines: &[u8]) {
    let (_, records) = manager.step(APPLICATION, 0, event(rt, alloc, Act::Add));
    are_told(rt, alloc, &records, lines);
}

/// A list by the application leaves these records, by both calls.
fn list_leaves(rt: &impl Abort, alloc: Global, manager: &Manager, lines: &[u8]) {
    let first = manager.look_records(APPLICATION, &Query::List(15));
    let first = first.ok().expect(rt, "memory");
    are_told(rt, alloc, &first, lines);
    let (_, second) = manager.look_recorded(APPLICATION, Query::List(15));
    are_told(rt, alloc, &second, lines);
}

const AN_APPLICATION: &[(By, Act, Seen)] = &[(
    By::Manager,
    Act::ConnectApplication,
    Seen::Connected(2),
)];

// A refused add leaves one record in the ring; what is only asked for, and a query, leave none there.
#[test]
fn records(rt: HostRuntime) {
    let alloc = rt.alloc();
    let mut manager = opened(&rt, alloc, 1000);
    steps(&rt, alloc, &mut manager, A_SERVER);
    steps(&rt, alloc, &mut manager, AN_APPLICATION);
    add_would_leave(&rt, alloc, &manager, BARRED_ADD);
    list_leaves(&rt, alloc, &manager, MISSING_LIST);
    are_kept(&rt, alloc, &manager, b"");
    steps(
        &rt,
        alloc,
        &mut manager,
        &[(APPLICATION, Act::Add, Seen::Another)],
    );
    are_kept(&rt, alloc, &manager, BARRED_ADD);
    add_leaves(&rt, alloc, &mut manager, BARRED_ADD);
    are_kept(&rt, alloc, &manager, TWO_BARRED_ADDS);
}
