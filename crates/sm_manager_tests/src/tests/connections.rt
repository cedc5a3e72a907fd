//! Connections of clients and of administrators, one after another at a desk that holds one manager.

use super::acts::{Act, SERVER, policy};
use super::attending::{ends_at, holds_at, said};
use super::manager_desk::ManagerDesk;
use sm_engine::Fault;
use sm_history::By;
use sm_samples::{BROKEN_RULE, DEVICE_LABELS, DEVICE_RULES, Said, Talk, device_rules_with};
use sm_wire::Kind;
use std::alloc::{AllocError, Global};
use std::process::Abort;

/// A client's connection, with lines that are allowed when they come and others.
pub const A_CLIENT: Talk = &[
    ("take", "malformed"),
    ("hello 100 1000 u:r:system_server:s0", "client 1"),
    ("hello 100 1000 u:r:system_server:s0", "malformed"),
    ("reload 1 0 0", "malformed"),
    ("add activity o1 0 8", "ok"),
    ("list 15 ", "malformed"),
    ("bye", "bye"),
];

fn device_desk(rt: &impl Abort, alloc: Global) -> ManagerDesk {
    ManagerDesk::open(rt, alloc, &policy(rt, alloc, DEVICE_RULES))
}

/// Attends to a connection at a device's desk. Asserts that it ends well, and that this many clients have died then.
fn ends_with(rt: &impl Abort, alloc: Global, kind: Kind, said: &Said, deaths: u32) {
    let desk = device_desk(rt, alloc);
    let desk = ends_at(rt, alloc, kind, desk, said, None);
    assert!(rt; desk.deaths == deaths);
}

// After `bye` nothing is answered.
#[test]
fn a_client_says_bye(rt: HostRuntime) {
    let alloc = rt.alloc();
    let mut said = said(&rt, alloc, A_CLIENT);
    said.script
        .extend_from_slice(b"list 15\nlis")
        .ok()
        .expect(&rt, "memory");
    ends_with(&rt, alloc, Kind::Client, &said, 1);
}

const AN_APPLICATION: Talk = &[
    ("hello 200 10007 u:r:untrusted_app:s0", "client 2"),
    ("get activity", "handle 1"),
    ("get activity", "handle 1"),
    ("add activity o1 0 8", "exception -1 app 10007"),
    (
        "list 15",
        "exception -1 denied untrusted_app servicemanager service_manager list",
    ),
    ("get foo", "null"),
];

// The client's answers say less than the records.
const WHAT_IT_WAS_DENIED: Talk = &[
    (
        "denials",
        "denials 2\njournal=6 version=1 clause: denied app for pid=200 uid=10007 name=activity scontext=u:r:untrusted_app:s0\njournal=6 version=1 avc: denied { find } for pid=200 uid=10007 name=foo scontext=u:r:untrusted_app:s0 tcontext=u:object_r:default_android_service:s0 tclass=service_manager permissive=0",
    ),
    (
        "explain untrusted_app system_server binder call",
        "allowed 1 15",
    ),
    (
        "explain system_server untrusted_app binder call",
        "unwritten 1",
    ),
    ("version", "version 1 7"),
];

// A client beside the connections has put a service under `activity`.
#[test]
fn an_administrator_reads_what_a_client_was_denied(rt: HostRuntime) {
    let alloc = rt.alloc();
    let mut desk = device_desk(&rt, alloc);
    assert!(rt; desk.does(&rt, By::Manager, Act::ConnectServer));
    assert!(rt; desk.does(&rt, SERVER, Act::Add));
    let desk = holds_at(&rt, alloc, Kind::Client, desk, AN_APPLICATION);
    let desk = holds_at(&rt, alloc, Kind::Admin, desk, WHAT_IT_WAS_DENIED);
    assert!(rt; desk.deaths == 1);
}

/// An administrator's connection: a refused policy, one that is accepted, one that comes too late.
pub fn an_administrator(alloc: Global) -> Result<Said, AllocError> {
    let broken = device_rules_with(alloc, BROKEN_RULE)?;
    let mut said = Said::new(alloc);
    let refused =
        b"refused neverallow at line 16 by allow at line 17: untrusted_app activity_service service_manager add\n";
    said.talk(&[("hello 100 1000 u:r:system_server:s0", "malformed")])?;
    said.reload(1, &broken, DEVICE_LABELS, refused)?;
    said.talk(&[("version", "version 1 1")])?;
    for answer in [b"reloaded 2\n".as_slice(), b"moved 2\n"] {
        said.reload(1, DEVICE_RULES, DEVICE_LABELS, answer)?;
    }
    said.talk(&[("version", "version 2 2"), ("denials", "denials 0")])?;
    Ok(said)
}

#[test]
fn an_administrator_reloads(rt: HostRuntime) {
    let alloc = rt.alloc();
    let said = an_administrator(alloc).ok().expect(&rt, "memory");
    ends_with(&rt, alloc, Kind::Admin, &said, 0);
}

// Before a client is made all else is malformed.
const BEFORE_A_HELLO: Talk = &[
    ("add activity o1 0 8", "malformed"),
    ("get activity", "malformed"),
    ("check activity", "malformed"),
    ("list 15", "malformed"),
    ("watch activity o7", "malformed"),
    ("unwatch activity o7", "malformed"),
    ("unregister activity o1", "malformed"),
    ("call 1 00", "malformed"),
    ("release 1", "malformed"),
    ("take", "malformed"),
    ("version", "malformed"),
    ("bye", "malformed"),
    ("hello 100 1000 u:r", "malformed"),
    ("", "malformed"),
];

// Lines of a script or an administrator, and a further `hello`.
const NOT_OF_A_CLIENT: Talk = &[
    ("hello 100 1000 u:r:system_server:s0", "client 1"),
    ("hello 101 1000 u:r:system_server:s0", "malformed"),
    ("1 take", "malformed"),
    ("reload 1 686 89", "malformed"),
    (
        "explain untrusted_app system_server binder call",
        "malformed",
    ),
    ("denials", "malformed"),
    ("list 15", "names 1 2 0"),
];

// Lines of a client or a script.
const NOT_OF_AN_ADMINISTRATOR: Talk = &[
    ("hello 100 1000 u:r:system_server:s0", "malformed"),
    ("take", "malformed"),
    ("list 15", "malformed"),
    ("get activity", "malformed"),
    ("1 version", "malformed"),
    ("explain untrusted_app system_server file call", "malformed"),
    ("reload 1 686", "malformed"),
    ("bye", "malformed"),
    ("version", "version 1 1"),
];

#[test]
fn lines_out_of_their_place(rt: HostRuntime) {
    let alloc = rt.alloc();
    let desk = device_desk(&rt, alloc);
    let desk = holds_at(&rt, alloc, Kind::Client, desk, BEFORE_A_HELLO);
    let desk = holds_at(&rt, alloc, Kind::Admin, desk, NOT_OF_AN_ADMINISTRATOR);
    assert!(rt; desk.deaths == 0);
    let desk = holds_at(&rt, alloc, Kind::Client, desk, NOT_OF_A_CLIENT);
    assert!(rt; desk.deaths == 1);
}

const A_LOST_SERVER: Talk = &[
    ("hello 100 1000 u:r:system_server:s0", "client 1"),
    ("add activity o1 0 8", "ok"),
];

const AFTER_A_LOST_SERVER: Talk = &[
    ("hello 101 1000 u:r:system_server:s0", "client 2"),
    ("get activity", "null"),
    ("list 15", "names 1 5 0"),
    ("take", "empty"),
];

/// A line that is too long, and one behind it.
fn push_too_long(alloc: Global, said: &mut Said) -> Result<(), AllocError> {
    said.script.extend_from_slice(&vec![in alloc; b'a'; 4097]?)?;
    said.script.extend_from_slice(b"\ntake\n")?;
    said.wanted.extend_from_slice(b"fault long\n")
}

// Nothing after a line that is too long is read, and the client has died.
#[test]
fn a_line_too_long(rt: HostRuntime) {
    let alloc = rt.alloc();
    let mut said = said(&rt, alloc, A_LOST_SERVER);
    push_too_long(alloc, &mut said).ok().expect(&rt, "memory");
    let desk = device_desk(&rt, alloc);
    let desk = ends_at(
        &rt,
        alloc,
        Kind::Client,
        desk,
        &said,
        Some(Fault::LineTooLong),
    );
    assert!(rt; desk.deaths == 1);
    holds_at(&rt, alloc, Kind::Client, desk, AFTER_A_LOST_SERVER);
}
