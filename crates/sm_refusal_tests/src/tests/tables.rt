//! The manager's tables, and its audit records.

use super::outcome::same_text;
use sm_audit::{Ring, line, push_line, push_lines};
use sm_grants::Grants;
use sm_history::{
    Delivery, Denial, Given, MOST_WATCHES, Message, Record, Service, Shared, WatchPair,
};
use sm_inbox::Inboxes;
use sm_names::NameTable;
use sm_values::{ClientId, Context, Identity, Name, Node};
use std::alloc::Global;
use std::process::Abort;
use std::test::*;

fn object(object: u32) -> Node {
    Node {
        owner: ClientId(1),
        object,
    }
}

/// Client 7 is given an object under this number. A refusal leaves the table as it was.
fn given(rt: &impl Abort, grants: &mut Grants, node: Node, wanted: u32) -> Option<()> {
    if grants.reserve(7, 1).is_err() {
        assert!(rt; grants.count(7, node) == 0);
        return None;
    }
    let number = grants.number_if_room(7, node);
    assert!(rt; grants.grant(7, node, 0) == number);
    assert!(rt; number == Some(wanted));
    Some(())
}

fn two_listed(rt: &impl Abort, alloc: Global, grants: &Grants) -> Option<()> {
    let listed = grants.listed(alloc, 7).ok()?;
    assert!(rt; listed.iter().filter(|slot| slot.is_some()).count() == 2);
    Some(())
}

fn gives_and_lists(rt: &impl Abort, alloc: Global, grants: &mut Grants) {
    again!(rt; given(rt, grants, object(5), 1));
    again!(rt; given(rt, grants, object(6), 2));
    assert!(rt; grants.node(7, 1) == Some(object(5)));
    again!(rt; two_listed(rt, alloc, grants));
}

#[test]
fn handles_are_given(rt: HostRuntime) {
    gives_and_lists(&rt, rt.alloc(), &mut Grants::new(rt.alloc()));
}

/// Makes room for one name and one watch. A refusal leaves both tables as they were.
fn room(rt: &impl Abort, names: &mut NameTable, watches: usize) -> Option<()> {
    if names.reserve(1).is_err() {
        assert!(rt; names.watches() == watches && names.get(b"power").is_none());
        return None;
    }
    assert!(rt; names.is_ready() && names.watches() < MOST_WATCHES);
    Some(())
}

/// Client 7 watches `power`.
fn watches(rt: &impl Abort, alloc: Global, names: &mut NameTable) -> Option<()> {
    let power = Name::new(alloc, b"power").ok()?;
    room(rt, names, 0)?;
    let pair = WatchPair::new(7, &power, 3).ok()?;
    if names.is_ready() && names.watches() < MOST_WATCHES {
        names.watch(pair);
    }
    Some(())
}

fn puts(rt: &impl Abort, alloc: Global, names: &mut NameTable) -> Option<()> {
    let power = Name::new(alloc, b"power").ok()?;
    room(rt, names, 1)?;
    if names.is_ready() {
        names.put(power, service());
    }
    Some(())
}

fn keeps(rt: &impl Abort, alloc: Global, names: &mut NameTable) {
    again!(rt; watches(rt, alloc, names));
    again!(rt; puts(rt, alloc, names));
    again!(rt; listed(rt, alloc, names));
}

fn service() -> Service {
    Service {
        node: object(5),
        adder: 1,
        allow_isolated: false,
        dump: 8,
    }
}

fn listed(rt: &impl Abort, alloc: Global, names: &NameTable) -> Option<()> {
    assert!(rt; names.watchers(b"power").len() == 1);
    finds(rt, alloc, names)?;
    let watches = names.listed_watches(alloc).ok()?;
    assert!(rt; watches.len() == 1);
    assert!(rt; watches[0].client == 7);
    Some(())
}

fn finds(rt: &impl Abort, alloc: Global, names: &NameTable) -> Option<()> {
    let found = names.by_mask(alloc, 24).ok()?;
    assert!(rt; found.len() == 1);
    same_text(rt, found.name(0), b"power");
    Some(())
}

#[test]
fn services_and_watches_are_kept(rt: HostRuntime) {
    keeps(&rt, rt.alloc(), &mut NameTable::new(rt.alloc()));
}

/// More names than a table has without hints.
const SEVEN: [&[u8]; 7] = [
    b"alarm", b"audio", b"media", b"mount", b"phone", b"power", b"wifi",
];

/// Adds a name. A refusal leaves the table as it was.
fn adds(rt: &impl Abort, alloc: Global, names: &mut NameTable, name: &[u8]) -> Option<()> {
    let key = Name::new(alloc, name).ok()?;
    if names.reserve(1).is_err() {
        assert!(rt; names.get(name).is_none());
        return None;
    }
    if names.is_ready() {
        names.put(key, service());
    }
    Some(())
}

fn seven(rt: &impl Abort, alloc: Global, names: &mut NameTable) {
    for name in SEVEN {
        again!(rt; adds(rt, alloc, names, name));
    }
    for name in SEVEN {
        assert!(rt; names.get(name).is_some());
    }
}

#[test]
fn names_are_found_with_hints_and_without(rt: HostRuntime) {
    seven(&rt, rt.alloc(), &mut NameTable::new(rt.alloc()));
}

fn delivery(alloc: Global) -> Option<Shared<Delivery>> {
    let name = Name::new(alloc, b"power").ok()?;
    let delivery = Delivery {
        object: 3,
        what: Message::Registered {
            name,
            given: Given::Null,
        },
    };
    Shared::new(alloc, delivery).ok()
}

/// Makes room for a delivery. A refusal leaves the inbox as it was.
fn inbox(rt: &impl Abort, inboxes: &mut Inboxes) -> Option<()> {
    if inboxes.reserve(7).is_err() {
        assert!(rt; inboxes.first(7).is_none());
        assert!(rt; inboxes.has_room(7));
        return None;
    }
    Some(())
}

fn delivers(rt: &impl Abort, alloc: Global, inboxes: &mut Inboxes) -> Option<()> {
    inbox(rt, inboxes)?;
    assert!(rt; inboxes.put_if_room(7, delivery(alloc)?));
    Some(())
}

fn waits(rt: &impl Abort, alloc: Global, inboxes: &Inboxes) -> Option<()> {
    let waiting = inboxes.listed(alloc, 7).ok()?;
    assert!(rt; waiting.len() == 1);
    assert!(rt; waiting[0].get().object == 3);
    Some(())
}

fn delivers_one(rt: &impl Abort, alloc: Global, inboxes: &mut Inboxes) {
    again!(rt; delivers(rt, alloc, inboxes));
    again!(rt; waits(rt, alloc, inboxes));
}

#[test]
fn deliveries_wait(rt: HostRuntime) {
    delivers_one(&rt, rt.alloc(), &mut Inboxes::new(rt.alloc()));
}

const LINE: &[u8] =
    b"journal=6 version=1 clause: denied app for pid=200 uid=10007 name=activity scontext=u:r:untrusted_app:s0\n";

fn record(alloc: Global) -> Option<Record> {
    let name = Name::new(alloc, b"activity").ok()?;
    let context = Context::read(alloc, b"u:r:untrusted_app:s0").ok()?;
    Some(Record {
        length: 6,
        version: 1,
        denial: Denial::App(10007),
        permissive: false,
        who: Identity {
            pid: 200,
            uid: 10007,
            context,
        },
        target: None,
        name: Some(name),
    })
}

fn has_line(rt: &impl Abort, alloc: Global) -> Option<()> {
    let text = line(alloc, &record(alloc)?).ok()?;
    same_text(rt, &text, LINE);
    Some(())
}

fn keeps_a_record(rt: &impl Abort, alloc: Global, ring: &Ring) -> Option<()> {
    let all = ring.all(alloc).ok()?;
    assert!(rt; all.len() == 1);
    assert!(rt; all[0].length == 6);
    Some(())
}

fn pushes(alloc: Global, ring: &mut Ring) -> Option<()> {
    ring.push(record(alloc)?);
    Some(())
}

fn pushes_one(rt: &impl Abort, alloc: Global, ring: &mut Ring) {
    again!(rt; pushes(alloc, ring));
    again!(rt; keeps_a_record(rt, alloc, ring));
}

fn records(rt: &impl Abort, alloc: Global) -> Option<()> {
    let mut ring = Ring::new(alloc).ok()?;
    pushes_one(rt, alloc, &mut ring);
    Some(())
}

#[test]
fn records_are_kept(rt: HostRuntime) {
    again!(rt; has_line(&rt, rt.alloc()));
    again!(rt; records(&rt, rt.alloc()));
}

/// The text before the lines of records.
const HEAD: &[u8] = b"denials 1\n";

/// Whether a text is its head with this many lines behind it.
fn has_lines(text: &[u8], count: u32) -> bool {
    let mut rest = text.strip_prefix(HEAD);
    for _ in 0..count {
        rest = match rest {
            Some(rest) => rest.strip_prefix(LINE),
            None => None,
        };
    }
    match rest {
        Some(rest) => rest.is_empty(),
        None => false,
    }
}

/// Pushes a line. A refusal leaves the text as it was.
fn one_line(rt: &impl Abort, alloc: Global, text: &mut Vec<u8>) -> Option<()> {
    let denied = record(alloc)?;
    if push_line(alloc, text, &denied).is_err() {
        assert!(rt; has_lines(text, 0));
        return None;
    }
    assert!(rt; has_lines(text, 1));
    Some(())
}

/// Pushes two more lines. A refusal leaves the text as it was.
fn two_lines(rt: &impl Abort, alloc: Global, text: &mut Vec<u8>) -> Option<()> {
    let records = [record(alloc)?, record(alloc)?];
    if push_lines(alloc, text, &records).is_err() {
        assert!(rt; has_lines(text, 1));
        return None;
    }
    assert!(rt; has_lines(text, 3));
    Some(())
}

fn pushes_lines(rt: &impl Abort, alloc: Global, text: &mut Vec<u8>) {
    again!(rt; one_line(rt, alloc, text));
    again!(rt; two_lines(rt, alloc, text));
}

fn lines_behind_a_text(rt: &impl Abort, alloc: Global) -> Option<()> {
    let mut text = Vec::from_slice(alloc, HEAD).ok()?;
    pushes_lines(rt, alloc, &mut text);
    Some(())
}

#[test]
fn lines_are_pushed_whole(rt: HostRuntime) {
    again!(rt; lines_behind_a_text(&rt, rt.alloc()));
}
