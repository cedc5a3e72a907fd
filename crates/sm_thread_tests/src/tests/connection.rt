//! Connections over bytes, one after another at one door: what is written to them, and the audit lines of their
//! requests.

use super::door::{Scene, plays};
use sm_audit::push_lines;
use sm_connection::{
    AuditSink, Gauge, Monitor, Occasion, SealAt, ServerEvent, Supervisor, serve_administrator,
    serve_client,
};
use sm_door::{Admin, Door, Naming, Seat};
use sm_engine::Counted;
use sm_history::{NoGate, Record};
use sm_values::drop_fields;
use std::alloc::Global;
use std::cell::Cell;
use std::process::Abort;
use std::sync::Wait;

/// Keeps the audit lines of the records that it is given.
struct Lines<'a, R> {
    rt: &'a R,
    alloc: Global,
    text: Vec<u8>,
}

impl<'a, R> Drop for Lines<'a, R> {
    fn drop(self) {
        drop_fields!(self: rt, alloc, text);
    }
}

impl<'a, R: Abort> AuditSink for Lines<'a, R> {
    fn give(&mut self, records: &[Record]) {
        push_lines(self.alloc, &mut self.text, records)
            .ok()
            .expect(self.rt, "memory");
    }
}

/// A supervisor that takes no notice of anything.
#[derive(Drop)]
struct Quiet;

impl Supervisor for Quiet {
    fn tell(&self, _: ServerEvent) {}

    fn audit(&self, _: &[Record]) {}

    fn close_entrances(&self) {}
}

/// The most reads of a connection.
const READS: u32 = 10;

/// Counts what isn't an answer alone: a journal is sealed then, if it is due.
fn count(changes: &Cell<u32>, occasion: Occasion) {
    if !matches!(occasion, Occasion::FoundEmpty | Occasion::Answered) {
        changes.set(changes.get().wrapping_add(1));
    }
}

/// What is written to a client's connection at a free seat. Asserts that it ends well after this many changes, and gives
/// a free seat back.
fn client_told<'a, J: Naming, R: Wait + Abort>(
    rt: &'a R,
    alloc: Global,
    door: &Door<J, NoGate>,
    seat: Option<Seat<J>>,
    monitor: &Monitor<Quiet>,
    sink: Lines<'a, R>,
    lines: &'static [u8],
    changes: u32,
) -> (Vec<u8>, Lines<'a, R>) {
    let mut reader = Counted::new(lines);
    let mut writer = Counted::new(Vec::new(alloc));
    let counted = Cell::new(0);
    let (slot, sink, ended) = serve_client(
        rt,
        alloc,
        door,
        seat,
        |occasion| count(&counted, occasion),
        monitor,
        sink,
        door.gate(),
        &mut reader,
        &mut writer,
        READS,
    );
    let slot = slot.expect(rt, "a slot");
    assert!(rt; slot.into_session().is_err() && ended.is_ok() && counted.get() == changes);
    (writer.into_inner(), sink)
}

/// What is written to an administrator's connection. Asserts that it ends well, without a change.
fn administrator_told<'a, J: Naming, R: Wait + Abort>(
    rt: &'a R,
    alloc: Global,
    door: &Door<J, NoGate>,
    admin: Admin<J>,
    monitor: &Monitor<Quiet>,
    sink: Lines<'a, R>,
    lines: &'static [u8],
) -> (Vec<u8>, Lines<'a, R>) {
    let mut reader = Counted::new(lines);
    let mut writer = Counted::new(Vec::new(alloc));
    let counted = Cell::new(0);
    let (_, sink, ended) = serve_administrator(
        rt,
        alloc,
        door,
        admin,
        |occasion| count(&counted, occasion),
        monitor,
        sink,
        &mut reader,
        &mut writer,
        READS,
    );
    assert!(rt; ended.is_ok() && counted.get() == 0);
    (writer.into_inner(), sink)
}

const AN_APPLICATION: &[u8] = b"hello 200 10007 u:r:untrusted_app:s0
add activity o1 0 8
version
list 15
hello 200 10007 u:r:untrusted_app:s0
get foo
bye
get foo
";

const TOLD_TO_THE_APPLICATION: &[u8] = b"client 1
exception -1 app 10007
version 1 2
exception -1 denied untrusted_app servicemanager service_manager list
malformed
null
bye
";

/// The audit lines of the application's requests.
const DENIED: &[u8] =
    b"journal=2 version=1 clause: denied app for pid=200 uid=10007 name=activity scontext=u:r:untrusted_app:s0
journal=2 version=1 avc: denied { list } for pid=200 uid=10007 scontext=u:r:untrusted_app:s0 tcontext=u:r:servicemanager:s0 tclass=service_manager permissive=0
journal=2 version=1 avc: denied { find } for pid=200 uid=10007 name=foo scontext=u:r:untrusted_app:s0 tcontext=u:object_r:default_android_service:s0 tclass=service_manager permissive=0
";

const AN_ADMINISTRATOR: &[u8] = b"version
explain untrusted_app servicemanager service_manager list
list 15
seal
";

const TOLD_TO_THE_ADMINISTRATOR: &[u8] = b"version 1 3
unwritten 1
malformed
sealed 1 3
";

/// Serves an application, which is denied three requests, and an administrator after it.
pub fn serves<J: Naming, R: Wait + Abort>(
    rt: &R,
    alloc: Global,
    door: &Door<J, NoGate>,
    mut seats: Vec<Seat<J>>,
    mut admins: Vec<Admin<J>>,
) {
    let admin = admins.pop().expect(rt, "an administrator");
    let never = SealAt {
        entries: None,
        bytes: None,
    };
    let host = Quiet;
    let gauge = Gauge::new(alloc, 1000, never).ok().expect(rt, "memory");
    let monitor = Monitor::new(&host, &gauge);
    let sink = Lines {
        rt,
        alloc,
        text: Vec::new(alloc),
    };
    let (told, sink) = client_told(
        rt,
        alloc,
        door,
        seats.pop(),
        &monitor,
        sink,
        AN_APPLICATION,
        2,
    );
    assert_eq!(rt; told.as_slice(), TOLD_TO_THE_APPLICATION);
    let (told, sink) = administrator_told(rt, alloc, door, admin, &monitor, sink, AN_ADMINISTRATOR);
    assert_eq!(rt; told.as_slice(), TOLD_TO_THE_ADMINISTRATOR);
    assert_eq!(rt; sink.text.as_slice(), DENIED);
}

#[test]
fn each_denial_is_recorded_once_and_in_order(rt: HostRuntime) {
    plays(&rt, rt.alloc(), 1000, Scene::Connections);
}
