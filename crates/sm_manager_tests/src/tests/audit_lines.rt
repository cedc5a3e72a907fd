//! The lines of records, and the ring of the newest.

use super::acts::{application, name};
use sm_audit::{Ring, push_line, push_lines};
use sm_history::{Denial, Record};
use sm_values::{Class, Context, Perms};
use std::alloc::Global;
use std::process::Abort;
use std::test::*;

fn context(rt: &impl Abort, alloc: Global, text: &[u8]) -> Context {
    Context::read(alloc, text).ok().expect(rt, "a context")
}

/// That `find` is missing for `activity`.
fn find_missing(rt: &impl Abort, alloc: Global) -> Record {
    Record {
        length: 5,
        version: 2,
        denial: Denial::Rule {
            source: name(rt, alloc, b"untrusted_app"),
            target: name(rt, alloc, b"activity_service"),
            class: Class::ServiceManager,
            perm: Perms::FIND,
        },
        permissive: false,
        who: application(rt, alloc),
        target: Some(context(rt, alloc, b"u:object_r:activity_service:s0")),
        name: Some(name(rt, alloc, b"activity")),
    }
}

/// That an application may not add a service, at this length of the journal.
fn app_barred(rt: &impl Abort, alloc: Global, length: u64) -> Record {
    Record {
        length,
        version: 1,
        denial: Denial::App(10007),
        permissive: false,
        who: application(rt, alloc),
        target: None,
        name: Some(name(rt, alloc, b"activity")),
    }
}

#[test]
fn lines_come_behind_what_is_there_in_their_order(rt: HostRuntime) {
    let alloc = rt.alloc();
    let mut out = Vec::from_slice(alloc, b"denials 2\n")
        .ok()
        .expect(&rt, "memory");
    push_line(alloc, &mut out, &find_missing(&rt, alloc))
        .ok()
        .expect(&rt, "memory");
    push_lines(alloc, &mut out, &[app_barred(&rt, alloc, 6)])
        .ok()
        .expect(&rt, "memory");
    assert_eq!(rt;
        out.as_slice(),
        b"denials 2\njournal=5 version=2 avc: denied { find } for pid=200 uid=10007 name=activity scontext=u:r:untrusted_app:s0 tcontext=u:object_r:activity_service:s0 tclass=service_manager permissive=0\njournal=6 version=1 clause: denied app for pid=200 uid=10007 name=activity scontext=u:r:untrusted_app:s0\n".as_slice()
    );
}

/// Pushes `many` records, each with another length.
fn push_many(rt: &impl Abort, ring: &mut Ring, alloc: Global, many: u64) {
    for length in 0..many {
        ring.push(app_barred(rt, alloc, length));
    }
}

/// The number of records in the ring, and the lengths of the oldest and of the newest one.
fn holds(rt: &impl Abort, ring: &Ring, alloc: Global, wanted: (usize, u64, u64)) {
    let all = ring.all(alloc).ok().expect(rt, "memory");
    let (Some(oldest), Some(newest)) = (all.first(), all.last()) else {
        panic!(rt; "an empty ring");
    };
    assert_eq!(rt; (all.len(), oldest.length, newest.length), wanted);
}

/// The records of these lengths.
fn barred(rt: &impl Abort, alloc: Global, lengths: &[u64]) -> Vec<Record> {
    let mut records = Vec::new(alloc);
    for length in lengths {
        records
            .push(app_barred(rt, alloc, *length))
            .ok()
            .expect(rt, "memory");
    }
    records
}

#[test]
fn the_oldest_record_goes_first(rt: HostRuntime) {
    let alloc = rt.alloc();
    let mut ring = Ring::new(alloc).ok().expect(&rt, "memory");
    let none = ring.all(alloc).ok().expect(&rt, "memory");
    assert!(rt; none.is_empty());
    push_many(&rt, &mut ring, alloc, 1024);
    holds(&rt, &ring, alloc, (1024, 0, 1023));
    let mut full = ring.all(alloc).ok().expect(&rt, "memory");
    ring.push(app_barred(&rt, alloc, 1024));
    holds(&rt, &ring, alloc, (1024, 1, 1024));
    let mut more = barred(&rt, alloc, &[1025, 1026]);
    ring.push_all(&mut more);
    assert!(&rt; more.is_empty());
    holds(&rt, &ring, alloc, (1024, 3, 1026));
    ring.push_all(&mut full);
    holds(&rt, &ring, alloc, (1024, 0, 1023));
}
