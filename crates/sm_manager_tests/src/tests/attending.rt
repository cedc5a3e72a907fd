//! A connection, from its first line to its end.

use super::manager_desk::ManagerDesk;
use sm_connection::session;
use sm_engine::{Counted, Fault};
use sm_history::NoGate;
use sm_samples::{FailAt, OneByte, Pieces, Said, Talk};
use sm_wire::Kind;
use std::alloc::Global;
use std::io::Write;
use std::process::Abort;

/// How the bytes of a connection come and go.
#[derive(Clone, Copy)]
pub struct Way {
    /// The most bytes of a read; 0 for as many as there are.
    pub piece: usize,
    /// Which read fails; 0 for none.
    pub failing_read: u32,
    /// Which write fails; 0 for none.
    pub failing_write: u32,
    /// The most reads.
    pub reads: u32,
}

/// All comes by one read, and nothing fails.
pub const AT_ONCE: Way = Way {
    piece: 0,
    failing_read: 0,
    failing_write: 0,
    reads: 1000,
};

/// What a connection left.
#[derive(Drop)]
pub struct Left {
    pub desk: ManagerDesk,
    /// What ended it before the end of its lines.
    pub fault: Option<Fault>,
    /// How many reads and how many writes failed.
    pub failures: (u64, u64),
    pub written: Vec<u8>,
}

fn attend<W: Write>(
    alloc: Global,
    kind: Kind,
    desk: ManagerDesk,
    script: &[u8],
    way: Way,
    writer: W,
) -> (ManagerDesk, Option<Fault>, (u64, u64), W) {
    let mut reader = Counted::new(FailAt {
        inner: Pieces {
            inner: script,
            most: way.piece,
        },
        left: way.failing_read,
    });
    let mut writer = Counted::new(FailAt {
        inner: writer,
        left: way.failing_write,
    });
    let (desk, ending) = session(
        alloc,
        kind,
        &mut reader,
        &mut writer,
        desk,
        &NoGate,
        way.reads,
    );
    let failures = (reader.failures(), writer.failures());
    let FailAt { inner, left: _ } = writer.into_inner();
    (desk, ending.err(), failures, inner)
}

/// Serves a connection at the desk, where each write takes all that it is given.
pub fn serve(alloc: Global, kind: Kind, desk: ManagerDesk, script: &[u8], way: Way) -> Left {
    let writer = Vec::new(alloc);
    let (desk, fault, failures, written) = attend(alloc, kind, desk, script, way, writer);
    Left {
        desk,
        fault,
        failures,
        written,
    }
}

/// Serves a connection at the desk, where each write takes one byte.
pub fn serve_by_bytes(
    alloc: Global,
    kind: Kind,
    desk: ManagerDesk,
    script: &[u8],
    way: Way,
) -> Left {
    let writer = OneByte(Vec::new(alloc));
    let (desk, fault, failures, writer) = attend(alloc, kind, desk, script, way, writer);
    Left {
        desk,
        fault,
        failures,
        written: writer.0,
    }
}

/// Serves a connection that sends this, checks its answers and what ended it, and returns the desk.
pub fn ends_at(
    rt: &impl Abort,
    alloc: Global,
    kind: Kind,
    desk: ManagerDesk,
    said: &Said,
    fault: Option<Fault>,
) -> ManagerDesk {
    let left = serve(alloc, kind, desk, &said.script, AT_ONCE);
    assert_eq!(rt; left.written.as_slice(), said.wanted.as_slice());
    assert!(rt; left.fault == fault);
    left.desk
}

/// The lines on the left, and as their answers those on the right.
pub fn said(rt: &impl Abort, alloc: Global, talk: Talk) -> Said {
    let mut said = Said::new(alloc);
    said.talk(talk).ok().expect(rt, "memory");
    said
}

/// Serves a connection that sends the lines on the left, checks that the answers are those on the right, and returns
/// the desk.
pub fn holds_at(
    rt: &impl Abort,
    alloc: Global,
    kind: Kind,
    desk: ManagerDesk,
    talk: Talk,
) -> ManagerDesk {
    ends_at(rt, alloc, kind, desk, &said(rt, alloc, talk), None)
}
