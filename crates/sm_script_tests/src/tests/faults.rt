//! Readers and writers that give little, or fail, and scripts that are cut.

use super::exchanges::{
    A_SERVER_DIES, A_SERVER_THAT_DIES, ANOTHER_SERVER_COMES, REFERENCES_OF_A_CALL, WITHOUT_CALLS,
};
use super::fixture::Fixture;
use super::lines::same_lines;
use super::parts::Part::{Bytes, Lines, Reload};
use super::parts::{A_SERVICE, Parts, said_of};
use sm_engine::Fault;
use sm_samples::{FailAt, OneByte, Pieces, Said};
use std::alloc::{AllocError, Global};
use std::process::Abort;

/// More reads or writes than a script here takes, a byte each.
const MANY: u32 = 10_000;

/// A server dies, the policy is replaced, and the input ends inside a line.
const CUT_SCRIPT: Parts = &[
    Lines(A_SERVER_DIES),
    Reload(1, WITHOUT_CALLS, b"reloaded 2\n"),
    Lines(ANOTHER_SERVER_COMES),
    Lines(&[("1  get activity", "malformed")]),
    Bytes(b"1 lis", b"fault cut\n"),
];

fn device() -> Fixture {
    Fixture::device().with_reads(MANY)
}

const ONE_SERVICE: Parts = &[Lines(A_SERVICE)];

// Runs a script that is read in pieces of `most` bytes. Writers that take one byte a call are in `each_write_fails`.
fn hears_pieces(rt: &impl Abort, alloc: Global, said: &Said, most: usize) {
    let mut reader = Pieces {
        inner: said.script.as_slice(),
        most,
    };
    let mut writer = Vec::new(alloc);
    let mut audit = Vec::new(alloc);
    let ran = device().run(rt, alloc, &mut reader, &mut writer, &mut audit);
    assert!(rt; ran.ending == Ok(()));
    same_lines(rt, &said.script, &writer, &said.wanted);
}

#[test]
fn pieces_of_each_length(rt: HostRuntime) {
    for parts in [
        ONE_SERVICE,
        REFERENCES_OF_A_CALL,
        A_SERVER_THAT_DIES,
        CUT_SCRIPT,
    ] {
        let said = said_of(&rt, rt.alloc(), parts);
        for most in 1..=64 {
            hears_pieces(&rt, rt.alloc(), &said, most);
        }
    }
}

#[test]
fn too_many_reads(rt: HostRuntime) {
    let said = said_of(&rt, rt.alloc(), CUT_SCRIPT);
    let policy = Fixture::device().with_reads(3);
    let mut reader = OneByte(said.script.as_slice());
    let mut writer = Vec::new(rt.alloc());
    let mut audit = Vec::new(rt.alloc());
    let ran = policy.run(&rt, rt.alloc(), &mut reader, &mut writer, &mut audit);
    assert!(rt; ran.ending == Err(Fault::TooManyReads));
    assert_eq!(rt; Some(reader.0), said.script.get(3..));
    assert_eq!(rt; writer.len(), 0);
}

// The Nth read fails, one byte a read. Whether there was an Nth read.
fn read_fails(rt: &impl Abort, alloc: Global, said: &Said, n: u32) -> bool {
    let mut reader = FailAt {
        inner: OneByte(said.script.as_slice()),
        left: n,
    };
    let mut writer = Vec::new(alloc);
    let mut audit = Vec::new(alloc);
    let ran = device().run(rt, alloc, &mut reader, &mut writer, &mut audit);
    assert!(rt; said.wanted.starts_with(&writer));
    if ran.ending.is_ok() {
        return false;
    }
    assert!(rt; ran.ending == Err(Fault::ReadFault));
    assert_eq!(rt; ran.failures[0], 1);
    true
}

#[test]
fn each_read_fails(rt: HostRuntime) {
    let said = said_of(&rt, rt.alloc(), CUT_SCRIPT);
    let mut failed = 0u32;
    for n in 1..MANY {
        if !read_fails(&rt, rt.alloc(), &said, n) {
            break;
        }
        failed = n;
    }
    // The last read finds the end of the input.
    assert_eq!(rt; failed as usize, said.script.len() + 1);
}

const DENIED: Parts = &[Lines(&[
    ("hello 200 10007 u:r:untrusted_app:s0", "client 1"),
    ("1 add activity o1 0 8", "exception -1 app 10007"),
    (
        "1 list 15",
        "exception -1 denied untrusted_app servicemanager service_manager list",
    ),
    ("1 get foo", "null"),
])];

const AUDIT_LINES: &[u8] =
    b"journal=2 version=1 clause: denied app for pid=200 uid=10007 name=activity \
scontext=u:r:untrusted_app:s0
journal=2 version=1 avc: denied { list } for pid=200 uid=10007 scontext=u:r:untrusted_app:s0 \
tcontext=u:r:servicemanager:s0 tclass=service_manager permissive=0
journal=2 version=1 avc: denied { find } for pid=200 uid=10007 name=foo scontext=u:r:untrusted_app:s0 \
tcontext=u:object_r:default_android_service:s0 tclass=service_manager permissive=0
";

/// A writer that takes one byte a call, and fails at one call.
type Writer = FailAt<OneByte<Vec<u8>>>;

fn writer_failing_at(alloc: Global, left: u32) -> Writer {
    FailAt {
        inner: OneByte(Vec::new(alloc)),
        left,
    }
}

// The given writes of replies and of audit lines fail, one byte a write; 0 is no write. Returns how many bytes of each
// were written if a write failed.
fn write_fails(
    rt: &impl Abort,
    alloc: Global,
    said: &Said,
    write: u32,
    audit_write: u32,
) -> Option<(usize, usize)> {
    let mut script = said.script.as_slice();
    let mut writer = writer_failing_at(alloc, write);
    let mut audit = writer_failing_at(alloc, audit_write);
    let ran = device().run(rt, alloc, &mut script, &mut writer, &mut audit);
    let (replies, lines) = (writer.inner.0, audit.inner.0);
    assert!(rt; said.wanted.starts_with(&replies));
    assert!(rt; AUDIT_LINES.starts_with(&lines));
    if ran.ending.is_ok() {
        return None;
    }
    assert!(rt; ran.ending == Err(Fault::WriteFault));
    assert_eq!(rt;
        ran.failures,
        [0, u64::from(write > 0), u64::from(audit_write > 0)]
    );
    Some((replies.len(), lines.len()))
}

// Runs a script once for each write of a reply, or of an audit line, that it makes, which fails then. Returns their
// number.
fn failing_writes(rt: &impl Abort, alloc: Global, said: &Said, of_replies: bool) -> usize {
    for n in 1..MANY {
        let (write, audit_write) = if of_replies { (n, 0) } else { (0, n) };
        let before = (n - 1) as usize;
        match write_fails(rt, alloc, said, write, audit_write) {
            None => return before,
            Some((replies, lines)) => {
                assert_eq!(rt; if of_replies { replies } else { lines }, before);
            }
        }
    }
    0
}

#[test]
fn each_write_fails(rt: HostRuntime) {
    let said = said_of(&rt, rt.alloc(), CUT_SCRIPT);
    assert_eq!(rt;
        failing_writes(&rt, rt.alloc(), &said, true),
        said.wanted.len()
    );
}

#[test]
fn each_audit_write_fails(rt: HostRuntime) {
    let said = said_of(&rt, rt.alloc(), DENIED);
    assert_eq!(rt;
        failing_writes(&rt, rt.alloc(), &said, false),
        AUDIT_LINES.len()
    );
}

/// The number of bytes of a script's first items, and the number of bytes of their replies.
#[derive(Clone, Copy)]
struct Front {
    read: usize,
    written: usize,
}

// A prefix of a script that ends right before an item has the answers of the items so far; one that ends inside the
// item has `fault cut` after them. Returns the prefix with the item.
fn cut_inside(rt: &impl Abort, alloc: Global, said: &Said, before: Front, item: Front) -> Front {
    let replies = said.wanted.get(..before.written).expect(rt, "replies");
    hears_front(rt, alloc, said, before.read, replies);
    let cut = with_fault(alloc, replies).ok().expect(rt, "memory");
    let read = before.read.saturating_add(item.read);
    for end in before.read.saturating_add(1)..read {
        hears_front(rt, alloc, said, end, &cut);
    }
    let written = before.written.saturating_add(item.written);
    Front { read, written }
}

fn hears_front(rt: &impl Abort, alloc: Global, said: &Said, end: usize, wanted: &[u8]) {
    let script = said.script.get(..end).expect(rt, "a front");
    device().replies(rt, alloc, script, wanted);
}

fn with_fault(alloc: Global, replies: &[u8]) -> Result<Vec<u8>, AllocError> {
    let mut cut = Vec::from_slice(alloc, replies)?;
    cut.extend_from_slice(b"fault cut\n")?;
    Ok(cut)
}

// The length of a line with its newline.
fn length_of(bytes: &[u8]) -> Option<usize> {
    let mut length = 0usize;
    for byte in bytes {
        length = length.saturating_add(1);
        if *byte == b'\n' {
            return Some(length);
        }
    }
    None
}

// The item after the front, of the script and of the replies.
fn item_after(rt: &impl Abort, said: &Said, front: Front) -> Option<Front> {
    let script = said.script.get(front.read..)?;
    let mut read = length_of(script)?;
    // Behind a reload's line are its two texts.
    if script.starts_with(b"reload 1 626 89\n") {
        read = read.saturating_add(626 + 89);
    }
    let written = length_of(said.wanted.get(front.written..)?);
    Some(Front {
        read,
        written: written.expect(rt, "a reply"),
    })
}

#[test]
fn each_front_of_a_script(rt: HostRuntime) {
    let said = said_of(&rt, rt.alloc(), A_SERVER_THAT_DIES);
    let mut front = Front {
        read: 0,
        written: 0,
    };
    for _ in 0..said.wanted.len() {
        let Some(item) = item_after(&rt, &said, front) else {
            break;
        };
        front = cut_inside(&rt, rt.alloc(), &said, front, item);
    }
    assert_eq!(rt;
        (front.read, front.written),
        (said.script.len(), said.wanted.len())
    );
}
