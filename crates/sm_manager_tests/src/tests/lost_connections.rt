//! Connections over readers and writers that give and take little, or fail.

use super::acts::policy;
use super::attending::{AT_ONCE, Left, Way, said, serve, serve_by_bytes};
use super::connections::{A_CLIENT, an_administrator};
use super::manager_desk::ManagerDesk;
use sm_engine::Fault;
use sm_policy::Prepared;
use sm_samples::{DEVICE_RULES, Said, Talk};
use sm_wire::Kind;
use std::alloc::{AllocError, Global};
use std::process::Abort;

/// A connection and its answers.
#[derive(Drop)]
struct Connection {
    kind: Kind,
    said: Said,
    /// The number of bytes that are written before it has a client.
    before: usize,
    /// The number of reads, one byte a read.
    reads: usize,
}

// A client says `bye`, after which nothing is read; some of its lines aren't allowed when they come.
fn with_bye(rt: &impl Abort, alloc: Global) -> Connection {
    let said = said(rt, alloc, A_CLIENT);
    let reads = said.script.len();
    Connection {
        kind: Kind::Client,
        said,
        before: b"malformed\n".len(),
        reads,
    }
}

fn push_cut(said: &mut Said) -> Result<(), AllocError> {
    said.script.extend_from_slice(b"lis")?;
    said.wanted.extend_from_slice(b"fault cut\n")
}

// A client is cut off inside a line. The last read finds the end of the input.
fn cut_off(rt: &impl Abort, alloc: Global) -> Connection {
    let mut said = said(
        rt,
        alloc,
        &[("hello 100 1000 u:r:system_server:s0", "client 1")],
    );
    push_cut(&mut said).ok().expect(rt, "memory");
    let reads = said.script.len() + 1;
    Connection {
        kind: Kind::Client,
        said,
        before: 0,
        reads,
    }
}

const QUESTIONS: Talk = &[
    (
        "explain untrusted_app system_server binder call",
        "allowed 1 15",
    ),
    ("denials", "denials 0"),
    ("bye", "malformed"),
    ("reload 1 0 0", "refused contexts: no default"),
    ("version", "version 1 1"),
];

// An administrator has no client. The last read finds the end of the input.
fn of_an_administrator(rt: &impl Abort, alloc: Global) -> Connection {
    let said = said(rt, alloc, QUESTIONS);
    let reads = said.script.len() + 1;
    Connection {
        kind: Kind::Admin,
        said,
        before: usize::MAX,
        reads,
    }
}

/// Whether a connection was ended by this fault, after these failures.
fn is_lost(rt: &impl Abort, left: &Left, wanted: Fault, failures: (u64, u64)) -> bool {
    let Some(fault) = left.fault else {
        return false;
    };
    assert!(rt; (fault, left.failures) == (wanted, failures));
    true
}

impl Connection {
    // The Nth read fails, one byte a read. Whether there was an Nth read.
    fn read_fails(&self, rt: &impl Abort, alloc: Global, policy: &Prepared, n: u32) -> bool {
        let way = Way {
            piece: 1,
            failing_read: n,
            ..AT_ONCE
        };
        let desk = ManagerDesk::open(rt, alloc, policy);
        let left = serve(alloc, self.kind, desk, &self.said.script, way);
        let had_client = left.written.len() > self.before;
        self.is_served(rt, &left, u32::from(had_client));
        is_lost(rt, &left, Fault::ReadFault, (1, 0))
    }

    // The Nth write fails, one byte a write. All lines came together, so the replies to them are written when all are
    // asked. Whether there was an Nth write.
    fn write_fails(&self, rt: &impl Abort, alloc: Global, policy: &Prepared, n: u32) -> bool {
        let way = Way {
            failing_write: n,
            ..AT_ONCE
        };
        let desk = ManagerDesk::open(rt, alloc, policy);
        let left = serve_by_bytes(alloc, self.kind, desk, &self.said.script, way);
        self.is_served(rt, &left, u32::from(self.kind == Kind::Client));
        if !is_lost(rt, &left, Fault::WriteFault, (0, 1)) {
            return false;
        }
        assert!(rt; left.written.len() + 1 == n as usize);
        true
    }

    // What was written are its answers or a front of them. As many clients as these have died, and none is there.
    fn is_served(&self, rt: &impl Abort, left: &Left, deaths: u32) {
        assert!(rt; self.said.wanted.starts_with(&left.written));
        assert_eq!(rt;
            (left.desk.deaths, left.desk.client.is_none()),
            (deaths, true)
        );
    }

    // Each read fails in turn, and each write.
    fn fails_everywhere(&self, rt: &impl Abort, alloc: Global, policy: &Prepared) {
        for n in 1..1000 {
            let fails = self.read_fails(rt, alloc, policy, n);
            assert_eq!(rt; (n, fails), (n, n as usize <= self.reads));
            if !fails {
                break;
            }
        }
        for n in 1..1000 {
            let fails = self.write_fails(rt, alloc, policy, n);
            assert_eq!(rt; (n, fails), (n, n as usize <= self.said.wanted.len()));
            if !fails {
                break;
            }
        }
    }
}

#[test]
fn each_read_and_each_write_fails(rt: HostRuntime) {
    let alloc = rt.alloc();
    let policy = policy(&rt, alloc, DEVICE_RULES);
    with_bye(&rt, alloc).fails_everywhere(&rt, alloc, &policy);
    cut_off(&rt, alloc).fails_everywhere(&rt, alloc, &policy);
    of_an_administrator(&rt, alloc).fails_everywhere(&rt, alloc, &policy);
}

// At a connection whose Nth write fails these lines come in pieces. Returns the number of lines that were asked.
fn asked_before(
    rt: &impl Abort,
    alloc: Global,
    policy: &Prepared,
    kind: Kind,
    script: &[u8],
    piece: usize,
    n: u32,
) -> u32 {
    let way = Way {
        piece,
        failing_write: n,
        ..AT_ONCE
    };
    let left = serve(
        alloc,
        kind,
        ManagerDesk::open(rt, alloc, policy),
        script,
        way,
    );
    assert!(rt; is_lost(rt, &left, Fault::WriteFault, (0, 1)));
    left.desk.asked
}

// Lines come one byte a read: no line after the Nth is asked. Three of the seven lines are allowed when they come.
#[test]
fn nothing_is_asked_after_a_failed_write(rt: HostRuntime) {
    let alloc = rt.alloc();
    let said = said(&rt, alloc, A_CLIENT);
    let policy = policy(&rt, alloc, DEVICE_RULES);
    for (n, wanted) in (1..8).zip([0u32, 1, 1, 1, 2, 2, 3]) {
        let asked = asked_before(&rt, alloc, &policy, Kind::Client, &said.script, 1, n);
        assert_eq!(rt; (n, asked), (n, wanted));
    }
}

fn versions(alloc: Global) -> Result<Vec<u8>, AllocError> {
    let mut script = Vec::new(alloc);
    for _ in 0..1024 {
        script.extend_from_slice(b"version\n")?;
    }
    Ok(script)
}

// All lines come by one read, so their replies are written together, up to 8,192 bytes and the last reply. That are
// 683 replies of 12 bytes.
#[test]
fn few_lines_of_a_piece_are_asked_before_a_failed_write(rt: HostRuntime) {
    let alloc = rt.alloc();
    let script = versions(alloc).ok().expect(&rt, "memory");
    let policy = policy(&rt, alloc, DEVICE_RULES);
    let asked = asked_before(&rt, alloc, &policy, Kind::Admin, &script, 0, 1);
    assert!(rt; asked == 683);
}

// A connection whose bytes come in pieces, and whose answers are taken one byte a write.
fn in_pieces(
    rt: &impl Abort,
    alloc: Global,
    policy: &Prepared,
    kind: Kind,
    said: &Said,
    piece: usize,
) {
    let way = Way {
        piece,
        reads: 10_000,
        ..AT_ONCE
    };
    let desk = ManagerDesk::open(rt, alloc, policy);
    let left = serve_by_bytes(alloc, kind, desk, &said.script, way);
    assert!(rt; left.fault.is_none());
    assert_eq!(rt;
        (piece, left.written.as_slice()),
        (piece, said.wanted.as_slice())
    );
}

#[test]
fn pieces_of_each_length(rt: HostRuntime) {
    let alloc = rt.alloc();
    let client = said(&rt, alloc, A_CLIENT);
    let administrator = an_administrator(alloc).ok().expect(&rt, "memory");
    let policy = policy(&rt, alloc, DEVICE_RULES);
    for piece in 1..=64 {
        in_pieces(&rt, alloc, &policy, Kind::Client, &client, piece);
        in_pieces(&rt, alloc, &policy, Kind::Admin, &administrator, piece);
    }
}

// The bound is met once the client was made, in the midst of a line.
#[test]
fn too_many_reads(rt: HostRuntime) {
    let alloc = rt.alloc();
    let script = b"hello 100 1000 u:r:system_server:s0\nlis";
    let policy = policy(&rt, alloc, DEVICE_RULES);
    for (reads, written, deaths) in [(3, b"".as_slice(), 0), (38, b"client 1\n", 1)] {
        let way = Way {
            piece: 1,
            reads,
            ..AT_ONCE
        };
        let left = serve(
            alloc,
            Kind::Client,
            ManagerDesk::open(&rt, alloc, &policy),
            script,
            way,
        );
        assert!(rt; left.fault == Some(Fault::TooManyReads));
        assert_eq!(rt;
            (left.written.as_slice(), left.desk.deaths),
            (written, deaths)
        );
    }
}
