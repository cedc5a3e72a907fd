//! A client's death at the end of a session, and its calls of the gate, over a desk that only counts.

use sm_connection::*;
use sm_engine::Counted;
use sm_history::{Event, Gate, Outcome, Refusal, Reply};
use sm_samples::OneByte;
use sm_values::ClientId;
use sm_wire::{Kind, Request};
use std::alloc::Global;
use std::process::Abort;
use std::sync::atomic::{AtomicU64, Ordering};
use std::test::*;

/// A desk that counts its questions, and the deaths of clients.
#[derive(Drop)]
struct Clerk {
    alloc: Global,
    asked: u32,
    deaths: u32,
}

impl Clerk {
    fn new(alloc: Global) -> Clerk {
        Clerk {
            alloc,
            asked: 0,
            deaths: 0,
        }
    }
}

impl Desk for Clerk {
    ghost answers = { λ _ _ _ _. Unit {0} };

    fn answer(&mut self, command: Command) -> Response {
        if matches!(command, Command::Death) {
            self.deaths = self.deaths.saturating_add(1);
            return Response::Replied(Reply::GotNull);
        }
        self.asked = self.asked.saturating_add(1);
        match command {
            Command::Hello(_) => Response::Replied(self.hello_reply()),
            Command::Line(request) => self.line(&request),
            Command::Install { expected, .. } => {
                Response::Replied(Reply::Done(Outcome::Reloaded(expected)))
            }
            Command::Death => Response::Replied(Reply::GotNull),
        }
    }
}

impl Clerk {
    /// Refuses the first `hello`, and accepts the second one.
    fn hello_reply(&self) -> Reply {
        if self.asked == 1 {
            return Reply::Refused(Refusal::TooManyClients);
        }
        Reply::Done(Outcome::Connected(ClientId(1)))
    }

    fn line(&self, request: &Request) -> Response {
        match request {
            Request::Change(_, Event::Die) => Response::Replied(self.bye_reply()),
            Request::Change(_, _) => Response::Replied(Reply::GotNull),
            Request::Denials => Response::Denied(Vec::new(self.alloc)),
            _ => Response::Replied(Reply::GotOwn(self.asked)),
        }
    }

    /// A `bye` is refused once.
    fn bye_reply(&self) -> Reply {
        if self.asked < 5 {
            return Reply::Refused(Refusal::Memory);
        }
        Reply::Done(Outcome::Died)
    }
}

/// A gate that counts who enters and leaves, and adds up the numbers of their lines.
#[derive(Drop)]
struct Turnstile {
    entered: AtomicU64,
    entered_lines: AtomicU64,
    left: AtomicU64,
    left_lines: AtomicU64,
}

impl Turnstile {
    fn new() -> Turnstile {
        Turnstile {
            entered: AtomicU64::new(0),
            entered_lines: AtomicU64::new(0),
            left: AtomicU64::new(0),
            left_lines: AtomicU64::new(0),
        }
    }
}

impl Turnstile {
    /// How often it was entered, and the sum of the lines.
    fn entries(&self) -> (u64, u64) {
        (
            self.entered.load(Ordering::Relaxed),
            self.entered_lines.load(Ordering::Relaxed),
        )
    }

    /// The same of those who left.
    fn exits(&self) -> (u64, u64) {
        (
            self.left.load(Ordering::Relaxed),
            self.left_lines.load(Ordering::Relaxed),
        )
    }
}

impl Gate for Turnstile {
    fn enter(&self, line: u64) {
        self.entered.fetch_add(1, Ordering::Relaxed);
        self.entered_lines.fetch_add(line, Ordering::Relaxed);
    }

    fn inside(&self) {}

    fn leave(&self, line: u64) {
        self.left.fetch_add(1, Ordering::Relaxed);
        self.left_lines.fetch_add(line, Ordering::Relaxed);
    }
}

/// Runs a session that must write this, ask its desk this often, call its gate at lines whose numbers are these, and
/// tell its desk of a death this often.
fn attend(
    rt: &impl Abort,
    alloc: Global,
    kind: Kind,
    input: &[u8],
    wanted: &[u8],
    asked: u32,
    lines: &[u64],
    deaths: u32,
) {
    let mut reader = Counted::new(input);
    let mut writer = Counted::new(OneByte(Vec::new(alloc)));
    let gate = Turnstile::new();
    let (clerk, ending) = session(
        alloc,
        kind,
        &mut reader,
        &mut writer,
        Clerk::new(alloc),
        &gate,
        1000,
    );
    assert!(rt; ending.is_ok());
    assert_eq!(rt; writer.into_inner().0.as_slice(), wanted);
    assert_eq!(rt; clerk.asked, asked);
    assert_eq!(rt; clerk.deaths, deaths);
    let mut sum: u64 = 0;
    for line in lines {
        sum = sum.saturating_add(*line);
    }
    let seen = (lines.len() as u64, sum);
    assert_eq!(rt; gate.entries(), seen);
    assert_eq!(rt; gate.exits(), seen);
}

// Before a client is made all else is malformed, and a refused `hello` may be tried again; so may a refused `bye`.
// After `bye` nothing is answered.
#[test]
fn a_client_says_bye(rt: HostRuntime) {
    attend(
        &rt,
        rt.alloc(),
        Kind::Client,
        b"take\nhello 100 1000 u:r:a:s0\ntake\nhello 100 1000 u:r:a:s0\nhello 100 1000 u:r:a:s0\nreload 1 0 0\nget activity\nbye\nbye\nlist 15\nlis",
        b"malformed\nfailed too-many-clients\nmalformed\nclient 1\nmalformed\nmalformed\nnull\nfailed memory\nbye\n",
        5,
        &[2, 4, 7, 8, 9],
        1,
    );
}

#[test]
fn a_client_is_cut_off(rt: HostRuntime) {
    attend(
        &rt,
        rt.alloc(),
        Kind::Client,
        b"hello 1 1 u:r:a:s0\nhello 1 1 u:r:a:s0\nversion\ntak",
        b"failed too-many-clients\nclient 1\nown 3\nfault cut\n",
        3,
        &[1, 2, 3],
        1,
    );
}

#[test]
fn a_refused_client_doesnt_die(rt: HostRuntime) {
    attend(
        &rt,
        rt.alloc(),
        Kind::Client,
        b"hello 1 1 u:r:a:s0\nbye\n",
        b"failed too-many-clients\nmalformed\n",
        1,
        &[1],
        0,
    );
}

// A policy that is refused isn't passed to the desk.
#[test]
fn an_administrator(rt: HostRuntime) {
    attend(
        &rt,
        rt.alloc(),
        Kind::Admin,
        b"hello 1 1 u:r:a:s0\ntake\nversion\ndenials\nreload 8 8 11\ntype a;\n* u:r:a:s0\nreload 8 1 0\nxver",
        b"malformed\nmalformed\nown 1\ndenials 0\nreloaded 8\nrefused rules: unsupported statement at line 1\nfault cut\n",
        3,
        &[3, 4, 5, 6],
        0,
    );
}
