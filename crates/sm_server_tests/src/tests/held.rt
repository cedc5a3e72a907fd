//! Calls that are held while others are answered and while connections fail.

use super::differences::is_left;
use super::hold::{ARMED, HOLDING, Hold, RELEASED};
use super::server::{ALL_IS_WELL, HELLO, Talk, Watched, at_a_door, numbers};
use super::steps::Step::{self, Close, Over, Say, Vanish};
use super::steps::{Exchange, connected};
use crossbeam_utils::Backoff;
use sm_history::Gate;
use std::sync::Arc;
use std::sync::atomic::{AtomicU64, Ordering};
use std::test::Fail;

/// The first session that comes to this line is held until another has been answered it.
const HELD_LINE: u64 = 2;

/// How often the held session looks whether it may go on.
const TURNS: u32 = 1_000_000;

/// Holds the first session that comes to its second line, until another session's second line is answered.
#[derive(Drop)]
struct Second {
    came: AtomicU64,
    answered: AtomicU64,
    given_up: AtomicU64,
}

impl Second {
    fn new() -> Second {
        Second {
            came: AtomicU64::new(0),
            answered: AtomicU64::new(0),
            given_up: AtomicU64::new(0),
        }
    }

    fn hold(&self) {
        let backoff = Backoff::new();
        for _ in 0..TURNS {
            if self.answered.load(Ordering::SeqCst) > 0 {
                return;
            }
            backoff.snooze();
        }
        self.given_up.store(1, Ordering::SeqCst);
    }
}

impl Watched for Second {
    fn is_well(&self) -> bool {
        self.came.load(Ordering::SeqCst) == 2 && self.given_up.load(Ordering::SeqCst) == 0
    }
}

impl Gate for Second {
    fn enter(&self, line: u64) {
        if line == HELD_LINE && self.came.fetch_add(1, Ordering::SeqCst) == 0 {
            self.hold();
        }
    }

    fn inside(&self) {}

    fn leave(&self, line: u64) {
        if line == HELD_LINE {
            self.answered.fetch_add(1, Ordering::SeqCst);
        }
    }
}

/// Two clients that ask at once, beside a connection that is cut inside a line, and one that vanishes there.
const A_CALL_IS_HELD: &[Step] = &[
    Say(0, HELLO, b"client 1\n"),
    Say(1, HELLO, b"client 2\n"),
    Say(2, HELLO, b"client 3\n"),
    Say(3, HELLO, b"client 4\n"),
    Say(0, b"take\n", b""),
    Say(3, b"add activ", b""),
    Say(2, b"add activ", b""),
    Close(2),
    Say(2, b"", b"fault cut\n"),
    Vanish(3),
    Say(1, b"take\n", b"empty\n"),
    Say(0, b"", b"empty\n"),
    Over(2),
    Close(0),
    Close(1),
];

#[test]
fn a_call_is_held_until_another_is_answered(rt: HostRuntime) -> Result<(), Fail> {
    let (visits, exchange) = connected(&rt, rt.alloc(), numbers(4, 4, 0), A_CALL_IS_HELD)?;
    let left = at_a_door(&rt, rt.alloc(), 1000, Second::new(), visits, exchange);
    is_left(&rt, rt.alloc(), &[A_CALL_IS_HELD], left, ALL_IS_WELL);
    Ok(())
}

/// Holds a change under the lock, as a test says.
#[derive(Drop)]
struct Held {
    hold: Arc<Hold>,
}

impl Watched for Held {
    fn is_well(&self) -> bool {
        self.hold.is(RELEASED)
    }
}

impl Gate for Held {
    fn enter(&self, _line: u64) {}

    fn inside(&self) {
        self.hold.inside();
    }

    fn leave(&self, _line: u64) {}
}

/// An exchange in which a client's change is held while another client lists and two connections fail.
#[derive(Drop)]
struct Listing {
    exchange: Exchange,
    hold: Arc<Hold>,
}

/// Four clients, of which the first adds, the second lists, and the others fail.
const GREETINGS: &[Step] = &[
    Say(0, HELLO, b"client 1\n"),
    Say(1, HELLO, b"client 2\n"),
    Say(2, HELLO, b"client 3\n"),
    Say(3, HELLO, b"client 4\n"),
];

/// The change that is held.
const THE_CHANGE: &[Step] = &[Say(0, b"add activity o1 0 8\n", b"")];

/// The connections that fail, and a list, while the change is held.
const A_LIST_WHILE_IT_IS_HELD: &[Step] = &[
    Say(3, b"add activ", b""),
    Say(2, b"add activ", b""),
    Close(2),
    Say(2, b"", b"fault cut\n"),
    Vanish(3),
    Say(1, b"list 15\n", b"names 1 5 0\n"),
];

/// The answer to the change.
const AFTER_ITS_RELEASE: &[Step] = &[
    Say(0, b"", b"ok\n"),
    Over(2),
    Say(1, b"get activity\n", b"handle 1\n"),
    Close(0),
    Close(1),
];

impl Talk for Listing {
    fn run(&mut self) -> Result<(), usize> {
        self.exchange.run_steps(GREETINGS)?;
        self.hold.set(ARMED);
        self.exchange.run_steps(THE_CHANGE)?;
        if !self.hold.comes(HOLDING) {
            return Err(self.exchange.done);
        }
        self.exchange.run_steps(A_LIST_WHILE_IT_IS_HELD)?;
        self.hold.set(RELEASED);
        self.exchange.run_steps(AFTER_ITS_RELEASE)
    }
}

#[test]
fn a_change_is_held_until_a_list_is_answered(rt: HostRuntime) -> Result<(), Fail> {
    let hold = Arc::new(rt.alloc(), Hold::new())?;
    let gate = Held {
        hold: Arc::try_clone(&hold)?,
    };
    let (visits, exchange) = connected(&rt, rt.alloc(), numbers(4, 4, 0), &[])?;
    let talk = Listing { exchange, hold };
    let left = at_a_door(&rt, rt.alloc(), 1000, gate, visits, talk);
    let steps = [
        GREETINGS,
        THE_CHANGE,
        A_LIST_WHILE_IT_IS_HELD,
        AFTER_ITS_RELEASE,
    ];
    is_left(&rt, rt.alloc(), &steps, left, ALL_IS_WELL);
    Ok(())
}
