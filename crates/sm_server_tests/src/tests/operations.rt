//! A server whose listener fails, connections that take too long, and a journal that fills up.

use super::differences::is_left;
use super::server::{
    ALL_IS_WELL, ENDED_BY_ITS_LISTENER, HELLO, Heard, LISTENING, Left, at_a_door,
    at_a_door_with_chronicle, filled, holds, numbers,
};
use super::steps::Step::{self, Close, Flood, Over, Repeat, Say};
use super::steps::connected;
use sm_history::NoGate;
use sm_serve::{Numbers, Patience};
use std::test::Fail;

/// One client, from its `hello` to its `bye`.
const ONE_CLIENT: &[Step] = &[
    Say(0, HELLO, b"client 1\n"),
    Say(0, b"bye\n", b"bye\n"),
    Over(0),
];

/// Interrupted, no memory, aborted, too many files of the process, again, and of the system; no buffers.
const PASSING: &[i32] = &[4, 12, 103, 24, 11, 23, 105];

#[test]
fn failures_that_pass_are_passed_over(rt: HostRuntime) -> Result<(), Fail> {
    let (mut visits, exchange) = connected(&rt, rt.alloc(), numbers(1, 1, 0), ONE_CLIENT)?;
    visits.clients.fail_first(PASSING);
    let left = at_a_door(&rt, rt.alloc(), 1000, NoGate, visits, exchange);
    let wanted = Left {
        heard: Heard {
            delayed: 1,
            ..LISTENING
        },
        ..ALL_IS_WELL
    };
    is_left(&rt, rt.alloc(), &[ONE_CLIENT], left, wanted);
    Ok(())
}

#[test]
fn a_connection_that_has_begun_is_served_to_its_end(rt: HostRuntime) -> Result<(), Fail> {
    let (mut visits, exchange) = connected(&rt, rt.alloc(), numbers(1, 1, 0), ONE_CLIENT)?;
    visits.numbers.clients = 2;
    let left = at_a_door(&rt, rt.alloc(), 1000, NoGate, visits, exchange);
    is_left(&rt, rt.alloc(), &[ONE_CLIENT], left, ENDED_BY_ITS_LISTENER);
    Ok(())
}

/// A client that says nothing after its `hello`.
const A_CLIENT_THAT_IS_CUT_OFF: &[Step] = &[Say(0, HELLO, b"client 1\n"), Over(0)];

#[test]
fn a_connection_that_goes_on_is_cut_off(rt: HostRuntime) -> Result<(), Fail> {
    let (mut visits, exchange) = connected(
        &rt,
        rt.alloc(),
        numbers(1, 1, 0),
        A_CLIENT_THAT_IS_CUT_OFF,
    )?;
    visits.numbers.clients = 2;
    visits.numbers.patience.end = 1;
    let left = at_a_door(&rt, rt.alloc(), 1000, NoGate, visits, exchange);
    let steps = [A_CLIENT_THAT_IS_CUT_OFF];
    is_left(&rt, rt.alloc(), &steps, left, ENDED_BY_ITS_LISTENER);
    Ok(())
}

/// Two clients, and a worker for one.
const A_CLIENT_THAT_WAITS: &[Step] = &[
    Say(0, HELLO, b"client 1\n"),
    Say(1, HELLO, b""),
    Over(2),
    Say(0, b"bye\n", b"bye\n"),
    Say(1, b"bye\n", b"client 2\nbye\n"),
];

#[test]
fn a_client_that_waits_is_told_once(rt: HostRuntime) {
    let mut numbers = numbers(1, 2, 1);
    numbers.patience.admin = 3;
    let heard = Heard {
        waits: 1,
        ..LISTENING
    };
    holds(&rt, rt.alloc(), 1000, numbers, A_CLIENT_THAT_WAITS, heard);
}

/// Three clients, and a worker for one.
const TWO_CLIENTS_THAT_WAIT: &[Step] = &[
    Say(0, HELLO, b"client 1\n"),
    Say(1, HELLO, b""),
    Say(2, HELLO, b""),
    Over(3),
    Say(0, b"bye\n", b"bye\n"),
    Say(1, b"bye\n", b"client 2\nbye\n"),
    Say(2, b"bye\n", b"client 3\nbye\n"),
];

#[test]
fn those_who_wait_are_counted(rt: HostRuntime) {
    let mut numbers = numbers(1, 3, 1);
    numbers.patience.admin = 3;
    let heard = Heard {
        waits: 1,
        others: 1,
        ..LISTENING
    };
    holds(&rt, rt.alloc(), 1000, numbers, TWO_CLIENTS_THAT_WAIT, heard);
}

/// Four clients and a worker for one, where those that wait say nothing. The server ends before it accepts the last one.
const CLIENTS_THAT_ARE_TURNED_AWAY: &[Step] = &[
    Say(0, HELLO, b"client 1\n"),
    Over(1),
    Over(2),
    Say(0, b"bye\n", b"bye\n"),
    Over(0),
];

#[test]
fn those_who_wait_are_turned_away(rt: HostRuntime) -> Result<(), Fail> {
    let steps = CLIENTS_THAT_ARE_TURNED_AWAY;
    let mut numbers = numbers(1, 4, 1);
    numbers.patience.admin = 3;
    let (mut visits, exchange) = connected(&rt, rt.alloc(), numbers, steps)?;
    // The administrators' listener fails for good once the first of them, who says nothing, has taken too long.
    visits.numbers.admins = 2;
    let left = at_a_door(&rt, rt.alloc(), 1000, NoGate, visits, exchange);
    let heard = Heard {
        waits: 1,
        others: 1,
        ..ENDED_BY_ITS_LISTENER.heard
    };
    let wanted = Left {
        turned_away: 2,
        heard,
        ..ENDED_BY_ITS_LISTENER
    };
    is_left(&rt, rt.alloc(), &[steps], left, wanted);
    Ok(())
}

/// Two clients and a worker for one, where the client that waits says nothing and is turned away.
const A_CLIENT_THAT_IS_TURNED_AWAY: &[Step] = &[
    Say(0, HELLO, b"client 1\n"),
    Over(1),
    Say(0, b"bye\n", b"bye\n"),
    Over(0),
];

#[test]
fn a_client_that_is_turned_away_is_counted(rt: HostRuntime) -> Result<(), Fail> {
    let steps = A_CLIENT_THAT_IS_TURNED_AWAY;
    let mut numbers = numbers(1, 2, 1);
    numbers.patience.admin = 3;
    let (mut visits, exchange) = connected(&rt, rt.alloc(), numbers, steps)?;
    // The administrators' listener fails for good once the first of them, who says nothing, has taken too long.
    visits.numbers.admins = 2;
    let left = at_a_door(&rt, rt.alloc(), 1000, NoGate, visits, exchange);
    let heard = Heard {
        waits: 1,
        ..ENDED_BY_ITS_LISTENER.heard
    };
    let wanted = Left {
        turned_away: 1,
        heard,
        ..ENDED_BY_ITS_LISTENER
    };
    is_left(&rt, rt.alloc(), &[steps], left, wanted);
    Ok(())
}

/// A client and an administrator that say nothing, and a client that takes no reply.
const IDLE_CONNECTIONS: &[Step] = &[
    Say(1, HELLO, b"client 1\n"),
    Flood(1, b"version\n"),
    Over(0),
    Over(2),
];

#[test]
fn connections_that_take_too_long_have_ended(rt: HostRuntime) {
    let numbers = Numbers {
        patience: Patience {
            hello: 1,
            reply: 1,
            admin: 1,
            end: 60,
        },
        ..numbers(2, 2, 1)
    };
    holds(&rt, rt.alloc(), 1000, numbers, IDLE_CONNECTIONS, LISTENING);
}

/// A client that waits between its requests for longer than a connection may before its `hello`.
const A_SLOW_CLIENT: &[Step] = &[
    Say(0, HELLO, b"client 1\n"),
    Over(1),
    Say(0, b"version\n", b"version 1 2\n"),
    Say(0, b"bye\n", b"bye\n"),
];

#[test]
fn a_client_may_wait_between_its_requests(rt: HostRuntime) {
    let mut numbers = numbers(2, 2, 0);
    numbers.patience.hello = 1;
    holds(&rt, rt.alloc(), 1000, numbers, A_SLOW_CLIENT, LISTENING);
}

#[test]
fn a_heart_beats_while_a_server_runs(rt: HostRuntime) -> Result<(), Fail> {
    let steps = A_SLOW_CLIENT;
    let mut numbers = numbers(2, 2, 0);
    numbers.patience.hello = 1;
    let (mut visits, exchange) = connected(&rt, rt.alloc(), numbers, steps)?;
    visits.heartbeat = Some(300_000);
    let ended = at_a_door_with_chronicle(&rt, rt.alloc(), 1000, NoGate, visits, exchange);
    // One of the connections lasts for a second.
    assert!(&rt; ended.beats >= 2);
    is_left(&rt, rt.alloc(), &[steps], ended.left, ALL_IS_WELL);
    Ok(())
}

/// A client that watches a name more often than the journal has room for, and an administrator.
const A_JOURNAL_THAT_FILLS_UP: &[Step] = &[
    Say(0, HELLO, b"client 1\n"),
    Repeat(9, 0, b"watch activity o1\n", b"ok\n"),
    Say(
        0,
        b"watch activity o1\nwatch activity o1\n",
        b"failed journal-full\nfailed journal-full\n",
    ),
    Say(1, b"seal\n", b"sealed 1 11\n"),
    Repeat(10, 0, b"watch activity o1\n", b"ok\n"),
    Say(0, b"bye\n", b"bye\n"),
    Say(1, b"version\n", b"version 1 22\n"),
    Close(1),
];

#[test]
fn a_journal_that_fills_up_is_told(rt: HostRuntime) {
    let steps = A_JOURNAL_THAT_FILLS_UP;
    holds(&rt, rt.alloc(), 12, numbers(1, 1, 1), steps, filled(2));
}

/// A client that makes more changes than the journal has room for, and an administrator, whose `seal` is answered by
/// this.
macro_rules! many_changes {
    ($sealed:literal) => {
        &[
            Say(0, HELLO, b"client 1\n"),
            Repeat(35, 0, b"watch activity o1\n", b"ok\n"),
            Say(1, b"seal\n", $sealed),
            Close(0),
            Close(1),
        ]
    };
}

const A_JOURNAL_THAT_IS_SEALED: &[Step] = many_changes!(b"sealed 5 37\n");

#[test]
fn a_server_seals_by_itself(rt: HostRuntime) {
    let mut numbers = numbers(1, 1, 1);
    numbers.seal_at.entries = Some(8);
    let steps = A_JOURNAL_THAT_IS_SEALED;
    holds(&rt, rt.alloc(), 12, numbers, steps, LISTENING);
}

// The client's `hello` counts for 276 bytes and its watches for 200 each.
const A_JOURNAL_THAT_IS_SEALED_BY_ITS_BYTES: &[Step] = many_changes!(b"sealed 4 37\n");

#[test]
fn a_server_seals_by_bytes(rt: HostRuntime) {
    let mut numbers = numbers(1, 1, 1);
    numbers.seal_at.bytes = Some(2_000);
    let steps = A_JOURNAL_THAT_IS_SEALED_BY_ITS_BYTES;
    holds(&rt, rt.alloc(), 100, numbers, steps, LISTENING);
}
