//! Segments that a manager returns: their contents, and the openings of the next ones.

use super::acts::{
    A_SERVER, ADMIN, AN_ADD, APPLICATION, Act, Became, SERVER, Seen, has_turn, opened, steps,
};
use sm_core::Manager;
use sm_history::{
    By, ClientRow, Delivery, Given, Held, Message, NamedRow, Refusal, Rows, Segment, Shared,
    TurnRow, Watch,
};
use sm_policy::Prepared;
use sm_replay::replay;
use sm_values::{Class, Identity, Perms};
use std::alloc::Global;
use std::process::Abort;

fn same_slot(one: &Option<Held>, other: &Option<Held>) -> bool {
    let Some(a) = one else {
        return other.is_none();
    };
    let Some(b) = other else {
        return false;
    };
    a.node == b.node && a.count == b.count
}

fn same_held(one: &[Option<Held>], other: &[Option<Held>]) -> bool {
    one.len() == other.len() && one.iter().zip(other).all(|(a, b)| same_slot(a, b))
}

fn same_process(one: &Identity, other: &Identity) -> bool {
    one.pid == other.pid && one.uid == other.uid && one.context.text() == other.context.text()
}

fn same_message(one: &Message, other: &Message) -> bool {
    match one {
        Message::Called {
            pid,
            uid,
            payload,
            refs,
        } => is_call(other, (*pid, *uid), payload.bytes(), refs.list()),
        Message::Registered { name, given } => is_notice(other, name.bytes(), *given),
    }
}

fn is_call(message: &Message, caller: (u32, u32), bytes: &[u8], given: &[Given]) -> bool {
    match message {
        Message::Called {
            pid,
            uid,
            payload,
            refs,
        } => (*pid, *uid) == caller && payload.bytes() == bytes && refs.list() == given,
        Message::Registered { name: _, given: _ } => false,
    }
}

fn is_notice(message: &Message, bytes: &[u8], wanted: Given) -> bool {
    match message {
        Message::Registered { name, given } => name.bytes() == bytes && *given == wanted,
        _ => false,
    }
}

fn same_delivery(one: &Shared<Delivery>, other: &Shared<Delivery>) -> bool {
    let (a, b) = (one.get(), other.get());
    a.object == b.object && same_message(&a.what, &b.what)
}

fn same_waiting(one: &[Shared<Delivery>], other: &[Shared<Delivery>]) -> bool {
    one.len() == other.len() && one.iter().zip(other).all(|(a, b)| same_delivery(a, b))
}

fn same_client(one: &ClientRow, other: &ClientRow) -> bool {
    one.client == other.client
        && same_process(&one.who, &other.who)
        && same_held(&one.held, &other.held)
        && same_waiting(&one.waiting, &other.waiting)
}

fn same_manager(one: &Option<Identity>, other: &Option<Identity>) -> bool {
    match (one, other) {
        (Some(a), Some(b)) => same_process(a, b),
        _ => false,
    }
}

fn same_clients(one: &[ClientRow], other: &[ClientRow]) -> bool {
    one.len() == other.len() && one.iter().zip(other).all(|(a, b)| same_client(a, b))
}

fn same_name(one: &NamedRow, other: &NamedRow) -> bool {
    one.name.bytes() == other.name.bytes() && one.service == other.service
}

fn same_names(one: &[NamedRow], other: &[NamedRow]) -> bool {
    one.len() == other.len() && one.iter().zip(other).all(|(a, b)| same_name(a, b))
}

fn same_watch(one: &Watch, other: &Watch) -> bool {
    one.client == other.client
        && one.name.bytes() == other.name.bytes()
        && one.object == other.object
}

fn same_watches(one: &[Watch], other: &[Watch]) -> bool {
    one.len() == other.len() && one.iter().zip(other).all(|(a, b)| same_watch(a, b))
}

fn same_turn(one: &TurnRow, other: &TurnRow) -> bool {
    one.by == other.by && one.turns == other.turns
}

fn same_turns(one: &[TurnRow], other: &[TurnRow]) -> bool {
    one.len() == other.len() && one.iter().zip(other).all(|(a, b)| same_turn(a, b))
}

/// The line of the rule by which an application finds `activity`. The stricter rules of these tests have none.
fn find_line(policy: &Prepared) -> Option<u32> {
    let class = Class::ServiceManager;
    policy.why(b"untrusted_app", b"activity_service", class, Perms::FIND)
}

fn same_policy(one: &Option<Prepared>, other: &Option<Prepared>) -> bool {
    match (one, other) {
        (Some(a), Some(b)) => a.counts() == b.counts() && find_line(a) == find_line(b),
        _ => false,
    }
}

/// Whether two openings are the same.
fn same_rows(one: &Rows, other: &Rows) -> bool {
    one.version() == other.version()
        && same_policy(one.policy(), other.policy())
        && same_manager(one.manager(), other.manager())
        && one.clients() == other.clients()
        && one.history_length() == other.history_length()
        && same_clients(one.live(), other.live())
        && same_names(one.names(), other.names())
        && same_watches(one.watches(), other.watches())
        && same_turns(one.turns(), other.turns())
}

/// Changes, then a seal, and the next turns of actors after it.
struct Round {
    changes: &'static [(By, Act, Seen)],
    /// The number of the segment, the length of the history at its end, and the number of its changes.
    segment: (u64, u64, usize),
    turns: &'static [(By, u64)],
}

/// A short segment has this number, length and number of changes.
fn is_short(rt: &impl Abort, segment: &Segment, wanted: (u64, u64, usize)) {
    let (full, last) = segment.entries();
    let numbers = (
        segment.number(),
        segment.history_length(),
        full.len(),
        last.len(),
    );
    assert_eq!(rt; numbers, (wanted.0, wanted.1, 0, wanted.2));
}

/// Seals the manager. The segment begins with the rows that the segment before it left. Returns what it leaves.
fn sealed(rt: &impl Abort, manager: &mut Manager, before: Option<Rows>, round: &Round) -> Rows {
    let segment = manager.seal().ok().expect(rt, "a segment");
    is_short(rt, &segment, round.segment);
    if let Some(rows) = &before {
        assert!(rt; same_rows(rows, segment.opening()));
    }
    replay(&segment).ok().expect(rt, "memory")
}

/// A second seal finds nothing.
fn has_nothing_to_seal(rt: &impl Abort, manager: &mut Manager) {
    assert!(rt; matches!(manager.seal(), Err(Refusal::Empty)));
}

/// Makes the changes of each round and seals. Returns what the last segment leaves.
fn seals(rt: &impl Abort, alloc: Global, manager: &mut Manager, rounds: &[Round]) -> Option<Rows> {
    let mut rows = None;
    for round in rounds {
        steps(rt, alloc, manager, round.changes);
        rows = Some(sealed(rt, manager, rows, round));
        has_nothing_to_seal(rt, manager);
        for (by, turn) in round.turns {
            has_turn(rt, manager, *by, *turn);
        }
    }
    rows
}

/// A journal of four slots, which is full again and again.
const FULL: &[Round] = &[
    Round {
        changes: &[
            (By::Manager, Act::ConnectServer, Seen::Connected(1)),
            (SERVER, Act::Add, Seen::Unheard),
            (SERVER, Act::Add, Seen::Another),
        ],
        segment: (1, 3, 3),
        turns: &[],
    },
    Round {
        changes: &[
            (SERVER, Act::Add, Seen::Unheard),
            (By::Manager, Act::ConnectApplication, Seen::Connected(2)),
            (APPLICATION, Act::Get, Seen::Another),
        ],
        segment: (2, 5, 2),
        turns: &[(By::Manager, 3), (SERVER, 2)],
    },
    Round {
        changes: &[
            (APPLICATION, Act::Get, Seen::Done),
            (APPLICATION, Act::Get, Seen::Done),
        ],
        segment: (3, 7, 2),
        turns: &[],
    },
    Round {
        changes: &[
            (ADMIN, Act::ReloadStricter(1), Seen::Reloaded(2)),
            (APPLICATION, Act::Get, Seen::Another),
        ],
        segment: (4, 8, 1),
        turns: &[(ADMIN, 1)],
    },
    Round {
        changes: &[
            (APPLICATION, Act::Release, Seen::Done),
            (APPLICATION, Act::Release, Seen::Done),
            (APPLICATION, Act::Release, Seen::Another),
        ],
        segment: (5, 10, 2),
        turns: &[],
    },
    Round {
        changes: &[(SERVER, Act::Die, Seen::Done)],
        segment: (6, 11, 1),
        turns: &[(SERVER, 0), (APPLICATION, 4)],
    },
];

#[test]
fn each_segment_begins_with_what_the_last_one_left(rt: HostRuntime) {
    let alloc = rt.alloc();
    let mut manager = opened(&rt, alloc, 4);
    let rows = seals(&rt, alloc, &mut manager, FULL);
    let rows = rows.expect(&rt, "rows");
    assert!(rt; rows.live().len() == 1);
}

/// A notice and a call with references, which wait while the segment is sealed.
const WAITING: &[Round] = &[
    Round {
        changes: &[
            (By::Manager, Act::ConnectServer, Seen::Connected(1)),
            (SERVER, Act::Watch(3), Seen::Unheard),
            (SERVER, Act::Add, Seen::Heard(1, 3, Became::Told)),
            (By::Manager, Act::ConnectApplication, Seen::Connected(2)),
            (APPLICATION, Act::Get, Seen::Done),
            (APPLICATION, Act::CallWithObject, Seen::Done),
        ],
        segment: (1, 7, 7),
        turns: &[],
    },
    Round {
        changes: &[(SERVER, Act::Take, Seen::Done)],
        segment: (2, 8, 1),
        turns: &[],
    },
];

/// The number of deliveries that wait for the first client.
fn waiting(rows: &Rows) -> usize {
    match rows.live().first() {
        Some(row) => row.waiting.len(),
        None => 0,
    }
}

#[test]
fn deliveries_wait_over_a_seal(rt: HostRuntime) {
    let alloc = rt.alloc();
    let mut manager = opened(&rt, alloc, 1000);
    let rows = seals(&rt, alloc, &mut manager, WAITING);
    let rows = rows.expect(&rt, "rows");
    assert!(rt; waiting(&rows) == 1);
}

/// Four watches, the second of which is ended.
const WATCHES: &[Round] = &[
    Round {
        changes: &[
            (By::Manager, Act::ConnectServer, Seen::Connected(1)),
            (SERVER, Act::Watch(1), Seen::Unheard),
            (SERVER, Act::Watch(2), Seen::Unheard),
            (SERVER, Act::Watch(3), Seen::Unheard),
            (SERVER, Act::Watch(4), Seen::Unheard),
            (SERVER, Act::Unwatch(2), Seen::Done),
        ],
        segment: (1, 7, 7),
        turns: &[],
    },
    Round {
        changes: &[(SERVER, Act::Add, Seen::Heard(1, 1, Became::Told))],
        segment: (2, 8, 1),
        turns: &[],
    },
];

/// The objects of the first and of the last watch.
fn ends(rows: &Rows) -> Option<(u32, u32)> {
    let first = rows.watches().first()?.object;
    Some((first, rows.watches().last()?.object))
}

// A segment begins with the watches in the order in which they were made.
#[test]
fn a_segment_begins_with_the_watches_in_their_order(rt: HostRuntime) {
    let alloc = rt.alloc();
    let mut manager = opened(&rt, alloc, 1000);
    let rows = seals(&rt, alloc, &mut manager, WATCHES);
    let rows = rows.expect(&rt, "rows");
    assert!(rt; ends(&rows) == Some((1, 4)));
}

// A segment of several chunks: its replay gives what the next segment begins with.
#[test]
fn a_long_segment_is_replayed(rt: HostRuntime) {
    let alloc = rt.alloc();
    let mut manager = opened(&rt, alloc, 100_000);
    steps(&rt, alloc, &mut manager, A_SERVER);
    for _ in 0..5_000 {
        steps(&rt, alloc, &mut manager, AN_ADD);
    }
    let segment = manager.seal().ok().expect(&rt, "a segment");
    assert!(rt; segment.history_length() == 5_002);
    let rows = replay(&segment).ok().expect(&rt, "memory");
    steps(&rt, alloc, &mut manager, AN_ADD);
    let next = manager.seal().ok().expect(&rt, "a segment");
    assert!(rt; same_rows(&rows, next.opening()));
}
