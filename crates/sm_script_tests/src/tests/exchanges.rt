//! Handles, calls, inboxes, watches, unregistering and deaths, line by line.

use super::fixture::{DEVICE, Files, Fixture, hold};
use super::parts::Part::{Lines, Reload, Repeat};
use super::parts::{A_HANDLE, Parts};
use sm_samples::Talk;

const A_HANDLE_COUNTS: Parts = &[
    Lines(A_HANDLE),
    Lines(&[
        ("2 get activity", "handle 1"),
        ("2 release 1", "ok"),
        ("2 call 1 00", "ok"),
        ("2 release 1", "ok"),
        ("2 call 1 00", "failed bad-handle"),
        ("1 take", "call o1 200 10007 00"),
    ]),
];

// A reference that names nothing refuses the whole call, and nothing is granted.
pub const REFERENCES_OF_A_CALL: Parts = &[
    Lines(A_HANDLE),
    Lines(&[
        ("2 call 1 00 o5 h9", "failed bad-handle"),
        ("1 take", "empty"),
        ("2 call 1 00 o5 o5", "ok"),
        ("1 take", "call o1 200 10007 00 h1 h1"),
        ("1 release 1", "ok"),
        ("1 release 1", "ok"),
        ("1 release 1", "failed bad-handle"),
    ]),
];

// The number of a released handle is that of the next new object.
const NUMBERS_ARE_USED_AGAIN: Parts = &[
    Lines(A_HANDLE),
    Lines(&[
        ("2 get activity", "handle 1"),
        ("2 release 1", "ok"),
        ("2 release 1", "ok"),
        ("1 add activity o2 0 8", "ok"),
        ("2 get activity", "handle 1"),
        ("2 call 1 - h1", "ok"),
        ("1 take", "call o2 200 10007 - o2"),
        ("2 call 1 - h0", "failed bad-handle"),
        ("2 call 0 -", "failed bad-handle"),
        ("1 take", "empty"),
    ]),
];

const UNREGISTERING: Parts = &[
    Lines(A_HANDLE),
    Lines(&[
        ("1 unregister activity o1", "exception -5 in-use"),
        ("2 release 1", "ok"),
        ("1 unregister activity o1", "ok"),
        ("1 unregister activity o1", "exception -5 not-registered"),
    ]),
];

const WHO_MAY_UNREGISTER: Parts = &[Lines(&[
    ("hello 100 1000 u:r:system_server:s0", "client 1"),
    ("1 add activity o1 0 8", "ok"),
    ("hello 101 1000 u:r:system_server:s0", "client 2"),
    ("2 add activity o1 0 8", "ok"),
    ("1 unregister activity o1", "exception -1 not-adder"),
    ("2 unregister activity null", "exception -4 null-binder"),
    ("2 unregister activity o2", "exception -5 other-object"),
    ("2 bye", "bye"),
    ("1 get activity", "null"),
])];

const THE_OBJECT_OF_THE_DEAD: Parts = &[Lines(&[
    ("hello 100 1000 u:r:system_server:s0", "client 1"),
    ("1 add activity o1 0 8", "ok"),
    ("hello 101 1000 u:r:system_server:s0", "client 2"),
    ("2 get activity", "handle 1"),
    ("1 bye", "bye"),
    ("2 add activity h1 0 8", "exception -5 dead-owner"),
    ("2 release 1", "ok"),
])];

const WATCHING_A_NAME_WITH_A_SERVICE: Parts = &[Lines(&[
    ("hello 100 1000 u:r:system_server:s0", "client 1"),
    ("1 add activity o1 0 8", "ok"),
    ("hello 200 10007 u:r:untrusted_app:s0", "client 2"),
    ("2 watch activity o7", "ok"),
    ("2 take", "registered o7 activity h1"),
    ("2 unwatch activity o7", "ok"),
    (
        "2 unwatch activity o7",
        "exception -5 nothing-to-unregister",
    ),
])];

const A_WATCH_MADE_TWICE: Parts = &[Lines(&[
    ("hello 100 1000 u:r:system_server:s0", "client 1"),
    ("hello 200 10007 u:r:untrusted_app:s0", "client 2"),
    ("2 watch activity o7", "ok"),
    ("2 watch activity o7", "ok"),
    ("1 add activity o1 0 8", "ok"),
    ("2 take", "registered o7 activity h1"),
    ("2 take", "registered o7 activity h1"),
    ("2 take", "empty"),
    ("2 release 1", "ok"),
    ("2 release 1", "ok"),
    ("2 release 1", "failed bad-handle"),
])];

const SIXTEEN_REFERENCES: Parts = &[
    Lines(A_HANDLE),
    Lines(&[
        (
            "2 call 1 - null null null null null null null null null null null null null null null null",
            "ok",
        ),
        (
            "1 take",
            "call o1 200 10007 - null null null null null null null null null null null null null null null null",
        ),
        (
            "2 call 1 - null null null null null null null null null null null null null null null null null",
            "malformed",
        ),
    ]),
];

// Client 2 dies holding a handle, watching, owning the service, and with a full inbox.
const A_DEATH_OF_ONE_THAT_HAS_ALL: Parts = &[
    Lines(&[
        ("hello 200 10007 u:r:untrusted_app:s0", "client 1"),
        ("hello 100 1000 u:r:system_server:s0", "client 2"),
        ("2 watch activity o3", "ok"),
        ("2 add activity o1 0 8", "ok"),
        ("1 get activity", "handle 1"),
        ("1 call 1 - o5", "ok"),
    ]),
    Repeat(254, b"1 call 1 -\n", b"ok\n"),
    Lines(&[
        ("1 call 1 -", "failed target-full"),
        ("1 watch activity o9", "ok"),
        ("2 bye", "bye"),
        ("1 get activity", "null"),
        ("1 call 1 -", "dead"),
        ("2 take", "failed not-connected"),
        ("hello 101 1000 u:r:system_server:s0", "client 3"),
        ("3 add activity o1 0 8", "ok"),
        ("3 take", "empty"),
        ("1 take", "registered o9 activity h1"),
        ("1 take", "registered o9 activity h2"),
        ("1 take", "empty"),
        ("1 release 1", "ok"),
        ("1 release 1", "ok"),
        ("1 release 1", "failed bad-handle"),
        ("1 get activity", "handle 2"),
    ]),
];

// One of four slots is kept for the death of the client.
const A_FULL_JOURNAL: Parts = &[Lines(&[
    ("hello 100 1000 u:r:system_server:s0", "client 1"),
    ("1 add activity o1 0 8", "ok"),
    ("1 add activity o1 0 8", "failed journal-full"),
    ("1 list 15", "names 1 3 1 activity"),
    ("1 bye", "bye"),
    (
        "hello 200 10007 u:r:untrusted_app:s0",
        "failed journal-full",
    ),
])];

pub const A_SERVER_DIES: Talk = &[
    ("hello 100 1000 u:r:system_server:s0", "client 1"),
    ("1 watch activity o3", "ok"),
    ("1 add activity o1 0 8", "ok"),
    ("1 take", "registered o3 activity o1"),
    ("hello 200 10007 u:r:untrusted_app:s0", "client 2"),
    ("2 get activity", "handle 1"),
    ("1 bye", "bye"),
    ("2 get activity", "null"),
    ("2 call 1 00", "dead"),
];

pub const ANOTHER_SERVER_COMES: Talk = &[
    ("2 call 1 00", "dead"),
    ("hello 103 1000 u:r:system_server:s0", "client 3"),
    ("3 add activity o1 0 8", "ok"),
    ("2 get activity", "handle 2"),
];

/// A server dies while a client holds its service, the policy is replaced, and another server comes. A call of a dead
/// object is answered so before any rule is checked, and a dead client watches nothing.
pub const A_SERVER_THAT_DIES: Parts = &[
    Lines(A_SERVER_DIES),
    Reload(1, WITHOUT_CALLS, b"reloaded 2\n"),
    Lines(ANOTHER_SERVER_COMES),
];

/// A device's policy without the rule that lets applications call the system server.
pub const WITHOUT_CALLS: Files = Files {
    without: b"allow untrusted_app system_server:binder { call transfer };\n",
    ..DEVICE
};

// A watcher isn't notified of a service, either, while its inbox is full.
const A_FULL_INBOX: Parts = &[
    Lines(A_HANDLE),
    Repeat(256, b"2 call 1 -\n", b"ok\n"),
    Lines(&[
        ("2 call 1 -", "failed target-full"),
        ("1 take", "call o1 200 10007 -"),
        ("2 call 1 -", "ok"),
        ("1 watch activity o3", "ok"),
        ("2 call 1 -", "failed target-full"),
    ]),
];

#[test]
fn exchanges(rt: HostRuntime) {
    let device = Fixture::device();
    hold(
        &rt,
        rt.alloc(),
        device,
        &[
            A_HANDLE_COUNTS,
            REFERENCES_OF_A_CALL,
            NUMBERS_ARE_USED_AGAIN,
            UNREGISTERING,
            WHO_MAY_UNREGISTER,
            THE_OBJECT_OF_THE_DEAD,
            WATCHING_A_NAME_WITH_A_SERVICE,
            A_WATCH_MADE_TWICE,
            SIXTEEN_REFERENCES,
            A_DEATH_OF_ONE_THAT_HAS_ALL,
            A_SERVER_THAT_DIES,
            A_FULL_INBOX,
        ],
    );
    hold(&rt, rt.alloc(), device.with_places(4), &[A_FULL_JOURNAL]);
}
