//! Scripts and what they are answered, line by line.

use super::fixture::{DEVICE_WITH_DEFAULTS, Fixture, PLAIN, hold};
use super::parts::Part::Lines;
use super::parts::{A_HANDLE, A_SERVICE, Parts};

const FIRST_PATH: Parts = &[Lines(&[
    ("hello 100 1000 u:r:system_server:s0", "client 1"),
    ("1 add activity o1 0 8", "ok"),
    ("hello 101 1000 u:r:system_server:s0", "client 2"),
    ("2 get activity", "handle 1"),
    ("1 get activity", "own 1"),
    ("2 list 8", "names 1 5 1 activity"),
])];

const MISSING_RULES: Parts = &[Lines(&[
    ("hello 200 1000 u:r:activity_service:s0", "client 1"),
    (
        "1 get activity",
        "failed denied activity_service servicemanager binder call",
    ),
    ("hello 102 10000 u:r:system_server:s0", "client 2"),
    ("2 add activity o1 0 8", "exception -1 app 10000"),
    ("2 get activity", "null"),
    ("2 list 15", "names 1 3 0"),
])];

const ONE_HANDLE_FOR_AN_OBJECT: Parts = &[
    Lines(A_HANDLE),
    Lines(&[
        ("2 get activity", "handle 1"),
        ("2 add activity o1 0 8", "exception -1 app 10007"),
        (
            "2 list 15",
            "exception -1 denied untrusted_app servicemanager service_manager list",
        ),
        ("2 get foo", "null"),
    ]),
];

// `check` means what `get` means: each one that is answered by a handle is an entry, and no other.
const CHECKS: Parts = &[Lines(&[
    ("hello 100 1000 u:r:system_server:s0", "client 1"),
    ("1 check activity", "null"),
    ("1 add activity o1 0 8", "ok"),
    ("1 check activity", "own 1"),
    ("hello 200 10007 u:r:untrusted_app:s0", "client 2"),
    ("2 check activity", "handle 1"),
    ("2 get activity", "handle 1"),
    ("2 check foo", "null"),
    ("1 version", "version 1 6"),
])];

const APPLICATIONS_OF_ANY_USER: Parts = &[Lines(&[
    ("hello 101 1010007 u:r:system_server:s0", "client 1"),
    ("1 add activity o1 0 8", "exception -1 app 1010007"),
    ("hello 102 109999 u:r:system_server:s0", "client 2"),
    ("2 add activity o1 0 8", "ok"),
])];

const ISOLATED_CALLERS: Parts = &[
    Lines(A_SERVICE),
    Lines(&[
        ("hello 300 99001 u:r:isolated_app:s0", "client 2"),
        ("2 get activity", "null"),
        ("1 add activity o1 1 8", "ok"),
        ("2 get activity", "handle 1"),
    ]),
];

const DUMP_FLAGS: Parts = &[
    Lines(A_SERVICE),
    Lines(&[
        ("1 list 15", "names 1 3 1 activity"),
        ("1 list 0", "names 1 3 0"),
        ("1 list 16", "names 1 3 0"),
        ("1 list 24", "names 1 3 1 activity"),
    ]),
];

// The label is checked before the object and the name, and after the handle.
const NAMES_WITHOUT_LABELS: Parts = &[Lines(&[
    ("hello 100 1000 u:r:system_server:s0", "client 1"),
    (
        "1 add foo o1 0 8",
        "exception -1 denied system_server default_android_service service_manager add",
    ),
    (
        "1 add foo null 0 8",
        "exception -1 denied system_server default_android_service service_manager add",
    ),
    (
        "1 add % o1 0 8",
        "exception -1 denied system_server default_android_service service_manager add",
    ),
    ("1 add foo h9 0 8", "failed bad-handle"),
    ("1 add activity null 0 8", "exception -3 null-binder"),
    ("1 get foo", "null"),
    ("1 list 15", "names 1 2 0"),
])];

// Each number has at most 32 bits. The last five digits of a user number say whose it is.
const GREATEST_NUMBERS: Parts = &[Lines(&[
    ("hello 4294967296 1000 u:r:system_server:s0", "malformed"),
    ("hello 100 4294967296 u:r:system_server:s0", "malformed"),
    ("hello 0100 1000 u:r:system_server:s0", "malformed"),
    (
        "hello 4294967295 4294967295 u:r:system_server:s0",
        "client 1",
    ),
    ("1 add activity o1 0 8", "exception -1 app 4294967295"),
    ("hello 0 0 u:r:system_server:s0", "client 2"),
    ("2 add activity o4294967296 0 8", "malformed"),
    ("2 add activity o1 0 4294967296", "malformed"),
    ("2 add activity o4294967295 0 4294967295", "ok"),
    ("2 get activity", "own 4294967295"),
    ("2 list 2147483648", "names 1 4 1 activity"),
    ("4294967295 list 15", "failed not-connected"),
    ("4294967296 list 15", "malformed"),
])];

const NAMES_AND_OBJECTS: Parts = &[Lines(&[
    ("hello 100 1000 u:r:system_server:s0", "client 1"),
    ("1 add % o1 0 8", "exception -3 invalid-name"),
    ("1 add %612062 o1 0 8", "exception -3 invalid-name"),
    ("1 add %78 o1 0 8", "ok"),
    ("1 add x null 0 8", "exception -3 null-binder"),
    ("1 add y h9 0 8", "failed bad-handle"),
    ("1 add y o2 0 1", "ok"),
    ("1 list 15", "names 1 4 2 x y"),
])];

const MALFORMED: Parts = &[Lines(&[
    ("1 get activity", "failed not-connected"),
    ("hello 100 1000 u:r", "malformed"),
    ("hello 100 1000 u:r:system_server:s0", "client 1"),
    ("", "malformed"),
    ("1 frob", "malformed"),
    ("1 list 15 ", "malformed"),
    ("1  list 15", "malformed"),
    ("1 list 015", "malformed"),
    ("1 list 4294967296", "malformed"),
    ("1 list 15\r", "malformed"),
    ("1 get a\tb", "malformed"),
    ("1 get %6", "malformed"),
    ("1 get %6g", "malformed"),
    ("1 add activity o1 2 8", "malformed"),
    ("1 add activity p1 0 8", "malformed"),
    ("1 take 1", "malformed"),
    ("0 list 15", "failed not-connected"),
    ("9 take", "failed not-connected"),
    ("1 list 4294967295", "names 1 2 0"),
])];

// A handle is held until it was released as often as it was given; an owner's death takes its services along.
const HANDLES_AND_DEATHS: Parts = &[
    Lines(A_HANDLE),
    Lines(&[
        ("2 check activity", "handle 1"),
        ("2 release 1", "ok"),
        ("2 release 1", "ok"),
        ("2 release 1", "failed bad-handle"),
        ("2 take", "empty"),
        ("2 get activity", "handle 1"),
        ("1 bye", "bye"),
        ("1 bye", "failed not-connected"),
        ("2 get activity", "null"),
        ("2 release 1", "ok"),
        ("2 version", "version 1 11"),
    ]),
];

#[test]
fn scripts(rt: HostRuntime) {
    hold(
        &rt,
        rt.alloc(),
        Fixture::new(PLAIN),
        &[FIRST_PATH, MISSING_RULES],
    );
    hold(
        &rt,
        rt.alloc(),
        Fixture::device(),
        &[
            FIRST_PATH,
            ONE_HANDLE_FOR_AN_OBJECT,
            CHECKS,
            APPLICATIONS_OF_ANY_USER,
            ISOLATED_CALLERS,
            DUMP_FLAGS,
            NAMES_WITHOUT_LABELS,
            GREATEST_NUMBERS,
            MALFORMED,
            HANDLES_AND_DEATHS,
        ],
    );
    hold(
        &rt,
        rt.alloc(),
        Fixture::new(DEVICE_WITH_DEFAULTS),
        &[NAMES_AND_OBJECTS],
    );
}
