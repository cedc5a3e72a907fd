//! Policies that renumber types while clients live.

use super::fixture::{Files, Fixture, hold};
use super::parts::Part::{Lines, Reload};
use super::parts::Parts;
use sm_samples::Talk;

const LABELS: &[u8] = b"* u:object_r:activity_service:s0\n";

// A service manager, and a system server that adds services.
const RULES: &[u8] = b"type servicemanager;
type system_server;
type untrusted_app;
type activity_service;
allow servicemanager self:binder set_context_mgr;
allow system_server servicemanager:binder { call transfer };
allow system_server activity_service:service_manager add;
";

// The same rules, where the types are declared the other way round.
const TURNED_RULES: &[u8] = b"type activity_service;
type untrusted_app;
type system_server;
type servicemanager;
allow servicemanager self:binder set_context_mgr;
allow system_server servicemanager:binder { call transfer };
allow system_server activity_service:service_manager add;
";

const RULES_FOR_APPLICATIONS: &[u8] = b"allow untrusted_app servicemanager:binder { call transfer };
allow servicemanager untrusted_app:binder transfer;
allow untrusted_app activity_service:service_manager find;
allow untrusted_app system_server:binder call;
";

const TWO_CLIENTS: Talk = &[
    ("hello 100 1000 u:r:system_server:s0", "client 1"),
    ("1 add activity o1 0 8", "ok"),
    ("hello 200 1001 u:r:untrusted_app:s0", "client 2"),
    ("2 get activity", "handle 1"),
    ("2 call 1 00", "ok"),
    (
        "2 add window o1 0 8",
        "exception -1 denied untrusted_app activity_service service_manager add",
    ),
];

// By the numbers of the policy before, the system server would be the application, and the application it.
const THE_SAME_ANSWERS: Talk = &[
    ("1 add window o2 0 8", "ok"),
    ("1 get activity", "null"),
    ("2 get window", "handle 2"),
    ("2 call 2 00", "ok"),
    (
        "2 add window o1 0 8",
        "exception -1 denied untrusted_app activity_service service_manager add",
    ),
    ("hello 300 1001 u:r:untrusted_app:s0", "client 3"),
    ("3 get window", "handle 1"),
];

const NOTHING_FOR_APPLICATIONS: Talk = &[
    (
        "2 get activity",
        "failed denied untrusted_app servicemanager binder call",
    ),
    (
        "2 call 1 00",
        "failed denied untrusted_app system_server binder call",
    ),
    ("1 add window o2 0 8", "ok"),
    ("hello 300 1001 u:r:untrusted_app:s0", "client 3"),
    (
        "3 get activity",
        "failed denied untrusted_app servicemanager binder call",
    ),
];

const APPLICATIONS_AGAIN: Talk = &[
    ("2 call 1 00", "ok"),
    ("2 get activity", "handle 1"),
    ("3 get window", "handle 1"),
    (
        "3 add window o1 0 8",
        "exception -1 denied untrusted_app activity_service service_manager add",
    ),
];

// Applications find the services and call them.
const PLAIN: Files = Files {
    rules: RULES,
    without: b"",
    more: RULES_FOR_APPLICATIONS,
    contexts: LABELS,
};

const TURNED: Files = Files {
    rules: TURNED_RULES,
    ..PLAIN
};

const WITHOUT_APPLICATIONS: Files = Files {
    without: b"type untrusted_app;\n",
    more: b"",
    ..TURNED
};

const TYPES_IN_ANOTHER_ORDER: Parts = &[
    Lines(TWO_CLIENTS),
    Reload(1, TURNED, b"reloaded 2\n"),
    Lines(THE_SAME_ANSWERS),
];

// A process whose type isn't declared has no permission. Declared again, it has those that are written.
const A_TYPE_THAT_GOES_AND_COMES_BACK: Parts = &[
    Lines(TWO_CLIENTS),
    Reload(1, WITHOUT_APPLICATIONS, b"reloaded 2\n"),
    Lines(NOTHING_FOR_APPLICATIONS),
    Reload(2, TURNED, b"reloaded 3\n"),
    Lines(APPLICATIONS_AGAIN),
];

#[test]
fn types_with_other_numbers(rt: HostRuntime) {
    hold(
        &rt,
        rt.alloc(),
        Fixture::new(PLAIN),
        &[TYPES_IN_ANOTHER_ORDER, A_TYPE_THAT_GOES_AND_COMES_BACK],
    );
}
