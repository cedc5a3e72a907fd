//! Scripts in which the administrator replaces the policy, or asks what it says.

use super::fixture::{DEVICE, Files, Fixture, PLAIN, hold};
use super::parts::Part::{Lines, Reload};
use super::parts::{A_HANDLE, ONE_CLIENT, Parts, said_of};
use sm_samples::{BROKEN_RULE, Talk};
use std::alloc::Global;
use std::process::Abort;

const A_SECOND_GET: Talk = &[("2 get activity", "handle 1")];

const BROKEN: Files = Files {
    more: BROKEN_RULE,
    ..DEVICE
};

// The version is checked before the slot, and the files before either.
const WITHOUT_A_PLACE_FOR_A_THIRD: Parts = &[
    Reload(1, DEVICE, b"reloaded 2\n"),
    Reload(2, DEVICE, b"failed journal-full\n"),
    Reload(1, DEVICE, b"moved 2\n"),
    Lines(&[
        ("reload 2 0 0", "refused contexts: no default"),
        (
            "explain untrusted_app system_server binder call",
            "allowed 2 15",
        ),
    ]),
];

const WITHOUT_A_PLACE: Parts = &[
    Lines(ONE_CLIENT),
    Reload(1, DEVICE, b"failed journal-full\n"),
    Lines(&[("1 version", "version 1 2")]),
];

const WITH_A_PLACE: Parts = &[
    Lines(ONE_CLIENT),
    Reload(1, DEVICE, b"reloaded 2\n"),
    Lines(&[("1 version", "version 2 3")]),
];

const WHOLE_TEXTS: Parts = &[
    Lines(&[("1 list 15", "failed not-connected")]),
    Reload(1, DEVICE, b"reloaded 2\n"),
];

// Scripts under a device's policy.
const RELOADS: &[Parts] = &[
    // Another policy is in force at once.
    &[
        Lines(A_HANDLE),
        Lines(A_SECOND_GET),
        Reload(1, PLAIN, b"reloaded 2\n"),
        Lines(&[
            (
                "2 get activity",
                "failed denied untrusted_app servicemanager binder call",
            ),
            ("2 version", "version 2 7"),
        ]),
    ],
    // A refused policy changes nothing.
    &[
        Lines(A_HANDLE),
        Lines(A_SECOND_GET),
        Reload(
            1,
            BROKEN,
            b"refused neverallow at line 16 by allow at line 17: untrusted_app activity_service service_manager add\n",
        ),
        Lines(&[("2 version", "version 1 6"), ("2 get activity", "handle 1")]),
    ],
    // The version has moved.
    &[
        Reload(1, DEVICE, b"reloaded 2\n"),
        Reload(1, DEVICE, b"moved 2\n"),
    ],
    // The greatest version, and one more.
    &[
        Reload(u64::MAX, DEVICE, b"moved 1\n"),
        Lines(&[("reload 18446744073709551616 0 0", "malformed")]),
        Reload(1, DEVICE, b"reloaded 2\n"),
    ],
    // Where the line is malformed, what was meant as texts is read as lines.
    &[Lines(&[
        ("reload 18446744073709551616 8 65", "malformed"),
        ("type a;", "malformed"),
        ("# labels", "malformed"),
        (
            "explain untrusted_app system_server binder call",
            "allowed 1 15",
        ),
        ("* u:r:a", "malformed"),
        ("reload 1 08 8", "malformed"),
        ("type a;", "malformed"),
        ("* u:r:a", "malformed"),
        ("reload 1 8", "malformed"),
        ("reload 1 8 4294967296", "malformed"),
        ("reload 1 8 8 8", "malformed"),
        ("reload  1 8 8", "malformed"),
        ("1 reload 1 0 0", "malformed"),
        ("", "malformed"),
    ])],
    // Rules that allow an access, and accesses that none allows.
    &[Lines(&[
        (
            "explain untrusted_app system_server binder call",
            "allowed 1 15",
        ),
        (
            "explain system_server untrusted_app binder call",
            "unwritten 1",
        ),
        (
            "explain untrusted_app servicemanager binder call",
            "allowed 1 10",
        ),
        (
            "explain untrusted_app activity_service service_manager add",
            "unwritten 1",
        ),
        (
            "explain untrusted_app servicemanager binder find",
            "unwritten 1",
        ),
        ("explain nobody servicemanager binder call", "unwritten 1"),
        (
            "explain untrusted_app servicemanager file call",
            "malformed",
        ),
        (
            "explain untrusted_app servicemanager binder read",
            "malformed",
        ),
    ])],
    // Texts that are empty.
    &[Lines(&[("reload 1 0 0", "refused contexts: no default")])],
    WHOLE_TEXTS,
];

#[test]
fn reloads(rt: HostRuntime) {
    let device = Fixture::device();
    hold(&rt, rt.alloc(), device, RELOADS);
    // One slot is for the opening. A reload takes one, and a client two.
    for (places, parts) in [
        (2, WITHOUT_A_PLACE_FOR_A_THIRD),
        (3, WITHOUT_A_PLACE),
        (4, WITH_A_PLACE),
    ] {
        hold(&rt, rt.alloc(), device.with_places(places), &[parts]);
    }
}

// Runs a script that ends inside the texts of a policy.
fn is_cut(rt: &impl Abort, alloc: Global, script: Option<&[u8]>) {
    let wanted = b"failed not-connected\nfault cut\n";
    Fixture::device().replies(rt, alloc, script.expect(rt, "a front"), wanted);
}

#[test]
fn texts_cut_short(rt: HostRuntime) {
    let said = said_of(&rt, rt.alloc(), WHOLE_TEXTS);
    let before = b"1 list 15\nreload 1 686 89\n".len();
    // Before the policy source, inside it, between the texts, and inside the contexts file.
    for held in [0usize, 1, 300, 685, 686, 687, 720, 774] {
        is_cut(&rt, rt.alloc(), said.script.get(..before + held));
    }
}
