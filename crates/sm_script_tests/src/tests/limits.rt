//! Lines, names, clients and journals at their limits, and scripts that are not begun.

use super::fixture::{DEVICE, DEVICE_WITH_DEFAULTS, Files, Fixture, LONGEST, PLAIN, hold};
use super::parts::Part::{Bytes, Lines, Repeat};
use super::parts::{A_HANDLE, ONE_CLIENT, Parts, said_of};
use sm_engine::{Counted, Fault};
use sm_history::{Denial, Refusal};
use sm_policy::PolicyFault;
use sm_samples::DEVICE_LABELS;
use sm_script::{ScriptFault, run_script};
use sm_values::{Class, Perms, Places};
use std::alloc::Global;
use std::process::Abort;

const INPUT_THAT_ENDS_INSIDE_A_LINE: Parts = &[Lines(ONE_CLIENT), Bytes(b"1 lis", b"fault cut\n")];

const THE_LONGEST_LINE_BUT_ITS_END: Parts = &[Repeat(4096, b"a", b""), Bytes(b"", b"fault cut\n")];

const THE_LONGEST_LINE: Parts = &[Repeat(4096, b"a", b""), Bytes(b"\n", b"malformed\n")];

const NAMES_OF_THE_GREATEST_LENGTH: Parts = &[
    Lines(ONE_CLIENT),
    Lines(&[("1 add % o1 0 8", "exception -3 invalid-name")]),
    Bytes(b"1 add ", b""),
    Repeat(127, b"a", b""),
    Bytes(b" o1 0 8\n", b"ok\n"),
    Bytes(b"1 add ", b""),
    Repeat(128, b"a", b""),
    Bytes(b" o1 0 8\n", b"exception -3 invalid-name\n"),
    Lines(&[("1 add x null 0 8", "exception -3 null-binder")]),
];

// A name that has a service is given another one, and there is still no room for a new name.
const ONE_NAME_TOO_MANY: Parts = &[
    Lines(ONE_CLIENT),
    Repeat(4096, b"1 add n# o1 0 8\n", b"ok\n"),
    Lines(&[
        ("1 add m o1 0 8", "exception -5 table-full"),
        ("1 add m null 0 8", "exception -3 null-binder"),
        ("1 add n7 o2 0 1", "ok"),
        ("1 get n7", "own 2"),
        ("1 add m o1 0 8", "exception -5 table-full"),
        ("1 get m", "null"),
        ("1 list 1", "names 1 4099 1 n7"),
    ]),
];

const ONE_CLIENT_TOO_MANY: Parts = &[
    Repeat(64, b"hello 100 1000 u:r:system_server:s0\n", b"client #\n"),
    Lines(&[
        (
            "hello 100 1000 u:r:system_server:s0",
            "failed too-many-clients",
        ),
        ("64 list 15", "names 1 65 0"),
        ("65 list 15", "failed not-connected"),
        ("1 bye", "bye"),
        ("hello 100 1000 u:r:system_server:s0", "client 65"),
    ]),
];

// A get of one's own object takes no slot, and neither does a denied one.
const NO_PLACE_FOR_A_HANDLE: Parts = &[Lines(&[
    ("hello 100 1000 u:r:system_server:s0", "client 1"),
    ("1 add activity o1 0 8", "ok"),
    ("hello 200 10007 u:r:untrusted_app:s0", "client 2"),
    ("2 get activity", "failed journal-full"),
    ("2 get activity", "failed journal-full"),
    ("1 get activity", "own 1"),
    ("2 get foo", "null"),
    ("1 version", "version 1 4"),
])];

const A_PLACE_FOR_ONE_HANDLE: Parts = &[
    Lines(A_HANDLE),
    Lines(&[
        ("2 get activity", "failed journal-full"),
        ("1 get activity", "own 1"),
        ("2 get foo", "null"),
        ("1 version", "version 1 5"),
    ]),
];

#[test]
fn limits(rt: HostRuntime) {
    let device = Fixture::device();
    let with_defaults = Fixture::new(DEVICE_WITH_DEFAULTS);
    for (fixture, parts) in [
        (device, INPUT_THAT_ENDS_INSIDE_A_LINE),
        (device, THE_LONGEST_LINE_BUT_ITS_END),
        (device, THE_LONGEST_LINE),
        (device, ONE_CLIENT_TOO_MANY),
        (with_defaults, NAMES_OF_THE_GREATEST_LENGTH),
        (with_defaults, ONE_NAME_TOO_MANY),
        (device.with_places(6), NO_PLACE_FOR_A_HANDLE),
        (device.with_places(7), A_PLACE_FOR_ONE_HANDLE),
    ] {
        hold(&rt, rt.alloc(), fixture, &[parts]);
    }
}

const TOO_LONG: &[Parts] = &[
    // Whether or not the line ends, and whatever follows.
    &[Repeat(4097, b"a", b"")],
    &[
        Repeat(4097, b"a", b""),
        Bytes(b"\nhello 100 1000 u:r:system_server:s0\n", b""),
    ],
    // The texts that a reload announces.
    &[Bytes(b"reload 1 4194305 0\n", b"")],
    &[Bytes(b"reload 1 0 4194305\n", b"")],
];

fn is_too_long(rt: &impl Abort, alloc: Global, parts: Parts) {
    let said = said_of(rt, alloc, parts);
    let (_, ending) = Fixture::device().ending(rt, alloc, &said.script, b"fault long\n");
    assert!(rt; ending == Err(Fault::LineTooLong));
}

#[test]
fn lines_and_texts_too_long(rt: HostRuntime) {
    for parts in TOO_LONG {
        is_too_long(&rt, rt.alloc(), parts);
    }
}

// What is wrong with a policy whose script is not begun.
fn reason(fault: &ScriptFault) -> &'static str {
    match fault {
        ScriptFault::Policy(PolicyFault::UndeclaredLabel(3)) => "the label at line 3",
        ScriptFault::Opening(Refusal::Denied(denial)) if is_the_managers(denial.get()) => {
            "no set_context_mgr"
        }
        _ => "another fault",
    }
}

// Whether the rule is lacking that is needed to become the manager.
fn is_the_managers(denial: &Denial) -> bool {
    match denial {
        Denial::Rule {
            source,
            target,
            class,
            perm,
        } => {
            source.bytes() == b"servicemanager".as_slice()
                && target.bytes() == b"servicemanager".as_slice()
                && *class == Class::Binder
                && *perm == Perms::SET_CONTEXT_MGR
        }
        _ => false,
    }
}

// Runs a script that is not begun: nothing is read or written. Returns why.
fn not_begun(rt: &impl Abort, alloc: Global, files: Files) -> &'static str {
    let script = b"hello 100 1000 u:r:system_server:s0\n".as_slice();
    let mut reader = Counted::new(script);
    let mut writer = Counted::new(Vec::new(alloc));
    let (ending, _) = run_script(
        alloc,
        &files.source(rt, alloc),
        files.contexts,
        Places::new(LONGEST).expect(rt, "places"),
        1000,
        &mut reader,
        &mut writer,
        &mut Counted::new(Vec::new(alloc)),
    );
    assert_eq!(rt;
        (reader.into_inner().len(), writer.into_inner().len()),
        (script.len(), 0)
    );
    reason(&ending.err().expect(rt, "a fault"))
}

const UNDECLARED: Files = Files {
    contexts: DEVICE_LABELS,
    ..PLAIN
};

const PLAIN_WITHOUT_A_MANAGER: Files = Files {
    without: b"allow servicemanager servicemanager:binder set_context_mgr;\n",
    ..PLAIN
};

const DEVICE_WITHOUT_A_MANAGER: Files = Files {
    without: b"allow servicemanager self:binder set_context_mgr;\n",
    ..DEVICE
};

#[test]
fn scripts_that_are_not_begun(rt: HostRuntime) {
    for (files, wanted) in [
        (UNDECLARED, "the label at line 3"),
        (PLAIN_WITHOUT_A_MANAGER, "no set_context_mgr"),
        (DEVICE_WITHOUT_A_MANAGER, "no set_context_mgr"),
    ] {
        assert_eq!(rt; not_begun(&rt, rt.alloc(), files), wanted);
    }
}
