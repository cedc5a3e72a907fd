//! Audit lines, and the ring of the newest records.

use super::fixture::{DEVICE, Files, Fixture};
use super::lines::same_lines;
use super::parts::Part::{self, Lines, Reload, Repeat};
use super::parts::{A_HANDLE, A_SERVICE, Parts, push, said_of};
use Step::{Ask, Denials, Hear};
use sm_samples::{FIND_RULE, STRICTER_FIND_RULE, Said};
use sm_values::push_numbered;
use std::alloc::{AllocError, Global};
use std::process::Abort;

/// Request lines, each with the line that answers it and the audit line that it leaves.
type Heard = &'static [(&'static str, &'static str, &'static str)];

/// A part of a script.
#[derive(Clone, Copy)]
enum Step {
    /// Requests that leave no audit line.
    Ask(Part),
    /// Requests that each leave an audit line.
    Hear(Heard),
    /// A request for the denials, which are these audit lines.
    Denials(&'static [&'static str]),
}

/// A script with its replies, and its audit lines.
#[derive(Drop)]
struct Run {
    said: Said,
    lines: Vec<u8>,
}

impl Run {
    fn hear(&mut self, heard: Heard) -> Result<(), AllocError> {
        for (request, reply, line) in heard {
            push_line(&mut self.said.script, request)?;
            push_line(&mut self.said.wanted, reply)?;
            push_line(&mut self.lines, line)?;
        }
        Ok(())
    }

    fn denials(&mut self, lines: &[&str]) -> Result<(), AllocError> {
        push_line(&mut self.said.script, "denials")?;
        push_numbered(&mut self.said.wanted, b"denials ", lines.len() as u64)?;
        self.said.wanted.push(b'\n')?;
        for line in lines {
            push_line(&mut self.said.wanted, line)?;
        }
        Ok(())
    }

    fn push(&mut self, rt: &impl Abort, alloc: Global, step: Step) -> Result<(), AllocError> {
        match step {
            Ask(part) => push(rt, alloc, &mut self.said, part),
            Hear(heard) => self.hear(heard),
            Denials(lines) => self.denials(lines),
        }
    }
}

fn push_line(text: &mut Vec<u8>, line: &str) -> Result<(), AllocError> {
    text.extend_from_slice(line.as_bytes())?;
    text.extend_from_slice(b"\n")
}

/// Runs the script of these steps under a policy, and checks its replies and its audit lines.
fn holds(rt: &impl Abort, alloc: Global, files: Files, steps: &[Step]) {
    let mut run = Run {
        said: Said::new(alloc),
        lines: Vec::new(alloc),
    };
    for step in steps {
        run.push(rt, alloc, *step).ok().expect(rt, "memory");
    }
    audited(rt, alloc, files, &run.said, &run.lines);
}

fn audited(rt: &impl Abort, alloc: Global, files: Files, said: &Said, lines: &[u8]) {
    let heard = Fixture::new(files).replies(rt, alloc, &said.script, &said.wanted);
    same_lines(rt, b"", &heard, lines);
}

// What an application is refused, as it is recorded.
const BARRED_FROM_ACTIVITY: &str =
    "journal=6 version=1 clause: denied app for pid=200 uid=10007 name=activity scontext=u:r:untrusted_app:s0";

const FIND_DENIED: &str =
    "journal=6 version=1 avc: denied { find } for pid=200 uid=10007 name=foo scontext=u:r:untrusted_app:s0 tcontext=u:object_r:default_android_service:s0 tclass=service_manager permissive=0";

// A clause, a `list`, whose record isn't kept, and a `get`, which is answered `null`.
const REFUSED_TO_AN_APPLICATION: &[Step] = &[
    Ask(Lines(A_HANDLE)),
    Ask(Lines(&[("2 get activity", "handle 1")])),
    Hear(&[(
        "2 add activity o1 0 8",
        "exception -1 app 10007",
        BARRED_FROM_ACTIVITY,
    )]),
    Denials(&[BARRED_FROM_ACTIVITY]),
    Hear(&[
        (
            "2 list 15",
            "exception -1 denied untrusted_app servicemanager service_manager list",
            "journal=6 version=1 avc: denied { list } for pid=200 uid=10007 scontext=u:r:untrusted_app:s0 tcontext=u:r:servicemanager:s0 tclass=service_manager permissive=0",
        ),
        ("2 get foo", "null", FIND_DENIED),
    ]),
    Denials(&[BARRED_FROM_ACTIVITY, FIND_DENIED]),
];

const AN_ISOLATED_CALLER: &[Step] = &[
    Denials(&[]),
    Ask(Lines(A_SERVICE)),
    Ask(Lines(&[("hello 300 99001 u:r:isolated_app:s0", "client 2")])),
    Hear(&[(
        "2 get activity",
        "null",
        "journal=4 version=1 clause: denied isolated for pid=300 uid=99001 name=activity scontext=u:r:isolated_app:s0",
    )]),
    Ask(Lines(&[
        ("1 add activity o1 1 8", "ok"),
        ("2 get activity", "handle 1"),
    ])),
];

const A_CALL_TO_AN_APPLICATION: &[Step] = &[
    Ask(Lines(A_HANDLE)),
    Ask(Lines(&[
        ("2 call 1 00 o5 h9", "failed bad-handle"),
        ("1 take", "empty"),
        ("2 call 1 00 o5 o5", "ok"),
        ("1 take", "call o1 200 10007 00 h1 h1"),
    ])),
    Hear(&[(
        "1 call 1 00",
        "failed denied system_server untrusted_app binder call",
        "journal=7 version=1 avc: denied { call } for pid=100 uid=1000 scontext=u:r:system_server:s0 tcontext=u:r:untrusted_app:s0 tclass=binder permissive=0",
    )]),
];

// No byte of a name ends its line.
const A_NAME_OF_TWO_LINES: &[Step] = &[
    Ask(Lines(&[("hello 200 10007 u:r:untrusted_app:s0", "client 1")])),
    Hear(&[(
        "1 get %610A6A6f75726e616c3D31",
        "null",
        "journal=2 version=1 avc: denied { find } for pid=200 uid=10007 name=%610a6a6f75726e616c3d31 scontext=u:r:untrusted_app:s0 tcontext=u:object_r:default_android_service:s0 tclass=service_manager permissive=0",
    )]),
];

const STRICTER: Files = Files {
    without: FIND_RULE,
    more: STRICTER_FIND_RULE,
    ..DEVICE
};

// A watcher is judged by the policy in force: the add is done, and its record is the watcher's.
const A_WATCHER: &[Step] = &[
    Ask(Lines(&[
        ("hello 100 1000 u:r:system_server:s0", "client 1"),
        ("hello 200 10007 u:r:untrusted_app:s0", "client 2"),
        ("2 watch activity o7", "ok"),
    ])),
    Ask(Reload(1, STRICTER, b"reloaded 2\n")),
    Hear(&[(
        "1 add activity o1 0 8",
        "ok",
        "journal=5 version=2 avc: denied { find } for pid=200 uid=10007 name=activity scontext=u:r:untrusted_app:s0 tcontext=u:object_r:activity_service:s0 tclass=service_manager permissive=0",
    )]),
    Ask(Lines(&[("2 take", "empty")])),
];

const PERMISSIVE: Files = Files {
    more: b"permissive untrusted_app;\n",
    ..DEVICE
};

const BOTH: Files = Files {
    more: b"permissive untrusted_app;\ndontaudit untrusted_app *:service_manager { find list };\n",
    ..DEVICE
};

const SILENT: Files = Files {
    more: b"dontaudit untrusted_app *:service_manager { find list };\n",
    ..DEVICE
};

// What a permissive application is refused, or would be, as it is recorded.
const FIND_PERMITTED: &str =
    "journal=4 version=1 avc: denied { find } for pid=200 uid=10007 name=foo scontext=u:r:untrusted_app:s0 tcontext=u:object_r:default_android_service:s0 tclass=service_manager permissive=1";

const BARRED_FROM_FOO: &str =
    "journal=4 version=1 clause: denied app for pid=200 uid=10007 name=foo scontext=u:r:untrusted_app:s0";

// What passes only since its type is permissive is recorded all the same; a clause on the user number still refuses.
const PERMISSIVE_TYPES_AND_DONTAUDIT_RULES: &[Step] = &[
    Ask(Lines(A_SERVICE)),
    Ask(Lines(&[("hello 200 10007 u:r:untrusted_app:s0", "client 2")])),
    Hear(&[
        (
            "2 list 15",
            "names 1 4 1 activity",
            "journal=4 version=1 avc: denied { list } for pid=200 uid=10007 scontext=u:r:untrusted_app:s0 tcontext=u:r:servicemanager:s0 tclass=service_manager permissive=1",
        ),
        ("2 get foo", "null", FIND_PERMITTED),
        (
            "2 add foo o1 0 8",
            "exception -1 app 10007",
            BARRED_FROM_FOO,
        ),
    ]),
    Denials(&[FIND_PERMITTED, BARRED_FROM_FOO]),
    Ask(Reload(1, BOTH, b"reloaded 2\n")),
    Ask(Lines(&[("2 list 15", "names 2 5 1 activity"), ("2 get foo", "null")])),
    Ask(Reload(2, SILENT, b"reloaded 3\n")),
    Ask(Lines(&[
        (
            "2 list 15",
            "exception -1 denied untrusted_app servicemanager service_manager list",
        ),
        ("2 get foo", "null"),
    ])),
    Denials(&[FIND_PERMITTED, BARRED_FROM_FOO]),
];

#[test]
fn lines_of_what_is_denied(rt: HostRuntime) {
    for (files, steps) in [
        (DEVICE, REFUSED_TO_AN_APPLICATION),
        (DEVICE, AN_ISOLATED_CALLER),
        (DEVICE, A_CALL_TO_AN_APPLICATION),
        (DEVICE, A_NAME_OF_TWO_LINES),
        (DEVICE, A_WATCHER),
        (PERMISSIVE, PERMISSIVE_TYPES_AND_DONTAUDIT_RULES),
    ] {
        holds(&rt, rt.alloc(), files, steps);
    }
}

/// The line of an add of a name, which an application may not make.
const BARRED: &[u8] =
    b"journal=2 version=1 clause: denied app for pid=200 uid=10007 name=n# scontext=u:r:untrusted_app:s0\n";

const BARRED_LINES: Parts = &[Repeat(1025, b"", BARRED)];

const BARRED_NAMES: Parts = &[
    Lines(&[("hello 200 10007 u:r:untrusted_app:s0", "client 1")]),
    Repeat(1025, b"1 add n# o1 0 8\n", b"exception -1 app 10007\n"),
    Part::Bytes(b"denials\n", b"denials 1024\n"),
];

// The ring keeps 1,024 records; the first of 1,025 is gone.
#[test]
fn the_oldest_record_makes_room(rt: HostRuntime) {
    let mut said = said_of(&rt, rt.alloc(), BARRED_NAMES);
    let lines = said_of(&rt, rt.alloc(), BARRED_LINES).wanted;
    // The line of `n1` is as long as its pattern.
    let kept = lines.get(BARRED.len()..).expect(&rt, "lines");
    let added = said.wanted.extend_from_slice(kept);
    added.ok().expect(&rt, "memory");
    audited(&rt, rt.alloc(), DEVICE, &said, &lines);
}
