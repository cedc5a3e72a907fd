//! Suggestions for small logs. Each is worked out by hand.

ghost use Rattle.std.specs.Prelude.{◌≤◌, length};
ghost use Rattle.sm_suggestions.specs.declared.limits.TheConstants.{MOST_LOG_BYTES};

use crate::{MOST_LINE_BYTES, MOST_LOG_BYTES, suggest};
use sm_engine::Counted;
use sm_policy::Prepared;
use std::alloc::Global;
use std::process::Abort;

const RULES: &[u8] = b"attribute domain;
type init;
type app, domain;
type svc;
neverallow domain svc:service_manager add;
neverallow app svc:service_manager add;
allow app svc:service_manager { find list };
allow domain svc:service_manager find;
permissive init;
";

const CONTEXTS: &[u8] = b"media u:object_r:svc:s0
a:b u:object_r:app:s0
* u:object_r:init:s0
";

/// Returns whether a log has these suggestions, and whether all of its accesses are allowed.
fn suggests(rt: &impl Abort, alloc: Global, log: &[u8], lines: &[u8], all_allowed: bool) -> bool {
    let policy = Prepared::from_texts(alloc, RULES, CONTEXTS)
        .ok()
        .expect(rt, "a policy");
    let mut writer = Counted::new(Vec::new(alloc));
    if log.len() > MOST_LOG_BYTES {
        return false;
    }
    let allowed = suggest(alloc, &policy, log, &mut writer)
        .ok()
        .expect(rt, "suggestions");
    writer.into_inner().as_slice() == lines && allowed == all_allowed
}

/// Lines of svcmgr, of journald, of Android and of a kernel.
const LOG: &[u8] =
    b"journal=7 version=1 avc: denied { add } for pid=9 uid=10009 name=media scontext=u:r:app:s0 tcontext=u:object_r:svc:s0 tclass=service_manager permissive=0
Dec 01 10:00:00 host svcmgr[9]: journal=8 version=1 avc: denied { find } for pid=9 uid=10009 name=other scontext=u:r:app:s0 tcontext=u:object_r:init:s0 tclass=service_manager permissive=0
E SELinux : avc:  denied  { find } for pid=3 uid=0 name=media scontext=u:r:app:s0 tcontext=u:object_r:svc:s0 tclass=service_manager permissive=0
avc:  denied  { transfer call } for  scontext=u:r:init:s0 tcontext=u:r:app:s0:c1,c2 tclass=binder permissive=1
avc:  denied  { read } for  scontext=u:r:init:s0 tcontext=u:r:app:s0 tclass=file permissive=0
avc: denied { list } scontext=u:r:gone:s0 tcontext=u:r:lost:s0 tclass=service_manager
avc: denied { list } scontext=u:r:app:s0 tcontext=u:r:lost:s0 tclass=service_manager
";

#[test]
fn each_kind_of_line(rt: HostRuntime) {
    let lines = b"forbidden 5 app svc service_manager add 1
default other app init service_manager find 1
allowed 7 app svc service_manager find 1
missing init app binder call 1
missing init app binder transfer 1
unknown gone gone lost service_manager list 1
unknown lost app lost service_manager list 1
";
    assert!(rt; suggests(&rt, rt.alloc(), LOG, lines, false));
}

#[test]
fn records_are_counted(rt: HostRuntime) {
    let log =
        b"avc: denied { find } scontext=u:r:app:s0 tcontext=u:object_r:svc:s0 tclass=service_manager
avc: denied { list find list } scontext=u:r:app:s0 tcontext=u:r:init:s0 tclass=service_manager name=media
granted
";
    let lines = b"allowed 7 app svc service_manager find 2
allowed 7 app svc service_manager list 1
";
    assert!(rt; suggests(&rt, rt.alloc(), log, lines, true));
    assert!(rt; suggests(&rt, rt.alloc(), b"", b"", true));
}

/// A log of one line, and what is suggested for it.
type Suggested = (&'static [u8], &'static [u8]);

const SUGGESTED: [Suggested; 14] = [
    // A target is that of a name's label, whose bytes may be written as digits.
    (
        b"avc: denied { find } name=%613a62 scontext=u:r:init:s0 tcontext=u:r:svc:s0 tclass=service_manager",
        b"missing init app service_manager find 1\n",
    ),
    (
        b"avc: denied { find } name=%zz scontext=u:r:app:s0 tcontext=u:r:svc:s0 tclass=service_manager",
        b"default %257a7a app init service_manager find 1\n",
    ),
    (
        b"avc: denied { find } name= scontext=u:r:app:s0 tcontext=u:r:svc:s0 tclass=service_manager",
        b"default % app init service_manager find 1\n",
    ),
    // Other words and bytes don't matter, and blanks of all kinds separate words.
    (
        b"\xff\x00avc: avc: x denied \x80 {\tcall } }\r} tclass=binder scontext=a:b:svc tcontext=a:b:svc:x:y \x1b",
        b"missing svc svc binder call 1\n",
    ),
    (
        b"tclass=file avc: denied { find call foo } tcontext=u:r:svc:s0 tclass=binder scontext=u:r:svc:s0",
        b"missing svc svc binder call 1\n",
    ),
    // Words in another order, and fields that aren't there exactly once, are no record.
    (
        b"denied avc: { call } tclass=binder scontext=u:r:app:s0 tcontext=u:r:app:s0",
        b"",
    ),
    (
        b"avc: denied { call tclass=binder scontext=u:r:app:s0 tcontext=u:r:app:s0",
        b"",
    ),
    (
        b"avc: denied { } tclass=binder scontext=u:r:app:s0 tcontext=u:r:app:s0",
        b"",
    ),
    (
        b"avc: denied { call } tclass=binder scontext=u:r:app:s0",
        b"",
    ),
    (
        b"avc: denied { call } tclass=binder scontext=u:r:app:s0 tcontext=u:r",
        b"",
    ),
    (
        b"avc: denied { call } tclass=binder scontext=u:r:app:s0 tcontext=u:r:app:s0 tclass=binder",
        b"",
    ),
    (
        b"avc: denied { call } tclass=binder scontext=u:r:app:s0 tcontext=u:r:app:s0 name=a name=a",
        b"",
    ),
    (
        b"avc: denied { call } tclass=file scontext=u:r:app:s0 tcontext=u:r:app:s0",
        b"",
    ),
    (
        b"avc: granted { call } tclass=binder scontext=u:r:app:s0 tcontext=u:r:app:s0",
        b"",
    ),
];

#[test]
fn records_of_lines(rt: HostRuntime) {
    for (log, lines) in SUGGESTED {
        assert!(rt; suggests(&rt, rt.alloc(), log, lines, lines.is_empty()));
    }
}

/// Returns a line with a record, which blanks make as long as this.
fn long_line(rt: &impl Abort, alloc: Global, len: usize) -> Vec<u8> {
    let record = b"avc: denied { call } tclass=binder scontext=u:r:svc:s0 tcontext=u:r:svc:s0";
    let mut line = Vec::from_slice(alloc, record).ok().expect(rt, "a line");
    line.resize(len, b' ').ok().expect(rt, "blanks");
    line
}

#[test]
fn long_lines_are_skipped(rt: HostRuntime) {
    let longest = long_line(&rt, rt.alloc(), MOST_LINE_BYTES);
    let lines = b"missing svc svc binder call 1\n";
    assert!(rt; suggests(&rt, rt.alloc(), &longest, lines, false));
    let longer = long_line(&rt, rt.alloc(), MOST_LINE_BYTES + 1);
    assert!(rt; suggests(&rt, rt.alloc(), &longer, b"skipped 1\n", false));
}
