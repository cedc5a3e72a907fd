//! Unused rules of a small policy. Each line is worked out by hand.

use crate::unused;
use sm_engine::Counted;
use sm_policy::Prepared;
use std::alloc::Global;
use std::process::Abort;

const CONTEXTS: &[u8] = b"* u:object_r:a:s0
";

/// A policy source, and the lines for it.
type Answer = (&'static [u8], &'static [u8]);

const ANSWERS: [Answer; 4] = [
    // Each rule grants something that those above it don't.
    (
        b"attribute all;
type a, all;
type b, all;
allow a b:binder call;
allow all b:binder call;
allow all self:binder call;
dontaudit a b:binder { call transfer };
",
        b"",
    ),
    // Two rules above grant the accesses of a third one; a rule covers nothing, since no type has its attribute.
    (
        b"attribute all;
attribute none;
type a, all;
type b, all;
allow a all:binder call;
allow b all:binder call;
allow all
    all:binder # every pair
    call;
allow none all:binder call;
allow all self:binder { call transfer };
",
        b"rule t.te:7: allow all all:binder call;
rule t.te:10: allow none all:binder call;
attribute t.te:2: none
",
    ),
    // What a rule grants, a rule below it may grant, too. Rules for other classes aren't kept.
    (
        b"type a;
type b;
allow a { a b }:service_manager find; allow a b:service_manager find;
allow a *:file read;
allow a a:service_manager find;
allow a *:service_manager { add find };
",
        b"rule t.te:3: allow a { a b }:service_manager find; allow a b:service_manager find;
rule t.te:5: allow a a:service_manager find;
",
    ),
    // Rules of both kinds: one that is audited nowhere, also by a rule below it.
    (
        b"type a;
type b;
dontaudit a b:binder call;
dontaudit a self:service_manager list;
allow a b:binder call;
allow a b:binder call;
dontaudit b a:binder call;
",
        b"rule t.te:6: allow a b:binder call;
dontaudit t.te:3: dontaudit a b:binder call;
",
    ),
];

/// Declarations and keys of which some are of no use. `d` is a target by `all`, `f` is in a neverallow rule, and `g` is
/// the type of a label.
const DECLARATIONS: &[u8] = b"attribute all;
attribute none;
attribute named;
attribute given;
type a, all;
type b, all, given;
type c;
type d, all;
type f;
type g;
allow a { all -b }:binder call;
allow a named:binder transfer;
allow a b:service_manager add;
neverallow f a:binder call;
";

const KEYS: &[u8] = b"* u:object_r:g:s0
one u:object_r:b:s0
two u:object_r:a:s0
a:b u:object_r:b:s0
one u:object_r:b:s0
";

const OF_NO_USE: &[u8] = b"rule t.te:12: allow a named:binder transfer;
attribute t.te:2: none
attribute t.te:3: named
attribute t.te:4: given
type t.te:7: c
key t.fc:3: two
key t.fc:4: %613a62
";

/// A permissive type may add all services.
const PERMISSIVE: &[u8] = b"type a;
type e;
permissive e;
";

const OTHER_KEYS: &[u8] = b"* u:object_r:a:s0
two u:object_r:a:s0
";

/// Returns whether a policy has these lines, and whether that there are none is told.
#[tactic(auto, using(sm_questions::proofs::Sources::source_read))]
fn answers(rt: &impl Abort, alloc: Global, (source, lines): Answer, contexts: &[u8]) -> bool {
    let Ok(policy) = Prepared::from_texts(alloc, source, contexts) else {
        return false;
    };
    let mut writer = Counted::new(Vec::new(alloc));
    let none = unused(alloc, &policy, b"t.te", b"t.fc", source, &mut writer)
        .ok()
        .expect(rt, "an answer");
    writer.into_inner().as_slice() == lines && none == lines.is_empty()
}

#[test]
fn unused_rules_have_lines(rt: HostRuntime) {
    for answer in ANSWERS {
        assert!(rt; answers(&rt, rt.alloc(), answer, CONTEXTS));
    }
}

#[test]
fn declarations_of_no_use_have_lines(rt: HostRuntime) {
    assert!(rt; answers(&rt, rt.alloc(), (DECLARATIONS, OF_NO_USE), KEYS));
    assert!(rt; answers(&rt, rt.alloc(), (PERMISSIVE, b""), OTHER_KEYS));
}
