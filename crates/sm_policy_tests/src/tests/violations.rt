//! All violations of policy sources, in their order.

use sm_policy::{PolicyFault, refused_text};
use sm_values::push_numbered;
use sm_violations::Violations;
use std::alloc::{AllocError, Global};
use std::process::Abort;

/// More violations than a policy source of these tests has.
const MOST: u32 = 100;

/// Returns the words of all violations, a line for each.
fn words_of(rt: &impl Abort, alloc: Global, text: &[u8]) -> Result<Vec<u8>, AllocError> {
    let violations = Violations::read(alloc, text);
    let mut violations = violations.ok().expect(rt, "rules");
    let mut words = Vec::new(alloc);
    for _ in 0..MOST {
        let Some(violation) = violations.take(alloc)? else {
            return Ok(words);
        };
        let line = refused_text(alloc, &PolicyFault::Neverallow(violation))?;
        words.extend_from_slice(&line)?;
        words.extend_from_slice(b"\n")?;
    }
    Ok(words)
}

/// Policy sources, and the violations of each.
const VIOLATIONS: [(&[u8], &[u8]); 6] = [
    (
        b"type a;\nallow a a:binder call;\nneverallow a a:binder transfer;\n",
        b"",
    ),
    // Of each pair of rules the least source, then the least target, then the lowest permission.
    (
        b"type a;\ntype b;\nallow b { b a }:binder { transfer call };\nallow * *:binder *;\n\
        neverallow * *:service_manager *;\nneverallow { a b } *:binder { call transfer };\n\
        neverallow * *:binder *;\n",
        b"neverallow at line 6 by allow at line 3: b a binder call\n\
        neverallow at line 6 by allow at line 4: a a binder call\n\
        neverallow at line 7 by allow at line 3: b a binder call\n\
        neverallow at line 7 by allow at line 4: a a binder impersonate\n",
    ),
    (
        b"type a;\ntype b;\ntype c;\nallow a b:binder call;\nallow b self:binder transfer;\n\
        allow { a c } { b c }:service_manager { add find };\nneverallow a b:service_manager list;\n\
        neverallow * self:binder { call transfer };\n\
        neverallow { b c } { a b c }:service_manager find;\nneverallow a *:service_manager *;\n\
        neverallow b b:binder transfer;\n",
        b"neverallow at line 8 by allow at line 5: b b binder transfer\n\
        neverallow at line 9 by allow at line 6: c b service_manager find\n\
        neverallow at line 10 by allow at line 6: a b service_manager add\n\
        neverallow at line 11 by allow at line 5: b b binder transfer\n",
    ),
    // A target by `self` before a common one, and behind it.
    (
        b"type a;\ntype b;\ntype c;\nallow * { self c }:binder call;\n\
        neverallow { b c } { self c }:binder call;\n",
        b"neverallow at line 5 by allow at line 4: b b binder call\n",
    ),
    (
        b"type a;\ntype b;\ntype c;\nallow * { self a }:binder call;\n\
        neverallow b { self a }:binder call;\n",
        b"neverallow at line 5 by allow at line 4: b a binder call\n",
    ),
    // By `self` on one side alone, not of the first source that both have.
    (
        b"type a;\ntype b;\nneverallow * self:binder call;\nallow * b:binder call;\n\
        allow a b:binder call;\n",
        b"neverallow at line 3 by allow at line 4: b b binder call\n",
    ),
];

#[test]
fn all_violations(rt: HostRuntime) {
    for (text, wanted) in VIOLATIONS {
        let words = words_of(&rt, rt.alloc(), text);
        let words = words.ok().expect(&rt, "memory");
        assert_eq!(rt; (text, words.as_slice()), (text, wanted));
    }
}

/// The number of types in the text of the test below: more than have a word of a row.
const TYPES: u64 = 70;

/// Rules behind them.
const RULES: &[u8] = b"allow t69 t0:binder call;\nallow t66 self:binder call;\n\
    neverallow * t0:binder call;\nneverallow { t3 t5 } t0:binder call;\n\
    neverallow { t66 t3 } self:binder call;\nneverallow { * -t69 } t0:binder call;\n";

const BROKEN: &[u8] = b"neverallow at line 73 by allow at line 71: t69 t0 binder call\n\
    neverallow at line 75 by allow at line 72: t66 t66 binder call\n";

fn many_types(alloc: Global) -> Result<Vec<u8>, AllocError> {
    let mut text = Vec::new(alloc);
    for i in 0..TYPES {
        push_numbered(&mut text, b"type t", i)?;
        text.extend_from_slice(b";\n")?;
    }
    text.extend_from_slice(RULES)?;
    Ok(text)
}

#[test]
fn violations_behind_many_types(rt: HostRuntime) {
    let text = many_types(rt.alloc());
    let text = text.ok().expect(&rt, "memory");
    let words = words_of(&rt, rt.alloc(), &text);
    let words = words.ok().expect(&rt, "memory");
    assert_eq!(rt; words.as_slice(), BROKEN);
}

#[test]
fn rules_that_cannot_be_read(rt: HostRuntime) {
    for (text, wanted) in [
        (b"type a".as_slice(), b"rules: syntax at line 1".as_slice()),
        (b"type a;\ntype a;", b"rules: declared twice at line 2"),
        (
            b"type a;\nallow a b:binder call;",
            b"rules: unknown name at line 2",
        ),
    ] {
        let Err(fault) = Violations::read(rt.alloc(), text) else {
            panic!(rt; "read");
        };
        let words = refused_text(rt.alloc(), &fault);
        let words = words.ok().expect(&rt, "memory");
        assert_eq!(rt; words.as_slice(), wanted);
    }
}
