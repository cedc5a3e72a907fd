//! The lines of checks, and writers that fail at them.

use super::fixture::{DEVICE, Files};
use super::lines::same_lines;
use sm_engine::{Counted, Fault};
use sm_policy::Prepared;
use sm_questions::{all_shown_lines, check, check_all};
use sm_samples::{BROKEN_RULE, DEVICE_LABELS, DEVICE_RULES, FailAt, OneByte};
use sm_values::push_numbered;
use std::alloc::{AllocError, Global};
use std::io::Write;
use std::process::Abort;

const ACCEPTED: &[u8] = b"policy ok: 6 types, 2 attributes, 8 rules, 2 labels\n";

// Checks a policy source and a contexts file, with the expected line; returns whether they are a policy's.
fn tells(rt: &impl Abort, alloc: Global, rules: &[u8], contexts: &[u8], line: &[u8]) -> bool {
    let mut writer = Counted::new(Vec::new(alloc));
    let result = check(alloc, rules, contexts, &mut writer);
    same_lines(rt, b"", &writer.into_inner(), line);
    result.ok().expect(rt, "a line").is_none()
}

// What is skipped isn't counted, nor is a dontaudit rule. An allow rule with a kept class is, also if it allows
// nothing.
const SMALL_POLICIES: &[(&[u8], &[u8], &[u8])] = &[
    (
        b"auditallow x y:z { w };\ntype a;",
        b"* u:r:a",
        b"policy ok: 1 types, 0 attributes, 0 rules, 1 labels\n",
    ),
    (
        b"type a;\nallow x y:file read;",
        b"* u:r:a",
        b"policy ok: 1 types, 0 attributes, 0 rules, 1 labels\n",
    ),
    (
        b"type a;\nallow a a:{ binder file } find;",
        b"* u:r:a",
        b"policy ok: 1 types, 0 attributes, 1 rules, 1 labels\n",
    ),
    (
        b"attribute d;\ntype a, d;\ntype b;\nallow { * -a } ~d:binder *;",
        b"* u:r:a",
        b"policy ok: 2 types, 1 attributes, 1 rules, 1 labels\n",
    ),
    (
        b"type a;\ntype b;\nallow { a b } self:binder call;\nneverallow a b:binder call;\nneverallow a b:file read;",
        b"* u:r:a",
        b"policy ok: 2 types, 0 attributes, 2 rules, 1 labels\n",
    ),
    (
        b"type a;\npermissive a;\nallow a a:binder call;\ndontaudit a a:binder *;",
        b"* u:r:a",
        b"policy ok: 1 types, 0 attributes, 1 rules, 1 labels\n",
    ),
    (
        b"type x;\ntype d;",
        b"activity u:object_r:x:s0\nactivity u:object_r:x:s0\n* u:object_r:d:s0",
        b"policy ok: 2 types, 0 attributes, 0 rules, 2 labels\n",
    ),
];

#[test]
fn small_policies(rt: HostRuntime) {
    for (rules, contexts, line) in SMALL_POLICIES {
        assert!(rt; tells(&rt, rt.alloc(), rules, contexts, line));
    }
}

// Neither a permissive type nor a dontaudit rule is counted.
const DEVICES: &[(&[u8], &[u8], bool)] = &[
    (b"", ACCEPTED, true),
    (
        b"permissive untrusted_app;\ndontaudit untrusted_app *:service_manager { find list };\n",
        ACCEPTED,
        true,
    ),
    (
        BROKEN_RULE,
        b"policy refused: neverallow at line 16 by allow at line 17: untrusted_app activity_service service_manager add\n",
        false,
    ),
];

#[test]
fn a_devices_policy_with_further_rules(rt: HostRuntime) {
    for (more, line, is_accepted) in DEVICES {
        let files = Files { more, ..DEVICE };
        let rules = files.source(&rt, rt.alloc());
        assert_eq!(rt;
            tells(&rt, rt.alloc(), &rules, DEVICE_LABELS, line),
            *is_accepted
        );
    }
}

// 2,000 types of 500 attributes, 30,000 allow rules and 1,000 neverallow rules: lines, and how often they are repeated.
const PHONE_RULES: [(u32, &[u8]); 4] = [
    (500, b"attribute d#;\n"),
    (2000, b"type t$, d#, d@;\n"),
    (
        15_000,
        b"allow t$ t&:binder { call transfer };\nallow d# { t& t$ }:service_manager ~add;\n",
    ),
    (
        500,
        b"neverallow { d# -t# } *:service_manager add;\nneverallow ~d# self:binder set_context_mgr;\n",
    ),
];

// Appends lines. In the Ith repetition, signs are replaced by these numbers.
fn push_rules(text: &mut Vec<u8>, lines: &[u8], i: u32) -> Result<(), AllocError> {
    for byte in lines {
        let number = match byte {
            b'#' => i % 500,
            b'@' => i.saturating_add(7) % 500,
            b'$' => i % 2000,
            b'&' => i.saturating_mul(7) % 2000,
            _ => {
                text.push(*byte)?;
                continue;
            }
        };
        push_numbered(text, b"", u64::from(number))?;
    }
    Ok(())
}

fn phone_rules(alloc: Global) -> Result<Vec<u8>, AllocError> {
    let mut text = Vec::new(alloc);
    for (count, lines) in PHONE_RULES {
        for i in 0..count {
            push_rules(&mut text, lines, i)?;
        }
    }
    text.extend_from_slice(b"allow t1999 t3:service_manager add;\n")?;
    Ok(text)
}

#[test]
fn a_policy_of_a_phones_size(rt: HostRuntime) {
    let rules = phone_rules(rt.alloc()).ok().expect(&rt, "memory");
    let line =
        b"policy refused: neverallow at line 32513 by allow at line 33501: t1999 t3 service_manager add\n";
    assert!(rt; !tells(&rt, rt.alloc(), &rules, b"* u:r:t0", line));
}

// Files, the lines of a check with all violations, and the statements that are shown.
struct Judged {
    rules: &'static [u8],
    contexts: &'static [u8],
    lines: &'static [u8],
    shown: &'static [u8],
}

const JUDGED: &[Judged] = &[
    Judged {
        rules: b"type a;\nneverallow a a:binder call;\nallow a a:binder transfer;",
        contexts: b"* u:r:a",
        lines: b"policy ok: 1 types, 0 attributes, 2 rules, 1 labels\n",
        shown: b"",
    },
    // Of other faults the first one alone, also where neverallow rules are broken.
    Judged {
        rules: b"type a;\nneverallow a a:binder call;\nallow a a:binder call;\nallow a a:binder *;",
        contexts: b"* u:r:b",
        lines: b"policy refused: contexts: undeclared type at line 1\n",
        shown: b"labels:1: * u:r:b\n",
    },
    // Rules that follow each other, and statements of which two are on one line and one on two.
    Judged {
        rules: b"type a; type b;\nallow a b:binder call; allow b a:binder call;\nallow a {\n  a b }:binder *;\n\
            neverallow b a:binder { call transfer };\nneverallow b b:binder call;\nneverallow a *:binder call;\n",
        contexts: b"* u:r:a",
        lines: b"policy refused: neverallow at line 5 by allow at line 2: b a binder call\n\
            policy refused: neverallow at line 7 by allow at line 2: a b binder call\n\
            policy refused: neverallow at line 7 by allow at line 3: a a binder call\n",
        shown: b"t.te:5: neverallow b a:binder { call transfer };\n\
            t.te:2: allow a b:binder call; allow b a:binder call;\n\
            t.te:7: neverallow a *:binder call;\nt.te:3: allow a { a b }:binder *;\n",
    },
];

fn judges(rt: &impl Abort, alloc: Global, judged: &Judged) {
    let (rules, contexts) = (judged.rules, judged.contexts);
    let mut writer = Counted::new(Vec::new(alloc));
    let refusal = check_all(alloc, rules, contexts, &mut writer);
    same_lines(rt, rules, &writer.into_inner(), judged.lines);
    let Some(fault) = refusal.ok().expect(rt, "lines") else {
        assert!(rt; Prepared::from_texts(alloc, rules, contexts).is_ok());
        return;
    };
    let shown = all_shown_lines(alloc, b"t.te", rules, b"labels", contexts, &fault);
    same_lines(rt, rules, &shown.ok().expect(rt, "memory"), judged.shown);
}

#[test]
fn all_violations_are_told(rt: HostRuntime) {
    for judged in JUDGED {
        judges(&rt, rt.alloc(), judged);
    }
}

// Checks a device's policy: whether it is accepted, and how many writes failed.
fn device_check<W: Write>(alloc: Global, writer: &mut W) -> (Result<bool, Fault>, u64) {
    let mut writer = Counted::new(writer);
    let accepted = match check(alloc, DEVICE_RULES, DEVICE_LABELS, &mut writer) {
        Ok(refusal) => Ok(refusal.is_none()),
        Err(fault) => Err(fault),
    };
    (accepted, writer.failures())
}

// The Nth write fails, one byte a write. Whether there was an Nth write.
fn write_fails(rt: &impl Abort, alloc: Global, n: u32) -> bool {
    let mut writer = FailAt {
        inner: OneByte(Vec::new(alloc)),
        left: n,
    };
    let told = device_check(alloc, &mut writer);
    let written = writer.inner.0;
    assert!(rt; ACCEPTED.starts_with(&written));
    if told.0.is_ok() {
        assert_eq!(rt; written.len(), ACCEPTED.len());
        return false;
    }
    assert!(rt; told == (Err(Fault::WriteFault), 1));
    assert_eq!(rt; written.len() + 1, n as usize);
    true
}

#[test]
fn each_write_of_a_check_fails(rt: HostRuntime) {
    let mut failed = 0u32;
    for n in 1..1000 {
        if !write_fails(&rt, rt.alloc(), n) {
            break;
        }
        failed = n;
    }
    assert_eq!(rt; failed as usize, ACCEPTED.len());
}
