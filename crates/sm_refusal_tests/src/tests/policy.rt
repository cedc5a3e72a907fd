//! Policy sources and contexts files.

use super::manager::policy;
use super::outcome::value;
use sm_contexts::{Contexts, ContextsFault};
use sm_matrices::{Matrices, Vectors};
use sm_neverallow::first_violation;
use sm_policy::{PolicyFault, Prepared, refused_text};
use sm_rules::{Rules, RulesFault};
use sm_ruletext::{RuleKind, RuleTextFault, Statement, What, read};
use sm_samples::{BROKEN_RULE, DEVICE_LABELS, device_rules_with};
use sm_types::{Types, TypesFault};
use sm_values::{Class, Perms};
use std::alloc::Global;
use std::process::Abort;
use std::test::*;

const LABELS: &[u8] = b"activity u:object_r:x:s0\nactivity u:object_r:x:s0\n* u:object_r:d:s0";

fn labels(rt: &impl Abort, alloc: Global) -> Option<()> {
    let contexts = value(rt, Contexts::read(alloc, LABELS), ContextsFault::Memory)?;
    assert!(rt; contexts.label(b"activity").text() == b"u:object_r:x:s0".as_slice());
    assert!(rt; contexts.label(b"power").text() == b"u:object_r:d:s0".as_slice());
    Some(())
}

#[test]
fn labels_are_read(rt: HostRuntime) {
    again!(rt; labels(&rt, rt.alloc()));
}

// The second rule's source and class are those of the first.
const OWN_PAIRS: &[u8] =
    b"type a;\ntype b;\nallow { a b } self:binder call;\nallow { a b } b:binder transfer;\n";

/// Whether the sources of a rule are both types.
fn both_types(rt: &impl Abort, alloc: Global, types: &Types, statement: &Statement) -> Option<()> {
    let What::Rule(RuleKind::Allow, rule) = &statement.what else {
        panic!(rt; "no allow rule");
    };
    let sources = value(rt, types.expand(alloc, &rule.source), TypesFault::Memory)?;
    assert!(rt; sources.has(0) && sources.has(1) && !sources.has(2));
    let copy = rule.source.clone().ok()?;
    assert!(rt; copy.is_same(&rule.source));
    Some(())
}

fn rules(rt: &impl Abort, alloc: Global) -> Option<()> {
    let statements = value(rt, read(alloc, OWN_PAIRS), RuleTextFault::Memory)?;
    assert!(rt; statements.len() == 4);
    let types = value(rt, Types::build(alloc, &statements), TypesFault::Memory)?;
    again!(rt; both_types(rt, alloc, &types, &statements[2]));
    let built = Rules::build(alloc, &statements, &types);
    let rules = value(rt, built, RulesFault::Memory)?;
    assert!(rt; rules.written(0, 0, Class::Binder, Perms::CALL) == Some(3));
    assert!(rt; rules.written(0, 1, Class::Binder, Perms::CALL).is_none());
    assert!(rt; rules.written(0, 1, Class::Binder, Perms::TRANSFER) == Some(4));
    again!(rt; vectors(rt, alloc, &rules));
    Some(())
}

fn vectors(rt: &impl Abort, alloc: Global, rules: &Rules) -> Option<()> {
    let Ok(matrices) = Matrices::compile(alloc, rules) else {
        return None;
    };
    let Ok(violation) = first_violation(alloc, rules, &matrices) else {
        return None;
    };
    assert!(rt; violation.is_none());
    let Ok(vectors) = Vectors::compile(alloc, rules, matrices) else {
        return None;
    };
    assert!(rt; vectors.decide(1, 1, Class::Binder, Perms::CALL).allowed);
    assert!(rt; !vectors.decide(0, 1, Class::Binder, Perms::CALL).allowed);
    Some(())
}

#[test]
fn rules_are_compiled(rt: HostRuntime) {
    again!(rt; rules(&rt, rt.alloc()));
}

const REFUSED: &[u8] =
    b"neverallow at line 16 by allow at line 17: untrusted_app activity_service service_manager add";

fn broken(rt: &impl Abort, alloc: Global) -> Option<()> {
    let rules = device_rules_with(alloc, BROKEN_RULE).ok()?;
    match Prepared::from_texts(alloc, &rules, DEVICE_LABELS) {
        Ok(_) => panic!(rt; "a broken policy was accepted"),
        Err(PolicyFault::Memory) => None,
        Err(fault) => {
            let told = refused_text(alloc, &fault).ok()?;
            assert!(rt; told.as_slice() == REFUSED);
            Some(())
        }
    }
}

#[test]
fn a_broken_policy_is_refused(rt: HostRuntime) {
    again!(rt; broken(&rt, rt.alloc()));
}

fn shares(rt: &impl Abort, policy: &Prepared) -> Option<()> {
    let other = policy.share().ok()?;
    let line = other.why(
        b"untrusted_app",
        b"activity_service",
        Class::ServiceManager,
        Perms::FIND,
    );
    assert!(rt; line == Some(13));
    Some(())
}

fn shared(rt: &impl Abort, alloc: Global) -> Option<()> {
    let policy = policy(rt, alloc)?;
    again!(rt; shares(rt, &policy));
    Some(())
}

#[test]
fn a_policy_is_shared(rt: HostRuntime) {
    again!(rt; shared(&rt, rt.alloc()));
}
