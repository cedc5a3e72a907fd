//! Policies from their two texts: what is refused, what is counted, who may do what.

use super::statements::{accepted, repeated};
use sm_contexts::ContextsFault;
use sm_policy::*;
use sm_ruletext::RuleTextFault;
use sm_samples::{DEVICE_LABELS, DEVICE_RULES, device_rules_with};
use sm_types::TypesFault;
use sm_values::{Class, Perms};
use std::alloc::{AllocError, Global};
use std::process::Abort;

fn prepared(rt: &impl Abort, alloc: Global, rules: &[u8], labels: &[u8]) -> Prepared {
    let prepared = Prepared::from_texts(alloc, rules, labels);
    prepared.ok().expect(rt, "a policy")
}

/// Asserts that two texts are refused with this message, or accepted where it is `accepted`.
fn assert_refusal(rt: &impl Abort, alloc: Global, rules: &[u8], labels: &[u8], wanted: &[u8]) {
    let text = match Prepared::from_texts(alloc, rules, labels) {
        Ok(_) => Vec::from_slice(alloc, b"accepted"),
        Err(fault) => refused_text(alloc, &fault),
    };
    let text = text.ok().expect(rt, "memory");
    assert_eq!(rt; (rules, text.as_slice()), (rules, wanted));
}

/// Rules, contexts and the message that refuses them.
const REFUSALS: [(&[u8], &[u8], &[u8]); 19] = [
    (DEVICE_RULES, DEVICE_LABELS, b"accepted"),
    (b"type a;\ntype b", b"", b"rules: syntax at line 2"),
    (
        b"type a;\nrole a;",
        b"",
        b"rules: unsupported statement at line 2",
    ),
    (
        b"type a;\n\ntype a;",
        b"",
        b"rules: declared twice at line 3",
    ),
    (b"type a, b;", b"", b"rules: unknown name at line 1"),
    (
        b"type a;\npermissive b;\nallow a b:binder call;",
        b"",
        b"rules: unknown name at line 2",
    ),
    (
        b"attribute d;\ntype a, d;\npermissive d;",
        b"",
        b"rules: unknown name at line 3",
    ),
    (
        b"type a;\ndontaudit a b:binder call;\npermissive b;",
        b"",
        b"rules: unknown name at line 2",
    ),
    (
        b"type a;\ndontaudit a a:binder find;",
        b"",
        b"rules: unknown permission at line 2",
    ),
    (
        b"type a;\nallow a b:binder call;",
        b"",
        b"rules: unknown name at line 2",
    ),
    (
        b"type a;\nallow a a:binder find;",
        b"",
        b"rules: unknown permission at line 2",
    ),
    (DEVICE_RULES, b"* u:r", b"contexts: bad line 1"),
    (DEVICE_RULES, b"#\n", b"contexts: no default"),
    (
        DEVICE_RULES,
        b"* u:r:system_server\n* u:r:system_server",
        b"contexts: second default at line 2",
    ),
    (
        DEVICE_RULES,
        b"a u:r:x\n\na u:r:y",
        b"contexts: line 3 gives another context than line 1",
    ),
    (
        DEVICE_RULES,
        b"# labels\n* u:r:system_server\na u:r:b:s0\na u:r:b:s0",
        b"contexts: undeclared type at line 3",
    ),
    (
        b"attribute system_server;",
        b"* u:r:system_server",
        b"contexts: undeclared type at line 1",
    ),
    (b"type system_server", b"* u:r", b"rules: syntax at line 1"),
    (b"", b"", b"contexts: no default"),
];

#[test]
fn refusals(rt: HostRuntime) {
    for (rules, labels, wanted) in REFUSALS {
        assert_refusal(&rt, rt.alloc(), rules, labels, wanted);
    }
    assert_refusal(
        &rt,
        rt.alloc(),
        DEVICE_RULES.get(..40).expect(&rt, "a front"),
        DEVICE_LABELS,
        b"contexts: undeclared type at line 2",
    );
}

// Texts over their limits are made in the tests of each reader.
#[test]
fn words_for_texts_over_their_limits(rt: HostRuntime) {
    for (fault, wanted) in [
        (
            PolicyFault::Rules(RuleTextFault::TooLarge),
            b"rules: too large".as_slice(),
        ),
        (
            PolicyFault::Rules(RuleTextFault::TooMany),
            b"rules: too many",
        ),
        (PolicyFault::Types(TypesFault::TooMany), b"rules: too many"),
        (
            PolicyFault::Contexts(ContextsFault::TooLarge),
            b"contexts: too large",
        ),
    ] {
        let text = refused_text(rt.alloc(), &fault);
        let text = text.ok().expect(&rt, "memory");
        assert_eq!(rt; text.as_slice(), wanted);
    }
}

/// Rules after those of the device, and the rule that breaks a neverallow rule.
const VIOLATIONS: [(&[u8], &[u8]); 2] = [
    (
        b"allow untrusted_app activity_service:service_manager add;\n",
        b"neverallow at line 16 by allow at line 17: untrusted_app activity_service service_manager add",
    ),
    (
        b"neverallow binderuser { servicemanager activity_service }:{ binder service_manager } { transfer find };\n",
        b"neverallow at line 17 by allow at line 10: system_server servicemanager binder transfer",
    ),
];

#[test]
fn violations(rt: HostRuntime) {
    for (more, expected) in VIOLATIONS {
        let rules = device_rules_with(rt.alloc(), more);
        let rules = rules.ok().expect(&rt, "memory");
        assert_refusal(&rt, rt.alloc(), &rules, DEVICE_LABELS, expected);
    }
}

#[test]
fn counts_and_labels(rt: HostRuntime) {
    let prepared = prepared(&rt, rt.alloc(), DEVICE_RULES, DEVICE_LABELS);
    let counts = prepared.counts();
    assert_eq!(rt;
        (counts.types, counts.attributes, counts.rules, counts.labels),
        (6, 2, 8, 2)
    );
    let snapshot = Snapshot::new(prepared.share().ok().expect(&rt, "memory"), 7);
    assert_eq!(rt; snapshot.version(), 7);
    for (name, label, label_type, index) in [
        (
            b"activity".as_slice(),
            b"u:object_r:activity_service:s0".as_slice(),
            b"activity_service".as_slice(),
            4,
        ),
        (
            b"phone",
            b"u:object_r:default_android_service:s0",
            b"default_android_service",
            5,
        ),
    ] {
        let labelled = prepared.labelled(name);
        assert_eq!(rt; (labelled.context.text(), labelled.index), (label, index));
        let found = (snapshot.label(name).text(), snapshot.label_type(name));
        assert_eq!(rt; found, (label, label_type));
    }
}

const SERVER: &[u8] = b"system_server";

const APP: &[u8] = b"untrusted_app";

const SERVICE: &[u8] = b"activity_service";

const MANAGER: &[u8] = b"servicemanager";

/// Accesses, and the lines of the rules of the device that grant them.
const ACCESSES: [(&[u8], &[u8], Class, Perms, Option<u32>); 9] = [
    (APP, SERVER, Class::Binder, Perms::CALL, Some(15)),
    (SERVER, APP, Class::Binder, Perms::CALL, None),
    (APP, SERVICE, Class::ServiceManager, Perms::FIND, Some(13)),
    (APP, SERVICE, Class::Binder, Perms::FIND, None),
    (
        MANAGER,
        MANAGER,
        Class::Binder,
        Perms::SET_CONTEXT_MGR,
        Some(9),
    ),
    (SERVER, SERVER, Class::Binder, Perms::SET_CONTEXT_MGR, None),
    (SERVER, SERVICE, Class::ServiceManager, Perms::ADD, Some(12)),
    (APP, SERVICE, Class::ServiceManager, Perms::ADD, None),
    (b"domain", MANAGER, Class::Binder, Perms::CALL, None),
];

#[test]
fn answers(rt: HostRuntime) {
    let prepared = prepared(&rt, rt.alloc(), DEVICE_RULES, DEVICE_LABELS);
    let snapshot = Snapshot::new(prepared, 1);
    for (source, target, class, perm, line) in ACCESSES {
        let why = snapshot.why(source, target, class, perm);
        let allowed = snapshot.allows(source, target, class, perm);
        assert!(rt; (why, allowed) == (line, line.is_some()));
    }
}

#[test]
fn types_by_number(rt: HostRuntime) {
    let prepared = prepared(&rt, rt.alloc(), DEVICE_RULES, DEVICE_LABELS);
    let snapshot = Snapshot::new(prepared, 1);
    for (name, index) in [(APP, Some(2)), (SERVER, Some(1)), (b"domain", None)] {
        assert_eq!(rt; snapshot.type_index(name), index);
    }
    // There is no type 6.
    for (source, target, class, allowed) in [
        (2, 1, Class::Binder, true),
        (1, 2, Class::Binder, false),
        (2, 1, Class::ServiceManager, false),
        (6, 1, Class::Binder, false),
        (1, 6, Class::Binder, false),
    ] {
        let found = snapshot.allows_at(source, target, class, Perms::CALL);
        assert!(rt; found == allowed);
    }
}

const FEW_TYPES: &[u8] = b"type a;\ntype b;\ntype c;\nallow b a:binder call;\n";

const MORE_TYPES: &[u8] = b"type a;\ntype b;\ntype c;\ntype d;\n\
    allow b { a d }:binder call;\nallow c b:service_manager find;\npermissive a;\n";

/// Whether two sources are allowed the same, if there are as many types as asked for.
fn alike(one: &Prepared, other: &Prepared, source: u16, theirs: u16, end: u16) -> Option<bool> {
    let (mine, others) = (one.counts().types, other.counts().types);
    if u32::from(source) >= mine || u32::from(theirs) >= others {
        return None;
    }
    if u32::from(end) > mine || u32::from(end) > others {
        return None;
    }
    Some(one.grants_alike(other, source, theirs, end))
}

#[test]
fn sources_of_two_policies(rt: HostRuntime) {
    let few = prepared(&rt, rt.alloc(), FEW_TYPES, b"* u:r:a\n");
    let more = prepared(&rt, rt.alloc(), MORE_TYPES, b"* u:r:a\n");
    for (source, theirs, end, wanted) in [
        (1, 1, 3, true),
        // Only the second policy allows `c` to find `b`.
        (2, 2, 1, true),
        (2, 2, 2, false),
        (1, 2, 3, false),
        (0, 3, 3, true),
        // Only the second policy has `a` permissive.
        (0, 0, 0, false),
    ] {
        let found = alike(&few, &more, source, theirs, end);
        assert_eq!(rt; (source, end, found), (source, end, Some(wanted)));
    }
    assert_eq!(rt; alike(&more, &more, 0, 0, 4), Some(true));
    assert_eq!(rt; alike(&more, &more, 1, 1, 4), Some(true));
}

/// A rule whose source is nested this deep in braces.
fn add_nested(text: &mut Vec<u8>, depth: u32) -> Result<(), AllocError> {
    text.extend_from_slice(b"type a;\nallow ")?;
    repeated(text, b"{", depth)?;
    text.extend_from_slice(b"a")?;
    repeated(text, b"}", depth)?;
    text.extend_from_slice(b" a:binder call;")
}

#[test]
fn nested_braces_decide_as_written(rt: HostRuntime) {
    let mut text = Vec::new(rt.alloc());
    let added = add_nested(&mut text, 1_000_000);
    added.ok().expect(&rt, "memory");
    assert_eq!(rt; accepted(&rt, rt.alloc(), &text).len(), 2);
    let prepared = prepared(&rt, rt.alloc(), &text, b"* u:r:a\n");
    for (perm, line) in [(Perms::CALL, Some(2)), (Perms::TRANSFER, None)] {
        assert_eq!(rt; prepared.why(b"a", b"a", Class::Binder, perm), line);
    }
}

/// What a policy decides of two types, by their names: whether the access is allowed, and whether it is audited.
fn decided(
    prepared: &Prepared,
    source: &[u8],
    target: &[u8],
    class: Class,
    perm: Perms,
) -> (bool, bool) {
    let source = prepared.type_index(source);
    let target = prepared.type_index(target);
    let decision = prepared.decide_at(source, target, class, perm);
    (decision.allowed, decision.audited)
}

const SELF_RULES: &[u8] = b"type a;\ntype b;\nallow { a b } self:binder call;\n\
    allow a { self }:service_manager find;\nallow b { self a }:binder transfer;\n";

#[test]
fn self_joins_a_type_to_itself(rt: HostRuntime) {
    let prepared = prepared(&rt, rt.alloc(), SELF_RULES, b"* u:r:a\n");
    for (source, target, wanted) in [
        (
            b"a".as_slice(),
            b"a".as_slice(),
            (Some(3), true, true, false),
        ),
        (b"a", b"b", (None, false, false, false)),
        (b"b", b"a", (None, false, false, true)),
        (b"b", b"b", (Some(3), true, false, true)),
    ] {
        let found = (
            prepared.why(source, target, Class::Binder, Perms::CALL),
            prepared.allows(source, target, Class::Binder, Perms::CALL),
            prepared.allows(source, target, Class::ServiceManager, Perms::FIND),
            prepared.allows(source, target, Class::Binder, Perms::TRANSFER),
        );
        assert_eq!(rt; (source, target, found), (source, target, wanted));
    }
}

// No neverallow rule is held against what a permissive type may do.
const PERMISSIVE_RULES: &[u8] = b"type a;\ntype b;\ntype c;\npermissive b;\npermissive b;\n\
    allow a b:binder call;\nneverallow b a:binder call;\ndontaudit * self:binder call;\n\
    dontaudit a c:{ binder service_manager } { call find };\n";

/// Two types, and whether `binder call` is allowed and audited.
const CALLS: [(&[u8], &[u8], (bool, bool)); 8] = [
    (b"a", b"b", (true, false)),
    (b"a", b"a", (false, false)),
    (b"a", b"c", (false, false)),
    (b"b", b"a", (true, true)),
    (b"b", b"b", (true, false)),
    (b"c", b"a", (false, true)),
    // Neither is declared.
    (b"b", b"x", (false, true)),
    (b"x", b"b", (false, true)),
];

#[test]
fn permissive_and_dontaudit(rt: HostRuntime) {
    let prepared = prepared(&rt, rt.alloc(), PERMISSIVE_RULES, b"* u:r:a\n");
    for (source, target, wanted) in CALLS {
        let found = decided(&prepared, source, target, Class::Binder, Perms::CALL);
        assert_eq!(rt; (source, target, found), (source, target, wanted));
    }
    assert_eq!(rt; prepared.why(b"b", b"a", Class::Binder, Perms::CALL), None);
}

/// Whether a permission of the service manager's class is allowed on `c` and audited.
fn of_manager(snapshot: &Snapshot, source: &[u8], perm: Perms) -> (bool, bool) {
    let class = Class::ServiceManager;
    (
        snapshot.allows(source, b"c", class, perm),
        snapshot.audits(source, b"c", class, perm),
    )
}

#[test]
fn permissive_and_dontaudit_in_a_snapshot(rt: HostRuntime) {
    let prepared = prepared(&rt, rt.alloc(), PERMISSIVE_RULES, b"* u:r:a\n");
    let snapshot = Snapshot::new(prepared, 1);
    for (source, perm, wanted) in [
        (b"a".as_slice(), Perms::FIND, (false, false)),
        (b"b", Perms::FIND, (true, true)),
        // A permission of the other class is none of this one.
        (b"b", Perms::CALL, (false, true)),
    ] {
        let found = of_manager(&snapshot, source, perm);
        assert_eq!(rt; (source, found), (source, wanted));
    }
}
