//! Policy sources: which are refused, what their sets denote, what they allow, and what breaks them.

ghost use Rattle.sm_types.specs.Members.{IsOf};

use super::statements::accepted;
use sm_matrices::{Matrices, Vectors};
use sm_neverallow::{NumberedViolation, first_violation};
use sm_rules::{Rules, RulesFault};
use sm_ruletext::Statement;
use sm_samples::DEVICE_RULES;
use sm_types::Types;
use sm_values::{Class, Perms, push_numbered};
use std::alloc::{AllocError, Global};
use std::process::Abort;

fn types_of(rt: &impl Abort, alloc: Global, statements: &[Statement]) -> Types
    ensures { IsOf statements.now result }
{
    Types::build(alloc, statements).ok().expect(rt, "types")
}

fn rules_of(rt: &impl Abort, alloc: Global, text: &[u8]) -> Rules {
    let statements = accepted(rt, alloc, text);
    let types = types_of(rt, alloc, &statements);
    let rules = Rules::build(alloc, &statements, &types);
    rules.ok().expect(rt, "rules")
}

fn fault_of(rt: &impl Abort, alloc: Global, text: &[u8]) -> Option<RulesFault> {
    let statements = accepted(rt, alloc, text);
    let types = types_of(rt, alloc, &statements);
    Rules::build(alloc, &statements, &types).err()
}

const FAULTS: [(&[u8], Option<RulesFault>); 8] = [
    (
        b"type a;\nallow a b:binder call;",
        Some(RulesFault::Unknown(2)),
    ),
    (
        b"type a;\nallow a a:binder find;",
        Some(RulesFault::UnknownPermission(2)),
    ),
    (b"type a;\nallow a a:{ binder file } find;", None),
    (b"type a;\nallow a a:{ binder -file } find;", None),
    (
        b"type a;\nallow a a:binder ~find;",
        Some(RulesFault::UnknownPermission(2)),
    ),
    (b"type a;\nallow x y:file read;", None),
    // The names of types come first within a rule, and the first rule before the second.
    (
        b"type a;\nallow a b:binder find;\nallow a a:binder x;",
        Some(RulesFault::Unknown(2)),
    ),
    (
        b"type a;\nneverallow a a:binder x;\nallow a b:binder call;",
        Some(RulesFault::UnknownPermission(2)),
    ),
];

#[test]
fn faults(rt: HostRuntime) {
    for (text, fault) in FAULTS {
        let found = fault_of(&rt, rt.alloc(), text);
        assert!(rt; found == fault);
    }
}

// Rules and vectors are looked up by the indexes of types; there is no third type.
const PERMISSIVE: &[u8] = b"type a;\ntype b;\npermissive a;\ndontaudit b self:binder call;\n";

#[test]
fn permissive_and_silenced(rt: HostRuntime) {
    let rules = rules_of(&rt, rt.alloc(), PERMISSIVE);
    for (index, permissive) in [(0, true), (1, false), (2, false)] {
        assert_eq!(rt; (index, rules.permissive(index)), (index, permissive));
    }
    for (source, target, class, silenced) in [
        (1, 1, Class::Binder, true),
        (1, 0, Class::Binder, false),
        (0, 0, Class::Binder, false),
        (2, 2, Class::Binder, false),
        (1, 1, Class::ServiceManager, false),
    ] {
        let found = rules.silenced(source, target, class, Perms::CALL);
        assert_eq!(rt; (source, target, found), (source, target, silenced));
    }
}

fn vectors_of(rt: &impl Abort, alloc: Global, text: &[u8]) -> Vectors {
    let rules = rules_of(rt, alloc, text);
    let Ok(matrices) = Matrices::compile(alloc, &rules) else {
        panic!(rt; "memory");
    };
    let vectors = Vectors::compile(alloc, &rules, matrices);
    vectors.ok().expect(rt, "vectors")
}

#[test]
fn permissive_and_silenced_vectors(rt: HostRuntime) {
    let vectors = vectors_of(&rt, rt.alloc(), PERMISSIVE);
    for (source, target, wanted) in [
        (0, 1, (true, true)),
        (1, 1, (false, false)),
        (0, 2, (false, true)),
        (2, 0, (false, true)),
    ] {
        let decision = vectors.decide(source, target, Class::Binder, Perms::CALL);
        let found = (decision.allowed, decision.audited);
        assert_eq!(rt; (source, target, found), (source, target, wanted));
    }
}

fn line_of_kept(rules: &Rules, index: u32) -> Option<u32> {
    Some(rules.kept(index)?.line)
}

// The allow rules of a device, which has a neverallow rule after them.
#[test]
fn kept_rules(rt: HostRuntime) {
    let rules = rules_of(&rt, rt.alloc(), DEVICE_RULES);
    for (index, line) in [(0, Some(9)), (6, Some(15)), (7, None)] {
        assert_eq!(rt; (index, line_of_kept(&rules, index)), (index, line));
    }
}

/// The line of the rule that grants an access: the same by the names of types and by their indexes.
fn line(
    rt: &impl Abort,
    alloc: Global,
    text: &[u8],
    (source, target): (&[u8], &[u8]),
    class: Class,
    perm: Perms,
) -> Option<u32> {
    let statements = accepted(rt, alloc, text);
    let types = types_of(rt, alloc, &statements);
    let rules = Rules::build(alloc, &statements, &types);
    let rules = rules.ok().expect(rt, "rules");
    let named = rules.written_by_name(&types, source, target, class, perm);
    let source = types.index(source).expect(rt, "a source");
    let target = types.index(target).expect(rt, "a target");
    let line = rules.written(source, target, class, perm);
    assert_eq!(rt; named, line);
    line
}

const APP: &[u8] = b"isolated_app";

const SERVICE: &[u8] = b"activity_service";

const MANAGER: &[u8] = b"servicemanager";

const SETS: &[u8] = b"attribute d;\ntype a, d;\ntype b;\nallow { * -a } ~d:binder *;\n";

// The attribute is given after the rule that names it.
const LATER: &[u8] = b"attribute d;\ntype a;\nallow d d:binder call;\ntypeattribute a d;\n";

/// A text, a source, a target, a class, a permission and the line that grants it.
type Granted = (
    &'static [u8],
    &'static [u8],
    &'static [u8],
    Class,
    u8,
    Option<u32>,
);

const LINES: [Granted; 9] = [
    (DEVICE_RULES, MANAGER, MANAGER, Class::Binder, 32, Some(9)),
    (DEVICE_RULES, APP, APP, Class::Binder, 32, None),
    (
        DEVICE_RULES,
        APP,
        SERVICE,
        Class::ServiceManager,
        2,
        Some(13),
    ),
    // Two permissions are no single one, and a permission of the other class is none.
    (DEVICE_RULES, APP, MANAGER, Class::Binder, 80, None),
    (DEVICE_RULES, APP, SERVICE, Class::Binder, 2, None),
    (SETS, b"b", b"b", Class::Binder, 8, Some(4)),
    (SETS, b"a", b"b", Class::Binder, 8, None),
    (SETS, b"b", b"a", Class::Binder, 8, None),
    (LATER, b"a", b"a", Class::Binder, 16, Some(3)),
];

#[test]
fn lines(rt: HostRuntime) {
    for (text, source, target, class, perm, wanted) in LINES {
        let found = line(&rt, rt.alloc(), text, (source, target), class, Perms(perm));
        assert_eq!(rt;
            (source, target, perm, found),
            (source, target, perm, wanted)
        );
    }
}

// `find` is no permission of binder, and no rule of another class than the manager's two is kept.
#[test]
fn a_permission_of_none_of_the_classes_writes_nothing(rt: HostRuntime) {
    let without = b"type a;\nallow a a:{ binder file } find;\n".as_slice();
    let with = b"type a;\nallow a a:{ binder service_manager } find;\n".as_slice();
    for (text, class, granted) in [
        (without, Class::ServiceManager, 0),
        (without, Class::Binder, 0),
        (with, Class::ServiceManager, 2),
        (with, Class::Binder, 0),
    ] {
        for perm in [1, 2, 4, 8, 16, 32, 64] {
            let wanted = if perm == granted { Some(2) } else { None };
            let found = line(&rt, rt.alloc(), text, (b"a", b"a"), class, Perms(perm));
            assert_eq!(rt; (text, perm, found), (text, perm, wanted));
        }
    }
}

/// A source, a target, a class and a permission, after a letter for them.
type Lettered = (u8, &'static [u8], &'static [u8], Class, u8);

/// Adds declarations, and a rule of three parts.
fn add_rule(
    text: &mut Vec<u8>,
    before: &[u8],
    set: &[u8],
    behind: &[u8],
) -> Result<(), AllocError> {
    text.extend_from_slice(b"attribute d;\ntype a, d;\ntype b, d;\ntype c;\n")?;
    text.extend_from_slice(before)?;
    text.extend_from_slice(set)?;
    text.extend_from_slice(behind)
}

/// Asserts that a text grants just the accesses with these letters.
fn assert_grants(
    rt: &impl Abort,
    alloc: Global,
    text: &[u8],
    letters: &str,
    accesses: &[Lettered],
) {
    for (letter, source, target, class, perm) in accesses {
        let found = line(rt, alloc, text, (source, target), *class, Perms(*perm));
        let wanted = letters.as_bytes().contains(letter);
        assert_eq!(rt; (text, *letter, found.is_some()), (text, *letter, wanted));
    }
}

const OF_SOURCES: [Lettered; 3] = [
    (b'a', b"a", b"c", Class::Binder, 16),
    (b'b', b"b", b"c", Class::Binder, 16),
    (b'c', b"c", b"c", Class::Binder, 16),
];

const OF_TARGETS: [Lettered; 3] = [
    (b'a', b"c", b"a", Class::Binder, 16),
    (b'b', b"c", b"b", Class::Binder, 16),
    (b'c', b"c", b"c", Class::Binder, 16),
];

const OF_CLASSES: [Lettered; 2] = [
    (b's', b"a", b"b", Class::ServiceManager, 2),
    (b'b', b"a", b"b", Class::Binder, 16),
];

const OF_PERMISSIONS: [Lettered; 4] = [
    (b'i', b"a", b"b", Class::Binder, 8),
    (b'c', b"a", b"b", Class::Binder, 16),
    (b's', b"a", b"b", Class::Binder, 32),
    (b't', b"a", b"b", Class::Binder, 64),
];

/// Sets of types. Each line has a set, behind the types that it denotes.
const TYPE_SETS: &str = "abc: *
a: a
ab: d
bc: ~a
c: ~d
c: ~{ a b }
ac: ~{ d -a }
abc: ~{ -a }
ac: { a c }
b: { d -a }
c: { * -d }
a: { a { d -b } }
: { -a }
";

/// Sets of targets with `self`, where the source is `c`.
const OWN_SETS: &str = "c: self
c: { self -c }
ac: { a { self } }
ac: { * -b -c self }
";

/// Sets of classes, each behind the letters of the accesses that a rule with it grants.
const CLASS_SETS: &str = "sb: *
b: binder
s: ~binder
s: ~{ binder file }
sb: { binder service_manager }
s: { * -binder }
s: { binder { service_manager -binder } }
b: { binder -file }
";

/// Sets of permissions, in the same way.
const PERMISSION_SETS: &str = "icst: *
c: call
ist: ~call
is: ~{ call transfer }
ct: { call transfer }
ist: { * -call }
t: { call { transfer -call } }
: { -call }
";

#[test]
fn what_sets_denote(rt: HostRuntime) {
    for (before, sets, behind, accesses) in [
        (
            b"allow ".as_slice(),
            TYPE_SETS,
            b" c:binder call;\n".as_slice(),
            OF_SOURCES.as_slice(),
        ),
        (b"allow c ", TYPE_SETS, b":binder call;\n", &OF_TARGETS),
        (b"allow c ", OWN_SETS, b":binder call;\n", &OF_TARGETS),
        (b"allow a b:", CLASS_SETS, b" *;\n", &OF_CLASSES),
        (
            b"allow a b:binder ",
            PERMISSION_SETS,
            b";\n",
            &OF_PERMISSIONS,
        ),
    ] {
        for line in sets.lines() {
            let (letters, set) = line.split_once(": ").expect(&rt, "letters and a set");
            let mut text = Vec::new(rt.alloc());
            let added = add_rule(&mut text, before, set.as_bytes(), behind);
            added.ok().expect(&rt, "memory");
            assert_grants(&rt, rt.alloc(), &text, letters, accesses);
        }
    }
}

/// The lines of a neverallow rule and of an allow rule that breaks it, a source and a target, a class and a permission.
type Broken = ((u32, u32), (u16, u16), (Class, Perms));

const CALL: (Class, Perms) = (Class::Binder, Perms(16));

const TRANSFER: (Class, Perms) = (Class::Binder, Perms(64));

fn broken(found: Option<NumberedViolation>) -> Option<Broken> {
    let found = found?;
    let lines = (found.never_line, found.allow_line);
    let types = (found.source, found.target);
    Some((lines, types, (found.class, found.perm)))
}

fn violation(rt: &impl Abort, alloc: Global, text: &[u8]) -> Option<Broken> {
    let rules = rules_of(rt, alloc, text);
    let Ok(matrices) = Matrices::compile(alloc, &rules) else {
        panic!(rt; "memory");
    };
    let found = first_violation(alloc, &rules, &matrices);
    broken(found.ok().expect(rt, "memory"))
}

const VIOLATIONS: [(&[u8], Option<Broken>); 4] = [
    (DEVICE_RULES, None),
    // The first neverallow rule that is broken, by the first allow rule, then the least of each.
    (
        b"type a;\ntype b;\nallow b { b a }:binder { transfer call };\nallow * *:binder *;\n\
        neverallow * *:service_manager *;\nneverallow { a b } *:binder { call transfer };\n\
        neverallow * *:binder *;\n",
        Some(((6, 3), (1, 0), CALL)),
    ),
    // The first rule of the text, though that of fewer permissions is broken too. Each of its
    // permissions counts, whichever allow rule gives it.
    (
        b"type a;\ntype b;\nallow a b:service_manager add;\n\
        allow a a:binder { call transfer };\n\
        neverallow a a:{ binder service_manager } { find transfer };\n\
        neverallow a a:binder call;\n",
        Some(((5, 4), (0, 0), TRANSFER)),
    ),
    // `self` alone meets itself.
    (
        b"type a;\ntype b;\nallow b self:binder call;\nneverallow * self:binder call;\n",
        Some(((4, 3), (1, 1), CALL)),
    ),
];

#[test]
fn violations(rt: HostRuntime) {
    for (text, wanted) in VIOLATIONS {
        assert!(rt; violation(&rt, rt.alloc(), text) == wanted);
    }
}

/// The number of types in the text of the test below: eight groups of eight, and a part of one more.
const TYPES: u32 = 70;

/// Adds the types t0, t1 and so on, a line for each.
fn add_types(text: &mut Vec<u8>) -> Result<(), AllocError> {
    for i in 0..TYPES {
        push_numbered(text, b"type t", i as u64)?;
        text.extend_from_slice(b";\n")?;
    }
    Ok(())
}

/// The number of neverallow rules in it: enough for them to be checked by groups of sources.
const NEVERS: u32 = 220;

/// Adds neverallow rules that are all the same but for two, those with the indexes 50 and 60.
fn add_nevers(
    text: &mut Vec<u8>,
    same: &[u8],
    first: &[u8],
    second: &[u8],
) -> Result<(), AllocError> {
    for place in 0..NEVERS {
        let never = match place {
            50 => first,
            60 => second,
            _ => same,
        };
        text.extend_from_slice(never)?;
    }
    Ok(())
}

/// Allow rules, and the neverallow rule that most of the neverallow rules are.
type AllowsAndNever = (&'static [u8], &'static [u8]);

const BY_NAME: AllowsAndNever = (
    b"allow t69 t0:binder call;\nallow t2 t0:binder call;\n",
    b"neverallow { * -t69 -t2 } *:binder call;\n",
);

const BY_SELF: AllowsAndNever = (
    b"allow t66 self:binder call;\nallow t2 t0:binder call;\n",
    b"neverallow { * -t66 -t2 } { self t66 }:binder call;\n",
);

const KEPT: AllowsAndNever = (b"allow * t4:binder call;\n", OWN);

const LAST_GROUP: &[u8] = b"neverallow t69 t0:binder call;\n";

const FIRST_GROUP: &[u8] = b"neverallow t2 t0:binder call;\n";

const OWN: &[u8] = b"neverallow { t66 t3 } self:binder call;\n";

/// Rules, the two other neverallow rules among them, and the line of the allow rule that breaks the first of the two,
/// with the source and the target.
type Nevers = (
    AllowsAndNever,
    &'static [u8],
    &'static [u8],
    Option<(u32, u16, u16)>,
);

const MANY_NEVERS: [Nevers; 6] = [
    // The later rule of the text is hit by an earlier group of sources, and the other way round.
    (BY_NAME, LAST_GROUP, FIRST_GROUP, Some((71, 69, 0))),
    (BY_NAME, FIRST_GROUP, LAST_GROUP, Some((72, 2, 0))),
    // By `self` alone, on either side, and the first of the two ways.
    (BY_SELF, FIRST_GROUP, OWN, Some((72, 2, 0))),
    (BY_SELF, OWN, FIRST_GROUP, Some((71, 66, 66))),
    (BY_SELF, OWN, OWN, Some((71, 66, 66))),
    (KEPT, OWN, OWN, None),
];

/// The line of the first of the two, behind two allow rules.
const NEVER_LINE: u32 = 123;

#[test]
fn first_of_many_neverallow_rules(rt: HostRuntime) {
    for ((allows, same), first, second, breach) in MANY_NEVERS {
        let mut text = Vec::new(rt.alloc());
        add_types(&mut text).ok().expect(&rt, "memory");
        let added = text.extend_from_slice(allows);
        added.ok().expect(&rt, "memory");
        let added = add_nevers(&mut text, same, first, second);
        added.ok().expect(&rt, "memory");
        let wanted = breach.map(|(allow, source, target)| (
            (NEVER_LINE, allow),
            (source, target),
            CALL,
        ));
        assert!(rt; violation(&rt, rt.alloc(), &text) == wanted);
    }
}
