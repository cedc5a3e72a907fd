//! The declarations of policy sources: which are refused, and the types that sets denote.

use super::statements::accepted;
use sm_ruletext::{RuleKind, Set, What};
use sm_types::{Types, TypesFault};
use std::alloc::{AllocError, Global};
use std::process::Abort;

fn fault_of(rt: &impl Abort, alloc: Global, text: &[u8]) -> Option<TypesFault> {
    Types::build(alloc, &accepted(rt, alloc, text)).err()
}

fn types_of(rt: &impl Abort, alloc: Global, text: &[u8]) -> Types {
    let types = Types::build(alloc, &accepted(rt, alloc, text));
    types.ok().expect(rt, "types")
}

const SETS: &[u8] = b"attribute d;\ntype a, d;\ntype b;\nallow { * -a } ~d:binder *;\n";

#[test]
fn numbers_of_types(rt: HostRuntime) {
    let types = types_of(&rt, rt.alloc(), SETS);
    assert_eq!(rt; (types.count(), types.attribute_count()), (2, 1));
    for (name, number) in [(b"b".as_slice(), Some(1)), (b"d", None)] {
        assert_eq!(rt; types.index(name), number);
    }
    for (number, name) in [(0, Some(b"a".as_slice())), (2, None)] {
        assert_eq!(rt; types.name(number), name);
    }
}

/// Whether a set has the numbers 0, 1 and 2.
fn has(alloc: Global, types: &Types, set: &Set) -> Result<(bool, bool, bool), TypesFault> {
    let row = types.expand(alloc, set)?;
    Ok((row.has(0), row.has(1), row.has(2)))
}

#[test]
fn numbers_in_sets(rt: HostRuntime) {
    let statements = accepted(&rt, rt.alloc(), SETS);
    let types = types_of(&rt, rt.alloc(), SETS);
    for statement in &statements {
        if let What::Rule(RuleKind::Allow, rule) = &statement.what {
            for (set, wanted) in [
                (&rule.source, Ok((false, true, false))),
                (&rule.target, Ok((false, true, false))),
                // The classes' names are no types.
                (&rule.class, Err(TypesFault::Unknown(4))),
            ] {
                assert!(rt; has(rt.alloc(), &types, set) == wanted);
            }
        }
    }
}

#[test]
fn faults(rt: HostRuntime) {
    for (text, want) in [
        (b"type a;\ntype a;".as_slice(), Some(TypesFault::Twice(2))),
        (
            b"type a;\nattribute a;".as_slice(),
            Some(TypesFault::Twice(2)),
        ),
        (
            b"type a;\ntype b, a;".as_slice(),
            Some(TypesFault::Unknown(2)),
        ),
        (
            b"attribute d;\ntypeattribute d d;".as_slice(),
            Some(TypesFault::Unknown(2)),
        ),
        // All declarations come before the first membership.
        (
            b"type a, d;\ntype a;".as_slice(),
            Some(TypesFault::Twice(2)),
        ),
        (
            b"typeattribute a d;\nattribute d;\ntype a, d;".as_slice(),
            None,
        ),
    ] {
        assert!(rt; fault_of(&rt, rt.alloc(), text) == want);
    }
}

/// Adds declarations of different names: `count` of them, each with its keyword.
fn declare_names(text: &mut Vec<u8>, keyword: &[u8], count: u32) -> Result<(), AllocError> {
    for i in 0..count {
        text.extend_from_slice(keyword)?;
        for shift in [12u32, 8, 4, 0] {
            text.push(b'a' + (i >> shift & 15) as u8)?;
        }
        text.push(b';')?;
    }
    Ok(())
}

/// The number of names that are declared in a text with this many declarations, or its fault.
fn declared(
    rt: &impl Abort,
    alloc: Global,
    keyword: &[u8],
    count: u32,
) -> Result<usize, TypesFault> {
    let mut text = Vec::new(alloc);
    let added = declare_names(&mut text, keyword, count);
    added.ok().expect(rt, "memory");
    let types = Types::build(alloc, &accepted(rt, alloc, &text))?;
    Ok(types.count() + types.attribute_count())
}

#[test]
fn most_names(rt: HostRuntime) {
    for (keyword, count, wanted) in [
        (b"type t".as_slice(), 4096, Ok(4096)),
        (b"type t", 4097, Err(TypesFault::TooMany)),
        (b"attribute t", 1024, Ok(1024)),
        (b"attribute t", 1025, Err(TypesFault::TooMany)),
    ] {
        assert!(rt; declared(&rt, rt.alloc(), keyword, count) == wanted);
    }
}
