//! The types, attributes and names of small policies. Each line is worked out by hand.

use crate::{knows, names, types};
use sm_engine::Counted;
use sm_policy::Prepared;
use sm_values::{Perms, Word};
use std::alloc::Global;
use std::process::Abort;

const RULES: &[u8] = b"attribute domain;
type app, domain, client;
type init, domain;
attribute client;
type file;
typeattribute init client;
attribute none;
typeattribute app client;
";

const CONTEXTS: &[u8] = b"* u:object_r:app:s0
";

const ALL: &[u8] = b"type app domain client
type init domain client
type file
attribute domain app init
attribute client app init
attribute none
";

fn policy(rt: &impl Abort, alloc: Global) -> Prepared {
    Prepared::from_texts(alloc, RULES, CONTEXTS)
        .ok()
        .expect(rt, "a policy")
}

/// Returns whether the types of the policy have these lines.
fn lists(rt: &impl Abort, alloc: Global, word: Option<Word<'_>>, lines: &[u8]) -> bool {
    let policy = policy(rt, alloc);
    let mut writer = Counted::new(Vec::new(alloc));
    types(alloc, &policy, &word, &mut writer)
        .ok()
        .expect(rt, "a list");
    writer.into_inner().as_slice() == lines
}

#[test]
fn types_have_their_attributes(rt: HostRuntime) {
    assert!(rt; lists(&rt, rt.alloc(), None, ALL));
}

#[test]
fn a_word_has_its_line(rt: HostRuntime) {
    assert!(rt;
        lists(
            &rt,
            rt.alloc(),
            Some(Word::new(b"init")),
            b"type init domain client\n"
        )
    );
    assert!(rt;
        lists(
            &rt,
            rt.alloc(),
            Some(Word::new(b"client")),
            b"attribute client app init\n"
        )
    );
    assert!(rt;
        lists(
            &rt,
            rt.alloc(),
            Some(Word::new(b"none")),
            b"attribute none\n"
        )
    );
    assert!(rt; lists(&rt, rt.alloc(), Some(Word::new(b"appl")), b""));
}

#[test]
fn a_word_may_name_nothing(rt: HostRuntime) {
    let policy = policy(&rt, rt.alloc());
    assert!(rt; knows(&policy, b"file"));
    assert!(rt; knows(&policy, b"none"));
    assert!(rt; !knows(&policy, b"nothing"));
    assert!(rt; !knows(&policy, b""));
}

const SERVICE_RULES: &[u8] = b"type app;
type shell;
type audio;
type other;
attribute services;
typeattribute audio services;
allow app services:service_manager find;
allow app other:service_manager add;
allow app other:binder call;
permissive shell;
";

const SERVICE_CONTEXTS: &[u8] = b"sound u:object_r:audio:s0
battery u:object_r:other:s0
* u:object_r:audio:s0
a:b u:object_r:audio:s0
sound u:object_r:audio:s0
";

/// Returns whether the names for which a source has a permission have these lines.
fn names_are(rt: &impl Abort, alloc: Global, source: &[u8], perm: Perms, lines: &[u8]) -> bool {
    let policy = Prepared::from_texts(alloc, SERVICE_RULES, SERVICE_CONTEXTS)
        .ok()
        .expect(rt, "a policy");
    let mut writer = Counted::new(Vec::new(alloc));
    names(alloc, &policy, source, perm, &mut writer)
        .ok()
        .expect(rt, "a list");
    writer.into_inner().as_slice() == lines
}

#[test]
fn names_have_the_types_of_their_labels(rt: HostRuntime) {
    assert!(rt;
        names_are(
            &rt,
            rt.alloc(),
            b"app",
            Perms::FIND,
            b"sound audio\n* audio\na:b audio\n"
        )
    );
    assert!(rt; names_are(&rt, rt.alloc(), b"app", Perms::ADD, b"battery other\n"));
    assert!(rt; names_are(&rt, rt.alloc(), b"app", Perms::LIST, b""));
}

#[test]
fn a_permissive_source_may_find_all_names(rt: HostRuntime) {
    assert!(rt;
        names_are(
            &rt,
            rt.alloc(),
            b"shell",
            Perms::FIND,
            b"sound audio\nbattery other\n* audio\na:b audio\n"
        )
    );
}
