//! Answers to questions about small policies. Each is worked out by hand.

ghost use Rattle.std.specs.Prelude.{◌≡◌, Ok};
ghost use Rattle.sm_policy.specs.Preparing.{rules_of};

use crate::{
    FilterOptions, RuleOptions, RulesFile, Target, access, diff, diff_rules, explain, label,
    read_access, read_filter, read_rule_filter, rules, shown_lines, unknown_text,
};
use sm_engine::Counted;
use sm_policy::Prepared;
use sm_values::Word;
use std::alloc::Global;
use std::process::Abort;

const RULES: &[u8] = b"attribute domain;
type init;
type app, domain;
type svc;
allow domain svc:service_manager { find list };
allow app svc:service_manager find;
allow init self:binder call;
permissive init;
";

const CONTEXTS: &[u8] = b"# services
media u:object_r:svc:s0
* u:object_r:app:s0
";

fn tables(rt: &impl Abort, alloc: Global, rules: &[u8], contexts: &[u8]) -> Prepared {
    Prepared::from_texts(alloc, rules, contexts)
        .ok()
        .expect(rt, "a policy")
}

fn labels(rt: &impl Abort, alloc: Global, policy: &Prepared, name: &[u8], line: &[u8]) -> bool {
    let mut writer = Counted::new(Vec::new(alloc));
    label(alloc, policy, name, &mut writer)
        .ok()
        .expect(rt, "a label");
    writer.into_inner().as_slice() == line
}

#[test]
fn a_label_has_the_line_of_its_key(rt: HostRuntime) {
    let policy = tables(&rt, rt.alloc(), RULES, CONTEXTS);
    assert!(rt; labels(&rt, rt.alloc(), &policy, b"media", b"u:object_r:svc:s0 2\n"));
    assert!(rt; labels(&rt, rt.alloc(), &policy, b"other", b"u:object_r:app:s0 3\n"));
}

/// The words of an access, the lines of its explanation, and whether it passes.
type Explained = ([&'static [u8]; 4], &'static [u8], bool);

fn explains(rt: &impl Abort, alloc: Global, policy: &Prepared, expected: Explained) -> bool {
    let ([source, target, class, perm], lines, wanted) = expected;
    let (class, perm) = read_access(policy, source, target, class, perm)
        .ok()
        .expect(rt, "words of the policy");
    let mut writer = Counted::new(Vec::new(alloc));
    let passes = explain(alloc, policy, source, target, class, perm, &mut writer)
        .ok()
        .expect(rt, "an explanation");
    writer.into_inner().as_slice() == lines && passes == wanted
}

const EXPLAINED: [Explained; 4] = [
    (
        [b"app", b"svc", b"service_manager", b"find"],
        b"allowed 5\n",
        true,
    ),
    (
        [b"svc", b"svc", b"service_manager", b"find"],
        b"unwritten\n",
        false,
    ),
    (
        [b"init", b"init", b"binder", b"call"],
        b"allowed 7\npermissive\n",
        true,
    ),
    (
        [b"init", b"svc", b"service_manager", b"add"],
        b"unwritten\npermissive\n",
        true,
    ),
];

#[test]
fn explanations(rt: HostRuntime) {
    let policy = tables(&rt, rt.alloc(), RULES, CONTEXTS);
    for expected in EXPLAINED {
        assert!(rt; explains(&rt, rt.alloc(), &policy, expected));
    }
}

fn lists(
    rt: &impl Abort,
    alloc: Global,
    policy: &Prepared,
    options: &FilterOptions<'_>,
    lines: &[u8],
) -> bool {
    let filter = read_filter(policy, options).ok().expect(rt, "known words");
    let mut writer = Counted::new(Vec::new(alloc));
    access(alloc, policy, &filter, &mut writer)
        .ok()
        .expect(rt, "a list");
    writer.into_inner().as_slice() == lines
}

#[test]
fn accesses_of_a_source(rt: HostRuntime) {
    let policy = tables(&rt, rt.alloc(), RULES, CONTEXTS);
    let options = FilterOptions {
        source: Some(Word::new(b"app")),
        target: Target::Any,
        class: None,
        perm: None,
    };
    let lines = b"app svc service_manager find 5\napp svc service_manager list 5\n";
    assert!(rt; lists(&rt, rt.alloc(), &policy, &options, lines));
}

/// Sources in two blocks of 64.
const MANY_TYPES: &[u8] =
    b"type a00; type a01; type a02; type a03; type a04; type a05; type a06; type a07; type a08; type a09;
type a10; type a11; type a12; type a13; type a14; type a15; type a16; type a17; type a18; type a19;
type a20; type a21; type a22; type a23; type a24; type a25; type a26; type a27; type a28; type a29;
type a30; type a31; type a32; type a33; type a34; type a35; type a36; type a37; type a38; type a39;
type a40; type a41; type a42; type a43; type a44; type a45; type a46; type a47; type a48; type a49;
type a50; type a51; type a52; type a53; type a54; type a55; type a56; type a57; type a58; type a59;
type a60; type a61; type a62; type a63; type a64; type a65; type a66; type a67; type a68; type a69;
allow a01 a00:service_manager find;
allow a69 a00:service_manager { add find };
allow { a01 a69 } a00:service_manager { add find };
";

#[test]
fn accesses_of_all_sources(rt: HostRuntime) {
    let policy = tables(&rt, rt.alloc(), MANY_TYPES, b"* u:object_r:a00:s0\n");
    let options = FilterOptions {
        source: None,
        target: Target::Any,
        class: None,
        perm: None,
    };
    let lines = b"a01 a00 service_manager add 10
a01 a00 service_manager find 8
a69 a00 service_manager add 9
a69 a00 service_manager find 9
";
    assert!(rt; lists(&rt, rt.alloc(), &policy, &options, lines));
}

#[test]
fn accesses_with_a_permission(rt: HostRuntime) {
    let policy = tables(&rt, rt.alloc(), RULES, CONTEXTS);
    let options = FilterOptions {
        source: Some(Word::new(b"init")),
        target: Target::Any,
        class: Some(Word::new(b"binder")),
        perm: Some(Word::new(b"call")),
    };
    let lines =
        b"init init binder call 7\ninit app binder call permissive\ninit svc binder call permissive\n";
    assert!(rt; lists(&rt, rt.alloc(), &policy, &options, lines));
}

#[test]
fn accesses_of_a_type_by_self(rt: HostRuntime) {
    let policy = tables(&rt, rt.alloc(), RULES, CONTEXTS);
    let options = FilterOptions {
        source: None,
        target: Target::Type(Word::new(b"init")),
        class: Some(Word::new(b"binder")),
        perm: Some(Word::new(b"call")),
    };
    assert!(rt;
        lists(
            &rt,
            rt.alloc(),
            &policy,
            &options,
            b"init init binder call 7\n"
        )
    );
}

#[test]
fn accesses_of_a_name(rt: HostRuntime) {
    let policy = tables(&rt, rt.alloc(), RULES, CONTEXTS);
    let options = FilterOptions {
        source: None,
        target: Target::Name(Word::new(b"media")),
        class: None,
        perm: Some(Word::new(b"find")),
    };
    let lines = b"init svc service_manager find permissive\napp svc service_manager find 5\n";
    assert!(rt; lists(&rt, rt.alloc(), &policy, &options, lines));
}

const TWO_TYPES: &[u8] = b"type app;\ntype svc;\n";

const OTHER_CONTEXTS: &[u8] = b"vold u:object_r:svc:s0
* u:object_r:app:s0
media u:object_r:app:s0
zygote u:object_r:app:s0
";

/// The second one of two policies has a type more in front, one more in the middle and two more at the end. What it
/// allows otherwise is mostly on the type beside, or on one that only it has.
const SIX_TYPES: &[u8] = b"type app; type cam; type drm; type nfc; type sys; type vold;
allow app cam:binder call;
allow cam nfc:binder call;
allow drm cam:binder call;
allow nfc cam:binder call;
allow sys app:service_manager { add find };
allow vold sys:binder transfer;
";

const TEN_TYPES: &[u8] = b"type init; type app; type cam; type drm; type log;
type nfc; type sys; type vold; type wifi; type zygote;
allow init app:binder call;
allow app { cam log }:binder call;
allow cam log:binder call;
allow drm drm:binder call;
allow nfc app:binder call;
allow sys app:service_manager { find list };
allow vold { sys zygote }:binder transfer;
";

const ONE_KEY: &[u8] = b"* u:object_r:app:s0\n";

/// A policy source and a contexts file, those of another policy, and the lines for what differs.
const COMPARED: &[([&[u8]; 2], [&[u8]; 2], &[u8])] = &[
    ([RULES, CONTEXTS], [RULES, CONTEXTS], b""),
    (
        [
            b"attribute domain;\ntype app, domain;\ntype svc;\nallow domain svc:service_manager { find list };\n",
            CONTEXTS,
        ],
        [
            b"type svc;\ntype app;\ntype log;\nallow app svc:service_manager find;\nallow app log:binder transfer;\n",
            CONTEXTS,
        ],
        b"- app svc service_manager list\n+ app log binder transfer\n",
    ),
    (
        [
            b"type svc;\ntype app;\npermissive app;\nallow app *:{ binder service_manager } *;",
            CONTEXTS,
        ],
        [
            b"type svc;\ntype app;\nallow app *:{ binder service_manager } *;",
            CONTEXTS,
        ],
        b"- permissive app\n",
    ),
    (
        [
            b"type svc;\ntype app;\nallow app *:binder *;\nallow app *:service_manager { add find };",
            CONTEXTS,
        ],
        [b"type app;\ntype svc;\npermissive app;", CONTEXTS],
        b"+ app app service_manager list\n+ app svc service_manager list\n+ permissive app\n",
    ),
    (
        [TWO_TYPES, CONTEXTS],
        [TWO_TYPES, OTHER_CONTEXTS],
        b"~ media u:object_r:svc:s0 u:object_r:app:s0\n~ vold u:object_r:app:s0 u:object_r:svc:s0\n",
    ),
    (
        [SIX_TYPES, ONE_KEY],
        [TEN_TYPES, ONE_KEY],
        b"- cam nfc binder call
- drm cam binder call
- nfc cam binder call
- sys app service_manager add
+ init app binder call
+ app log binder call
+ cam log binder call
+ drm drm binder call
+ nfc app binder call
+ sys app service_manager list
+ vold zygote binder transfer
",
    ),
    (
        [TEN_TYPES, ONE_KEY],
        [SIX_TYPES, ONE_KEY],
        b"- init app binder call
- app log binder call
- cam log binder call
- drm drm binder call
- nfc app binder call
- sys app service_manager list
- vold zygote binder transfer
+ cam nfc binder call
+ drm cam binder call
+ nfc cam binder call
+ sys app service_manager add
",
    ),
];

fn differs(
    rt: &impl Abort,
    alloc: Global,
    old: &[&[u8]; 2],
    new: &[&[u8]; 2],
    lines: &[u8],
) -> bool {
    let old = tables(rt, alloc, old[0], old[1]);
    let new = tables(rt, alloc, new[0], new[1]);
    let mut writer = Counted::new(Vec::new(alloc));
    let same = diff(alloc, &old, &new, &mut writer)
        .ok()
        .expect(rt, "a comparison");
    writer.into_inner().as_slice() == lines && same == lines.is_empty()
}

#[test]
fn differences(rt: HostRuntime) {
    for (old, new, lines) in COMPARED {
        assert!(rt; differs(&rt, rt.alloc(), old, new, lines));
    }
}

/// A policy source and a contexts file that are no policy's, and the lines that are shown of them.
struct Refused {
    rules: &'static [u8],
    contexts: &'static [u8],
    shown: &'static [u8],
}

const REFUSED: &[Refused] = &[
    Refused {
        rules: b"type a;\ntype b;\nneverallow a b:binder call;\nallow a b:binder\n  call;\n",
        contexts: b"* u:r:a\n",
        shown: b"t.te:3: neverallow a b:binder call;\nt.te:4: allow a b:binder call;\n",
    },
    Refused {
        rules: b"type a; # b\n type c;neverallow\t a {\r\n\n a # c;\n  c}:binder call;allow a a:binder call;",
        contexts: b"* u:r:a\n",
        shown: b"t.te:2: type c;neverallow a { a c}:binder call;\nt.te:5: c}:binder call;allow a a:binder call;\n",
    },
    Refused {
        rules: b"type a;\n\nallow a\n  # end\n",
        contexts: b"* u:r:a\n",
        shown: b"t.te:3: allow a\n",
    },
    Refused {
        rules: b"type a;\nbool x\n true;\n",
        contexts: b"* u:r:a\n",
        shown: b"t.te:2: bool x\n",
    },
    Refused {
        rules: b"type a;\ntype b;",
        contexts: b"x u:r:a\n* u:r:a\nx u:r:b",
        shown: b"labels:3: x u:r:b\nlabels:1: x u:r:a\n",
    },
    Refused {
        rules: b"type a;\n\ntype a;\n",
        contexts: b"* u:r:a\n",
        shown: b"t.te:3: type a;\n",
    },
    Refused {
        rules: b"type a;\nallow a b:binder call;",
        contexts: b"* u:r:a\n",
        shown: b"t.te:2: allow a b:binder call;\n",
    },
    Refused {
        rules: b"type a;\nbool x true;\n",
        contexts: b"* u:r:a\n",
        shown: b"t.te:2: bool x true;\n",
    },
    Refused {
        rules: b"type a;\n",
        contexts: b"# none\n* u:r:b\n",
        shown: b"labels:2: * u:r:b\n",
    },
    Refused {
        rules: b"type a;\n",
        contexts: b"x u:r:a\n",
        shown: b"",
    },
];

fn shows(rt: &impl Abort, alloc: Global, refused: &Refused) -> bool {
    let (rules, contexts) = (refused.rules, refused.contexts);
    let fault = Prepared::from_texts(alloc, rules, contexts)
        .err()
        .expect(rt, "a refusal");
    let shown = shown_lines(alloc, b"t.te", rules, b"labels", contexts, &fault);
    shown.ok().expect(rt, "memory").as_slice() == refused.shown
}

#[test]
fn lines_that_a_refusal_names(rt: HostRuntime) {
    for refused in REFUSED {
        assert!(rt; shows(&rt, rt.alloc(), refused));
    }
}

/// Rules of all kinds: two that begin on one line, one over several lines, one that isn't kept, and one by `self`.
const MANY_RULES: &[u8] = b"attribute domain;
type init; # the first process
type app, domain;
type svc;
neverallow app svc:service_manager add; allow domain svc : service_manager { find list }; # both
allow app svc:file read;
allow {
    init # and
    app
} self:binder call;
dontaudit init svc:service_manager add;
dontaudit app svc:service_manager find;
";

/// The kind, the source, the target, the class and the permission that are asked for, and the lines.
type Listed = ([&'static [u8]; 5], &'static [u8]);

const LISTED: &[Listed] = &[
    (
        [b"", b"", b"", b"", b""],
        b"t.te:5: neverallow app svc:service_manager add; allow domain svc : service_manager { find list };
t.te:5: neverallow app svc:service_manager add; allow domain svc : service_manager { find list };
t.te:7: allow { init app } self:binder call;
t.te:11: dontaudit init svc:service_manager add;
t.te:12: dontaudit app svc:service_manager find;
",
    ),
    (
        [b"dontaudit", b"app", b"", b"", b""],
        b"t.te:12: dontaudit app svc:service_manager find;\n",
    ),
    (
        [b"", b"app", b"svc", b"service_manager", b"find"],
        b"t.te:5: neverallow app svc:service_manager add; allow domain svc : service_manager { find list };
t.te:12: dontaudit app svc:service_manager find;
",
    ),
    (
        [b"allow", b"init", b"init", b"", b""],
        b"t.te:7: allow { init app } self:binder call;\n",
    ),
    ([b"allow", b"init", b"app", b"", b""], b""),
    ([b"neverallow", b"", b"", b"", b"find"], b""),
    ([b"", b"svc", b"", b"", b""], b""),
];

fn given(word: &'static [u8]) -> Option<Word<'static>> {
    if word.is_empty() {
        None
    } else {
        Some(Word::new(word))
    }
}

fn rule_options(words: &[&'static [u8]; 5]) -> RuleOptions<'static> {
    let target = words[2];
    RuleOptions {
        kind: given(words[0]),
        accesses: FilterOptions {
            source: given(words[1]),
            target: if target.is_empty() {
                Target::Any
            } else {
                Target::Type(Word::new(target))
            },
            class: given(words[3]),
            perm: given(words[4]),
        },
    }
}

/// Returns whether these are the lines for the rules of a policy with this source.
fn lists_rules(
    rt: &impl Abort,
    alloc: Global,
    policy: &Prepared,
    source: &[u8],
    options: &RuleOptions<'_>,
    lines: &[u8],
) -> bool
    requires { rules_of source.now ≡ Ok policy.now.statements }
{
    let filter = read_rule_filter(policy, options)
        .ok()
        .expect(rt, "known words");
    let mut writer = Counted::new(Vec::new(alloc));
    rules(alloc, policy, &filter, b"t.te", source, &mut writer)
        .ok()
        .expect(rt, "a list");
    writer.into_inner().as_slice() == lines
}

/// Returns whether all lists have their lines.
#[tactic(auto, using(crate::proofs::Sources::source_read))]
fn lists_all(rt: &impl Abort, alloc: Global) -> bool {
    let Ok(policy) = Prepared::from_texts(alloc, MANY_RULES, CONTEXTS) else {
        return false;
    };
    for (words, lines) in LISTED {
        if !lists_rules(rt, alloc, &policy, MANY_RULES, &rule_options(words), lines) {
            return false;
        }
    }
    true
}

#[test]
fn rules_on_their_lines(rt: HostRuntime) {
    assert!(rt; lists_all(&rt, rt.alloc()));
}

fn refuses(rt: &impl Abort, alloc: Global, words: &[&'static [u8]; 5], text: &[u8]) -> bool {
    let policy = tables(rt, alloc, RULES, CONTEXTS);
    let options = rule_options(words);
    let unknown = read_rule_filter(&policy, &options)
        .err()
        .expect(rt, "an unknown word");
    unknown_text(alloc, &unknown)
        .ok()
        .expect(rt, "memory")
        .as_slice()
        == text
}

#[test]
fn unknown_words_of_rules(rt: HostRuntime) {
    let kind = [b"auditallow".as_slice(), b"nobody", b"", b"", b""];
    assert!(rt; refuses(&rt, rt.alloc(), &kind, b"unknown kind auditallow"));
    let source = [b"allow".as_slice(), b"nobody", b"", b"", b""];
    assert!(rt; refuses(&rt, rt.alloc(), &source, b"unknown type nobody"));
}

const SHARED_LINES: &[u8] = b"attribute domain;
type app, domain; type init, domain; type svc;
# Rules.
allow domain svc:service_manager { find list }; allow app app:binder call;
allow app svc:service_manager
    { find add };
allow app svc:binder call; allow app svc:binder { call transfer };
permissive init;
";

const FEWER_RULES: &[u8] = b"type svc; type app;
allow app svc:{ binder service_manager } { find call };
allow svc self:binder call;
";

/// Two policy sources, and the lines for the rules that differ.
const RULES_COMPARED: &[([&[u8]; 2], &[u8])] = &[
    ([RULES, RULES], b""),
    (
        [SHARED_LINES, FEWER_RULES],
        b"- 4 a.te:4: allow domain svc:service_manager { find list }; allow app app:binder call;
- 1 a.te:5: allow app svc:service_manager { find add };
- 1 a.te:7: allow app svc:binder call; allow app svc:binder { call transfer };
- 19 permissive
+ 1 b.te:3: allow svc self:binder call;
- permissive init
",
    ),
    (
        [FEWER_RULES, SHARED_LINES],
        b"- 1 a.te:3: allow svc self:binder call;
+ 4 b.te:4: allow domain svc:service_manager { find list }; allow app app:binder call;
+ 1 b.te:5: allow app svc:service_manager { find add };
+ 1 b.te:7: allow app svc:binder call; allow app svc:binder { call transfer };
+ 19 permissive
+ permissive init
",
    ),
    (
        [TEN_TYPES, SIX_TYPES],
        b"- 1 a.te:3: allow init app:binder call;
- 1 a.te:4: allow app { cam log }:binder call;
- 1 a.te:5: allow cam log:binder call;
- 1 a.te:6: allow drm drm:binder call;
- 1 a.te:7: allow nfc app:binder call;
- 1 a.te:8: allow sys app:service_manager { find list };
- 1 a.te:9: allow vold { sys zygote }:binder transfer;
+ 1 b.te:3: allow cam nfc:binder call;
+ 1 b.te:4: allow drm cam:binder call;
+ 1 b.te:5: allow nfc cam:binder call;
+ 1 b.te:6: allow sys app:service_manager { add find };
",
    ),
];

/// Returns whether the rules of two policies differ so.
fn rules_differ(rt: &impl Abort, alloc: Global, sources: [&[u8]; 2], lines: &[u8]) -> bool {
    let old = tables(rt, alloc, sources[0], ONE_KEY);
    let new = tables(rt, alloc, sources[1], ONE_KEY);
    let old_file = RulesFile {
        path: b"a.te",
        text: sources[0],
    };
    let new_file = RulesFile {
        path: b"b.te",
        text: sources[1],
    };
    let mut writer = Counted::new(Vec::new(alloc));
    let same = diff_rules(alloc, &old, &old_file, &new, &new_file, &mut writer)
        .ok()
        .expect(rt, "an answer");
    writer.into_inner().as_slice() == lines && same == lines.is_empty()
}

#[test]
fn rules_are_compared(rt: HostRuntime) {
    for (sources, lines) in RULES_COMPARED {
        assert!(rt; rules_differ(&rt, rt.alloc(), *sources, lines));
    }
}
