//! Answers to questions about a policy.

use super::manager::prepared;
use super::outcome::same_text;
use sm_engine::{Counted, Fault};
use sm_listings::{names, types};
use sm_policy::{PolicyFault, Prepared};
use sm_questions::{
    FilterOptions, RuleOptions, RulesFile, Target, Unknown, access, all_shown_lines, check_all,
    diff, diff_rules, explain, label, read_filter, read_rule_filter, rules, shown_lines,
    unknown_text,
};
use sm_ruletext::RuleTextFault;
use sm_samples::{BROKEN_RULE, DEVICE_LABELS, DEVICE_RULES, device_rules_with, stricter_rules};
use sm_suggestions::{MOST_LOG_BYTES, suggest};
use sm_unused::unused;
use sm_values::{Class, Perms, Word};
use std::alloc::Global;
use std::process::Abort;

/// Compares what a call wrote. `None` if an allocation failed, of the call or of its writer.
fn wrote(
    rt: &impl Abort,
    fault: Option<Fault>,
    writer: Counted<Vec<u8>>,
    wanted: &[u8],
) -> Option<()> {
    match fault {
        None => {
            same_text(rt, writer.into_inner().as_slice(), wanted);
            Some(())
        }
        Some(fault) => {
            assert!(rt; matches!(fault, Fault::Memory | Fault::WriteFault));
            None
        }
    }
}

fn labels(rt: &impl Abort, alloc: Global, policy: &Prepared) -> Option<()> {
    let mut writer = Counted::new(Vec::new(alloc));
    let fault = label(alloc, policy, b"activity", &mut writer).err();
    wrote(rt, fault, writer, b"u:object_r:activity_service:s0 2\n")
}

fn explains(rt: &impl Abort, alloc: Global, policy: &Prepared) -> Option<()> {
    let mut writer = Counted::new(Vec::new(alloc));
    let fault = explain(
        alloc,
        policy,
        b"untrusted_app",
        b"activity_service",
        Class::ServiceManager,
        Perms::FIND,
        &mut writer,
    )
    .err();
    wrote(rt, fault, writer, b"allowed 13\n")
}

/// The filter leaves one access, which an application has.
fn lists_one(
    rt: &impl Abort,
    alloc: Global,
    policy: &Prepared,
    options: &FilterOptions<'_>,
) -> Option<()> {
    let filter = read_filter(policy, options).ok().expect(rt, "known words");
    let mut writer = Counted::new(Vec::new(alloc));
    let fault = access(alloc, policy, &filter, &mut writer).err();
    let line = b"untrusted_app activity_service service_manager find 13\n";
    wrote(rt, fault, writer, line)
}

/// Lists the accesses to one target, and then those to any target, whose lines are found together.
fn lists(rt: &impl Abort, alloc: Global, policy: &Prepared) -> Option<()> {
    let mut options = FilterOptions {
        source: Some(Word::new(b"untrusted_app")),
        target: Target::Type(Word::new(b"activity_service")),
        class: None,
        perm: None,
    };
    lists_one(rt, alloc, policy, &options)?;
    options.target = Target::Any;
    options.class = Some(Word::new(b"service_manager"));
    lists_one(rt, alloc, policy, &options)
}

const RULES_TOLD: &[u8] = b"t.te:13: allow binderuser activity_service:service_manager find;
t.te:16: neverallow untrusted_app *:service_manager add;
";

/// Lists the rules of an application to a service.
fn lists_rules(rt: &impl Abort, alloc: Global) -> Option<()> {
    let Ok(policy) = Prepared::from_texts(alloc, DEVICE_RULES, DEVICE_LABELS) else {
        return None;
    };
    let options = RuleOptions {
        kind: None,
        accesses: FilterOptions {
            source: Some(Word::new(b"untrusted_app")),
            target: Target::Name(Word::new(b"activity")),
            class: None,
            perm: None,
        },
    };
    let filter = read_rule_filter(&policy, &options)
        .ok()
        .expect(rt, "known words");
    let mut writer = Counted::new(Vec::new(alloc));
    let fault = rules(alloc, &policy, &filter, b"t.te", DEVICE_RULES, &mut writer).err();
    wrote(rt, fault, writer, RULES_TOLD)
}

/// Lists the types of an attribute.
fn lists_types(rt: &impl Abort, alloc: Global) -> Option<()> {
    let policy = prepared(rt, alloc, DEVICE_RULES)?;
    let name = Some(Word::new(b"binderuser"));
    let mut writer = Counted::new(Vec::new(alloc));
    let fault = types(alloc, &policy, &name, &mut writer).err();
    wrote(
        rt,
        fault,
        writer,
        b"attribute binderuser system_server untrusted_app isolated_app\n",
    )
}

/// Lists the names that an application may find.
fn lists_names(rt: &impl Abort, alloc: Global) -> Option<()> {
    let policy = prepared(rt, alloc, DEVICE_RULES)?;
    let mut writer = Counted::new(Vec::new(alloc));
    let fault = names(alloc, &policy, b"untrusted_app", Perms::FIND, &mut writer).err();
    wrote(rt, fault, writer, b"activity activity_service\n")
}

const NEEDLESS_RULE: &[u8] = b"allow untrusted_app activity_service:service_manager find;\n";

const UNUSED_TOLD: &[u8] =
    b"rule t.te:17: allow untrusted_app activity_service:service_manager find;
attribute t.te:1: domain
";

/// Lists a rule that grants an application what a rule above it grants, and an attribute that no rule names.
#[tactic(auto, using(sm_questions::proofs::Sources::source_read))]
fn lists_unused(rt: &impl Abort, alloc: Global) -> Option<()> {
    let rules = device_rules_with(alloc, NEEDLESS_RULE).ok()?;
    let Ok(policy) = Prepared::from_texts(alloc, &rules, DEVICE_LABELS) else {
        return None;
    };
    let mut writer = Counted::new(Vec::new(alloc));
    let fault = unused(alloc, &policy, b"t.te", b"t.fc", &rules, &mut writer).err();
    wrote(rt, fault, writer, UNUSED_TOLD)
}

const LOG: &[u8] =
    b"avc: denied { add } name=activity scontext=u:r:untrusted_app:s0 tcontext=u:r:x:s0 tclass=service_manager
avc: denied { find } name=%613a62 scontext=u:r:untrusted_app:s0 tcontext=u:r:x:s0 tclass=service_manager
avc: denied { call } scontext=u:r:system_server:s0 tcontext=u:r:untrusted_app:s0 tclass=binder
";

const SUGGESTED: &[u8] = b"forbidden 16 untrusted_app activity_service service_manager add 1
default %613a62 untrusted_app default_android_service service_manager find 1
missing system_server untrusted_app binder call 1
";

/// Says what the policy says of a log of denials.
fn suggests(rt: &impl Abort, alloc: Global, policy: &Prepared) -> Option<()> {
    let mut writer = Counted::new(Vec::new(alloc));
    assert!(rt; LOG.len() <= MOST_LOG_BYTES);
    let fault = suggest(alloc, policy, LOG, &mut writer).err();
    wrote(rt, fault, writer, SUGGESTED)
}

fn compares(rt: &impl Abort, alloc: Global, old: &Prepared, new: &Prepared) -> Option<()> {
    let mut writer = Counted::new(Vec::new(alloc));
    let fault = diff(alloc, old, new, &mut writer).err();
    let line = b"- untrusted_app activity_service service_manager find\n";
    wrote(rt, fault, writer, line)
}

/// Compares the rules of two policies, of which only the first one grants more.
fn compares_rules(rt: &impl Abort, alloc: Global, old: &Prepared, new: &Prepared) -> Option<()> {
    let file = RulesFile {
        path: b"t.te",
        text: DEVICE_RULES,
    };
    let mut writer = Counted::new(Vec::new(alloc));
    let fault = diff_rules(alloc, old, &file, new, &file, &mut writer).err();
    let line = b"- 1 t.te:13: allow binderuser activity_service:service_manager find;\n";
    wrote(rt, fault, writer, line)
}

fn names_a_word(rt: &impl Abort, alloc: Global) -> Option<()> {
    let unknown = Unknown::Type(Word::new(b"nobody"));
    let text = unknown_text(alloc, &unknown).ok()?;
    same_text(rt, &text, b"unknown type nobody");
    Some(())
}

fn shows_a_line(rt: &impl Abort, alloc: Global) -> Option<()> {
    let fault = PolicyFault::UndeclaredLabel(1);
    let shown = shown_lines(alloc, b"t.te", b"", b"labels", b"* u:r:b\n", &fault).ok()?;
    same_text(rt, &shown, b"labels:1: * u:r:b\n");
    Some(())
}

fn shows_a_statement(rt: &impl Abort, alloc: Global) -> Option<()> {
    let fault = PolicyFault::Rules(RuleTextFault::Syntax(1));
    let shown = shown_lines(alloc, b"t.te", b"allow a # b\n c", b"labels", b"", &fault).ok()?;
    same_text(rt, &shown, b"t.te:1: allow a c\n");
    Some(())
}

const VIOLATION: &[u8] =
    b"policy refused: neverallow at line 16 by allow at line 17: untrusted_app activity_service service_manager add\n";

const SHOWN: &[u8] = b"t.te:16: neverallow untrusted_app *:service_manager add;
t.te:17: allow untrusted_app activity_service:service_manager add;
";

fn tells_violations(rt: &impl Abort, alloc: Global, rules: &[u8]) -> Option<PolicyFault> {
    let mut writer = Counted::new(Vec::new(alloc));
    let (refusal, fault) = match check_all(alloc, rules, DEVICE_LABELS, &mut writer) {
        Ok(refusal) => (refusal, None),
        Err(fault) => (None, Some(fault)),
    };
    wrote(rt, fault, writer, VIOLATION)?;
    refusal
}

fn shows_violations(rt: &impl Abort, alloc: Global) -> Option<()> {
    let rules = device_rules_with(alloc, BROKEN_RULE).ok()?;
    let fault = tells_violations(rt, alloc, &rules)?;
    let shown = all_shown_lines(alloc, b"t.te", &rules, b"labels", DEVICE_LABELS, &fault).ok()?;
    same_text(rt, &shown, SHOWN);
    Some(())
}

fn answers(rt: &impl Abort, alloc: Global, old: &Prepared, new: &Prepared) {
    again!(rt; labels(rt, alloc, old));
    again!(rt; explains(rt, alloc, old));
    again!(rt; lists(rt, alloc, old));
    again!(rt; lists_rules(rt, alloc));
    again!(rt; suggests(rt, alloc, old));
    again!(rt; lists_types(rt, alloc));
    again!(rt; lists_names(rt, alloc));
    again!(rt; lists_unused(rt, alloc));
    again!(rt; compares(rt, alloc, old, new));
    again!(rt; compares_rules(rt, alloc, old, new));
    again!(rt; names_a_word(rt, alloc));
    again!(rt; shows_a_line(rt, alloc));
    again!(rt; shows_a_statement(rt, alloc));
    again!(rt; shows_violations(rt, alloc));
}

fn asks(rt: &impl Abort, alloc: Global) -> Option<()> {
    let old = prepared(rt, alloc, DEVICE_RULES)?;
    let stricter = stricter_rules(alloc).ok()?;
    let new = prepared(rt, alloc, &stricter)?;
    answers(rt, alloc, &old, &new);
    Some(())
}

#[test]
fn questions_are_answered(rt: HostRuntime) {
    let alloc = rt.alloc();
    again!(rt; asks(&rt, alloc));
}
