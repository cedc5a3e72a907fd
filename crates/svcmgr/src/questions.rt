//! Answers to questions about policies, on standard output.

ghost use Rattle.std.specs.Prelude.{◌≡◌, Ok};
ghost use Rattle.sm_policy.specs.Preparing.{rules_of};

use crate::pipe::Pipe;
use crate::{fail, text_of};
use sm_command::{
    AccessWords, Ending, FilterWords, NO_MEMORY, NameWords, NewFiles, Options, Question,
    RuleFilterWords, TargetWord, read_log, unknown_line,
};
use sm_engine::{Counted, Fault, write_whole};
use sm_listings::{knows, names, types};
use sm_policy::{PolicyFault, Prepared};
use sm_questions::{
    FilterOptions, RuleOptions, RulesFile, Target, Unknown, access, diff, diff_rules, explain,
    label, read_access, read_filter, read_rule_filter, refused_line, rules,
};
use sm_suggestions::{MOST_LOG_BYTES, suggest};
use sm_unused::unused;
use sm_values::Word;
use std::io::ErrorKind;
use std::process::ExitCode;

/// The status of a question that has no answer.
const NO_ANSWER: u8 = 2;

/// Reads the policy, and answers the question.
pub fn ask<'a>(rt: &HostRuntime, options: &Options<'a>, question: Question<'a>) -> ExitCode {
    answered(rt, try_ask(rt, options, question))
}

/// Reads the policy, and lists its rules.
pub fn ask_rules<'a>(
    rt: &HostRuntime,
    options: &Options<'a>,
    words: RuleFilterWords<'a>,
) -> ExitCode {
    answered(rt, try_ask_rules(rt, options, words))
}

/// Reads the policy, and lists what is of no use in it.
pub fn ask_unused<'a>(rt: &HostRuntime, options: &Options<'a>) -> ExitCode {
    answered(rt, try_ask_unused(rt, options))
}

/// Reads the policy and a log of denials, and writes what the policy says of them.
pub fn ask_suggestions<'a>(rt: &HostRuntime, options: &Options<'a>) -> ExitCode {
    answered(rt, try_suggest(rt, options))
}

/// Returns the status of an answer, or reports why there is none.
fn answered<'a>(rt: &HostRuntime, answer: Result<ExitCode, Ending<'a>>) -> ExitCode {
    match answer {
        Ok(code) => code,
        Err(ending) => {
            fail(rt, &ending);
            ExitCode::from(NO_ANSWER)
        }
    }
}

fn try_ask<'a>(
    rt: &HostRuntime,
    options: &Options<'a>,
    question: Question<'a>,
) -> Result<ExitCode, Ending<'a>> {
    if let Question::Diff {
        files,
        by_rules: true,
    } = question
    {
        return tell_rule_differences(rt, options, files);
    }
    match read_policy(rt, options.rules, options.contexts)? {
        Some(policy) => answer(rt, &policy, question),
        None => match question {
            Question::Diff { .. } => Err(refused(options.rules, options.contexts)),
            _ => Ok(ExitCode::from(NO_ANSWER)),
        },
    }
}

/// Reads the policy of these files. Prints the refusal and returns `None`, if it is refused.
fn read_policy<'a>(
    rt: &HostRuntime,
    rules: &'a str,
    contexts: &'a str,
) -> Result<Option<Prepared>, Ending<'a>> {
    let rules = text_of(rt, rules)?;
    let contexts = text_of(rt, contexts)?;
    match Prepared::from_texts(rt.alloc(), &rules, &contexts) {
        Ok(policy) => Ok(Some(policy)),
        Err(fault) => {
            refuse(rt, &fault)?;
            Ok(None)
        }
    }
}

#[tactic(auto, using(sm_questions::proofs::Sources::source_read))]
fn try_ask_rules<'a>(
    rt: &HostRuntime,
    options: &Options<'a>,
    words: RuleFilterWords<'a>,
) -> Result<ExitCode, Ending<'a>> {
    let source = text_of(rt, options.rules)?;
    let contexts = text_of(rt, options.contexts)?;
    match Prepared::from_texts(rt.alloc(), &source, &contexts) {
        Ok(policy) => tell_rules(rt, &policy, options.rules, &source, words),
        Err(fault) => {
            refuse(rt, &fault)?;
            Ok(ExitCode::from(NO_ANSWER))
        }
    }
}

#[tactic(auto, using(sm_questions::proofs::Sources::source_read))]
fn try_ask_unused<'a>(rt: &HostRuntime, options: &Options<'a>) -> Result<ExitCode, Ending<'a>> {
    let source = text_of(rt, options.rules)?;
    let contexts = text_of(rt, options.contexts)?;
    match Prepared::from_texts(rt.alloc(), &source, &contexts) {
        Ok(policy) => tell_unused(rt, &policy, options, &source),
        Err(fault) => {
            refuse(rt, &fault)?;
            Ok(ExitCode::from(NO_ANSWER))
        }
    }
}

fn try_suggest<'a>(rt: &HostRuntime, options: &Options<'a>) -> Result<ExitCode, Ending<'a>> {
    match read_policy(rt, options.rules, options.contexts)? {
        Some(policy) => tell_suggestions(rt, &policy),
        None => Ok(ExitCode::from(NO_ANSWER)),
    }
}

fn refused<'a>(rules: &'a str, contexts: &'a str) -> Ending<'a> {
    Ending::Refused { rules, contexts }
}

fn answer<'a>(
    rt: &HostRuntime,
    policy: &Prepared,
    question: Question<'a>,
) -> Result<ExitCode, Ending<'a>> {
    match question {
        Question::Label(name) => tell_label(rt, policy, name),
        Question::Explain(words) => tell_rule(rt, policy, words),
        Question::Access(words) => tell_accesses(rt, policy, words),
        Question::Types(name) => tell_types(rt, policy, name),
        Question::Names(words) => tell_names(rt, policy, words),
        Question::Diff { files, .. } => tell_differences(rt, policy, files),
    }
}

/// Prints the refusal of a policy, as `check` does.
fn refuse<'a>(rt: &HostRuntime, fault: &PolicyFault) -> Result<(), Ending<'a>> {
    if matches!(fault, PolicyFault::Memory) {
        return Err(Ending::Memory);
    }
    let Ok(line) = refused_line(rt.alloc(), fault) else {
        return Err(Ending::Memory);
    };
    let mut writer = Counted::new(Pipe::new(rt.stdout()));
    let ended = write_whole(&mut writer, &line);
    unless_unread(ended, writer.into_inner().is_closed())
}

/// Prints that a word of a question names nothing.
fn refuse_word(rt: &HostRuntime, unknown: &Unknown<'_>) -> ExitCode {
    // A failure can't be reported anywhere else.
    let _ = match unknown_line(rt.alloc(), unknown) {
        Ok(line) => rt.stderr().write_all(&line),
        Err(_) => rt.stderr().write_all(NO_MEMORY),
    };
    ExitCode::from(NO_ANSWER)
}

/// Returns the fault of a write. One that is cut off since nobody reads on is no failure.
fn unless_unread<'a>(ended: Result<(), Fault>, is_closed: bool) -> Result<(), Ending<'a>> {
    match ended {
        Err(Fault::WriteFault) if is_closed => Ok(()),
        ended => Ok(ended?),
    }
}

/// Returns the status of a list.
fn listed<'a>(ended: Result<(), Fault>, is_closed: bool) -> Result<ExitCode, Ending<'a>> {
    unless_unread(ended, is_closed)?;
    Ok(ExitCode::SUCCESS)
}

/// Returns the status of a yes or a no. An answer that nobody reads is no yes.
fn decided<'a>(ended: Result<bool, Fault>, is_closed: bool) -> Result<ExitCode, Ending<'a>> {
    match ended {
        Ok(true) => Ok(ExitCode::SUCCESS),
        Ok(false) => Ok(ExitCode::FAILURE),
        Err(Fault::WriteFault) if is_closed => Ok(ExitCode::FAILURE),
        Err(fault) => Err(Ending::from(fault)),
    }
}

fn tell_label<'a>(rt: &HostRuntime, policy: &Prepared, name: &str) -> Result<ExitCode, Ending<'a>> {
    let mut writer = Counted::new(Pipe::new(rt.stdout()));
    let ended = label(rt.alloc(), policy, name.as_bytes(), &mut writer);
    listed(ended, writer.into_inner().is_closed())
}

fn tell_rule<'a>(
    rt: &HostRuntime,
    policy: &Prepared,
    words: AccessWords<'_>,
) -> Result<ExitCode, Ending<'a>> {
    let source = words.source.as_bytes();
    let target = target_type(policy, words.target);
    let (class, perm) = match read_access(
        policy,
        source,
        target,
        words.class.as_bytes(),
        words.perm.as_bytes(),
    ) {
        Ok(access) => access,
        Err(unknown) => return Ok(refuse_word(rt, &unknown)),
    };
    let mut writer = Counted::new(Pipe::new(rt.stdout()));
    let ended = explain(rt.alloc(), policy, source, target, class, perm, &mut writer);
    decided(ended, writer.into_inner().is_closed())
}

/// Returns the name of the target's type.
fn target_type<'a>(policy: &'a Prepared, target: TargetWord<'a>) -> &'a [u8] {
    match target {
        TargetWord::Type(name) => name.as_bytes(),
        TargetWord::Name(name) => policy.label(name.as_bytes()).type_name(),
    }
}

fn tell_accesses<'a>(
    rt: &HostRuntime,
    policy: &Prepared,
    words: FilterWords<'_>,
) -> Result<ExitCode, Ending<'a>> {
    let options = filter_options(words);
    let filter = match read_filter(policy, &options) {
        Ok(filter) => filter,
        Err(unknown) => return Ok(refuse_word(rt, &unknown)),
    };
    let mut writer = Counted::new(Pipe::new(rt.stdout()));
    let ended = access(rt.alloc(), policy, &filter, &mut writer);
    listed(ended, writer.into_inner().is_closed())
}

/// Lists the types and attributes of a policy, or the one of this name.
fn tell_types<'a>(
    rt: &HostRuntime,
    policy: &Prepared,
    name: Option<&str>,
) -> Result<ExitCode, Ending<'a>> {
    if let Some(name) = name
        && !knows(policy, name.as_bytes())
    {
        return Ok(refuse_word(rt, &Unknown::Type(word(name))));
    }
    let name = name.map(word);
    let mut writer = Counted::new(Pipe::new(rt.stdout()));
    let ended = types(rt.alloc(), policy, &name, &mut writer);
    listed(ended, writer.into_inner().is_closed())
}

/// Lists the names for which a source has a permission.
fn tell_names<'a>(
    rt: &HostRuntime,
    policy: &Prepared,
    words: NameWords<'_>,
) -> Result<ExitCode, Ending<'a>> {
    let source = words.source.as_bytes();
    let perm = words.perm.as_bytes();
    let perm = match read_access(policy, source, source, b"service_manager", perm) {
        Ok((_, perm)) => perm,
        Err(unknown) => return Ok(refuse_word(rt, &unknown)),
    };
    let mut writer = Counted::new(Pipe::new(rt.stdout()));
    let ended = names(rt.alloc(), policy, source, perm, &mut writer);
    listed(ended, writer.into_inner().is_closed())
}

/// Lists the rules of a policy, whose policy source has this path.
fn tell_rules<'a>(
    rt: &HostRuntime,
    policy: &Prepared,
    path: &str,
    source: &[u8],
    words: RuleFilterWords<'_>,
) -> Result<ExitCode, Ending<'a>>
    requires { rules_of source.now ≡ Ok policy.now.statements }
{
    let options = RuleOptions {
        kind: words.kind.map(word),
        accesses: filter_options(words.accesses),
    };
    let filter = match read_rule_filter(policy, &options) {
        Ok(filter) => filter,
        Err(unknown) => return Ok(refuse_word(rt, &unknown)),
    };
    let mut writer = Counted::new(Pipe::new(rt.stdout()));
    let ended = rules(
        rt.alloc(),
        policy,
        &filter,
        path.as_bytes(),
        source,
        &mut writer,
    );
    listed(ended, writer.into_inner().is_closed())
}

/// Lists what is of no use in a policy of these files.
fn tell_unused<'a>(
    rt: &HostRuntime,
    policy: &Prepared,
    options: &Options<'a>,
    source: &[u8],
) -> Result<ExitCode, Ending<'a>>
    requires { rules_of source.now ≡ Ok policy.now.statements }
{
    let (rules, contexts) = (options.rules.as_bytes(), options.contexts.as_bytes());
    let mut writer = Counted::new(Pipe::new(rt.stdout()));
    let ended = unused(rt.alloc(), policy, rules, contexts, source, &mut writer);
    decided(ended, writer.into_inner().is_closed())
}

/// Reads the log on standard input, and writes what the policy says of its denials.
fn tell_suggestions<'a>(rt: &HostRuntime, policy: &Prepared) -> Result<ExitCode, Ending<'a>> {
    let log = log_of(rt)?;
    if log.len() > MOST_LOG_BYTES {
        return Err(Ending::LogTooLarge);
    }
    let mut writer = Counted::new(Pipe::new(rt.stdout()));
    let ended = suggest(rt.alloc(), policy, &log, &mut writer);
    decided(ended, writer.into_inner().is_closed())
}

/// Reads the log on standard input.
fn log_of<'a>(rt: &HostRuntime) -> Result<Vec<u8>, Ending<'a>> {
    match read_log(rt.alloc(), rt.stdin()) {
        Ok(log) => Ok(log),
        Err(error) if error.kind() == ErrorKind::OutOfMemory => Err(Ending::Memory),
        Err(_) => Err(Ending::from(Fault::ReadFault)),
    }
}

fn filter_options<'a>(words: FilterWords<'a>) -> FilterOptions<'a> {
    FilterOptions {
        source: words.source.map(word),
        target: match words.target {
            Some(TargetWord::Type(name)) => Target::Type(word(name)),
            Some(TargetWord::Name(name)) => Target::Name(word(name)),
            None => Target::Any,
        },
        class: words.class.map(word),
        perm: words.perm.map(word),
    }
}

fn word<'a>(text: &'a str) -> Word<'a> {
    Word::new(text.as_bytes())
}

/// Reads the new policy, and lists what differs from the old one.
fn tell_differences<'a>(
    rt: &HostRuntime,
    old: &Prepared,
    files: NewFiles<'a>,
) -> Result<ExitCode, Ending<'a>> {
    match read_policy(rt, files.rules, files.contexts)? {
        Some(new) => compare(rt, old, &new),
        None => Err(refused(files.rules, files.contexts)),
    }
}

fn compare<'a>(rt: &HostRuntime, old: &Prepared, new: &Prepared) -> Result<ExitCode, Ending<'a>> {
    let mut writer = Counted::new(Pipe::new(rt.stdout()));
    let ended = diff(rt.alloc(), old, new, &mut writer);
    decided(ended, writer.into_inner().is_closed())
}

/// Reads a policy and its source. Prints the refusal, if it is refused.
fn read_named<'a>(
    rt: &HostRuntime,
    rules: &'a str,
    contexts: &'a str,
) -> Result<(Prepared, Vec<u8>), Ending<'a>> {
    let source = text_of(rt, rules)?;
    let labels = text_of(rt, contexts)?;
    match Prepared::from_texts(rt.alloc(), &source, &labels) {
        Ok(policy) => Ok((policy, source)),
        Err(fault) => {
            refuse(rt, &fault)?;
            Err(refused(rules, contexts))
        }
    }
}

/// Reads two policies, and lists the rules that grant what differs between them.
fn tell_rule_differences<'a>(
    rt: &HostRuntime,
    options: &Options<'a>,
    files: NewFiles<'a>,
) -> Result<ExitCode, Ending<'a>> {
    let (old, old_source) = read_named(rt, options.rules, options.contexts)?;
    let (new, new_source) = read_named(rt, files.rules, files.contexts)?;
    let old_file = RulesFile {
        path: options.rules.as_bytes(),
        text: &old_source,
    };
    let new_file = RulesFile {
        path: files.rules.as_bytes(),
        text: &new_source,
    };
    let mut writer = Counted::new(Pipe::new(rt.stdout()));
    let ended = diff_rules(rt.alloc(), &old, &old_file, &new, &new_file, &mut writer);
    decided(ended, writer.into_inner().is_closed())
}
