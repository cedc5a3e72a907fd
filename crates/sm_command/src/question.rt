//! Questions to a policy.

use clap::ArgMatches;

/// A question to a policy.
#[derive(Clone, Copy, PartialEq, Eq)]
pub enum Question<'a> {
    /// `svcmgr label RULES CONTEXTS NAME`, of which this is the name.
    Label(&'a str),
    /// `svcmgr explain [--name] RULES CONTEXTS SOURCE TARGET CLASS PERM`
    Explain(AccessWords<'a>),
    /// `svcmgr access [--source TYPE] [--target TYPE] [--name NAME] [--class CLASS] [--perm PERM] RULES CONTEXTS`
    Access(FilterWords<'a>),
    /// `svcmgr types [--of NAME] RULES CONTEXTS`, of which this is the name.
    Types(Option<&'a str>),
    /// `svcmgr names --source TYPE [--perm PERM] RULES CONTEXTS`
    Names(NameWords<'a>),
    /// `svcmgr diff [--rules] RULES CONTEXTS NEWRULES NEWCONTEXTS`
    Diff {
        files: NewFiles<'a>,
        /// Whether rules are listed in place of accesses.
        by_rules: bool,
    },
}

/// The target of an access.
#[derive(Clone, Copy, PartialEq, Eq)]
pub enum TargetWord<'a> {
    /// The name of a type.
    Type(&'a str),
    /// The name of a service, whose label has the type.
    Name(&'a str),
}

/// The words for an access.
#[derive(Clone, Copy, PartialEq, Eq)]
pub struct AccessWords<'a> {
    pub source: &'a str,
    pub target: TargetWord<'a>,
    pub class: &'a str,
    pub perm: &'a str,
}

/// The words that accesses must have, each if it is given.
#[derive(Clone, Copy, PartialEq, Eq)]
pub struct FilterWords<'a> {
    pub source: Option<&'a str>,
    pub target: Option<TargetWord<'a>>,
    pub class: Option<&'a str>,
    pub perm: Option<&'a str>,
}

/// The words that rules must have, each if it is given.
#[derive(Clone, Copy, PartialEq, Eq)]
pub struct RuleFilterWords<'a> {
    pub kind: Option<&'a str>,
    /// Of the accesses, one of which a rule must cover.
    pub accesses: FilterWords<'a>,
}

/// The words for a list of names.
#[derive(Clone, Copy, PartialEq, Eq)]
pub struct NameWords<'a> {
    pub source: &'a str,
    pub perm: &'a str,
}

/// The files of the policy that another one is compared with.
#[derive(Clone, Copy, PartialEq, Eq)]
pub struct NewFiles<'a> {
    pub rules: &'a str,
    pub contexts: &'a str,
}

/// Returns the question of the command that has this name.
pub fn question_of<'a>(name: &str, matches: &ArgMatches<'a>) -> Option<Question<'a>> {
    match name {
        "label" => Some(Question::Label(matches.get_str("name")?)),
        "explain" => Some(Question::Explain(access_of(matches)?)),
        "access" => Some(Question::Access(filter_of(matches))),
        "types" => Some(Question::Types(matches.get_str("of"))),
        "names" => Some(Question::Names(name_words_of(matches)?)),
        "diff" => Some(Question::Diff {
            files: new_files_of(matches)?,
            by_rules: matches.get_flag("by-rules"),
        }),
        _ => None,
    }
}

fn access_of<'a>(matches: &ArgMatches<'a>) -> Option<AccessWords<'a>> {
    let target = matches.get_str("target")?;
    Some(AccessWords {
        source: matches.get_str("source")?,
        target: if matches.get_flag("name") {
            TargetWord::Name(target)
        } else {
            TargetWord::Type(target)
        },
        class: matches.get_str("class")?,
        perm: matches.get_str("perm")?,
    })
}

/// Returns the words for a list of rules.
pub fn rule_filter_of<'a>(matches: &ArgMatches<'a>) -> RuleFilterWords<'a> {
    RuleFilterWords {
        kind: matches.get_str("kind"),
        accesses: filter_of(matches),
    }
}

fn filter_of<'a>(matches: &ArgMatches<'a>) -> FilterWords<'a> {
    FilterWords {
        source: matches.get_str("source"),
        target: target_of(matches),
        class: matches.get_str("class"),
        perm: matches.get_str("perm"),
    }
}

/// Returns the target that is asked for. The parser refuses a type beside a name.
fn target_of<'a>(matches: &ArgMatches<'a>) -> Option<TargetWord<'a>> {
    match matches.get_str("target") {
        Some(target) => Some(TargetWord::Type(target)),
        None => Some(TargetWord::Name(matches.get_str("name")?)),
    }
}

fn name_words_of<'a>(matches: &ArgMatches<'a>) -> Option<NameWords<'a>> {
    Some(NameWords {
        source: matches.get_str("source")?,
        perm: matches.get_str("perm")?,
    })
}

fn new_files_of<'a>(matches: &ArgMatches<'a>) -> Option<NewFiles<'a>> {
    Some(NewFiles {
        rules: matches.get_str("new-rules")?,
        contexts: matches.get_str("new-contexts")?,
    })
}
