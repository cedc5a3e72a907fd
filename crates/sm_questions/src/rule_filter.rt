//! What `svcmgr rules` is asked for.

ghost use Rattle.std.specs.Prelude.{◌≡◌};
ghost use Rattle.sm_questions.specs.RuleFilters as spec;

use crate::Unknown;
use crate::filtering::{Filter, FilterOptions, read_filter};
use sm_policy::Prepared;
use sm_ruletext::RuleKind;
use sm_values::{Word, spells};

/// The options of a list of rules, as words.
#[derive(Drop)]
pub struct RuleOptions<'a> {
    pub kind: Option<Word<'a>>,
    pub accesses: FilterOptions<'a>,
}

/// Which rules are listed.
#[derive(Drop)]
pub struct RuleFilter<'a> {
    /// Only those of this kind.
    pub kind: Option<RuleKind>,
    /// Only those that cover one of these accesses.
    pub accesses: Filter<'a>,
}

fn read_kind(word: &[u8]) -> Option<RuleKind>
    ensures { result ≡ spec.kind_read word.now }
{
    if spells(word, b"allow") {
        Some(RuleKind::Allow)
    } else if spells(word, b"neverallow") {
        Some(RuleKind::Neverallow)
    } else if spells(word, b"dontaudit") {
        Some(RuleKind::Dontaudit)
    } else {
        None
    }
}

fn kind_of<'a>(kind: &Option<Word<'a>>) -> Result<Option<RuleKind>, Unknown<'a>>
    ensures { result ≡ spec.kind_of kind.now }
{
    match kind {
        Some(word) => match read_kind(word.bytes()) {
            Some(kind) => Ok(Some(kind)),
            None => Err(Unknown::Kind(Word::new(word.bytes()))),
        },
        None => Ok(None),
    }
}

/// Reads the options of a list of rules.
///
/// # Errors
///
/// The first word that names nothing: the kind, then those of [`read_filter`].
pub fn read_rule_filter<'a>(
    policy: &'a Prepared,
    options: &RuleOptions<'a>,
) -> Result<RuleFilter<'a>, Unknown<'a>>
    ensures { result ≡ spec.rule_filter_of policy.now options.now }
{
    let kind = match kind_of(&options.kind) {
        Ok(kind) => kind,
        Err(unknown) => return Err(unknown),
    };
    match read_filter(policy, &options.accesses) {
        Ok(accesses) => Ok(RuleFilter { kind, accesses }),
        Err(unknown) => Err(unknown),
    }
}
