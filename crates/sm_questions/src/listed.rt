//! Which statements are rules that are listed.

ghost use Rattle.std.specs.Prelude.{◌≡◌, ◌++◌, OnOk};
ghost use Rattle.sm_questions.specs.Covering.{AreLeft, AreQuotes, IsNext, is_asked, lists, statement_lines};

use crate::RuleFilter;
use crate::left::Left;
use crate::passed::Passed;
use crate::quotes::Quotes;
use sm_policy::Prepared;
use sm_ruletext::{RuleKind, Statement, What};
use std::alloc::{AllocError, Global};

fn is_asked(wanted: Option<RuleKind>, kind: RuleKind) -> bool
    ensures { result ≡ is_asked wanted kind }
{
    match wanted {
        Some(wanted) => wanted == kind,
        None => true,
    }
}

/// Returns whether a statement is a rule that is listed.
fn is_listed(
    policy: &Prepared,
    filter: &RuleFilter<'_>,
    left: &Left,
    passed: &Passed,
    statement: &Statement,
) -> bool
    requires left { AreLeft policy.now filter.now.accesses left.now }
    requires next { IsNext policy.now passed.now statement.now }
    ensures { result ≡ lists policy.now filter.now statement.now }
{
    let What::Rule(kind, rule) = &statement.what else {
        return false;
    };
    if !rule.is_kept() || !is_asked(filter.kind, *kind) {
        return false;
    }
    let rules = policy.rules();
    match passed.next(rules, *kind) {
        Some(kept) => left.meets(kept, rules.type_count()),
        None => false,
    }
}

/// Appends the line for a statement, if it is a rule that is listed.
pub fn push_listed(
    alloc: Global,
    policy: &Prepared,
    filter: &RuleFilter<'_>,
    left: &Left,
    passed: &Passed,
    statement: &Statement,
    quotes: &mut Quotes<'_>,
    held: &mut Vec<u8>,
) -> Result<(), AllocError>
    requires left { AreLeft policy.now filter.now.accesses left.now }
    requires next { IsNext policy.now passed.now statement.now }
    requires quotes { AreQuotes quotes.old.path.now quotes.old.text.now quotes.old }
    ensures quotes { OnOk result (AreQuotes quotes.old.path.now quotes.old.text.now quotes.new) }
    ensures line { OnOk result (held.new.items ≡ held.old.items
        ++ statement_lines quotes.old.path.now quotes.old.text.now policy.now filter.now statement.now) }
{
    if !is_listed(policy, filter, left, passed, statement) {
        return Ok(());
    }
    quotes.push(alloc, statement.line, held)
}
