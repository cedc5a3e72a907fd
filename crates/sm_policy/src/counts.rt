//! The sizes of a policy.

ghost use Rattle.std.specs.Prelude.{◌≡◌, ◌≤◌, length};
ghost use Rattle.sm_values.specs.declared.limits.TheConstants.{MOST_TEXT_BYTES};
ghost use Rattle.sm_types.specs.Members.{IsOf};
ghost use Rattle.sm_policy.specs.Counting as spec;
ghost use Rattle.sm_policy.specs.Counting.{is_counted, rule_count};

use sm_contexts::Contexts;
use sm_ruletext::{RuleKind, Statement, What};
use sm_types::Types;

/// The counts that `svcmgr check` prints of a policy.
#[derive(Clone, Copy, PartialEq, Eq)]
pub struct Counts {
    /// Declared types.
    pub types: u32,
    /// Declared attributes.
    pub attributes: u32,
    /// Allow and neverallow rules for the classes `service_manager` and `binder`.
    pub rules: u32,
    /// Distinct keys of the contexts file.
    pub labels: u32,
}

/// Returns whether a statement is an allow or a neverallow rule.
fn is_counted(what: &What) -> bool
    ensures { result ≡ is_counted what.now }
{
    matches!(what, What::Rule(RuleKind::Allow | RuleKind::Neverallow, _))
}

fn rule_count(statements: &[Statement]) -> u32
    requires { length statements.now ≤ MOST_TEXT_BYTES }
    ensures { result ≡ rule_count statements.now }
{
    let mut count: u32 = 0;
    for statement in statements {
        if is_counted(&statement.what) {
            count += 1;
        }
    }
    count
}

/// Counts the statements and labels of a policy that has these types.
#[tactic(auto, using(crate::proofs::Finding::filter_map_len))]
pub fn counted(statements: &[Statement], types: &Types, contexts: &Contexts) -> Counts
    requires few { length statements.now ≤ MOST_TEXT_BYTES }
    requires typed { IsOf statements.now types.now }
    ensures { result ≡ spec.counted statements.now contexts.now }
{
    Counts {
        types: types.count() as u32,
        attributes: types.attribute_count() as u32,
        rules: rule_count(statements),
        labels: contexts.count(),
    }
}
