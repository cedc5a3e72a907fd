//! The rules that are of no use.

ghost use Rattle.std.specs.Prelude.{◌≡◌, ◌&&◌, [], length, map, nat_eq, IfOk, OnOk};
ghost use Rattle.sm_ruletext.specs.declared.statement.RuleKind.TheVariants.{Allow};
ghost use Rattle.sm_rules.specs.Keeping.{rules_in};
ghost use Rattle.sm_unused.specs.Missing.{AreMissing};
ghost use Rattle.sm_unused.specs.Unused as spec;

use crate::missing::Missing;
use sm_policy::Prepared;
use sm_values::drop_fields;
use std::alloc::{AllocError, Global};

/// The lines of the rules that are of no use, in the order of the source.
pub struct UnusedRules {
    pub allows: Vec<u32>,
    pub dontaudits: Vec<u32>,
}

impl Drop for UnusedRules {
    fn drop(self) {
        drop_fields!(self: allows, dontaudits);
    }
}

/// Returns the lines of the allow rules that grant no access which the rules above them don't grant. Afterwards, the
/// accesses are those that no rule grants.
fn unused_allows(
    alloc: Global,
    policy: &Prepared,
    missing: &mut Missing,
) -> Result<Vec<u32>, AllocError>
    requires all { AreMissing policy.now.statements [] missing.old }
    ensures lines { IfOk result (λ lines. lines.items
        ≡ map (λ r. r.0) (spec.unused_allows policy.now.statements)) }
    ensures missing { OnOk result
        (AreMissing policy.now.statements (rules_in Allow policy.now.statements) missing.new) }
{
    let mut lines = Vec::new(alloc);
    for rule in policy.rules().allows() {
        if !missing.take(alloc, rule)? {
            lines.push(rule.line)?;
        }
    }
    Ok(lines)
}

/// Returns the lines of the dontaudit rules that cover only what some allow rule grants.
fn unused_dontaudits(
    alloc: Global,
    policy: &Prepared,
    missing: &Missing,
) -> Result<Vec<u32>, AllocError>
    requires missing { AreMissing policy.now.statements (rules_in Allow policy.now.statements) missing.now }
    ensures { IfOk result (λ lines. lines.items ≡ map (λ r. r.0) (spec.unused_dontaudits policy.now.statements)) }
{
    let mut lines = Vec::new(alloc);
    for rule in policy.rules().silences() {
        if !missing.meets(rule) {
            lines.push(rule.line)?;
        }
    }
    Ok(lines)
}

impl UnusedRules {
    /// Returns whether there are none.
    pub fn are_none(&self) -> bool
        ensures { result ≡ (nat_eq (length self.now.allows.items) 0 && nat_eq (length self.now.dontaudits.items) 0) }
    {
        self.allows.is_empty() && self.dontaudits.is_empty()
    }

    /// Finds the rules of a policy that are of no use.
    pub fn find(alloc: Global, policy: &Prepared) -> Result<UnusedRules, AllocError>
        ensures allows { IfOk result (λ unused. unused.allows.items
            ≡ map (λ r. r.0) (spec.unused_allows policy.now.statements)) }
        ensures dontaudits { IfOk result (λ unused. unused.dontaudits.items
            ≡ map (λ r. r.0) (spec.unused_dontaudits policy.now.statements)) }
    {
        let mut missing = Missing::all(alloc, policy.rules().type_count())?;
        let allows = unused_allows(alloc, policy, &mut missing)?;
        let dontaudits = unused_dontaudits(alloc, policy, &missing)?;
        Ok(UnusedRules { allows, dontaudits })
    }
}
