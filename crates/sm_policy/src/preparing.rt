//! Reads the two files of a policy.

ghost use Rattle.std.specs.Prelude.{◌≡◌, ◌≤◌, List, IfOk, IfErr, OnOk, length};
ghost use Rattle.sm_values.specs.Reading.{Gives};
ghost use Rattle.sm_values.specs.declared.limits.TheConstants.{MOST_TEXT_BYTES};
ghost use Rattle.sm_ruletext.specs.declared.statement.Statement.{Statement as TheStatement};
ghost use Rattle.sm_types.specs.Members.{IsOf};
ghost use Rattle.sm_types.specs.Names.{at};
ghost use Rattle.sm_rules.specs.Access.{IsConsistent};
ghost use Rattle.sm_rules.specs.Keeping.{RulesOf};
ghost use Rattle.sm_policy.specs.Preparing as spec;
ghost use Rattle.sm_policy.specs.Preparing.{is_memory};
ghost use Rattle.sm_policy.specs.Violating.{named_violation};
ghost use Rattle.sm_policy.specs.Breaking.{IfNeverallow, IsBroken};
ghost use Rattle.sm_matrices.specs.Matrices.{AllCompiled};

use crate::{PolicyFault, Violation};
use sm_matrices::Matrices;
use sm_neverallow::first_violation;
use sm_rules::Rules;
use sm_ruletext::Statement;
use sm_types::Types;
use sm_values::Name;
use std::alloc::{AllocError, Global};

/// Reads the statements of a policy source.
#[tactic(auto, using(crate::proofs::Few::few), unfolding(crate::specs::Preparing::rules_of))]
pub fn rules_of(alloc: Global, text: &[u8]) -> Result<Vec<Statement>, PolicyFault>
    ensures exact { Gives is_memory (λ v. v.items) result (spec.rules_of text.now) }
    ensures few { IfOk result (λ v. length v.items ≤ MOST_TEXT_BYTES) }
    ensures other { IfErr result (λ e. IfNeverallow e (λ _. ⊥)) }
{
    Ok(sm_ruletext::read(alloc, text)?)
}

/// Returns the name of a type by its number, or nothing if there is no such type.
#[tactic(auto, using(std::proofs::lemmas::Option::gets, std::proofs::lemmas::Grind::common_steps))]
fn type_name(types: &Types, index: u16) -> &[u8]
    ensures { result.now ≡ at types.now.symbols.types index }
{
    types.name(index).unwrap_or(b"")
}

/// Looks up the names of a violation's types.
fn named(
    alloc: Global,
    types: &Types,
    violation: &sm_neverallow::NumberedViolation,
) -> Result<Violation, AllocError>
    ensures { IfOk result (λ v. v ≡ named_violation types.now.symbols.types violation.now) }
{
    let source = Name::new(alloc, type_name(types, violation.source))?;
    let target = Name::new(alloc, type_name(types, violation.target))?;
    Ok(Violation {
        never_line: violation.never_line,
        allow_line: violation.allow_line,
        source,
        target,
        class: violation.class,
        perm: violation.perm,
    })
}

/// Refuses rules in which an allow rule allows what a neverallow rule forbids.
#[tactic(auto, using(crate::proofs::Firsts::no_violation), unfolding(crate::specs::Preparing::unbroken))]
pub fn refuse_violation(
    alloc: Global,
    types: &Types,
    rules: &Rules,
    matrices: &Matrices,
) -> Result<(), PolicyFault>
    requires { AllCompiled rules.now.allows rules.now.count 7 matrices.now }
    ensures exact { (policy : List TheStatement) → IsOf policy types.now
        → RulesOf policy types.now.symbols.types rules.now
        → Gives is_memory (λ _. policy) result (spec.unbroken policy) }
    ensures consistent { OnOk result ((policy : List TheStatement) → IsOf policy types.now
        → RulesOf policy types.now.symbols.types rules.now → IsConsistent policy) }
    ensures broken { IfErr result (λ e. IfNeverallow e (λ v. (policy : List TheStatement)
        → IsOf policy types.now → RulesOf policy types.now.symbols.types rules.now
        → IsBroken policy v)) }
{
    match first_violation(alloc, rules, matrices)? {
        Some(violation) => Err(PolicyFault::Neverallow(named(alloc, types, &violation)?)),
        None => Ok(()),
    }
}
