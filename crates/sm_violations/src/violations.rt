//! The violations of a policy source, one after the other.

ghost use Rattle.std.specs.Prelude.{◌≡◌, ◌<◌, ℕ, length, IfOk, IfSome, IfNone, All, Some, slice_get};
ghost use Rattle.sm_rules.specs.Keeping.{FitsRule};
ghost use Rattle.sm_rules.specs.declared.kept.Kept.{Kept as TheKept};
ghost use Rattle.sm_types.specs.Names.{at};
ghost use Rattle.sm_matrices.specs.Matrices.{AllCompiled};
ghost use Rattle.sm_policy.specs.Violating.{named_violation};
ghost use Rattle.sm_violations.specs.Bounding.{AllBound};
ghost use Rattle.sm_violations.specs.Finding.{AreApartFrom, IsEnd, IsFirstFrom, IsNext};

use crate::bounds::{Bounds, all_bounds, may_be_broken};
use crate::clash::clash;
use sm_matrices::Matrices;
use sm_neverallow::NumberedViolation;
use sm_policy::{PolicyFault, Violation};
use sm_rules::{Kept, Rules};
use sm_ruletext::Statement;
use sm_types::{TypeCount, Types};
use sm_values::{Name, drop_fields};
use std::alloc::{AllocError, Global};
use std::marker::Model;
use std::snapshot::Snapshot;

/// A violation of a neverallow rule, and the index behind that of the allow rule that breaks it.
#[derive(Clone, Copy)]
pub struct Found {
    next: usize,
    violation: NumberedViolation,
}

/// A violation, and where the next one is sought: the index of the neverallow rule, and that of the first allow rule.
#[derive(Clone, Copy)]
pub struct Next {
    never: usize,
    allow: usize,
    violation: NumberedViolation,
}

/// Returns the violation of a neverallow rule by the first allow rule from the index `start` on that breaks it.
fn first_from(allows: &[Kept], never: &Kept, count: TypeCount, start: usize) -> Option<Found>
    requires allows { All (FitsRule count) allows.now }
    requires never { FitsRule count never.now }
    ensures none { IfNone result (AreApartFrom allows.now never.now count start) }
    ensures some { IfSome result (λ found. IsFirstFrom allows.now never.now count start found) }
{
    for place in start..allows.len() {
        if let Some(violation) = clash(&allows[place], never, count) {
            return Some(Found {
                next: place + 1,
                violation,
            });
        }
    }
    None
}

/// Returns the next violation of the neverallow rule at an index, by the allow rules from the index `start` on.
fn next_of_rule(
    rules: &Rules,
    matrices: &Matrices,
    bounds: &[Bounds],
    never: usize,
    start: usize,
) -> Option<Found>
    requires compiled { AllCompiled rules.now.allows rules.now.count 7 matrices.now }
    requires bounds { AllBound matrices.now rules.now.count bounds.now }
    requires never { never < length rules.now.neverallows }
    ensures none { IfNone result ((rule : TheKept) → slice_get rules.now.neverallows never ≡ Some rule
        → AreApartFrom rules.now.allows rule rules.now.count start) }
    ensures some { IfSome result (λ found. (rule : TheKept) → slice_get rules.now.neverallows never ≡ Some rule
        → IsFirstFrom rules.now.allows rule rules.now.count start found) }
{
    let count = rules.type_count();
    let nevers = rules.neverallows();
    let rule = &nevers[never];
    if start == 0 && !may_be_broken(matrices, bounds, rule, count) {
        return None;
    }
    first_from(rules.allows(), rule, count, start)
}

/// Returns the next violation of the neverallow rules from the index `never` on, and of the first of these by the allow
/// rules from the index `allow` on.
fn next_from(
    rules: &Rules,
    matrices: &Matrices,
    bounds: &[Bounds],
    never: usize,
    allow: usize,
) -> Option<Next>
    requires compiled { AllCompiled rules.now.allows rules.now.count 7 matrices.now }
    requires bounds { AllBound matrices.now rules.now.count bounds.now }
    ensures none { IfNone result (IsEnd rules.now never allow) }
    ensures some { IfSome result (λ next. IsNext rules.now never allow next) }
{
    let mut start = allow;
    for rule in never..rules.neverallows().len() {
        if let Some(found) = next_of_rule(rules, matrices, bounds, rule, start) {
            return Some(Next {
                never: rule,
                allow: found.next,
                violation: found.violation,
            });
        }
        start = 0;
    }
    None
}

/// Returns the name of a type by its number, or nothing if there is no such type.
#[tactic(auto, using(std::proofs::lemmas::Option::gets, std::proofs::lemmas::Grind::common_steps))]
fn type_name(types: &Types, index: u16) -> &[u8]
    ensures { result.now ≡ at types.now.symbols.types index }
{
    types.name(index).unwrap_or(b"")
}

/// Looks up the names of a violation's types.
fn named(
    alloc: Global,
    types: &Types,
    violation: &NumberedViolation,
) -> Result<Violation, AllocError>
    ensures { IfOk result (λ v. v ≡ named_violation types.now.symbols.types violation.now) }
{
    let source = Name::new(alloc, type_name(types, violation.source))?;
    let target = Name::new(alloc, type_name(types, violation.target))?;
    Ok(Violation {
        never_line: violation.never_line,
        allow_line: violation.allow_line,
        source,
        target,
        class: violation.class,
        perm: violation.perm,
    })
}

/// The violations of a policy source that aren't taken yet. Contracts see their list.
pub struct Violations {
    /// The statements of the policy source, for contracts only. They need no memory.
    statements: Snapshot<Vec<Statement>>,
    types: Types,
    rules: Rules,
    matrices: Matrices,
    bounds: Vec<Bounds>,
    /// The index of the neverallow rule whose violations are next.
    never: usize,
    /// The index of the first allow rule that isn't tried against it yet.
    allow: usize,
}

impl Drop for Violations {
    fn drop(self) {
        drop_fields!(self: statements, types, rules, matrices, bounds, never, allow);
    }
}

impl Model for Violations {
    ghost use Rattle.std.specs.Prelude.{List};
    ghost use Rattle.sm_policy.specs.declared.violation.Violation.{Violation as TheViolation};
    ghost use Rattle.sm_violations.specs.Finding.{AreOf};
    ghost use Rattle.sm_violations.specs.Listing.{violations_left};

    ghost Value = { List TheViolation };

    ghost view = { λ v. violations_left v.statements.value.items v.never v.allow };

    ghost invariant = { λ v. AreOf v.statements.value.items v.types v.rules v.matrices v.bounds.items };
}

impl Violations {
    ghost use Rattle.std.specs.Prelude.{◌≡◌, ◌++◌, [], IfOk, IfNone, OnErr, option_to_list};
    ghost use Rattle.sm_values.specs.Reading.{Gives};
    ghost use Rattle.sm_policy.specs.Preparing.{is_memory};
    ghost use Rattle.sm_violations.specs.Listing.{violations_in};

    /// Finds the violations in a policy source.
    ///
    /// # Errors
    ///
    /// The first refusal of the policy source, if its rules can't be read: its grammar (`Rules`), its declarations
    /// (`Types`), or the names and permissions of its rules (`Access`). `Memory` if an allocation fails before that.
    #[tactic(auto, using(crate::proofs::Left::left_whole), unfolding(crate::specs::Listing::violations_in, sm_policy::specs::Preparing::rules_of))]
    pub fn read(alloc: Global, text: &[u8]) -> Result<Violations, PolicyFault>
        ensures { Gives is_memory (λ v. v) result (violations_in text.now) }
    {
        let statements = sm_ruletext::read(alloc, text)?;
        let types = Types::build(alloc, &statements)?;
        let rules = Rules::build(alloc, &statements, &types)?;
        let seen = Snapshot::of(&statements);
        drop(statements);
        let matrices = Matrices::compile(alloc, &rules)?;
        let bounds = all_bounds(alloc, &matrices, rules.type_count())?;
        Ok(Violations {
            statements: seen,
            types,
            rules,
            matrices,
            bounds,
            never: 0,
            allow: 0,
        })
    }

    /// Takes the next violation, in the order of the neverallow rules, and for each of these in that of the allow
    /// rules.
    ///
    /// # Errors
    ///
    /// If an allocation fails; nothing is then taken.
    pub fn take(&mut self, alloc: Global) -> Result<Option<Violation>, AllocError>
        ensures taken { IfOk result (λ v. self.old ≡ option_to_list v ++ self.new) }
        ensures none { IfOk result (λ v. IfNone v (self.old ≡ [])) }
        ensures unchanged { OnErr result (self.new ≡ self.old) }
    {
        let Some(next) = next_from(
            &self.rules,
            &self.matrices,
            &self.bounds,
            self.never,
            self.allow,
        ) else {
            return Ok(None);
        };
        let violation = named(alloc, &self.types, &next.violation)?;
        self.never = next.never;
        self.allow = next.allow;
        Ok(Some(violation))
    }
}
