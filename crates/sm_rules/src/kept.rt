//! Kept rules, with their sets expanded.

ghost use Rattle.std.specs.Prelude.{◌≡◌, ◌<◌, ◌≤◌, ◌+◌, ◌/◌, ◌*◌, ℕ, List, length, nat_eq, IfOk, IfErr, Some, None};
ghost use Rattle.std.specs.Prelude.{true, false};
ghost use Rattle.std.specs.List.{list_all};
ghost use Rattle.sm_bits.specs.Bits.{has};
ghost use Rattle.sm_ruletext.specs.declared.statement.Statement.{Statement as TheStatement};
ghost use Rattle.sm_types.specs.Names.{at};
ghost use Rattle.sm_types.specs.Denoting.{in_set, all_known};
ghost use Rattle.sm_types.specs.Members.{IsOf};
ghost use Rattle.sm_rules.specs.Faults as spec;
ghost use Rattle.sm_rules.specs.Faults.{UnlessMemory, rule_fault};
ghost use Rattle.sm_rules.specs.Keeping.{joins, covers, FitsRule, StandsFor};
ghost use Rattle.sm_rules.specs.Memoed.{Denotes, Grants, IsRight};
ghost use Rattle.sm_rules.specs.Pooling.{HasMembers};
ghost use Rattle.sm_rules.specs.declared.fault.RulesFault.TheVariants.{Unknown};

use crate::RulesFault;
use crate::memo::Memo;
use crate::perm_bits::{has_perm, perms_of};
use crate::row_pool::RowPool;
use sm_bits::SharedSet;
use sm_ruletext::{Rule, Set};
use sm_types::{Types, TypesFault};
use sm_values::{Class, Names, Perms, drop_fields};
use std::alloc::{AllocError, Global};

/// A kept rule: its types as numbers, its permissions as bits.
pub struct Kept {
    /// The line of its statement.
    pub line: u32,
    pub sources: SharedSet,
    pub targets: SharedSet,
    /// Its target has `self`: each source type is also a target of itself.
    pub to_self: bool,
    /// The permissions that it grants, each of a class that it selects.
    pub perms: Perms,
}

impl Drop for Kept {
    fn drop(self) {
        drop_fields!(self: line, sources, targets, to_self, perms);
    }
}

impl Kept {
    /// Returns whether the rule joins the two types.
    pub fn joins(&self, s: usize, t: usize) -> bool
        requires source { s < 64 * length self.now.sources }
        requires target { t < 64 * length self.now.targets }
        ensures { result ≡ joins s t self.now }
    {
        self.sources.has(s) && (self.targets.has(t) || (self.to_self && s == t))
    }

    /// Returns whether the rule grants permission `bit` on the two types.
    pub fn covers(&self, bit: u32, s: usize, t: usize) -> bool
        requires bit { bit < 8 }
        requires source { s < 64 * length self.now.sources }
        requires target { t < 64 * length self.now.targets }
        ensures { result ≡ covers bit s t self.now }
    {
        self.joins(s, t) && has_perm(self.perms, bit)
    }
}

fn all_classes(names: &Names) -> bool
    ensures { result ≡ list_all spec.is_class names.now }
{
    names
        .list()
        .iter()
        .all(|name| Class::read(name.bytes()).is_some())
}

#[tactic(auto, unfolding(crate::specs::Faults::is_open))]
fn is_open(set: &Set) -> bool
    ensures { result ≡ spec.is_open set.now }
{
    (set.has_star() || set.is_complement())
        || !(all_classes(set.plus()) && all_classes(set.minus()))
}

#[tactic(auto, unfolding(crate::specs::Faults::applies))]
fn applies(rule: &Rule, word: &[u8]) -> bool
    ensures { result ≡ spec.applies rule.now word.now }
{
    (rule.class.selects(b"service_manager") && Perms::read(Class::ServiceManager, word).is_some())
        || (rule.class.selects(b"binder") && Perms::read(Class::Binder, word).is_some())
}

fn all_apply(rule: &Rule, names: &Names) -> bool
    ensures { result ≡ list_all (spec.applies rule.now) names.now }
{
    names.list().iter().all(|name| applies(rule, name.bytes()))
}

#[tactic(auto, unfolding(crate::specs::Faults::perms_known))]
fn perms_known(rule: &Rule) -> bool
    ensures { result ≡ spec.perms_known rule.now }
{
    is_open(&rule.class)
        || (all_apply(rule, rule.perm.plus()) && all_apply(rule, rule.perm.minus()))
}

/// Expands a set of types of the rule at a line anew.
fn expand_new(
    alloc: Global,
    types: &Types,
    pool: &mut RowPool,
    line: u32,
    set: &Set,
) -> Result<SharedSet, RulesFault>
    requires { HasMembers types.now pool.old }
    ensures pool { pool.new ≡ pool.old }
    ensures denoted { IfOk result (λ row. Denotes types.now set.now row) }
    ensures unknown { IfErr result (λ e. UnlessMemory e ((e ≡ Unknown line)
        × ((policy : List TheStatement) → IsOf policy types.now
        → all_known policy set.now ≡ false))) }
{
    prove!(types.type_count().words() < 100);
    if let Some(number) = types.only(set) {
        return Ok(SharedSet::one(number, types.type_count().words()));
    }
    if let Some(attribute) = types.only_attribute(set) {
        return Ok(pool.members(attribute)?);
    }
    match types.expand(alloc, set) {
        Ok(row) => Ok(pool.share(alloc, row)?),
        Err(TypesFault::Memory) => Err(RulesFault::Memory),
        Err(_) => Err(RulesFault::Unknown(line)),
    }
}

/// Expands a set of types of the rule at a line, or finds the types of an equal one.
fn expand(
    alloc: Global,
    types: &Types,
    pool: &mut RowPool,
    memo: &mut Memo,
    line: u32,
    set: &Set,
) -> Result<SharedSet, RulesFault>
    requires pool { HasMembers types.now pool.old }
    requires memo { IsRight types.now memo.old }
    ensures pool { pool.new ≡ pool.old }
    ensures memo { IfOk result (λ row. IsRight types.now memo.new) }
    ensures denoted { IfOk result (λ row. Denotes types.now set.now row) }
    ensures unknown { IfErr result (λ e. UnlessMemory e ((e ≡ Unknown line)
        × ((policy : List TheStatement) → IsOf policy types.now
        → all_known policy set.now ≡ false))) }
{
    if let Some(known) = memo.row(set)? {
        return Ok(known);
    }
    let row = expand_new(alloc, types, pool, line, set)?;
    memo.keep_row(set, &row);
    Ok(row)
}

/// Returns whether the permissions of a rule are known, and those that it grants.
fn grants(
    alloc: Global,
    types: &Types,
    memo: &mut Memo,
    rule: &Rule,
) -> Result<(bool, Perms), AllocError>
    requires { IsRight types.now memo.old }
    ensures grants { IfOk result (λ g. Grants rule.now g.0 g.1) }
    ensures memo { IfOk result (λ g. IsRight types.now memo.new) }
{
    if let Some(known) = memo.grants(rule) {
        return Ok(known);
    }
    let known = perms_known(rule);
    let perms = perms_of(rule);
    memo.keep_grants(alloc, rule, known, perms);
    Ok((known, perms))
}

/// Expands the rule at a line: first its source, then its target, then its permissions.
#[tactic(auto, unfolding(crate::specs::Faults::rule_fault))]
pub fn keep(
    alloc: Global,
    types: &Types,
    pool: &mut RowPool,
    memo: &mut Memo,
    line: u32,
    rule: &Rule,
) -> Result<Kept, RulesFault>
    requires pool { HasMembers types.now pool.old }
    requires memo { IsRight types.now memo.old }
    ensures pool { pool.new ≡ pool.old }
    ensures memo { IfOk result (λ k. IsRight types.now memo.new) }
    ensures refused { IfErr result (λ e. UnlessMemory e ((policy : List TheStatement)
        → IsOf policy types.now → rule_fault policy line rule.now ≡ Some e)) }
    ensures accepted { IfOk result (λ k. (policy : List TheStatement) → IsOf policy types.now
        → rule_fault policy line rule.now ≡ None) }
    ensures stands { IfOk result (λ k. (policy : List TheStatement) → IsOf policy types.now
        → StandsFor policy types.now.symbols.types (line, rule.now) k) }
    ensures fits { IfOk result (λ k. FitsRule (length types.now.symbols.types) k) }
{
    let sources = expand(alloc, types, pool, memo, line, &rule.source)?;
    let targets = expand(alloc, types, pool, memo, line, &rule.target)?;
    let (known, perms) = grants(alloc, types, memo, rule)?;
    if !known {
        return Err(RulesFault::UnknownPermission(line));
    }
    Ok(Kept {
        line,
        sources,
        targets,
        to_self: rule.to_self,
        perms,
    })
}
