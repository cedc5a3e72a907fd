//! The rules of a policy source.

ghost use Rattle.std.specs.Prelude.{◌≡◌, ◌<◌, ◌≤◌, ◌+◌, ◌/◌, ◌^◌, ℕ, List, length, All, IfOk, IfErr, Some, None, false};
ghost use Rattle.std.specs.Prelude.{option_map, slice_get};
ghost use Rattle.sm_ruletext.specs.declared.statement.RuleKind.TheVariants as kind;
ghost use Rattle.sm_ruletext.specs.declared.statement.Statement.{Statement as TheStatement};
ghost use Rattle.sm_types.specs.Names.{at};
ghost use Rattle.sm_types.specs.Members.{IsOf};
ghost use Rattle.sm_rules.specs.Access.{written_line, silenced, is_permissive};
ghost use Rattle.sm_rules.specs.Faults.{UnlessMemory, first_fault};
ghost use Rattle.sm_rules.specs.Keeping.{FitsRule, covered, covered_line, RulesOf, SayAs, CoverAs};

use crate::RulesFault;
use crate::draft::{Draft, all_rules};
use crate::kept::Kept;
use crate::perm_bits::number_of;
use sm_bits::BitRow;
use sm_ruletext::Statement;
use sm_types::{TypeCount, Types};
use sm_values::{Class, Perms, drop_fields};
use std::alloc::Global;
use std::marker::Model;

/// The rules of a policy source, with their sets expanded.
///
/// Contracts see them as the lists of kept rules; `RulesOf` says that they are those of a source.
pub struct Rules {
    count: TypeCount,
    allows: Vec<Kept>,
    neverallows: Vec<Kept>,
    silences: Vec<Kept>,
    permissive: BitRow,
}

impl Model for Rules {
    ghost use Rattle.std.specs.Prelude.{◌≤◌, ◌+◌, ◌^◌, ◌<◌, length};
    ghost use Rattle.sm_rules.specs.Keeping.{KeptRules, FitsRules, IsSound};

    ghost Value = { KeptRules };

    ghost view = { λ r. record {
      count = r.count;
      allows = r.allows.items;
      neverallows = r.neverallows.items;
      silences = r.silences.items;
      permissive = r.permissive;
    } };

    ghost invariant = { λ r. IsSound r.count r.allows.items r.neverallows.items r.silences.items r.permissive };
}

impl Drop for Rules {
    fn drop(self) {
        drop_fields!(self: count, allows, neverallows, silences, permissive);
    }
}

/// Returns the line of the first rule that grants permission `bit` on the two types.
fn first_line(rules: &[Kept], count: TypeCount, bit: u32, s: usize, t: usize) -> Option<u32>
    requires fits { All (FitsRule count) rules.now }
    requires bit { bit < 8 }
    requires source { s < count }
    requires target { t < count }
    ensures { result ≡ covered_line rules.now bit s t }
{
    rules
        .iter()
        .find(|rule| rule.covers(bit, s, t))
        .map(|rule| rule.line)
}

/// Returns whether some rule grants permission `bit` on the two types.
fn any_covers(rules: &[Kept], count: TypeCount, bit: u32, s: usize, t: usize) -> bool
    requires fits { All (FitsRule count) rules.now }
    requires bit { bit < 8 }
    requires source { s < count }
    requires target { t < count }
    ensures { result ≡ covered rules.now bit s t }
{
    rules.iter().any(|rule| rule.covers(bit, s, t))
}

impl Rules {
    /// Builds the rules of a policy source whose types are `types`.
    ///
    /// # Errors
    ///
    /// The first fault of a kept rule or of a `permissive` statement in the order of the source: `Unknown` if the
    /// source or the target of the rule has a name that isn't declared, as a type or as an attribute, or if a
    /// `permissive` statement names no declared type; then `UnknownPermission` if a name of its permissions, also one
    /// behind a `-`, is one of no selected class, unless the class set has `*`, `~` or the name of another class. Rules
    /// that select neither class are skipped. `Memory` if an allocation fails.
    pub fn build(
        alloc: Global,
        statements: &[Statement],
        types: &Types,
    ) -> Result<Rules, RulesFault>
        requires { IsOf statements.now types.now }
        ensures refused { IfErr result (λ e. UnlessMemory e (first_fault statements.now ≡ Some e)) }
        ensures accepted { IfOk result (λ rules. first_fault statements.now ≡ None) }
        ensures built { IfOk result
            (λ rules. RulesOf statements.now types.now.symbols.types rules) }
    {
        let Draft {
            allows,
            neverallows,
            silences,
            permissive,
        } = all_rules(alloc, statements, types)?;
        Ok(Rules {
            count: types.type_count(),
            allows,
            neverallows,
            silences,
            permissive,
        })
    }

    /// Returns the number of declared types.
    pub fn type_count(&self) -> TypeCount
        ensures { result ≡ self.now.count }
    {
        self.count
    }

    /// Returns the kept allow rules, in the order of the source.
    #[tactic(auto, using(crate::proofs::Consistent::all_say, crate::proofs::Consistent::covered_is))]
    pub fn allows(&self) -> &[Kept]
        ensures kept { result.now ≡ self.now.allows }
        ensures fits { All (FitsRule self.now.count) result.now }
        ensures said { SayAs kind.Allow self.now result.now }
        ensures written { CoverAs kind.Allow self.now result.now }
    {
        &self.allows
    }

    /// Returns the kept allow rule at this index in the order of the source, from 0, or `None` past the last one.
    pub fn kept(&self, i: u32) -> Option<&Kept>
        ensures { option_map (λ rule. rule.now) result ≡ slice_get self.now.allows i }
    {
        self.allows.get(i as usize)
    }

    /// Returns the kept neverallow rules, in the order of the source.
    #[tactic(auto, using(crate::proofs::Consistent::all_say, crate::proofs::Consistent::covered_is))]
    pub fn neverallows(&self) -> &[Kept]
        ensures kept { result.now ≡ self.now.neverallows }
        ensures fits { All (FitsRule self.now.count) result.now }
        ensures said { SayAs kind.Neverallow self.now result.now }
        ensures forbidden { CoverAs kind.Neverallow self.now result.now }
    {
        &self.neverallows
    }

    /// Returns the kept dontaudit rules, in the order of the source.
    #[tactic(auto, using(crate::proofs::Consistent::covered_is))]
    pub fn silences(&self) -> &[Kept]
        ensures kept { result.now ≡ self.now.silences }
        ensures fits { All (FitsRule self.now.count) result.now }
        ensures silenced { CoverAs kind.Dontaudit self.now result.now }
    {
        &self.silences
    }

    /// Returns the permissive types, as bits by their numbers.
    pub fn permissive_types(&self) -> &BitRow
        ensures kept { result.now ≡ self.now.permissive }
        ensures room { length result.now ≡ self.now.count / 64 + 1 }
    {
        &self.permissive
    }

    /// Returns whether a `permissive` statement names the type of this number: no check of that source on a declared
    /// target fails for a missing allow rule. `false` if there is no such type.
    pub fn permissive(&self, source: u16) -> bool
        ensures permissive { (policy : List TheStatement) (names : List (List ℕ))
            → RulesOf policy names self.now → source < length names
            → result ≡ is_permissive policy (at names source) }
        ensures no_source { self.now.count ≤ source → result ≡ false }
    {
        let s = usize::from(source);
        if s >= self.count.get() {
            return false;
        }
        self.permissive.has(s)
    }

    /// Returns whether some dontaudit rule covers the permission on the two types, by their numbers: then a check that
    /// no allow rule passes isn't recorded. `false` if no rule does, if there is no type of such a number, or if `perm`
    /// is no single permission of the class.
    pub fn silenced(&self, source: u16, target: u16, class: Class, perm: Perms) -> bool
        ensures silenced { (policy : List TheStatement) (names : List (List ℕ))
            → RulesOf policy names self.now
            → source < length names → target < length names
            → result ≡ silenced policy (at names source) (at names target) class perm }
        ensures no_source { self.now.count ≤ source → result ≡ false }
        ensures no_target { self.now.count ≤ target → result ≡ false }
    {
        let s = usize::from(source);
        let t = usize::from(target);
        if s >= self.count.get() {
            return false;
        }
        if t >= self.count.get() {
            return false;
        }
        match number_of(class, perm) {
            Some(bit) => any_covers(&self.silences, self.count, bit, s, t),
            None => false,
        }
    }

    /// Returns the number of kept allow and neverallow rules.
    pub fn count(&self) -> usize
        ensures { result ≡ length self.now.allows + length self.now.neverallows }
    {
        self.allows.len() + self.neverallows.len()
    }

    /// Returns the line of the first allow rule that grants the permission on the two types, by their numbers. `None`
    /// if no rule does, if there is no type of such a number, or if `perm` is no single permission of the class.
    pub fn written(&self, source: u16, target: u16, class: Class, perm: Perms) -> Option<u32>
        ensures line { (policy : List TheStatement) (names : List (List ℕ))
            → RulesOf policy names self.now
            → source < length names → target < length names
            → result ≡ written_line policy (at names source) (at names target) class perm }
        ensures no_source { self.now.count ≤ source → result ≡ None }
        ensures no_target { self.now.count ≤ target → result ≡ None }
    {
        let s = usize::from(source);
        let t = usize::from(target);
        if s >= self.count.get() {
            return None;
        }
        if t >= self.count.get() {
            return None;
        }
        let bit = number_of(class, perm)?;
        first_line(&self.allows, self.count, bit, s, t)
    }

    /// The same by the names of the types, `types` being those of the source. `None` also if a name isn't that of a
    /// declared type.
    pub fn written_by_name(
        &self,
        types: &Types,
        source: &[u8],
        target: &[u8],
        class: Class,
        perm: Perms,
    ) -> Option<u32>
        ensures { (policy : List TheStatement) → IsOf policy types.now
            → RulesOf policy types.now.symbols.types self.now
            → result ≡ written_line policy source.now target.now class perm }
    {
        let s = types.index(source)?;
        let t = types.index(target)?;
        self.written(s, t, class, perm)
    }
}
