//! Prepared policies.

use crate::counts::{Counts, counted};
use crate::labels::{Labels, labels_of};
use crate::preparing::{refuse_violation, rules_of};
use crate::{Decision, Label, PolicyFault};
use sm_contexts::Contexts;
use sm_matrices::{Matrices, Vectors};
use sm_rules::Rules;
use sm_ruletext::Statement;
use sm_types::Types;
use sm_values::{Class, Context, Perms, drop_fields};
use std::alloc::{AllocError, Global};
use std::marker::Model;
use std::snapshot::Snapshot;
use std::sync::Arc;

/// What all references to a policy share: its types and rules as tables, and its labels.
struct Parts {
    /// The statements of the policy source, for contracts only. They need no memory.
    statements: Snapshot<Vec<Statement>>,
    counts: Counts,
    types: Types,
    rules: Rules,
    vectors: Vectors,
    labels: Labels,
}

impl Drop for Parts {
    fn drop(self) {
        drop_fields!(self: statements, counts, types, rules, vectors, labels);
    }
}

/// A prepared policy. Its clones share one copy. Contracts see the statements of its policy source and the entries of
/// its contexts file.
pub struct Prepared {
    parts: Arc<Parts, Global>,
}

impl Model for Prepared {
    ghost use Rattle.std.specs.Arc.{arc_value};
    ghost use Rattle.sm_policy.specs.Policy.{Policy};
    ghost use Rattle.sm_policy.specs.Parts.{ArePartsOf, policy_of};

    ghost Value = { Policy };

    ghost view = { λ p. policy_of (arc_value p.parts) };

    ghost invariant = { λ p. ArePartsOf (policy_of (arc_value p.parts)) (arc_value p.parts) };
}

impl Drop for Prepared {
    fn drop(self) {
        let Prepared { parts: _ } = self;
    }
}

impl Prepared {
    ghost use Rattle.std.specs.Prelude.{◌≡◌, ◌<◌, ◌≤◌, ◌⊎◌, ℕ, List, [], Some, IfOk, IfErr, length, true, false};
    ghost use Rattle.sm_values.specs.Contexts.{type_of};
    ghost use Rattle.sm_policy.specs.Policy.{allowed, audits, decision, allowed_at, type_index, label_of, written_at};
    ghost use Rattle.sm_policy.specs.Policy.{IsConsistent, is_permissive};
    ghost use Rattle.sm_policy.specs.Breaking.{IfNeverallow, IsBrokenText};
    ghost use Rattle.sm_policy.specs.Counting.{counts_of};
    ghost use Rattle.sm_values.specs.Reading.{Gives};
    ghost use Rattle.sm_policy.specs.Preparing.{is_memory, prepared};
    ghost use Rattle.sm_policy.specs.Parts.{ArePartsOf};
    ghost use Rattle.sm_policy.specs.GrantedRow.{IsRow, granted};
    ghost use Rattle.sm_rules.specs.Keeping.{RulesOf};
    ghost use Rattle.sm_types.specs.Denoting.{types};
    ghost use Rattle.sm_types.specs.Members.{IsOf};
    ghost use Rattle.sm_types.specs.Names.{at};

    /// Prepares the policy of a policy source and a contexts file.
    ///
    /// # Errors
    ///
    /// The first refusal in this order: the grammar of the policy source (`Rules`); its declarations and memberships
    /// (`Types`); the names and permissions of its rules (`Access`); the contexts file (`Contexts`); the first entry
    /// line whose context has a type that the policy source doesn't declare (`UndeclaredLabel`); the first neverallow
    /// rule that an allow rule breaks (`Neverallow`). If an allocation fails before the first refusal is found,
    /// `Memory`.
    #[tactic(auto, using(crate::proofs::Others::never), unfolding(crate::specs::Preparing::prepared))]
    pub fn from_texts(alloc: Global, rules: &[u8], contexts: &[u8]) -> Result<Prepared, PolicyFault>
        ensures exact { Gives is_memory (λ p. p) result (prepared rules.now contexts.now) }
        ensures consistent { IfOk result IsConsistent }
        ensures broken { IfErr result (λ e. IfNeverallow e (IsBrokenText rules.now)) }
    {
        let statements = rules_of(alloc, rules)?;
        let types = Types::build(alloc, &statements)?;
        let rules = Rules::build(alloc, &statements, &types)?;
        let labels = labels_of(alloc, &types, contexts)?;
        let counts = counted(&statements, &types, &labels.contexts);
        let seen = Snapshot::of(&statements);
        drop(statements);
        let matrices = Matrices::compile(alloc, &rules)?;
        refuse_violation(alloc, &types, &rules, &matrices)?;
        let vectors = Vectors::compile(alloc, &rules, matrices)?;
        let parts = Parts {
            statements: seen,
            counts,
            types,
            rules,
            vectors,
            labels,
        };
        let parts = Arc::new(alloc, parts)?;
        Ok(Prepared { parts })
    }

    fn parts(&self) -> &Parts
        ensures { ArePartsOf self.now result.now }
    {
        &self.parts
    }

    /// Returns whether a check of this permission passes: some allow rule grants it to the source type on the target
    /// type, or the source is permissive and the target declared. Types are given by their names. `false` for a type
    /// that isn't declared and for a `perm` that is no single permission of the class.
    pub fn allows(&self, source: &[u8], target: &[u8], class: Class, perm: Perms) -> bool
        ensures { result ≡ allowed self.now source.now target.now class perm }
    {
        self.decide(source, target, class, perm).allowed
    }

    /// Returns whether a check is audited, passed or not: no allow rule grants the permission, and no dontaudit rule
    /// covers it. `true` for a type that isn't declared and for a `perm` that is no single permission of the class.
    pub fn audits(&self, source: &[u8], target: &[u8], class: Class, perm: Perms) -> bool
        ensures { result ≡ audits self.now source.now target.now class perm }
    {
        self.decide(source, target, class, perm).audited
    }

    /// Returns the number of a type, which `allows_at` and `decide_at` take: 0 for the first that is declared. `None`
    /// if the policy source declares no type of that name. Another policy may number the type otherwise.
    pub fn type_index(&self, name: &[u8]) -> Option<u16>
        ensures { result ≡ type_index self.now name.now }
    {
        self.parts().types.index(name)
    }

    /// Like `allows`, for the types of these numbers. `false` if a number has no type.
    #[tactic(auto, unfolding(crate::specs::Policy::allowed))]
    pub fn allows_at(&self, source: u16, target: u16, class: Class, perm: Perms) -> bool
        ensures { result ≡ allowed_at self.now source target class perm }
    {
        self.parts()
            .vectors
            .decide(source, target, class, perm)
            .allowed
    }

    /// Returns the permissions that a source is allowed, by the numbers of the types: for each target a byte,
    /// whose bit `b` is that of `class_at(b)` and `perm_at(b)` of `sm_rules`. Nothing if the source's number has no
    /// type.
    pub fn granted_row(&self, alloc: Global, source: u16) -> Result<Vec<u8>, AllocError>
        ensures allowed { source < length (types self.now.statements)
            → IfOk result (λ row. IsRow self.now row.items source) }
        ensures no_source { length (types self.now.statements) ≤ source → IfOk result (λ row. row.items ≡ []) }
    {
        let row = self.parts().vectors.granted_row(alloc, source)?;
        Ok(row)
    }

    /// Returns whether a source is allowed the same as one of another policy, on each type whose number is below `end`
    /// in both. Types are given by their numbers. `false` also if only one of the sources is permissive.
    pub fn grants_alike(&self, other: &Prepared, source: u16, theirs: u16, end: u16) -> bool
        requires sources { (source < length (types self.now.statements))
            × (theirs < length (types other.now.statements)) }
        requires end { (end ≤ length (types self.now.statements)) × (end ≤ length (types other.now.statements)) }
        ensures alike { result ≡ true → (t b : ℕ) → t < end → b < 7
            → granted self.now source t b ≡ granted other.now theirs t b }
        ensures differ { result ≡ false → (is_permissive self.now (at (types self.now.statements) source)
            ≡ is_permissive other.now (at (types other.now.statements) theirs) → ⊥)
            ⊎ ((t : ℕ) × (b : ℕ) × (t < end) × (b < 7)
            × (granted self.now source t b ≡ granted other.now theirs t b → ⊥)) }
    {
        let vectors = &self.parts().vectors;
        vectors.grants_alike(&other.parts().vectors, source, theirs, end)
    }

    /// Returns the decision on two types whose `type_index` is `source` and `target`: whether the access is allowed,
    /// and whether it is audited. An access is audited if no allow rule grants it and no dontaudit rule covers it. If
    /// an index is `None`, nothing is allowed and everything is audited.
    #[tactic(auto, using(crate::proofs::Looking::deciding), unfolding(crate::specs::Policy::allowed, crate::specs::Policy::audits))]
    pub fn decide_at(
        &self,
        source: Option<u16>,
        target: Option<u16>,
        class: Class,
        perm: Perms,
    ) -> Decision
        ensures { (s t : List ℕ) → source ≡ type_index self.now s → target ≡ type_index self.now t
            → result ≡ decision self.now s t class perm }
    {
        let vectors = &self.parts().vectors;
        match (source, target) {
            (Some(s), Some(t)) => vectors.decide(s, t, class, perm),
            _ => Decision {
                allowed: false,
                audited: true,
            },
        }
    }

    /// Returns the decision on two types by their names.
    fn decide(&self, source: &[u8], target: &[u8], class: Class, perm: Perms) -> Decision
        ensures { result ≡ decision self.now source.now target.now class perm }
    {
        self.decide_at(
            self.type_index(source),
            self.type_index(target),
            class,
            perm,
        )
    }

    /// Returns the line of the first allow rule that grants the permission, or `None` if no rule does, even if the
    /// source is permissive.
    #[tactic(auto, unfolding(crate::specs::Policy::written_at))]
    pub fn why(&self, source: &[u8], target: &[u8], class: Class, perm: Perms) -> Option<u32>
        ensures { result ≡ written_at self.now source.now target.now class perm }
    {
        let parts = self.parts();
        parts
            .rules
            .written_by_name(&parts.types, source, target, class, perm)
    }

    /// Returns the context of a name's service: the one on the line with this key, otherwise the one on the line `*`.
    #[tactic(auto, unfolding(crate::specs::Policy::label_of))]
    pub fn label(&self, name: &[u8]) -> &Context
        ensures { result.now ≡ label_of self.now name.now }
    {
        self.parts().labels.contexts.label(name)
    }

    /// Like `label`, with the number of the type: all types in contexts are declared.
    #[tactic(auto, unfolding(crate::specs::Policy::label_of))]
    pub fn labelled(&self, name: &[u8]) -> Label<'_>
        ensures context { result.context.now ≡ label_of self.now name.now }
        ensures index { type_index self.now (type_of (label_of self.now name.now)) ≡ Some result.index }
    {
        let labels = &self.parts().labels;
        let place = labels.contexts.place(name);
        match labels.contexts.entry(place) {
            Some((_, context)) => Label {
                context,
                index: labels.indexes[place as usize],
            },
            None => unreachable!(),
        }
    }

    /// Returns the declared types and attributes.
    pub fn types(&self) -> &Types
        ensures { IsOf self.now.statements result.now }
    {
        &self.parts().types
    }

    /// Returns the kept rules, and the permissive types.
    pub fn rules(&self) -> &Rules
        ensures { RulesOf self.now.statements (types self.now.statements) result.now }
    {
        &self.parts().rules
    }

    /// Returns the entries of the contexts file.
    pub fn contexts(&self) -> &Contexts
        ensures { result.now ≡ self.now.entries }
    {
        &self.parts().labels.contexts
    }

    /// Returns the counts that `svcmgr check` prints.
    pub fn counts(&self) -> Counts
        ensures { result ≡ counts_of self.now }
    {
        self.parts().counts
    }

    /// Returns another reference to the same policy. Returns an error if no more references fit.
    pub fn share(&self) -> Result<Prepared, AllocError>
        ensures same { IfOk result (λ p. p ≡ self.now) }
        ensures consistent { IsConsistent self.now }
    {
        let parts = Arc::try_clone(&self.parts)?;
        Ok(Prepared { parts })
    }
}
