//! Access checks: each check of an allow rule, as in AOSP's `Access.cpp`. All rule checks go through these functions.

ghost use Rattle.std.specs.Prelude.{◌≡◌, ◌⊎◌, None, Some, option_map, IfOk, OnOk};
ghost use Rattle.sm_values.specs.Contexts.{type_of};
ghost use Rattle.sm_policy.specs.Policy.{allowed, decision, type_index};
ghost use Rattle.sm_history.specs.Checks.{rule_denial};
ghost use Rattle.sm_history.specs.declared.refusal.Refusal.TheVariants.{Denied};
ghost use Rattle.sm_history.specs.declared.reply.Reply.TheVariants.{Refused};
ghost use Rattle.sm_core.specs.Judging.{IsRuled, noted, clause_noted};
ghost use Rattle.sm_core.specs.Tables.{process_under};

use crate::principals::Principals;
use crate::process::Process;
use crate::refusing::Checked;
use sm_history::{Denial, Record, Refusal, Reply, Shared};
use sm_policy::Decision;
use sm_values::{Class, Context, Identity, Name, Perms};
use std::alloc::{AllocError, Global};
use std::marker::Model;

/// Returns the denial of a missing rule.
pub fn denial(
    alloc: Global,
    class: Class,
    perm: Perms,
    who: &Identity,
    target: &Context,
) -> Result<Denial, AllocError>
    ensures { IfOk result (λ d. d ≡ rule_denial class perm who.now target.now) }
{
    let source = Name::new(alloc, who.context.type_name())?;
    let target = Name::new(alloc, target.type_name())?;
    Ok(Denial::Rule {
        source,
        target,
        class,
        perm,
    })
}

/// Returns the refusal by a denial.
fn denied_by(alloc: Global, denial: Denial) -> Result<Refusal, AllocError>
    ensures { IfOk result (λ r. r ≡ Denied denial) }
{
    Ok(Refusal::Denied(Shared::new(alloc, denial)?))
}

/// Returns the refusal for a missing rule.
#[cold]
#[inline(never)]
pub fn denied(
    alloc: Global,
    class: Class,
    perm: Perms,
    who: &Identity,
    target: &Context,
) -> Result<Refusal, AllocError>
    ensures { IfOk result (λ r. r ≡ Denied (rule_denial class perm who.now target.now)) }
{
    denied_by(alloc, denial(alloc, class, perm, who, target)?)
}

/// Copies a name, if there is one.
fn copied(name: Option<&Name>) -> Result<Option<Name>, AllocError>
    ensures { IfOk result (λ copy. copy ≡ option_map (λ n. n.now) name.entry) }
{
    match name {
        None => Ok(None),
        Some(name) => Ok(Some(name.clone()?)),
    }
}

/// An access by a process to a context. Has the name if the context is its label.
#[derive(Clone, Copy)]
struct Asked<'a> {
    who: &'a Identity,
    target: &'a Context,
    name: Option<&'a Name>,
    class: Class,
    perm: Perms,
}

/// What a check of an allow rule reads. Contracts see the moment: the number of changes so far, and the policy in force
/// with its number.
#[derive(Drop)]
pub struct Access<'a> {
    pub alloc: Global,
    pub length: u64,
    pub principals: &'a Principals,
}

impl<'a> Model for Access<'a> {
    ghost use Rattle.sm_history.specs.Records.{Moment};

    ghost Value = { Moment };

    ghost view = { λ a. record {
      at = a.length;
      version = a.principals.now.version;
      policy = a.principals.now.policy;
    } };
}

impl<'a> Access<'a> {
    /// Appends the audit record of a decision, if there is one. Few have one, so this is out of line.
    #[cold]
    #[inline(never)]
    #[tactic(auto, unfolding(crate::specs::Judging::noted))]
    fn audit(
        &self,
        made: Decision,
        asked: &Asked,
        notes: &mut Vec<Record>,
    ) -> Result<(), AllocError>
        requires { made ≡ decision self.now.policy (type_of asked.now.who.now.context) (type_of asked.now.target.now)
            asked.now.class asked.now.perm }
        ensures { OnOk result (notes.new.items ≡ noted self.now notes.old.items asked.now.class asked.now.perm asked.now.who.now
            asked.now.target.now (option_map (λ n. n.now) asked.now.name)) }
    {
        if !made.audited {
            return Ok(());
        }
        notes.push(Record {
            length: self.length,
            version: self.principals.version,
            denial: denial(self.alloc, asked.class, asked.perm, asked.who, asked.target)?,
            permissive: made.allowed,
            who: asked.who.clone()?,
            target: Some(asked.target.clone()?),
            name: copied(asked.name)?,
        })?;
        Ok(())
    }

    /// Returns the reply to a failed clause on the user number, and appends its record.
    #[cold]
    #[inline(never)]
    #[tactic(auto, unfolding(crate::specs::Judging::clause_noted))]
    pub fn barred(
        &self,
        denial: Denial,
        who: &Identity,
        name: &Name,
        notes: &mut Vec<Record>,
    ) -> Result<Reply, AllocError>
        ensures { IfOk result (λ r. (r ≡ Refused (Denied denial))
            × (notes.new.items ≡ clause_noted self.now notes.old.items denial who.now name.now)) }
    {
        let noted = denial.clone()?;
        notes.push(Record {
            length: self.length,
            version: self.principals.version,
            denial: noted,
            permissive: false,
            who: who.clone()?,
            target: None,
            name: Some(name.clone()?),
        })?;
        Ok(Reply::Refused(denied_by(self.alloc, denial)?))
    }

    /// Checks that an allow rule grants a permission from a process to another one.
    #[inline(always)]
    pub fn to_process(
        &self,
        source: &Process,
        target: &Process,
        class: Class,
        perm: Perms,
        notes: &mut Vec<Record>,
    ) -> Checked<()>
        requires source { source.now ≡ process_under self.now.policy source.now.who }
        requires target { target.now ≡ process_under self.now.policy target.now.who }
        ensures { IsRuled self.now notes.old.items notes.new.items class perm source.now.who
            target.now.who.context None result }
    {
        let context = &target.who.context;
        self.needs(source, context, target.index, None, class, perm, notes)
    }

    /// Checks that an allow rule grants a permission from a process to a context, whose type has this number; the name
    /// is there if the context is its label.
    #[inline(always)]
    #[tactic(auto, unfolding(crate::specs::Judging::noted))]
    pub fn needs(
        &self,
        source: &Process,
        target: &Context,
        index: Option<u16>,
        name: Option<&Name>,
        class: Class,
        perm: Perms,
        notes: &mut Vec<Record>,
    ) -> Checked<()>
        requires source { source.now ≡ process_under self.now.policy source.now.who }
        requires target { index ≡ type_index self.now.policy (type_of target.now) }
        ensures { IsRuled self.now notes.old.items notes.new.items class perm source.now.who target.now
            (option_map (λ n. n.now) name.entry) result }
    {
        let policy = self.principals.policy.prepared();
        let decision = policy.decide_at(source.index, index, class, perm);
        if decision.allowed {
            if !decision.audited {
                return Ok(());
            }
        }
        self.settle(decision, &source.who, target, name, class, perm, notes)
    }

    /// As `needs`, of an access on which this is the decision. Most accesses are granted without a record, so this is out
    /// of line.
    #[inline(never)]
    fn settle(
        &self,
        made: Decision,
        who: &Identity,
        target: &Context,
        name: Option<&Name>,
        class: Class,
        perm: Perms,
        notes: &mut Vec<Record>,
    ) -> Checked<()>
        requires { made ≡ decision self.now.policy (type_of who.now.context) (type_of target.now) class perm }
        ensures { IsRuled self.now notes.old.items notes.new.items class perm who.now target.now
            (option_map (λ n. n.now) name.entry) result }
    {
        let asked = Asked {
            who,
            target,
            name,
            class,
            perm,
        };
        self.audit(made, &asked, notes)?;
        if made.allowed {
            return Ok(());
        }
        let refusal = denied(self.alloc, class, perm, who, target)?;
        Err(Reply::Refused(refusal))
    }
}
