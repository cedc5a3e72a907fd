//! The policy in force, with labels of names that were added.

ghost use Rattle.std.specs.Prelude.{◌≡◌, IfOk, IfSome};
ghost use Rattle.sm_policy.specs.Policy.{Policy};
ghost use Rattle.sm_core.specs.KnownLabels.{AreKnown, IsKnown};
ghost use Rattle.sm_core.specs.Tables.{IsLabelUnder};

use sm_policy::{Label, Prepared};
use sm_values::{Context, Name, drop_fields, spells};
use std::alloc::{AllocError, Global};
use std::marker::Model;

/// The number of slots for labels.
const SLOTS: usize = 1024;

/// A name with its digest, and its label under a policy: the context, and the number of the type in it.
pub struct KnownLabel {
    pub name: Name,
    pub digest: u32,
    pub context: Context,
    pub index: u16,
}

impl Drop for KnownLabel {
    fn drop(self) {
        drop_fields!(self: name, digest, context, index);
    }
}

/// A policy, with the labels of some names, each in the slot that its digest selects. Contracts see the policy.
pub struct LabelledPolicy {
    alloc: Global,
    policy: Prepared,
    slots: Vec<Option<KnownLabel>>,
}

impl Model for LabelledPolicy {
    ghost use Rattle.sm_policy.specs.Policy.{Policy};
    ghost use Rattle.sm_core.specs.KnownLabels.{AreKnown};

    ghost Value = { Policy };

    ghost view = { λ p. p.policy };

    ghost invariant = { λ p. AreKnown p.policy p.slots.items };
}

impl Drop for LabelledPolicy {
    fn drop(self) {
        let LabelledPolicy {
            alloc: _,
            policy: _,
            slots: _,
        } = self;
    }
}

/// Returns the slot of names with a digest.
#[inline(always)]
fn slot_by(digest: u32) -> usize {
    digest as usize % SLOTS
}

/// Returns the label of a name, if it is in the slot of this digest.
#[inline(always)]
fn found<'a>(slots: &'a [Option<KnownLabel>], digest: u32, name: &[u8]) -> Option<Label<'a>>
    ensures { (p : Policy) → AreKnown p slots.now → IfSome result (IsLabelUnder p name.now) }
{
    match slots.get(slot_by(digest)) {
        Some(Some(known)) if spells(known.name.bytes(), name) => Some(Label {
            context: &known.context,
            index: known.index,
        }),
        _ => None,
    }
}

/// Returns whether a name with this digest is in its slot, most likely.
#[inline(always)]
fn is_noted(slots: &[Option<KnownLabel>], digest: u32) -> bool {
    match slots.get(slot_by(digest)) {
        Some(Some(known)) => known.digest == digest,
        _ => false,
    }
}

/// Returns the label of a name, to be kept.
fn known(policy: &Prepared, digest: u32, name: &Name) -> Result<KnownLabel, AllocError>
    ensures { IfOk result (IsKnown policy.now) }
{
    let label = policy.labelled(name.bytes());
    let index = label.index;
    let context = label.context.clone()?;
    let name = name.clone()?;
    Ok(KnownLabel {
        name,
        digest,
        context,
        index,
    })
}

/// Puts a label into a slot, if there is such a slot.
fn put(slots: &mut Vec<Option<KnownLabel>>, slot: usize, known: KnownLabel)
    ensures { (p : Policy) → AreKnown p slots.old.items → IsKnown p known → AreKnown p slots.new.items }
{
    if let Some(place) = slots.get_mut(slot) {
        *place = Some(known);
    }
}

/// Appends `SLOTS` empty slots, or fewer if an allocation fails.
#[inline(never)]
fn fill(slots: &mut Vec<Option<KnownLabel>>)
    ensures { (p : Policy) → AreKnown p slots.old.items → AreKnown p slots.new.items }
{
    if slots.reserve(SLOTS).is_err() {
        return;
    }
    for _ in 0..SLOTS {
        if slots.push(None).is_err() {
            return;
        }
    }
}

impl LabelledPolicy {
    /// Takes a policy, without labels.
    pub fn new(alloc: Global, policy: Prepared) -> LabelledPolicy
        ensures { result ≡ policy }
    {
        LabelledPolicy {
            alloc,
            policy,
            slots: Vec::new(alloc),
        }
    }

    /// Returns the policy.
    #[inline(always)]
    pub fn prepared(&self) -> &Prepared
        ensures { result.now ≡ self.now }
    {
        &self.policy
    }

    /// Replaces the policy, and forgets the labels. Allocates nothing.
    pub fn replace(&mut self, policy: Prepared)
        ensures { self.new ≡ policy }
    {
        self.slots = Vec::new(self.alloc);
        self.policy = policy;
    }

    /// Returns the label of a name. One that was noted with this digest is found fastest; any number gives the same
    /// result.
    #[inline(always)]
    pub fn labelled(&self, digest: u32, name: &[u8]) -> Label<'_>
        ensures { IsLabelUnder self.now name.now result }
    {
        match found(&self.slots, digest, name) {
            Some(label) => label,
            None => self.policy.labelled(name),
        }
    }

    /// Makes room for labels, if there is memory.
    #[inline(always)]
    pub fn reserve(&mut self)
        ensures { self.new ≡ self.old }
    {
        if self.slots.is_empty() {
            fill(&mut self.slots);
        }
    }

    /// Keeps the label of a name with this digest, if there is room for labels and it isn't kept. Allocates nothing.
    #[inline(always)]
    pub fn note(&mut self, digest: u32, name: &Name)
        ensures { self.new ≡ self.old }
    {
        if !is_noted(&self.slots, digest) {
            self.keep(digest, name);
        }
    }

    #[inline(never)]
    fn keep(&mut self, digest: u32, name: &Name)
        ensures { self.new ≡ self.old }
    {
        if let Ok(known) = known(&self.policy, digest, name) {
            put(&mut self.slots, slot_by(digest), known);
        }
    }
}
