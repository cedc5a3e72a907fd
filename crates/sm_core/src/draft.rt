//! Drafts of changes.

ghost use Rattle.std.specs.Prelude.{◌≡◌, ◌++◌, ◌∷◌, [], IsTrue, OnOk};

use sm_history::{Effect, Record};
use std::alloc::{AllocError, Global};

/// An empty draft keeps memory for this many effects, and for as many records of each kind.
const MOST_KEPT: usize = 64;

/// What a judged event is about to do: its effects in order, and the records of its checks and of its notices. A manager
/// has one draft, whose memory stays from event to event.
#[derive(Drop)]
pub struct Draft {
    pub effects: Vec<Effect>,
    /// The audit records of the event's own checks, in their order.
    pub records: Vec<Record>,
    /// The records of its notices, which it leaves only if it is accepted.
    pub told: Vec<Record>,
    /// The number of the handle that is released, or the digest of the name that is added. It is only a hint: a row
    /// that isn't found by it is found by a search.
    pub near: u32,
}

/// Empties a list, and gives back its memory if that is for more than 64 elements.
fn empty<T: Drop>(alloc: Global, list: &mut Vec<T>)
    ensures { list.new.items ≡ [] }
{
    if list.capacity() > MOST_KEPT {
        *list = Vec::new(alloc);
    } else {
        list.clear();
    }
}

/// Appends an effect. The place for it is made first, so that a failure needn't hand the effect back.
#[inline(always)]
pub fn add_effect(effects: &mut Vec<Effect>, effect: Effect) -> Result<(), AllocError>
    ensures { OnOk result (effects.new.items ≡ effects.old.items ++ effect ∷ []) }
{
    effects.reserve(1)?;
    effects.push_reserved(effect);
    Ok(())
}

impl Draft {
    /// Makes an empty draft.
    pub fn new(alloc: Global) -> Draft
        ensures effects { result.effects.items ≡ [] }
        ensures records { result.records.items ≡ [] }
        ensures told { result.told.items ≡ [] }
    {
        Draft {
            effects: Vec::new(alloc),
            records: Vec::new(alloc),
            told: Vec::new(alloc),
            near: 0,
        }
    }

    /// Empties the draft, and gives back what it has of memory above a bound.
    #[inline(always)]
    pub fn clear(&mut self, alloc: Global)
        ensures effects { self.new.effects.items ≡ [] }
        ensures records { self.new.records.items ≡ [] }
        ensures told { self.new.told.items ≡ [] }
    {
        if !self.is_clear() {
            self.clear_all(alloc);
        }
    }

    /// Returns whether the draft is empty, and has little memory.
    #[inline(always)]
    fn is_clear(&self) -> bool
        ensures { IsTrue result → (self.now.effects.items ≡ []) × (self.now.records.items ≡ [])
            × (self.now.told.items ≡ []) }
    {
        self.effects.is_empty()
            && self.records.is_empty()
            && self.told.is_empty()
            && self.effects.capacity() <= MOST_KEPT
            && self.records.capacity() <= MOST_KEPT
            && self.told.capacity() <= MOST_KEPT
    }

    #[cold]
    #[inline(never)]
    fn clear_all(&mut self, alloc: Global)
        ensures effects { self.new.effects.items ≡ [] }
        ensures records { self.new.records.items ≡ [] }
        ensures told { self.new.told.items ≡ [] }
    {
        empty(alloc, &mut self.effects);
        empty(alloc, &mut self.records);
        empty(alloc, &mut self.told);
    }
}
