//! The sets of a source, each stored once.

ghost use Rattle.std.specs.Prelude.{◌≡◌, ◌∷◌, [], false, IfOk, IfSome};
ghost use Rattle.sm_ruletext.specs.Grammar as spec;
ghost use Rattle.sm_ruletext.specs.Items.{parts_of, set_with};

use crate::Set;
use crate::items::Items;
use crate::set::SetParts;
use crate::words::{Words, digest, digest_of};
use sm_values::{Names, drop_fields};
use std::alloc::{AllocError, Global};
use std::marker::Model;
use std::rc::Rc;

/// The number of slots for the last sets.
const SLOTS: usize = 16_384;

/// The most sets that are stored.
const MOST_SETS: usize = 65_536;

/// The sets so far, which contracts don't see. What is found is compared with what is sought.
pub struct SetPool {
    sets: Vec<Rc<SetParts, Global>>,
    /// The last sets, each in the slot that its words select.
    slots: Vec<u32>,
}

impl Drop for SetPool {
    fn drop(self) {
        drop_fields!(self: sets, slots);
    }
}

impl Model for SetPool {
    ghost Value = { Unit {0} };

    ghost view = { λ p. tt };
}

impl SetPool {
    /// Makes an empty pool.
    pub fn new(alloc: Global) -> SetPool {
        SetPool {
            sets: Vec::new(alloc),
            slots: Vec::new(alloc),
        }
    }

    /// Returns the parts in a slot.
    fn at(&self, slot: usize) -> Option<&Rc<SetParts, Global>> {
        let number = self.slots.get(slot)?;
        self.sets.get(*number as usize)
    }

    /// Returns the parts of a set with these items, if the slot has it.
    fn known(
        &self,
        slot: usize,
        complement: bool,
        items: &Items,
    ) -> Result<Option<Rc<SetParts, Global>>, AllocError>
        ensures { IfOk result (λ o. IfSome o (λ parts.
            parts.value ≡ parts_of items.now.all complement items.now.plus items.now.minus)) }
    {
        let Some(parts) = self.at(slot) else {
            return Ok(None);
        };
        if !parts.has_items(complement, items) {
            return Ok(None);
        }
        let again = parts.clone()?;
        Ok(Some(again))
    }

    /// Returns the parts of a set of one word, if the slot has it.
    fn known_word(
        &self,
        slot: usize,
        word: &[u8],
    ) -> Result<Option<Rc<SetParts, Global>>, AllocError>
        ensures { IfOk result (λ o. IfSome o (λ parts.
            parts.value ≡ parts_of false false (word.now ∷ []) [])) }
    {
        let Some(parts) = self.at(slot) else {
            return Ok(None);
        };
        if !parts.is_word(word) {
            return Ok(None);
        }
        let again = parts.clone()?;
        Ok(Some(again))
    }

    /// Makes the slots, if there are none yet and memory is left.
    fn make_slots(&mut self, alloc: Global) {
        if self.slots.is_empty()
            && let Ok(slots) = vec![in alloc; u32::MAX; SLOTS]
        {
            self.slots = slots;
        }
    }

    fn next_number(&self) -> u32 {
        let count = self.sets.len();
        if count < MOST_SETS {
            count as u32
        } else {
            u32::MAX
        }
    }

    /// Stores the parts of a set, if memory is left.
    fn keep(&mut self, alloc: Global, slot: usize, parts: &Rc<SetParts, Global>) {
        self.make_slots(alloc);
        let count = self.sets.len();
        if count >= MOST_SETS || slot >= self.slots.len() {
            return;
        }
        let Ok(again) = parts.clone() else {
            return;
        };
        if self.sets.push(again).is_ok() {
            self.slots[slot] = count as u32;
        }
    }

    /// Stores a new set of these parts.
    fn add(
        &mut self,
        alloc: Global,
        slot: usize,
        line: u32,
        parts: SetParts,
    ) -> Result<Set, AllocError>
        ensures { IfOk result (λ s. s ≡ set_with line parts) }
    {
        let shared = Rc::new(alloc, parts)?;
        self.keep(alloc, slot, &shared);
        Ok(Set::of(line, shared))
    }

    /// Stores a new set of these items.
    #[inline(never)]
    fn add_items(
        &mut self,
        alloc: Global,
        words: &mut Words,
        slot: usize,
        line: u32,
        complement: bool,
        items: &Items,
    ) -> Result<Set, AllocError>
        ensures { IfOk result (λ s. s ≡ (spec.set_of line complement items.now).0) }
    {
        let number = self.next_number();
        let plus = words.names(alloc, items.plus())?;
        let minus = words.names(alloc, items.minus())?;
        let parts = SetParts::new(number, items.has_all(), complement, plus, minus);
        self.add(alloc, slot, line, parts)
    }

    /// Stores a new set of one word.
    #[inline(never)]
    fn add_word(
        &mut self,
        alloc: Global,
        words: &mut Words,
        slot: usize,
        line: u32,
        word: &[u8],
    ) -> Result<Set, AllocError>
        ensures { IfOk result (λ s. s ≡ set_with line (parts_of false false (word.now ∷ []) [])) }
    {
        let name = words.name(alloc, word)?;
        let mut plus = Names::new(alloc);
        plus.push(name)?;
        let number = self.next_number();
        let parts = SetParts::new(number, false, false, plus, Names::new(alloc));
        self.add(alloc, slot, line, parts)
    }

    /// Returns the set of these items.
    pub fn set(
        &mut self,
        alloc: Global,
        words: &mut Words,
        line: u32,
        complement: bool,
        items: &Items,
    ) -> Result<Set, AllocError>
        ensures { IfOk result (λ s. s ≡ (spec.set_of line complement items.now).0) }
    {
        let digest = digest_of(items.minus(), digest_of(items.plus(), 0));
        let slot = digest as usize % SLOTS;
        if let Some(parts) = self.known(slot, complement, items)? {
            return Ok(Set::of(line, parts));
        }
        self.add_items(alloc, words, slot, line, complement, items)
    }

    /// Returns the set of one word.
    pub fn word(
        &mut self,
        alloc: Global,
        words: &mut Words,
        line: u32,
        word: &[u8],
    ) -> Result<Set, AllocError>
        ensures { IfOk result (λ s. s ≡ set_with line (parts_of false false (word.now ∷ []) [])) }
    {
        let slot = digest(word) as usize % SLOTS;
        if let Some(parts) = self.known_word(slot, word)? {
            return Ok(Set::of(line, parts));
        }
        self.add_word(alloc, words, slot, line, word)
    }
}
