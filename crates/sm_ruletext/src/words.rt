//! The words of a source, each stored once.

ghost use Rattle.std.specs.Prelude.{◌≡◌, ◌≤◌, ◌+◌, length, IfOk, IfSome};

use indexmap::IndexMap;
use sm_values::{Name, Names, Word, spells};
use std::alloc::{AllocError, Global};
use std::marker::Model;

/// The most words that are stored: more than there are in a source with the most types and attributes.
const MOST_WORDS: usize = 16_384;

/// The number of slots for the last words.
const SLOTS: usize = 4096;

/// An odd number whose bits are mixed, by which digests are made.
const MIXER: u64 = 0x9e37_79b9_7f4a_7c15;

/// Returns eight bytes as a number.
#[inline(always)]
fn word_at(bytes: &[u8], i: usize) -> u64
    requires { i + 8 ≤ length bytes.now }
{
    u64::from_le_bytes([
        bytes[i],
        bytes[i + 1],
        bytes[i + 2],
        bytes[i + 3],
        bytes[i + 4],
        bytes[i + 5],
        bytes[i + 6],
        bytes[i + 7],
    ])
}

/// Returns four bytes as a number.
#[inline(always)]
fn half_at(bytes: &[u8], i: usize) -> u32
    requires { i + 4 ≤ length bytes.now }
{
    u32::from_le_bytes([bytes[i], bytes[i + 1], bytes[i + 2], bytes[i + 3]])
}

/// Returns a number that equal words have in common.
pub fn digest(bytes: &[u8]) -> u64 {
    let n = bytes.len();
    let mut sum = n as u64;
    if n < 4 {
        for b in bytes {
            sum = (sum ^ u64::from(*b)).wrapping_mul(MIXER).rotate_left(20);
        }
        return sum ^ (sum >> 32);
    }
    if n < 8 {
        let ends = (u64::from(half_at(bytes, 0)) << 32) ^ u64::from(half_at(bytes, n - 4));
        sum = (sum ^ ends).wrapping_mul(MIXER);
        return sum ^ (sum >> 32);
    }
    let mut i = 0;
    while n - i >= 8 {
        sum = (sum ^ word_at(bytes, i)).wrapping_mul(MIXER);
        sum ^= sum >> 32;
        i += 8;
    }
    sum = (sum ^ word_at(bytes, n - 8)).wrapping_mul(MIXER);
    sum ^ (sum >> 32)
}

/// Returns a number that equal lists of words have in common, for the same `first`.
pub fn digest_of(words: &[Word], first: u64) -> u64 {
    let mut sum = first;
    for word in words {
        sum = (sum ^ digest(word.bytes()))
            .wrapping_mul(MIXER)
            .rotate_left(20);
    }
    sum
}

/// Names by their bytes, which contracts don't see. A name that occurs a thousand times is stored once.
#[derive(Drop)]
pub struct Words {
    names: IndexMap<Vec<u8>, Name>,
    /// The last words, found by the slots that their bytes select.
    last: Vec<Name>,
    slots: Vec<u32>,
}

impl Model for Words {
    ghost use Rattle.std.specs.Prelude.{◌≡◌};
    ghost use Rattle.std.specs.List.{AllByRecursion};

    ghost Value = { Unit {0} };

    ghost view = { λ w. tt };

    // Each name is its own key, so the result of a look-up needn't be compared.
    ghost invariant = { λ w. AllByRecursion (λ e. e.1 ≡ e.0.items) w.names.entries };
}

impl Words {
    /// Makes an empty set.
    pub fn new(alloc: Global) -> Words {
        Words {
            names: IndexMap::new(alloc),
            last: Vec::new(alloc),
            slots: Vec::new(alloc),
        }
    }

    /// Stores a new name.
    fn keep(&mut self, alloc: Global, bytes: &[u8], name: &Name) -> Result<(), AllocError>
        requires { name.now ≡ bytes.now }
    {
        if self.names.len() < MOST_WORDS {
            let key = Vec::from_slice(alloc, bytes)?;
            self.names.insert(key, name.clone()?)?;
        }
        Ok(())
    }

    /// Returns the name of these bytes, shared with an earlier one, if there was one.
    fn find(&mut self, alloc: Global, bytes: &[u8]) -> Result<Name, AllocError>
        ensures { IfOk result (λ n. n ≡ bytes.now) }
    {
        if let Some(known) = self.names.get(bytes) {
            let copy = known.clone()?;
            return Ok(copy);
        }
        let name = Name::new(alloc, bytes)?;
        self.keep(alloc, bytes, &name)?;
        Ok(name)
    }

    /// Returns the name of these bytes, if the slot has it.
    fn recent(&self, slot: usize, bytes: &[u8]) -> Result<Option<Name>, AllocError>
        ensures { IfOk result (λ o. IfSome o (λ n. n ≡ bytes.now)) }
    {
        let Some(number) = self.slots.get(slot) else {
            return Ok(None);
        };
        let Some(known) = self.last.get(*number as usize) else {
            return Ok(None);
        };
        if !spells(known.bytes(), bytes) {
            return Ok(None);
        }
        let copy = known.clone()?;
        Ok(Some(copy))
    }

    /// Makes the slots, if there are none yet and memory is left.
    fn make_slots(&mut self, alloc: Global) {
        if self.slots.is_empty()
            && let Ok(slots) = vec![in alloc; u32::MAX; SLOTS]
        {
            self.slots = slots;
        }
    }

    /// Puts a name into its slot, if memory is left.
    fn remember(&mut self, alloc: Global, slot: usize, name: &Name) {
        self.make_slots(alloc);
        if slot >= self.slots.len() {
            return;
        }
        let Ok(copy) = name.clone() else {
            return;
        };
        let number = self.slots[slot] as usize;
        let count = self.last.len();
        if number < count {
            self.last[number] = copy;
        } else if count < SLOTS && self.last.push(copy).is_ok() {
            self.slots[slot] = count as u32;
        }
    }

    /// Finds a name, and puts it into its slot.
    #[inline(never)]
    fn seek(&mut self, alloc: Global, slot: usize, bytes: &[u8]) -> Result<Name, AllocError>
        ensures { IfOk result (λ n. n ≡ bytes.now) }
    {
        let name = self.find(alloc, bytes)?;
        self.remember(alloc, slot, &name);
        Ok(name)
    }

    /// Returns the name of these bytes, shared with an earlier one, if there was one.
    pub fn name(&mut self, alloc: Global, bytes: &[u8]) -> Result<Name, AllocError>
        ensures { IfOk result (λ n. n ≡ bytes.now) }
    {
        let slot = digest(bytes) as usize % SLOTS;
        if let Some(known) = self.recent(slot, bytes)? {
            return Ok(known);
        }
        self.seek(alloc, slot, bytes)
    }

    /// Returns the names of these words.
    pub fn names(&mut self, alloc: Global, words: &[Word]) -> Result<Names, AllocError>
        ensures { IfOk result (λ n. n ≡ words.now) }
    {
        let mut names = Names::new(alloc);
        for word in words {
            let name = self.name(alloc, word.bytes())?;
            names.push(name)?;
        }
        Ok(names)
    }
}
