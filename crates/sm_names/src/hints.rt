//! Where rows of names may be found: an index for each of some slots, which a name selects. Nothing is claimed of them:
//! a row that a hint leads to is used only if it has the name that is sought. So contracts say nothing of hints, and
//! hints that can't be allocated are just not there.

use crate::digests::digest;
use sm_history::NamedRow;
use std::alloc::Global;

/// There are at most this many slots.
const MOST_SLOTS: usize = 16_384;

/// The slots.
#[derive(Drop)]
pub struct Hints {
    places: Vec<u16>,
}

impl Hints {
    /// Makes hints without slots.
    pub fn new(alloc: Global) -> Hints {
        Hints {
            places: Vec::new(alloc),
        }
    }

    /// Returns the slot of a name.
    #[inline(always)]
    pub fn slot_of(&self, name: &[u8]) -> usize {
        if self.places.is_empty() {
            return 0;
        }
        self.slot_by(digest(name))
    }

    /// Returns the slot of names with a digest.
    #[inline(always)]
    pub fn slot_by(&self, digest: u32) -> usize {
        digest as usize & self.places.len().wrapping_sub(1)
    }

    /// Returns the hint in a slot.
    #[inline(always)]
    pub fn get(&self, slot: usize) -> usize {
        match self.places.get(slot) {
            Some(place) => usize::from(*place),
            None => usize::MAX,
        }
    }

    /// Makes slots for this many rows, if there are too few and there is memory, and fills them.
    pub fn reserve(&mut self, rows: &[NamedRow]) {
        let count = self.places.len();
        if rows.len() < count / 4 || count >= MOST_SLOTS {
            return;
        }
        let wanted = if count == 0 { 64 } else { count * 4 };
        if self.places.reserve(wanted - count).is_err() {
            return;
        }
        for _ in count..wanted {
            if self.places.push(0).is_err() {
                return;
            }
        }
        self.fill(rows);
    }

    /// Sets the hint of each row.
    fn fill(&mut self, rows: &[NamedRow]) {
        for (i, row) in rows.iter().enumerate() {
            self.set(self.slot_of(row.name.bytes()), i);
        }
    }

    /// Sets the hint in a slot.
    pub fn set(&mut self, slot: usize, i: usize) {
        if let Some(place) = self.places.get_mut(slot) {
            *place = (i & 0xffff) as u16;
        }
    }

    /// A row was removed, and the last one moved to its index.
    pub fn moved(&mut self, rows: &[NamedRow], i: usize) {
        if let Some(row) = rows.get(i) {
            self.set(self.slot_of(row.name.bytes()), i);
        }
    }
}
