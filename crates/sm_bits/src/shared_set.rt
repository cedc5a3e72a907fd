//! Shared sets.

use crate::BitRow;
use std::alloc::{AllocError, Global};
use std::marker::Model;
use std::sync::Arc;

/// How a set is stored.
#[derive(Drop)]
pub enum Shape {
    /// A single number. If the row has no bit for it, the set is empty.
    One(u16),
    /// A row behind a shared pointer.
    Many(Arc<BitRow, Global>),
}

/// An immutable set of numbers. A single number takes no row, and equal sets may share one.
///
/// Contracts see the words of its row, as of a [`BitRow`].
pub struct SharedSet {
    words: usize,
    shape: Shape,
}

impl Model for SharedSet {
    ghost use Rattle.std.specs.Prelude.{List, ℕ};
    ghost use Rattle.sm_bits.specs.Sharing.{row_of};

    ghost Value = { List ℕ };

    ghost view = { λ s. row_of s.words s.shape };
}

impl Drop for SharedSet {
    fn drop(self) {
        let SharedSet { words: _, shape: _ } = self;
    }
}

impl Clone for SharedSet {
    ghost use Rattle.std.specs.Prelude.{◌≡◌};

    ghost is_clone = { λ s copy. copy ≡ s };

    /// Returns another reference to the same row.
    fn clone(&self) -> Result<SharedSet, AllocError> {
        let shape = match &self.shape {
            Shape::One(number) => Shape::One(*number),
            Shape::Many(row) => Shape::Many(Arc::try_clone(row)?),
        };
        Ok(SharedSet {
            words: self.words,
            shape,
        })
    }
}

impl SharedSet {
    ghost use Rattle.std.specs.Prelude.{◌≡◌, ℕ, ◌+◌, ◌*◌, ◌^◌, ◌<◌, ◌≤◌, ◌&&◌, ◌||◌, false, true, nat_eq, length};
    ghost use Rattle.std.specs.Prelude.{IsTrue, IfSome, IfNone};
    ghost use Rattle.std.specs.Arc.{arc_value};
    ghost use Rattle.sm_bits.specs.Bits.{has};
    ghost use Rattle.sm_bits.specs.Sharing.{one_row};

    /// Returns the set of one number, in a row of `words` words.
    pub fn one(number: u16, words: usize) -> SharedSet
        requires { number < 64 * words }
        ensures row { result ≡ one_row words number }
        ensures room { length result ≡ words }
        ensures only { (j : ℕ) → has result j ≡ nat_eq j number }
    {
        SharedSet {
            words,
            shape: Shape::One(number),
        }
    }

    /// Returns the set of a row.
    pub fn many(row: Arc<BitRow, Global>) -> SharedSet
        ensures { result ≡ arc_value row }
    {
        SharedSet {
            words: 0,
            shape: Shape::Many(row),
        }
    }

    /// How much work it is to go through the set: a choice between two ways to the same result may rest
    /// on it, and nothing else.
    pub fn weight(&self) -> usize
        requires { length self.now < 2 ^ 32 }
        ensures { result ≤ 64 * length self.now + 1 }
    {
        match &self.shape {
            Shape::One(_) => 1,
            Shape::Many(row) => row.count(),
        }
    }

    /// Returns whether number `i` is in the set.
    pub fn has(&self, i: usize) -> bool
        requires { i < 64 * length self.now }
        ensures { result ≡ has self.now i }
    {
        match &self.shape {
            Shape::One(number) => i == usize::from(*number),
            Shape::Many(row) => row.has(i),
        }
    }

    /// Returns the least number of the set from `from` on.
    pub fn next(&self, from: usize) -> Option<usize>
        requires { length self.now < 2 ^ 32 }
        ensures none { IfNone result ((j : ℕ) → from ≤ j → has self.now j ≡ false) }
        ensures some { IfSome result (λ i. (from ≤ i) × (i < 64 * length self.now)
            × (has self.now i ≡ true)) }
        ensures first { IfSome result (λ i. (j : ℕ) → from ≤ j → j < i → has self.now j ≡ false) }
    {
        match &self.shape {
            Shape::One(number) => {
                let i = usize::from(*number);
                if from <= i && i / 64 < self.words {
                    Some(i)
                } else {
                    None
                }
            }
            Shape::Many(row) => row.next(from),
        }
    }

    /// Adds every number of the set to a row.
    pub fn add_to(&self, row: &mut BitRow)
        requires { length row.old ≡ length self.now }
        ensures room { length row.new ≡ length row.old }
        ensures joined { (j : ℕ) → has row.new j ≡ (has row.old j || has self.now j) }
    {
        match &self.shape {
            Shape::One(number) => {
                let i = usize::from(*number);
                if i / 64 < self.words {
                    row.insert(i);
                }
            }
            Shape::Many(others) => row.union_with(others),
        }
    }

    /// Returns whether some number is in the set and in a row.
    pub fn meets_row(&self, row: &BitRow) -> bool
        requires { length self.now ≡ length row.now }
        ensures none { result ≡ false → (j : ℕ) → (has self.now j && has row.now j) ≡ false }
        ensures some { IsTrue result → (j : ℕ) × (IsTrue (has self.now j && has row.now j)) }
    {
        match &self.shape {
            Shape::One(number) => {
                let i = usize::from(*number);
                i / 64 < self.words && row.has(i)
            }
            Shape::Many(others) => others.meets(row),
        }
    }

    /// Returns whether some number is in both sets.
    pub fn meets(&self, other: &SharedSet) -> bool
        requires { length self.now ≡ length other.now }
        ensures none { result ≡ false → (j : ℕ) → (has self.now j && has other.now j) ≡ false }
        ensures some { IsTrue result → (j : ℕ) × (IsTrue (has self.now j && has other.now j)) }
    {
        match &self.shape {
            Shape::One(number) => {
                let i = usize::from(*number);
                i / 64 < self.words && other.has(i)
            }
            Shape::Many(row) => other.meets_row(row),
        }
    }
}
