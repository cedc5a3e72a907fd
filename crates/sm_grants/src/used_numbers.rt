//! Numbers in use.

ghost use Rattle.std.specs.Prelude.{◌≡◌, ℕ, ◌*◌, ◌/◌, ◌^◌, ◌<◌, ◌≤◌, ◌&&◌, ◌||◌, nat_eq, not, true, false, length};
ghost use Rattle.std.specs.Prelude.{IfOk};
ghost use Rattle.sm_bits.specs.Bits.{has};

use sm_bits::BitRow;
use std::alloc::{AllocError, Global};
use std::marker::Model;

/// A set of numbers that finds the least number outside it. Contracts see the words of its row.
#[derive(Drop)]
pub struct UsedNumbers {
    row: BitRow,
    /// A multiple of 64; all numbers below it are in the set. The search for a free number begins here.
    full_below: usize,
}

impl Model for UsedNumbers {
    ghost use Rattle.std.specs.Prelude.{◌≡◌, ◌<◌, List, ℕ, true};
    ghost use Rattle.sm_bits.specs.Bits.{has};

    ghost Value = { List ℕ };

    ghost view = { λ u. u.row };

    ghost invariant = { λ u. (j : ℕ) → j < u.full_below → has u.row j ≡ true };
}

impl UsedNumbers {
    /// Returns the empty set, with room for numbers below 64 times `words`.
    pub fn empty(alloc: Global, words: usize) -> Result<UsedNumbers, AllocError>
        ensures room { IfOk result (λ u. length u ≡ words) }
        ensures none { IfOk result (λ u. (j : ℕ) → has u j ≡ false) }
    {
        let row = BitRow::empty(alloc, words)?;
        Ok(UsedNumbers { row, full_below: 0 })
    }

    /// Returns the first number from `from` on that isn't in the set.
    pub fn first_free_from(&self, from: usize) -> usize
        requires { length self.now < 2 ^ 32 }
        ensures behind { from ≤ result }
        ensures free { has self.now result ≡ false }
        ensures least { (j : ℕ) → from ≤ j → j < result → has self.now j ≡ true }
    {
        self.row.first_free_from(from)
    }

    /// Returns the least number that isn't in the set.
    pub fn first_free(&self) -> usize
        requires { length self.now < 2 ^ 32 }
        ensures free { has self.now result ≡ false }
        ensures least { (j : ℕ) → j < result → has self.now j ≡ true }
    {
        self.row.first_free_from(self.full_below)
    }

    /// Adds the least number that isn't in the set.
    pub fn insert_first(&mut self, i: usize)
        requires inside { i < 64 * length self.old }
        requires least { (j : ℕ) → j < i → has self.old j ≡ true }
        ensures room { length self.new ≡ length self.old }
        ensures added { (j : ℕ) → has self.new j ≡ (nat_eq j i || has self.old j) }
    {
        self.row.insert(i);
        self.full_below = i - i % 64;
    }

    /// Removes a number.
    pub fn remove(&mut self, i: usize)
        requires { i < 64 * length self.old }
        ensures room { length self.new ≡ length self.old }
        ensures removed { (j : ℕ) → has self.new j ≡ (not (nat_eq j i) && has self.old j) }
    {
        self.row.remove(i);
        self.full_below = self.full_below.min(i - i % 64);
    }
}
