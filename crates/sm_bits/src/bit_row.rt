//! A row of bits.

use crate::byte_bits::with_bit;
use std::alloc::{AllocError, Global};
use std::marker::Model;

/// A set of numbers, kept as a row of 64-bit words: number i is bit i % 64 of word i / 64.
///
/// Contracts see the words of the row. `has` is false past the end.
pub struct BitRow {
    words: Vec<u64>,
}

impl Model for BitRow {
    ghost use Rattle.std.specs.Prelude.{List, ℕ};

    ghost Value = { List ℕ };

    ghost view = { λ row. row.words.items };
}

impl Drop for BitRow {
    fn drop(self) {
        let BitRow { words: _ } = self;
    }
}

ghost use Rattle.std.specs.Prelude.{◌≡◌, ℕ, ◌+◌, ◌*◌, ◌/◌, ◌^◌, ◌<◌, ◌≤◌, ◌&&◌, ◌||◌, nat_eq, not, false, true, IsTrue};
ghost use Rattle.std.specs.Prelude.{IfSome, IfNone, length, slice_index, count_ones};
ghost use Rattle.std.specs.List.{sum_by};
ghost use Rattle.sm_bits.specs.Bits.{has, has_bit};

// The loops run over slices in place of the rows' vectors: a write through a slice can't move the words, so the
// compiler vectorizes them. For that, `words_meet` also runs to the end, and doesn't stop at the first common number.

fn union_words(words: &mut [u64], others: &[u64])
    requires { length words.old ≡ length others.now }
    ensures { (j : ℕ) → has words.new j ≡ (has words.old j || has others.now j) }
{
    for i in 0..words.len() {
        words[i] |= others[i];
    }
}

fn subtract_words(words: &mut [u64], others: &[u64])
    requires { length words.old ≡ length others.now }
    ensures { (j : ℕ) → has words.new j ≡ (has words.old j && not (has others.now j)) }
{
    for i in 0..words.len() {
        words[i] &= !others[i];
    }
}

fn words_meet(words: &[u64], others: &[u64]) -> bool
    requires { length words.now ≡ length others.now }
    ensures none { result ≡ false → (j : ℕ) → (has words.now j && has others.now j) ≡ false }
    ensures some { IsTrue result → (j : ℕ) × (IsTrue (has words.now j && has others.now j)) }
{
    let mut common = 0u64;
    for i in 0..words.len() {
        common |= words[i] & others[i];
    }
    common != 0
}

fn count_words(words: &[u64]) -> usize
    requires { length words.now < 2 ^ 32 }
    ensures counted { result ≡ sum_by count_ones words.now }
    ensures most { result ≤ 64 * length words.now }
{
    let mut count = 0;
    for word in words {
        count += word.count_ones() as usize;
    }
    count
}

/// Returns the first number from that of word `first` on that isn't in the set.
fn first_free_in(words: &[u64], first: usize) -> usize
    requires { (first ≤ length words.now) × (length words.now < 2 ^ 32) }
    ensures behind { 64 * first ≤ result }
    ensures free { has words.now result ≡ false }
    ensures least { (j : ℕ) → 64 * first ≤ j → j < result → has words.now j ≡ true }
{
    for i in first..words.len() {
        let word = words[i];
        if word != u64::MAX {
            return 64 * i + word.trailing_ones() as usize;
        }
    }
    64 * words.len()
}

/// Returns the least number from `from` on.
fn next_in(words: &[u64], from: usize) -> Option<usize>
    requires { length words.now < 2 ^ 32 }
    ensures none { IfNone result ((j : ℕ) → from ≤ j → has words.now j ≡ false) }
    ensures some { IfSome result (λ i. (from ≤ i) × (i < 64 * length words.now)
        × (has words.now i ≡ true)) }
    ensures first { IfSome result (λ i. (j : ℕ) → from ≤ j → j < i → has words.now j ≡ false) }
{
    let end = 64 * words.len();
    let mut i = from;
    while i < end {
        // The bits of a word from that of `i` on: where all are 0, none of them is looked at.
        let rest = words[i / 64] >> (i % 64);
        if rest != 0 {
            return Some(i + rest.trailing_zeros() as usize);
        }
        i = 64 * (i / 64) + 64;
    }
    None
}

/// Returns whether two rows have the same numbers below `end`.
fn words_alike(words: &[u64], others: &[u64], end: usize) -> bool
    requires room { (end ≤ 64 * length words.now) × (end ≤ 64 * length others.now) }
    requires few { length words.now < 2 ^ 32 }
    ensures same { result ≡ true → (j : ℕ) → j < end → has words.now j ≡ has others.now j }
    ensures other { result ≡ false → (j : ℕ) × (j < end) × (has words.now j ≡ has others.now j → ⊥) }
{
    for i in 0..end.div_ceil(64) {
        let differing = words[i] ^ others[i];
        if differing != 0 {
            return end <= 64 * i + differing.trailing_zeros() as usize;
        }
    }
    true
}

/// Sets a bit in the byte of each number of one word.
fn mark_word(bytes: &mut [u8], words: &[u64], place: usize, bit: u32)
    requires bit { bit < 8 }
    requires place { place < length words.now }
    requires few { length words.now < 2 ^ 32 }
    ensures inside { (j b : ℕ) → j < length bytes.old → j / 64 ≡ place → has_bit (slice_index bytes.new j) b
        ≡ (has_bit (slice_index bytes.old j) b || (has words.now j && nat_eq b bit)) }
    ensures below { (j : ℕ) → j < length bytes.old → j / 64 < place
        → slice_index bytes.new j ≡ slice_index bytes.old j }
    ensures above { (j : ℕ) → j < length bytes.old → place < j / 64
        → slice_index bytes.new j ≡ slice_index bytes.old j }
{
    let word = words[place];
    let mut from = 0;
    while from < 64 {
        let rest = word >> from;
        if rest == 0 {
            return;
        }
        let k = from + rest.trailing_zeros() as usize;
        let j = 64 * place + k;
        if j >= bytes.len() {
            return;
        }
        bytes[j] = with_bit(bytes[j], bit);
        from = k + 1;
    }
}

/// Sets a bit in the byte of each number of some words.
fn mark_words(bytes: &mut [u8], words: &[u64], bit: u32)
    requires bit { bit < 8 }
    requires room { length bytes.old ≤ 64 * length words.now }
    requires few { length words.now < 2 ^ 32 }
    ensures { (j b : ℕ) → j < length bytes.old → has_bit (slice_index bytes.new j) b
        ≡ (has_bit (slice_index bytes.old j) b || (has words.now j && nat_eq b bit)) }
{
    for place in 0..words.len() {
        mark_word(bytes, words, place, bit);
    }
}

impl BitRow {
    ghost use Rattle.std.specs.Prelude.{◌≡◌, ℕ, ◌*◌, ◌^◌, ◌<◌, ◌≤◌, ◌&&◌, ◌||◌, not, false, true, nat_eq, length};
    ghost use Rattle.std.specs.Prelude.{slice_index, IfOk, IfSome, IfNone, IsTrue, count_ones};
    ghost use Rattle.std.specs.List.{sum_by};
    ghost use Rattle.sm_bits.specs.Bits.{has, has_bit};

    /// Returns the empty set, with room for the numbers below 64 times `words`.
    pub fn empty(alloc: Global, words: usize) -> Result<BitRow, AllocError>
        ensures room { IfOk result (λ row. length row ≡ words) }
        ensures none { IfOk result (λ row. (j : ℕ) → has row j ≡ false) }
    {
        let words = vec![in alloc; 0u64; words]?;
        Ok(BitRow { words })
    }

    /// Returns the number of words of the row.
    pub fn len(&self) -> usize
        ensures { result ≡ length self.now }
    {
        self.words.len()
    }

    /// Returns the number of numbers in the set.
    pub fn count(&self) -> usize
        requires { length self.now < 2 ^ 32 }
        ensures counted { result ≡ sum_by count_ones self.now }
        ensures most { result ≤ 64 * length self.now }
    {
        count_words(&self.words)
    }

    /// Returns whether number `i` is in the set.
    pub fn has(&self, i: usize) -> bool
        requires { i < 64 * length self.now }
        ensures { result ≡ has self.now i }
    {
        self.words[i / 64] >> (i % 64) & 1 == 1
    }

    /// Returns the least number of the set from `from` on.
    pub fn next(&self, from: usize) -> Option<usize>
        requires { length self.now < 2 ^ 32 }
        ensures none { IfNone result ((j : ℕ) → from ≤ j → has self.now j ≡ false) }
        ensures some { IfSome result (λ i. (from ≤ i) × (i < 64 * length self.now)
            × (has self.now i ≡ true)) }
        ensures first { IfSome result (λ i. (j : ℕ) → from ≤ j → j < i → has self.now j ≡ false) }
    {
        next_in(&self.words, from)
    }

    /// Returns whether both rows have the same words.
    pub fn is_same(&self, other: &BitRow) -> bool
        ensures same { result ≡ true → self.now ≡ other.now }
        ensures other { result ≡ false → self.now ≡ other.now → ⊥ }
    {
        self.words == other.words
    }

    /// Returns whether both rows have the same numbers below `end`.
    pub fn is_same_below(&self, other: &BitRow, end: usize) -> bool
        requires room { (end ≤ 64 * length self.now) × (end ≤ 64 * length other.now) }
        requires few { length self.now < 2 ^ 32 }
        ensures same { result ≡ true → (j : ℕ) → j < end → has self.now j ≡ has other.now j }
        ensures other { result ≡ false → (j : ℕ) × (j < end) × (has self.now j ≡ has other.now j → ⊥) }
    {
        words_alike(&self.words, &other.words, end)
    }

    /// Returns a digest of the words, which is the same for equal rows.
    pub fn digest(&self) -> u64 {
        let mut digest = 0u64;
        for word in &self.words {
            digest = (digest.rotate_left(5) ^ word).wrapping_mul(0x9e37_79b9_7f4a_7c15);
        }
        digest
    }

    /// Adds number `i`.
    pub fn insert(&mut self, i: usize)
        requires { i < 64 * length self.old }
        ensures room { length self.new ≡ length self.old }
        ensures added { (j : ℕ) → has self.new j ≡ (nat_eq j i || has self.old j) }
    {
        self.words[i / 64] |= 1 << (i % 64);
    }

    /// Removes number `i`.
    pub fn remove(&mut self, i: usize)
        requires { i < 64 * length self.old }
        ensures room { length self.new ≡ length self.old }
        ensures removed { (j : ℕ) → has self.new j ≡ (not (nat_eq j i) && has self.old j) }
    {
        self.words[i / 64] &= !(1 << (i % 64));
    }

    /// Returns the least number from `from` on that isn't in the set, or `end` if all below it are.
    fn first_free_before(&self, from: usize, end: usize) -> usize
        requires { (from ≤ end) × (end ≤ 64 * length self.now) }
        ensures between { (from ≤ result) × (result ≤ end) }
        ensures free { result < end → has self.now result ≡ false }
        ensures least { (j : ℕ) → from ≤ j → j < result → has self.now j ≡ true }
    {
        for i in from..end {
            if !self.has(i) {
                return i;
            }
        }
        end
    }

    /// Returns the least number from `from` on that isn't in the set, which may be past the row's room. It reads 64
    /// numbers at a time.
    pub fn first_free_from(&self, from: usize) -> usize
        requires { length self.now < 2 ^ 32 }
        ensures behind { from ≤ result }
        ensures free { has self.now result ≡ false }
        ensures least { (j : ℕ) → from ≤ j → j < result → has self.now j ≡ true }
    {
        if from >= 64 * self.words.len() {
            return from;
        }
        let first = from.div_ceil(64);
        let found = self.first_free_before(from, 64 * first);
        if found < 64 * first {
            return found;
        }
        first_free_in(&self.words, first)
    }

    /// Returns the least number that isn't in the set.
    pub fn first_free(&self) -> usize
        requires { length self.now < 2 ^ 32 }
        ensures free { has self.now result ≡ false }
        ensures least { (j : ℕ) → j < result → has self.now j ≡ true }
    {
        self.first_free_from(0)
    }

    /// Adds every number of `other`.
    pub fn union_with(&mut self, other: &BitRow)
        requires { length self.old ≡ length other.now }
        ensures room { length self.new ≡ length self.old }
        ensures joined { (j : ℕ) → has self.new j ≡ (has self.old j || has other.now j) }
    {
        union_words(&mut self.words, &other.words);
    }

    /// Removes every number of `other`.
    pub fn subtract(&mut self, other: &BitRow)
        requires { length self.old ≡ length other.now }
        ensures room { length self.new ≡ length self.old }
        ensures left { (j : ℕ) → has self.new j ≡ (has self.old j && not (has other.now j)) }
    {
        subtract_words(&mut self.words, &other.words);
    }

    /// Returns whether some number is in both sets.
    pub fn meets(&self, other: &BitRow) -> bool
        requires { length self.now ≡ length other.now }
        ensures none { result ≡ false → (j : ℕ) → (has self.now j && has other.now j) ≡ false }
        ensures some { IsTrue result → (j : ℕ) × (IsTrue (has self.now j && has other.now j)) }
    {
        words_meet(&self.words, &other.words)
    }

    /// Sets a bit in the byte of each number of the set, bytes being numbered from 0.
    pub fn mark(&self, bytes: &mut [u8], bit: u32)
        requires bit { bit < 8 }
        requires room { length bytes.old ≤ 64 * length self.now }
        requires few { length self.now < 2 ^ 32 }
        ensures { (j b : ℕ) → j < length bytes.old → has_bit (slice_index bytes.new j) b
            ≡ (has_bit (slice_index bytes.old j) b || (has self.now j && nat_eq b bit)) }
    {
        mark_words(bytes, &self.words, bit);
    }
}
