//! Rows of the same length.

ghost use Rattle.std.specs.Prelude.{◌≡◌, ◌<◌, ℕ, length, false, IfOk};
ghost use Rattle.sm_bits.specs.Bits.{has, row};

use crate::BitRow;
use std::alloc::{AllocError, Global};

/// Returns `count` empty sets, each with room for the numbers below 64 times `words`.
pub fn empty_rows(alloc: Global, count: usize, words: usize) -> Result<Vec<BitRow>, AllocError>
    ensures count { IfOk result (λ rows. length rows.items ≡ count) }
    ensures room { IfOk result (λ rows. (i : ℕ) → i < count → length (row rows.items i) ≡ words) }
    ensures none { IfOk result (λ rows. (i j : ℕ) → has (row rows.items i) j ≡ false) }
{
    let mut rows = Vec::new(alloc);
    for _ in 0..count {
        let row = BitRow::empty(alloc, words)?;
        rows.push(row)?;
    }
    Ok(rows)
}
