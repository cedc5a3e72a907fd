//! The permissions of a source on each target.

ghost use Rattle.std.specs.Prelude.{◌≡◌, ◌<◌, ◌≤◌, ◌/◌, ◌+◌, ℕ, length, slice_index, IfOk, true, false};
ghost use Rattle.sm_types.specs.declared.TheConstants.{MOST_TYPES};
ghost use Rattle.sm_bits.specs.Bits.{has, has_bit, row};
ghost use Rattle.sm_matrices.specs.Matrices.{matrix, AllSquare};

use crate::matrices::Matrices;
use sm_rules::PERM_COUNT;
use sm_types::TypeCount;
use std::alloc::{AllocError, Global};

/// Sets in the bytes of a source, for each target, the permissions that the matrices have.
fn mark_source(bytes: &mut [u8], matrices: &Matrices, count: TypeCount, source: usize)
    requires room { length bytes.old ≡ count }
    requires none { (t b : ℕ) → t < count → has_bit (slice_index bytes.old t) b ≡ false }
    requires number { length matrices.now ≡ 7 }
    requires square { AllSquare matrices.now count }
    requires source { source < count }
    ensures { (t b : ℕ) → t < count → b < 7
        → has_bit (slice_index bytes.new t) b ≡ has (row (matrix matrices.now b) source) t }
{
    prove!(count.words() < 1000);
    for bit in 0..PERM_COUNT {
        matrices.targets(bit, source).mark(bytes, bit);
    }
}

/// Returns for each target of a source a byte, whose bit `b` says whether matrix `b` joins the two.
pub fn source_row(
    alloc: Global,
    matrices: &Matrices,
    count: TypeCount,
    source: usize,
) -> Result<Vec<u8>, AllocError>
    requires number { length matrices.now ≡ 7 }
    requires square { AllSquare matrices.now count }
    requires source { source < count }
    ensures { IfOk result (λ bytes. (t b : ℕ) → t < count → b < 7
        → has_bit (slice_index bytes.items t) b ≡ has (row (matrix matrices.now b) source) t) }
{
    let mut bytes = vec![in alloc; 0u8; count.get()]?;
    mark_source(&mut bytes, matrices, count, source);
    Ok(bytes)
}

/// Returns whether two sources, one in each of some matrices, have the same permissions on each target below `end`.
pub fn rows_alike(
    one: &Matrices,
    other: &Matrices,
    count: TypeCount,
    others: TypeCount,
    source: usize,
    theirs: usize,
    end: usize,
) -> bool
    requires numbers { (length one.now ≡ 7) × (length other.now ≡ 7) }
    requires square { AllSquare one.now count × AllSquare other.now others }
    requires sources { (source < count) × (theirs < others) }
    requires end { (end ≤ count) × (end ≤ others) }
    ensures alike { result ≡ true → (t b : ℕ) → t < end → b < 7
        → has (row (matrix one.now b) source) t ≡ has (row (matrix other.now b) theirs) t }
    ensures differ { result ≡ false → (t : ℕ) × (b : ℕ) × (t < end) × (b < 7)
        × (has (row (matrix one.now b) source) t ≡ has (row (matrix other.now b) theirs) t → ⊥) }
{
    prove!(count.words() < 1000);
    for bit in 0..PERM_COUNT {
        let row = one.targets(bit, source);
        if !row.is_same_below(other.targets(bit, theirs), end) {
            return false;
        }
    }
    true
}
