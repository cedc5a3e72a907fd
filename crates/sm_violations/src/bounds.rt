//! Which neverallow rules may forbid something that an allow rule allows.
//!
//! The pairs of a permission are bounded by the targets of each 64 sources that follow each other, so that most rules
//! are tested once for all of these.

ghost use Rattle.std.specs.Prelude.{◌≡◌, ◌<◌, ◌≤◌, ◌+◌, ◌*◌, ◌/◌, ◌&&◌, ℕ, length, false, true, IfOk};
ghost use Rattle.sm_bits.specs.Bits.{has, row};
ghost use Rattle.sm_rules.specs.Keeping.{FitsRule};
ghost use Rattle.sm_matrices.specs.Matrices.{matrix, AllSquare};
ghost use Rattle.sm_neverallow.specs.Hitting.{Misses, IsClear};
ghost use Rattle.sm_violations.specs.Bounding.{AllBound, Bound, BoundsBlock};

use sm_bits::BitRow;
use sm_matrices::Matrices;
use sm_rules::{Kept, PERM_COUNT, has_perm};
use sm_types::TypeCount;
use std::alloc::{AllocError, Global};

/// The number of sources that are bounded together.
const BLOCK: usize = 64;

/// What has at least the pairs of a permission.
#[derive(Drop)]
pub struct Bounds {
    /// The targets of each 64 sources.
    blocks: Vec<BitRow>,
    /// The sources that are targets of their own.
    own: BitRow,
}

/// Returns the number behind the last source of a block.
fn block_end(count: TypeCount, block: usize) -> usize
    requires { block < count / 64 + 1 }
    ensures within { result ≤ count }
    ensures last { result ≤ 64 * block + 64 }
    ensures all { (s : ℕ) → s < 64 * block + 64 → s < count → s < result }
{
    (BLOCK * block + BLOCK).min(count.get())
}

/// Returns the targets of the sources of a block.
fn block_of(
    alloc: Global,
    matrices: &Matrices,
    count: TypeCount,
    bit: u32,
    block: usize,
) -> Result<BitRow, AllocError>
    requires number { length matrices.now ≡ 7 }
    requires square { AllSquare matrices.now count }
    requires bit { bit < 7 }
    requires block { block < count / 64 + 1 }
    ensures room { IfOk result (λ bound. length bound ≡ count / 64 + 1) }
    ensures bounds { IfOk result (λ bound. BoundsBlock (matrix matrices.now bit) count block bound) }
{
    let mut bound = BitRow::empty(alloc, count.words())?;
    for s in BLOCK * block..block_end(count, block) {
        bound.union_with(matrices.targets(bit, s));
    }
    Ok(bound)
}

/// Returns the sources that are targets of their own.
fn own_of(
    alloc: Global,
    matrices: &Matrices,
    count: TypeCount,
    bit: u32,
) -> Result<BitRow, AllocError>
    requires number { length matrices.now ≡ 7 }
    requires square { AllSquare matrices.now count }
    requires bit { bit < 7 }
    ensures room { IfOk result (λ own. length own ≡ count / 64 + 1) }
    ensures own { IfOk result (λ own. (s : ℕ) → s < count → has (row (matrix matrices.now bit) s) s ≡ true
        → has own s ≡ true) }
{
    let mut own = BitRow::empty(alloc, count.words())?;
    for s in 0..count.get() {
        if matrices.has(bit, s, s) {
            own.insert(s);
        }
    }
    Ok(own)
}

/// Returns the bounds of the pairs of a permission.
fn bounds_of(
    alloc: Global,
    matrices: &Matrices,
    count: TypeCount,
    bit: u32,
) -> Result<Bounds, AllocError>
    requires number { length matrices.now ≡ 7 }
    requires square { AllSquare matrices.now count }
    requires bit { bit < 7 }
    ensures { IfOk result (λ bounds. Bound (matrix matrices.now bit) count bounds) }
{
    let own = own_of(alloc, matrices, count, bit)?;
    let mut blocks = Vec::with_capacity(alloc, count.words())?;
    for block in 0..count.words() {
        let bound = block_of(alloc, matrices, count, bit, block)?;
        blocks.push_reserved(bound);
    }
    Ok(Bounds { blocks, own })
}

/// Returns the bounds of the pairs of each permission, in the order of bits.
pub fn all_bounds(
    alloc: Global,
    matrices: &Matrices,
    count: TypeCount,
) -> Result<Vec<Bounds>, AllocError>
    requires number { length matrices.now ≡ 7 }
    requires square { AllSquare matrices.now count }
    ensures { IfOk result (λ all. AllBound matrices.now count all.items) }
{
    let mut all = Vec::with_capacity(alloc, PERM_COUNT as usize)?;
    for bit in 0..PERM_COUNT {
        let bounds = bounds_of(alloc, matrices, count, bit)?;
        all.push_reserved(bounds);
    }
    Ok(all)
}

/// Returns whether a rule joins a source of a block to one of the targets that this has by the matrix of a permission.
fn meets_in_block(
    matrices: &Matrices,
    rule: &Kept,
    count: TypeCount,
    bit: u32,
    block: usize,
) -> bool
    requires number { length matrices.now ≡ 7 }
    requires square { AllSquare matrices.now count }
    requires rule { FitsRule count rule.now }
    requires bit { bit < 7 }
    requires block { block < count / 64 + 1 }
    ensures { result ≡ false → (s t : ℕ) → 64 * block ≤ s → s < 64 * block + 64 → s < count
        → (has rule.now.sources s && (has rule.now.targets t && has (row (matrix matrices.now bit) s) t)) ≡ false }
{
    for s in BLOCK * block..block_end(count, block) {
        if rule.sources.has(s) && rule.targets.meets_row(matrices.targets(bit, s)) {
            return true;
        }
    }
    false
}

/// Returns whether a rule may join a pair that the matrix of a permission has. `false` is sure.
fn may_meet(matrices: &Matrices, bounds: &Bounds, rule: &Kept, count: TypeCount, bit: u32) -> bool
    requires number { length matrices.now ≡ 7 }
    requires square { AllSquare matrices.now count }
    requires bounds { Bound (matrix matrices.now bit) count bounds.now }
    requires rule { FitsRule count rule.now }
    requires bit { bit < 7 }
    ensures { result ≡ false → Misses (matrix matrices.now bit) count rule.now }
{
    if rule.to_self && rule.sources.meets_row(&bounds.own) {
        return true;
    }
    for block in 0..count.words() {
        if rule.targets.meets_row(&bounds.blocks[block])
            && meets_in_block(matrices, rule, count, bit, block)
        {
            return true;
        }
    }
    false
}

/// Returns whether a neverallow rule may forbid something that the matrices have. `false` is sure.
pub fn may_be_broken(matrices: &Matrices, all: &[Bounds], never: &Kept, count: TypeCount) -> bool
    requires number { length matrices.now ≡ 7 }
    requires square { AllSquare matrices.now count }
    requires bounds { AllBound matrices.now count all.now }
    requires never { FitsRule count never.now }
    ensures { result ≡ false → IsClear matrices.now count never.now }
{
    for bit in 0..PERM_COUNT {
        if has_perm(never.perms, bit) && may_meet(matrices, &all[bit as usize], never, count, bit) {
            return true;
        }
    }
    false
}
