//! For a permission, which sources have which targets; for most permissions no rule says so.

ghost use Rattle.std.specs.Prelude.{◌≡◌, ◌<◌, ◌/◌, ◌+◌, ℕ, length, false, ◌&&◌, ◌||◌, IfOk};
ghost use Rattle.sm_bits.specs.Bits.{has, row, has_bit};
ghost use Rattle.sm_matrices.specs.Matrices.{Square};
ghost use Rattle.std.specs.Arc.{arc_value};

use crate::matrix::Matrix;
use sm_bits::BitRow;
use sm_rules::has_perm;
use sm_types::TypeCount;
use sm_values::{Perms, drop_fields};
use std::alloc::{AllocError, Global};
use std::marker::Model;
use std::sync::Arc;

/// The matrix of a permission, if some rule gives it. Permissions that the same rules give share one. Contracts see the
/// list of its rows.
pub struct Layer {
    pub(crate) matrix: Option<Arc<Matrix, Global>>,
    count: usize,
    /// The row of each source, if there is no matrix.
    pub(crate) nothing: BitRow,
}

impl Drop for Layer {
    fn drop(self) {
        drop_fields!(self: matrix, count, nothing);
    }
}

impl Model for Layer {
    ghost use Rattle.std.specs.Arc.{arc_value};
    ghost use Rattle.std.specs.Prelude.{List, ℕ, option_map};
    ghost use Rattle.sm_matrices.specs.Matrices.{IsNothing, layered};

    ghost Value = { List (List ℕ) };

    ghost view = { λ l. layered l.count l.nothing (option_map arc_value l.matrix) };

    ghost invariant = { λ l. IsNothing l.count l.nothing };
}

/// Adds the pairs of a second matrix to a first one, which is copied if it is shared.
fn sum_of(
    alloc: Global,
    first: Arc<Matrix, Global>,
    second: &Matrix,
    count: TypeCount,
) -> Result<Matrix, AllocError>
    requires first { Square (arc_value first) count }
    requires second { Square second.now count }
    ensures square { IfOk result (λ m. Square m count) }
    ensures added { IfOk result (λ m. (s t : ℕ) → s < count → has (row m s) t
        ≡ (has (row (arc_value first) s) t || has (row second.now s) t)) }
{
    let mut sum = match Arc::try_unwrap(first) {
        Ok(matrix) => matrix,
        Err(shared) => shared.copy(alloc, count)?,
    };
    sum.add(second, count);
    Ok(sum)
}

impl Layer {
    /// Returns the pairs of no rule.
    #[tactic(auto, using(crate::proofs::Layers::no_square, crate::proofs::Layers::no_pair))]
    pub fn none(alloc: Global, count: TypeCount) -> Result<Layer, AllocError>
        ensures square { IfOk result (λ m. Square m count) }
        ensures none { IfOk result (λ m. (s t : ℕ) → has (row m s) t ≡ false) }
    {
        let nothing = BitRow::empty(alloc, count.words())?;
        Ok(Layer {
            matrix: None,
            count: count.get(),
            nothing,
        })
    }

    /// Adds the pairs of a matrix. The first one is shared.
    fn add(
        &mut self,
        alloc: Global,
        other: &Arc<Matrix, Global>,
        count: TypeCount,
    ) -> Result<(), AllocError>
        requires square { Square self.old count }
        requires other { Square (arc_value other.now) count }
        ensures square { IfOk result (λ done. Square self.new count) }
        ensures added { IfOk result (λ done. (s t : ℕ) → s < count → has (row self.new s) t
            ≡ (has (row self.old s) t || has (row (arc_value other.now) s) t)) }
    {
        let matrix = match self.matrix.take() {
            Some(own) => Arc::new(alloc, sum_of(alloc, own, other, count)?)?,
            None => Arc::try_clone(other)?,
        };
        self.matrix = Some(matrix);
        Ok(())
    }

    /// Adds the pairs of a matrix, if permission `bit` is one of the set.
    pub fn add_for(
        &mut self,
        alloc: Global,
        other: &Arc<Matrix, Global>,
        count: TypeCount,
        set: Perms,
        bit: u32,
    ) -> Result<(), AllocError>
        requires bit { bit < 8 }
        requires square { Square self.old count }
        requires other { Square (arc_value other.now) count }
        ensures square { IfOk result (λ done. Square self.new count) }
        ensures added { IfOk result (λ done. (s t : ℕ) → s < count → has (row self.new s) t
            ≡ (has (row self.old s) t || (has_bit set.0 bit && has (row (arc_value other.now) s) t))) }
    {
        if !has_perm(set, bit) {
            return Ok(());
        }
        self.add(alloc, other, count)
    }

    /// Adds the pairs to a matrix, if permission `bit` is one of the set.
    pub fn add_to(&self, matrix: &mut Matrix, count: TypeCount, set: Perms, bit: u32)
        requires bit { bit < 8 }
        requires square { Square self.now count }
        requires matrix { Square matrix.old count }
        ensures square { Square matrix.new count }
        ensures added { (s t : ℕ) → s < count → has (row matrix.new s) t
            ≡ (has (row matrix.old s) t || (has_bit set.0 bit && has (row self.now s) t)) }
    {
        if let Some(own) = &self.matrix {
            matrix.add_for(own, count, set, bit);
        }
    }
}
