//! The pairs of types that rules of a policy source join, for each permission.

use crate::layer::Layer;
use crate::matrix::{Matrix, matrices_of};
use sm_bits::BitRow;
use sm_rules::Rules;
use sm_types::TypeCount;
use sm_values::Perms;
use std::alloc::{AllocError, Global};
use std::marker::Model;

/// A matrix of bits for each permission, in the order of bits.
pub struct Matrices {
    list: Vec<Layer>,
}

impl Drop for Matrices {
    fn drop(self) {
        let Matrices { list: _ } = self;
    }
}

impl Model for Matrices {
    ghost use Rattle.std.specs.Prelude.{List, ℕ};

    ghost Value = { List (List (List ℕ)) };

    ghost view = { λ m. m.list.items };
}

impl Matrices {
    ghost use Rattle.std.specs.Prelude.{◌≡◌, ◌<◌, ◌*◌, ℕ, List, length, IfOk};
    ghost use Rattle.sm_bits.specs.Bits.{has, row};
    ghost use Rattle.sm_ruletext.specs.declared.statement.RuleKind.TheVariants as kind;
    ghost use Rattle.sm_ruletext.specs.declared.statement.Statement.{Statement as TheStatement};
    ghost use Rattle.sm_rules.specs.Keeping.{RulesOf};
    ghost use Rattle.sm_matrices.specs.Matrices.{matrix, AllCompiled, AllSquare, IsUnion, SayCovered};

    /// Returns the matrices of the allow rules.
    #[tactic(auto, using(crate::proofs::Saying::say_covered))]
    pub fn compile(alloc: Global, rules: &Rules) -> Result<Matrices, AllocError>
        ensures compiled { IfOk result (λ m. AllCompiled rules.now.allows rules.now.count 7 m) }
        ensures written { IfOk result (λ m. (policy : List TheStatement) (names : List (List ℕ))
            → RulesOf policy names rules.now → SayCovered kind.Allow policy names m) }
    {
        let allows = rules.allows();
        let list = matrices_of(alloc, allows, rules.type_count())?;
        Ok(Matrices { list })
    }

    /// Returns the matrices of the dontaudit rules.
    #[tactic(auto, using(crate::proofs::Saying::say_covered))]
    pub fn compile_silences(alloc: Global, rules: &Rules) -> Result<Matrices, AllocError>
        ensures compiled { IfOk result (λ m. AllCompiled rules.now.silences rules.now.count 7 m) }
        ensures silenced { IfOk result (λ m. (policy : List TheStatement) (names : List (List ℕ))
            → RulesOf policy names rules.now → SayCovered kind.Dontaudit policy names m) }
    {
        let silences = rules.silences();
        let list = matrices_of(alloc, silences, rules.type_count())?;
        Ok(Matrices { list })
    }

    /// Returns the targets of a source for permission `bit`.
    pub fn targets(&self, bit: u32, source: usize) -> &BitRow
        requires bit { bit < length self.now }
        requires source { source < length (matrix self.now bit) }
        ensures { result.now ≡ row (matrix self.now bit) source }
    {
        let layer = &self.list[bit as usize];
        match &layer.matrix {
            Some(matrix) => &matrix.rows[source],
            None => &layer.nothing,
        }
    }

    /// Returns whether a source has a target for permission `bit`.
    #[inline]
    pub fn has(&self, bit: u32, source: usize, target: usize) -> bool
        requires bit { bit < length self.now }
        requires source { source < length (matrix self.now bit) }
        requires target { target < 64 * length (row (matrix self.now bit) source) }
        ensures { result ≡ has (row (matrix self.now bit) source) target }
    {
        self.targets(bit, source).has(target)
    }

    /// Returns the matrix of the pairs that some permission of the set has.
    pub fn union_of(
        &self,
        alloc: Global,
        count: TypeCount,
        set: Perms,
    ) -> Result<Matrix, AllocError>
        requires number { length self.now ≡ 7 }
        requires square { AllSquare self.now count }
        ensures { IfOk result (λ m. IsUnion self.now count set.0 7 m) }
    {
        Matrix::union_of(alloc, &self.list, count, set)
    }
}
