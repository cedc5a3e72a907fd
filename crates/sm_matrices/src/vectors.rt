//! The compiled decisions of a policy.

ghost use Rattle.std.specs.Prelude.{◌≡◌, ◌+◌, ◌/◌, ℕ, IfOk, length};
ghost use Rattle.sm_bits.specs.Bits.{has};

use crate::Decision;
use crate::matrices::Matrices;
use crate::source_row::{rows_alike, source_row};
use sm_bits::BitRow;
use sm_rules::{Rules, number_of};
use sm_types::TypeCount;
use sm_values::{Class, Perms, drop_fields};
use std::alloc::{AllocError, Global};
use std::marker::Model;

/// Copies the permissive types into a row.
fn permissive_row(alloc: Global, rules: &Rules) -> Result<BitRow, AllocError>
    ensures room { IfOk result (λ row. length row ≡ rules.now.count / 64 + 1) }
    ensures same { IfOk result (λ row. (i : ℕ) → has row i ≡ has rules.now.permissive i) }
{
    let mut row = BitRow::empty(alloc, rules.type_count().words())?;
    row.union_with(rules.permissive_types());
    Ok(row)
}

/// A bit for each permission.
const EACH_PERM: u8 = 127;

/// For each permission the pairs of types to which allow rules grant it and those for which dontaudit rules cover it,
/// and the permissive types.
pub struct Vectors {
    count: TypeCount,
    written: Matrices,
    silenced: Matrices,
    permissive: BitRow,
}

impl Model for Vectors {
    ghost use Rattle.sm_matrices.specs.Tables.{IsRoomy, Tables};

    ghost Value = { Tables };

    ghost view = { λ v. record {
      count = v.count;
      written = v.written;
      silenced = v.silenced;
      permissive = v.permissive;
    } };

    ghost invariant = { λ v. IsRoomy (record {
      count = v.count;
      written = v.written;
      silenced = v.silenced;
      permissive = v.permissive;
    }) };
}

impl Drop for Vectors {
    fn drop(self) {
        drop_fields!(self: count, written, silenced, permissive);
    }
}

impl Vectors {
    ghost use Rattle.std.specs.Prelude.{◌≡◌, ◌<◌, ◌≤◌, ◌⊎◌, ℕ, List, [], length, IfOk, true, false};
    ghost use Rattle.std.proofs.Common.{get_or};
    ghost use Rattle.sm_ruletext.specs.declared.statement.RuleKind.TheVariants as kind;
    ghost use Rattle.sm_ruletext.specs.declared.statement.Statement.{Statement as TheStatement};
    ghost use Rattle.sm_types.specs.Names.{at};
    ghost use Rattle.sm_rules.specs.Access.{allowed, audits};
    ghost use Rattle.sm_bits.specs.Bits.{has_bit};
    ghost use Rattle.sm_rules.specs.Keeping.{RulesOf, class_at, perm_at};
    ghost use Rattle.sm_matrices.specs.Matrices.{AllCompiled, SayCovered};
    ghost use Rattle.sm_matrices.specs.Tables.{TablesOf, decision, refusal};

    /// Makes the decisions of rules, of which `matrices` has the allow rules.
    pub fn compile(alloc: Global, rules: &Rules, matrices: Matrices) -> Result<Vectors, AllocError>
        requires { AllCompiled rules.now.allows rules.now.count 7 matrices }
        ensures { IfOk result (λ vectors. (policy : List TheStatement) (names : List (List ℕ))
            → RulesOf policy names rules.now → SayCovered kind.Allow policy names matrices
            → TablesOf policy names vectors) }
    {
        let silenced = Matrices::compile_silences(alloc, rules)?;
        let permissive = permissive_row(alloc, rules)?;
        Ok(Vectors {
            count: rules.type_count(),
            written: matrices,
            silenced,
            permissive,
        })
    }

    /// Returns the decision on the two types, by their numbers. If an allow rule grants the permission, that reads one
    /// bit. If a number has no type, or `perm` is no single permission of the class, nothing is allowed, and the check
    /// is audited.
    pub fn decide(&self, source: u16, target: u16, class: Class, perm: Perms) -> Decision
        ensures allowed { (policy : List TheStatement) (names : List (List ℕ))
            → TablesOf policy names self.now
            → source < length names → target < length names
            → result.allowed ≡ allowed policy (at names source) (at names target) class perm }
        ensures audited { (policy : List TheStatement) (names : List (List ℕ))
            → TablesOf policy names self.now
            → source < length names → target < length names
            → result.audited ≡ audits policy (at names source) (at names target) class perm }
        ensures no_source { self.now.count ≤ source → result ≡ refusal }
        ensures no_target { self.now.count ≤ target → result ≡ refusal }
    {
        let s = usize::from(source);
        let t = usize::from(target);
        let refusal = Decision {
            allowed: false,
            audited: true,
        };
        if s >= self.count.get() {
            return refusal;
        }
        if t >= self.count.get() {
            return refusal;
        }
        let Some(bit) = number_of(class, perm) else {
            return refusal;
        };
        if self.written.has(bit, s, t) {
            return Decision {
                allowed: true,
                audited: false,
            };
        }
        Decision {
            allowed: self.permissive.has(s),
            audited: !self.silenced.has(bit, s, t),
        }
    }

    /// Returns the permissions of a source that pass, by the numbers of the types: for each target a byte, whose bit `b`
    /// is that of `class_at(b)` and `perm_at(b)`. Nothing if the source's number has no type.
    pub fn granted_row(&self, alloc: Global, source: u16) -> Result<Vec<u8>, AllocError>
        ensures allowed { IfOk result (λ row. (policy : List TheStatement) (names : List (List ℕ))
            → TablesOf policy names self.now → source < length names → (t b : ℕ) → t < length names → b < 7
            → has_bit (get_or row.items t 0) b
            ≡ allowed policy (at names source) (at names t) (class_at b) (perm_at b)) }
        ensures no_source { self.now.count ≤ source → IfOk result (λ row. row.items ≡ []) }
    {
        let s = usize::from(source);
        if s >= self.count.get() {
            return Ok(Vec::new(alloc));
        }
        if self.permissive.has(s) {
            let row = vec![in alloc; EACH_PERM; self.count.get()]?;
            return Ok(row);
        }
        source_row(alloc, &self.written, self.count, s)
    }
    /// Returns whether a source is allowed the same as one of another policy, on each type whose number is below `end`
    /// in both. Types are given by their numbers. `false` also if only one of the sources is permissive.
    pub fn grants_alike(&self, other: &Vectors, source: u16, theirs: u16, end: u16) -> bool
        requires sources { (source < self.now.count) × (theirs < other.now.count) }
        requires end { (end ≤ self.now.count) × (end ≤ other.now.count) }
        ensures alike { result ≡ true → (t b : ℕ) → t < end → b < 7
            → (decision self.now b source t).allowed ≡ (decision other.now b theirs t).allowed }
        ensures differ { result ≡ false → (has self.now.permissive source ≡ has other.now.permissive theirs → ⊥)
            ⊎ ((t : ℕ) × (b : ℕ) × (t < end) × (b < 7)
            × ((decision self.now b source t).allowed ≡ (decision other.now b theirs t).allowed → ⊥)) }
    {
        let (source, theirs) = (usize::from(source), usize::from(theirs));
        let permissive = self.permissive.has(source);
        if permissive != other.permissive.has(theirs) {
            return false;
        }
        permissive
            || rows_alike(
                &self.written,
                &other.written,
                self.count,
                other.count,
                source,
                theirs,
                usize::from(end),
            )
    }
}
