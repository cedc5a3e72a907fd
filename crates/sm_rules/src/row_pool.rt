//! A pool of rows, each stored once.

ghost use Rattle.std.specs.Prelude.{◌≡◌, ◌<◌, ◌+◌, ◌^◌, ◌*◌, ℕ, length, IfOk, IfSome, nat_eq};
ghost use Rattle.std.specs.Arc.{arc_value};
ghost use Rattle.sm_bits.specs.Bits.{has, row};
ghost use Rattle.sm_rules.specs.Pooling.{HasMembersBefore, HasMembers};

use indexmap::IndexMap;
use sm_bits::{BitRow, SharedSet};
use sm_types::Types;
use sm_values::drop_fields;
use std::alloc::{AllocError, Global};
use std::marker::Model;
use std::sync::Arc;

/// Returns the number in a set of one number.
fn only_number(row: &BitRow) -> Option<usize>
    requires { length row.now < 2 ^ 32 }
    ensures inside { IfSome result (λ i. i < 64 * length row.now) }
    ensures only { IfSome result (λ i. (j : ℕ) → has row.now j ≡ nat_eq j i) }
{
    let first = row.next(0)?;
    match row.next(first + 1) {
        Some(_) => None,
        None => Some(first),
    }
}

/// The set of each attribute by its number, and rows by their digests. Rows with equal digests are compared before one
/// is used for the other.
///
/// Contracts see the sets of the attributes.
pub struct RowPool {
    members: Vec<SharedSet>,
    rows: IndexMap<u64, Arc<BitRow, Global>>,
}

impl Drop for RowPool {
    fn drop(self) {
        drop_fields!(self: members, rows);
    }
}

impl Model for RowPool {
    ghost use Rattle.std.specs.Prelude.{List, ℕ};

    ghost Value = { List (List ℕ) };

    ghost view = { λ p. p.members.items };
}

impl RowPool {
    /// Makes a pool with the sets of the attributes.
    pub fn new(alloc: Global, types: &Types) -> Result<RowPool, AllocError>
        ensures { IfOk result (λ pool. HasMembers types.now pool) }
    {
        let mut pool = RowPool {
            members: Vec::new(alloc),
            rows: IndexMap::new(alloc),
        };
        for attribute in 0..types.attribute_count() {
            pool.add_members(alloc, types, attribute)?;
        }
        Ok(pool)
    }

    /// Adds the set of the next attribute.
    fn add_members(
        &mut self,
        alloc: Global,
        types: &Types,
        attribute: usize,
    ) -> Result<(), AllocError>
        requires inside { attribute < length types.now.symbols.attributes }
        requires before { HasMembersBefore attribute types.now self.old }
        ensures { IfOk result (λ done. HasMembersBefore (attribute + 1) types.now self.new) }
    {
        let mut row = BitRow::empty(alloc, types.type_count().words())?;
        row.union_with(types.members(attribute));
        let set = self.share(alloc, row)?;
        self.members.push(set)?;
        Ok(())
    }

    /// Returns the set of an attribute.
    pub fn members(&self, attribute: usize) -> Result<SharedSet, AllocError>
        requires { attribute < length self.now }
        ensures { IfOk result (λ set. set ≡ row self.now attribute) }
    {
        self.members[attribute].clone()
    }

    /// Returns a reference to an equal row that was shared before, if there is one.
    fn known(&self, digest: u64, row: &BitRow) -> Result<Option<Arc<BitRow, Global>>, AllocError>
        ensures { IfOk result (λ o. IfSome o (λ shared. arc_value shared ≡ row.now)) }
    {
        match self.rows.get(&digest) {
            Some(shared) => {
                if shared.is_same(row) {
                    let again = Arc::try_clone(shared)?;
                    Ok(Some(again))
                } else {
                    Ok(None)
                }
            }
            None => Ok(None),
        }
    }

    /// Returns a reference to the row, shared with an equal one from before, if there was one.
    fn shared_row(&mut self, alloc: Global, row: BitRow) -> Result<Arc<BitRow, Global>, AllocError>
        ensures members { self.new ≡ self.old }
        ensures row { IfOk result (λ shared. arc_value shared ≡ row) }
    {
        let digest = row.digest();
        if let Some(shared) = self.known(digest, &row)? {
            return Ok(shared);
        }
        let shared = Arc::new(alloc, row)?;
        let again = Arc::try_clone(&shared)?;
        self.rows.insert(digest, again)?;
        Ok(shared)
    }

    /// Returns the set of a row: a single number, or a row that may be shared.
    pub fn share(&mut self, alloc: Global, row: BitRow) -> Result<SharedSet, AllocError>
        requires { length row < 2 ^ 32 }
        ensures members { self.new ≡ self.old }
        ensures room { IfOk result (λ set. length set ≡ length row) }
        ensures same { IfOk result (λ set. (j : ℕ) → has set j ≡ has row j) }
    {
        match only_number(&row) {
            Some(number) if number < 65_536 => Ok(SharedSet::one(number as u16, row.len())),
            _ => Ok(SharedSet::many(self.shared_row(alloc, row)?)),
        }
    }
}
