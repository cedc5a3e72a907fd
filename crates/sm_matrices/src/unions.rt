//! The unions of all subsets of a few rows.
//!
//! Rows that many rules need together are joined once for each subset of them, so that a rule
//! then takes one union in place of each row of its own. Each row doubles the unions: the places
//! of the subsets with it are those without it, raised by the number of unions so far.

ghost use Rattle.std.specs.Prelude.{◌≡◌, ◌<◌, ℕ, ◌&&◌, ◌||◌, length, false, IfOk, IsTrue};
ghost use Rattle.sm_bits.specs.Bits.{has, row};
ghost use Rattle.sm_matrices.specs.Uniting.{AreWide, Doubled};

use sm_bits::{BitRow, SharedSet};
use std::alloc::{AllocError, Global};
use std::marker::Model;

/// Returns the union of two rows.
fn union_of(
    alloc: Global,
    first: &BitRow,
    second: &BitRow,
    words: usize,
) -> Result<BitRow, AllocError>
    requires first { length first.now ≡ words }
    requires second { length second.now ≡ words }
    ensures room { IfOk result (λ row. length row ≡ words) }
    ensures joined { IfOk result (λ row. (t : ℕ) → has row t ≡ (has first.now t || has second.now t)) }
{
    let mut union = BitRow::empty(alloc, words)?;
    union.union_with(first);
    union.union_with(second);
    Ok(union)
}

/// Adds the union of each row with this one.
fn double(
    alloc: Global,
    rows: &mut Vec<BitRow>,
    row: &BitRow,
    words: usize,
) -> Result<(), AllocError>
    requires wide { AreWide words rows.old.items }
    requires row { length row.now ≡ words }
    ensures wide { IfOk result (λ done. AreWide words rows.new.items) }
    ensures doubled { IfOk result (λ done. Doubled rows.old.items rows.new.items row.now) }
{
    for place in 0..rows.len() {
        let union = union_of(alloc, &rows[place], row, words)?;
        rows.push(union)?;
    }
    Ok(())
}

/// The unions of all subsets of some rows; contracts see the list of these unions.
pub struct Unions {
    rows: Vec<BitRow>,
}

impl Drop for Unions {
    fn drop(self) {
        let Unions { rows: _ } = self;
    }
}

impl Model for Unions {
    ghost use Rattle.std.specs.Prelude.{List, ℕ};

    ghost Value = { List (List ℕ) };

    ghost view = { λ unions. unions.rows.items };
}

impl Unions {
    /// Returns the only union of no row.
    pub fn none(alloc: Global, words: usize) -> Result<Unions, AllocError>
        ensures number { IfOk result (λ unions. length unions ≡ 1) }
        ensures wide { IfOk result (λ unions. AreWide words unions) }
        ensures none { IfOk result (λ unions. (t : ℕ) → has (row unions 0) t ≡ false) }
    {
        let mut rows = Vec::new(alloc);
        let row = BitRow::empty(alloc, words)?;
        rows.push(row)?;
        Ok(Unions { rows })
    }

    /// Returns the number of unions.
    pub fn len(&self) -> usize
        ensures { result ≡ length self.now }
    {
        self.rows.len()
    }

    /// Adds the unions of the subsets with one more row.
    pub fn add(&mut self, alloc: Global, row: &BitRow, words: usize) -> Result<(), AllocError>
        requires wide { AreWide words self.old }
        requires row { length row.now ≡ words }
        ensures wide { IfOk result (λ done. AreWide words self.new) }
        ensures doubled { IfOk result (λ done. Doubled self.old self.new row.now) }
    {
        double(alloc, &mut self.rows, row, words)
    }

    /// Adds the union at an index to a row.
    pub fn add_to(&self, place: usize, to: &mut BitRow, words: usize)
        requires wide { AreWide words self.now }
        requires place { place < length self.now }
        requires to { length to.old ≡ words }
        ensures room { length to.new ≡ words }
        ensures joined { (t : ℕ) → has to.new t ≡ (has to.old t || has (row self.now place) t) }
    {
        to.union_with(&self.rows[place]);
    }

    /// Returns whether the union at an index has something in common with a row.
    pub fn meets(&self, place: usize, other: &SharedSet, words: usize) -> bool
        requires wide { AreWide words self.now }
        requires place { place < length self.now }
        requires other { length other.now ≡ words }
        ensures none { result ≡ false → (t : ℕ) → (has (row self.now place) t && has other.now t) ≡ false }
        ensures some { IsTrue result → (t : ℕ) × IsTrue (has (row self.now place) t && has other.now t) }
    {
        other.meets_row(&self.rows[place])
    }
}
