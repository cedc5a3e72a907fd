//! For a permission, which sources have which targets.
//!
//! Matrices are made by sets of permissions: a rule is added once to the matrix of all rules with just its
//! permissions, and that matrix once to the matrix of each of these permissions. So the time of
//! a rule, which has rows for thousands of sources, does not grow with its permissions.

ghost use Rattle.std.specs.Prelude.{◌≡◌, ◌<◌, ◌≤◌, ◌+◌, ◌*◌, ◌/◌, ℕ, length, nat_eq, ◌&&◌, ◌||◌, All, IfOk, IsTrue};
ghost use Rattle.std.specs.Prelude.{false, []};
ghost use Rattle.std.specs.Arc.{arc_value};
ghost use Rattle.sm_bits.specs.Bits.{has, row, has_bit};
ghost use Rattle.sm_rules.specs.Keeping.{joins, FitsRule};
ghost use Rattle.sm_matrices.specs.Matrices.{Square, AllSquare, AllCompiled, AreSetsOf, Grouped, Joined, IsUnion};
ghost use Rattle.sm_matrices.specs.Matrices.{joined_by, IsDiagonal, HaveTargets};
ghost use Rattle.sm_matrices.specs.Uniting.{Unites, AreWide, Doubled};

use crate::gathered::{no_pairs, rows_of};
use crate::layer::Layer;
use crate::perm_sets::{SET_COUNT, sets_of};
use crate::unions::Unions;
use sm_bits::BitRow;
use sm_rules::{Kept, PERM_COUNT, has_perm};
use sm_types::TypeCount;
use sm_values::Perms;
use std::alloc::{AllocError, Global};
use std::marker::Model;
use std::sync::Arc;

/// The number of sources that are tested together, by the unions of their rows.
pub const GROUP: usize = 8;

/// Adds the targets of other rows.
fn add_rows(rows: &mut Vec<BitRow>, others: &[BitRow], count: TypeCount)
    requires square { Square rows.old.items count }
    requires others { Square others.now count }
    ensures square { Square rows.new.items count }
    ensures added { (s t : ℕ) → s < count → has (row rows.new.items s) t
        ≡ (has (row rows.old.items s) t || has (row others.now s) t) }
{
    for s in 0..rows.len() {
        let row = &mut rows[s];
        row.union_with(&others[s]);
    }
}

/// Returns whether a rule joins the source to one of the targets of its row.
fn source_meets(row: &BitRow, rule: &Kept, s: usize) -> bool
    requires sources { length rule.now.sources ≡ length row.now }
    requires targets { length rule.now.targets ≡ length row.now }
    requires source { s < 64 * length row.now }
    ensures none { result ≡ false → (t : ℕ) → (has row.now t && joins s t rule.now) ≡ false }
    ensures some { IsTrue result → (t : ℕ) × IsTrue (has row.now t && joins s t rule.now) }
{
    if !rule.sources.has(s) {
        return false;
    }
    if rule.targets.meets_row(row) {
        return true;
    }
    rule.to_self && row.has(s)
}

/// Returns whether a rule joins some source to one of the targets of its row.
fn rows_meet(rows: &[BitRow], rule: &Kept, count: TypeCount) -> bool
    requires square { Square rows.now count }
    requires fits { FitsRule count rule.now }
    ensures none { result ≡ false → (s t : ℕ) → s < count
        → (has (row rows.now s) t && joins s t rule.now) ≡ false }
    ensures some { IsTrue result → (s : ℕ) × (t : ℕ) × (s < count) × IsTrue (has (row rows.now s) t
        && joins s t rule.now) }
{
    for s in 0..rows.len() {
        if source_meets(&rows[s], rule, s) {
            return true;
        }
    }
    false
}

/// Adds the unions with the row of a source; past the last source, with no target.
fn add_row(
    alloc: Global,
    unions: &mut Unions,
    rows: &[BitRow],
    count: TypeCount,
    s: usize,
) -> Result<(), AllocError>
    requires square { Square rows.now count }
    requires wide { AreWide (count / 64 + 1) unions.old }
    ensures wide { IfOk result (λ done. AreWide (count / 64 + 1) unions.new) }
    ensures doubled { IfOk result (λ done. Doubled unions.old unions.new (row rows.now s)) }
{
    let words = count.words();
    if s < rows.len() {
        return unions.add(alloc, &rows[s], words);
    }
    let nothing = BitRow::empty(alloc, words)?;
    unions.add(alloc, &nothing, words)
}

/// Returns the unions of the rows of eight sources.
fn unions_of(
    alloc: Global,
    rows: &[BitRow],
    count: TypeCount,
    group: usize,
) -> Result<Unions, AllocError>
    requires group { group < 8 * (count / 64 + 1) }
    requires square { Square rows.now count }
    ensures wide { IfOk result (λ unions. AreWide (count / 64 + 1) unions) }
    ensures united { IfOk result (λ unions. Unites rows.now (8 * group) 8 unions) }
{
    let mut unions = Unions::none(alloc, count.words())?;
    for k in 0..GROUP {
        add_row(alloc, &mut unions, rows, count, GROUP * group + k)?;
    }
    Ok(unions)
}

/// Adds a source, if its row has it as a target.
fn add_if_own(own: &mut BitRow, row: &BitRow, s: usize)
    requires own { s < 64 * length own.old }
    requires row { s < 64 * length row.now }
    ensures room { length own.new ≡ length own.old }
    ensures added { (j : ℕ) → has own.new j ≡ (has own.old j || (nat_eq j s && has row.now s)) }
{
    if row.has(s) {
        own.insert(s);
    }
}

/// Returns the sources that are targets of their own.
fn own_sources(alloc: Global, rows: &[BitRow], count: TypeCount) -> Result<BitRow, AllocError>
    requires square { Square rows.now count }
    ensures room { IfOk result (λ own. length own ≡ count / 64 + 1) }
    ensures diagonal { IfOk result (λ own. IsDiagonal rows.now count own) }
{
    let mut own = BitRow::empty(alloc, count.words())?;
    for s in 0..rows.len() {
        add_if_own(&mut own, &rows[s], s);
    }
    Ok(own)
}

/// Returns the targets of all sources.
fn all_targets(alloc: Global, rows: &[BitRow], count: TypeCount) -> Result<BitRow, AllocError>
    requires square { Square rows.now count }
    ensures room { IfOk result (λ targets. length targets ≡ count / 64 + 1) }
    ensures all { IfOk result (λ targets. HaveTargets rows.now count targets) }
{
    let mut targets = BitRow::empty(alloc, count.words())?;
    for s in 0..rows.len() {
        targets.union_with(&rows[s]);
    }
    Ok(targets)
}

/// A matrix of bits, a row for each source; contracts see it as the list of its rows.
pub struct Matrix {
    pub(crate) rows: Vec<BitRow>,
}

impl Drop for Matrix {
    fn drop(self) {
        let Matrix { rows: _ } = self;
    }
}

impl Model for Matrix {
    ghost use Rattle.std.specs.Prelude.{List, ℕ};

    ghost Value = { List (List ℕ) };

    ghost view = { λ m. m.rows.items };
}

impl Matrix {
    /// Returns the matrix of no pair.
    pub fn empty(alloc: Global, count: TypeCount) -> Result<Matrix, AllocError>
        ensures square { IfOk result (λ m. Square m count) }
        ensures none { IfOk result (λ m. (s t : ℕ) → has (row m s) t ≡ false) }
    {
        let rows = no_pairs(alloc, count)?;
        Ok(Matrix { rows })
    }

    /// Returns the matrix of the pairs of types that some rule with exactly the permissions `set` joins.
    pub fn compile(
        alloc: Global,
        rules: &[Kept],
        count: TypeCount,
        set: Perms,
    ) -> Result<Matrix, AllocError>
        requires fits { All (FitsRule count) rules.now }
        ensures { IfOk result (λ m. Grouped rules.now count set.0 m) }
    {
        let rows = rows_of(alloc, rules, count, set)?;
        Ok(Matrix { rows })
    }

    /// Adds the pairs of another matrix.
    pub fn add(&mut self, other: &Matrix, count: TypeCount)
        requires square { Square self.old count }
        requires other { Square other.now count }
        ensures square { Square self.new count }
        ensures added { (s t : ℕ) → s < count → has (row self.new s) t
            ≡ (has (row self.old s) t || has (row other.now s) t) }
    {
        add_rows(&mut self.rows, &other.rows, count);
    }

    /// Returns a matrix of the same pairs.
    pub fn copy(&self, alloc: Global, count: TypeCount) -> Result<Matrix, AllocError>
        requires { Square self.now count }
        ensures square { IfOk result (λ m. Square m count) }
        ensures same { IfOk result (λ m. (s t : ℕ) → s < count → has (row m s) t ≡ has (row self.now s) t) }
    {
        let mut copy = Matrix::empty(alloc, count)?;
        copy.add(self, count);
        Ok(copy)
    }

    /// Adds the pairs of another matrix, if permission `bit` is one of the set.
    pub fn add_for(&mut self, other: &Matrix, count: TypeCount, set: Perms, bit: u32)
        requires bit { bit < 8 }
        requires square { Square self.old count }
        requires other { Square other.now count }
        ensures square { Square self.new count }
        ensures added { (s t : ℕ) → s < count → has (row self.new s) t
            ≡ (has (row self.old s) t || (has_bit set.0 bit && has (row other.now s) t)) }
    {
        if has_perm(set, bit) {
            add_rows(&mut self.rows, &other.rows, count);
        }
    }

    /// Returns the matrix of the pairs that some permission of the set has.
    pub fn union_of(
        alloc: Global,
        matrices: &[Layer],
        count: TypeCount,
        set: Perms,
    ) -> Result<Matrix, AllocError>
        requires number { length matrices.now ≡ 7 }
        requires square { AllSquare matrices.now count }
        ensures { IfOk result (λ m. IsUnion matrices.now count set.0 7 m) }
    {
        let mut joined = Matrix::empty(alloc, count)?;
        for bit in 0..PERM_COUNT {
            matrices[bit as usize].add_to(&mut joined, count, set, bit);
        }
        Ok(joined)
    }

    /// Returns whether a rule joins two types that the matrix joins.
    pub fn meets(&self, rule: &Kept, count: TypeCount) -> bool
        requires square { Square self.now count }
        requires fits { FitsRule count rule.now }
        ensures none { result ≡ false → (s t : ℕ) → s < count
            → (has (row self.now s) t && joins s t rule.now) ≡ false }
        ensures some { IsTrue result → (s : ℕ) × (t : ℕ) × (s < count)
            × IsTrue (has (row self.now s) t && joins s t rule.now) }
    {
        rows_meet(&self.rows, rule, count)
    }

    /// Returns the unions of the rows of eight sources, from source 8 times `group` on.
    pub fn unions_of(
        &self,
        alloc: Global,
        count: TypeCount,
        group: usize,
    ) -> Result<Unions, AllocError>
        requires group { group < 8 * (count / 64 + 1) }
        requires square { Square self.now count }
        ensures wide { IfOk result (λ unions. AreWide (count / 64 + 1) unions) }
        ensures united { IfOk result (λ unions. Unites self.now (8 * group) 8 unions) }
    {
        unions_of(alloc, &self.rows, count, group)
    }

    /// Returns the targets of all sources.
    pub fn all_targets(&self, alloc: Global, count: TypeCount) -> Result<BitRow, AllocError>
        requires square { Square self.now count }
        ensures room { IfOk result (λ targets. length targets ≡ count / 64 + 1) }
        ensures all { IfOk result (λ targets. HaveTargets self.now count targets) }
    {
        all_targets(alloc, &self.rows, count)
    }

    /// Returns the sources that the matrix joins to themselves.
    pub fn own_sources(&self, alloc: Global, count: TypeCount) -> Result<BitRow, AllocError>
        requires square { Square self.now count }
        ensures room { IfOk result (λ own. length own ≡ count / 64 + 1) }
        ensures diagonal { IfOk result (λ own. IsDiagonal self.now count own) }
    {
        own_sources(alloc, &self.rows, count)
    }
}

/// A matrix of no pair for each permission.
fn empty_matrices(alloc: Global, count: TypeCount) -> Result<Vec<Layer>, AllocError>
    ensures { IfOk result (λ m. AllCompiled [] count 7 m.items) }
{
    let mut matrices = Vec::new(alloc);
    for _ in 0..PERM_COUNT {
        let matrix = Layer::none(alloc, count)?;
        matrices.push(matrix)?;
    }
    Ok(matrices)
}

/// Adds the pairs of a matrix to the matrix of each permission of the set.
fn join_group(
    alloc: Global,
    matrices: &mut Vec<Layer>,
    group: &Arc<Matrix, Global>,
    count: TypeCount,
    set: Perms,
) -> Result<(), AllocError>
    requires number { length matrices.old.items ≡ 7 }
    requires square { AllSquare matrices.old.items count }
    requires group { Square (arc_value group.now) count }
    ensures { IfOk result (λ done. Joined matrices.old.items matrices.new.items count set.0
        (λ s t. has (row (arc_value group.now) s) t)) }
{
    for bit in 0..PERM_COUNT {
        let matrix = &mut matrices[bit as usize];
        matrix.add_for(alloc, group, count, set, bit)?;
    }
    Ok(())
}

/// Adds what the rules with exactly the permissions `set` join, for each of these permissions.
fn add_set(
    alloc: Global,
    matrices: &mut Vec<Layer>,
    rules: &[Kept],
    sets: &BitRow,
    count: TypeCount,
    set: Perms,
) -> Result<(), AllocError>
    requires set { set.0 < 128 }
    requires sets { AreSetsOf rules.now sets.now }
    requires number { length matrices.old.items ≡ 7 }
    requires square { AllSquare matrices.old.items count }
    requires fits { All (FitsRule count) rules.now }
    ensures { IfOk result (λ done. Joined matrices.old.items matrices.new.items count set.0
        (joined_by rules.now set.0)) }
{
    if !sets.has(usize::from(set.0)) {
        return Ok(());
    }
    let group = Arc::new(alloc, Matrix::compile(alloc, rules, count, set)?)?;
    join_group(alloc, matrices, &group, count, set)
}

/// A matrix for each permission.
pub fn matrices_of(
    alloc: Global,
    rules: &[Kept],
    count: TypeCount,
) -> Result<Vec<Layer>, AllocError>
    requires fits { All (FitsRule count) rules.now }
    ensures { IfOk result (λ m. AllCompiled rules.now count 7 m.items) }
{
    let mut matrices = empty_matrices(alloc, count)?;
    let sets = sets_of(alloc, rules)?;
    for set in 1..SET_COUNT {
        add_set(alloc, &mut matrices, rules, &sets, count, Perms(set))?;
    }
    Ok(matrices)
}
