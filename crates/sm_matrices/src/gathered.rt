//! The pairs of types that rules join, gathered rule by rule.

ghost use Rattle.std.specs.Prelude.{◌≡◌, ◌<◌, ◌≤◌, ◌*◌, ◌/◌, ◌+◌, ℕ, length, nat_eq, ◌&&◌, ◌||◌, All, IfOk, false};
ghost use Rattle.sm_bits.specs.Bits.{has, row};
ghost use Rattle.sm_rules.specs.Keeping.{joins, FitsRule};
ghost use Rattle.sm_matrices.specs.Matrices.{Square, Grouped, is_of_set};
ghost use Rattle.sm_matrices.specs.Uniting.{FitsGathered, in_gathered};

use crate::batch::{BATCH, Batch};
use crate::perm_sets::perm_set;
use sm_bits::{BitRow, empty_rows};
use sm_rules::Kept;
use sm_types::TypeCount;
use sm_values::Perms;
use std::alloc::{AllocError, Global};

/// Rows without a target.
pub fn no_pairs(alloc: Global, count: TypeCount) -> Result<Vec<BitRow>, AllocError>
    ensures square { IfOk result (λ m. Square m.items count) }
    ensures none { IfOk result (λ m. (s t : ℕ) → has (row m.items s) t ≡ false) }
{
    empty_rows(alloc, count.get(), count.words())
}

/// Adds the targets of a rule to the row of one source.
fn add_source(row: &mut BitRow, rule: &Kept, s: usize)
    requires sources { length rule.now.sources ≡ length row.old }
    requires targets { length rule.now.targets ≡ length row.old }
    requires source { s < 64 * length row.old }
    ensures room { length row.new ≡ length row.old }
    ensures added { (t : ℕ) → has row.new t ≡ (has row.old t || joins s t rule.now) }
{
    if !rule.sources.has(s) {
        return;
    }
    rule.targets.add_to(row);
    if rule.to_self {
        row.insert(s);
    }
}

/// Adds the targets of a rule to the rows of all its sources.
fn add_rule(rows: &mut Vec<BitRow>, rule: &Kept, count: TypeCount)
    requires square { Square rows.old.items count }
    requires fits { FitsRule count rule.now }
    ensures square { Square rows.new.items count }
    ensures added { (s t : ℕ) → s < count → has (row rows.new.items s) t
        ≡ (has (row rows.old.items s) t || joins s t rule.now) }
{
    let mut from = 0;
    while let Some(s) = rule.sources.next(from) {
        if s >= rows.len() {
            return;
        }
        let row = &mut rows[s];
        add_source(row, rule, s);
        from = s + 1;
    }
}

/// Adds a source to its own row, if it is one of these.
fn add_own_source(row: &mut BitRow, own: &BitRow, s: usize)
    requires own { length own.now ≡ length row.old }
    requires source { s < 64 * length row.old }
    ensures room { length row.new ≡ length row.old }
    ensures added { (t : ℕ) → has row.new t ≡ (has row.old t || (has own.now s && nat_eq s t)) }
{
    if own.has(s) {
        row.insert(s);
    }
}

/// Adds each of these sources to its own row.
fn add_own(rows: &mut Vec<BitRow>, own: &BitRow, count: TypeCount)
    requires square { Square rows.old.items count }
    requires own { length own.now ≡ count / 64 + 1 }
    ensures square { Square rows.new.items count }
    ensures added { (s t : ℕ) → s < count → has (row rows.new.items s) t
        ≡ (has (row rows.old.items s) t || (has own.now s && nat_eq s t)) }
{
    for s in 0..rows.len() {
        let row = &mut rows[s];
        add_own_source(row, own, s);
    }
}

/// Adds the sources of a rule that has `self`.
fn add_if_own(own: &mut BitRow, rule: &Kept)
    requires { length own.old ≡ length rule.now.sources }
    ensures room { length own.new ≡ length own.old }
    ensures added { (s : ℕ) → has own.new s
        ≡ (has own.old s || (rule.now.to_self && has rule.now.sources s)) }
{
    if rule.to_self {
        rule.sources.add_to(own);
    }
}

/// The pairs of types that some rules join.
#[derive(Drop)]
pub struct Gathered {
    /// For each source its targets, but for those of the batch and of `self`.
    rows: Vec<BitRow>,
    /// The sources that are targets of their own by `self`.
    own: BitRow,
    /// The last few rules.
    batch: Batch,
}

impl Gathered {
    /// Returns the pairs of no rule.
    pub fn empty(alloc: Global, count: TypeCount) -> Result<Gathered, AllocError>
        ensures fits { IfOk result (λ gathered. FitsGathered count gathered) }
        ensures none { IfOk result (λ gathered. (s t : ℕ) → in_gathered gathered s t ≡ false) }
    {
        let rows = no_pairs(alloc, count)?;
        let own = BitRow::empty(alloc, count.words())?;
        let batch = Batch::empty(alloc, count)?;
        Ok(Gathered { rows, own, batch })
    }

    /// Makes room for one more rule in the batch.
    fn make_room(&mut self, alloc: Global, count: TypeCount) -> Result<(), AllocError>
        requires fits { FitsGathered count self.old }
        ensures fits { IfOk result (λ done. FitsGathered count self.new) }
        ensures room { IfOk result (λ done. length self.new.batch.unions ≤ 128) }
        ensures same { IfOk result (λ done. (s t : ℕ) → s < count
            → in_gathered self.new s t ≡ in_gathered self.old s t) }
    {
        if !self.batch.is_full() {
            return Ok(());
        }
        self.batch.add_to(&mut self.rows, count);
        self.batch = Batch::empty(alloc, count)?;
        Ok(())
    }

    /// Adds what a rule joins to the batch, and to the sources with `self`.
    fn add_to_batch(
        &mut self,
        alloc: Global,
        rule: &Kept,
        count: TypeCount,
    ) -> Result<(), AllocError>
        requires fits { FitsGathered count self.old }
        requires rule { FitsRule count rule.now }
        ensures fits { IfOk result (λ done. FitsGathered count self.new) }
        ensures added { IfOk result (λ done. (s t : ℕ) → s < count
            → in_gathered self.new s t ≡ (in_gathered self.old s t || joins s t rule.now)) }
    {
        self.make_room(alloc, count)?;
        self.batch.add(alloc, rule, count)?;
        add_if_own(&mut self.own, rule);
        Ok(())
    }

    /// Adds what a rule joins: with other rules, or by itself if it has so few sources that its
    /// part in the unions would cost more. The pairs are the same.
    fn add(&mut self, alloc: Global, rule: &Kept, count: TypeCount) -> Result<(), AllocError>
        requires fits { FitsGathered count self.old }
        requires rule { FitsRule count rule.now }
        ensures fits { IfOk result (λ done. FitsGathered count self.new) }
        ensures added { IfOk result (λ done. (s t : ℕ) → s < count
            → in_gathered self.new s t ≡ (in_gathered self.old s t || joins s t rule.now)) }
    {
        // With few types, a rule has few sources.
        let many = (count.get() / BATCH).max(BATCH);
        if rule.sources.weight() >= many {
            return self.add_to_batch(alloc, rule, count);
        }
        add_rule(&mut self.rows, rule, count);
        Ok(())
    }

    /// Adds what a rule joins, if it has exactly the permissions `set`.
    fn add_of_set(
        &mut self,
        alloc: Global,
        rule: &Kept,
        count: TypeCount,
        set: Perms,
    ) -> Result<(), AllocError>
        requires fits { FitsGathered count self.old }
        requires rule { FitsRule count rule.now }
        ensures fits { IfOk result (λ done. FitsGathered count self.new) }
        ensures added { IfOk result (λ done. (s t : ℕ) → s < count → in_gathered self.new s t
            ≡ (in_gathered self.old s t || (joins s t rule.now && is_of_set set.0 rule.now))) }
    {
        if perm_set(rule) != set {
            return Ok(());
        }
        self.add(alloc, rule, count)
    }

    /// Returns the pairs as rows.
    pub fn into_rows(self, count: TypeCount) -> Vec<BitRow>
        requires fits { FitsGathered count self }
        ensures square { Square result.items count }
        ensures same { (s t : ℕ) → s < count → has (row result.items s) t ≡ in_gathered self s t }
    {
        let Gathered {
            mut rows,
            own,
            batch,
        } = self;
        batch.add_to(&mut rows, count);
        add_own(&mut rows, &own, count);
        rows
    }
}

/// For each source, the targets to which some rule with exactly the permissions `set` joins it.
pub fn rows_of(
    alloc: Global,
    rules: &[Kept],
    count: TypeCount,
    set: Perms,
) -> Result<Vec<BitRow>, AllocError>
    requires fits { All (FitsRule count) rules.now }
    ensures { IfOk result (λ m. Grouped rules.now count set.0 m.items) }
{
    let mut gathered = Gathered::empty(alloc, count)?;
    for rule in rules {
        gathered.add_of_set(alloc, rule, count, set)?;
    }
    Ok(gathered.into_rows(count))
}
