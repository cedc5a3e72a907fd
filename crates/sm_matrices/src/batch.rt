//! Up to eight rules whose targets go into the rows of their sources together.

ghost use Rattle.std.specs.Prelude.{◌≡◌, ◌<◌, ◌≤◌, ◌+◌, ◌*◌, ◌/◌, ◌^◌, ℕ, length, ◌&&◌, ◌||◌, if◌then◌else◌, IfOk, false};
ghost use Rattle.std.specs.Prelude.{nat_lt, slice_index};
ghost use Rattle.sm_bits.specs.Bits.{has, row};
ghost use Rattle.sm_rules.specs.Keeping.{FitsRule};
ghost use Rattle.sm_matrices.specs.Matrices.{Square};
ghost use Rattle.sm_matrices.specs.Uniting.{FitsBatch, in_batch};

use crate::unions::Unions;
use sm_bits::{BitRow, SharedSet};
use sm_rules::Kept;
use sm_types::TypeCount;
use std::alloc::{AllocError, Global};

/// The most rules of a batch.
pub const BATCH: usize = 8;

/// The most unions at which a batch still takes a rule, which doubles them: those of seven rules.
const MOST_UNIONS: usize = 128;

/// Returns the index of a union for a source when a rule doubles the unions.
fn moved(place: usize, joined: bool, weight: usize) -> usize
    requires place { place < weight }
    requires weight { weight ≤ 128 }
    ensures { result ≡ place + (if joined then weight else 0) }
{
    if joined { place + weight } else { place }
}

/// Moves the indexes of the sources of a rule to the unions that have its targets. It looks at each type: few aren't
/// sources.
fn move_most(places: &mut [usize], sources: &SharedSet, weight: usize)
    requires sources { length places.old ≤ 64 * length sources.now }
    requires places { (s : ℕ) → s < length places.old → slice_index places.old s < weight }
    requires weight { weight ≤ 128 }
    ensures { (s : ℕ) → s < length places.old → slice_index places.new s
        ≡ slice_index places.old s + (if has sources.now s then weight else 0) }
{
    for s in 0..places.len() {
        places[s] = moved(places[s], sources.has(s), weight);
    }
}

/// As `move_most`, from source to source: few types are.
fn move_few(places: &mut [usize], sources: &SharedSet, weight: usize)
    requires sources { length places.old ≤ 64 * length sources.now }
    requires few { length sources.now < 2 ^ 32 }
    requires places { (s : ℕ) → s < length places.old → slice_index places.old s < weight }
    requires weight { weight ≤ 128 }
    ensures { (s : ℕ) → s < length places.old → slice_index places.new s
        ≡ slice_index places.old s + (if has sources.now s then weight else 0) }
{
    let mut from = 0;
    while let Some(s) = sources.next(from) {
        if s >= places.len() {
            return;
        }
        places[s] += weight;
        from = s + 1;
    }
}

/// Moves the indexes of the sources of a rule to the unions that have its targets, in the faster way.
fn move_places(places: &mut [usize], sources: &SharedSet, weight: usize)
    requires sources { length places.old ≤ 64 * length sources.now }
    requires few { length sources.now < 2 ^ 32 }
    requires places { (s : ℕ) → s < length places.old → slice_index places.old s < weight }
    requires weight { weight ≤ 128 }
    ensures { (s : ℕ) → s < length places.old → slice_index places.new s
        ≡ slice_index places.old s + (if has sources.now s then weight else 0) }
{
    if sources.weight() > places.len() / 8 {
        move_most(places, sources, weight);
    } else {
        move_few(places, sources, weight);
    }
}

/// Returns the row of a set.
fn row_of(alloc: Global, set: &SharedSet, words: usize) -> Result<BitRow, AllocError>
    requires { length set.now ≡ words }
    ensures room { IfOk result (λ row. length row ≡ words) }
    ensures same { IfOk result (λ row. (t : ℕ) → has row t ≡ has set.now t) }
{
    let mut row = BitRow::empty(alloc, words)?;
    set.add_to(&mut row);
    Ok(row)
}

/// Rules whose targets are not yet in the rows of their sources.
///
/// A row takes one union for all rules of the batch, in place of the targets of each.
#[derive(Drop)]
pub struct Batch {
    /// The unions of the targets of these rules.
    unions: Unions,
    /// For each source, the index of the union for those rules that have it.
    places: Vec<usize>,
}

impl Batch {
    /// Returns the batch of no rule.
    pub fn empty(alloc: Global, count: TypeCount) -> Result<Batch, AllocError>
        ensures fits { IfOk result (λ batch. FitsBatch count batch) }
        ensures room { IfOk result (λ batch. length batch.unions ≡ 1) }
        ensures none { IfOk result (λ batch. (s t : ℕ) → in_batch batch s t ≡ false) }
    {
        let unions = Unions::none(alloc, count.words())?;
        let places = vec![in alloc; 0usize; count.get()]?;
        Ok(Batch { unions, places })
    }

    /// Returns whether the batch has as many rules as it may.
    pub fn is_full(&self) -> bool
        ensures { result ≡ nat_lt 128 (length self.now.unions) }
    {
        self.unions.len() > MOST_UNIONS
    }

    /// Adds the sources and targets of a rule, but for `self`.
    pub fn add(&mut self, alloc: Global, rule: &Kept, count: TypeCount) -> Result<(), AllocError>
        requires room { length self.old.unions ≤ 128 }
        requires fits { FitsBatch count self.old }
        requires rule { FitsRule count rule.now }
        ensures fits { IfOk result (λ done. FitsBatch count self.new) }
        ensures added { IfOk result (λ done. (s t : ℕ) → s < count → in_batch self.new s t
            ≡ (in_batch self.old s t || (has rule.now.sources s && has rule.now.targets t))) }
    {
        let weight = self.unions.len();
        let targets = row_of(alloc, &rule.targets, count.words())?;
        self.unions.add(alloc, &targets, count.words())?;
        move_places(&mut self.places, &rule.sources, weight);
        Ok(())
    }

    /// Adds to the row of a source what the batch has for it.
    pub fn add_to_row(&self, row: &mut BitRow, count: TypeCount, s: usize)
        requires fits { FitsBatch count self.now }
        requires source { s < count }
        requires row { length row.old ≡ count / 64 + 1 }
        ensures room { length row.new ≡ count / 64 + 1 }
        ensures added { (t : ℕ) → has row.new t ≡ (has row.old t || in_batch self.now s t) }
    {
        let place = self.places[s];
        // The first union is empty.
        if place != 0 {
            self.unions.add_to(place, row, count.words());
        }
    }

    /// Adds to the rows what the batch has.
    pub fn add_to(&self, rows: &mut Vec<BitRow>, count: TypeCount)
        requires fits { FitsBatch count self.now }
        requires square { Square rows.old.items count }
        ensures square { Square rows.new.items count }
        ensures added { (s t : ℕ) → s < count → has (row rows.new.items s) t
            ≡ (has (row rows.old.items s) t || in_batch self.now s t) }
    {
        for s in 0..rows.len() {
            let row = &mut rows[s];
            self.add_to_row(row, count, s);
        }
    }
}
