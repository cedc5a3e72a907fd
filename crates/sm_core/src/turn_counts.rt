//! The turns of actors in a view.

ghost use Rattle.std.specs.Prelude.{◌≡◌, ◌∷◌, IfOk};
ghost use Rattle.sm_history.specs.declared.by.By.{By};
ghost use Rattle.sm_history.specs.Openings.{is_same};
ghost use Rattle.sm_core.specs.Counting.{change_count};
ghost use Rattle.sm_core.specs.Viewing.{counted_by, counted_with, listed_turns, rows_of_others};

use crate::turns::Turns;
use sm_history::{By, TurnRow};
use std::alloc::{AllocError, Global};
use std::sync::Arc;

/// The number of rows at which the table is copied: more than one for each of the 64 clients that can be live at once.
const MOST_SINCE: usize = 80;

/// The number of changes of each actor: a table that views share, and a row for each actor that made a change since the
/// table was copied. A row has the number of all changes of its actor.
pub struct TurnCounts {
    pub base: Arc<Turns>,
    pub since: Vec<TurnRow>,
}

impl Drop for TurnCounts {
    fn drop(self) {
        let TurnCounts { base: _, since: _ } = self;
    }
}

/// Returns whether they are one actor.
#[inline(always)]
pub fn is_same(one: By, other: By) -> bool
    ensures { result ≡ is_same one other }
{
    match (one, other) {
        (By::Manager, By::Manager) => true,
        (By::Client(a), By::Client(b)) => a.0 == b.0,
        (By::Admin(a), By::Admin(b)) => a.0 == b.0,
        _ => false,
    }
}

/// The number in an actor's row, if there is one.
fn listed_turns(by: By, since: &[TurnRow]) -> Option<u64>
    ensures { result ≡ listed_turns since.now by }
{
    since
        .iter()
        .find(|row| is_same(by, row.by))
        .map(|row| row.turns)
}

/// Copies the rows, with this row in place of the one that its actor had.
fn with_row(alloc: Global, since: &[TurnRow], row: TurnRow) -> Result<Vec<TurnRow>, AllocError>
    ensures { IfOk result (λ v. v.items ≡ row ∷ rows_of_others row.by since.now) }
{
    let mut list = Vec::with_capacity(alloc, since.len() + 1)?;
    list.push_reserved(row);
    for other in since {
        if !is_same(row.by, other.by) {
            list.push_reserved(*other);
        }
    }
    Ok(list)
}

impl TurnCounts {
    /// Makes the counts of a table.
    pub fn of(alloc: Global, turns: &Turns) -> Result<TurnCounts, AllocError>
        ensures { IfOk result (λ t. (b : By) → counted_by t b ≡ change_count turns.now b) }
    {
        let base = Arc::new(alloc, turns.copy()?)?;
        let since = Vec::new(alloc);
        Ok(TurnCounts { base, since })
    }

    /// Returns the counts with this row among them. `turns` is a table of the same counts.
    ///
    /// # Errors
    ///
    /// An error where an allocation failed.
    pub fn with(&self, alloc: Global, turns: &Turns, row: TurnRow) -> Result<TurnCounts, AllocError>
        requires { (b : By) → counted_with row self.now b ≡ change_count turns.now b }
        ensures { IfOk result (λ t. (b : By) → counted_by t b ≡ change_count turns.now b) }
    {
        if self.since.len() >= MOST_SINCE {
            return TurnCounts::of(alloc, turns);
        }
        let base = Arc::try_clone(&self.base)?;
        let since = with_row(alloc, &self.since, row)?;
        Ok(TurnCounts { base, since })
    }

    /// Returns the number of changes of an actor.
    pub fn of_actor(&self, by: By) -> u64
        ensures { result ≡ counted_by self.now by }
    {
        listed_turns(by, &self.since).unwrap_or_else(|| self.base.of(by))
    }
}
