//! Segments that are closed.

ghost use Rattle.std.specs.Prelude.{◌≡◌, ◌≢◌, ◌↔◌, [], IfOk, IsTrue};
ghost use Rattle.sm_history.specs.Segments.{rows_of, sealed};
ghost use Rattle.sm_core.specs.SealReady.{IsReadySeal};

use crate::journal::Journal;
use crate::ledger::Ledger;
use crate::listing::tables_of;
use crate::sealing::ReadySeal;
use crate::view::View;
use sm_history::{Rows, Segment};
use std::alloc::AllocError;
use std::mem;

impl Ledger {
    /// Returns whether the open segment has no changes.
    pub fn is_unchanged(&self) -> bool
        ensures { IsTrue result ↔ (self.now.book.history.entries ≡ []) }
    {
        self.journal.entry_count() == 0
    }

    /// Makes the next segment, and the counts that it begins with.
    pub fn next_segment(&self) -> Result<ReadySeal, AllocError>
        requires { self.now.book.history.entries ≢ [] }
        ensures { IfOk result (λ r. IsReadySeal self.now.book r) }
    {
        let turns = self.turns.sealed(self.alloc, self.state.next, &self.state.principals.clients)?;
        let opening = self.rows()?;
        let journal = Journal::begin(self.alloc, self.journal.number() + 1, opening)?;
        Ok(ReadySeal { journal, turns })
    }

    /// Returns the rows that the changes so far left.
    fn rows(&self) -> Result<Rows, AllocError>
        ensures { IfOk result (λ r. r ≡ rows_of self.now.book.history) }
    {
        let tables = tables_of(self.alloc, &self.state)?;
        let turns = self.turns.rows(self.alloc, &self.state.principals.clients)?;
        let length = self.journal.history_length();
        Ok(Rows::new(tables, turns, length))
    }

    /// Closes the open segment. Allocates nothing.
    pub fn close(&mut self, ready: ReadySeal) -> Segment
        requires { IsReadySeal self.old.book ready }
        ensures segment { result ≡ self.old.book.history }
        ensures places { self.new.book.places ≡ self.old.book.places }
        ensures history { self.new.book.history ≡ sealed self.old.book.history }
    {
        let ReadySeal { journal, turns } = ready;
        self.turns = turns;
        let closed = mem::replace(&mut self.journal, journal);
        closed.closed()
    }

    /// Returns the view of the present state.
    pub fn view(&self) -> Result<View, AllocError>
        ensures { IfOk result (λ v. v ≡ self.now.book) }
    {
        View::of(
            self.alloc,
            self.places,
            &self.journal,
            &self.state,
            &self.turns,
        )
    }
}
