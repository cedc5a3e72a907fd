//! Seals.

ghost use Rattle.std.specs.Prelude.{◌≡◌, ◌⊎◌, [], IfOk, IfErr, MatchResult};
ghost use Rattle.sm_history.specs.declared.refusal.Refusal.TheVariants.{Memory, Empty as IsEmpty};
ghost use Rattle.sm_history.specs.Segments.{sealed};
ghost use Rattle.sm_history.specs.BookOrder.{sealed_book};
ghost use Rattle.sm_history.specs.Steps.{ClosesSegment, StaysOpen};
ghost use Rattle.sm_core.specs.Managed.{IsSame};
ghost use Rattle.sm_core.specs.SealReady.{IsReadySeal};

use crate::manager::Manager;
use crate::sealing::ReadySeal;
use crate::view::View;
use sm_history::{Refusal, Segment};
use std::alloc::AllocError;

impl Manager {
    /// Closes the open segment, and returns it. A seal is no event, and has no turn.
    ///
    /// # Errors
    ///
    /// `Empty` if the segment has no changes, `Memory` if an allocation fails.
    pub fn seal(&mut self) -> Result<Segment, Refusal>
        ensures seals { MatchResult result (λ s. ClosesSegment self.old.book s self.new.book)
            (λ r. StaysOpen self.old.book r self.new.book) }
        ensures ring { self.new.ring ≡ self.old.ring }
    {
        let ready = self.ready_seal()?;
        Ok(self.commit_seal(ready))
    }

    /// Makes all allocations of a seal.
    ///
    /// # Errors
    ///
    /// As `seal`.
    pub fn ready_seal(&mut self) -> Result<ReadySeal, Refusal>
        ensures same { IsSame self.old.book self.new.book }
        ensures ring { self.new.ring ≡ self.old.ring }
        ensures ready { IfOk result (λ r. IsReadySeal self.new.book r) }
        ensures refused { IfErr result (λ r. (r ≡ Memory) ⊎ ((r ≡ IsEmpty) × (self.old.book.history.entries ≡ []))) }
    {
        if self.ledger.is_unchanged() {
            return Err(Refusal::Empty);
        }
        self.ledger.next_segment().map_err(|_| Refusal::Memory)
    }

    /// Closes the open segment. Allocates nothing.
    pub fn commit_seal(&mut self, ready: ReadySeal) -> Segment
        requires { IsReadySeal self.old.book ready }
        ensures segment { result ≡ self.old.book.history }
        ensures places { self.new.book.places ≡ self.old.book.places }
        ensures history { self.new.book.history ≡ sealed self.old.book.history }
        ensures ring { self.new.ring ≡ self.old.ring }
    {
        self.ledger.close(ready)
    }

    /// Returns the view after the segment is closed. What a seal doesn't change is shared with the last view, which is
    /// of the present state.
    pub fn view_sealed(&self, ready: &ReadySeal, last: &View) -> Result<View, AllocError>
        requires ready { IsReadySeal self.now.book ready.now }
        requires last { last.now ≡ self.now.book }
        ensures { IfOk result (λ v. v ≡ sealed_book self.now.book) }
    {
        last.after_seal(&ready.journal, &ready.turns)
    }
}
