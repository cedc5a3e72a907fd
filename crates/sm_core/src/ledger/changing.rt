//! Changes that were judged.

ghost use Rattle.std.specs.Prelude.{◌≡◌, ◌≤◌, ◌<◌, ◌+◌, true, [], IfOk, OnOk};
ghost use Rattle.sm_history.specs.BookOrder.{extended};
ghost use Rattle.sm_history.specs.Histories.{entered};
ghost use Rattle.sm_history.specs.declared.limits.TheConstants.{GREATEST};
ghost use Rattle.sm_core.specs.Counting.{can_count};
ghost use Rattle.sm_core.specs.Managed.{IsSame};
ghost use Rattle.sm_core.specs.Readying.{MayChange};
ghost use Rattle.sm_core.specs.Stands.{HasRoom, connects_in, sets_in};

use crate::ledger::Ledger;
use crate::view::View;
use sm_history::{By, Effect, Entry};
use std::alloc::AllocError;

impl Ledger {
    /// Makes room for a change of an actor with these effects.
    ///
    /// # Errors
    ///
    /// `AllocError` if an allocation failed.
    #[inline(always)]
    pub fn reserve(&mut self, by: By, effects: &[Effect]) -> Result<(), AllocError>
        requires { (self.old.state.principals.version + sets_in effects.now < GREATEST)
            × (self.old.state.next + connects_in effects.now < GREATEST) }
        ensures same { IsSame self.old.book self.new.book }
        ensures entries { OnOk result (1 ≤ self.new.entries) }
        ensures turns { OnOk result (can_count self.new.turns by ≡ true) }
        ensures room { OnOk result (HasRoom effects.now self.new.state) }
    {
        self.journal.reserve()?;
        self.turns.reserve(by)?;
        self.state.reserve(effects)
    }

    /// Makes a change, for which there is room, and leaves the list of its effects empty. `near` is most likely the
    /// number of an object that is released, or the digest of a name that is added. Allocates nothing.
    #[inline(always)]
    pub fn change(&mut self, entry: Entry, effects: &mut Vec<Effect>, near: u32)
        requires { MayChange self.old entry effects.old.items }
        ensures places { self.new.book.places ≡ self.old.book.places }
        ensures history { self.new.book.history ≡ entered entry self.old.book.history }
        ensures empty { effects.new.items ≡ [] }
    {
        self.turns.count(entry.by);
        self.journal.push(entry);
        self.state.apply_all(effects, near);
    }

    /// Returns the view after a change with these effects. What they don't change is shared with the last view, which is
    /// of the present state.
    pub fn view_after(
        &self,
        entry: &Entry,
        effects: &[Effect],
        last: &View,
    ) -> Result<View, AllocError>
        requires change { MayChange self.now entry.now effects.now }
        requires last { last.now ≡ self.now.book }
        ensures { IfOk result (λ v. v ≡ extended self.now.book entry.now) }
    {
        last.after(&self.journal, &self.turns, entry, effects)
    }
}
