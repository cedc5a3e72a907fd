//! Views of the manager.

ghost use Rattle.std.specs.Prelude.{◌≡◌, IfOk};
ghost use Rattle.sm_history.specs.BookOrder.{extended};
ghost use Rattle.sm_core.specs.Readying.{IsReady};

use crate::manager::Manager;
use crate::ready::Ready;
use crate::view::View;
use std::alloc::AllocError;

impl Manager {
    /// Returns a view of the present state.
    pub fn view(&self) -> Result<View, AllocError>
        ensures { IfOk result (λ v. v ≡ self.now.book) }
    {
        self.ledger.view()
    }

    /// Returns the view after this event is committed. What the event doesn't change is shared with the last view,
    /// which is of the present state.
    pub fn view_after(&self, ready: &Ready, last: &View) -> Result<View, AllocError>
        requires ready { IsReady self.now ready.now }
        requires last { last.now ≡ self.now.book }
        ensures { IfOk result (λ v. v ≡ extended self.now.book ready.now.entry) }
    {
        self.ledger
            .view_after(&ready.entry, self.draft.effects.as_slice(), last)
    }
}
