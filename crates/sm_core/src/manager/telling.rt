//! The state of a manager.

ghost use Rattle.std.specs.Prelude.{◌≡◌, IfOk};
ghost use Rattle.sm_status.specs.States.{state_of};

use crate::manager::Manager;
use sm_status::Status;
use std::alloc::AllocError;

impl Manager {
    /// Returns the state that the changes so far left. Returns an error if an allocation fails.
    pub fn status(&self) -> Result<Status, AllocError>
        ensures { IfOk result (λ s. s ≡ state_of self.now.book.history) }
    {
        self.ledger.status()
    }
}
