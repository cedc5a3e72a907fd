//! Machines, which answer items.

ghost use Rattle.std.specs.Prelude.{◌≡◌, Bool, ℕ, List, OnOk, OnErr};
ghost use Rattle.sm_wire.specs.declared.item.Item.{Item};
ghost use Rattle.sm_engine.specs.Running.{Answered, GaveUp};

use sm_wire::Item;
use std::alloc::AllocError;

/// A state that answers items with reply lines and audit lines.
pub trait Machine {
    // The item may be answered so: its reply lines, its audit lines, and the state after it.
    ghost answers: { Self → Item → List ℕ → List ℕ → Self → Type 0 };

    // Nothing more is read in this state.
    ghost over: { Self → Bool };

    // Fewer bytes of answers may be held back until the items of one read are answered; with 0 none are.
    ghost hold_limit: { ℕ };

    /// Answers an item: appends its reply lines and its audit lines.
    ///
    /// # Errors
    ///
    /// An error if an allocation fails; the item may then have been carried out.
    fn answer(
        &mut self,
        item: Item,
        replies: &mut Vec<u8>,
        audit: &mut Vec<u8>,
    ) -> Result<(), AllocError>
        ensures ok { OnOk result (Answered answers self.old item replies.old.items replies.new.items
            audit.old.items audit.new.items self.new) }
        ensures err { OnErr result (GaveUp answers self.old item self.new) };

    /// Returns whether nothing more is to be read. The engine asks after the items of each read.
    fn is_over(&self) -> bool
        ensures { result ≡ over self.now };

    /// Returns the number of bytes at which answers are written. Fewer are held back until the items of one read are
    /// answered; with 0 none are.
    fn hold_limit(&self) -> usize
        ensures { result ≡ hold_limit };

    /// Called when the replies to all items so far are written.
    fn written(&mut self)
        ensures { self.new ≡ self.old };
}
