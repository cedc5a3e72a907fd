//! The audit records of a manager.

ghost use Rattle.std.specs.Prelude.{◌≡◌, ◌≤◌, length, IfOk};
ghost use Rattle.sm_audit.specs.declared.ring.TheConstants.{MOST_RECORDS};
ghost use Rattle.sm_history.specs.Records.{records};

use crate::draft::Draft;
use crate::manager::Manager;
use crate::refusing::is_memory;
use sm_history::{By, Event, Record};
use std::alloc::AllocError;

impl Manager {
    /// Returns the newest records, at most 1,024, oldest first. Returns an error if an allocation fails.
    pub fn records(&self) -> Result<Vec<Record>, AllocError>
        ensures all { IfOk result (λ v. v.items ≡ self.now.ring) }
        ensures few { length self.now.ring ≤ MOST_RECORDS }
    {
        self.ring.all(self.alloc)
    }

    /// Returns the records that a `step` of this event would add to the ring now. Returns an error if an allocation
    /// fails.
    pub fn step_records(&self, by: By, turn: u64, event: &Event) -> Result<Vec<Record>, AllocError>
        ensures { IfOk result (λ v. v.items ≡ records self.now.book.places self.now.book.history by turn event.now) }
    {
        let mut draft = Draft::new(self.alloc);
        match self.ledger.judge(by, turn, event, &mut draft) {
            Ok(_) => {
                draft.records.append(&mut draft.told)?;
                Ok(draft.records)
            }
            Err(reply) => {
                if is_memory(&reply) {
                    return Err(AllocError);
                }
                Ok(draft.records)
            }
        }
    }
}
