//! The ring of the newest records.

use circular_buffer::HeapCircularBuffer;
use sm_history::Record;
use std::alloc::{AllocError, Global};
use std::marker::Model;

/// The most records of a ring.
pub const MOST_RECORDS: usize = 1024;

/// The newest records, at most 1,024. Contracts see them as a list, oldest first.
#[derive(Drop)]
pub struct Ring {
    records: HeapCircularBuffer<Record>,
}

impl Model for Ring {
    ghost use Rattle.std.specs.Prelude.{◌≡◌, List};
    ghost use Rattle.sm_history.specs.declared.records.Record.{Record};
    ghost use Rattle.sm_audit.specs.declared.ring.TheConstants.{MOST_RECORDS};

    ghost Value = { List Record };

    ghost view = { λ r. r.records.items };

    ghost invariant = { λ r. r.records.capacity ≡ MOST_RECORDS };
}

impl Ring {
    ghost use Rattle.std.specs.Prelude.{◌≡◌, ◌≤◌, [], ◌∷◌, ◌++◌, length, IfOk};
    ghost use Rattle.sm_audit.specs.Rings.{newest_of};
    ghost use Rattle.sm_audit.specs.declared.ring.TheConstants.{MOST_RECORDS};

    /// Makes an empty ring with room for 1,024 records.
    pub fn new(alloc: Global) -> Result<Ring, AllocError>
        ensures { IfOk result (λ r. r ≡ []) }
    {
        let records = HeapCircularBuffer::with_capacity(alloc, MOST_RECORDS)?;
        Ok(Ring { records })
    }

    /// Appends a record, and drops the oldest one if the ring is full. Allocates nothing.
    pub fn push(&mut self, newest: Record)
        ensures { self.new ≡ newest_of (self.old ++ newest ∷ []) }
    {
        let _ = self.records.push_back(newest);
    }

    /// Moves records here in order, and leaves their list empty. Allocates nothing.
    #[inline(always)]
    pub fn push_all(&mut self, records: &mut Vec<Record>)
        ensures ring { self.new ≡ newest_of (self.old ++ records.old.items) }
        ensures empty { records.new.items ≡ [] }
    {
        let _held = self.records.len();
        if records.is_empty() {
            return;
        }
        self.push_each(records);
    }

    /// The same, out of line: few requests have records, and the others shouldn't pay for a record's locals.
    #[inline(never)]
    fn push_each(&mut self, records: &mut Vec<Record>)
        ensures ring { self.new ≡ newest_of (self.old ++ records.old.items) }
        ensures empty { records.new.items ≡ [] }
    {
        let _held = self.records.len();
        for newest in records.drain(..) {
            self.push(newest);
        }
    }

    /// Returns the records, oldest first, with shared texts.
    pub fn all(&self, alloc: Global) -> Result<Vec<Record>, AllocError>
        ensures all { IfOk result (λ v. v.items ≡ self.now) }
        ensures few { length self.now ≤ MOST_RECORDS }
    {
        let mut all = Vec::new(alloc);
        all.reserve(self.records.len())?;
        for denied in self.records.iter() {
            all.push(denied.clone()?)?;
        }
        Ok(all)
    }
}
