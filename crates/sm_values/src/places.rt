//! The size of a journal.

ghost use Rattle.std.specs.Prelude.{◌≡◌, ◌≤◌, IsSome, IfSome, ◌↔◌};

use crate::limits::{LEAST_PLACES, MOST_PLACES};
use std::marker::Model;

/// The number of slots of a journal: `LEAST_PLACES` to `MOST_PLACES`.
#[derive(Clone, Copy, PartialEq, Eq)]
pub struct Places {
    entries: u32,
}

impl Model for Places {
    ghost use Rattle.std.specs.Prelude.{ℕ, ◌≤◌};
    ghost use Rattle.sm_values.specs.declared.limits.TheConstants.{LEAST_PLACES, MOST_PLACES};

    ghost Value = { ℕ };

    ghost view = { λ p. p.entries };

    ghost invariant = { λ p. (LEAST_PLACES ≤ p.entries) × (p.entries ≤ MOST_PLACES) };

    ghost inverse = { λ n. record { entries = n } };
}

impl Places {
    /// Makes a size of this many slots, or `None` if the number isn't from `LEAST_PLACES` to `MOST_PLACES`.
    pub fn new(entries: u32) -> Option<Places>
        ensures range { IsSome result ↔ ((LEAST_PLACES ≤ entries) × (entries ≤ MOST_PLACES)) }
        ensures value { IfSome result (λ p. p ≡ entries) }
    {
        if LEAST_PLACES <= entries && entries <= MOST_PLACES {
            Some(Places { entries })
        } else {
            None
        }
    }

    /// Returns the number of slots, from `LEAST_PLACES` to `MOST_PLACES`.
    pub fn entries(self) -> u32
        ensures value { result ≡ self }
        ensures least { LEAST_PLACES ≤ self }
        ensures most { self ≤ MOST_PLACES }
    {
        self.entries
    }
}
