//! The number of types, with its bound.

use std::marker::Model;

/// The number of types of a policy source, at most [`MOST_TYPES`](crate::MOST_TYPES).
///
/// Contracts see it as the number.
#[derive(Clone, Copy, PartialEq, Eq)]
pub struct TypeCount {
    count: usize,
}

impl Model for TypeCount {
    ghost use Rattle.std.specs.Prelude.{ℕ, ◌≤◌};
    ghost use Rattle.sm_types.specs.declared.TheConstants.{MOST_TYPES};

    ghost Value = { ℕ };

    ghost view = { λ c. c.count };

    ghost invariant = { λ c. c.count ≤ MOST_TYPES };

    ghost inverse = { λ n. record { count = n } };
}

ghost use Rattle.std.specs.Prelude.{◌≡◌, ◌≤◌, ◌+◌, ◌/◌};
ghost use Rattle.sm_types.specs.declared.TheConstants.{MOST_TYPES};

impl TypeCount {
    pub(crate) fn new(count: usize) -> TypeCount
        requires { count ≤ MOST_TYPES }
        ensures { result ≡ count }
    {
        TypeCount { count }
    }

    /// Returns the number.
    pub fn get(self) -> usize
        ensures number { result ≡ self }
        ensures few { result ≤ MOST_TYPES }
    {
        self.count
    }

    /// Returns the number of words of a row that has a bit for each type, and for one more.
    pub fn words(self) -> usize
        ensures number { result ≡ self / 64 + 1 }
        ensures few { result ≤ MOST_TYPES / 64 + 1 }
    {
        self.count / 64 + 1
    }
}
