//! Why a contexts file was refused.

ghost use Rattle.std.specs.Prelude.{◌≡◌};
ghost use Rattle.sm_contexts.specs.declared.fault.ContextsFault.TheVariants.{Memory};

use std::alloc::{AllocError, AllocFailed};
use thiserror::Error;

/// The first fault of a contexts file. Lines are numbered from 1.
#[derive(Clone, Copy, Debug, Error, PartialEq, Eq)]
pub enum ContextsFault {
    /// The file has more than `MOST_TEXT_BYTES` bytes, or more than `MOST_ENTRY_LINES` entry lines.
    #[error("contexts: too large")]
    TooLarge,
    /// The line has only a key, or its second word is no context.
    #[error("contexts: bad line {0}")]
    BadLine(u32),
    /// Both lines have the same key and different contexts. The earlier one is the key's first.
    #[error("contexts: line {1} gives another context than line {0}")]
    Conflict(u32, u32),
    /// There is a second line for `*`.
    #[error("contexts: second default at line {0}")]
    TwoDefaults(u32),
    /// There is no line for `*`.
    #[error("contexts: no default")]
    NoDefault,
    /// An allocation failed.
    #[error("memory")]
    Memory,
}

impl From<AllocError> for ContextsFault {
    ghost from_gives = { λ _ e. e ≡ Memory };

    fn from(_e: AllocError) -> ContextsFault {
        ContextsFault::Memory
    }
}

impl<T: Drop> From<AllocFailed<T>> for ContextsFault {
    ghost from_gives = { λ _ e. e ≡ Memory };

    fn from(_e: AllocFailed<T>) -> ContextsFault {
        ContextsFault::Memory
    }
}
