//! Why a field or a line was not read.

ghost use Rattle.std.specs.Prelude.{◌≡◌};
ghost use Rattle.sm_wire.specs.declared.read_error.ReadError.TheVariants.{Memory};

use std::alloc::AllocError;
use thiserror::Error;

/// Why a field or a line was not read.
#[derive(Clone, Copy, Debug, Error, PartialEq, Eq)]
pub enum ReadError {
    /// It isn't in the grammar of request lines.
    #[error("malformed")]
    Malformed,
    /// An allocation failed.
    #[error("out of memory")]
    Memory,
}

impl From<AllocError> for ReadError {
    ghost from_gives = { λ _ e. e ≡ Memory };

    fn from(_e: AllocError) -> ReadError {
        ReadError::Memory
    }
}
