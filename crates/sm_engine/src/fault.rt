//! Why an engine stopped before the end of its input.

ghost use Rattle.std.specs.Prelude.{◌≡◌};
ghost use Rattle.sm_engine.specs.declared.fault.Fault.TheVariants.{Memory};

use std::alloc::AllocError;
use thiserror::Error;

/// Why an engine stopped before the end of its input.
#[derive(Clone, Copy, Debug, Error, PartialEq, Eq)]
pub enum Fault {
    /// A read failed.
    #[error("a read failed")]
    ReadFault,
    /// A write failed, or took no byte.
    #[error("a write failed")]
    WriteFault,
    /// The limit on the number of reads was reached before the end of the input.
    #[error("too many reads")]
    TooManyReads,
    /// A line has more than 4,096 bytes, or a `reload` line announces a file of more than 4,194,304.
    #[error("a line is too long")]
    LineTooLong,
    /// An allocation failed in the engine, or in the machine for an answer; then the item may have been carried out.
    #[error("no memory")]
    Memory,
}

impl From<AllocError> for Fault {
    ghost from_gives = { λ _ e. e ≡ Memory };

    fn from(_e: AllocError) -> Fault {
        Fault::Memory
    }
}
