//! Why the declarations of a policy source, or a set of types, were refused.

ghost use Rattle.std.specs.Prelude.{◌≡◌};
ghost use Rattle.sm_types.specs.declared.fault.TypesFault.TheVariants.{Memory};

use std::alloc::AllocError;
use thiserror::Error;

/// The first fault of the declarations, or of a set.
#[derive(Clone, Copy, Debug, Error, PartialEq, Eq)]
pub enum TypesFault {
    /// The name that the statement at this line declares is declared already.
    #[error("rules: declared twice at line {0}")]
    Twice(u32),
    /// The statement at this line has a name that isn't declared so.
    #[error("rules: unknown name at line {0}")]
    Unknown(u32),
    /// There are more than [`MOST_TYPES`](crate::MOST_TYPES) types or
    /// [`MOST_ATTRIBUTES`](crate::MOST_ATTRIBUTES) attributes.
    #[error("rules: too many")]
    TooMany,
    /// An allocation failed.
    #[error("memory")]
    Memory,
}

impl From<AllocError> for TypesFault {
    ghost from_gives = { λ _ e. e ≡ Memory };

    fn from(_e: AllocError) -> TypesFault {
        TypesFault::Memory
    }
}
