//! Why the rules of a policy source were refused.

ghost use Rattle.std.specs.Prelude.{◌≡◌};
ghost use Rattle.sm_rules.specs.declared.fault.RulesFault.TheVariants.{Memory};

use std::alloc::AllocError;
use thiserror::Error;

/// The first fault of the rules.
#[derive(Clone, Copy, Debug, Error, PartialEq, Eq)]
pub enum RulesFault {
    /// The source or the target of the rule at this line has a name that isn't declared.
    #[error("rules: unknown name at line {0}")]
    Unknown(u32),
    /// The rule at this line has a permission that none of its classes has, and its class set
    /// has neither `*` nor `~` nor the name of another class.
    #[error("rules: unknown permission at line {0}")]
    UnknownPermission(u32),
    /// An allocation failed.
    #[error("memory")]
    Memory,
}

impl From<AllocError> for RulesFault {
    ghost from_gives = { λ _ e. e ≡ Memory };

    fn from(_e: AllocError) -> RulesFault {
        RulesFault::Memory
    }
}
