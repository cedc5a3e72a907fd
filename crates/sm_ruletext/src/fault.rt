//! Why a policy source was refused.

ghost use Rattle.std.specs.Prelude.{◌≡◌};
ghost use Rattle.sm_ruletext.specs.declared.fault.RuleTextFault.TheVariants.{Memory};

use std::alloc::AllocError;
use thiserror::Error;

/// The first fault of a policy source.
#[derive(Clone, Copy, Debug, Error, PartialEq, Eq)]
pub enum RuleTextFault {
    /// The source has more than `MOST_TEXT_BYTES` bytes.
    #[error("rules: too large")]
    TooLarge,
    /// There are more than `MOST_RULES` kept rules.
    #[error("rules: too many")]
    TooMany,
    /// The statement at this line is not in the grammar.
    #[error("rules: syntax at line {0}")]
    Syntax(u32),
    /// The statement at this line begins with a word that begins no statement.
    #[error("rules: unsupported statement at line {0}")]
    Unsupported(u32),
    /// An allocation failed.
    #[error("memory")]
    Memory,
}

impl From<AllocError> for RuleTextFault {
    ghost from_gives = { λ _ e. e ≡ Memory };

    fn from(_e: AllocError) -> RuleTextFault {
        RuleTextFault::Memory
    }
}
