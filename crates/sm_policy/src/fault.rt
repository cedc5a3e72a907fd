//! Why a policy was refused.

ghost use Rattle.std.specs.Prelude.{◌≡◌};
ghost use Rattle.sm_policy.specs.Preparing.{of_access, of_contexts, of_text, of_types};
ghost use Rattle.sm_policy.specs.declared.fault.PolicyFault.TheVariants.{Memory};

use crate::Violation;
use sm_contexts::ContextsFault;
use sm_rules::RulesFault;
use sm_ruletext::RuleTextFault;
use sm_types::TypesFault;
use std::alloc::{AllocError, AllocFailed};
use thiserror::Error;

/// The first refusal of a policy. A failed allocation is `Memory`, wherever it happened.
#[derive(Debug, Drop, Error)]
pub enum PolicyFault {
    /// The policy source isn't in the grammar, or is too large.
    #[error(transparent)]
    Rules(RuleTextFault),
    /// A declaration is refused.
    #[error(transparent)]
    Types(TypesFault),
    /// A rule is refused.
    #[error(transparent)]
    Access(RulesFault),
    /// The contexts file is refused.
    #[error(transparent)]
    Contexts(ContextsFault),
    /// The context on this line of the contexts file has a type that the policy source doesn't declare.
    #[error("contexts: undeclared type at line {0}")]
    UndeclaredLabel(u32),
    /// An allow rule allows what a neverallow rule forbids.
    #[error(transparent)]
    Neverallow(Violation),
    /// An allocation failed.
    #[error("memory")]
    Memory,
}

impl From<RuleTextFault> for PolicyFault {
    ghost from_gives = { λ e fault. fault ≡ of_text e };

    fn from(e: RuleTextFault) -> PolicyFault {
        match e {
            RuleTextFault::Memory => PolicyFault::Memory,
            _ => PolicyFault::Rules(e),
        }
    }
}

impl From<TypesFault> for PolicyFault {
    ghost from_gives = { λ e fault. fault ≡ of_types e };

    fn from(e: TypesFault) -> PolicyFault {
        match e {
            TypesFault::Memory => PolicyFault::Memory,
            _ => PolicyFault::Types(e),
        }
    }
}

impl From<RulesFault> for PolicyFault {
    ghost from_gives = { λ e fault. fault ≡ of_access e };

    fn from(e: RulesFault) -> PolicyFault {
        match e {
            RulesFault::Memory => PolicyFault::Memory,
            _ => PolicyFault::Access(e),
        }
    }
}

impl From<ContextsFault> for PolicyFault {
    ghost from_gives = { λ e fault. fault ≡ of_contexts e };

    fn from(e: ContextsFault) -> PolicyFault {
        match e {
            ContextsFault::Memory => PolicyFault::Memory,
            _ => PolicyFault::Contexts(e),
        }
    }
}

impl From<AllocError> for PolicyFault {
    ghost from_gives = { λ _ fault. fault ≡ Memory };

    fn from(_e: AllocError) -> PolicyFault {
        PolicyFault::Memory
    }
}

impl<T: Drop> From<AllocFailed<T>> for PolicyFault {
    ghost from_gives = { λ _ fault. fault ≡ Memory };

    fn from(_e: AllocFailed<T>) -> PolicyFault {
        PolicyFault::Memory
    }
}
