//! Why a script stopped before the end of its input.

use sm_engine::Fault;
use sm_history::{Denial, Refusal};
use sm_policy::PolicyFault;
use std::fmt;
use thiserror::Error;

/// Why a script was not run to the end of its input.
#[derive(Debug, Drop, Error)]
pub enum ScriptFault {
    /// The policy was refused; nothing was read or written.
    #[error("policy refused: {0}")]
    Policy(PolicyFault),
    /// The manager was not opened; nothing was read or written.
    #[error(fmt = write_opening)]
    Opening(Refusal),
    /// The engine stopped.
    #[error("fault: {0}")]
    Engine(Fault),
}

// Writes why an opening was refused. Only a missing rule or a failed allocation refuses one.
fn write_opening<W: fmt::Write>(refusal: &Refusal, f: &mut fmt::Formatter<W>) -> fmt::Result {
    match refusal {
        Refusal::Denied(denial) => write_denial(denial.get(), f),
        Refusal::Memory => f.write_str("fault: no memory"),
        _ => f.write_str("fault: the manager was not opened"),
    }
}

fn write_denial<W: fmt::Write>(denial: &Denial, f: &mut fmt::Formatter<W>) -> fmt::Result {
    match denial {
        Denial::Rule {
            source,
            target,
            class,
            perm,
        } => write!(f, "open denied {source} {target} {class} {perm}"),
        _ => f.write_str("fault: the manager was not opened"),
    }
}

impl From<PolicyFault> for ScriptFault {
    ghost use Rattle.std.specs.Prelude.{◌≡◌};
    ghost use Rattle.sm_script.specs.declared.script_fault.ScriptFault.TheVariants.{Policy};

    ghost from_gives = { λ f e. e ≡ Policy f };

    fn from(fault: PolicyFault) -> ScriptFault {
        ScriptFault::Policy(fault)
    }
}

impl From<Refusal> for ScriptFault {
    ghost use Rattle.std.specs.Prelude.{◌≡◌};
    ghost use Rattle.sm_script.specs.declared.script_fault.ScriptFault.TheVariants.{Opening};

    ghost from_gives = { λ r e. e ≡ Opening r };

    fn from(refusal: Refusal) -> ScriptFault {
        ScriptFault::Opening(refusal)
    }
}
