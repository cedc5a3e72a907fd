//! The identity of the program's manager.

ghost use Rattle.std.specs.Prelude.{◌≡◌, IfOk};
ghost use Rattle.sm_core.specs.Opening.{the_manager};

use sm_values::{Context, ContextError, Identity};
use std::alloc::{AllocError, Global};

/// Returns the identity under which a script and a server open their manager: process 1 with the uid of the system,
/// 1000, in the domain `servicemanager` (AOSP: `system/sepolicy/private/servicemanager.te`).
#[tactic(auto, unfolding(sm_values::specs::Contexts::is_context))]
pub fn manager_identity(alloc: Global) -> Result<Identity, AllocError>
    ensures { IfOk result (λ who. who ≡ the_manager) }
{
    match Context::read(alloc, b"u:r:servicemanager:s0") {
        Ok(context) => Ok(Identity {
            pid: 1,
            uid: 1000,
            context,
        }),
        Err(ContextError::Memory) => Err(AllocError),
        Err(ContextError::BadContext) => unreachable!(),
    }
}
