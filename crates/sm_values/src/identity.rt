//! Identities of processes.

ghost use Rattle.std.specs.Prelude.{◌≡◌};

use crate::context::Context;
use crate::drop_fields;
use std::alloc::AllocError;

/// The identity of a process: its process number, its user number and its security context, as the kernel reports them.
pub struct Identity {
    pub pid: u32,
    pub uid: u32,
    pub context: Context,
}

impl Drop for Identity {
    fn drop(self) {
        drop_fields!(self: pid, uid, context);
    }
}

impl Clone for Identity {
    ghost is_clone = { λ n copy. copy ≡ n };

    fn clone(&self) -> Result<Identity, AllocError> {
        let context = self.context.clone()?;
        Ok(Identity {
            pid: self.pid,
            uid: self.uid,
            context,
        })
    }
}
