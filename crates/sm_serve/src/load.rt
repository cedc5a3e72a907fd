//! What the workers of a server have to do.

ghost use Rattle.std.specs.Prelude.{◌≡◌, ◌++◌, OnOk};
ghost use Rattle.sm_serve.specs.OwnerLines.{load_text};

use sm_values::push_numbered;
use std::alloc::AllocError;

/// What the workers of a server have to do.
#[derive(Clone, Copy, PartialEq, Eq)]
pub struct Load {
    /// The workers that serve a connection.
    pub busy: u64,
    /// All workers.
    pub workers: u64,
    /// The connections that wait for a worker.
    pub waiting: u64,
}

impl Load {
    /// Appends its lines. On error a part may have been appended.
    #[tactic(auto, unfolding(crate::specs::OwnerLines::load_text))]
    pub fn push_to(self, out: &mut Vec<u8>) -> Result<(), AllocError>
        ensures { OnOk result (out.new.items ≡ out.old.items ++ load_text self) }
    {
        push_numbered(out, b"workers ", self.busy)?;
        push_numbered(out, b" ", self.workers)?;
        push_numbered(out, b"\nwaiting ", self.waiting)?;
        out.extend_from_slice(b"\n")
    }
}
