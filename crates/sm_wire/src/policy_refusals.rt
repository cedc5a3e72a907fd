//! The reply to a `reload` whose policy is refused.

ghost use Rattle.std.specs.Prelude.{◌≡◌, ◌++◌, OnOk};
ghost use Rattle.sm_wire.specs.Replies.{policy_refused_text};

use sm_policy::{PolicyFault, refused_text};
use std::alloc::{AllocError, Global};

/// Appends `refused`, and why. On error a part may have been appended.
#[tactic(auto, unfolding(crate::specs::Replies::policy_refused_text))]
pub fn push_policy_refused(
    alloc: Global,
    out: &mut Vec<u8>,
    fault: &PolicyFault,
) -> Result<(), AllocError>
    ensures { OnOk result (out.new.items ≡ out.old.items ++ policy_refused_text fault.now) }
{
    let words = refused_text(alloc, fault)?;
    out.extend_from_slice(b"refused ")?;
    out.extend_from_slice(&words)?;
    out.extend_from_slice(b"\n")
}
