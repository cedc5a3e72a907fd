//! The reply to `denials`.

ghost use Rattle.std.specs.Prelude.{◌≡◌, ◌++◌, OnOk};
ghost use Rattle.sm_wire.specs.Replies.{denials_text};

use sm_audit::push_lines;
use sm_history::Record;
use sm_values::push_numbered;
use std::alloc::{AllocError, Global};

/// Appends the reply to `denials`: a line with the number of the records, and then the audit line of each, in their
/// order. On error a part may have been appended.
#[tactic(auto, unfolding(crate::specs::Replies::denials_text))]
pub fn push_denials(alloc: Global, out: &mut Vec<u8>, records: &[Record]) -> Result<(), AllocError>
    ensures { OnOk result (out.new.items ≡ out.old.items ++ denials_text records.now) }
{
    push_numbered(out, b"denials ", records.len() as u64)?;
    out.extend_from_slice(b"\n")?;
    push_lines(alloc, out, records)
}
