//! The line for a word of a question that names nothing.

ghost use Rattle.std.specs.Prelude.{◌≡◌, IfOk};
ghost use Rattle.sm_command.specs.Endings as spec;

use sm_questions::{Unknown, unknown_text};
use std::alloc::{AllocError, Global};

/// Returns `fault: unknown type WORD`, or the same for a class, a permission or a kind of rule.
pub fn unknown_line(alloc: Global, unknown: &Unknown<'_>) -> Result<Vec<u8>, AllocError>
    ensures { IfOk result (λ line. line.items ≡ spec.unknown_line unknown.now) }
{
    let words = unknown_text(alloc, unknown)?;
    let mut line = Vec::from_slice(alloc, b"fault: ")?;
    line.extend_from_slice(&words)?;
    line.extend_from_slice(b"\n")?;
    Ok(line)
}
