//! Where the lines of a text begin.

ghost use Rattle.std.specs.Prelude.{◌≡◌, IfOk};
ghost use Rattle.sm_questions.specs.LineStarts.{AreStarts};

use sm_values::line_len;
use std::alloc::{AllocError, Global};

/// Returns the index of the first byte of each line.
pub fn line_starts(alloc: Global, text: &[u8]) -> Result<Vec<usize>, AllocError>
    ensures { IfOk result (λ starts. AreStarts text.now starts.items) }
{
    let mut starts = Vec::new(alloc);
    let mut at = 0;
    while at < text.len() {
        starts.push(at)?;
        at += line_len(&text[at..]) + 1;
    }
    Ok(starts)
}
