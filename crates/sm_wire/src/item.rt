//! Items of a stream of request lines.

ghost use Rattle.std.specs.Prelude.{◌≡◌, ◌<◌, Some, None, vec_len, vec_capacity};
ghost use Rattle.sm_wire.specs.Giving.{Gives};
ghost use Rattle.sm_wire.specs.Grammar.{header_by};

use crate::read_error::ReadError;
use crate::request::Request;
use crate::texts::PolicyTexts;

/// An item of a stream of request lines.
#[derive(Drop)]
pub enum Item {
    /// A line with a request.
    Asked(Request),
    /// A `reload` line with its files: the administrator replaces the policy.
    Policy(PolicyTexts),
    /// A line outside the grammar.
    Malformed,
    /// A line of more than 4,096 bytes, or a `reload` line that announces a file of more than 4,194,304. It is the last
    /// item of a stream.
    LineTooLong,
}

/// What may follow a line.
#[derive(Clone, Copy)]
pub enum Follows {
    /// Another line.
    Line,
    /// The files that the line announces, if it is a `reload` line.
    Files,
}

/// Appends the item of a request, which announces no files, and for which there is room. Inline, so that the request is
/// built in the list.
#[inline(always)]
pub fn give(items: &mut Vec<Item>, request: Request) -> Result<Follows, ReadError>
    requires no_files { header_by (Some request) ≡ None }
    requires room { vec_len items.old < vec_capacity items.old }
    ensures { Gives result items.old.items items.new.items (Some request) }
{
    items.push_reserved(Item::Asked(request));
    Ok(Follows::Line)
}
