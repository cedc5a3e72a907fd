//! The index of a client's inbox.

ghost use Rattle.std.specs.Prelude.{◌≡◌, MatchOption, None};
ghost use Rattle.sm_history.specs.Tables.{IsPlace};
ghost use Rattle.sm_inbox.specs.Rows.{inbox_of, AreOnce};

use crate::inbox::Inbox;
use sm_history::row_index;

/// Returns the index of a client's inbox.
pub fn inbox_index(rows: &[Inbox], client: u32) -> Option<usize>
    requires { AreOnce rows.now }
    ensures { MatchOption result (inbox_of rows.now client ≡ None) (IsPlace (λ r. r.client) rows.now client) }
{
    row_index(rows, client)
}
