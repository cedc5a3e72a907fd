//! Answers to a connection.

ghost use Rattle.std.specs.Prelude.{◌≡◌, []};

use crate::response::Response;
use sm_history::Record;
use std::alloc::Global;

/// An answer to a connection, and the audit records of the request.
#[derive(Drop)]
pub struct Answered {
    pub response: Response,
    /// The records, oldest first.
    pub records: Vec<Record>,
}

impl Answered {
    /// An answer without records.
    pub fn plain(alloc: Global, response: Response) -> Answered
        ensures response { result.response ≡ response }
        ensures records { result.records.items ≡ [] }
    {
        Answered {
            response,
            records: Vec::new(alloc),
        }
    }
}
