//! Answers of a desk.

use sm_history::{Record, Reply};
use sm_policy::PolicyFault;

/// An answer of a desk.
pub enum Response {
    /// A reply of the service manager.
    Replied(Reply),
    /// The policy of a `reload` is refused.
    PolicyRefused(PolicyFault),
    /// The last denials, oldest first.
    Denied(Vec<Record>),
}

impl Drop for Response {
    fn drop(self) {
        match self {
            Response::Replied(_) => {}
            Response::PolicyRefused(_) => {}
            Response::Denied(_) => {}
        }
    }
}
