//! What became of all connections of a worker, or of a server: one lawful history, of which each connection was answered
//! from beginnings.
#![tactic(auto)]

mod account;
mod chronicle;
mod gathering;
mod holds;
mod laws;
mod page;
mod serving;
mod visit;

pub use account::Account;
pub use chronicle::{Chronicle, Forgets};
pub use gathering::{at_rest, bury, gather, gather_administrator, opened};
pub use holds::Holds;
pub use laws::later;
pub use page::Page;
pub use serving::{serve_administrator, serve_client};
pub use sm_connection::{Gauge, Monitor, Occasion, SealAt, ServerEvent, Supervisor};
pub use visit::{Moment, Visit, Visited};
