//! Audit records of denied access: their lines, and the ring of the newest ones.
#![tactic(auto)]

mod lines;
mod ring;

pub use lines::{line, push_line, push_lines};
pub use ring::{MOST_RECORDS, Ring};
pub use sm_history::Record;
