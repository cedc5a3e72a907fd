//! The state of a manager at one moment, and its lines.
//!
//! An `AllocError` says that an allocation failed, and nothing else.
#![tactic(auto)]

mod client_status;
mod lines;
mod status;

pub use client_status::ClientStatus;
pub use lines::push_status;
pub use status::Status;
