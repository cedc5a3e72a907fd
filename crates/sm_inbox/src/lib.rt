//! The inboxes of live clients.
//!
//! A table of inboxes has what the effects of a history say of deliveries and takes.
//!
//! An `AllocError` says that an allocation failed, and nothing else.
#![tactic(auto)]

mod inbox;
mod inboxes;
mod places;

pub use inboxes::Inboxes;
