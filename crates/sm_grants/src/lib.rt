//! The handles of clients: who holds which object, under which number, and how often.
//!
//! A table of handles has what the effects of a history say of grants and releases.
//!
//! An `AllocError` says that an allocation failed, and nothing else.
#![tactic(auto)]

mod grants;
mod handles;
mod place;
mod rows;
mod slots;
mod used_numbers;

pub use grants::Grants;
