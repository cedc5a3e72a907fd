//! Services under their names, and watches of names.
//!
//! A table of names has what the effects of a history say of services and watches.
//!
//! An `AllocError` says that an allocation failed, and nothing else.
#![tactic(auto)]

mod digests;
mod hints;
mod named_rows;
mod names;
mod ordered;
mod services;
mod watch_list;
mod watch_order;

pub use digests::digest;
pub use names::NameTable;
pub use services::Services;
