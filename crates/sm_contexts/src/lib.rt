//! Labels of services: a reader of `service_contexts` files, and the look-up of a name's context.
#![tactic(auto)]

mod contexts;
mod entries;
mod fault;
mod limits;
mod lines;
mod reading;

pub use contexts::Contexts;
pub use fault::ContextsFault;
pub use limits::MOST_ENTRY_LINES;
pub use lines::Lines;
