//! The types and attributes that a policy source declares, and the types that a rule's set denotes.
#![tactic(auto)]

mod fault;
mod members;
mod name_set;
mod symbols;
mod table;
mod type_count;
mod types;

pub use fault::TypesFault;
pub use name_set::NameSet;
pub use type_count::TypeCount;
pub use types::Types;

/// The most types that a policy source may declare.
pub const MOST_TYPES: usize = 4096;

/// The most attributes that a policy source may declare.
pub const MOST_ATTRIBUTES: usize = 1024;
