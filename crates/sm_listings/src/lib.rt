//! Lists of what a policy declares, and of the names for which it allows something.
#![tactic(auto)]

mod laws;
mod lines;
mod listing;
mod naming;
#[cfg(test)]
mod tests;
mod words;

pub use laws::listed_if_allowed;
pub use listing::types;
pub use naming::names;
pub use words::knows;
