//! The statements of a policy that are of no use: what it allows and audits is the same without them.
#![tactic(auto)]

mod adders;
mod declarations;
mod laws;
mod listing;
mod missing;
mod pairs;
#[cfg(test)]
mod tests;
mod unused_rules;
mod used_types;
mod uses;
mod words;

pub use laws::removal_changes_nothing;
pub use listing::unused;
