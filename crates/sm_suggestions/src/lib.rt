//! Suggestions from a log of denials: what a policy says now of each access that was denied.
#![tactic(auto)]

mod fields;
mod judging;
mod limits;
mod log_words;
mod names;
mod records;
mod ruling;
mod rulings;
mod suggesting;
mod tally;
#[cfg(test)]
mod tests;
mod verdict;

pub use limits::{MOST_LINE_BYTES, MOST_LOG_BYTES};
pub use suggesting::suggest;
