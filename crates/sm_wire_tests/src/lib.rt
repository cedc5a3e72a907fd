//! Tests of lines, of replies and of a session over a desk that only counts.
#![tactic(auto)]

#[cfg(test)]
mod tests;
