//! Tests of a manager that is called directly, and of connections at a desk that holds one.
#![tactic(auto)]

#[cfg(test)]
mod tests;
