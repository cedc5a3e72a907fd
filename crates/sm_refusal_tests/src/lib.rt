//! Tests for runs in which one allocation fails: `rt try --test --fail-alloc 1..` in this folder.
//!
//! A test makes calls that allocate. Each call gives the right value, or reports that an allocation failed and changes
//! nothing. Then it is made again on the same values, and has to give its value.
#![tactic(auto)]

#[cfg(test)]
mod tests;
