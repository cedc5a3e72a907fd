//! Tests of the two texts, and of the policies that are made from them.
#![tactic(auto)]

#[cfg(test)]
mod tests;
