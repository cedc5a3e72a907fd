//! Tests of whole scripts, over readers and writers that give little or fail, and of command lines: what the contracts
//! leave to a run.
#![tactic(auto)]

#[cfg(test)]
mod tests;
