//! Tests in threads.
#![tactic(auto)]

#[cfg(test)]
mod tests;
