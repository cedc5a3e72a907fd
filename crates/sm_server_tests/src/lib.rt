//! Tests of a server over Unix sockets, in threads.
#![tactic(auto)]

#[cfg(test)]
mod tests;
