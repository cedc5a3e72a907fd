//! The first tuple that a neverallow rule of a policy source forbids and an allow rule allows.
//!
//! An `AllocError` says that an allocation failed, and nothing else.
#![tactic(auto)]

mod hits;
mod violation;

pub use violation::{NumberedViolation, first_violation};
