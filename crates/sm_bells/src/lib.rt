//! Bells that wake a worker whose client waits for a delivery.
#![tactic(auto)]

mod bell;
mod bells;
mod doorstep;

pub use bells::{Bells, Ringer};
pub use doorstep::Doorstep;
