//! Accepted policies: the rules and labels by which servicemanager decides.
#![tactic(auto)]

mod counts;
mod fault;
mod labels;
mod prepared;
mod preparing;
mod refused;
mod snapshot;
mod violation;

pub use counts::Counts;
pub use fault::PolicyFault;
pub use labels::Label;
pub use prepared::Prepared;
pub use refused::refused_text;
pub use sm_matrices::Decision;
pub use snapshot::Snapshot;
pub use violation::Violation;
