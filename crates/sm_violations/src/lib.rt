//! All neverallow rules that allow rules break, with the allow rules that break them.
#![tactic(auto)]

mod bounds;
mod clash;
mod laws;
mod violations;

pub use laws::{each_clash_is_told, each_is_true, first_of_all};
pub use violations::Violations;
