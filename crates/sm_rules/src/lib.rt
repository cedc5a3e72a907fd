//! What the rules of a policy source allow.
#![tactic(auto)]

mod draft;
mod fault;
mod kept;
mod memo;
mod perm_bits;
mod row_pool;
mod rules;

pub use fault::RulesFault;
pub use kept::Kept;
pub use perm_bits::{PERM_COUNT, class_at, has_perm, number_of, perm_at};
pub use rules::Rules;
