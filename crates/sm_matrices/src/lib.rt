//! The access matrix of a policy source: for each permission, the pairs of types that rules join, as rows of bits; and
//! what is decided by it.
//!
//! An `AllocError` says that an allocation failed, and nothing else.
#![tactic(auto)]

mod batch;
mod decision;
mod gathered;
mod layer;
mod matrices;
mod matrix;
mod perm_sets;
mod source_row;
mod unions;
mod vectors;

pub use decision::Decision;
pub use matrices::Matrices;
pub use matrix::{GROUP, Matrix};
pub use perm_sets::{SET_COUNT, perm_set, sets_of};
pub use unions::Unions;
pub use vectors::Vectors;
