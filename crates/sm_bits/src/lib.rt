//! Sets of small numbers, with a bit for each, and the bits of a byte. A policy's sets of types are joined, subtracted
//! and compared in this form, a word of 64 types at a time.
//!
//! An `AllocError` says that an allocation failed, and nothing else.
#![tactic(auto)]

mod bit_row;
mod byte_bits;
mod rows;
mod shared_set;

pub use bit_row::BitRow;
pub use byte_bits::{has_bit, with_bit};
pub use rows::empty_rows;
pub use shared_set::SharedSet;
