//! Replays of segments: the rows that the changes of a segment leave, computed change by change from the rows that it
//! begins with. A manager reads the same rows from its tables when it closes the segment.
//!
//! An `AllocError` says that an allocation failed, and nothing else.
#![tactic(auto)]

mod client_rows;
mod copying;
mod entering;
mod live;
mod named_rows;
mod replaying;
mod segments;
mod tables;
mod turning;

pub use segments::replay;
