//! Seals that were made ready.

use crate::journal::Journal;
use crate::turns::Turns;

/// A seal that was made ready, with all its allocations: the next segment's journal, and the counts that it begins
/// with.
#[derive(Drop)]
pub struct ReadySeal {
    pub journal: Journal,
    pub turns: Turns,
}
