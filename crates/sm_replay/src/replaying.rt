//! Replays of changes.

ghost use Rattle.std.specs.Prelude.{◌≡◌, OnOk};
ghost use Rattle.sm_history.specs.Histories.{History, entered, effects_of};
ghost use Rattle.sm_history.specs.Sound.{Sound};
ghost use Rattle.sm_replay.specs.Replaying.{IsNext, TracksHistory};

use crate::entering::enter;
use crate::turning::{Turning, number_of};
use sm_history::{Entry, Tables};
use std::alloc::AllocError;

/// The state of a replay: tables, the number of changes of each actor, and the number of all changes.
#[derive(Drop)]
pub struct Replay {
    pub tables: Tables,
    pub turning: Turning,
    pub length: u64,
}

impl Replay {
    /// Applies one more change. Returns an error if an allocation fails.
    pub fn enter(&mut self, entry: &Entry) -> Result<(), AllocError>
        ensures { OnOk result ((h : History) → Sound (effects_of h) → TracksHistory h self.old
            → IsNext h entry.now → TracksHistory (entered entry.now h) self.new) }
    {
        let client = number_of(entry.by);
        enter(&mut self.tables, client, &entry.event, &entry.outcome)?;
        self.turning.count(entry.by)?;
        self.length = self.length.saturating_add(1);
        Ok(())
    }
}
