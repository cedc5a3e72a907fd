//! Replays of segments.

ghost use Rattle.std.specs.Prelude.{◌≡◌, ◌++◌, [], ℕ, List, reverse, IfOk, OnOk};
ghost use Rattle.sm_history.specs.declared.entry.Entry.{Entry};
ghost use Rattle.sm_history.specs.Openings.{Opening};
ghost use Rattle.sm_history.specs.Lawful.{IsLawful};
ghost use Rattle.sm_history.specs.Segments.{joined, rows_of, segment};
ghost use Rattle.sm_history.specs.Tables.{tables_of, AreLeft};
ghost use Rattle.sm_replay.specs.Replaying.{HasCome, StartsFrom};
ghost use Rattle.sm_replay.specs.Turning.{turn_rows};

use crate::copying::copied;
use crate::replaying::Replay;
use crate::turning::Turning;
use sm_history::{Chunk, Entry, Rows, Segment};
use std::alloc::AllocError;

/// Starts a replay from rows. Returns an error if an allocation fails.
fn started(opening: &Rows) -> Result<Replay, AllocError>
    ensures { IfOk result (λ r. StartsFrom opening.now r) }
{
    let tables = copied(opening.tables())?;
    let turning = Turning::start(tables.alloc, opening.turns())?;
    let length = opening.history_length();
    Ok(Replay {
        tables,
        turning,
        length,
    })
}

/// Applies entries in order. Returns an error if an allocation fails.
fn enter_all(replay: &mut Replay, entries: &[Entry]) -> Result<(), AllocError>
    ensures { OnOk result ((places number : ℕ) (o : Opening) (before rest : List Entry)
        → IsLawful places (segment number o (before ++ (entries.now ++ rest)))
        → HasCome places number o (reverse before) replay.old
        → HasCome places number o (reverse (before ++ entries.now)) replay.new) }
{
    for entry in entries {
        replay.enter(entry)?;
    }
    Ok(())
}

/// Applies the entries of chunks in order. Returns an error if an allocation fails.
fn enter_chunks(replay: &mut Replay, chunks: &[Chunk]) -> Result<(), AllocError>
    ensures { OnOk result ((places number : ℕ) (o : Opening) (rest : List Entry)
        → IsLawful places (segment number o (joined chunks.now ++ rest))
        → HasCome places number o [] replay.old
        → HasCome places number o (reverse (joined chunks.now)) replay.new) }
{
    for chunk in chunks {
        enter_all(replay, chunk.list())?;
    }
    Ok(())
}

/// Makes the rows at the end of a replay. Returns an error if an allocation fails.
fn left_by(replay: Replay) -> Result<Rows, AllocError>
    requires { AreLeft replay.tables }
    ensures { IfOk result (λ r. r ≡ record {
      tables = tables_of replay.tables;
      length = replay.length;
      turns = turn_rows replay.turning replay.tables.live.items;
    }) }
{
    let Replay {
        tables,
        turning,
        length,
    } = replay;
    let turns = turning.rows(&tables.live)?;
    Ok(Rows::new(tables, turns, length))
}

/// Computes the rows after the last change of a segment, by applying each change to its opening. Returns an error if an
/// allocation fails.
pub fn replay(segment: &Segment) -> Result<Rows, AllocError>
    ensures { IfOk result (λ r. r ≡ rows_of segment.now) }
{
    let (full, last) = segment.entries();
    let mut replay = started(segment.opening())?;
    enter_chunks(&mut replay, full)?;
    enter_all(&mut replay, last)?;
    let rows = left_by(replay)?;
    Ok(rows)
}
