//! Segments of a journal.

use sm_values::drop_fields;
use std::marker::Model;

/// Journal entries in one block of memory, oldest first.
pub type Chunk = Sequence<Entry>;

/// A segment of a journal: its number from 1, the rows that it begins with, and its changes, oldest first, in the
/// journal's own chunks, so that closing a segment copies nothing. Contracts see the history, which a manager produced.
pub struct Segment {
    number: u64,
    opening: Rows,
    full: Vec<Chunk>,
    last: Vec<Entry>,
}

impl Drop for Segment {
    fn drop(self) {
        drop_fields!(self: number, opening, full, last);
    }
}

impl Model for Segment {
    ghost use Rattle.std.specs.Prelude.{◌++◌};
    ghost use Rattle.sm_history.specs.Histories.{History};
    ghost use Rattle.sm_history.specs.Segments.{joined, segment};
    ghost use Rattle.sm_history.specs.Lawful.{ComesAbout};

    ghost Value = { History };

    ghost view = { λ s. segment s.number s.opening (joined s.full.items ++ s.last.items) };

    ghost invariant = { λ s. ComesAbout (segment s.number s.opening (joined s.full.items ++ s.last.items)) };
}

ghost use Rattle.std.specs.Prelude.{◌≡◌, ◌<◌, ◌^◌, ◌++◌, reverse, length};
ghost use Rattle.sm_history.specs.Histories.{length_of};
ghost use Rattle.sm_history.specs.Lawful.{ComesAbout};
ghost use Rattle.sm_history.specs.Segments.{joined, segment};

use crate::entry::Entry;
use crate::rows::Rows;
use crate::sequence::Sequence;

fn count_chunks(chunks: &[Chunk]) -> u64
    requires { length (joined chunks.now) < 2 ^ 64 }
    ensures { result ≡ length (joined chunks.now) }
{
    let mut n = 0;
    for chunk in chunks {
        n += chunk.list().len() as u64;
    }
    n
}

impl Segment {
    /// Makes a segment of a lawful history.
    pub fn new(number: u64, opening: Rows, full: Vec<Chunk>, last: Vec<Entry>) -> Segment
        requires { ComesAbout (segment number opening (joined full.items ++ last.items)) }
        ensures { result ≡ segment number opening (joined full.items ++ last.items) }
    {
        Segment {
            number,
            opening,
            full,
            last,
        }
    }

    /// Returns its number, from 1.
    pub fn number(&self) -> u64
        ensures { result ≡ self.now.number }
    {
        self.number
    }

    /// Returns the rows that it begins with.
    pub fn opening(&self) -> &Rows
        ensures { result.now ≡ self.now.opening }
    {
        &self.opening
    }

    /// Returns its changes, oldest first: those in full chunks, and those after them.
    pub fn entries(&self) -> (&[Chunk], &[Entry])
        ensures lawful { ComesAbout self.now }
        ensures parts { self.now.entries ≡ reverse (joined result.0.now ++ result.1.now) }
    {
        (self.full.as_slice(), self.last.as_slice())
    }

    /// Returns the length of the whole history at its end, in changes. Allocates nothing.
    pub fn history_length(&self) -> u64
        ensures { result ≡ length_of self.now }
    {
        self.opening.history_length() + count_chunks(&self.full) + self.last.len() as u64
    }
}
