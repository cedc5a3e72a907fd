//! Lines with how often each of them is there.

ghost use Rattle.std.specs.Prelude.{◌≡◌, ◌+◌, ◌<◌, ◌^◌, ◌++◌, [], IfOk, OnOk, length};
ghost use Rattle.std.specs.List.{flat_map};
ghost use Rattle.sm_suggestions.specs.Tallying as spec;

use indexmap::IndexMap;
use sm_values::push_numbered;
use std::alloc::{AllocError, Global};
use std::marker::Model;

/// Lines in the order in which they come first, each with how often it is there. Contracts see the list of both.
pub struct Tally {
    times: IndexMap<Vec<u8>, u64>,
}

impl Drop for Tally {
    fn drop(self) {
        let Tally { times: _ } = self;
    }
}

impl Model for Tally {
    ghost use Rattle.std.specs.Prelude.{List, map};
    ghost use Rattle.sm_suggestions.specs.Tallying.{Count, count_of};

    ghost Value = { List Count };

    ghost view = { λ t. map count_of t.times.entries };
}

impl Tally {
    /// Makes a tally of no lines.
    pub fn new(alloc: Global) -> Tally
        ensures { result ≡ [] }
    {
        Tally {
            times: IndexMap::new(alloc),
        }
    }

    /// Counts one more line.
    ///
    /// # Errors
    ///
    /// If an allocation fails; the tally is then as it was.
    pub fn add(&mut self, line: Vec<u8>) -> Result<(), AllocError>
        requires { spec.total self.old + 1 < 2 ^ 64 }
        ensures { OnOk result (self.new ≡ spec.counted self.old line.items) }
    {
        let before = self.times_of(&line);
        self.times.insert(line, before + 1)?;
        Ok(())
    }

    /// Returns how often a line is there.
    fn times_of(&self, line: &[u8]) -> u64
        ensures { result ≡ spec.times_in line.now self.now }
    {
        self.times.get(line).copied().unwrap_or(0)
    }

    /// Returns the number of different lines.
    fn len(&self) -> usize
        ensures { result ≡ length self.now }
    {
        self.times.len()
    }

    /// Returns each line behind which is its number.
    pub fn lines(&self, alloc: Global) -> Result<Vec<u8>, AllocError>
        ensures { IfOk result (λ text. text.items ≡ flat_map spec.count_line self.now) }
    {
        let mut text = Vec::new(alloc);
        for i in 0..self.len() {
            self.push_at(i, &mut text)?;
        }
        Ok(text)
    }

    /// Appends the line of an index and its number.
    fn push_at(&self, i: usize, text: &mut Vec<u8>) -> Result<(), AllocError>
        requires { i < length self.now }
        ensures { OnOk result (text.new.items ≡ text.old.items ++ spec.line_at self.now i) }
    {
        match self.times.get_index(i) {
            Some((line, times)) => push_count(line, *times, text),
            None => unreachable!(),
        }
    }
}

/// Appends a line and its number.
fn push_count(line: &[u8], times: u64, text: &mut Vec<u8>) -> Result<(), AllocError>
    ensures { OnOk result (text.new.items
        ≡ text.old.items ++ spec.count_line (record { line = line.now; times = times })) }
{
    text.extend_from_slice(line)?;
    push_numbered(text, b" ", times)?;
    text.extend_from_slice(b"\n")
}
