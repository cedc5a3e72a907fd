//! Entries: the first line of each key.

use crate::fault::ContextsFault;
use indexmap::IndexMap;
use sm_values::{Context, drop_fields};
use std::alloc::Global;
use std::marker::Model;

/// The first line with a key, counted from 1, and its context.
pub struct FirstLine {
    pub line: u32,
    pub context: Context,
}

impl Drop for FirstLine {
    fn drop(self) {
        drop_fields!(self: line, context);
    }
}

/// Entries in the order of their lines. Contracts see them as a list.
pub struct Entries {
    by_key: IndexMap<Vec<u8>, FirstLine>,
}

impl Drop for Entries {
    fn drop(self) {
        let Entries { by_key: _ } = self;
    }
}

impl Model for Entries {
    ghost use Rattle.std.specs.Prelude.{List};
    ghost use Rattle.sm_contexts.specs.Reading.{Entry};

    ghost Value = { List Entry };

    ghost use Rattle.std.specs.Prelude.{map};
    ghost use Rattle.sm_contexts.specs.Keyed.{entry_of};

    ghost view = { λ e. map entry_of e.by_key.entries };
}

impl Entries {
    ghost use Rattle.std.specs.Prelude.{◌≡◌, ◌<◌, ◌≤◌, ◌+◌, [], find, length, option_map, position, slice_get, IfSome};
    ghost use Rattle.std.specs.Prelude.{OnOk};
    ghost use Rattle.std.specs.List.{list_any};
    ghost use Rattle.sm_values.specs.Reading.{Gives};
    ghost use Rattle.sm_contexts.specs.Reading.{is_memory, with_entry, has_key, default_key};
    ghost use Rattle.sm_contexts.specs.Keyed.{entry, first_line};

    /// Makes an empty list.
    pub fn new(alloc: Global) -> Entries
        ensures { result ≡ [] }
    {
        Entries {
            by_key: IndexMap::new(alloc),
        }
    }

    fn find(&self, key: &[u8]) -> Option<&FirstLine>
        ensures { option_map (λ f. entry key.now f.now) result ≡ find (has_key key.now) self.now }
    {
        self.by_key.get(key)
    }

    /// Returns the number of keys.
    pub fn len(&self) -> usize
        ensures { result ≡ length self.now }
    {
        self.by_key.len()
    }

    /// Appends an entry, unless an earlier line has its key.
    #[tactic(auto, unfolding(crate::specs::Reading::with_entry))]
    pub fn add(
        &mut self,
        alloc: Global,
        line: u32,
        key: &[u8],
        context: Context,
    ) -> Result<(), ContextsFault>
        ensures placed { Gives is_memory (λ _. self.new) result (with_entry line self.old key.now context) }
        ensures few { OnOk result (length self.new ≤ length self.old + 1) }
    {
        if let Some(earlier) = self.find(key) {
            if key == b"*".as_slice() {
                return Err(ContextsFault::TwoDefaults(line));
            }
            if earlier.context.text() != context.text() {
                return Err(ContextsFault::Conflict(earlier.line, line));
            }
            return Ok(());
        }
        let key = Vec::from_slice(alloc, key)?;
        self.by_key.insert(key, FirstLine { line, context })?;
        Ok(())
    }

    /// Returns the index of a key's entry.
    pub fn place(&self, key: &[u8]) -> Option<usize>
        ensures place { result ≡ position (has_key key.now) self.now }
        ensures within { IfSome result (λ i. i < length self.now) }
    {
        self.by_key.get_index_of(key)
    }

    /// Returns whether a key has an entry.
    pub fn has(&self, key: &[u8]) -> bool
        ensures { result ≡ list_any (has_key key.now) self.now }
    {
        self.by_key.contains_key(key)
    }

    /// Returns the key of an entry, by its index.
    pub fn key(&self, i: usize) -> Option<&[u8]>
        ensures { option_map (λ k. k.now) result ≡ option_map (λ e. e.key) (slice_get self.now i) }
    {
        match self.by_key.get_index(i) {
            Some((key, _)) => Some(key.as_slice()),
            None => None,
        }
    }

    /// Returns the line and the context of an entry, by its index.
    pub fn get(&self, i: usize) -> Option<&FirstLine>
        ensures { option_map (λ f. f.now) result ≡ option_map first_line (slice_get self.now i) }
    {
        match self.by_key.get_index(i) {
            Some((_, first)) => Some(first),
            None => None,
        }
    }
}
