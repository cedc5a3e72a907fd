//! The labels of services.

use crate::entries::Entries;
use crate::fault::ContextsFault;
use crate::reading::entries_of;
use sm_values::{Context, drop_fields};
use std::alloc::Global;
use std::marker::Model;

/// The entries of a `service_contexts` file, with one for `*`. Contracts see the first line of each key, in order.
pub struct Contexts {
    entries: Entries,
    /// The index of the entry for `*`.
    default: u32,
}

impl Drop for Contexts {
    fn drop(self) {
        drop_fields!(self: entries, default);
    }
}

impl Model for Contexts {
    ghost use Rattle.std.specs.Prelude.{List};
    ghost use Rattle.sm_contexts.specs.Reading.{Entry};

    ghost Value = { List Entry };

    ghost use Rattle.sm_contexts.specs.Reading.{IsKept};

    ghost view = { λ c. c.entries };

    ghost invariant = { λ c. IsKept c.entries c.default };
}

impl Contexts {
    ghost use Rattle.std.specs.Prelude.{◌≡◌, ◌<◌, Some, IfOk, length, option_map, slice_get};
    ghost use Rattle.sm_values.specs.Reading.{Gives};
    ghost use Rattle.sm_contexts.specs.Reading.{AreFirstLines, is_memory, label, label_place, line_and_context, read};
    ghost use Rattle.std.specs.List.{list_any};
    ghost use Rattle.sm_contexts.specs.Reading.{has_key, seen};

    /// Reads a file in the format of `service_contexts` of AOSP's system/sepolicy: each line has a key and a context,
    /// separated by spaces, tabs and carriage returns. A line without words, or whose first word begins with `#`, is
    /// skipped, and words after the second are ignored. A key repeated with the same context is accepted.
    pub fn read(alloc: Global, text: &[u8]) -> Result<Contexts, ContextsFault>
        ensures exact { Gives is_memory (λ c. c) result (read text.now) }
        ensures first_lines { IfOk result (AreFirstLines text.now) }
    {
        let entries = entries_of(alloc, text)?;
        let Some(default) = entries.place(b"*") else {
            unreachable!();
        };
        Ok(Contexts {
            entries,
            default: default as u32,
        })
    }

    /// Returns the index of a name's entry, which `entry` takes: that of the line with this key, otherwise that of the
    /// line `*`.
    pub fn place(&self, name: &[u8]) -> u32
        ensures place { label_place self.now name.now ≡ Some result }
        ensures within { result < length self.now }
        ensures labelled { option_map (λ e. e.context) (slice_get self.now result) ≡ label self.now name.now }
    {
        match self.entries.place(name) {
            Some(place) => place as u32,
            None => self.default,
        }
    }

    /// Returns the context of a name: that of the line with this key, otherwise that of the line `*`.
    pub fn label(&self, name: &[u8]) -> &Context
        ensures { label self.now name.now ≡ Some result.now }
    {
        match self.entry(self.place(name)) {
            Some((_, context)) => context,
            None => unreachable!(),
        }
    }

    /// Returns the first line of the i-th distinct key, counted from 0, and its context.
    pub fn entry(&self, i: u32) -> Option<(u32, &Context)>
        ensures { option_map seen result ≡ option_map line_and_context (slice_get self.now i) }
    {
        match self.entries.get(i as usize) {
            Some(first) => Some((first.line, &first.context)),
            None => None,
        }
    }

    /// Returns the i-th distinct key, counted from 0, in the order of the keys' first lines.
    pub fn key(&self, i: u32) -> Option<&[u8]>
        ensures { option_map (λ k. k.now) result ≡ option_map (λ e. e.key) (slice_get self.now i) }
    {
        self.entries.key(i as usize)
    }

    /// Returns whether a line has this key.
    pub fn has_key(&self, key: &[u8]) -> bool
        ensures { result ≡ list_any (has_key key.now) self.now }
    {
        self.entries.has(key)
    }

    /// Returns the number of distinct keys.
    pub fn count(&self) -> u32
        ensures { result ≡ length self.now }
    {
        self.entries.len() as u32
    }
}
