//! Reads the lines of a contexts file.

ghost use Rattle.std.specs.Prelude.{◌≡◌, ◌≤◌, ◌<◌, ◌+◌, length, count_by, IfOk};
ghost use Rattle.sm_contexts.specs.Reading as spec;
ghost use Rattle.sm_values.specs.Reading.{Gives};
ghost use Rattle.sm_contexts.specs.Reading.{IsWhole, is_memory};

use crate::entries::Entries;
use crate::fault::ContextsFault;
use crate::limits::MOST_ENTRY_LINES;
use crate::lines::{Lines, first_word};
use sm_values::{Context, ContextError, MOST_TEXT_BYTES};
use std::alloc::Global;

fn is_entry(line: &[u8]) -> bool
    ensures { result ≡ spec.is_entry line.now }
{
    let (word, _) = first_word(line);
    !(word.is_empty() || word[0] == b'#')
}

fn entry_count(mut lines: Lines) -> u32
    requires { length lines ≤ MOST_TEXT_BYTES }
    ensures { result ≡ count_by spec.is_entry lines.entry }
{
    let mut count: u32 = 0;
    'lines: while let Some(line) = lines.take() {
        if is_entry(line) {
            count += 1;
        }
    }
    count
}

fn context_at(alloc: Global, line: u32, word: &[u8]) -> Result<Context, ContextsFault>
    ensures { Gives is_memory (λ c. c) result (spec.context_at line word.now) }
{
    match Context::read(alloc, word) {
        Ok(context) => Ok(context),
        Err(ContextError::BadContext) => Err(ContextsFault::BadLine(line)),
        Err(ContextError::Memory) => Err(ContextsFault::Memory),
    }
}

#[tactic(auto, unfolding(crate::specs::Reading::with_line))]
fn add_line(
    alloc: Global,
    mut entries: Entries,
    number: u32,
    line: &[u8],
) -> Result<Entries, ContextsFault>
    ensures read { Gives is_memory (λ e. e) result (spec.with_line number entries line.now) }
    ensures few { IfOk result (λ e. length e ≤ length entries + 1) }
{
    if is_entry(line) {
        let (key, rest) = first_word(line);
        let (word, _) = first_word(rest);
        let context = context_at(alloc, number, word)?;
        entries.add(alloc, number, key, context)?;
    }
    Ok(entries)
}

fn add_lines(alloc: Global, mut lines: Lines) -> Result<Entries, ContextsFault>
    requires { length lines ≤ MOST_TEXT_BYTES }
    ensures read { Gives is_memory (λ e. e) result (spec.entries_from 1 spec.no_entries lines.entry) }
    ensures whole { IfOk result IsWhole }
{
    let mut entries = Entries::new(alloc);
    let mut number: u32 = 1;
    'lines: while let Some(line) = lines.take() {
        entries = add_line(alloc, entries, number, line)?;
        number += 1;
    }
    if entries.has(b"*") {
        Ok(entries)
    } else {
        Err(ContextsFault::NoDefault)
    }
}

/// Reads the first line of each key, in order.
#[tactic(auto, unfolding(crate::specs::Reading::read))]
pub fn entries_of(alloc: Global, text: &[u8]) -> Result<Entries, ContextsFault>
    ensures read { Gives is_memory (λ e. e) result (spec.read text.now) }
    ensures whole { IfOk result IsWhole }
{
    if text.len() > MOST_TEXT_BYTES {
        return Err(ContextsFault::TooLarge);
    }
    if entry_count(Lines::new(text)) > MOST_ENTRY_LINES {
        return Err(ContextsFault::TooLarge);
    }
    add_lines(alloc, Lines::new(text))
}
