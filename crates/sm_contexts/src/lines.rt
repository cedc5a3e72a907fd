//! The lines of a contexts file.

ghost use Rattle.std.specs.Prelude.{◌≡◌, ◌≤◌, ◌+◌, ◌++◌, [], length, take, drop, option_map, option_to_list, IfNone};
ghost use Rattle.std.specs.List.{prefix_len};
ghost use Rattle.sm_values.specs.Lines.{is_blank};
ghost use Rattle.sm_contexts.specs.Lines as spec;

use sm_values::{behind, is_blank, line_len};
use std::marker::Model;

fn blank_len(bytes: &[u8]) -> usize
    ensures value { result ≡ prefix_len is_blank bytes.now }
    ensures within { result ≤ length bytes.now }
{
    bytes.iter().take_while(|b| is_blank(**b)).count()
}

fn solid_len(bytes: &[u8]) -> usize
    ensures value { result ≡ prefix_len spec.is_solid bytes.now }
    ensures within { result ≤ length bytes.now }
{
    bytes.iter().take_while(|b| !is_blank(**b)).count()
}

fn behind_newline(bytes: &[u8], len: usize) -> &[u8]
    requires { len ≤ length bytes.now }
    ensures { result.now ≡ drop (len + 1) bytes.now }
{
    if len == bytes.len() {
        behind(bytes, len)
    } else {
        behind(bytes, len + 1)
    }
}

/// Returns the first word of a line, and what follows it.
pub fn first_word(line: &[u8]) -> (&[u8], &[u8])
    ensures word { result.0.now ≡ spec.first_word line.now }
    ensures rest { result.1.now ≡ spec.after_word line.now }
{
    let rest = behind(line, blank_len(line));
    rest.split_at(solid_len(rest))
}

/// The remaining lines of a file.
#[derive(Drop)]
pub struct Lines<'a> {
    rest: &'a [u8],
}

impl<'a> Model for Lines<'a> {
    ghost use Rattle.std.specs.Prelude.{List, ℕ, ◌≤◌, length};
    ghost use Rattle.sm_contexts.specs.Lines.{lines};

    ghost Value = { List (List ℕ) };

    ghost view = { λ l. lines l.rest.now };
}

impl<'a> Lines<'a> {
    /// Makes an iterator over the lines of a file.
    pub fn new(text: &'a [u8]) -> Lines<'a>
        ensures all { result ≡ spec.lines text.now }
        ensures few { length result ≤ length text.now }
    {
        Lines { rest: text }
    }

    /// Returns the next line without its end, or `None` after the last one.
    pub fn take(&mut self) -> Option<&'a [u8]>
        ensures taken { self.old ≡ option_to_list (option_map (λ l. l.now) result) ++ self.new }
        ensures none { IfNone result (self.old ≡ []) }
    {
        if self.rest.is_empty() {
            return None;
        }
        let len = line_len(self.rest);
        let (line, _) = self.rest.split_at(len);
        self.rest = behind_newline(self.rest, len);
        Some(line)
    }
}
