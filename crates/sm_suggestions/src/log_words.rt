//! The words of a line of a log.

ghost use Rattle.std.specs.Prelude.{◌≡◌, ◌<◌, ◌≤◌, ◌+◌, IfOk, IfSome, length, take, drop, option_map, position};
ghost use Rattle.std.specs.List.{prefix_len};
ghost use Rattle.std.specs.Str.{bytes_eq};
ghost use Rattle.sm_contexts.specs.Lines.{is_solid};
ghost use Rattle.sm_suggestions.specs.LogWords as spec;

use sm_values::{Word, behind, is_blank, spells};
use std::alloc::{AllocError, Global};

/// Returns the length of the part before the first blank.
fn part_len(bytes: &[u8]) -> usize
    ensures value { result ≡ prefix_len is_solid bytes.now }
    ensures within { result ≤ length bytes.now }
{
    bytes.iter().take_while(|b| !is_blank(**b)).count()
}

/// Returns what follows the blank at an index, or nothing at the end.
fn behind_blank(bytes: &[u8], len: usize) -> &[u8]
    requires { len ≤ length bytes.now }
    ensures { result.now ≡ drop (len + 1) bytes.now }
{
    if len == bytes.len() {
        behind(bytes, len)
    } else {
        behind(bytes, len + 1)
    }
}

/// Returns the first part of a line, and what follows it and its blank.
fn first_part(line: &[u8]) -> (&[u8], &[u8])
    ensures part { result.0.now ≡ take (prefix_len is_solid line.now) line.now }
    ensures rest { result.1.now ≡ drop (prefix_len is_solid line.now + 1) line.now }
{
    let len = part_len(line);
    let (part, _) = line.split_at(len);
    (part, behind_blank(line, len))
}

/// Returns the words of a line, which blanks separate.
pub fn words_of(alloc: Global, line: &[u8]) -> Result<Vec<Word<'_>>, AllocError>
    ensures { IfOk result (λ words. words.items ≡ spec.words line.now) }
{
    let mut words = Vec::new(alloc);
    let mut rest = line;
    'parts: while !rest.is_empty() {
        let (part, behind) = first_part(rest);
        if !part.is_empty() {
            words.push(Word::new(part))?;
        }
        rest = behind;
    }
    Ok(words)
}

/// Returns the index of the first word that is spelled so.
pub fn place_of(words: &[Word<'_>], text: &[u8]) -> Option<usize>
    ensures place { result ≡ position (bytes_eq text.now) words.now }
    ensures within { IfSome result (λ n. n < length words.now) }
{
    words.iter().position(|word| spells(text, word.bytes()))
}

/// Returns the words behind the first one that is spelled so.
pub fn after<'w, 'a>(words: &'w [Word<'a>], text: &[u8]) -> Option<&'w [Word<'a>]>
    ensures { option_map (λ rest. rest.now) result ≡ spec.after text.now words.now }
{
    let place = place_of(words, text)?;
    Some(&words[place + 1..])
}
