//! Cuts a source into tokens, one by one.

ghost use Rattle.std.specs.Prelude.{◌≡◌, ◌≢◌, ◌<◌, ◌≤◌, ◌+◌, ◌^◌, ◌++◌, ◌∷◌, [], false, length, drop, slice_index, option_to_list};
ghost use Rattle.std.specs.Prelude.{IfSome, IfNone, IfOk};
ghost use Rattle.std.specs.List.{prefix_len};
ghost use Rattle.sm_ruletext.specs.Lexing as spec;
ghost use Rattle.sm_ruletext.specs.Grammar as grammar;
ghost use Rattle.sm_ruletext.specs.Items.{parts_of, set_with};

use crate::Set;
use crate::items::Items;
use crate::set_pool::SetPool;
use crate::token::{Token, TokenKind};
use crate::word::is_word_byte;
use crate::words::Words;
use sm_values::{MOST_TEXT_BYTES, Name, Word, behind, is_blank, line_len};
use std::alloc::{AllocError, Global};
use std::marker::Model;

fn word_len(bytes: &[u8]) -> usize
    ensures value { result ≡ prefix_len spec.is_word_byte bytes.now }
    ensures within { result ≤ length bytes.now }
{
    bytes.iter().take_while(|b| is_word_byte(**b)).count()
}

fn until_quote(bytes: &[u8]) -> usize
    ensures value { result ≡ prefix_len spec.is_quoted bytes.now }
    ensures within { result ≤ length bytes.now }
{
    bytes
        .iter()
        .take_while(|b| !(**b == b'"' || **b == b'\n'))
        .count()
}

#[tactic(auto, unfolding(crate::specs::Lexing::quoted_len))]
fn quoted_len(bytes: &[u8]) -> usize
    ensures value { result ≡ spec.quoted_len bytes.now }
    ensures within { result ≤ length bytes.now }
{
    let end = until_quote(bytes);
    if end < bytes.len() && bytes[end] == b'"' {
        end + 1
    } else {
        0
    }
}

fn mark<'a>(b: u8) -> TokenKind<'a>
    ensures { result ≡ spec.mark b }
{
    match b {
        b';' => TokenKind::Semicolon,
        b',' => TokenKind::Comma,
        b':' => TokenKind::Colon,
        b'{' => TokenKind::Open,
        b'}' => TokenKind::Close,
        b'*' => TokenKind::Star,
        b'~' => TokenKind::Tilde,
        b'-' => TokenKind::Dash,
        _ => TokenKind::Other,
    }
}

/// Returns the first token, and the number of its bytes.
#[tactic(auto, unfolding(crate::specs::Lexing::kind_at, crate::specs::Lexing::len_after))]
fn first(bytes: &[u8]) -> (TokenKind<'_>, usize)
    requires { 0 < length bytes.now }
    ensures kind { result.0 ≡ spec.kind_at (slice_index bytes.now 0) (drop 1 bytes.now) }
    ensures len { result.1 ≡ 1 + spec.len_after (slice_index bytes.now 0) (drop 1 bytes.now) }
    ensures within { result.1 ≤ length bytes.now }
{
    let b = bytes[0];
    let after = behind(bytes, 1);
    if b.is_ascii_alphabetic() {
        let len = word_len(after) + 1;
        (TokenKind::Word(Word::new(&bytes[..len])), len)
    } else if b == b'"' {
        (mark(b), quoted_len(after) + 1)
    } else {
        (mark(b), 1)
    }
}

/// Skips white space and comments, and returns the rest with its line.
fn skip_blanks(bytes: &[u8], start: u32) -> (u32, &[u8])
    requires { start + length bytes.now < 2 ^ 32 }
    ensures same { spec.tokens 0 result.0 result.1.now ≡ spec.tokens 0 start bytes.now }
    ensures stops { spec.IsAtToken result.1.now }
    ensures small { result.0 + length result.1.now ≤ start + length bytes.now }
{
    let mut rest = bytes;
    let mut line = start;
    'blanks: while !rest.is_empty() {
        let b = rest[0];
        let after = behind(rest, 1);
        if b == b'\n' {
            line += 1;
            rest = after;
        } else if is_blank(b) {
            rest = after;
        } else if b == b'#' {
            rest = behind(after, line_len(after));
        } else {
            break;
        }
    }
    (line, rest)
}

/// The remaining tokens of a source, and its words and sets so far, which contracts don't see.
#[derive(Drop)]
pub struct Tokens<'a> {
    rest: &'a [u8],
    line: u32,
    words: Words,
    sets: SetPool,
}

impl<'a> Model for Tokens<'a> {
    ghost use Rattle.std.specs.Prelude.{◌+◌, ◌<◌, ◌^◌, length};
    ghost use Rattle.sm_ruletext.specs.Lexing as spec;

    ghost Value = { spec.Tokens };

    ghost view = { λ t. spec.tokens 0 t.line t.rest.now };

    ghost invariant = { λ t. t.line + length t.rest.now < 2 ^ 32 };
}

impl<'a> Tokens<'a> {
    /// Makes an iterator over the tokens of a source.
    pub fn new(alloc: Global, text: &'a [u8]) -> Tokens<'a>
        requires { length text.now ≤ MOST_TEXT_BYTES }
        ensures { result ≡ spec.tokens 0 1 text.now }
    {
        Tokens {
            rest: text,
            line: 1,
            words: Words::new(alloc),
            sets: SetPool::new(alloc),
        }
    }

    /// Takes the first token.
    pub fn take(&mut self) -> Option<Token<'a>>
        ensures taken { self.old ≡ option_to_list result ++ self.new }
        ensures none { IfNone result (self.old ≡ []) }
        ensures few { length self.old < 2 ^ 32 }
    {
        let (line, rest) = skip_blanks(self.rest, self.line);
        self.line = line;
        if rest.is_empty() {
            self.rest = rest;
            return None;
        }
        let (kind, len) = first(rest);
        self.rest = behind(rest, len);
        Some((line, kind))
    }

    /// Returns the name of a word.
    pub fn name(&mut self, alloc: Global, bytes: &[u8]) -> Result<Name, AllocError>
        ensures name { IfOk result (λ n. n ≡ bytes.now) }
        ensures same { self.new ≡ self.old }
    {
        self.words.name(alloc, bytes)
    }

    /// Returns the set of one word.
    pub fn word_set(&mut self, alloc: Global, line: u32, word: &[u8]) -> Result<Set, AllocError>
        ensures set { IfOk result (λ s. s ≡ set_with line (parts_of false false (word.now ∷ []) [])) }
        ensures same { self.new ≡ self.old }
    {
        self.sets.word(alloc, &mut self.words, line, word)
    }

    /// Returns the set of these items.
    pub fn set(
        &mut self,
        alloc: Global,
        line: u32,
        complement: bool,
        items: &Items,
    ) -> Result<Set, AllocError>
        ensures set { IfOk result (λ s. s ≡ (grammar.set_of line complement items.now).0) }
        ensures same { self.new ≡ self.old }
    {
        self.sets
            .set(alloc, &mut self.words, line, complement, items)
    }
}
