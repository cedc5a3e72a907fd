//! The fields of a line, one after another.

ghost use Rattle.std.specs.Prelude.{◌≡◌, ◌≢◌, ◌<◌, ◌≤◌, ◌+◌, ◌^◌, ◌∷◌, [], true, false, length, take, IsTrue, IfSome};
ghost use Rattle.std.specs.Prelude.{MatchOption, MatchResult};
ghost use Rattle.sm_wire.specs.declared.read_error.ReadError.TheVariants.{Malformed};
ghost use Rattle.sm_wire.specs.LineTable.{Field};
ghost use Rattle.sm_wire.specs.Grammar.{has_fields};
ghost use Rattle.sm_wire.specs.Fields.{fields_of, fields_left, first_is, is_spaceless, HasNoSpace, IsFirstSpace};

use crate::read_error::ReadError;
use std::marker::Model;

/// The fields of a line that aren't read yet: the parts between single spaces. Contracts see the list of their bytes.
#[derive(Drop)]
pub struct Fields<'a> {
    rest: Option<&'a [u8]>,
}

impl<'a> Model for Fields<'a> {
    ghost use Rattle.std.specs.Prelude.{List, ℕ};
    ghost use Rattle.sm_wire.specs.Fields.{fields_left};

    ghost Value = { List (List ℕ) };

    ghost view = { λ f. fields_left f.rest };
}

impl<'a> Fields<'a> {
    /// Returns the fields of a line.
    pub fn new(line: &'a [u8]) -> Fields<'a>
        ensures { result ≡ fields_of line.now }
    {
        Fields { rest: Some(line) }
    }

    /// Returns the next field. Between two spaces there is an empty one. An error if no field is left.
    pub fn field(&mut self) -> Result<&'a [u8], ReadError>
        ensures { MatchResult result (λ f. self.old ≡ f.now ∷ self.new) (λ e. (e ≡ Malformed) × (self.old ≡ [])) }
    {
        let Some(rest) = self.rest else {
            return Err(ReadError::Malformed);
        };
        match space_in(rest) {
            Some(i) => {
                self.rest = Some(&rest[i + 1..]);
                Ok(&rest[..i])
            }
            None => {
                self.rest = None;
                Ok(rest)
            }
        }
    }

    /// Takes the next field if it is this word, which has no space. Otherwise nothing changes. The bytes are compared
    /// without a look for the end of the field.
    #[inline(always)]
    pub fn takes(&mut self, word: &[u8]) -> bool
        requires { IsTrue (is_spaceless word.now) }
        ensures taken { result ≡ true → self.old ≡ word.now ∷ self.new }
        ensures same { result ≡ false → self.new ≡ self.old }
        ensures other { result ≡ false → first_is word.now self.old ≡ false }
    {
        let Some(bytes) = self.rest else {
            return false;
        };
        if !begins_with(bytes, word) {
            return false;
        }
        if bytes.len() == word.len() {
            self.rest = None;
            return true;
        }
        if bytes[word.len()] != b' ' {
            return false;
        }
        self.rest = Some(&bytes[word.len() + 1..]);
        true
    }

    /// Returns the bytes of the fields that are left, if any are.
    #[inline(always)]
    pub fn rest(&self) -> Option<&'a [u8]>
        ensures { self.now ≡ fields_left result }
    {
        self.rest
    }

    /// Checks that no field follows.
    pub fn end(&self) -> Result<(), ReadError>
        ensures { MatchResult result (λ _. self.now ≡ [])
            (λ e. (e ≡ Malformed) × (has_fields [] false self.now ≡ false)) }
    {
        match self.rest {
            Some(_) => Err(ReadError::Malformed),
            None => Ok(()),
        }
    }
}

// Returns the index of the first space. Each pass of the first loop compares four bytes.
#[inline(always)]
fn space_in(bytes: &[u8]) -> Option<usize>
    ensures small { IfSome result (λ i. i + 1 < 2 ^ 64) }
    ensures place { MatchOption result (HasNoSpace (length bytes.now) bytes.now) (λ i. IsFirstSpace bytes.now i) }
{
    let mut i = 0;
    while bytes.len() - i >= 4 {
        if bytes[i] == b' ' {
            return Some(i);
        }
        if bytes[i + 1] == b' ' {
            return Some(i + 1);
        }
        if bytes[i + 2] == b' ' {
            return Some(i + 2);
        }
        if bytes[i + 3] == b' ' {
            return Some(i + 3);
        }
        i += 4;
    }
    while i < bytes.len() {
        if bytes[i] == b' ' {
            return Some(i);
        }
        i += 1;
    }
    None
}

// Returns whether the word is at the front. A loop, since a comparison of slices isn't inlined.
#[inline(always)]
fn begins_with(bytes: &[u8], word: &[u8]) -> bool
    ensures same { result ≡ true → take (length word.now) bytes.now ≡ word.now }
    ensures long { result ≡ true → length word.now ≤ length bytes.now }
    ensures other { result ≡ false → take (length word.now) bytes.now ≢ word.now }
{
    if bytes.len() < word.len() {
        return false;
    }
    for i in 0..word.len() {
        if bytes[i] != word[i] {
            return false;
        }
    }
    true
}
