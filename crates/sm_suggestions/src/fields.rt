//! The fields of a record: words `KEY=VALUE`.

ghost use Rattle.std.specs.Prelude.{◌≡◌, ◌≤◌, length, drop, option_map};
ghost use Rattle.std.specs.List.{prefix_len};
ghost use Rattle.sm_values.specs.Contexts.{behind_part, is_in_part, type_of};
ghost use Rattle.sm_suggestions.specs.Finding.{found_values};
ghost use Rattle.sm_suggestions.specs.Records as spec;

use sm_values::{Word, behind, is_context, spells};

/// Returns the value of a word, if it begins with the key.
fn value_in<'a>(word: &Word<'a>, key: &[u8]) -> Option<Word<'a>>
    ensures { result ≡ spec.value_in key.now word.now }
{
    let bytes = word.bytes();
    if bytes.len() < key.len() {
        return None;
    }
    let (front, value) = bytes.split_at(key.len());
    if spells(key, front) {
        Some(Word::new(value))
    } else {
        None
    }
}

/// Returns the first value of a key, and the words behind it.
fn first_value<'w, 'a>(words: &'w [Word<'a>], key: &[u8]) -> Option<(Word<'a>, &'w [Word<'a>])>
    ensures { spec.values key.now words.now ≡ found_values key.now result }
{
    for i in 0..words.len() {
        if let Some(value) = value_in(&words[i], key) {
            return Some((value, &words[i + 1..]));
        }
    }
    None
}

/// Returns whether some word has a value of a key.
fn has_value(words: &[Word<'_>], key: &[u8]) -> bool
    ensures { result ≡ spec.has_value key.now words.now }
{
    first_value(words, key).is_some()
}

/// Returns the value of a key, if there is exactly one.
pub fn only_value<'a>(words: &[Word<'a>], key: &[u8]) -> Option<Word<'a>>
    ensures { result ≡ spec.only (spec.values key.now words.now) }
{
    let (value, rest) = first_value(words, key)?;
    if has_value(rest, key) {
        None
    } else {
        Some(value)
    }
}

/// Returns the value of a key if there is one. `None` if there are several.
pub fn optional_value<'a>(words: &[Word<'a>], key: &[u8]) -> Option<Option<Word<'a>>>
    ensures { result ≡ spec.at_most_one (spec.values key.now words.now) }
{
    match first_value(words, key) {
        Some((value, rest)) => {
            if has_value(rest, key) {
                None
            } else {
                Some(Some(value))
            }
        }
        None => Some(None),
    }
}

/// Returns the length of the first part of a context.
fn part_len(bytes: &[u8]) -> usize
    ensures value { result ≡ prefix_len is_in_part bytes.now }
    ensures within { result ≤ length bytes.now }
{
    bytes.iter().take_while(|b| **b != b':').count()
}

/// Returns what follows the first part of a context and its colon, or nothing if there is no colon.
fn behind_part(bytes: &[u8]) -> &[u8]
    ensures { result.now ≡ behind_part bytes.now }
{
    let len = part_len(bytes);
    if len == bytes.len() {
        return behind(bytes, len);
    }
    behind(bytes, len + 1)
}

/// Returns the type of a context.
fn type_of(text: &[u8]) -> &[u8]
    ensures { result.now ≡ type_of text.now }
{
    let rest = behind_part(behind_part(text));
    let (name, _) = rest.split_at(part_len(rest));
    name
}

/// Returns the type of the only context with a key.
pub fn type_field<'a>(words: &[Word<'a>], key: &[u8]) -> Option<Word<'a>>
    ensures { result ≡ spec.type_field key.now words.now }
{
    let value = only_value(words, key)?;
    if is_context(value.bytes()) {
        Some(Word::new(type_of(value.bytes())))
    } else {
        None
    }
}
