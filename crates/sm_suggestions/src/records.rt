//! The record of a denial, as a line of a log has it.

ghost use Rattle.std.specs.Prelude.{◌≡◌};
ghost use Rattle.std.specs.List.{list_any};
ghost use Rattle.std.specs.Str.{bytes_eq};
ghost use Rattle.sm_suggestions.specs.Records as spec;

use crate::fields::{only_value, optional_value, type_field};
use crate::log_words::{after, place_of};
use sm_rules::{class_at, perm_at};
use sm_values::{Word, drop_fields, spells};
use std::marker::Model;

/// The record of a denial. Contracts see its parts.
pub struct Record<'w, 'a> {
    /// The type of the source.
    pub source: Word<'a>,
    /// The type of the target.
    pub target: Word<'a>,
    /// The word for the class.
    class: Word<'a>,
    /// The words between the braces.
    perms: &'w [Word<'a>],
    /// The name of the service, as the record has it.
    pub name: Option<Word<'a>>,
}

impl<'w, 'a> Drop for Record<'w, 'a> {
    fn drop(self) {
        drop_fields!(self: source, target, class, perms, name);
    }
}

impl<'w, 'a> Model for Record<'w, 'a> {
    ghost use Rattle.sm_suggestions.specs.Records.{Record as TheRecord};

    ghost Value = { TheRecord };

    ghost view = { λ r. record {
      source = r.source;
      target = r.target;
      class = r.class;
      perms = r.perms.now;
      name = r.name;
    } };
}

impl<'w, 'a> Record<'w, 'a> {
    ghost use Rattle.sm_suggestions.specs.Records.{has_perm};

    /// Returns whether the record has the permission of a number, with its class.
    pub fn has_perm(&self, bit: u32) -> bool
        ensures { result ≡ has_perm self.now bit }
    {
        spells(self.class.bytes(), class_at(bit).word())
            && has_word(self.perms, perm_at(bit).word().unwrap_or(b""))
    }
}

/// Returns whether a word is spelled so.
fn has_word(words: &[Word<'_>], text: &[u8]) -> bool
    ensures { result ≡ list_any (bytes_eq text.now) words.now }
{
    words.iter().any(|word| spells(text, word.bytes()))
}

/// Returns the record with these permissions, whose fields are among the words behind them.
#[tactic(auto, unfolding(crate::specs::Records::record_with))]
fn record_with<'w, 'a>(perms: &'w [Word<'a>], fields: &[Word<'a>]) -> Option<Record<'w, 'a>>
    ensures { result ≡ spec.record_with perms.now fields.now }
{
    let source = type_field(fields, b"scontext=")?;
    let target = type_field(fields, b"tcontext=")?;
    let class = only_value(fields, b"tclass=")?;
    let name = optional_value(fields, b"name=")?;
    Some(Record {
        source,
        target,
        class,
        perms,
        name,
    })
}

/// Returns the record whose permissions begin here.
fn record_from<'w, 'a>(words: &'w [Word<'a>]) -> Option<Record<'w, 'a>>
    ensures { result ≡ spec.record_from words.now }
{
    let end = place_of(words, b"}")?;
    record_with(&words[..end], &words[end + 1..])
}

/// Returns the record that the words of a line have: `avc:`, `denied`, `{`, permissions and `}`, in this order, and then
/// once each `scontext=CONTEXT`, `tcontext=CONTEXT` and `tclass=CLASS`, and at most once `name=NAME`. Other words don't
/// matter.
#[tactic(auto, unfolding(crate::specs::Records::record_of))]
pub fn record_of<'w, 'a>(words: &'w [Word<'a>]) -> Option<Record<'w, 'a>>
    ensures { result ≡ spec.record_of words.now }
{
    let words = after(words, b"avc:")?;
    let words = after(words, b"denied")?;
    let words = after(words, b"{")?;
    record_from(words)
}
