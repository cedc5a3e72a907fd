//! Words that name a type or an attribute.

ghost use Rattle.std.specs.Prelude.{◌≡◌};
ghost use Rattle.std.specs.List.{list_any};
ghost use Rattle.std.specs.Str.{bytes_eq};
ghost use Rattle.sm_types.specs.Denoting.{attributes, knows as is_known};
ghost use Rattle.sm_listings.specs.Listed as spec;

use crate::lines::attribute_name;
use sm_policy::Prepared;
use sm_values::{Word, spells};

/// Returns whether a name is asked for: each is without a word.
pub fn is_wanted(word: &Option<Word<'_>>, name: &[u8]) -> bool
    ensures { result ≡ spec.is_wanted word.now name.now }
{
    match word {
        Some(word) => spells(word.bytes(), name),
        None => true,
    }
}

/// Returns whether a policy declares the attribute.
fn knows_attribute(policy: &Prepared, word: &[u8]) -> bool
    ensures { result ≡ list_any (bytes_eq word.now) (attributes policy.now.statements) }
{
    let types = policy.types();
    for a in 0..types.attribute_count() {
        if spells(word, attribute_name(types, a)) {
            return true;
        }
    }
    false
}

/// Returns whether a policy declares a type or an attribute of this name.
pub fn knows(policy: &Prepared, word: &[u8]) -> bool
    ensures { result ≡ is_known policy.now.statements word.now }
{
    policy.types().index(word).is_some() || knows_attribute(policy, word)
}
