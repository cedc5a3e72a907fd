//! The words that begin a statement, and `self`.

ghost use Rattle.std.specs.Prelude.{◌≡◌};
ghost use Rattle.sm_ruletext.specs.Words as spec;

use crate::RuleKind;
use sm_values::spells;

/// The kind of a statement, by its first word.
#[derive(Clone, Copy)]
pub enum Keyword {
    Attribute,
    Types,
    Typeattribute,
    Rule(RuleKind),
    Permissive,
    Skipped,
    Unknown,
}

/// Returns whether a word is `self`.
pub fn is_self(word: &[u8]) -> bool
    ensures { result ≡ spec.is_self word.now }
{
    spells(word, b"self")
}

#[tactic(auto, unfolding(crate::specs::Words::is_skipped))]
fn is_skipped(word: &[u8]) -> bool
    ensures { result ≡ spec.is_skipped word.now }
{
    spells(word, b"auditallow")
        || spells(word, b"type_transition")
        || spells(word, b"expandattribute")
        || spells(word, b"allowxperm")
        || spells(word, b"auditallowxperm")
        || spells(word, b"dontauditxperm")
        || spells(word, b"neverallowxperm")
}

/// Returns the kind of a statement that begins with this word.
#[tactic(auto, unfolding(crate::specs::Words::keyword_of))]
pub fn keyword_of(word: &[u8]) -> Keyword
    ensures { result ≡ spec.keyword_of word.now }
{
    if spells(word, b"attribute") {
        Keyword::Attribute
    } else if spells(word, b"type") {
        Keyword::Types
    } else if spells(word, b"typeattribute") {
        Keyword::Typeattribute
    } else if spells(word, b"allow") {
        Keyword::Rule(RuleKind::Allow)
    } else if spells(word, b"neverallow") {
        Keyword::Rule(RuleKind::Neverallow)
    } else if spells(word, b"dontaudit") {
        Keyword::Rule(RuleKind::Dontaudit)
    } else if spells(word, b"permissive") {
        Keyword::Permissive
    } else if is_skipped(word) {
        Keyword::Skipped
    } else {
        Keyword::Unknown
    }
}
