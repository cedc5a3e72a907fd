//! What a policy says now of an access that was denied.

ghost use Rattle.std.specs.Prelude.{◌≡◌, ◌<◌, ◌++◌, IfOk, OnOk, option_map};
ghost use Rattle.sm_suggestions.specs.Rulings.{AreRulings};
ghost use Rattle.sm_suggestions.specs.Verdicts as spec;

use crate::judging::verdict_on;
use crate::rulings::Rulings;
use sm_policy::Prepared;
use sm_rules::{class_at, perm_at};
use sm_values::{Word, push_access, push_name, push_numbered};
use std::alloc::{AllocError, Global};

/// What a policy says of an access: the first of these that is so.
#[derive(Drop)]
pub enum Verdict<'a> {
    /// No type has this name. The source's is looked up first.
    Unknown(Word<'a>),
    /// The allow rule of this line, the first one that does, grants the access.
    Allowed(u32),
    /// The neverallow rule of this line, the first one that does, covers the access.
    Forbidden(u32),
    /// This name has no key of its own in the contexts file, so that it wants a label before a rule.
    Default(Word<'a>),
    /// No rule names the access.
    Missing,
}

impl<'a> Verdict<'a> {
    /// Returns whether a rule grants the access.
    pub fn is_allowed(&self) -> bool
        ensures { result ≡ spec.is_allowed self.now }
    {
        matches!(self, Verdict::Allowed(_))
    }

    /// Appends the verdict as words.
    fn push(&self, alloc: Global, text: &mut Vec<u8>) -> Result<(), AllocError>
        ensures { OnOk result (text.new.items ≡ text.old.items ++ spec.verdict_words self.now) }
    {
        match self {
            Verdict::Unknown(word) => {
                text.extend_from_slice(b"unknown ")?;
                text.extend_from_slice(word.bytes())
            }
            Verdict::Allowed(line) => push_numbered(text, b"allowed ", u64::from(*line)),
            Verdict::Forbidden(line) => push_numbered(text, b"forbidden ", u64::from(*line)),
            Verdict::Default(name) => {
                text.extend_from_slice(b"default ")?;
                push_name(alloc, text, name.bytes())
            }
            Verdict::Missing => text.extend_from_slice(b"missing"),
        }
    }
}

/// A suggestion for an access, without the number of its records.
#[derive(Drop)]
pub struct Suggestion {
    /// The verdict and the words of the access.
    pub text: Vec<u8>,
    /// Whether a rule grants the access.
    pub is_allowed: bool,
}

/// Returns the suggestion for an access, whose permission is given by its number, to the service of this name.
#[tactic(auto, unfolding(crate::specs::Verdicts::suggestion))]
pub fn suggestion_for(
    alloc: Global,
    policy: &Prepared,
    rulings: &mut Rulings,
    source: &[u8],
    target: &[u8],
    name: Option<&[u8]>,
    bit: u32,
) -> Result<Suggestion, AllocError>
    requires bit { bit < 7 }
    requires rulings { AreRulings policy.now rulings.old.by_number.entries }
    ensures rulings { OnOk result (AreRulings policy.now rulings.new.by_number.entries) }
    ensures text { IfOk result (λ s. s.text.items
        ≡ spec.suggestion policy.now source.now target.now (option_map (λ n. n.now) name.entry) bit) }
    ensures allowed { IfOk result (λ s. s.is_allowed ≡ spec.is_allowed
        (spec.verdict policy.now source.now target.now (option_map (λ n. n.now) name.entry) bit)) }
{
    let verdict = verdict_on(policy, rulings, source, target, name, bit)?;
    let mut text = Vec::new(alloc);
    verdict.push(alloc, &mut text)?;
    text.extend_from_slice(b" ")?;
    push_access(&mut text, source, target, class_at(bit), perm_at(bit))?;
    Ok(Suggestion {
        text,
        is_allowed: verdict.is_allowed(),
    })
}
