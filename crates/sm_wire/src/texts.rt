//! The files after a `reload` line.

use sm_values::drop_fields;
use std::marker::Model;

/// A `reload` line with the files that follow it.
pub struct PolicyTexts {
    expected: u64,
    rules: Vec<u8>,
    contexts: Vec<u8>,
}

impl Drop for PolicyTexts {
    fn drop(self) {
        drop_fields!(self: expected, rules, contexts);
    }
}

impl Model for PolicyTexts {
    ghost use Rattle.sm_wire.specs.Texts.{Texts};

    ghost Value = { Texts };

    ghost view = { λ t. record { expected = t.expected; rules = t.rules.items; contexts = t.contexts.items } };
}

impl PolicyTexts {
    ghost use Rattle.std.specs.Prelude.{◌≡◌};

    /// Makes the item of a `reload` that expects this version.
    pub fn new(expected: u64, rules: Vec<u8>, contexts: Vec<u8>) -> PolicyTexts
        ensures { result ≡ record { expected = expected; rules = rules.items; contexts = contexts.items } }
    {
        PolicyTexts {
            expected,
            rules,
            contexts,
        }
    }

    /// Returns the version that the policy in force must have, and the two files.
    pub fn into_files(self) -> (u64, Vec<u8>, Vec<u8>)
        ensures { (result.0 ≡ self.expected) × (result.1.items ≡ self.rules) × (result.2.items ≡ self.contexts) }
    {
        let PolicyTexts {
            expected,
            rules,
            contexts,
        } = self;
        (expected, rules, contexts)
    }

    /// Returns the version that the policy in force must have.
    pub fn expected(&self) -> u64
        ensures { result ≡ self.now.expected }
    {
        self.expected
    }

    /// Returns the policy source.
    pub fn rules(&self) -> &[u8]
        ensures { result.now ≡ self.now.rules }
    {
        self.rules.as_slice()
    }

    /// Returns the contexts file.
    pub fn contexts(&self) -> &[u8]
        ensures { result.now ≡ self.now.contexts }
    {
        self.contexts.as_slice()
    }
}
