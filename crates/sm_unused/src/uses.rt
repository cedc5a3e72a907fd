//! What tells whether attributes, types and keys are of use.

ghost use Rattle.std.specs.Prelude.{◌≡◌, true, IfOk};
ghost use Rattle.sm_types.specs.Denoting.{declares};
ghost use Rattle.sm_unused.specs.Declarations as spec;
ghost use Rattle.sm_unused.specs.Rows.{AreUses};

use crate::adders::added_types;
use crate::used_types::used_types;
use crate::words::{given_attributes, rule_words};
use sm_bits::BitRow;
use sm_policy::Prepared;
use sm_ruletext::Statement;
use sm_types::NameSet;
use sm_values::{Context, drop_fields, spells, valid_name};
use std::alloc::{AllocError, Global};

/// The words and types of a policy that are of use.
pub struct Uses {
    /// The words of the kept rules' sources and targets.
    pub words: NameSet,
    /// The attributes that types have.
    pub given: NameSet,
    /// The types in allow and dontaudit rules and of labels, and those that are permissive.
    pub reached: BitRow,
    /// The types such that some source may add a service whose label has the type.
    pub added: BitRow,
}

impl Drop for Uses {
    fn drop(self) {
        drop_fields!(self: words, given, reached, added);
    }
}

impl Uses {
    /// Finds them in a policy, whose source has these statements.
    pub fn find(
        alloc: Global,
        policy: &Prepared,
        statements: &[Statement],
    ) -> Result<Uses, AllocError>
        requires { statements.now ≡ policy.now.statements }
        ensures { IfOk result (AreUses policy.now) }
    {
        Ok(Uses {
            words: rule_words(alloc, statements)?,
            given: given_attributes(alloc, statements)?,
            reached: used_types(alloc, policy)?,
            added: added_types(alloc, policy)?,
        })
    }

    /// Returns whether an attribute is of use.
    #[tactic(auto, unfolding(crate::specs::Declarations::is_used_attribute))]
    pub fn has_attribute(&self, policy: &Prepared, name: &[u8]) -> bool
        requires { AreUses policy.now self.now }
        ensures { result ≡ spec.is_used_attribute policy.now name.now }
    {
        self.given.contains(name) && self.words.contains(name)
    }

    /// Returns whether a declared type is of use.
    #[tactic(auto, unfolding(crate::specs::Declarations::is_used_type))]
    pub fn has_type(&self, policy: &Prepared, name: &[u8]) -> bool
        requires uses { AreUses policy.now self.now }
        requires declared { declares policy.now.statements name.now ≡ true }
        ensures { result ≡ spec.is_used_type policy.now name.now }
    {
        match policy.type_index(name) {
            Some(index) => self.reached.has(usize::from(index)) || self.words.contains(name),
            None => self.words.contains(name),
        }
    }

    /// Returns whether some source may add a service whose label has a type.
    fn is_added(&self, policy: &Prepared, name: &[u8]) -> bool
        requires { AreUses policy.now self.now }
        ensures { result ≡ spec.some_adds policy.now name.now }
    {
        match policy.type_index(name) {
            Some(index) => self.added.has(usize::from(index)),
            None => false,
        }
    }

    /// Returns whether the entry of a key and a context is of use.
    #[tactic(auto, unfolding(crate::specs::Declarations::is_used_key))]
    pub fn has_entry(&self, policy: &Prepared, key: &[u8], context: &Context) -> bool
        requires { AreUses policy.now self.now }
        ensures { result ≡ spec.is_used_key policy.now key.now context.now }
    {
        spells(key, b"*") || (valid_name(key) && self.is_added(policy, context.type_name()))
    }
}
