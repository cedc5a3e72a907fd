//! Sets of a rule.

ghost use Rattle.std.specs.Prelude.{◌≡◌, ◌∷◌, [], false, IsTrue};
ghost use Rattle.sm_ruletext.specs.Items.{SameItems, parts_of, set_with};
ghost use Rattle.sm_ruletext.specs.Sets as spec;

use crate::items::Items;
use sm_values::{Names, Word, drop_fields, spells};
use std::alloc::{AllocError, Global};
use std::marker::Model;
use std::rc::Rc;

/// Returns whether two lists have the same names.
pub fn same_names(a: &Names, b: &Names) -> bool
    ensures { IsTrue result → a.now ≡ b.now }
{
    let a = a.list();
    let b = b.list();
    if a.len() != b.len() {
        return false;
    }
    for i in 0..a.len() {
        if !spells(a[i].bytes(), b[i].bytes()) {
            return false;
        }
    }
    true
}

/// Returns whether names are these words.
fn names_spell(names: &Names, words: &[Word]) -> bool
    ensures { IsTrue result → names.now ≡ words.now }
{
    let names = names.list();
    if names.len() != words.len() {
        return false;
    }
    for i in 0..words.len() {
        if !spells(names[i].bytes(), words[i].bytes()) {
            return false;
        }
    }
    true
}

/// Returns whether a set of these items, as one of classes or permissions, has this name.
#[tactic(auto, unfolding(crate::specs::Sets::selects))]
fn chooses(all: bool, complement: bool, plus: &Names, minus: &Names, name: &[u8]) -> bool
    ensures { result ≡ spec.selects (set_with 0 (parts_of all complement plus.now minus.now)) name.now }
{
    let among = (all || plus.contains(name)) && !minus.contains(name);
    if complement { !among } else { among }
}

/// What sets with the same items have in common.
pub struct SetParts {
    number: u32,
    all: bool,
    complement: bool,
    plus: Names,
    minus: Names,
    /// Whether the set, as one of classes, has one of the two that servicemanager checks.
    has_kept: bool,
}

impl Model for SetParts {
    ghost use Rattle.std.specs.Prelude.{◌≡◌};
    ghost use Rattle.sm_ruletext.specs.Items.{Parts, parts_of, set_with};
    ghost use Rattle.sm_ruletext.specs.Sets.{selects_kept};

    ghost Value = { Parts };

    ghost view = { λ p. parts_of p.all p.complement p.plus p.minus };

    ghost invariant = { λ p. p.has_kept
        ≡ selects_kept (set_with 0 (parts_of p.all p.complement p.plus p.minus)) };
}

impl Drop for SetParts {
    fn drop(self) {
        drop_fields!(self: number, all, complement, plus, minus, has_kept);
    }
}

impl SetParts {
    /// Makes the parts of a set.
    pub fn new(number: u32, all: bool, complement: bool, plus: Names, minus: Names) -> SetParts
        ensures { result ≡ parts_of all complement plus minus }
    {
        let has_kept = chooses(all, complement, &plus, &minus, b"service_manager")
            || chooses(all, complement, &plus, &minus, b"binder");
        SetParts {
            number,
            all,
            complement,
            plus,
            minus,
            has_kept,
        }
    }

    /// Returns whether these are the parts of a set of one word.
    pub fn is_word(&self, word: &[u8]) -> bool
        ensures { IsTrue result → self.now ≡ parts_of false false (word.now ∷ []) [] }
    {
        if self.all || self.complement {
            return false;
        }
        match (self.plus.list(), self.minus.list()) {
            ([name], []) => spells(name.bytes(), word),
            _ => false,
        }
    }

    /// Returns whether these are the parts of a set of these items.
    pub fn has_items(&self, complement: bool, items: &Items) -> bool
        ensures { IsTrue result
            → self.now ≡ parts_of items.now.all complement items.now.plus items.now.minus }
    {
        self.all == items.has_all()
            && self.complement == complement
            && names_spell(&self.plus, items.plus())
            && names_spell(&self.minus, items.minus())
    }

    fn has_kept(&self) -> bool
        ensures { result ≡ spec.selects_kept (set_with 0 self.now) }
    {
        self.has_kept
    }

    fn number(&self) -> u32 {
        self.number
    }

    fn has_star(&self) -> bool
        ensures { result ≡ self.now.all }
    {
        self.all
    }

    fn is_complement(&self) -> bool
        ensures { result ≡ self.now.complement }
    {
        self.complement
    }

    fn plus(&self) -> &Names
        ensures { result.now ≡ self.now.plus }
    {
        &self.plus
    }

    fn minus(&self) -> &Names
        ensures { result.now ≡ self.now.minus }
    {
        &self.minus
    }
}

/// A set of types, of classes or of permissions, as written. Its items may be shared with other sets.
pub struct Set {
    parts: Rc<SetParts, Global>,
    line: u32,
}

impl Model for Set {
    ghost use Rattle.sm_ruletext.specs.Items.{Set, set_with};

    ghost Value = { Set };

    ghost view = { λ s. set_with s.line s.parts.value };
}

impl Drop for Set {
    fn drop(self) {
        let Set { parts: _, line: _ } = self;
    }
}

impl Clone for Set {
    ghost is_clone = { λ s copy. copy ≡ s };

    /// Returns another set with the same items.
    fn clone(&self) -> Result<Set, AllocError> {
        let parts = self.parts.clone()?;
        Ok(Set {
            parts,
            line: self.line,
        })
    }
}

impl Set {
    /// Makes the set of these parts on a line.
    pub fn of(line: u32, parts: Rc<SetParts, Global>) -> Set
        ensures { result ≡ set_with line parts.value }
    {
        Set { parts, line }
    }

    /// Returns the line of its statement.
    pub fn line(&self) -> u32
        ensures { result ≡ self.now.line }
    {
        self.line
    }

    /// Returns a number that sets with the same items mostly have in common. Other sets may have it, too.
    pub fn number(&self) -> u32 {
        self.parts.number()
    }

    /// Returns whether `*` is among its items.
    pub fn has_star(&self) -> bool
        ensures { result ≡ self.now.all }
    {
        self.parts.has_star()
    }

    /// Returns whether it begins with `~`.
    pub fn is_complement(&self) -> bool
        ensures { result ≡ self.now.complement }
    {
        self.parts.is_complement()
    }

    /// Returns the names among its items, those of inner groups too.
    pub fn plus(&self) -> &Names
        ensures { result.now ≡ self.now.plus }
    {
        self.parts.plus()
    }

    /// Returns the names after a `-`.
    pub fn minus(&self) -> &Names
        ensures { result.now ≡ self.now.minus }
    {
        self.parts.minus()
    }

    /// Returns whether the set, as one of classes, has one of the two that servicemanager checks.
    #[tactic(auto, unfolding(crate::specs::Sets::selects))]
    pub fn has_kept(&self) -> bool
        ensures { result ≡ spec.selects_kept self.now }
    {
        self.parts.has_kept()
    }

    /// Returns whether another set has the same items. The lines don't matter.
    pub fn is_same(&self, other: &Set) -> bool
        ensures { IsTrue result → SameItems self.now other.now }
    {
        self.has_star() == other.has_star()
            && self.is_complement() == other.is_complement()
            && same_names(self.plus(), other.plus())
            && same_names(self.minus(), other.minus())
    }

    /// Returns whether the set, as one of classes or permissions, has this name. Such names denote only themselves.
    #[tactic(auto, unfolding(crate::specs::Sets::selects))]
    pub fn selects(&self, name: &[u8]) -> bool
        ensures { result ≡ spec.selects self.now name.now }
    {
        let among = (self.has_star() || self.plus().contains(name)) && !self.minus().contains(name);
        if self.is_complement() { !among } else { among }
    }
}
