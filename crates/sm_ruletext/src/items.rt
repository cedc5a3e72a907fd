//! The items of a set.

ghost use Rattle.std.specs.Prelude.{◌≡◌, OnOk};
ghost use Rattle.sm_ruletext.specs.Grammar as spec;

use sm_values::{Word, drop_fields};
use std::alloc::{AllocError, Global};
use std::marker::Model;

/// The items of a set that is being read, as words of the source.
pub struct Items<'a> {
    plus: Vec<Word<'a>>,
    minus: Vec<Word<'a>>,
    all: bool,
    to_self: bool,
}

impl<'a> Model for Items<'a> {
    ghost use Rattle.sm_ruletext.specs.Items.{Items};

    ghost Value = { Items };

    ghost view = { λ i. record {
      all = i.all;
      to_self = i.to_self;
      plus = i.plus.items;
      minus = i.minus.items;
    } };
}

impl<'a> Drop for Items<'a> {
    fn drop(self) {
        drop_fields!(self: plus, minus, all, to_self);
    }
}

impl<'a> Items<'a> {
    /// Makes an empty list of items.
    pub fn none(alloc: Global) -> Items<'a>
        ensures { result ≡ spec.no_items }
    {
        Items {
            plus: Vec::new(alloc),
            minus: Vec::new(alloc),
            all: false,
            to_self: false,
        }
    }

    /// Removes all items. Their memory is kept for the next set.
    pub fn clear(&mut self)
        ensures { self.new ≡ spec.no_items }
    {
        self.plus.clear();
        self.minus.clear();
        self.all = false;
        self.to_self = false;
    }

    /// Appends a name.
    pub fn add(&mut self, name: Word<'a>) -> Result<(), AllocError>
        ensures { OnOk result (self.new ≡ spec.with_name self.old name.entry) }
    {
        self.plus.push(name)?;
        Ok(())
    }

    /// Appends a name after a `-`.
    pub fn subtract(&mut self, name: Word<'a>) -> Result<(), AllocError>
        ensures { OnOk result (self.new ≡ spec.without_name self.old name.entry) }
    {
        self.minus.push(name)?;
        Ok(())
    }

    /// Adds `*`.
    pub fn add_all(&mut self)
        ensures { self.new ≡ spec.with_all self.old }
    {
        self.all = true;
    }

    /// Adds `self`.
    pub fn add_self(&mut self)
        ensures { self.new ≡ spec.with_self self.old }
    {
        self.to_self = true;
    }

    /// Returns whether `*` is among them.
    pub fn has_all(&self) -> bool
        ensures { result ≡ self.now.all }
    {
        self.all
    }

    /// Returns whether `self` is among them.
    pub fn has_self(&self) -> bool
        ensures { result ≡ self.now.to_self }
    {
        self.to_self
    }

    /// Returns the names in their order.
    pub fn plus(&self) -> &[Word<'a>]
        ensures { result.now ≡ self.now.plus }
    {
        &self.plus
    }

    /// Returns the names after a `-` in their order.
    pub fn minus(&self) -> &[Word<'a>]
        ensures { result.now ≡ self.now.minus }
    {
        &self.minus
    }
}
