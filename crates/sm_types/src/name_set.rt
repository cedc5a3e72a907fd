//! Names in the order of their declaration.

use indexmap::IndexSet;
use std::alloc::{AllocError, Global};
use std::marker::Model;

/// Distinct names. Contracts see the list of their bytes.
pub struct NameSet {
    names: IndexSet<Vec<u8>>,
}

impl Drop for NameSet {
    fn drop(self) {
        let NameSet { names: _ } = self;
    }
}

impl Model for NameSet {
    ghost use Rattle.std.specs.Prelude.{List, ℕ, map};
    ghost use Rattle.sm_types.specs.Names.{Distinct};

    ghost Value = { List (List ℕ) };

    ghost view = { λ d. map (λ k. k.items) d.names.keys };

    ghost invariant = { λ d. Distinct (map (λ k. k.items) d.names.keys) };
}

impl NameSet {
    ghost use Rattle.std.specs.Prelude.{◌≡◌, ◌++◌, ◌∷◌, [], ◌<◌, ℕ, position, slice_get, option_map, OnOk, length};
    ghost use Rattle.std.specs.Prelude.{false, is_some};
    ghost use Rattle.std.specs.List.{list_any};
    ghost use Rattle.std.specs.Str.{bytes_eq};
    ghost use Rattle.sm_types.specs.Names.{Distinct, is_at, at};

    /// Makes an empty set.
    pub fn new(alloc: Global) -> NameSet
        ensures { result ≡ [] }
    {
        NameSet {
            names: IndexSet::new(alloc),
        }
    }

    /// Returns the number of names.
    pub fn len(&self) -> usize
        ensures len { result ≡ length self.now }
        ensures distinct { Distinct self.now }
    {
        self.names.len()
    }

    /// Returns whether a name is in the set.
    pub fn contains(&self, name: &[u8]) -> bool
        ensures { result ≡ list_any (bytes_eq name.now) self.now }
    {
        self.names.contains(name)
    }

    /// Returns the index of a name, found by its hash.
    pub fn index(&self, name: &[u8]) -> Option<usize>
        ensures place { result ≡ position (bytes_eq name.now) self.now }
        ensures known { is_some result ≡ list_any (bytes_eq name.now) self.now }
        ensures only { (j : ℕ) → j < length self.now
            → bytes_eq name.now (at self.now j) ≡ is_at result j }
    {
        self.names.get_index_of(name)
    }

    /// Returns the name at an index, if there is one.
    pub fn name(&self, index: usize) -> Option<&[u8]>
        ensures { option_map (λ n. n.now) result ≡ slice_get self.now index }
    {
        match self.names.get_index(index) {
            Some(name) => Some(name.as_slice()),
            None => None,
        }
    }

    /// Appends a name that isn't in the set.
    pub fn insert(&mut self, alloc: Global, name: &[u8]) -> Result<(), AllocError>
        requires { list_any (bytes_eq name.now) self.old ≡ false }
        ensures { OnOk result (self.new ≡ self.old ++ name.now ∷ []) }
    {
        let name = Vec::from_slice(alloc, name)?;
        self.names.insert(name)?;
        Ok(())
    }
}
