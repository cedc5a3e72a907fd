//! Names of services, and names in a policy source.

ghost use Rattle.std.specs.Prelude.{◌≡◌, ◌++◌, ◌∷◌, [], OnOk, OnErr, IfOk};
ghost use Rattle.std.specs.List.{list_all};
ghost use Rattle.sm_values.specs.Names.{is_name_byte, is_valid_name};

use crate::escaped::write_escaped;
use crate::limits::MOST_NAME_BYTES;
use crate::word::spells;
use std::alloc::{AllocError, Global};
use std::fmt;
use std::marker::Model;
use std::sync::ArcSlice;

/// A name, which contracts see as its bytes. All bytes are allowed; `valid_name` says which may name a service.
pub struct Name {
    bytes: ArcSlice<u8>,
}

impl Model for Name {
    ghost use Rattle.std.specs.Arc.{arc_slice_items};
    ghost use Rattle.std.specs.Prelude.{List, ℕ};

    ghost Value = { List ℕ };

    ghost view = { λ n. arc_slice_items n.bytes };
}

impl Drop for Name {
    fn drop(self) {
        let Name { bytes: _ } = self;
    }
}

impl Clone for Name {
    ghost is_clone = { λ n copy. copy ≡ n };

    /// Returns another reference to the same bytes.
    fn clone(&self) -> Result<Name, AllocError> {
        let bytes = self.bytes.clone()?;
        Ok(Name { bytes })
    }
}

impl fmt::Display for Name {
    fn fmt<W: fmt::Write>(&self, f: &mut fmt::Formatter<W>) -> fmt::Result {
        write_escaped(f, self.bytes())
    }
}

impl fmt::Debug for Name {
    fn fmt<W: fmt::Write>(&self, f: &mut fmt::Formatter<W>) -> fmt::Result {
        write!(f, "Name({self})")
    }
}

impl Name {
    /// Makes a name of these bytes.
    pub fn new(alloc: Global, bytes: &[u8]) -> Result<Name, AllocError>
        ensures { IfOk result (λ n. n ≡ bytes.now) }
    {
        let bytes = ArcSlice::from_slice(alloc, bytes)?;
        Ok(Name { bytes })
    }

    /// Returns the bytes of the name.
    pub fn bytes(&self) -> &[u8]
        ensures { result.now ≡ self.now }
    {
        self.bytes.as_slice()
    }
}

/// Names in order. Contracts see the list of their bytes.
pub struct Names {
    list: Vec<Name>,
}

impl Drop for Names {
    fn drop(self) {
        let Names { list: _ } = self;
    }
}

impl Model for Names {
    ghost use Rattle.std.specs.Prelude.{List, ℕ};

    ghost Value = { List (List ℕ) };

    ghost view = { λ n. n.list.items };
}

impl Names {
    ghost use Rattle.sm_values.specs.Names.{contains};

    /// Makes an empty list.
    pub fn new(alloc: Global) -> Names
        ensures { result ≡ [] }
    {
        Names {
            list: Vec::new(alloc),
        }
    }

    /// Appends a name.
    ///
    /// # Errors
    ///
    /// An error if an allocation fails; the list is then unchanged.
    #[inline(always)]
    pub fn push(&mut self, name: Name) -> Result<(), AllocError>
        ensures ok { OnOk result (self.new ≡ self.old ++ name ∷ []) }
        ensures err { OnErr result (self.new ≡ self.old) }
    {
        if self.list.is_empty() {
            // Most lists have one name, for which `push` alone would allocate four slots.
            self.list.reserve_exact(1)?;
        }
        self.list.push(name)?;
        Ok(())
    }

    /// Removes all names.
    pub fn clear(&mut self)
        ensures { self.new ≡ [] }
    {
        self.list.clear();
    }

    /// Returns the names in their order.
    pub fn list(&self) -> &[Name]
        ensures { result.now ≡ self.now }
    {
        &self.list
    }

    /// Returns whether a name is in the list.
    pub fn contains(&self, name: &[u8]) -> bool
        ensures { result ≡ contains self.now name.now }
    {
        self.list.iter().any(|n| spells(n.bytes(), name))
    }
}

// Each byte of a name has its own index, and all other entries are commas, so one load tells them apart.
static NAME_MAP: [u8; 256] = *b"\
    ,,,,,,,,,,,,,,,,,,,,,,,,,,,,,,,,\
    ,,,,,,,,,,,,,-./0123456789,,,,,,\
    ,ABCDEFGHIJKLMNOPQRSTUVWXYZ,,,,_\
    ,abcdefghijklmnopqrstuvwxyz,,,,,\
    ,,,,,,,,,,,,,,,,,,,,,,,,,,,,,,,,\
    ,,,,,,,,,,,,,,,,,,,,,,,,,,,,,,,,\
    ,,,,,,,,,,,,,,,,,,,,,,,,,,,,,,,,\
    ,,,,,,,,,,,,,,,,,,,,,,,,,,,,,,,,";

fn is_name_byte(b: u8) -> bool
    ensures { result ≡ is_name_byte b }
{
    NAME_MAP[b as usize] != b','
}

fn all_name_bytes(bytes: &[u8]) -> bool
    ensures { result ≡ list_all is_name_byte bytes.now }
{
    bytes.iter().all(|b| is_name_byte(*b))
}

/// Returns whether the bytes may name a service (`ServiceManager.cpp`, `isValidServiceName`): 1 to `MOST_NAME_BYTES`
/// bytes, each an ASCII letter, a digit, `_`, `-`, `.` or `/`.
pub fn valid_name(name: &[u8]) -> bool
    ensures { result ≡ is_valid_name name.now }
{
    if name.is_empty() || name.len() > MOST_NAME_BYTES {
        return false;
    }
    all_name_bytes(name)
}
