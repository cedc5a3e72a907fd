//! Permissions, one bit each.

ghost use Rattle.std.specs.Prelude.{⊤, ◌≡◌, [], ◌∷◌, codes};

use crate::class::Class;
use crate::escaped::write_escaped;
use crate::word::spells;
use bitflags::{Flag, Flags, bitflag_items};
use std::fmt;

/// A set of permissions. Those of `service_manager` are bits 0 to 2, those of `binder` bits 3 to 6.
#[derive(Clone, Copy, Debug, PartialEq, Eq)]
pub struct Perms(pub u8);

bitflag_items! {
    impl Perms: u8 {
        const ADD = 1;
        const FIND = 2;
        const LIST = 4;
        const IMPERSONATE = 8;
        const CALL = 16;
        const SET_CONTEXT_MGR = 32;
        const TRANSFER = 64;
    }
}

impl Flags for Perms {
    type Bits = u8;

    ghost exact = { ⊤ };

    ghost table = { (codes "ADD", 1) ∷ (codes "FIND", 2) ∷ (codes "LIST", 4) ∷ (codes "IMPERSONATE", 8)
        ∷ (codes "CALL", 16) ∷ (codes "SET_CONTEXT_MGR", 32) ∷ (codes "TRANSFER", 64) ∷ [] };

    ghost set_of = { λ p. p.0 };

    fn flags<'a>() -> &'a [Flag<Perms>] {
        Perms::FLAGS
    }

    fn bits(&self) -> u8 {
        self.0
    }

    fn from_bits_retain(bits: u8) -> Perms {
        Perms(bits)
    }
}

impl fmt::Display for Perms {
    /// Writes the word of a single permission, and nothing for a set of none or several.
    fn fmt<W: fmt::Write>(&self, f: &mut fmt::Formatter<W>) -> fmt::Result {
        write_escaped(f, self.word().unwrap_or(b""))
    }
}

impl Perms {
    ghost use Rattle.sm_values.specs.Permissions.{perm_read, perm_word};
    ghost use Rattle.std.specs.Prelude.{option_map};

    /// Returns the permission of the class that the word names, if there is one.
    pub fn read(class: Class, word: &[u8]) -> Option<Perms>
        ensures { result ≡ perm_read class word.now }
    {
        match class {
            Class::ServiceManager => service_manager_perm(word),
            Class::Binder => binder_perm(word),
        }
    }

    /// Returns the word of a single permission, or `None` for a set of none or several.
    pub fn word(self) -> Option<&'static [u8]>
        ensures { option_map (λ w. w.now) result ≡ perm_word self }
    {
        match self {
            Perms::ADD => Some(b"add"),
            Perms::FIND => Some(b"find"),
            Perms::LIST => Some(b"list"),
            Perms::IMPERSONATE => Some(b"impersonate"),
            Perms::CALL => Some(b"call"),
            Perms::SET_CONTEXT_MGR => Some(b"set_context_mgr"),
            Perms::TRANSFER => Some(b"transfer"),
            _ => None,
        }
    }
}

ghost use Rattle.sm_values.specs.Permissions.{perm_read};
ghost use Rattle.sm_values.specs.declared.class.Class.TheVariants.{ServiceManager, Binder};

fn service_manager_perm(word: &[u8]) -> Option<Perms>
    ensures { result ≡ perm_read ServiceManager word.now }
{
    if spells(word, b"add") {
        Some(Perms::ADD)
    } else if spells(word, b"find") {
        Some(Perms::FIND)
    } else if spells(word, b"list") {
        Some(Perms::LIST)
    } else {
        None
    }
}

fn binder_perm(word: &[u8]) -> Option<Perms>
    ensures { result ≡ perm_read Binder word.now }
{
    if spells(word, b"impersonate") {
        Some(Perms::IMPERSONATE)
    } else if spells(word, b"call") {
        Some(Perms::CALL)
    } else if spells(word, b"set_context_mgr") {
        Some(Perms::SET_CONTEXT_MGR)
    } else if spells(word, b"transfer") {
        Some(Perms::TRANSFER)
    } else {
        None
    }
}
