//! The object classes of SELinux that svcmgr checks.

ghost use Rattle.std.specs.Prelude.{◌≡◌};

use crate::escaped::write_escaped;
use crate::word::spells;
use std::fmt;

/// An object class, in the order of SELinux's `security_classes` as this product uses it.
#[derive(Clone, Copy, Debug, PartialEq, Eq)]
pub enum Class {
    ServiceManager,
    Binder,
}

impl fmt::Display for Class {
    fn fmt<W: fmt::Write>(&self, f: &mut fmt::Formatter<W>) -> fmt::Result {
        write_escaped(f, self.word())
    }
}

impl Class {
    ghost use Rattle.sm_values.specs.Permissions.{class_word, class_read};

    /// Returns the class that a word names, if it is one of the two.
    pub fn read(word: &[u8]) -> Option<Class>
        ensures { result ≡ class_read word.now }
    {
        if spells(word, b"service_manager") {
            Some(Class::ServiceManager)
        } else if spells(word, b"binder") {
            Some(Class::Binder)
        } else {
            None
        }
    }

    /// Returns the class's word in a policy source.
    pub fn word(self) -> &'static [u8]
        ensures { result.now ≡ class_word self }
    {
        match self {
            Class::ServiceManager => b"service_manager",
            Class::Binder => b"binder",
        }
    }
}
