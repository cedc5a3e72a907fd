//! Policies with their versions.

use crate::Prepared;
use sm_values::{Class, Context, Perms, drop_fields};
use std::marker::Model;

/// A policy with its version: the number of the `Open` and `Reload` entries up to the one that put it into force.
pub struct Snapshot {
    prepared: Prepared,
    version: u64,
}

impl Drop for Snapshot {
    fn drop(self) {
        drop_fields!(self: prepared, version);
    }
}

impl Model for Snapshot {
    ghost use Rattle.sm_policy.specs.Policy.{Versioned};

    ghost Value = { Versioned };

    ghost view = { λ s. record { policy = s.prepared; number = s.version } };
}

impl Snapshot {
    ghost use Rattle.std.specs.Prelude.{◌≡◌};
    ghost use Rattle.sm_values.specs.Contexts.{type_of};
    ghost use Rattle.sm_policy.specs.Policy.{allowed, audits, allowed_at, type_index, label_of, written_at};

    /// Makes a policy with its version.
    pub fn new(prepared: Prepared, version: u64) -> Snapshot
        ensures { result ≡ record { policy = prepared; number = version } }
    {
        Snapshot { prepared, version }
    }

    /// Returns the version.
    pub fn version(&self) -> u64
        ensures { result ≡ self.now.number }
    {
        self.version
    }

    /// Returns the context of a name's service.
    pub fn label(&self, name: &[u8]) -> &Context
        ensures { result.now ≡ label_of self.now.policy name.now }
    {
        self.prepared.label(name)
    }

    /// Returns the type in that context.
    pub fn label_type(&self, name: &[u8]) -> &[u8]
        ensures { result.now ≡ type_of (label_of self.now.policy name.now) }
    {
        self.label(name).type_name()
    }

    /// Returns whether a check of this permission passes: some allow rule grants it to the source type on the target
    /// type, or the source is permissive and the target declared.
    pub fn allows(&self, source: &[u8], target: &[u8], class: Class, perm: Perms) -> bool
        ensures { result ≡ allowed self.now.policy source.now target.now class perm }
    {
        self.prepared.allows(source, target, class, perm)
    }

    /// Returns whether a check is audited, passed or not: no allow rule grants the permission, and no dontaudit rule
    /// covers it.
    pub fn audits(&self, source: &[u8], target: &[u8], class: Class, perm: Perms) -> bool
        ensures { result ≡ audits self.now.policy source.now target.now class perm }
    {
        self.prepared.audits(source, target, class, perm)
    }

    /// Returns the number of a type in this policy, if it is declared.
    pub fn type_index(&self, name: &[u8]) -> Option<u16>
        ensures { result ≡ type_index self.now.policy name.now }
    {
        self.prepared.type_index(name)
    }

    /// Like `allows`, for the types of these numbers in this policy. `false` if a number has no type.
    pub fn allows_at(&self, source: u16, target: u16, class: Class, perm: Perms) -> bool
        ensures { result ≡ allowed_at self.now.policy source target class perm }
    {
        self.prepared.allows_at(source, target, class, perm)
    }

    /// Returns the line of the first allow rule that grants the permission.
    pub fn why(&self, source: &[u8], target: &[u8], class: Class, perm: Perms) -> Option<u32>
        ensures { result ≡ written_at self.now.policy source.now target.now class perm }
    {
        self.prepared.why(source, target, class, perm)
    }
}
