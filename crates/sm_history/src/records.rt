//! Audit records of denied access.

ghost use Rattle.std.specs.Prelude.{◌≡◌};

use crate::denial::Denial;
use sm_values::{Context, Identity, Name, drop_fields};
use std::alloc::AllocError;

/// A record of a check that no allow rule passed, or of a clause on the user number that refused a request, as
/// SELinux's access vector cache makes one (`avc: denied`).
pub struct Record {
    /// The length of the journal when the check was made, in changes.
    pub length: u64,
    /// The version of the policy that was in force.
    pub version: u64,
    pub denial: Denial,
    /// Whether the check passed all the same, since the source is `permissive`.
    pub permissive: bool,
    /// The process whose type is the source, or whose user number the clause refuses.
    pub who: Identity,
    /// The context that has the target's type. A clause on the user number has no target.
    pub target: Option<Context>,
    /// The name, if the target is its label or the clause is about it.
    pub name: Option<Name>,
}

impl Drop for Record {
    fn drop(self) {
        drop_fields!(self: length, version, denial, permissive, who, target, name);
    }
}

impl Clone for Record {
    ghost is_clone = { λ r copy. copy ≡ r };

    /// Copies the record; its texts are shared.
    fn clone(&self) -> Result<Record, AllocError> {
        let target = match &self.target {
            None => None,
            Some(target) => Some(target.clone()?),
        };
        let name = match &self.name {
            None => None,
            Some(name) => Some(name.clone()?),
        };
        Ok(Record {
            length: self.length,
            version: self.version,
            denial: self.denial.clone()?,
            permissive: self.permissive,
            who: self.who.clone()?,
            target,
            name,
        })
    }
}
