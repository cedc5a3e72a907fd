//! What the rules of a policy say of accesses that were asked before.

ghost use Rattle.std.specs.Prelude.{◌≡◌, ◌<◌, ℕ, [], IfOk, IfSome, OnOk, length};
ghost use Rattle.sm_types.specs.Denoting.{types};
ghost use Rattle.sm_policy.specs.Policy.{Policy};
ghost use Rattle.sm_suggestions.specs.Rulings.{AreRulings, IsRuling};

use crate::ruling::Ruling;
use indexmap::IndexMap;
use sm_policy::Prepared;
use std::alloc::{AllocError, Global};

/// Returns a number by which the ruling on an access is looked up.
fn number_of(source: u16, target: u16, bit: u32) -> u64 {
    (u64::from(bit) * 65_536 + u64::from(source)) * 65_536 + u64::from(target)
}

/// What the rules of a policy say of accesses that were asked before. A ruling that is looked up is compared with the
/// access before it is used.
pub struct Rulings {
    by_number: IndexMap<u64, Ruling>,
}

impl Drop for Rulings {
    fn drop(self) {
        let Rulings { by_number: _ } = self;
    }
}

impl Rulings {
    /// Makes rulings of which there are none yet.
    pub fn new(alloc: Global) -> Rulings
        ensures { result.by_number.entries ≡ [] }
    {
        Rulings {
            by_number: IndexMap::new(alloc),
        }
    }

    /// Returns the ruling on an access, if it was asked before.
    fn known(&self, source: u16, target: u16, bit: u32) -> Option<Ruling>
        ensures { (policy : Policy) → AreRulings policy self.now.by_number.entries
            → IfSome result (λ ruling. IsRuling policy source target bit ruling) }
    {
        match self.by_number.get(&number_of(source, target, bit)) {
            Some(ruling) if ruling.is_of(source, target, bit) => Some(*ruling),
            _ => None,
        }
    }

    /// Returns the ruling on an access.
    ///
    /// # Errors
    ///
    /// If an allocation fails.
    pub fn find(
        &mut self,
        policy: &Prepared,
        source: u16,
        target: u16,
        bit: u32,
    ) -> Result<Ruling, AllocError>
        requires bit { bit < 7 }
        requires source { source < length (types policy.now.statements) }
        requires target { target < length (types policy.now.statements) }
        requires right { AreRulings policy.now self.old.by_number.entries }
        ensures right { OnOk result (AreRulings policy.now self.new.by_number.entries) }
        ensures ruling { IfOk result (λ ruling. IsRuling policy.now source target bit ruling) }
    {
        if let Some(ruling) = self.known(source, target, bit) {
            return Ok(ruling);
        }
        let ruling = Ruling::find(policy, source, target, bit);
        self.by_number
            .insert(number_of(source, target, bit), ruling)?;
        Ok(ruling)
    }
}
