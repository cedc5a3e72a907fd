//! What sets denote and what rules grant, computed once for equal ones.

ghost use Rattle.std.specs.Prelude.{◌≡◌, [], IfOk, IfSome};
ghost use Rattle.sm_types.specs.declared.table.Table.{Table as TheTable};
ghost use Rattle.sm_rules.specs.Memoed.{Denotes, Grants, IsRight};

use sm_bits::SharedSet;
use sm_ruletext::{Rule, Set};
use sm_values::{Perms, drop_fields};
use std::alloc::{AllocError, Global};
use std::marker::Model;

/// The most numbers of sets by which something is kept.
const MOST_PLACES: usize = 65_536;

/// The number of slots for the last rules.
const SLOTS: usize = 1024;

/// A set, and the types that it denotes.
#[derive(Drop)]
pub struct Expanded {
    pub set: Set,
    pub row: SharedSet,
}

/// The classes and the permissions of a rule, whether the permissions are known, and which it grants.
#[derive(Drop)]
pub struct Granted {
    pub class: Set,
    pub perm: Set,
    pub known: bool,
    pub perms: Perms,
}

/// What was computed before. Where it is found is only a hint: what is found there is compared with what is sought.
///
/// Contracts see what is kept.
pub struct Memo {
    sets: Vec<Expanded>,
    /// For the number of a set, where it is.
    places: Vec<u32>,
    grants: Vec<Granted>,
    /// For the numbers of classes and permissions, where they are.
    slots: Vec<u32>,
}

impl Model for Memo {
    ghost use Rattle.sm_rules.specs.Memoed.{Memoed};

    ghost Value = { Memoed };

    ghost view = { λ m. record { sets = m.sets.items; grants = m.grants.items } };
}

impl Drop for Memo {
    fn drop(self) {
        drop_fields!(self: sets, places, grants, slots);
    }
}

/// Returns the slot of a rule.
fn slot_of(rule: &Rule) -> usize {
    let sum = rule.class.number().wrapping_mul(0x9e37_79b9) ^ rule.perm.number();
    sum as usize % SLOTS
}

impl Memo {
    /// Makes an empty memo.
    pub fn new(alloc: Global) -> Memo
        ensures { (table : TheTable) → IsRight table result }
    {
        Memo {
            sets: Vec::new(alloc),
            places: Vec::new(alloc),
            grants: Vec::new(alloc),
            slots: Vec::new(alloc),
        }
    }

    /// Returns the types that a set denotes, if an equal set is kept.
    pub fn row(&self, set: &Set) -> Result<Option<SharedSet>, AllocError>
        ensures { (table : TheTable) → IsRight table self.now
            → IfOk result (λ o. IfSome o (λ row. Denotes table set.now row)) }
    {
        let Some(place) = self.places.get(set.number() as usize) else {
            return Ok(None);
        };
        let Some(kept) = self.sets.get(*place as usize) else {
            return Ok(None);
        };
        if !kept.set.is_same(set) {
            return Ok(None);
        }
        let row = kept.row.clone()?;
        Ok(Some(row))
    }

    /// Makes room for the place of a set, if memory is left.
    fn make_places(&mut self, number: usize)
        ensures { self.new ≡ self.old }
    {
        if number >= MOST_PLACES {
            return;
        }
        while self.places.len() <= number {
            if self.places.push(u32::MAX).is_err() {
                return;
            }
        }
    }

    /// Keeps the types that a set denotes, if memory is left.
    pub fn keep_row(&mut self, set: &Set, row: &SharedSet)
        ensures { (table : TheTable) → IsRight table self.old → Denotes table set.now row.now
            → IsRight table self.new }
    {
        let number = set.number() as usize;
        let place = self.sets.len();
        self.make_places(number);
        if number >= self.places.len() || place >= MOST_PLACES {
            return;
        }
        let Ok(set) = set.clone() else {
            return;
        };
        let Ok(row) = row.clone() else {
            return;
        };
        if let Ok(()) = self.sets.push(Expanded { set, row }) {
            self.places[number] = place as u32;
        }
    }

    /// Returns whether the permissions of a rule are known, and those that it grants, if an equal one is kept.
    pub fn grants(&self, rule: &Rule) -> Option<(bool, Perms)>
        ensures { (table : TheTable) → IsRight table self.now
            → IfSome result (λ g. Grants rule.now g.0 g.1) }
    {
        let place = self.slots.get(slot_of(rule))?;
        let kept = self.grants.get(*place as usize)?;
        if kept.class.is_same(&rule.class) && kept.perm.is_same(&rule.perm) {
            Some((kept.known, kept.perms))
        } else {
            None
        }
    }

    /// Makes the slots, if there are none yet and memory is left.
    fn make_slots(&mut self, alloc: Global)
        ensures { self.new ≡ self.old }
    {
        if self.slots.is_empty()
            && let Ok(slots) = vec![in alloc; u32::MAX; SLOTS]
        {
            self.slots = slots;
        }
    }

    /// Keeps whether the permissions of a rule are known, and those that it grants, if memory is left.
    pub fn keep_grants(&mut self, alloc: Global, rule: &Rule, known: bool, perms: Perms)
        ensures { (table : TheTable) → IsRight table self.old → Grants rule.now known perms
            → IsRight table self.new }
    {
        let slot = slot_of(rule);
        let place = self.grants.len();
        self.make_slots(alloc);
        if slot >= self.slots.len() || place >= MOST_PLACES {
            return;
        }
        let Ok(class) = rule.class.clone() else {
            return;
        };
        let Ok(perm) = rule.perm.clone() else {
            return;
        };
        let kept = Granted {
            class,
            perm,
            known,
            perms,
        };
        if let Ok(()) = self.grants.push(kept) {
            self.slots[slot] = place as u32;
        }
    }
}
