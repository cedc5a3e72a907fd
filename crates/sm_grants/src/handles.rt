//! Handles of one client.

use sm_values::drop_fields;
use std::marker::Model;

/// A client's handles: by number, by object, and the numbers in use.
///
/// An object is found by its hash, a number by its slot, and the least free number by words of 64 numbers, from the
/// first word that may have one.
pub struct Handles {
    slots: Vec<Option<Held>>,
    numbers: HashMap<(u32, u32), u32>,
    taken: UsedNumbers,
}

impl Drop for Handles {
    fn drop(self) {
        drop_fields!(self: slots, numbers, taken);
    }
}

impl Model for Handles {
    ghost use Rattle.std.specs.Prelude.{◌-◌, min, length, vec_len};
    ghost use Rattle.std.specs.Vec.{vec_capacity};
    ghost use Rattle.std.specs.HashMap as hash;
    ghost use Rattle.std.specs.HashMap.{spare};
    ghost use Rattle.sm_grants.specs.Slots.{HandleTable, AreHandles, same_key};

    ghost Value = { HandleTable };

    ghost view = { λ h. record {
      slots = h.slots.items;
      spare = min (vec_capacity h.slots - vec_len h.slots) (spare h.numbers);
    } };

    ghost invariant = { λ h. AreHandles h.slots.items
        (λ k. hash.get same_key h.numbers k) h.taken (hash.hash_map_len h.numbers) };
}

ghost use Rattle.std.specs.Prelude.{◌≡◌, ℕ, ◌+◌, ◌-◌, ◌≤◌, ◌<◌, ◌^◌, ◌++◌, map, option_map, true, false, is_some, Some};
ghost use Rattle.std.specs.Prelude.{None, [], ◌↔◌, IfOk, IsOk, IsSome, max, IfNone, IfSome, IsTrue, nat_lt, OnOk};
ghost use Rattle.std.specs.Prelude.{MatchOption};
ghost use Rattle.sm_grants.specs.Listed.{listed_slots};
ghost use Rattle.sm_history.specs.Tables.{slot, IsPut, released_slot};
ghost use Rattle.sm_grants.specs.Slots.{node_of, count_of, held_in, is_in, IsAbsent, IsFirstFree};
ghost use Rattle.sm_grants.specs.Slots.{granted_slot, IsGranted, IsNumberFor};

use crate::slots::{add_one, empty, fill, take_one};
use crate::used_numbers::UsedNumbers;
use sm_history::{Held, MOST_HANDLES};
use sm_values::Node;
use std::alloc::{AllocError, Global};
use std::collections::HashMap;

impl Handles {
    /// Makes an empty table.
    pub fn new(alloc: Global) -> Result<Handles, AllocError>
        ensures { IfOk result (λ h. h.slots ≡ []) }
    {
        let taken = UsedNumbers::empty(alloc, MOST_HANDLES / 64)?;
        Ok(Handles {
            slots: Vec::new(alloc),
            numbers: HashMap::new(alloc),
            taken,
        })
    }

    /// Makes room for grants of `n` new objects.
    #[inline(always)]
    pub fn reserve(&mut self, n: usize) -> Result<(), AllocError>
        ensures slots { self.new.slots ≡ self.old.slots }
        ensures room { OnOk result (n ≤ self.new.spare) }
        ensures spare { self.old.spare ≤ self.new.spare }
        ensures succeeds { n ≤ self.old.spare → IsOk result }
    {
        if n <= self.spare() {
            return Ok(());
        }
        self.grow(n)
    }

    /// Returns how many new objects there is memory for.
    #[inline(always)]
    fn spare(&self) -> usize
        ensures { result ≡ self.now.spare }
    {
        let slots = self.slots.capacity() - self.slots.len();
        let numbers = self.numbers.capacity() - self.numbers.len();
        slots.min(numbers)
    }

    /// As `reserve`, with allocations.
    #[inline(never)]
    fn grow(&mut self, n: usize) -> Result<(), AllocError>
        ensures slots { self.new.slots ≡ self.old.slots }
        ensures room { OnOk result (n ≤ self.new.spare) }
        ensures spare { self.old.spare ≤ self.new.spare }
    {
        self.slots.reserve(n)?;
        self.numbers.reserve(n)
    }

    /// Returns what is in a slot.
    pub fn at(&self, i: usize) -> Option<Held>
        ensures { result ≡ slot self.now.slots i }
    {
        self.slots.get(i).copied().flatten()
    }

    /// Returns the slot of an object.
    pub fn index_of(&self, node: Node) -> Option<u32>
        ensures found { MatchOption result (IsAbsent self.now.slots node)
            (λ i. node_of (slot self.now.slots i) ≡ Some node) }
        ensures small { IfSome result (λ i. i < MOST_HANDLES) }
        ensures alone { (i j : ℕ) → node_of (slot self.now.slots i) ≡ Some node
            → node_of (slot self.now.slots j) ≡ Some node → i ≡ j }
    {
        self.numbers.get(&(node.owner.0, node.object)).copied()
    }

    /// Returns the slot of an object. If the object has this number, it is found without its hash.
    #[inline(always)]
    pub fn index_by(&self, number: u32, node: Node) -> Option<u32>
        ensures found { MatchOption result (IsAbsent self.now.slots node)
            (λ i. node_of (slot self.now.slots i) ≡ Some node) }
        ensures small { IfSome result (λ i. i < MOST_HANDLES) }
        ensures alone { (i j : ℕ) → node_of (slot self.now.slots i) ≡ Some node
            → node_of (slot self.now.slots j) ≡ Some node → i ≡ j }
    {
        let i = number.wrapping_sub(1);
        match self.slots.get(i as usize) {
            Some(Some(held))
                if held.node.owner.0 == node.owner.0 && held.node.object == node.object => {
                Some(i)
            }
            _ => self.index_of(node),
        }
    }

    /// Returns whether an object is held.
    pub fn holds(&self, node: Node) -> bool
        ensures { result ≡ is_in self.now.slots node }
    {
        self.index_of(node).is_some()
    }

    /// Returns the first free slot from `from` on; slots continue past the last number that a handle can have.
    pub fn free_from(&self, from: usize) -> usize
        ensures behind { from ≤ result }
        ensures free { is_some (slot self.now.slots result) ≡ false }
        ensures least { (j : ℕ) → from ≤ j → j < result → is_some (slot self.now.slots j) ≡ true }
        ensures small { result ≤ max from MOST_HANDLES }
    {
        self.taken.first_free_from(from)
    }

    /// Returns what is held under each number, from 0 on.
    pub fn listed(&self, alloc: Global) -> Result<Vec<Option<Held>>, AllocError>
        ensures { IfOk result (λ v. v.items ≡ listed_slots self.now.slots) }
    {
        let mut list = Vec::with_capacity(alloc, 1)?;
        list.push_reserved(None);
        list.extend_from_slice(&self.slots)?;
        Ok(list)
    }

    /// Returns the number of held objects.
    pub fn len(&self) -> usize
        ensures is { result ≡ held_in self.now.slots }
        ensures most { result ≤ MOST_HANDLES }
    {
        self.numbers.len()
    }

    /// Grants an object for the first time, and returns its number.
    pub fn grant_new(&mut self, node: Node) -> u32
        requires absent { IsAbsent self.old.slots node }
        requires fits { held_in self.old.slots < MOST_HANDLES }
        requires room { 0 < self.old.spare }
        ensures free { IsFirstFree self.old.slots result }
        ensures put { IsPut self.old.slots self.new.slots result (granted_slot node None) }
        ensures spare { self.old.spare ≤ self.new.spare + 1 }
        ensures small { result < MOST_HANDLES }
    {
        let i = self.taken.first_free();
        let _ = self.numbers.insert((node.owner.0, node.object), i as u32);
        fill(&mut self.slots, i, Held { node, count: 1 });
        self.taken.insert_first(i);
        i as u32
    }

    /// Releases one grant of several.
    fn release_one(&mut self, i: usize)
        requires { 1 < count_of (slot self.old.slots i) }
        ensures put { IsPut self.old.slots self.new.slots i (released_slot (slot self.old.slots i)) }
        ensures spare { self.new.spare ≡ self.old.spare }
    {
        take_one(&mut self.slots, i);
    }

    /// Releases the last grant of an object.
    fn release_last(&mut self, i: usize, node: Node)
        requires { node_of (slot self.old.slots i) ≡ Some node }
        ensures put { IsPut self.old.slots self.new.slots i None }
        ensures spare { self.old.spare ≤ self.new.spare }
    {
        let _ = self.numbers.remove(&(node.owner.0, node.object));
        empty(&mut self.slots, i);
        self.taken.remove(i);
    }

    /// Releases one grant of what is in a slot.
    pub fn release(&mut self, i: usize)
        ensures put { IsPut self.old.slots self.new.slots i (released_slot (slot self.old.slots i)) }
        ensures spare { self.old.spare ≤ self.new.spare }
    {
        if let Some(held) = self.at(i) {
            if held.count <= 1 {
                self.release_last(i, held.node);
            } else {
                self.release_one(i);
            }
        }
    }

    /// Returns whether there are a number and memory for a new object.
    fn has_room(&self) -> bool
        ensures { IsTrue result ↔ ((held_in self.now.slots < MOST_HANDLES) × (0 < self.now.spare)) }
    {
        self.numbers.len() < MOST_HANDLES
            && self.slots.len() < self.slots.capacity()
            && self.numbers.len() < self.numbers.capacity()
    }

    /// Grants an object once, and returns its number, or else the least free one. Returns `None` and changes nothing if
    /// there is no number or memory for it, or its count is at its greatest value. An object that has the number `near`
    /// is found without its hash.
    pub fn grant(&mut self, near: u32, node: Node) -> Option<u32>
        ensures placed { IsSome result → IsAbsent self.old.slots node → (held_in self.old.slots < MOST_HANDLES)
            × (0 < self.old.spare) }
        ensures few { IsSome result → (i : ℕ) → node_of (slot self.old.slots i) ≡ Some node
            → count_of (slot self.old.slots i) < 2 ^ 64 - 1 }
        ensures all { (IsAbsent self.old.slots node → (held_in self.old.slots < MOST_HANDLES) × (0 < self.old.spare))
            → ((i : ℕ) → node_of (slot self.old.slots i) ≡ Some node → count_of (slot self.old.slots i) < 2 ^ 64 - 1)
            → IsSome result }
        ensures granted { IfSome result (IsGranted self.old.slots self.new.slots node) }
        ensures unchanged { IfNone result (self.new ≡ self.old) }
        ensures spare { self.old.spare ≤ self.new.spare + 1 }
    {
        match self.index_by(near, node) {
            Some(i) => match self.at(i as usize) {
                Some(held) if held.count < u64::MAX => {
                    add_one(&mut self.slots, i as usize);
                    Some(i + 1)
                }
                _ => None,
            },
            None => {
                if !self.has_room() {
                    return None;
                }
                Some(self.grant_new(node) + 1)
            }
        }
    }

    /// Returns the number of grants of an object that weren't released, 0 if it isn't held.
    pub fn count(&self, node: Node) -> u64
        ensures absent { IsAbsent self.now.slots node → result ≡ 0 }
        ensures held { (i : ℕ) → node_of (slot self.now.slots i) ≡ Some node
            → result ≡ count_of (slot self.now.slots i) }
    {
        match self.index_of(node) {
            Some(i) => match self.at(i as usize) {
                Some(held) => held.count,
                None => 0,
            },
            None => 0,
        }
    }

    /// Returns the number of an object, or the least free one.
    pub fn number_for(&self, node: Node) -> u32
        ensures { IsNumberFor self.now.slots node result }
    {
        match self.index_of(node) {
            Some(i) => i + 1,
            None => self.taken.first_free() as u32 + 1,
        }
    }

    /// Returns the number of an object, or the least free one, `None` if it isn't held and no more objects can be.
    pub fn number_if_room(&self, node: Node) -> Option<u32>
        ensures absent { IsAbsent self.now.slots node → is_some result ≡ nat_lt (held_in self.now.slots) MOST_HANDLES }
        ensures held { (i : ℕ) → node_of (slot self.now.slots i) ≡ Some node → IsSome result
            × (held_in self.now.slots ≤ MOST_HANDLES) }
        ensures number { IfSome result (IsNumberFor self.now.slots node) }
    {
        match self.index_of(node) {
            Some(i) => Some(i + 1),
            None => {
                if self.numbers.len() < MOST_HANDLES {
                    Some(self.taken.first_free() as u32 + 1)
                } else {
                    None
                }
            }
        }
    }
}
