//! The handles of all clients.

ghost use Rattle.std.specs.Prelude.{◌≡◌, ◌≤◌, ◌<◌, ◌+◌, ◌++◌, [], ◌∷◌, true, false, ◌==◌, ◌↔◌, ◌||◌, not, ℕ, min, max};
ghost use Rattle.std.specs.Prelude.{if◌then◌else◌};
ghost use Rattle.std.specs.Prelude.{nat_lt, length, is_some, Some, None, OnOk, IsOk, IsSome, IfOk, IfNone, IfSome};
ghost use Rattle.std.specs.Prelude.{MatchOption};
ghost use Rattle.std.specs.List.{list_any};
ghost use Rattle.sm_values.specs.declared.number.Node.{Node};
ghost use Rattle.sm_values.specs.declared.limits.TheConstants.{MOST_REFS};
ghost use Rattle.sm_history.specs.Effects.{Effects, same_node};
ghost use Rattle.sm_history.specs.declared.effect.Effect.TheVariants.{Gives, Releases, Dies};
ghost use Rattle.sm_history.specs.Clients.{is_live};
ghost use Rattle.sm_history.specs.Holdings.{refs_at, resolve_at, node_at, number_for, fits_handles};
ghost use Rattle.sm_history.specs.Holdings.{held_nodes, is_held, is_in_use};
ghost use Rattle.sm_history.specs.Tables.{Slots, slot, slot_at};
ghost use Rattle.sm_grants.specs.Slots.{node_of, held_in, is_in, IsAbsent, IsNumberFor};
ghost use Rattle.sm_grants.specs.Highest.{highest};
ghost use Rattle.sm_grants.specs.Once.{AreOnce};
ghost use Rattle.sm_grants.specs.Several.{after_grants, numbers_for, new_among, with_grant, Along};
ghost use Rattle.sm_grants.specs.Holders.{holders_at};

use crate::handles::Handles;
use crate::place::node_index;
use crate::rows::{ClientHandles, handles_of, holders_in, place_for};
use arrayvec::ArrayVec;
use sm_history::{Held, MOST_HANDLES, row_index};
use sm_values::{ClientId, MOST_REFS, Node, ObjRef, drop_fields};
use std::alloc::{AllocError, Global};

/// The handles of all clients: who holds which object, under which number, and how often.
pub struct Grants {
    alloc: Global,
    rows: Vec<ClientHandles>,
    // The number of grants so far, at most `u64::MAX`.
    bound: u64,
    ghost bounded: { highest rows.items ≤ bound },
    ghost once: { AreOnce rows.items },
}

impl Drop for Grants {
    fn drop(self) {
        drop_fields!(self: alloc, rows, bound);
    }
}

impl Grants {
    ghost use Rattle.sm_grants.specs.Rows.{slots_of, table_of, Tracks, CanGrant, spare_for};

    /// Makes an empty table.
    pub fn new(alloc: Global) -> Grants
        ensures { Tracks [] result }
    {
        Grants {
            alloc,
            rows: Vec::new(alloc),
            bound: 0,
        }
    }

    /// Makes room for grants of `n` new objects to a client.
    #[inline(always)]
    pub fn reserve(&mut self, client: u32, n: usize) -> Result<(), AllocError>
        ensures same { (d : Effects) → Tracks d self.old → Tracks d self.new }
        ensures room { OnOk result (n ≤ spare_for self.new client) }
        ensures spare { (k : ℕ) → spare_for self.old k ≤ spare_for self.new k }
        ensures succeeds { n ≤ spare_for self.old client → IsOk result }
    {
        if n == 0 {
            return Ok(());
        }
        match row_index(&self.rows, client) {
            Some(i) => {
                let row = &mut self.rows[i];
                row.handles.reserve(n)
            }
            None => self.add_row(client, n),
        }
    }

    /// As `reserve`, for a client without handles.
    #[inline(never)]
    fn add_row(&mut self, client: u32, n: usize) -> Result<(), AllocError>
        requires { table_of self.old.rows.items client ≡ None }
        ensures same { (d : Effects) → Tracks d self.old → Tracks d self.new }
        ensures room { OnOk result (n ≤ spare_for self.new client) }
        ensures spare { (k : ℕ) → spare_for self.old k ≤ spare_for self.new k }
    {
        self.rows.reserve(1)?;
        let mut handles = Handles::new(self.alloc)?;
        handles.reserve(n)?;
        let place = place_for(&self.rows, client);
        match self.rows.insert(place, ClientHandles { client, handles }) {
            Ok(()) => Ok(()),
            Err(_) => unreachable!(),
        }
    }

    /// Grants an object that the client doesn't own once, and returns the number of its handle. Returns `None` and
    /// changes nothing if there is no number or memory for it, or its count is at its greatest value. An object that
    /// has the number `near` is found fastest; any number gives the same result.
    pub fn grant(&mut self, client: u32, node: Node, near: u32) -> Option<u32>
        ensures ready { IsSome result ↔ CanGrant self.old client node }
        ensures unchanged { IfNone result (self.new.rows.items ≡ self.old.rows.items) }
        ensures tracks { (d : Effects) → Tracks d self.old → is_live d client ≡ true
            → IfSome result (λ number. (number ≡ number_for d client node)
            × Tracks (Gives client node number ∷ d) self.new) }
        ensures spare { spare_for self.old client ≤ spare_for self.new client + 1 }
        ensures others { (k : ℕ) → (client == k) ≡ false → spare_for self.new k ≡ spare_for self.old k }
    {
        let Some(i) = row_index(&self.rows, client) else {
            return None;
        };
        let row = &mut self.rows[i];
        let Some(number) = row.handles.grant(near, node) else {
            return None;
        };
        self.bound = self.bound.saturating_add(1);
        Some(number)
    }

    /// Releases one grant of an object, and returns whether the client held it. The last release frees its number. An
    /// object that has the number `near` is found fastest; any number gives the same result.
    pub fn release_held(&mut self, client: u32, node: Node, near: u32) -> bool
        ensures tracks { (d : Effects) → Tracks d self.old → (result ≡ is_held d client node)
            × Tracks (if result then Releases client node ∷ d else d) self.new }
        ensures spare { (k : ℕ) → spare_for self.old k ≤ spare_for self.new k }
    {
        let Some(i) = row_index(&self.rows, client) else {
            return false;
        };
        let row = &mut self.rows[i];
        let Some(slot) = row.handles.index_by(near, node) else {
            return false;
        };
        row.handles.release(slot as usize);
        true
    }

    /// Removes what a client holds, at its death.
    pub fn remove_client(&mut self, client: u32)
        ensures tracks { (d : Effects) → Tracks d self.old → Tracks (Dies client ∷ d) self.new }
        ensures others { (k : ℕ) → (client == k) ≡ false → spare_for self.new k ≡ spare_for self.old k }
    {
        if let Some(i) = row_index(&self.rows, client) {
            let _ = self.rows.remove(i);
        }
    }

    /// Returns the object that a client's reference names.
    pub fn resolve(&self, client: u32, obj: ObjRef) -> Option<Node>
        ensures { (d : Effects) → Tracks d self.now → result ≡ resolve_at d client obj }
    {
        match obj {
            ObjRef::Own(object) => Some(Node {
                owner: ClientId(client),
                object,
            }),
            ObjRef::Handle(number) => self.node(client, number),
            ObjRef::Null => None,
        }
    }

    /// Returns the object that a client holds under a number.
    pub fn node(&self, client: u32, number: u32) -> Option<Node>
        ensures { (d : Effects) → Tracks d self.now → result ≡ node_at d client number }
    {
        if number == 0 {
            return None;
        }
        let Some(handles) = handles_of(&self.rows, client) else {
            return None;
        };
        let Some(held) = handles.at(number as usize - 1) else {
            return None;
        };
        Some(held.node)
    }

    /// Returns the number of a client's handle for an object, or the one that a grant would give it, from 1. It is
    /// 65,537 if all numbers are in use.
    pub fn number_for(&self, client: u32, node: Node) -> u32
        ensures { (d : Effects) → Tracks d self.now → result ≡ number_for d client node }
    {
        match handles_of(&self.rows, client) {
            Some(handles) => handles.number_for(node),
            None => 1,
        }
    }

    /// Returns what a client holds under each number, from 0 on.
    pub fn listed(&self, alloc: Global, client: u32) -> Result<Vec<Option<Held>>, AllocError>
        ensures { IfOk result
            (λ v. (d : Effects) → Tracks d self.now → (k : ℕ) → slot v.items k ≡ slot_at d client k) }
    {
        match handles_of(&self.rows, client) {
            Some(handles) => handles.listed(alloc),
            None => Ok(Vec::new(alloc)),
        }
    }

    /// Returns the number of grants of an object that a client hasn't released, 0 if it doesn't hold the object.
    pub fn count(&self, client: u32, node: Node) -> u64
        ensures { (d : Effects) → Tracks d self.now → result ≡ refs_at d client node }
    {
        match handles_of(&self.rows, client) {
            Some(handles) => handles.count(node),
            None => 0,
        }
    }

    /// Returns a number that no client's count of grants of an object exceeds: the number of grants so far, at most
    /// `u64::MAX`.
    pub fn count_bound(&self) -> u64
        ensures { (d : Effects) → Tracks d self.now → (c : ℕ) (n : Node) → refs_at d c n ≤ result }
    {
        self.bound
    }

    /// Returns the number of a client's handle for an object that it doesn't own, or the one that a grant would give
    /// it. `None` if its handles have no room for a grant.
    pub fn number_if_room(&self, client: u32, node: Node) -> Option<u32>
        ensures room { (d : Effects) (r : ℕ) → Tracks d self.now → is_live d client ≡ true
            → is_some result ≡ fits_handles (Gives client node r ∷ d) client }
        ensures number { (d : Effects) → Tracks d self.now
            → IfSome result (λ number. number ≡ number_for d client node) }
    {
        match handles_of(&self.rows, client) {
            Some(handles) => handles.number_if_room(node),
            None => Some(1),
        }
    }

    /// Returns the number of live clients other than `except` that hold an object, at most `u32::MAX`.
    pub fn holders(&self, node: Node, except: u32) -> u32
        ensures count { (d : Effects) → Tracks d self.now → result ≡ min (holders_at d except node) u32.MAX }
        ensures in_use { (d : Effects) → Tracks d self.now → nat_lt 0 result ≡ is_in_use d except node }
    {
        let count = holders_in(&self.rows, node, except);
        count.min(u32::MAX as usize) as u32
    }

    /// Appends to an empty list the numbers of a client's handles if objects that it doesn't own are granted to it in
    /// order, and returns whether its handles have room for all of them. Allocates nothing.
    pub fn numbers_if_room(
        &self,
        client: u32,
        nodes: &[Node],
        numbers: &mut ArrayVec<u32, MOST_REFS>,
    ) -> bool
        requires few { length nodes.now ≤ MOST_REFS }
        requires none { numbers.old.items ≡ [] }
        ensures numbers { (d : Effects) → Tracks d self.now → is_live d client ≡ true
            → numbers.new.items ≡ numbers_for d client nodes.now }
        ensures room { (d : Effects) → Tracks d self.now → is_live d client ≡ true
            → result ≡ fits_handles (after_grants d client nodes.now) client }
    {
        let mut behind = 0;
        let mut count = 0;
        for i in 0..nodes.len() {
            let (number, next, is_new) = self.number_behind(
                client,
                &nodes[..i],
                numbers.as_slice(),
                nodes[i],
                behind,
            );
            numbers.push(number);
            behind = next;
            if is_new {
                count += 1;
            }
        }
        count <= MOST_HANDLES - self.len_of(client)
    }

    /// Returns whether a client's handles have room for objects that it doesn't own, all granted in order.
    pub fn room(&self, client: u32, nodes: &[Node]) -> bool
        ensures { (d : Effects) → Tracks d self.now → is_live d client ≡ true
            → result ≡ fits_handles (after_grants d client nodes.now) client }
    {
        self.count_new(client, nodes) <= MOST_HANDLES - self.len_of(client)
    }

    /// Returns the number of an object after grants of others, the slot from which on slots are as free as before these
    /// grants, and whether the client doesn't hold the object and it isn't among the others, either.
    fn number_behind(
        &self,
        client: u32,
        earlier: &[Node],
        numbers: &[u32],
        node: Node,
        behind: usize,
    ) -> (u32, usize, bool)
        requires as_many { length earlier.now ≡ length numbers.now }
        requires few { length earlier.now ≤ MOST_REFS }
        requires near { behind ≤ MOST_HANDLES + length earlier.now }
        ensures step { (t : Slots) → Along (slots_of self.now.rows.items client) t earlier.now numbers.now behind
            → IsNumberFor t node result.0
            × Along (slots_of self.now.rows.items client) (with_grant t node result.0)
            (earlier.now ++ node ∷ []) (numbers.now ++ result.0 ∷ []) result.1 }
        ensures near { result.1 ≤ MOST_HANDLES + length earlier.now + 1 }
        ensures fresh { result.2
            ≡ not (is_in (slots_of self.now.rows.items client) node || list_any (λ n. same_node n node) earlier.now) }
    {
        if let Some(i) = self.index_of(client, node) {
            return (i + 1, behind, false);
        }
        if let Some(i) = node_index(earlier, node) {
            return (numbers[i], behind, false);
        }
        let free = self.free_from(client, behind);
        (free as u32 + 1, free + 1, true)
    }

    /// Returns the number of objects that a client holds.
    pub fn held(&self, client: u32) -> usize
        ensures { (d : Effects) → Tracks d self.now → result ≡ length (held_nodes d client) }
    {
        self.len_of(client)
    }

    /// Returns the number of objects that a client doesn't hold, each counted once.
    fn count_new(&self, client: u32, nodes: &[Node]) -> usize
        ensures { result ≡ new_among (is_in (slots_of self.now.rows.items client)) nodes.now }
    {
        let mut count = 0;
        for i in 0..nodes.len() {
            if self.is_new(client, &nodes[..i], nodes[i]) {
                count += 1;
            }
        }
        count
    }

    /// Returns whether a client doesn't hold an object that isn't among earlier ones, either.
    fn is_new(&self, client: u32, earlier: &[Node], node: Node) -> bool
        ensures { result
            ≡ not (is_in (slots_of self.now.rows.items client) node || list_any (λ n. same_node n node) earlier.now) }
    {
        !self.holds(client, node) && node_index(earlier, node).is_none()
    }

    /// Returns the slot of an object that a client holds.
    fn index_of(&self, client: u32, node: Node) -> Option<u32>
        ensures found { MatchOption result (IsAbsent (slots_of self.now.rows.items client) node)
            (λ i. node_of (slot (slots_of self.now.rows.items client) i) ≡ Some node) }
        ensures small { IfSome result (λ i. i < MOST_HANDLES) }
    {
        match handles_of(&self.rows, client) {
            Some(handles) => handles.index_of(node),
            None => None,
        }
    }

    /// Returns whether a client holds an object.
    fn holds(&self, client: u32, node: Node) -> bool
        ensures { result ≡ is_in (slots_of self.now.rows.items client) node }
    {
        match handles_of(&self.rows, client) {
            Some(handles) => handles.holds(node),
            None => false,
        }
    }

    /// Returns a client's first free slot from `from` on.
    fn free_from(&self, client: u32, from: usize) -> usize
        ensures behind { from ≤ result }
        ensures free { is_some (slot (slots_of self.now.rows.items client) result) ≡ false }
        ensures least { (j : ℕ) → from ≤ j → j < result
            → is_some (slot (slots_of self.now.rows.items client) j) ≡ true }
        ensures small { result ≤ max from MOST_HANDLES }
    {
        match handles_of(&self.rows, client) {
            Some(handles) => handles.free_from(from),
            None => from,
        }
    }

    /// Returns the number of objects that a client holds.
    fn len_of(&self, client: u32) -> usize
        ensures is { result ≡ held_in (slots_of self.now.rows.items client) }
        ensures most { result ≤ MOST_HANDLES }
    {
        match handles_of(&self.rows, client) {
            Some(handles) => handles.len(),
            None => 0,
        }
    }
}
