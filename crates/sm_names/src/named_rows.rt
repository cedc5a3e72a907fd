//! Rows of names, each of which stays where it was put.

ghost use Rattle.std.specs.Prelude.{◌≡◌, ◌≤◌, ◌<◌, ◌+◌, ◌==◌, false, [], length, nat_lt, slice_set, insert, remove};
ghost use Rattle.std.specs.Prelude.{filter, not, IfOk, IfSome, OnOk, IsTrue, Some, MatchResult};
ghost use Rattle.std.specs.List.Sorted.{IsSearchInRange};
ghost use Rattle.sm_history.specs.Rising.{IsRising};
ghost use Rattle.sm_history.specs.Tables.{row_in, service_of, names_of, IsNamePlace, IsNameGap, IsNameChanged};
ghost use Rattle.sm_names.specs.Orders.{row_at};
ghost use Rattle.sm_names.specs.Rows.{matching_names};

use crate::hints::Hints;
use crate::ordered::{
    copies_in_order, copies_of, has_name, matching, position_of, position_of_last, rename_near,
};
use sm_history::{NameList, NamedRow, Service};
use std::alloc::{AllocError, Global};
use std::marker::Model;

/// Rows of names. Contracts see them in rising byte order of the names.
///
/// A new row comes last, so that its index stays until a row is removed. `order` has the indices in the order of the
/// names.
pub struct NamedRows {
    rows: Vec<NamedRow>,
    order: Vec<usize>,
}

impl Model for NamedRows {
    ghost use Rattle.std.specs.Prelude.{length, min};
    ghost use Rattle.std.specs.Vec.{vec_capacity};
    ghost use Rattle.sm_names.specs.Orders.{RowsWithRoom, rows_at, IsOrder};

    ghost Value = { RowsWithRoom };

    ghost view = { λ t. record {
      items = rows_at t.rows.items t.order.items;
      capacity = min (vec_capacity t.rows) (vec_capacity t.order);
    } };

    ghost invariant = { λ t. IsOrder (length t.rows.items) t.order.items };
}

impl Drop for NamedRows {
    fn drop(self) {
        let NamedRows { rows: _, order: _ } = self;
    }
}

impl NamedRows {
    /// Makes an empty table.
    pub fn new(alloc: Global) -> NamedRows
        ensures { result.items ≡ [] }
    {
        NamedRows {
            rows: Vec::new(alloc),
            order: Vec::new(alloc),
        }
    }

    /// Copies the rows, with room for `n` more. The names are shared.
    pub fn copy(&self, alloc: Global, n: usize) -> Result<NamedRows, AllocError>
        ensures { IfOk result (λ t. (t.items ≡ self.now.items) × (length self.now.items + n ≤ t.capacity)) }
    {
        let mut rows = copies_of(alloc, &self.rows)?;
        rows.reserve(n)?;
        let mut order = self.order.clone()?;
        order.reserve(n)?;
        Ok(NamedRows { rows, order })
    }

    /// Copies the rows in rising byte order. The names are shared.
    pub fn listed(&self, alloc: Global) -> Result<Vec<NamedRow>, AllocError>
        ensures { IfOk result (λ v. v.items ≡ self.now.items) }
    {
        copies_in_order(alloc, &self.rows, &self.order)
    }

    /// Returns the names whose dump flags share a bit with a mask, in rising byte order.
    pub fn by_mask(&self, alloc: Global, mask: u32) -> Result<NameList, AllocError>
        ensures { IfOk result (λ names. names ≡ matching_names mask self.now.items) }
    {
        matching(alloc, &self.rows, &self.order, mask)
    }

    /// Makes room for `n` more rows.
    pub fn reserve(&mut self, n: usize) -> Result<(), AllocError>
        ensures same { self.new.items ≡ self.old.items }
        ensures room { OnOk result (length self.new.items + n ≤ self.new.capacity) }
        ensures kept { self.old.capacity ≤ self.new.capacity }
    {
        self.rows.reserve(n)?;
        self.order.reserve(n)
    }

    /// Returns whether one more row allocates nothing.
    pub fn is_ready(&self) -> bool
        ensures { result ≡ nat_lt (length self.now.items) self.now.capacity }
    {
        self.order.len() < self.rows.capacity().min(self.order.capacity())
    }

    /// Returns the number of rows.
    pub fn len(&self) -> usize
        ensures { result ≡ length self.now.items }
    {
        self.order.len()
    }

    /// Returns the rows as they were put.
    pub fn rows(&self) -> &[NamedRow] {
        &self.rows
    }

    /// Returns the position of a name, or the one at which it would be inserted.
    pub fn search(&self, name: &[u8]) -> Result<usize, usize>
        ensures within { IsSearchInRange result (length self.now.items) }
        ensures place { IsRising (names_of self.now.items)
            → MatchResult result (IsNamePlace self.now.items name.now) (IsNameGap self.now.items name.now) }
    {
        position_of(&self.rows, &self.order, name)
    }

    /// Returns the index of the row at a position.
    pub fn index_at(&self, position: usize) -> usize
        requires { position < length self.now.items }
    {
        self.order[position]
    }

    /// Returns the service at a position.
    pub fn service_at(&self, position: usize) -> Service
        requires { position < length self.now.items }
        ensures { result ≡ (row_at self.now.items position).service }
    {
        self.rows[self.order[position]].service
    }

    /// Returns the service of the row with an index, if the row has this name.
    #[inline(always)]
    pub fn guess(&self, i: usize, name: &[u8]) -> Option<Service>
        ensures { IfSome result (λ s. IsRising (names_of self.now.items)
            → service_of (row_in self.now.items name.now) ≡ Some s) }
    {
        if has_name(&self.rows, i, name) {
            return Some(self.rows[i].service);
        }
        None
    }

    /// Sets the service of the row with an index, if the row has this name, and returns whether it has.
    #[inline(always)]
    pub fn put_guess(&mut self, i: usize, name: &[u8], service: Service) -> bool
        ensures found { IsTrue result → IsRising (names_of self.old.items)
            → IsNameChanged self.old.items self.new.items name.now
            (Some (record { name = name.now; service = service })) }
        ensures missed { result ≡ false → self.new ≡ self.old }
        ensures kept { (self.new.capacity ≡ self.old.capacity) × (length self.new.items ≡ length self.old.items) }
    {
        if has_name(&self.rows, i, name) {
            self.rows[i].service = service;
            return true;
        }
        false
    }

    /// Sets the service at a position.
    pub fn set(&mut self, position: usize, service: Service)
        requires { position < length self.old.items }
        ensures items { self.new.items ≡ slice_set self.old.items position
            (record (row_at self.old.items position) { service = service }) }
        ensures kept { self.new.capacity ≡ self.old.capacity }
    {
        let i = self.order[position];
        self.rows[i].service = service;
    }

    /// Inserts a row at a position. Allocates nothing.
    pub fn insert(&mut self, position: usize, row: NamedRow)
        requires within { position ≤ length self.old.items }
        requires room { length self.old.items < self.old.capacity }
        ensures items { self.new.items ≡ insert self.old.items position row }
        ensures kept { self.new.capacity ≡ self.old.capacity }
    {
        let i = self.rows.len();
        match self.order.insert(position, i) {
            Ok(()) => {}
            Err(_) => unreachable!(),
        }
        self.rows.push_reserved(row);
    }

    /// Removes the row at a position, and returns its index, which the last row has from now on.
    pub fn remove(&mut self, position: usize) -> usize
        requires { position < length self.old.items }
        ensures items { self.new.items ≡ remove self.old.items position }
        ensures kept { self.new.capacity ≡ self.old.capacity }
    {
        let i = self.order.remove(position);
        let near = position_of_last(&self.rows, &self.order);
        let _ = self.rows.swap_remove(i);
        rename_near(&mut self.order, near, self.rows.len(), i);
        i
    }

    /// Removes the services of a client's objects. Hints to rows that moved are set.
    pub fn remove_client(&mut self, client: u32, hints: &mut Hints)
        ensures items { self.new.items ≡ filter (λ r. not (client == r.service.node.owner.0)) self.old.items }
        ensures kept { self.new.capacity ≡ self.old.capacity }
    {
        for position in (0..self.len()).rev() {
            if client == self.service_at(position).node.owner.0 {
                let i = self.remove(position);
                hints.moved(&self.rows, i);
            }
        }
    }
}
