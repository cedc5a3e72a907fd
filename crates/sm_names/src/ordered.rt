//! Rows of names by their indices, and lists of these in the order of the names.

ghost use Rattle.std.specs.Prelude.{◌≡◌, ◌<◌, ◌≤◌, ◌∷◌, [], ◌++◌, length, map, IfOk, OnOk, IsTrue, MatchResult};
ghost use Rattle.std.specs.List.Sorted.{IsSearchInRange};
ghost use Rattle.sm_history.specs.Rising.{IsRising};
ghost use Rattle.sm_history.specs.Tables.{names_of, IsNamePlace, IsNameGap};
ghost use Rattle.sm_names.specs.Orders.{row_at, rows_at, times, IsOrder, renamed};
ghost use Rattle.sm_names.specs.Rows.{matching_names};

use sm_history::{NameList, NamedRow};
use sm_values::spells;
use std::alloc::{AllocError, Global};

/// Returns the name of the row with an index, or no bytes if there is none.
#[inline(always)]
fn name_at(rows: &[NamedRow], i: usize) -> &[u8]
    ensures { result.now ≡ (row_at rows.now i).name }
{
    match rows.get(i) {
        Some(row) => row.name.bytes(),
        None => &[],
    }
}

/// Returns the row with an index.
#[inline(always)]
fn row_of(rows: &[NamedRow], i: usize) -> &NamedRow
    requires { i < length rows.now }
    ensures { result.now ≡ row_at rows.now i }
{
    &rows[i]
}

/// Returns true only if there is a row with this index and this name.
#[inline(always)]
pub fn has_name(rows: &[NamedRow], i: usize, name: &[u8]) -> bool
    ensures { IsTrue result → (i < length rows.now) × ((row_at rows.now i).name ≡ name.now) }
{
    match rows.get(i) {
        Some(row) => spells(row.name.bytes(), name),
        None => false,
    }
}

/// Returns the position of a name, or the one at which it would be inserted.
pub fn position_of(rows: &[NamedRow], order: &[usize], name: &[u8]) -> Result<usize, usize>
    ensures within { IsSearchInRange result (length order.now) }
    ensures place { IsRising (names_of (rows_at rows.now order.now))
        → MatchResult result (IsNamePlace (rows_at rows.now order.now) name.now)
        (IsNameGap (rows_at rows.now order.now) name.now) }
{
    order.binary_search_by(|i| name_at(rows, *i).cmp(name))
}

/// Appends a copy of a row; the name is shared. Returns an error if an allocation fails.
#[inline(always)]
fn push_copy(copies: &mut Vec<NamedRow>, row: &NamedRow) -> Result<(), AllocError>
    ensures { OnOk result (copies.new.items ≡ copies.old.items ++ row.now ∷ []) }
{
    let name = row.name.clone()?;
    let service = row.service;
    copies.push(NamedRow { name, service })?;
    Ok(())
}

/// Copies rows. Returns an error if an allocation fails.
pub fn copies_of(alloc: Global, rows: &[NamedRow]) -> Result<Vec<NamedRow>, AllocError>
    ensures { IfOk result (λ v. v.items ≡ rows.now) }
{
    let mut copies = Vec::with_capacity(alloc, rows.len())?;
    for row in rows {
        push_copy(&mut copies, row)?;
    }
    Ok(copies)
}

/// Copies rows in the order of some indices. Returns an error if an allocation fails.
#[tactic(auto, using(crate::proofs::OrderLemmas::below, crate::proofs::OrderLemmas::next_at))]
pub fn copies_in_order(
    alloc: Global,
    rows: &[NamedRow],
    order: &[usize],
) -> Result<Vec<NamedRow>, AllocError>
    requires { IsOrder (length rows.now) order.now }
    ensures { IfOk result (λ v. v.items ≡ rows_at rows.now order.now) }
{
    let mut copies = Vec::with_capacity(alloc, order.len())?;
    for i in order {
        push_copy(&mut copies, row_of(rows, *i))?;
    }
    Ok(copies)
}

/// Appends the name of a row whose dump flags share a bit with a mask.
fn push_matching(names: &mut NameList, row: &NamedRow, mask: u32) -> Result<(), AllocError>
    ensures { OnOk result (names.new ≡ names.old ++ matching_names mask (row.now ∷ [])) }
{
    if row.service.dump & mask != 0 {
        return names.push(row.name.bytes());
    }
    Ok(())
}

/// Returns the names whose dump flags share a bit with a mask, in the order of some indices.
#[tactic(auto, using(crate::proofs::OrderLemmas::below, crate::proofs::OrderLemmas::next_matching))]
pub fn matching(
    alloc: Global,
    rows: &[NamedRow],
    order: &[usize],
    mask: u32,
) -> Result<NameList, AllocError>
    requires { IsOrder (length rows.now) order.now }
    ensures { IfOk result (λ names. names ≡ matching_names mask (rows_at rows.now order.now)) }
{
    let mut names = NameList::with_capacity(alloc, order.len())?;
    for i in order {
        push_matching(&mut names, row_of(rows, *i), mask)?;
    }
    Ok(names)
}

/// Returns an index, or another one in its place.
#[inline(always)]
fn replaced(i: usize, from: usize, to: usize) -> usize
    ensures { result ≡ renamed from to i }
{
    if i == from { to } else { i }
}

/// Returns the position of the last row, most likely.
pub fn position_of_last(rows: &[NamedRow], order: &[usize]) -> usize {
    match rows.last() {
        Some(row) => match position_of(rows, order, row.name.bytes()) {
            Ok(position) => position,
            Err(position) => position,
        },
        None => 0,
    }
}

/// Replaces an index, which is there once at most, by another. It is at this position, most likely.
pub fn rename_near(order: &mut [usize], near: usize, from: usize, to: usize)
    requires { times from order.old ≤ 1 }
    ensures { order.new ≡ map (renamed from to) order.old }
{
    if near < order.len() {
        if order[near] == from {
            order[near] = to;
            return;
        }
    }
    rename(order, from, to);
}

/// Replaces an index by another.
pub fn rename(order: &mut [usize], from: usize, to: usize)
    ensures { order.new ≡ map (renamed from to) order.old }
{
    for i in order.iter_mut() {
        *i = replaced(*i, from, to);
    }
}
