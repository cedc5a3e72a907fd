//! Rows of bits.

ghost use Rattle.std.specs.Prelude.{◌≡◌, ◌<◌, length};

use sm_bits::{BitRow, empty_rows};
use std::alloc::Global;
use std::process::Abort;

fn empty_row(rt: &impl Abort, alloc: Global) -> BitRow
    ensures { length result ≡ 2 }
{
    BitRow::empty(alloc, 2).ok().expect(rt, "memory")
}

fn put(row: &mut BitRow, number: usize)
    requires { (length row.old ≡ 2) × (number < 128) }
    ensures { length row.new ≡ 2 }
{
    row.insert(number);
}

fn row_of(rt: &impl Abort, alloc: Global, first: usize, second: usize) -> BitRow
    requires { (first < 128) × (second < 128) }
    ensures { length result ≡ 2 }
{
    let mut row = empty_row(rt, alloc);
    put(&mut row, first);
    put(&mut row, second);
    row
}

/// Asserts that these numbers are in a set, and no other one.
fn has_just(rt: &impl Abort, row: &BitRow, numbers: &[usize])
    requires { length row.now ≡ 2 }
{
    for number in 0..128usize {
        let wanted = numbers.contains(&number);
        assert_eq!(rt; (number, row.has(number)), (number, wanted));
    }
    assert_eq!(rt; row.count(), numbers.len());
}

#[test]
fn sets_of_numbers(rt: HostRuntime) {
    let mut row = row_of(&rt, rt.alloc(), 3, 64);
    let other = row_of(&rt, rt.alloc(), 64, 127);
    has_just(&rt, &row, &[3, 64]);
    assert!(rt; row.meets(&other));
    row.subtract(&other);
    has_just(&rt, &row, &[3]);
    assert!(rt; !row.meets(&other));
    row.union_with(&other);
    has_just(&rt, &row, &[3, 64, 127]);
    row.remove(64);
    has_just(&rt, &row, &[3, 127]);
}

#[test]
fn several_rows(rt: HostRuntime) {
    let rows = empty_rows(rt.alloc(), 3, 2);
    let mut rows = rows.ok().expect(&rt, "memory");
    assert!(rt; rows.len() == 3);
    rows[1].insert(127);
    assert_eq!(rt;
        (rows[0].has(127), rows[1].has(127), rows[2].has(127)),
        (false, true, false)
    );
}

#[test]
fn free_numbers(rt: HostRuntime) {
    let mut row = row_of(&rt, rt.alloc(), 0, 1);
    for (from, free) in [(0, 2), (1, 2), (3, 3), (127, 127), (200, 200)] {
        assert_eq!(rt; (from, row.first_free_from(from)), (from, free));
    }
    assert_eq!(rt; row.first_free(), 2);
    row.insert(63);
    row.insert(64);
    assert_eq!(rt; row.first_free_from(63), 65);
    row.remove(0);
    assert_eq!(rt; row.first_free(), 0);
}

// 63 and 64 are in different words.
#[test]
fn numbers_below_an_end(rt: HostRuntime) {
    let row = row_of(&rt, rt.alloc(), 3, 64);
    let same = row_of(&rt, rt.alloc(), 64, 3);
    let other = row_of(&rt, rt.alloc(), 3, 63);
    assert!(rt; row.is_same_below(&same, 128));
    for (end, alike) in [(0, true), (63, true), (64, false), (128, false)] {
        assert_eq!(rt; (end, row.is_same_below(&other, end)), (end, alike));
    }
    let longer = row_of(&rt, rt.alloc(), 3, 65);
    for (end, alike) in [(64, true), (65, false), (128, false)] {
        assert_eq!(rt; (end, row.is_same_below(&longer, end)), (end, alike));
    }
}
