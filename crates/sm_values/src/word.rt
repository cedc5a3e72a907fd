//! Words of a source.

ghost use Rattle.std.specs.Prelude.{◌≡◌, ◌≤◌, ◌+◌, IsTrue, length};
ghost use Rattle.std.specs.Int.{from_le_bytes, w32, w64};
ghost use Rattle.std.specs.Str.{bytes_eq};
ghost use Rattle.sm_values.specs.Words.{eight, four};

use crate::escaped::write_escaped;
use std::fmt;
use std::marker::Model;

/// A word of a source. Contracts see its bytes.
#[derive(Drop)]
pub struct Word<'a> {
    bytes: &'a [u8],
}

impl<'a> Model for Word<'a> {
    ghost use Rattle.std.specs.Prelude.{List, ℕ};

    ghost Value = { List ℕ };

    ghost view = { λ w. w.bytes.now };
}

impl<'a> fmt::Display for Word<'a> {
    fn fmt<W: fmt::Write>(&self, f: &mut fmt::Formatter<W>) -> fmt::Result {
        write_escaped(f, self.bytes)
    }
}

impl<'a> fmt::Debug for Word<'a> {
    fn fmt<W: fmt::Write>(&self, f: &mut fmt::Formatter<W>) -> fmt::Result {
        write!(f, "Word({self})")
    }
}

impl<'a> Word<'a> {
    ghost use Rattle.std.specs.Prelude.{◌≡◌};

    /// Makes a word of these bytes.
    pub fn new(bytes: &'a [u8]) -> Word<'a>
        ensures { result ≡ bytes.now }
    {
        Word { bytes }
    }

    /// Returns the bytes of the word.
    pub fn bytes(&self) -> &'a [u8]
        ensures { result.now ≡ self.now }
    {
        self.bytes
    }
}

/// Returns eight bytes as a number.
#[inline(always)]
fn eight_at(bytes: &[u8], i: usize) -> u64
    requires { i + 8 ≤ length bytes.now }
    ensures { result ≡ from_le_bytes w64 (eight bytes.now i) }
{
    u64::from_le_bytes([
        bytes[i],
        bytes[i + 1],
        bytes[i + 2],
        bytes[i + 3],
        bytes[i + 4],
        bytes[i + 5],
        bytes[i + 6],
        bytes[i + 7],
    ])
}

/// Returns four bytes as a number.
#[inline(always)]
fn four_at(bytes: &[u8], i: usize) -> u32
    requires { i + 4 ≤ length bytes.now }
    ensures { result ≡ from_le_bytes w32 (four bytes.now i) }
{
    u32::from_le_bytes([bytes[i], bytes[i + 1], bytes[i + 2], bytes[i + 3]])
}

/// Returns whether two lists have the same eight bytes from an index on.
#[inline(always)]
fn same_eight(a: &[u8], b: &[u8], i: usize) -> bool
    requires a { i + 8 ≤ length a.now }
    requires b { i + 8 ≤ length b.now }
    ensures yes { IsTrue result → eight a.now i ≡ eight b.now i }
    ensures no { a.now ≡ b.now → IsTrue result }
{
    eight_at(a, i) == eight_at(b, i)
}

/// Returns whether two lists have the same four bytes from an index on.
#[inline(always)]
fn same_four(a: &[u8], b: &[u8], i: usize) -> bool
    requires a { i + 4 ≤ length a.now }
    requires b { i + 4 ≤ length b.now }
    ensures yes { IsTrue result → four a.now i ≡ four b.now i }
    ensures no { a.now ≡ b.now → IsTrue result }
{
    four_at(a, i) == four_at(b, i)
}

/// Returns whether bytes are the same, of lists that are equally long. Eight are compared at a time.
#[inline]
fn same_bytes(a: &[u8], b: &[u8]) -> bool
    requires { length a.now ≡ length b.now }
    ensures yes { IsTrue result → a.now ≡ b.now }
    ensures no { a.now ≡ b.now → IsTrue result }
{
    let n = a.len();
    if n >= 8 {
        for k in 0..n / 8 {
            if !same_eight(a, b, 8 * k) {
                return false;
            }
        }
        return same_eight(a, b, n - 8);
    }
    if n >= 4 {
        if !same_four(a, b, 0) {
            return false;
        }
        return same_four(a, b, n - 4);
    }
    for i in 0..n {
        if a[i] != b[i] {
            return false;
        }
    }
    true
}

/// Returns whether the bytes are this text. Lengths are compared first, inline, since most words differ in them.
#[inline(always)]
pub fn spells(bytes: &[u8], text: &[u8]) -> bool
    ensures { result ≡ bytes_eq bytes.now text.now }
{
    if bytes.len() != text.len() {
        return false;
    }
    same_bytes(bytes, text)
}
