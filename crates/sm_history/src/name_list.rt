//! Lists of names in replies.

ghost use Rattle.std.specs.Prelude.{◌≡◌, ◌<◌, ◌≤◌, ◌^◌, ◌⊎◌, ◌++◌, ◌∷◌, [], true, false, length};
ghost use Rattle.std.specs.Prelude.{OnOk, OnErr, IfOk, IfSome, IfNone, slice_index_or};
ghost use Rattle.std.specs.List.{flat_map, list_all};
ghost use Rattle.sm_values.specs.Names.{is_valid_name};
ghost use Rattle.sm_history.specs.NameLists.{is_length, spaced};

use crate::name_bytes::{are_spaced_bytes, spaces_in};
use sm_values::MOST_NAME_BYTES;
use std::alloc::{AllocError, Global};
use std::marker::Model;

/// The bytes for which a list has room at first, for each name. Names of services have some 10 to 40.
const MEAN_NAME_BYTES: usize = 16;

/// Where a name's bytes are in those of its list.
#[derive(Clone, Copy)]
pub struct Span {
    pub start: usize,
    pub len: usize,
}

/// Names in rising byte order. Their bytes are stored one after another, each name after a space, so a list shares
/// nothing with the table that it was read from, and takes two allocations for any number of names.
pub struct NameList {
    bytes: Vec<u8>,
    spans: Vec<Span>,
    /// Whether each name has a length of a service name.
    is_plain: bool,
}

impl Model for NameList {
    ghost use Rattle.std.specs.Prelude.{List, ℕ, map};
    ghost use Rattle.sm_history.specs.NameLists.{bytes_at, AreKept};

    ghost Value = { List (List ℕ) };

    ghost view = { λ n. map (bytes_at n.bytes.items) n.spans.items };

    ghost invariant = { λ n. AreKept n.bytes.items n.spans.items n.is_plain };
}

impl Drop for NameList {
    fn drop(self) {
        let NameList {
            bytes: _,
            spans: _,
            is_plain: _,
        } = self;
    }
}

impl NameList {
    /// Makes an empty list with room for `n` names of 16 bytes on average.
    pub fn with_capacity(alloc: Global, n: usize) -> Result<NameList, AllocError>
        ensures { IfOk result (λ list. list ≡ []) }
    {
        let bytes = Vec::with_capacity(alloc, n.saturating_mul(MEAN_NAME_BYTES))?;
        let spans = Vec::with_capacity(alloc, n)?;
        Ok(NameList {
            bytes,
            spans,
            is_plain: true,
        })
    }

    /// Appends a name.
    ///
    /// # Errors
    ///
    /// An error if an allocation fails; the list is then unchanged.
    pub fn push(&mut self, name: &[u8]) -> Result<(), AllocError>
        ensures ok { OnOk result (self.new ≡ self.old ++ name.now ∷ []) }
        ensures err { OnErr result (self.new ≡ self.old) }
    {
        self.spans.reserve(1)?;
        let len = name.len();
        self.bytes.reserve(len + 1)?;
        self.bytes.push_reserved(b' ');
        let start = self.bytes.len();
        self.bytes.extend_from_slice(name)?;
        self.spans.push_reserved(Span { start, len });
        self.is_plain &= is_length(len);
        Ok(())
    }

    /// Returns the names, each after a space, if all are valid names of services, and no result otherwise. Lists of
    /// 4 GiB and more have no result either.
    pub fn plain_text(&self) -> Option<&[u8]>
        ensures valid { IfSome result (λ text. (list_all is_valid_name self.now ≡ true)
            × (text.now ≡ flat_map spaced self.now)) }
        ensures none { IfNone result ((list_all is_valid_name self.now ≡ false)
            ⊎ (2 ^ 32 ≤ length (flat_map spaced self.now))) }
    {
        let bytes = self.bytes.as_slice();
        if bytes.len() >= 1 << 32 || !self.are_valid() {
            return None;
        }
        Some(bytes)
    }

    // Returns whether all names are valid names of services.
    fn are_valid(&self) -> bool
        requires { length (flat_map spaced self.now) < 2 ^ 32 }
        ensures { result ≡ list_all is_valid_name self.now }
    {
        let bytes = self.bytes.as_slice();
        if !self.is_plain {
            return false;
        }
        if !are_spaced_bytes(bytes) {
            return false;
        }
        spaces_in(bytes) as usize == self.spans.len()
    }

    /// Returns the number of names.
    pub fn len(&self) -> usize
        ensures { result ≡ length self.now }
    {
        self.spans.len()
    }

    /// Returns the name at an index.
    pub fn name(&self, i: usize) -> &[u8]
        requires { i < length self.now }
        ensures { result.now ≡ slice_index_or self.now i result.now }
    {
        let span = self.spans[i];
        let (_, rest) = self.bytes.split_at(span.start);
        &rest[..span.len]
    }
}

/// Returns whether a service's name may have this length.
fn is_length(n: usize) -> bool
    ensures { result ≡ is_length n }
{
    n >= 1 && n <= MOST_NAME_BYTES
}
