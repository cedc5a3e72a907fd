//! Security contexts.

ghost use Rattle.std.specs.Prelude.{◌≡◌, ◌≢◌, ◌≤◌, ◌<◌, length, drop, take, IfOk, OnOk, OnErr, true, false};
ghost use Rattle.std.specs.List.{prefix_len, list_all};
ghost use Rattle.sm_values.specs.Contexts as spec;

use crate::lines::behind;
use std::alloc::{AllocError, Global};
use std::marker::Model;
use std::sync::ArcSlice;
use thiserror::Error;

/// A security context, `user:role:type` or `user:role:type:range`, which contracts see as its text.
/// No check reads the range.
pub struct Context {
    text: ArcSlice<u8>,
}

/// Why bytes are no context.
#[derive(Clone, Copy, Debug, Error, PartialEq, Eq)]
pub enum ContextError {
    /// They aren't `user:role:type` or `user:role:type:range`.
    #[error("not a security context")]
    BadContext,
    /// An allocation failed.
    #[error("out of memory")]
    Memory,
}

impl Model for Context {
    ghost use Rattle.std.specs.Arc.{arc_slice_items};
    ghost use Rattle.std.specs.Prelude.{List, ℕ};

    ghost Value = { List ℕ };

    ghost view = { λ n. arc_slice_items n.text };
}

impl Drop for Context {
    fn drop(self) {
        let Context { text: _ } = self;
    }
}

impl Clone for Context {
    ghost is_clone = { λ n copy. copy ≡ n };

    /// Returns another reference to the same text.
    fn clone(&self) -> Result<Context, AllocError> {
        let text = self.text.clone()?;
        Ok(Context { text })
    }
}

impl Context {
    ghost use Rattle.sm_values.specs.declared.context.ContextError.TheVariants.{BadContext};

    /// Reads a context.
    pub fn read(alloc: Global, text: &[u8]) -> Result<Context, ContextError>
        ensures value { IfOk result (λ c. c ≡ text.now) }
        ensures good { OnOk result (spec.is_context text.now ≡ true) }
        ensures bad { spec.is_context text.now ≡ false → result ≡ Err BadContext }
        ensures only_bad { result ≡ Err BadContext → spec.is_context text.now ≡ false }
    {
        if !is_context(text) {
            return Err(ContextError::BadContext);
        }
        match copied(alloc, text) {
            Ok(context) => Ok(context),
            Err(_) => Err(ContextError::Memory),
        }
    }

    /// Returns the type: the part after the second colon, up to the third one or the end.
    pub fn type_name(&self) -> &[u8]
        ensures { result.now ≡ spec.type_of self.now }
    {
        let text = self.text.as_slice();
        let rest = behind(text, type_start(text));
        let (kind, _) = rest.split_at(part_len(rest));
        kind
    }

    /// Returns the whole context.
    pub fn text(&self) -> &[u8]
        ensures { result.now ≡ self.now }
    {
        self.text.as_slice()
    }
}

fn copied(alloc: Global, text: &[u8]) -> Result<Context, AllocError>
    ensures { IfOk result (λ c. c ≡ text.now) }
{
    let text = ArcSlice::from_slice(alloc, text)?;
    Ok(Context { text })
}

fn is_graphic(b: u8) -> bool
    ensures { result ≡ spec.is_graphic b }
{
    b'!' <= b && b <= b'~'
}

/// Returns whether each byte is a graphic character of ASCII, 0x21 to 0x7E.
pub fn all_graphic(bytes: &[u8]) -> bool
    ensures { result ≡ list_all spec.is_graphic bytes.now }
{
    bytes.iter().all(|b| is_graphic(*b))
}

fn part_len(bytes: &[u8]) -> usize
    ensures value { result ≡ prefix_len spec.is_in_part bytes.now }
    ensures within { result ≤ length bytes.now }
{
    bytes.iter().take_while(|b| **b != b':').count()
}

/// Returns where what follows the first part and its colon begins, or the length if there is no colon.
fn part_end(bytes: &[u8]) -> usize
    ensures value { drop result bytes.now ≡ spec.behind_part bytes.now }
    ensures within { result ≤ length bytes.now }
{
    let len = part_len(bytes);
    if len == bytes.len() {
        return len;
    }
    len + 1
}

/// Returns where the third part begins, or the length if there is none.
fn type_start(text: &[u8]) -> usize
    ensures value { drop result text.now ≡ spec.behind_part (spec.behind_part text.now) }
    ensures within { result ≤ length text.now }
{
    let role = part_end(text);
    role + part_end(behind(text, role))
}

/// Returns what follows a nonempty part and its colon.
fn after_part(bytes: &[u8]) -> Option<&[u8]>
    ensures { spec.SeenAs result (spec.after_part bytes.now) }
{
    let len = part_len(bytes);
    if len == 0 || len == bytes.len() {
        None
    } else {
        Some(behind(bytes, len + 1))
    }
}

/// Returns whether the bytes are a type, with or without a range.
fn is_type_and_range(bytes: &[u8]) -> bool
    ensures { result ≡ spec.is_type_and_range bytes.now }
{
    let len = part_len(bytes);
    len != 0 && len + 1 != bytes.len()
}

/// Returns whether the text is a context: `user:role:type` or `user:role:type:range`. The first three parts are bytes
/// from 0x21 to 0x7E other than `:`, at least one; the range is at least one byte from 0x21 to 0x7E, and may contain
/// `:`.
#[tactic(auto, unfolding(crate::specs::Contexts::is_context))]
pub fn is_context(text: &[u8]) -> bool
    ensures { result ≡ spec.is_context text.now }
{
    if !all_graphic(text) {
        return false;
    }
    let Some(role) = after_part(text) else {
        return false;
    };
    let Some(rest) = after_part(role) else {
        return false;
    };
    is_type_and_range(rest)
}
