//! Reads a stream that comes in pieces.

ghost use Rattle.std.specs.Prelude.{◌≡◌, ◌<◌, ◌⊎◌, ◌↔◌, List, IfOk, OnErr, IsTrue, [], length};
ghost use Rattle.sm_wire.specs.Items.{has_rest, IsDead, scan_start, Takes};
ghost use Rattle.sm_wire.specs.Ends.{EndsAs};
ghost use Rattle.sm_wire.specs.declared.ends.End.TheVariants.{At, Later, Never};
ghost use Rattle.sm_wire.specs.declared.item.Item.{Item};

use crate::ends::{End, item_end};
use crate::frame_state::FrameState;
use crate::framing::{end_stream, whole_item};
use crate::item::Item;
use crate::kind::Kind;
use crate::recent_names::RecentNames;
use sm_values::drop_fields;
use std::alloc::{AllocError, Global};
use std::marker::Model;

/// Cuts a stream into items, in whatever pieces it comes.
pub struct LineReader {
    kind: Kind,
    mode: FrameState,
    held: Vec<u8>,
    recent: RecentNames,
}

impl Drop for LineReader {
    fn drop(self) {
        drop_fields!(self: kind, mode, held, recent);
    }
}

impl Model for LineReader {
    ghost use Rattle.sm_wire.specs.Items.{Scan};

    ghost Value = { Scan };

    ghost view = { λ l. record { kind = l.kind; mode = l.mode; held = l.held.items } };
}

impl LineReader {
    /// Makes a reader of a stream of this kind, before its first byte.
    pub fn new(alloc: Global, kind: Kind) -> LineReader
        ensures { result ≡ scan_start kind }
    {
        LineReader {
            kind,
            mode: FrameState::Line,
            held: Vec::new(alloc),
            recent: RecentNames::new(alloc),
        }
    }

    /// Reads a piece up to the end of the first line or files in it, and appends the item that ends there. If neither ends
    /// in the piece, all of it is read. A `reload` line whose files follow gives no item by itself. A line or a file that
    /// is too long gives the last item: what comes after it is read, and gives none.
    ///
    /// Returns the number of bytes that were read.
    ///
    /// # Errors
    ///
    /// An error if an allocation fails; then nothing has changed.
    #[inline(always)]
    pub fn take_one(&mut self, piece: &[u8], items: &mut Vec<Item>) -> Result<usize, AllocError>
        ensures ok { IfOk result (λ n. Takes self.old self.new piece.now n items.old.items items.new.items) }
        ensures err { OnErr result ((self.new ≡ self.old) × (items.new.items ≡ items.old.items)) }
    {
        if !self.held.is_empty() {
            return self.take_held(piece, items);
        }
        match item_end(&self.mode, 0, piece) {
            End::At(n) => {
                let recent = &mut self.recent;
                whole_item(self.kind, &mut self.mode, &piece[..n], recent, items)?;
                Ok(n)
            }
            End::Later => self.hold(piece),
            End::Never => self.die(piece, items),
        }
    }

    // The same, if bytes are held.
    #[inline(never)]
    fn take_held(&mut self, piece: &[u8], items: &mut Vec<Item>) -> Result<usize, AllocError>
        ensures ok { IfOk result (λ n. Takes self.old self.new piece.now n items.old.items items.new.items) }
        ensures err { OnErr result ((self.new ≡ self.old) × (items.new.items ≡ items.old.items)) }
    {
        if piece.is_empty() {
            return Ok(0);
        }
        match item_end(&self.mode, self.held.len(), piece) {
            End::At(n) => self.end_held(piece, n, items),
            End::Later => self.hold(piece),
            End::Never => self.die(piece, items),
        }
    }

    // The same, if the held item ends after the first `n` bytes of the piece.
    fn end_held(
        &mut self,
        piece: &[u8],
        n: usize,
        items: &mut Vec<Item>,
    ) -> Result<usize, AllocError>
        requires { EndsAs self.old.mode (length self.old.held) piece.now (At n) }
        ensures ok { IfOk result (λ n. Takes self.old self.new piece.now n items.old.items items.new.items) }
        ensures err { OnErr result ((self.new ≡ self.old) × (items.new.items ≡ items.old.items)) }
    {
        let held = self.held.len();
        self.held.extend_from_slice(&piece[..n])?;
        let recent = &mut self.recent;
        match whole_item(self.kind, &mut self.mode, &self.held, recent, items) {
            Ok(()) => {
                self.held.clear();
                Ok(n)
            }
            Err(e) => {
                self.held.truncate(held);
                Err(e)
            }
        }
    }

    // The same, if no item ends in the piece.
    fn hold(&mut self, piece: &[u8]) -> Result<usize, AllocError>
        requires { EndsAs self.old.mode (length self.old.held) piece.now Later }
        ensures ok { IfOk result (λ n. (items : List Item) → Takes self.old self.new piece.now n items items) }
        ensures err { OnErr result (self.new ≡ self.old) }
    {
        self.held.extend_from_slice(piece)?;
        Ok(piece.len())
    }

    // The same, if no item ends any more.
    #[cold]
    #[inline(never)]
    fn die(&mut self, piece: &[u8], items: &mut Vec<Item>) -> Result<usize, AllocError>
        requires never { EndsAs self.old.mode (length self.old.held) piece.now Never }
        requires some { self.old.held ≡ [] ⊎ (0 < length piece.now) }
        ensures ok { IfOk result (λ n. Takes self.old self.new piece.now n items.old.items items.new.items) }
        ensures err { OnErr result ((self.new ≡ self.old) × (items.new.items ≡ items.old.items)) }
    {
        end_stream(self.mode, items)?;
        self.held.clear();
        self.mode = FrameState::Dead;
        Ok(piece.len())
    }

    /// Returns whether the stream is inside a line or a file.
    pub fn rest(&self) -> bool
        ensures { result ≡ has_rest self.now }
    {
        matches!(self.mode, FrameState::Texts(_)) || !self.held.is_empty()
    }

    /// Returns whether `Item::LineTooLong` was given.
    pub fn is_dead(&self) -> bool
        ensures { IsTrue result ↔ IsDead self.now }
    {
        matches!(self.mode, FrameState::Dead)
    }
}
