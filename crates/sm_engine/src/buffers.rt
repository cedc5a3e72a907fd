//! Buffers of an engine.

ghost use Rattle.std.specs.Prelude.{◌≡◌, []};
ghost use Rattle.sm_engine.specs.Buffers.{IsIdle};

use sm_values::drop_fields;
use sm_wire::Item;
use std::alloc::Global;

/// A text with room for at most four times as many bytes keeps its memory.
const KEPT_BYTES: usize = 16_384;

/// The item that is answered next, and the texts that are held back. They are empty between two pieces, and keep their
/// memory, a text unless it is large and little of it was used. So most pieces need no allocation.
pub struct Buffers {
    /// A list of one item at most. An item is made in its place here.
    pub items: Vec<Item>,
    pub replies: Vec<u8>,
    pub lines: Vec<u8>,
}

impl Drop for Buffers {
    fn drop(self) {
        drop_fields!(self: items, replies, lines);
    }
}

impl Buffers {
    /// Makes empty buffers. Allocates nothing.
    pub fn new(alloc: Global) -> Buffers
        ensures { IsIdle result }
    {
        Buffers {
            items: Vec::new(alloc),
            replies: Vec::new(alloc),
            lines: Vec::new(alloc),
        }
    }

    /// Empties the buffers.
    pub fn clear(&mut self)
        ensures { IsIdle self.new }
    {
        self.items.clear();
        clear_text(&mut self.replies);
        clear_text(&mut self.lines);
    }
}

/// Empties a text. If it has much room, and less than a quarter was used, it gives half of its memory back.
fn clear_text(text: &mut Vec<u8>)
    ensures { text.new.items ≡ [] }
{
    let quarter = text.capacity() / 4;
    let is_large = quarter > KEPT_BYTES && quarter > text.len();
    text.clear();
    if is_large {
        text.shrink_to(quarter * 2);
    }
}
