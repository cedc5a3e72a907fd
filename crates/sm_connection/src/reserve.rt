//! Memory that is kept for a seal.

use sm_values::drop_fields;
use std::alloc::{AllocError, Global};
use std::sync::atomic::{AtomicBool, Ordering};
use std::sync::{Mutex, Wait};

/// The bytes of a block of a reserve. A seal needs one for the next entries of the journal, and memory in proportion to
/// the tables.
const BLOCK: usize = 425_984;

/// The blocks of a reserve.
const BLOCKS: usize = 12;

/// Memory that is kept for a seal when no other is left. It is never written to, so it takes address space only.
pub struct Reserve {
    alloc: Global,
    blocks: Mutex<Vec<Vec<u8>>>,
    // Whether no block is missing.
    is_whole: AtomicBool,
}

impl Drop for Reserve {
    fn drop(self) {
        drop_fields!(self: alloc, blocks, is_whole);
    }
}

impl Reserve {
    /// Allocates a reserve.
    ///
    /// # Errors
    ///
    /// `AllocError` if an allocation failed.
    pub fn new(alloc: Global) -> Result<Reserve, AllocError> {
        let mut blocks = Vec::with_capacity(alloc, BLOCKS)?;
        for _ in 0..BLOCKS {
            blocks.push(Vec::with_capacity(alloc, BLOCK)?)?;
        }
        Ok(Reserve {
            alloc,
            blocks: Mutex::new(blocks),
            is_whole: AtomicBool::new(true),
        })
    }

    /// Frees the memory.
    pub fn release<R: Wait>(&self, rt: &R) {
        let mut blocks = self.blocks.lock(rt);
        self.is_whole.store(false, Ordering::SeqCst);
        blocks.clear();
    }

    /// Allocates the blocks that are missing, as far as there is memory. The next call tries the others.
    pub fn refill<R: Wait>(&self, rt: &R) {
        if self.is_whole.load(Ordering::SeqCst) {
            return;
        }
        let mut blocks = self.blocks.lock(rt);
        for _ in blocks.len()..BLOCKS {
            let Ok(block) = Vec::with_capacity(self.alloc, BLOCK) else {
                return;
            };
            // There is room for each.
            let _ = blocks.push(block);
        }
        self.is_whole.store(true, Ordering::SeqCst);
    }
}
