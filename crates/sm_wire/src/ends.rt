//! Finds the end of the next item of a stream.

ghost use Rattle.sm_wire.specs.Ends.{EndsAs, TextsEndAs};

use crate::frame_state::FrameState;
use memchr::memchr;

/// The most bytes of a line, without its newline.
const LINE_LIMIT: usize = 4096;

/// Where an item ends, among the next bytes.
#[derive(Clone, Copy)]
pub enum End {
    /// After this many of them, at least one.
    At(usize),
    /// After none of them.
    Later,
    /// Nowhere: a line is too long.
    Never,
}

/// Returns where an item ends, of which `held` bytes have come before these. Inline, so that `mode` isn't copied.
#[inline(always)]
pub fn item_end(mode: &FrameState, held: usize, bytes: &[u8]) -> End
    ensures { EndsAs mode.now held bytes.now result }
{
    match mode {
        FrameState::Line => {
            let room = LINE_LIMIT.saturating_sub(held);
            match memchr(b'\n', bytes) {
                Some(i) if i <= room => End::At(i + 1),
                None if bytes.len() <= room => End::Later,
                _ => End::Never,
            }
        }
        FrameState::Texts(header) => texts_end(header.length(), held, bytes),
        FrameState::Dead => End::Never,
    }
}

// Returns where files of this length end.
#[cold]
#[inline(never)]
fn texts_end(length: u64, held: usize, bytes: &[u8]) -> End
    ensures { TextsEndAs length held bytes.now result }
{
    let missing = length.saturating_sub(held as u64);
    if missing > 0 && missing <= bytes.len() as u64 {
        return End::At(missing as usize);
    }
    End::Later
}
