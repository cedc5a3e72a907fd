//! What comes next in a stream.

use crate::reload_header::ReloadHeader;

/// What is read next.
#[derive(Clone, Copy)]
pub enum FrameState {
    Line,
    /// The files after a `reload` line.
    Texts(ReloadHeader),
    /// Nothing: a line or a file was too long.
    Dead,
}
