//! When a server seals its journal by itself.

/// When a server seals its journal by itself. If it does at all, it also does when a change was refused because the
/// journal is full or an allocation failed.
#[derive(Clone, Copy, PartialEq, Eq)]
pub struct SealAt {
    /// When the open segment has this many entries.
    pub entries: Option<u32>,
    /// When its entries have this many bytes, by an upper bound.
    pub bytes: Option<u64>,
}
