//! Visibility of replies.

/// How much of a reply is visible to whoever asked.
#[derive(Clone, Copy, PartialEq, Eq)]
pub enum Telling {
    /// All of it.
    Whole,
    /// A denied `find` is hidden: a Get is answered that nothing was found.
    ToGet,
}
