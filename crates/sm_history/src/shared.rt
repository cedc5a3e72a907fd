//! Values that are shared.

ghost use Rattle.std.specs.Prelude.{◌≡◌, IfOk};

use std::alloc::{AllocError, Global};
use std::fmt;
use std::marker::Model;
use std::sync::Arc;

/// A value behind a shared pointer, so that what has it stays small and a copy costs nothing: the journal, an inbox and
/// a reply share one delivery. Contracts see the value.
pub struct Shared<T> {
    value: Arc<T>,
}

impl<T> Model for Shared<T> {
    ghost use Rattle.std.specs.Arc.{arc_value};

    ghost Value = { T };

    ghost view = { λ s. arc_value s.value };
}

impl<T: Drop> Drop for Shared<T> {
    fn drop(self) {
        let Shared { value: _ } = self;
    }
}

impl<T: Drop> Clone for Shared<T> {
    ghost is_clone = { λ s copy. copy ≡ s };

    /// Returns another reference to the same value.
    fn clone(&self) -> Result<Shared<T>, AllocError> {
        let value = Arc::try_clone(&self.value)?;
        Ok(Shared { value })
    }
}

impl<T: Drop> Shared<T> {
    /// Moves a value behind a shared pointer.
    pub fn new(alloc: Global, value: T) -> Result<Shared<T>, AllocError>
        ensures { IfOk result (λ s. s ≡ value) }
    {
        let value = Arc::new(alloc, value)?;
        Ok(Shared { value })
    }

    /// Returns the value.
    pub fn get(&self) -> &T
        ensures { result.now ≡ self.now }
    {
        &self.value
    }
}

impl<T: fmt::Display + Drop> fmt::Display for Shared<T> {
    fn fmt<W: fmt::Write>(&self, f: &mut fmt::Formatter<W>) -> fmt::Result {
        write!(f, "{}", self.get())
    }
}

impl<T: fmt::Debug + Drop> fmt::Debug for Shared<T> {
    fn fmt<W: fmt::Write>(&self, f: &mut fmt::Formatter<W>) -> fmt::Result {
        write!(f, "{:?}", self.get())
    }
}
