//! The references of a call.

ghost use Rattle.std.specs.Prelude.{◌≡◌, ◌≤◌, ◌<◌, length, IfOk, OnOk, Err};

use crate::limits::MOST_REFS;
use crate::number::ObjRef;
use std::alloc::{AllocError, Global};
use std::marker::Model;
use thiserror::Error;

/// The references of a call, in order, at most `MOST_REFS`. They are behind a pointer, so that events stay small.
pub struct Refs {
    list: Box<Vec<ObjRef>>,
}

/// Why references can't be those of a call.
#[derive(Clone, Copy, Debug, Error, PartialEq, Eq)]
pub enum RefsError {
    /// There are more than `MOST_REFS`.
    #[error("too many references")]
    TooMany,
    /// An allocation failed.
    #[error("out of memory")]
    Memory,
}

impl Model for Refs {
    ghost use Rattle.std.specs.Prelude.{List, ◌≤◌, length};
    ghost use Rattle.sm_values.specs.declared.limits.TheConstants.{MOST_REFS};
    ghost use Rattle.sm_values.specs.declared.number.ObjRef.{ObjRef};

    ghost Value = { List ObjRef };

    ghost view = { λ r. r.list.value.items };

    ghost invariant = { λ r. length r.list.value.items ≤ MOST_REFS };
}

impl Drop for Refs {
    fn drop(self) {
        let Refs { list: _ } = self;
    }
}

fn boxed(alloc: Global, list: Vec<ObjRef>) -> Result<Box<Vec<ObjRef>>, AllocError>
    ensures { IfOk result (λ b. b.value ≡ list) }
{
    Ok(Box::new(alloc, list)?)
}

impl Refs {
    ghost use Rattle.sm_values.specs.declared.limits.TheConstants.{MOST_REFS};
    ghost use Rattle.sm_values.specs.declared.refs.RefsError.TheVariants.{TooMany};

    /// Makes a list of these references, whose memory it keeps.
    pub fn from_vec(alloc: Global, list: Vec<ObjRef>) -> Result<Refs, RefsError>
        ensures value { IfOk result (λ r. r ≡ list.items) }
        ensures fits { OnOk result (length list.items ≤ MOST_REFS) }
        ensures many { MOST_REFS < length list.items → result ≡ Err TooMany }
        ensures only_many { result ≡ Err TooMany → MOST_REFS < length list.items }
    {
        if list.len() > MOST_REFS {
            return Err(RefsError::TooMany);
        }
        match boxed(alloc, list) {
            Ok(list) => Ok(Refs { list }),
            Err(_) => Err(RefsError::Memory),
        }
    }

    /// Returns the references in their order.
    pub fn list(&self) -> &[ObjRef]
        ensures value { result.now ≡ self.now }
        ensures fits { length result.now ≤ MOST_REFS }
    {
        self.list.as_slice()
    }
}
