//! Names in records of denials.

ghost use Rattle.std.specs.Prelude.{◌≡◌, IfOk};
ghost use Rattle.sm_suggestions.specs.Names.{name_in};

use hex::FromHexError;
use std::alloc::{AllocError, Global};

/// Returns the name that a word of a record represents.
///
/// `%` and hexadecimal digits are the name whose bytes they are: an audit record has that for a name that isn't valid.
/// Another word is the name itself.
pub fn read_name(alloc: Global, word: &[u8]) -> Result<Vec<u8>, AllocError>
    ensures { IfOk result (λ name. name.items ≡ name_in word.now) }
{
    match word.split_first() {
        Some((b'%', digits)) => match hex::decode(alloc, digits) {
            Ok(name) => Ok(name),
            Err(FromHexError::OutOfMemory) => Err(AllocError),
            Err(_) => Vec::from_slice(alloc, word),
        },
        _ => Vec::from_slice(alloc, word),
    }
}
