//! Files with a size limit.

ghost use Rattle.std.specs.Prelude.{◌≡◌, ◌≤◌, IfOk, IfSome, OnOk, length, take};

use std::alloc::Global;
use std::fs;
use std::io::{self, Read};
use std::rt::Files;

/// One byte more than a policy source may have.
const LIMIT: usize = 4_194_305;

/// One byte more than a log may have.
const LOG_LIMIT: usize = 67_108_865;

/// Returns the first bytes of a file: all of them, or enough to see that it is too large.
pub fn read_limited<R: Files + AllocGlobal>(rt: &R, path: &str) -> io::Result<Vec<u8>>
    ensures { IfOk result (λ bytes. length bytes.items ≤ 4194305) }
{
    first_bytes(rt.alloc(), fs::open(rt, path)?, LIMIT)
}

/// Returns the first bytes of a log: all of them, or enough to see that it is too large.
pub fn read_log<R: Read + Drop>(alloc: Global, reader: R) -> io::Result<Vec<u8>>
    ensures most { IfOk result (λ bytes. length bytes.items ≤ 67108865) }
    ensures known { IfOk result (λ bytes. IfSome (R.remaining reader) (λ xs. bytes.items ≡ take 67108865 xs)) }
{
    first_bytes(alloc, reader, LOG_LIMIT)
}

// Returns all bytes of a reader, or as many of the first ones.
fn first_bytes<R: Read + Drop>(alloc: Global, reader: R, most: usize) -> io::Result<Vec<u8>>
    ensures most { IfOk result (λ bytes. length bytes.items ≤ most) }
    ensures known { IfOk result (λ bytes. IfSome (R.remaining reader) (λ xs. bytes.items ≡ take most xs)) }
{
    let mut bytes = Vec::new(alloc);
    reader.take(most as u64).read_to_end(&mut bytes)?;
    bytes.truncate(most);
    Ok(bytes)
}
