//! Decimal numbers without leading zeros.

ghost use Rattle.std.specs.Prelude.{◌≡◌, ◌+◌, ◌*◌, ◌-◌, ◌≤◌, IfSome, nat_le, ◌&&◌, if◌then◌else◌};
ghost use Rattle.std.specs.Char.{is_ascii_digit};
ghost use Rattle.sm_wire.specs.Number.{u32_max, u64_max, parsed_number, digits_after};
ghost use Rattle.sm_wire.specs.Reading.{ReadsAs};

use crate::read_error::ReadError;

/// Returns the number that the bytes spell, if it is at most `max`. Short numbers need no loop.
#[inline]
pub fn number(bytes: &[u8], max: u64) -> Option<u64>
    ensures value { result ≡ parsed_number max bytes.now }
    ensures bound { IfSome result (λ n. n ≤ max) }
{
    match bytes {
        [] => None,
        [digit] => grown(0, *digit, max),
        [b'0', ..] => None,
        [first, second] => grown(grown(0, *first, max)?, *second, max),
        _ => digits(bytes, max),
    }
}

fn digits(bytes: &[u8], max: u64) -> Option<u64>
    ensures value { result ≡ digits_after max 0 bytes.now }
    ensures bound { IfSome result (λ n. n ≤ max) }
{
    let mut n: u64 = 0;
    for b in bytes {
        n = grown(n, *b, max)?;
    }
    Some(n)
}

// Returns the number with one more digit, if it is at most `max`.
fn grown(n: u64, digit: u8, max: u64) -> Option<u64>
    ensures value { result ≡ (if is_ascii_digit digit && nat_le (10 * n + (digit - 48)) max
        then Some (10 * n + (digit - 48)) else None) }
    ensures bound { IfSome result (λ more. more ≤ max) }
{
    if !digit.is_ascii_digit() {
        return None;
    }
    let more = n.checked_mul(10)?.checked_add(u64::from(digit - b'0'))?;
    if more <= max { Some(more) } else { None }
}

/// Parses a number of at most 32 bits.
pub fn u32_field(field: &[u8]) -> Result<u32, ReadError>
    ensures { ReadsAs result (parsed_number u32_max field.now) }
{
    match number(field, 0xffff_ffff) {
        Some(n) => Ok(n as u32),
        None => Err(ReadError::Malformed),
    }
}

/// Parses a number of at most 64 bits.
pub fn u64_field(field: &[u8]) -> Result<u64, ReadError>
    ensures { ReadsAs result (parsed_number u64_max field.now) }
{
    match number(field, 0xffff_ffff_ffff_ffff) {
        Some(n) => Ok(n),
        None => Err(ReadError::Malformed),
    }
}
