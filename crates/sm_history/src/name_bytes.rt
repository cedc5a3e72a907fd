//! Tests of bytes without a table and without an early exit, so that the compiler tests many bytes at once.

ghost use Rattle.std.specs.Prelude.{◌≡◌, ◌<◌, ◌^◌, length};
ghost use Rattle.std.specs.List.{count_by, list_all};
ghost use Rattle.sm_history.specs.NameLists.{is_space, is_spaced_byte};

/// Returns whether a byte may be in a service name, or is a space.
fn is_spaced_byte(b: u8) -> bool
    ensures { result ≡ is_spaced_byte b }
{
    let is_letter = (b | 0x20).wrapping_sub(b'a') < 26;
    // Thirteen bytes from `-` on: `-`, `.`, `/` and the digits.
    let is_digit_or_mark = b.wrapping_sub(b'-') < 13;
    is_letter | is_digit_or_mark | (b == b'_') | (b == b' ')
}

/// Returns whether all bytes may be in a service name, or are spaces.
#[inline(never)]
pub fn are_spaced_bytes(bytes: &[u8]) -> bool
    ensures { result ≡ list_all is_spaced_byte bytes.now }
{
    let mut all = true;
    for b in bytes {
        all &= is_spaced_byte(*b);
    }
    all
}

/// Returns the number of spaces.
#[inline(never)]
pub fn spaces_in(bytes: &[u8]) -> u32
    requires { length bytes.now < 2 ^ 32 }
    ensures { result ≡ count_by is_space bytes.now }
{
    let mut count = 0u32;
    for b in bytes {
        count += u32::from(*b == b' ');
    }
    count
}
