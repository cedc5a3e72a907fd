//! A name as a number, by which a row is guessed.

ghost use Rattle.std.specs.Prelude.{◌≤◌, ◌+◌, length};

/// An odd number whose bits are mixed.
const FACTOR: u64 = 0x9e37_79b9_7f4a_7c15;

/// Returns eight bytes of a name as a number.
#[inline(always)]
fn eight_at(name: &[u8], i: usize) -> u64
    requires { i + 8 ≤ length name.now }
{
    u64::from_le_bytes([
        name[i],
        name[i + 1],
        name[i + 2],
        name[i + 3],
        name[i + 4],
        name[i + 5],
        name[i + 6],
        name[i + 7],
    ])
}

/// Returns four bytes of a name as a number.
#[inline(always)]
fn four_at(name: &[u8], i: usize) -> u32
    requires { i + 4 ≤ length name.now }
{
    u32::from_le_bytes([name[i], name[i + 1], name[i + 2], name[i + 3]])
}

/// Mixes a number into a digest. A product has the upper bits of its factors in its upper bits alone.
#[inline(always)]
fn mixed(sum: u64, word: u64) -> u64 {
    let product = (sum ^ word).wrapping_mul(FACTOR);
    product ^ (product >> 32)
}

/// Returns a number that differs for most names. Nothing is claimed of it: it says only where a name may be found.
#[inline(always)]
pub fn digest(name: &[u8]) -> u32 {
    (sum_of(name).wrapping_mul(FACTOR) >> 40) as u32
}

#[inline(always)]
fn sum_of(name: &[u8]) -> u64 {
    let n = name.len();
    let mut sum = n as u64;
    if n < 8 {
        if n >= 4 {
            let ends = (u64::from(four_at(name, 0)) << 32) ^ u64::from(four_at(name, n - 4));
            return mixed(sum, ends);
        }
        for byte in name {
            sum = sum.wrapping_mul(256).wrapping_add(u64::from(*byte));
        }
        return mixed(sum, 0);
    }
    for k in 0..n / 8 {
        sum = mixed(sum, eight_at(name, 8 * k));
    }
    mixed(sum, eight_at(name, n - 8))
}
