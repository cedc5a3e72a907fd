//! The bits of a byte.

ghost use Rattle.std.specs.Prelude.{◌≡◌, ℕ, ◌<◌, ◌||◌, nat_eq};
ghost use Rattle.sm_bits.specs.Bits.{has_bit};

/// Returns whether a bit is set, 0 the lowest.
#[tactic(auto, unfolding(crate::specs::Bits::has_bit))]
pub fn has_bit(byte: u8, bit: u32) -> bool
    requires { bit < 8 }
    ensures { result ≡ has_bit byte bit }
{
    byte >> bit & 1 == 1
}

/// Returns the byte with one more bit.
pub fn with_bit(byte: u8, bit: u32) -> u8
    requires { bit < 8 }
    ensures { (b : ℕ) → has_bit result b ≡ (has_bit byte b || nat_eq b bit) }
{
    byte | 1 << bit
}
