//! Decimal numbers in reply lines.

ghost use Rattle.std.specs.Prelude.{◌≡◌, ◌++◌, ◌+◌, ◌<◌, OnOk, OnErr};
ghost use Rattle.std.specs.Fmt.{decimal};
ghost use Rattle.sm_values.specs.Messages.{numbered};

use std::alloc::AllocError;

/// Appends a short word, byte by byte. Inline, since each word is a constant.
#[inline(always)]
pub fn push_word(out: &mut Vec<u8>, word: &[u8]) -> Result<(), AllocError>
    ensures ok { OnOk result (out.new.items ≡ out.old.items ++ word.now) }
    ensures err { OnErr result (out.new.items ≡ out.old.items) }
{
    out.reserve(word.len())?;
    for i in 0..word.len() {
        out.push_reserved(word[i]);
    }
    Ok(())
}

/// Appends some words and a number. Inline, since most words are constants.
#[inline(always)]
pub fn push_numbered(out: &mut Vec<u8>, words: &[u8], n: u64) -> Result<(), AllocError>
    ensures { OnOk result (out.new.items ≡ out.old.items ++ numbered words.now n) }
{
    push_word(out, words)?;
    push_small(out, n)
}

/// Appends a number, as `push_decimal` does. Inline for a single digit.
#[inline(always)]
#[tactic(auto, using(std::proofs::lemmas::Fmt::decimal_digit))]
pub fn push_small(out: &mut Vec<u8>, n: u64) -> Result<(), AllocError>
    ensures { OnOk result (out.new.items ≡ out.old.items ++ decimal n) }
{
    if n < 10 {
        out.push(b'0' + n as u8)?;
        return Ok(());
    }
    push_decimal(out, n)
}

/// Appends a number. Up to four digits need no buffer.
#[inline(never)]
#[tactic(auto, using(crate::proofs::DecimalLemmas::one_digit, crate::proofs::DecimalLemmas::two_digits, crate::proofs::DecimalLemmas::three_digits, crate::proofs::DecimalLemmas::four_digits))]
pub fn push_decimal(out: &mut Vec<u8>, n: u64) -> Result<(), AllocError>
    ensures { OnOk result (out.new.items ≡ out.old.items ++ decimal n) }
{
    if n >= 10_000 {
        return sm_values::push_numbered(out, b"", n);
    }
    let n = n as u32;
    if n < 10 {
        return push_word(out, &[digit(n)]);
    }
    if n < 100 {
        return push_word(out, &[digit(n / 10), digit(n % 10)]);
    }
    if n < 1_000 {
        return push_word(out, &[digit(n / 100), digit(n / 10 % 10), digit(n % 10)]);
    }
    push_word(
        out,
        &[
            digit(n / 1_000),
            digit(n / 100 % 10),
            digit(n / 10 % 10),
            digit(n % 10),
        ],
    )
}

#[inline(always)]
fn digit(n: u32) -> u8
    requires { n < 10 }
    ensures { result ≡ 48 + n }
{
    b'0' + n as u8
}
