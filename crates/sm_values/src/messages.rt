//! Parts of messages: decimal numbers, names, and the words of an access.

ghost use Rattle.std.specs.Prelude.{◌≡◌, ◌++◌, OnOk, codes};
ghost use Rattle.sm_values.specs.Messages.{access_words, name_text, numbered};

use crate::class::Class;
use crate::name::valid_name;
use crate::perms::Perms;
use itoa::Buffer;
use std::alloc::{AllocError, Global};

/// Appends some words and a number in decimal digits. On error a part may have been appended.
pub fn push_numbered(text: &mut Vec<u8>, words: &[u8], n: u64) -> Result<(), AllocError>
    ensures { OnOk result (text.new.items ≡ text.old.items ++ numbered words.now n) }
{
    let mut buffer = Buffer::new();
    text.extend_from_slice(words)?;
    text.extend_from_slice(buffer.format(n).as_bytes())
}

/// Appends a name: a valid one as it is, another as `%` and two lower-case hexadecimal digits for each byte.
///
/// So no byte of a name ends a line or a field. On error a part may have been appended.
#[tactic(auto, unfolding(crate::specs::Messages::name_text))]
pub fn push_name(alloc: Global, text: &mut Vec<u8>, name: &[u8]) -> Result<(), AllocError>
    ensures { OnOk result (text.new.items ≡ text.old.items ++ name_text name.now) }
{
    if valid_name(name) {
        return text.extend_from_slice(name);
    }
    let digits = hex::encode(alloc, name)?;
    text.extend_from_slice(b"%")?;
    text.extend_from_slice(digits.as_bytes())
}

/// Appends `SOURCE TARGET CLASS PERM`: an access as denials and refusals of a policy name it.
///
/// For a set of no permissions or of several, nothing follows the last space. On error a part may have been appended.
#[tactic(auto, unfolding(crate::specs::Messages::access_words))]
pub fn push_access(
    text: &mut Vec<u8>,
    source: &[u8],
    target: &[u8],
    class: Class,
    perm: Perms,
) -> Result<(), AllocError>
    ensures { OnOk result (text.new.items
        ≡ text.old.items ++ access_words source.now target.now class perm) }
{
    text.extend_from_slice(source)?;
    text.extend_from_slice(b" ")?;
    text.extend_from_slice(target)?;
    text.extend_from_slice(b" ")?;
    text.extend_from_slice(class.word())?;
    text.extend_from_slice(b" ")?;
    text.extend_from_slice(perm.word().unwrap_or(b""))
}
