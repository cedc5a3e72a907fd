//! Words of a question that the policy doesn't know.

ghost use Rattle.std.specs.Prelude.{◌≡◌, IfOk};
ghost use Rattle.sm_questions.specs.Words.{access_of, perm_in, unknown_words};

use crate::lookups::is_declared;
use sm_policy::Prepared;
use sm_values::{Class, Perms, Word};
use std::alloc::{AllocError, Global};
use thiserror::Error;

/// A word of a question that names nothing.
#[derive(Debug, Drop, Error)]
pub enum Unknown<'a> {
    /// The policy source declares no such type.
    #[error("unknown type {0}")]
    Type(Word<'a>),
    /// There is no such class.
    #[error("unknown class {0}")]
    Class(Word<'a>),
    /// The class has no such permission.
    #[error("unknown permission {0}")]
    Permission(Word<'a>),
    /// There is no such kind of rule.
    #[error("unknown kind {0}")]
    Kind(Word<'a>),
}

/// Returns the class and the permission of an access, whose types, class and permission are given by their words.
///
/// # Errors
///
/// The first word that names nothing: the source, then the target, the class and the permission.
pub fn read_access<'a>(
    policy: &Prepared,
    source: &'a [u8],
    target: &'a [u8],
    class: &'a [u8],
    perm: &'a [u8],
) -> Result<(Class, Perms), Unknown<'a>>
    ensures { result ≡ access_of policy.now source.now target.now class.now perm.now }
{
    if !is_declared(policy, source) {
        return Err(Unknown::Type(Word::new(source)));
    }
    if !is_declared(policy, target) {
        return Err(Unknown::Type(Word::new(target)));
    }
    match Class::read(class) {
        Some(class) => perm_of(class, perm),
        None => Err(Unknown::Class(Word::new(class))),
    }
}

/// Returns a class with the permission of it that a word names.
fn perm_of<'a>(class: Class, perm: &'a [u8]) -> Result<(Class, Perms), Unknown<'a>>
    ensures { result ≡ perm_in class perm.now }
{
    match Perms::read(class, perm) {
        Some(perm) => Ok((class, perm)),
        None => Err(Unknown::Permission(Word::new(perm))),
    }
}

/// Returns what is unknown and its word: `unknown type WORD`, `unknown class WORD`, `unknown permission WORD` or
/// `unknown kind WORD`.
pub fn unknown_text(alloc: Global, unknown: &Unknown<'_>) -> Result<Vec<u8>, AllocError>
    ensures { IfOk result (λ text. text.items ≡ unknown_words unknown.now) }
{
    let (kind, word) = match unknown {
        Unknown::Type(word) => (b"unknown type ".as_slice(), word),
        Unknown::Class(word) => (b"unknown class ".as_slice(), word),
        Unknown::Permission(word) => (b"unknown permission ".as_slice(), word),
        Unknown::Kind(word) => (b"unknown kind ".as_slice(), word),
    };
    let mut text = Vec::from_slice(alloc, kind)?;
    text.extend_from_slice(word.bytes())?;
    Ok(text)
}
