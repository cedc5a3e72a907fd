//! The words of a refusal.

ghost use Rattle.std.specs.Prelude.{◌≡◌, IfOk};
ghost use Rattle.sm_values.specs.Messages.{numbered};
ghost use Rattle.sm_policy.specs.Refused.{rules_words, broken_words, contexts_words, refused_words, text_words};
ghost use Rattle.sm_policy.specs.Refused.{types_words, violation_words};
ghost use Rattle.sm_contexts.specs.declared.fault.ContextsFault.TheVariants.{Conflict};

use crate::{PolicyFault, Violation};
use sm_contexts::ContextsFault;
use sm_rules::RulesFault;
use sm_ruletext::RuleTextFault;
use sm_types::TypesFault;
use sm_values::{push_access, push_numbered};
use std::alloc::{AllocError, Global};

fn numbered(alloc: Global, words: &[u8], n: u32) -> Result<Vec<u8>, AllocError>
    ensures { IfOk result (λ v. v.items ≡ numbered words.now n) }
{
    let mut text = Vec::new(alloc);
    push_numbered(&mut text, words, u64::from(n))?;
    Ok(text)
}

fn conflict(alloc: Global, earlier: u32, later: u32) -> Result<Vec<u8>, AllocError>
    ensures { IfOk result (λ v. v.items ≡ contexts_words (Conflict earlier later)) }
{
    let mut text = numbered(alloc, b"contexts: line ", later)?;
    push_numbered(
        &mut text,
        b" gives another context than line ",
        u64::from(earlier),
    )?;
    Ok(text)
}

fn text_refused(alloc: Global, fault: RuleTextFault) -> Result<Vec<u8>, AllocError>
    ensures { IfOk result (λ v. v.items ≡ text_words fault) }
{
    match fault {
        RuleTextFault::TooLarge => Vec::from_slice(alloc, b"rules: too large"),
        RuleTextFault::Syntax(n) => numbered(alloc, b"rules: syntax at line ", n),
        RuleTextFault::Unsupported(n) => {
            numbered(alloc, b"rules: unsupported statement at line ", n)
        }
        RuleTextFault::TooMany => Vec::from_slice(alloc, b"rules: too many"),
        RuleTextFault::Memory => Vec::from_slice(alloc, b"memory"),
    }
}

fn types_refused(alloc: Global, fault: TypesFault) -> Result<Vec<u8>, AllocError>
    ensures { IfOk result (λ v. v.items ≡ types_words fault) }
{
    match fault {
        TypesFault::Twice(n) => numbered(alloc, b"rules: declared twice at line ", n),
        TypesFault::Unknown(n) => numbered(alloc, b"rules: unknown name at line ", n),
        TypesFault::TooMany => Vec::from_slice(alloc, b"rules: too many"),
        TypesFault::Memory => Vec::from_slice(alloc, b"memory"),
    }
}

fn rules_refused(alloc: Global, fault: RulesFault) -> Result<Vec<u8>, AllocError>
    ensures { IfOk result (λ v. v.items ≡ rules_words fault) }
{
    match fault {
        RulesFault::Unknown(n) => numbered(alloc, b"rules: unknown name at line ", n),
        RulesFault::UnknownPermission(n) => {
            numbered(alloc, b"rules: unknown permission at line ", n)
        }
        RulesFault::Memory => Vec::from_slice(alloc, b"memory"),
    }
}

fn contexts_refused(alloc: Global, fault: ContextsFault) -> Result<Vec<u8>, AllocError>
    ensures { IfOk result (λ v. v.items ≡ contexts_words fault) }
{
    match fault {
        ContextsFault::TooLarge => Vec::from_slice(alloc, b"contexts: too large"),
        ContextsFault::BadLine(n) => numbered(alloc, b"contexts: bad line ", n),
        ContextsFault::Conflict(earlier, later) => conflict(alloc, earlier, later),
        ContextsFault::TwoDefaults(n) => numbered(alloc, b"contexts: second default at line ", n),
        ContextsFault::NoDefault => Vec::from_slice(alloc, b"contexts: no default"),
        ContextsFault::Memory => Vec::from_slice(alloc, b"memory"),
    }
}

fn broken(alloc: Global, never: u32, allow: u32) -> Result<Vec<u8>, AllocError>
    ensures { IfOk result (λ v. v.items ≡ broken_words never allow) }
{
    let mut text = numbered(alloc, b"neverallow at line ", never)?;
    push_numbered(&mut text, b" by allow at line ", u64::from(allow))?;
    text.extend_from_slice(b": ")?;
    Ok(text)
}

fn violated(alloc: Global, violation: &Violation) -> Result<Vec<u8>, AllocError>
    ensures { IfOk result (λ v. v.items ≡ violation_words violation.now) }
{
    let mut text = broken(alloc, violation.never_line, violation.allow_line)?;
    push_access(
        &mut text,
        violation.source.bytes(),
        violation.target.bytes(),
        violation.class,
        violation.perm,
    )?;
    Ok(text)
}

/// Returns the words that say why a policy was refused.
pub fn refused_text(alloc: Global, fault: &PolicyFault) -> Result<Vec<u8>, AllocError>
    ensures { IfOk result (λ v. v.items ≡ refused_words fault.now) }
{
    match fault {
        PolicyFault::Rules(e) => text_refused(alloc, *e),
        PolicyFault::Types(e) => types_refused(alloc, *e),
        PolicyFault::Access(e) => rules_refused(alloc, *e),
        PolicyFault::Contexts(e) => contexts_refused(alloc, *e),
        PolicyFault::UndeclaredLabel(n) => {
            numbered(alloc, b"contexts: undeclared type at line ", *n)
        }
        PolicyFault::Neverallow(violation) => violated(alloc, violation),
        PolicyFault::Memory => Vec::from_slice(alloc, b"memory"),
    }
}
