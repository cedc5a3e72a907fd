//! The lines of an administrator's requests to a server, and of its answers.

ghost use Rattle.std.specs.List.{count_by, position};
ghost use Rattle.std.specs.Prelude.{◌≡◌, ◌==◌, ◌++◌, codes, IfOk, OnOk, option_map};
ghost use Rattle.sm_command.specs.Administering as spec;

use sm_values::push_numbered;
use std::alloc::{AllocError, Global};

/// Returns `explain SOURCE TARGET CLASS PERM`.
pub fn explain_line(
    alloc: Global,
    source: &str,
    target: &str,
    class: &str,
    perm: &str,
) -> Result<Vec<u8>, AllocError>
    ensures { IfOk result (λ line. line.items ≡ spec.explain_line source.now target.now class.now perm.now) }
{
    let mut line = Vec::from_slice(alloc, b"explain")?;
    push_word(&mut line, source)?;
    push_word(&mut line, target)?;
    push_word(&mut line, class)?;
    push_word(&mut line, perm)?;
    line.extend_from_slice(b"\n")?;
    Ok(line)
}

fn push_word(line: &mut Vec<u8>, word: &str) -> Result<(), AllocError>
    ensures { OnOk result (line.new.items ≡ line.old.items ++ codes " " ++ word.now) }
{
    line.extend_from_slice(b" ")?;
    line.extend_from_slice(word.as_bytes())
}

/// Returns `reload VERSION R C`, with R and C the numbers of bytes of the two texts, and then the texts.
pub fn reload_request(
    alloc: Global,
    version: &[u8],
    rules: &[u8],
    contexts: &[u8],
) -> Result<Vec<u8>, AllocError>
    ensures { IfOk result (λ request. request.items ≡ spec.reload_request version.now rules.now contexts.now) }
{
    let mut request = Vec::from_slice(alloc, b"reload ")?;
    request.extend_from_slice(version)?;
    push_numbered(&mut request, b" ", rules.len() as u64)?;
    push_numbered(&mut request, b" ", contexts.len() as u64)?;
    request.extend_from_slice(b"\n")?;
    request.extend_from_slice(rules)?;
    request.extend_from_slice(contexts)?;
    Ok(request)
}

/// Returns VERSION of the answer `version VERSION LENGTH`, or `None` if the answer is another.
pub fn version_in(answer: &[u8]) -> Option<&[u8]>
    ensures { option_map (λ version. version.now) result ≡ spec.version_in answer.now }
{
    if !answer.starts_with(b"version ") {
        return None;
    }
    let rest = &answer[8..];
    first_space(rest).map(|end| &rest[..end])
}

fn first_space(bytes: &[u8]) -> Option<usize>
    ensures { result ≡ position (λ byte. byte == 32) bytes.now }
{
    bytes.iter().position(|byte| *byte == b' ')
}

/// Returns whether an answer grants the request. A server with nothing to seal answers `empty`.
pub fn is_granted(answer: &[u8]) -> bool
    ensures { result ≡ spec.is_granted answer.now }
{
    answer.starts_with(b"version ")
        || answer.starts_with(b"reloaded ")
        || answer.starts_with(b"allowed ")
        || answer.starts_with(b"unwritten ")
        || answer.starts_with(b"denials ")
        || answer.starts_with(b"sealed ")
        || answer.starts_with(b"empty\n")
}

/// Returns whether an answer came to its end: its last line is whole, and after `denials N` there are N lines.
pub fn is_whole(alloc: Global, answer: &[u8]) -> Result<bool, AllocError>
    ensures { IfOk result (λ whole. whole ≡ spec.is_whole answer.now) }
{
    if !answer.ends_with(b"\n") {
        return Ok(false);
    }
    if !answer.starts_with(b"denials ") {
        return Ok(true);
    }
    let lines = line_count(answer);
    let mut counted = Vec::new(alloc);
    push_numbered(&mut counted, b"denials ", lines.saturating_sub(1) as u64)?;
    counted.extend_from_slice(b"\n")?;
    Ok(answer.starts_with(&counted))
}

fn line_count(answer: &[u8]) -> usize
    ensures { result ≡ count_by (λ byte. byte == 10) answer.now }
{
    answer.iter().filter(|byte| **byte == b'\n').count()
}
