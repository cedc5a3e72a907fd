//! The answer to `svcmgr explain`.

ghost use Rattle.std.specs.Prelude.{◌≡◌, ◌<◌, ℕ, IfOk, OnOk, take, ◌++◌};
ghost use Rattle.std.specs.Io.KnownBytes.{Appends};
ghost use Rattle.sm_engine.specs.Counts.{Reports, failures_of, inner_of, greatest_count};
ghost use Rattle.sm_questions.specs.Explanations as spec;

use crate::lookups::is_permissive;
use sm_engine::{Counted, Fault, write_whole};
use sm_policy::Prepared;
use sm_values::{Class, Perms, push_numbered};
use std::alloc::{AllocError, Global};
use std::io::Write;

/// Writes which rule grants an access, whose types are given by their names.
///
/// The first line is `allowed LINE` with the line of the first allow rule that grants it, or `unwritten`. A line
/// `permissive` follows if the source is permissive. Returns whether a rule grants the access or the source is
/// permissive.
///
/// # Errors
///
/// `WriteFault` if a write fails; a prefix of the lines is then written. `Memory` if an allocation fails; nothing is
/// then written.
pub fn explain<W: Write>(
    alloc: Global,
    policy: &Prepared,
    source: &[u8],
    target: &[u8],
    class: Class,
    perm: Perms,
    writer: &mut Counted<W>,
) -> Result<bool, Fault>
    requires { failures_of writer.old < greatest_count }
    ensures passes { IfOk result (λ passes. passes ≡ spec.passes policy.now source.now target.now class perm) }
    ensures written { OnOk result (Appends (W.contents (inner_of writer.old)) (W.contents (inner_of writer.new))
        (spec.explanation policy.now source.now target.now class perm)) }
    ensures front { result ≡ Err Fault.WriteFault → (n : ℕ)
        × Appends (W.contents (inner_of writer.old)) (W.contents (inner_of writer.new))
        (take n (spec.explanation policy.now source.now target.now class perm)) }
    ensures unwritten { result ≡ Err Fault.Memory → writer.new ≡ writer.old }
    ensures reports { Reports result writer.old writer.new }
{
    let explanation = explanation_of(alloc, policy, source, target, class, perm)?;
    write_whole(writer, &explanation.lines)?;
    Ok(explanation.passes)
}

/// The lines of an explanation, and whether the access passes.
#[derive(Drop)]
struct Explanation {
    lines: Vec<u8>,
    passes: bool,
}

/// Returns the explanation of an access.
#[tactic(auto, using(crate::proofs::Written::written_if))]
fn explanation_of(
    alloc: Global,
    policy: &Prepared,
    source: &[u8],
    target: &[u8],
    class: Class,
    perm: Perms,
) -> Result<Explanation, AllocError>
    ensures lines { IfOk result
        (λ a. a.lines.items ≡ spec.explanation policy.now source.now target.now class perm) }
    ensures passes { IfOk result (λ a. a.passes ≡ spec.passes policy.now source.now target.now class perm) }
{
    let line = policy.why(source, target, class, perm);
    let permissive = is_permissive(policy, source);
    let mut lines = Vec::new(alloc);
    push_reason(&mut lines, line)?;
    if permissive {
        lines.extend_from_slice(b"permissive\n")?;
    }
    Ok(Explanation {
        lines,
        passes: line.is_some() || permissive,
    })
}

/// Appends `allowed LINE` or `unwritten`.
fn push_reason(lines: &mut Vec<u8>, line: Option<u32>) -> Result<(), AllocError>
    ensures { OnOk result (lines.new.items ≡ lines.old.items ++ spec.reason line) }
{
    match line {
        Some(n) => {
            push_numbered(lines, b"allowed ", u64::from(n))?;
            lines.extend_from_slice(b"\n")
        }
        None => lines.extend_from_slice(b"unwritten\n"),
    }
}
