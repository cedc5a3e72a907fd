//! The verdict of `svcmgr check`.

ghost use Rattle.std.specs.Prelude.{◌≡◌, ◌<◌, ℕ, IfOk, OnOk, take};
ghost use Rattle.std.specs.Io.KnownBytes.{Appends};
ghost use Rattle.sm_engine.specs.Counts.{Reports, failures_of, inner_of, greatest_count};
ghost use Rattle.sm_policy.specs.Preparing.{prepared};
ghost use Rattle.sm_questions.specs.Checking as spec;

use sm_engine::{Counted, Fault, write_whole};
use sm_policy::{Counts, PolicyFault, Prepared, refused_text};
use sm_values::push_numbered;
use std::alloc::{AllocError, Global};
use std::io::Write;

/// Writes a line that says whether these two files are those of a policy, and the counts of the policy or the first
/// refusal. Returns the refusal, if they aren't.
///
/// # Errors
///
/// `WriteFault` if a write fails; a prefix of the line is then written. `Memory` if an allocation fails; nothing is
/// then written.
pub fn check<W: Write>(
    alloc: Global,
    rules: &[u8],
    contexts: &[u8],
    writer: &mut Counted<W>,
) -> Result<Option<PolicyFault>, Fault>
    requires { failures_of writer.old < greatest_count }
    ensures refusal { IfOk result (λ refusal. refusal ≡ spec.refusal_in (prepared rules.now contexts.now)) }
    ensures written { OnOk result (Appends (W.contents (inner_of writer.old)) (W.contents (inner_of writer.new))
        (spec.checked_line (prepared rules.now contexts.now))) }
    ensures front { result ≡ Err Fault.WriteFault → (n : ℕ)
        × Appends (W.contents (inner_of writer.old)) (W.contents (inner_of writer.new))
        (take n (spec.checked_line (prepared rules.now contexts.now))) }
    ensures unwritten { result ≡ Err Fault.Memory → writer.new ≡ writer.old }
    ensures reports { Reports result writer.old writer.new }
{
    let verdict = judge(alloc, rules, contexts)?;
    write_whole(writer, &verdict.line)?;
    Ok(verdict.refusal)
}

/// The line of a check, and the refusal of the policy, if it is refused.
#[derive(Drop)]
pub struct Verdict {
    pub line: Vec<u8>,
    pub refusal: Option<PolicyFault>,
}

/// Returns the verdict on two files.
pub fn judge(alloc: Global, rules: &[u8], contexts: &[u8]) -> Result<Verdict, AllocError>
    ensures line { IfOk result (λ v. v.line.items ≡ spec.checked_line (prepared rules.now contexts.now)) }
    ensures refusal { IfOk result (λ v. v.refusal ≡ spec.refusal_in (prepared rules.now contexts.now)) }
{
    match Prepared::from_texts(alloc, rules, contexts) {
        Ok(policy) => Ok(Verdict {
            line: accepted_line(alloc, policy.counts())?,
            refusal: None,
        }),
        Err(PolicyFault::Memory) => Err(AllocError),
        Err(fault) => Ok(Verdict {
            line: refused_line(alloc, &fault)?,
            refusal: Some(fault),
        }),
    }
}

// Returns `policy ok: T types, A attributes, R rules, L labels`.
fn accepted_line(alloc: Global, counts: Counts) -> Result<Vec<u8>, AllocError>
    ensures { IfOk result (λ line. line.items ≡ spec.accepted_line counts) }
{
    let mut line = Vec::new(alloc);
    push_numbered(&mut line, b"policy ok: ", u64::from(counts.types))?;
    push_numbered(&mut line, b" types, ", u64::from(counts.attributes))?;
    push_numbered(&mut line, b" attributes, ", u64::from(counts.rules))?;
    push_numbered(&mut line, b" rules, ", u64::from(counts.labels))?;
    line.extend_from_slice(b" labels\n")?;
    Ok(line)
}

/// Returns `policy refused: TEXT`, where TEXT are the words for the fault.
pub fn refused_line(alloc: Global, fault: &PolicyFault) -> Result<Vec<u8>, AllocError>
    ensures { IfOk result (λ line. line.items ≡ spec.refused_line fault.now) }
{
    let mut line = Vec::from_slice(alloc, b"policy refused: ")?;
    let words = refused_text(alloc, fault)?;
    line.extend_from_slice(&words)?;
    line.extend_from_slice(b"\n")?;
    Ok(line)
}
