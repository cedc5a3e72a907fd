//! Runs scripts.

ghost use Rattle.std.specs.Prelude.{◌≡◌, ◌<◌, ◌≤◌, ◌+◌, ◌-◌, min, [], OnOk, MatchResult};
ghost use Rattle.std.specs.Io.KnownBytes.{IsAtEnd};
ghost use Rattle.sm_history.specs.Lawful.{MayOpen};
ghost use Rattle.sm_engine.specs.Counts.{failures_of, calls_of, inner_of, greatest_count};
ghost use Rattle.sm_core.specs.Opening.{the_manager};
ghost use Rattle.sm_script.specs.Scripts.{opened_manager, MayNotOpen, Opens, NotRun, RunsScript, IfNotRun};

use crate::manager_script::Script;
use crate::script_fault::ScriptFault;
use sm_core::{Manager, manager_identity};
use sm_engine::{Counted, Fault, run};
use sm_history::Refusal;
use sm_policy::Prepared;
use sm_values::Places;
use sm_wire::Kind;
use std::alloc::Global;
use std::io::{Read, Write};

/// Runs a script under the policy of these files: answers the requests from the reader until its end, a fault, or
/// `bound` reads. The journal has `places` slots. The audit lines of each request are written when it is answered,
/// including those of `list`. Returns what is left of the manager too, if one was opened: a program that ends next need
/// not free its tables one by one.
pub fn run_script<R: Read, W: Write, A: Write>(
    alloc: Global,
    rules: &[u8],
    contexts: &[u8],
    places: Places,
    bound: u32,
    reader: &mut Counted<R>,
    writer: &mut Counted<W>,
    audit: &mut Counted<A>,
) -> (Result<(), ScriptFault>, Option<Script>)
    requires reader { failures_of reader.old < greatest_count }
    requires writer { failures_of writer.old < greatest_count }
    requires audit { failures_of audit.old < greatest_count }
    // The answers to the items of the input are written, each judged on the state after those before it.
    ensures ran { RunsScript result.0 rules.now contexts.now places bound (calls_of reader.new - calls_of reader.old)
        (R.remaining (inner_of reader.old)) (R.remaining (inner_of reader.new))
        (W.contents (inner_of writer.old)) (W.contents (inner_of writer.new))
        (A.contents (inner_of audit.old)) (A.contents (inner_of audit.new)) result.1 }
    ensures unread { IfNotRun result.0 (reader.new ≡ reader.old) }
    ensures unwritten { IfNotRun result.0 (writer.new ≡ writer.old) }
    ensures unaudited { IfNotRun result.0 (audit.new ≡ audit.old) }
    ensures end { OnOk result.0 (IsAtEnd (R.remaining (inner_of reader.new))) }
    ensures reads { calls_of reader.new ≤ calls_of reader.old + bound }
    ensures too_many { result.0 ≡ Err (ScriptFault.Engine Fault.TooManyReads)
        → calls_of reader.new ≡ min (calls_of reader.old + bound) greatest_count }
    ensures read_fault { result.0 ≡ Err (ScriptFault.Engine Fault.ReadFault)
        → failures_of reader.old < failures_of reader.new }
    ensures write_fault { result.0 ≡ Err (ScriptFault.Engine Fault.WriteFault)
        → failures_of writer.old + failures_of audit.old < failures_of writer.new + failures_of audit.new }
    ensures read_told { failures_of reader.old < failures_of reader.new
        → result.0 ≡ Err (ScriptFault.Engine Fault.ReadFault) }
    ensures write_told { failures_of writer.old + failures_of audit.old < failures_of writer.new + failures_of audit.new
        → result.0 ≡ Err (ScriptFault.Engine Fault.WriteFault) }
{
    let mut script = match opened_script(alloc, rules, contexts, places) {
        Ok(script) => script,
        Err(fault) => return (Err(fault), None),
    };
    match run(
        alloc,
        Kind::Script,
        &mut script,
        bound,
        reader,
        writer,
        audit,
    ) {
        Ok(()) => (Ok(()), Some(script)),
        Err(fault) => (Err(ScriptFault::Engine(fault)), Some(script)),
    }
}

// Opens a manager and makes the script before its first request.
fn opened_script(
    alloc: Global,
    rules: &[u8],
    contexts: &[u8],
    places: Places,
) -> Result<Script, ScriptFault>
    ensures { MatchResult result (λ s. Opens rules.now contexts.now places s) (λ e. NotRun rules.now contexts.now e) }
{
    let policy = Prepared::from_texts(alloc, rules, contexts)?;
    let manager = opened_manager(alloc, policy, places)?;
    Ok(Script::new(alloc, manager))
}

// Opens a manager under a policy.
fn opened_manager(alloc: Global, policy: Prepared, places: Places) -> Result<Manager, Refusal>
    ensures { MatchResult result
        (λ m. MayOpen the_manager policy × (m.book ≡ opened_manager places policy) × (m.ring ≡ []))
        (λ r. MayNotOpen policy r) }
{
    match manager_identity(alloc) {
        Ok(who) => Manager::open(alloc, who, policy, places),
        Err(_) => Err(Refusal::Memory),
    }
}
