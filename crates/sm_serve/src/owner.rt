//! What a server tells its owner: the state of its manager, and what its workers have to do.

ghost use Rattle.std.specs.Io.KnownBytes.{Appends};
ghost use Rattle.std.specs.Prelude.{◌≡◌, ◌++◌, ℕ, take, IfOk, OnOk, OnErr};
ghost use Rattle.sm_door.specs.Telling.{TellsState};
ghost use Rattle.sm_serve.specs.OwnerLines.{load_text};
ghost use Rattle.sm_status.specs.StateLines.{state_text};
ghost use Rattle.sm_status.specs.States.{State};

use crate::load::Load;
use crate::pace::{Pace, PacedWrite};
use crate::patience::{Limited, Patience};
use crate::queue::Queue;
use crate::shared_admin::SharedAdmin;
use crate::uninterrupted::Uninterrupted;
use sm_account::{Monitor, Supervisor};
use sm_door::{Admin, Door, Naming};
use sm_engine::{Counted, Fault, write_whole};
use sm_history::Gate;
use sm_status::push_status;
use std::alloc::{AllocError, Global};
use std::io::Write;
use std::rt::Clock;
use std::sync::Wait;

/// Writes the lines of the state and of the workers to a connection, which has the time of a reply to take them. Reads
/// nothing from it. Without memory for the lines, nothing is written.
pub fn tell_owner<
    J: Naming,
    G: Gate + Drop,
    H: Supervisor,
    R: Wait + Clock,
    O: Write + Limited + Drop,
>(
    rt: &R,
    alloc: Global,
    door: &Door<J, G>,
    sealer: &SharedAdmin<J>,
    queue: &Queue,
    patience: Patience,
    monitor: &Monitor<H>,
    output: O,
) {
    let Ok(text) = owner_text(rt, alloc, door, sealer, queue.load()) else {
        monitor.run_short();
        return;
    };
    // An owner who has left, or who doesn't read, needs no answer.
    let _ = write_within(rt, queue, patience, output, &text);
}

// The token is locked until the lines are made.
fn owner_text<J: Naming, G: Gate + Drop, R: Wait>(
    rt: &R,
    alloc: Global,
    door: &Door<J, G>,
    sealer: &SharedAdmin<J>,
    load: Load,
) -> Result<Vec<u8>, AllocError> {
    let mut guard = sealer.lock(rt);
    let token = &mut *guard;
    state_lines(rt, alloc, door, token, load)
}

/// Returns the lines of the state that the history left which the token sees now, and those of the workers.
fn state_lines<J: Naming, G: Gate + Drop, R: Wait>(
    rt: &R,
    alloc: Global,
    door: &Door<J, G>,
    me: &mut Admin<J>,
    load: Load,
) -> Result<Vec<u8>, AllocError>
    ensures { IfOk result (λ text. (s : State) × TellsState me.old me.new s
        × (text.items ≡ state_text s ++ load_text load)) }
{
    let status = door.status(rt, me)?;
    let mut text = Vec::new(alloc);
    push_status(alloc, &mut text, &status)?;
    load.push_to(&mut text)?;
    Ok(text)
}

/// Writes a text within the time of a reply, and returns the writer. After a fault a prefix of it is written.
fn write_within<R: Clock, O: Write + Limited + Drop>(
    rt: &R,
    queue: &Queue,
    patience: Patience,
    output: O,
    text: &[u8],
) -> (Result<(), Fault>, O)
    ensures whole { OnOk result.0 (Appends (O.contents output) (O.contents result.1) text.now) }
    ensures front { OnErr result.0
        ((n : ℕ) × Appends (O.contents output) (O.contents result.1) (take n text.now)) }
{
    if patience.limit_replies(&output).is_err() {
        return (Err(Fault::WriteFault), output);
    }
    let Ok(pace) = Pace::new(rt, patience, queue) else {
        return (Err(Fault::WriteFault), output);
    };
    let mut writer = Counted::new(Uninterrupted::new(PacedWrite::new(&pace, output)));
    let ended = write_whole(&mut writer, text);
    (ended, writer.into_inner().into_inner().into_inner())
}
