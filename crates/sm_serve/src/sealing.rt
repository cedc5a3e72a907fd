//! Seals that a server makes by itself.

use crate::shared_admin::SharedAdmin;
use sm_account::{Monitor, Supervisor};
use sm_door::{Door, Naming};
use sm_history::{Gate, Refusal};
use std::sync::Wait;

/// Seals the open segment if that is due, and drops it. If an allocation fails, a later answer tries again. Otherwise
/// fills the reserve again, of which a seal may have left a part missing.
pub fn seal_if_due<J: Naming, G: Gate + Drop, H: Supervisor, R: Wait>(
    rt: &R,
    door: &Door<J, G>,
    sealer: &SharedAdmin<J>,
    monitor: &Monitor<H>,
) {
    if monitor.is_due() {
        seal(rt, door, sealer, monitor);
    } else {
        monitor.keep_reserve(rt);
    }
}

// Seals the open segment. Out of line, since it would zero its locals for each answer.
#[inline(never)]
fn seal<J: Naming, G: Gate + Drop, H: Supervisor, R: Wait>(
    rt: &R,
    door: &Door<J, G>,
    sealer: &SharedAdmin<J>,
    monitor: &Monitor<H>,
) {
    let mut guard = sealer.lock(rt);
    // Another thread may have sealed it meanwhile.
    if !monitor.is_due() {
        return;
    }
    monitor.begin_seal(rt);
    let token = &mut *guard;
    match door.seal(rt, token) {
        Ok(segment) => monitor.sealed(segment.history_length()),
        Err(Refusal::Memory) => monitor.fail_to_seal(),
        Err(_other) => {}
    }
    monitor.keep_reserve(rt);
}
