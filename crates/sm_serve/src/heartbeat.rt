//! Notices that a server answers, for a watchdog.

use crate::live::Live;
use crate::operator::Operator;
use crate::shared_admin::SharedAdmin;
use sm_door::{Door, Naming};
use sm_history::Gate;
use std::rt::Clock;
use std::sync::Wait;

/// Notifies the operator each time this number of microseconds is over, until the server's threads have ended. Before
/// each notice it takes the manager's lock and reads the shared view.
pub fn beat<J: Naming, G: Gate + Drop, H: Operator, R: Wait + Clock>(
    rt: &R,
    door: &Door<J, G>,
    sealer: &SharedAdmin<J>,
    host: &H,
    live: &Live,
    microseconds: u64,
) {
    for _ in rt.forever() {
        if live.ends_within(rt, microseconds) {
            return;
        }
        probe(rt, door, sealer);
        host.beat();
    }
}

// Without memory for the records, the lock was taken all the same.
fn probe<J: Naming, G: Gate + Drop, R: Wait>(rt: &R, door: &Door<J, G>, sealer: &SharedAdmin<J>) {
    let mut guard = sealer.lock(rt);
    let token = &mut *guard;
    let _ = door.denials(rt, token);
    let _ = door.version(token);
}
