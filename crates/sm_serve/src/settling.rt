//! A worker between two connections.

use crate::faults::Faults;
use sm_account::{Account, Chronicle, Monitor, Supervisor, bury};
use sm_door::{Door, Naming, Seat, SeatOrSession};
use sm_history::Gate;
use std::rt::Clock;
use std::sync::Wait;
use std::thread;
use std::time::Duration;

/// Milliseconds between two tries of a client to die.
const PAUSE: u64 = 100;

/// Waits until the client of a worker's last connection has died, which only a failed allocation delays. Returns the
/// account with the free seat, or as it is if there is a fault meanwhile.
pub fn settle<J: Naming, K: Chronicle, G: Gate + Drop, H: Supervisor, R: Wait + Clock>(
    rt: &R,
    door: &Door<J, G>,
    account: Account<SeatOrSession<J>, K>,
    monitor: &Monitor<H>,
    faults: &Faults,
) -> Result<Account<Seat<J>, K>, Account<SeatOrSession<J>, K>> {
    let mut slot = account;
    for _ in rt.forever() {
        match bury(rt, door, slot, monitor) {
            Ok(seat) => return Ok(seat),
            Err(left) => slot = left,
        }
        if faults.is_noted(rt) {
            break;
        }
        thread::sleep(rt, Duration::from_millis(PAUSE));
    }
    Err(slot)
}
