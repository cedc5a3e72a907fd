//! Accepts clients' connections, and passes them to the workers.

use crate::arrived::Arrived;
use crate::crowd::Crowd;
use crate::entrance::Entrance;
use crate::faults::Faults;
use crate::queue::{Arrivals, Offered, Queue};
use sm_account::{ServerEvent, Supervisor};
use sm_engine::ServeFault;
use std::rt::Clock;
use std::sync::Wait;

/// Milliseconds within which a connection that needn't wait has a worker.
const AT_ONCE: u64 = 100;

/// Milliseconds after which it is reported that a connection waits.
const LONG: u64 = 1_000;

/// Accepts clients' connections, and passes them to the workers, until no more come or there is a fault. Those that were
/// accepted before a worker was free are turned away then.
pub fn admit<C: Entrance, H: Supervisor, R: Wait + Clock>(
    rt: &R,
    mut crowd: Crowd<C>,
    queue: &Queue,
    to: Arrivals,
    host: &H,
    faults: &Faults,
) {
    if !faults.is_noted(rt) {
        host.tell(ServerEvent::Listening);
    }
    for _ in rt.forever() {
        let Some(arrived) = crowd.next(rt, host, faults) else {
            break;
        };
        if !pass(rt, &mut crowd, queue, &to, host, faults, arrived) {
            break;
        }
    }
    crowd.close(faults.live().turned_away());
}

/// Passes a connection to a worker. Returns whether more can be passed: not if there is a fault.
fn pass<C: Entrance, H: Supervisor, R: Wait + Clock>(
    rt: &R,
    crowd: &mut Crowd<C>,
    queue: &Queue,
    to: &Arrivals,
    host: &H,
    faults: &Faults,
    arrived: Arrived,
) -> bool {
    queue.note_others(crowd.others());
    let mut waiting = match queue.offer(rt, to, arrived, AT_ONCE) {
        Offered::Taken => {
            crowd.disperse();
            return true;
        }
        Offered::Refused(arrived) => arrived,
        Offered::Closed => return close(rt, host, faults),
    };
    for _ in rt.forever() {
        if faults.is_noted(rt) {
            break;
        }
        match queue.offer(rt, to, waiting, LONG) {
            Offered::Taken => return true,
            Offered::Refused(arrived) => waiting = arrived,
            Offered::Closed => return close(rt, host, faults),
        }
        crowd.report(host);
        queue.note_others(crowd.others());
    }
    waiting.turn_away(faults.live().turned_away());
    false
}

fn close<H: Supervisor, R: Wait>(rt: &R, host: &H, faults: &Faults) -> bool {
    faults.note(rt, host, ServeFault::Memory);
    false
}
