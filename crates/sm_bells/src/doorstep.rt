//! Where a connection's client waits for a delivery.

use crate::bell::Bell;
use crate::bells::Bells;
use sm_history::Gate;
use std::cell::Cell;
use std::rt::Clock;
use std::sync::Wait;
use std::time::Instant;

/// The gate of one connection, at which a `take` waits until its client's bell has rung more often than deliveries were
/// taken, until the connection ends, or until the time is over.
///
/// The count is a hint. A bell that rang for nothing lets a `take` be answered `empty` early, and a ring that was missed
/// lets it wait for the whole time; the answer is the manager's in any case.
pub struct Doorstep<'a, G, R> {
    rt: &'a R,
    // The door's gate, which is called as before.
    gate: &'a G,
    bell: Option<&'a Bell>,
    // The connection's descriptor.
    connection: i32,
    milliseconds: u32,
    // The deliveries that were taken.
    taken: Cell<u64>,
    // The rings before the last `take` was answered.
    heard: Cell<u64>,
}

impl<'a, G, R> Drop for Doorstep<'a, G, R> {
    fn drop(self) {
        let Doorstep {
            rt: _,
            gate: _,
            bell,
            connection: _,
            milliseconds: _,
            taken: _,
            heard: _,
        } = self;
        if let Some(bell) = bell {
            bell.free();
        }
    }
}

impl<'a, G, R: Wait + Clock> Doorstep<'a, G, R> {
    /// The gate of a connection with this descriptor, which has sent nothing. Without a free bell no `take` waits.
    pub fn new(
        rt: &'a R,
        gate: &'a G,
        bells: Option<&'a Bells>,
        connection: i32,
    ) -> Doorstep<'a, G, R> {
        let (bell, milliseconds) = match bells {
            Some(bells) => (bells.claim(), bells.milliseconds()),
            None => (None, 0),
        };
        Doorstep {
            rt,
            gate,
            bell,
            connection,
            milliseconds,
            taken: Cell::new(0),
            heard: Cell::new(0),
        }
    }

    /// Notes that its client has this number.
    pub fn connect(&self, client: u32) {
        if let Some(bell) = self.bell {
            bell.name(client);
        }
    }

    /// Notes that a delivery was taken.
    pub fn take(&self) {
        self.taken.set(self.taken.get().wrapping_add(1));
    }

    /// Notes that the inbox was empty: all deliveries that were heard of were taken.
    pub fn find_empty(&self) {
        self.taken.set(self.heard.get());
    }

    // Returns whether the bell has rung more often than deliveries were taken.
    fn has_rung(&self, bell: &Bell) -> bool {
        let rings = bell.rings();
        self.heard.set(rings);
        rings > self.taken.get()
    }

    // Waits until the bell rings, the connection ends, or the time is over.
    fn wait(&self, bell: &Bell) {
        let Ok(begun) = Instant::now(self.rt) else {
            return;
        };
        let mut left = self.milliseconds;
        for _ in self.rt.forever() {
            if left == 0 || self.has_rung(bell) || !bell.wait(self.connection, left) {
                return;
            }
            let Ok(passed) = begun.elapsed(self.rt) else {
                return;
            };
            let passed = passed.as_millis().min(u128::from(self.milliseconds)) as u32;
            left = self.milliseconds.saturating_sub(passed);
        }
    }
}

impl<'a, G: Gate, R: Wait + Clock> Gate for Doorstep<'a, G, R> {
    fn enter(&self, line: u64) {
        self.gate.enter(line);
    }

    fn inside(&self) {
        self.gate.inside();
    }

    fn leave(&self, line: u64) {
        self.gate.leave(line);
    }

    fn before_take(&self) {
        let Some(bell) = self.bell else {
            return;
        };
        if self.has_rung(bell) {
            return;
        }
        bell.await_rings(true);
        self.wait(bell);
        bell.await_rings(false);
        self.has_rung(bell);
    }
}
