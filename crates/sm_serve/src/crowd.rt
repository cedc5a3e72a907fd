//! Where clients arrive, and the connections that were accepted before a worker was free for them.

use crate::arrived::Arrived;
use crate::arriving::arrival;
use crate::entrance::Entrance;
use crate::faults::Faults;
use crate::turned_away::TurnedAway;
use sm_account::{ServerEvent, Supervisor};
use std::alloc::Global;
use std::collections::VecDeque;
use std::rt::Clock;
use std::sync::Wait;

/// Where clients arrive, and the connections that were accepted there before a worker was free for them, oldest first.
/// They can't be dropped, so it can't either.
pub struct Crowd<'a, C> {
    entrance: &'a mut C,
    waiting: VecDeque<Arrived>,
    // The most connections that are accepted before a worker is free.
    room: usize,
    // The number of connections that may still be accepted.
    left: u64,
    // Whether it was reported that connections wait, since the last one that needn't.
    is_reported: bool,
}

impl<'a, C: Entrance> Crowd<'a, C> {
    /// Accepts this number of clients' connections in all, and one for each worker before a worker is free.
    pub fn new(alloc: Global, entrance: &'a mut C, workers: u32, clients: u64) -> Crowd<'a, C> {
        Crowd {
            entrance,
            waiting: VecDeque::new(alloc),
            room: workers as usize,
            left: clients,
            is_reported: false,
        }
    }

    /// Returns the connection that has waited longest, or waits for one. `None` if no more are accepted, or if there is
    /// a fault.
    pub fn next<H: Supervisor, R: Wait + Clock>(
        &mut self,
        rt: &R,
        host: &H,
        faults: &Faults,
    ) -> Option<Arrived> {
        if faults.is_noted(rt) {
            return None;
        }
        if let Some(arrived) = self.waiting.pop_front() {
            return Some(arrived);
        }
        self.left = self.left.checked_sub(1)?;
        arrival(rt, self.entrance, host, faults)
    }

    /// Notes that a connection needn't wait.
    pub fn disperse(&mut self) {
        self.is_reported = false;
    }

    /// Returns the number of connections that were accepted before a worker was free for them.
    pub fn others(&self) -> usize {
        self.waiting.len()
    }

    /// Reports that a connection has waited for a worker for a second, and how many others wait, once until one needn't.
    pub fn report<H: Supervisor>(&mut self, host: &H) {
        let others = self.gather();
        if !self.is_reported {
            host.tell(ServerEvent::ClientWaits { others });
        }
        self.is_reported = true;
    }

    // Accepts connections while some wait and there is room. Returns how many have been accepted before a worker is free.
    fn gather(&mut self) -> usize {
        for _ in self.waiting.len()..self.room {
            if !self.accept_one() {
                break;
            }
        }
        self.waiting.len()
    }

    // Returns whether one was accepted.
    fn accept_one(&mut self) -> bool {
        if self.left == 0 || self.waiting.reserve(1).is_err() {
            return false;
        }
        let Some(stream) = self.entrance.try_accept() else {
            return false;
        };
        self.left -= 1;
        self.waiting.push_back_reserved(Arrived::new(stream));
        true
    }

    /// Turns away the connections that wait.
    pub fn close(self, turned: &TurnedAway) {
        let Crowd {
            entrance: _,
            mut waiting,
            room: _,
            left: _,
            is_reported: _,
        } = self;
        while let Some(arrived) = waiting.pop_front() {
            arrived.turn_away(turned);
        }
        waiting.destroy_empty();
    }
}
