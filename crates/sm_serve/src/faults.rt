//! The first fault of a server, and the connections that end after it.

use crate::live::Live;
use sm_account::Supervisor;
use sm_engine::ServeFault;
use std::alloc::Global;
use std::rt::Clock;
use std::sync::{Mutex, Wait};

/// The first fault of a server, and the connections that are served, which all its threads share.
pub struct Faults {
    first: Mutex<Option<ServeFault>>,
    live: Live,
}

impl Drop for Faults {
    fn drop(self) {
        let Faults { first: _, live: _ } = self;
    }
}

impl Faults {
    /// Makes an empty record.
    pub fn new(alloc: Global) -> Faults {
        Faults {
            first: Mutex::new(None),
            live: Live::new(alloc),
        }
    }

    /// Returns the connections that are served.
    pub fn live(&self) -> &Live {
        &self.live
    }

    /// Records a fault if it is the first, and closes the entrances.
    pub fn note<H: Supervisor, R: Wait>(&self, rt: &R, host: &H, fault: ServeFault) {
        {
            let mut first = self.first.lock(rt);
            if first.is_none() {
                *first = Some(fault);
            }
        }
        host.close_entrances();
    }

    /// Records that a thread wasn't started.
    pub fn miss_thread<H: Supervisor, R: Wait>(&self, rt: &R, host: &H) {
        self.live.end_thread();
        self.note(rt, host, ServeFault::NoThread);
    }

    /// If there is a fault, waits until all connections have ended, for this number of seconds at most. Then it shuts
    /// them down.
    pub fn end_connections<R: Wait + Clock>(&self, rt: &R, seconds: u64) {
        if self.is_noted(rt) {
            self.live.cut_off(rt, seconds);
        }
    }

    /// Returns whether there is one.
    pub fn is_noted<R: Wait>(&self, rt: &R) -> bool {
        self.first.lock(rt).is_some()
    }

    /// Returns the first fault, as the result of a server.
    pub fn into_result(self) -> Result<(), ServeFault> {
        let Faults { first, live: _ } = self;
        match first.into_inner() {
            None => Ok(()),
            Some(fault) => Err(fault),
        }
    }
}
