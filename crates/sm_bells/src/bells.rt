//! The bells of a server.

use crate::bell::Bell;
use sm_history::{Effect, Gate};
use std::alloc::{AllocError, Global};
use std::io::{self, ErrorKind};
use std::sync::Arc;

/// The bells of a server, one for each worker.
#[derive(Drop)]
pub struct Bells {
    bells: Vec<Bell>,
    milliseconds: u32,
}

impl Bells {
    // Makes this number of bells.
    fn new(alloc: Global, number: u32, milliseconds: u32) -> io::Result<Bells> {
        let mut bells = Vec::new(alloc);
        if bells.reserve(number as usize).is_err() {
            return Err(io::Error::from(ErrorKind::OutOfMemory));
        }
        for _ in 0..number {
            if bells.push(Bell::new()?).is_err() {
                return Err(io::Error::from(ErrorKind::OutOfMemory));
            }
        }
        Ok(Bells {
            bells,
            milliseconds,
        })
    }

    /// Returns how many milliseconds a `take` waits for a delivery.
    pub fn milliseconds(&self) -> u32 {
        self.milliseconds
    }

    /// Gives a free bell to a connection, if there is one.
    pub fn claim(&self) -> Option<&Bell> {
        self.bells.iter().find(|bell| bell.claim())
    }

    // Rings the bell of a client's connection, if it has one.
    fn ring(&self, client: u32) {
        for bell in self.bells.iter() {
            if bell.is_of(client) {
                bell.ring();
                return;
            }
        }
    }
}

/// The gate of a door, which rings the bell of each client to whom something is delivered. Without bells it does nothing.
#[derive(Drop)]
pub struct Ringer {
    bells: Option<Arc<Bells>>,
}

impl Ringer {
    /// The gate of a server's door, with this number of bells, for which a `take` waits for some milliseconds, at most
    /// 60,000. If it doesn't wait, there are no bells.
    ///
    /// # Errors
    ///
    /// `OutOfMemory` if an allocation failed, or the kernel's, if it gives no file descriptor.
    pub fn new(alloc: Global, number: u32, milliseconds: u32) -> io::Result<Ringer> {
        if milliseconds == 0 {
            return Ok(Ringer::silent());
        }
        match Arc::new(alloc, Bells::new(alloc, number, milliseconds)?) {
            Ok(bells) => Ok(Ringer { bells: Some(bells) }),
            Err(_) => Err(io::Error::from(ErrorKind::OutOfMemory)),
        }
    }

    /// One without bells.
    pub fn silent() -> Ringer {
        Ringer { bells: None }
    }

    /// Another one with the same bells.
    pub fn share(&self) -> Result<Ringer, AllocError> {
        match &self.bells {
            None => Ok(Ringer::silent()),
            Some(bells) => Ok(Ringer {
                bells: Some(Arc::try_clone(bells)?),
            }),
        }
    }

    /// Rings the bell of a client's connection, if it has one.
    pub fn ring(&self, client: u32) {
        if let Some(bells) = &self.bells {
            bells.ring(client);
        }
    }

    /// Returns its bells.
    pub fn bells(&self) -> Option<&Bells> {
        match &self.bells {
            None => None,
            Some(bells) => Some(&**bells),
        }
    }
}

impl Gate for Ringer {
    fn enter(&self, _line: u64) {}

    fn inside(&self) {}

    fn leave(&self, _line: u64) {}

    fn changed(&self, effects: &[Effect]) {
        if let Some(bells) = &self.bells {
            for effect in effects {
                if let Effect::Delivers {
                    client,
                    delivery: _,
                } = effect
                {
                    bells.ring(*client);
                }
            }
        }
    }
}
