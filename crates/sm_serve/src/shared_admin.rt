//! The token of all administrators' connections.

use sm_door::{Admin, Naming};
use std::sync::{Mutex, MutexGuard, Wait};

/// The token that all connections of administrators share, one after another.
#[derive(Drop)]
pub struct SharedAdmin<J: Naming> {
    admin: Mutex<Admin<J>>,
}

impl<J: Naming> SharedAdmin<J> {
    /// Shares this token.
    pub fn new(admin: Admin<J>) -> SharedAdmin<J> {
        SharedAdmin {
            admin: Mutex::new(admin),
        }
    }

    /// Locks the token.
    pub fn lock<R: Wait>(&self, rt: &R) -> MutexGuard<'_, Admin<J>> {
        self.admin.lock(rt)
    }
}
