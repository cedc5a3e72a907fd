//! The accounts of a server's threads, which become one.

use sm_account::{Account, Chronicle, at_rest, gather, gather_administrator};
use sm_door::{Admin, Door, Naming, Seat, SeatOrSession};
use sm_history::Gate;
use std::sync::{Mutex, Wait};

/// The accounts that no thread serves connections under: those of workers and of administrators, which threads take, and
/// the one to which each thread adds its own when it ends. A chronicle can't be dropped here, so no account is lost.
pub struct Accounts<J: Naming, K: Chronicle> {
    workers: Mutex<Vec<Account<Seat<J>, K>>>,
    admin: Mutex<Option<Account<Admin<J>, K>>>,
    gathered: Mutex<Account<Admin<J>, K>>,
}

impl<J: Naming, K: Chronicle> Accounts<J, K> {
    /// Begins with these accounts.
    pub fn new(
        workers: Vec<Account<Seat<J>, K>>,
        admin: Account<Admin<J>, K>,
        gathered: Account<Admin<J>, K>,
    ) -> Accounts<J, K> {
        Accounts {
            workers: Mutex::new(workers),
            admin: Mutex::new(Some(admin)),
            gathered: Mutex::new(gathered),
        }
    }

    /// Takes the account of a worker, if one is left.
    pub fn take_worker<R: Wait>(&self, rt: &R) -> Option<Account<Seat<J>, K>> {
        self.workers.lock(rt).pop()
    }

    /// Takes the account of the administrators, if it is left.
    pub fn take_admin<R: Wait>(&self, rt: &R) -> Option<Account<Admin<J>, K>> {
        self.admin.lock(rt).take()
    }

    /// Adds the account of a worker.
    pub fn add<G: Gate + Drop, R: Wait>(
        &self,
        rt: &R,
        door: &Door<J, G>,
        account: Account<SeatOrSession<J>, K>,
    ) {
        let mut guard = self.gathered.lock(rt);
        gather(rt, door, &mut *guard, account);
    }

    /// Adds the account of the administrators.
    pub fn add_admin<G: Gate + Drop, R: Wait>(
        &self,
        rt: &R,
        door: &Door<J, G>,
        account: Account<Admin<J>, K>,
    ) {
        let mut guard = self.gathered.lock(rt);
        gather_administrator(rt, door, &mut *guard, account);
    }

    /// Adds those that no thread took, and returns the one of all.
    pub fn into_gathered<G: Gate + Drop, R: Wait>(
        self,
        rt: &R,
        door: &Door<J, G>,
    ) -> Account<Admin<J>, K> {
        let Accounts {
            workers,
            admin,
            gathered,
        } = self;
        let mut left = workers.into_inner();
        let mut all = gathered.into_inner();
        while let Some(account) = left.pop() {
            gather(rt, door, &mut all, at_rest(account));
        }
        left.destroy_empty();
        if let Some(account) = admin.into_inner() {
            gather_administrator(rt, door, &mut all, account);
        }
        all
    }
}
