//! The server's threads.

ghost use Rattle.std.specs.Prelude.{IfSome};
ghost use Rattle.sm_account.specs.Served.{OneRun};

use crate::accounts::Accounts;
use crate::admitting::admit;
use crate::arrived::Arrived;
use crate::arriving::{arrival, next_stream};
use crate::crowd::Crowd;
use crate::entrance::Entrance;
use crate::faults::Faults;
use crate::heartbeat::beat;
use crate::operator::Operator;
use crate::owner::tell_owner;
use crate::patience::Patience;
use crate::queue::{Arrivals, Queue, queue_of};
use crate::settling::settle;
use crate::shared_admin::SharedAdmin;
use crate::visitor::Lobby;
use sm_account::{Account, Chronicle, Gauge, Monitor, SealAt, Supervisor, at_rest, opened};
use sm_bells::Ringer;
use sm_door::{Admin, Door, Naming, Seat, SeatOrSession};
use sm_engine::ServeFault;
use sm_history::Gate;
use std::alloc::Global;
use std::rt::Clock;
use std::sync::Wait;
use std::thread;
use std::thread::Threads;

/// The number of worker threads, the connections of each kind that are accepted, and their time limits.
#[derive(Clone, Copy, PartialEq, Eq)]
pub struct Numbers {
    /// The number of clients' connections that are served at once, at most that of the workers' accounts.
    pub workers: u32,
    /// The number of clients' connections that are accepted.
    pub clients: u64,
    /// The number of administrators' connections that are accepted, one after another.
    pub admins: u64,
    /// The number of the owner's connections that are accepted, one after another.
    pub owners: u64,
    pub patience: Patience,
    /// The slots of the journal.
    pub slots: u32,
    pub seal_at: SealAt,
}

/// Accepts the connections of each kind, and returns when their sessions have ended. Clients' connections are served by
/// a thread for each worker's account, one connection at a time each; administrators' by one more thread, one after
/// another, all under `admin`. Each connection that comes to the entrance `owner`, if there is one, is told the state
/// by one more thread, and ends. Seals that are due are made under `sealer`, and states are read under it. The
/// supervisor is notified when all threads run. If it wants a heartbeat, one more thread makes it, under `sealer`, too.
/// Where the ringer has bells, a `take` waits for a delivery. All accounts are added to `gathered`, which is returned:
/// its connections are parts of one lawful history, which begins with the one of the door's opening. Its chronicle also
/// counts the connections that were turned away. The result is an error if a listener failed for good, a thread
/// couldn't be started or an allocation failed; then the entrances are closed, and the connections that have begun are
/// shut down if they haven't ended in time.
pub fn serve<
    J: Naming + Send + Sync,
    K: Chronicle + Send,
    G: Gate + Drop + Send + Sync,
    C: Entrance,
    A: Entrance + Drop + Send,
    H: Operator + Sync,
    R: Threads + Wait + Clock + Sync,
>(
    rt: &R,
    alloc: Global,
    host: &H,
    clients: &mut C,
    admins: A,
    owner: Option<A>,
    door: &Door<J, G>,
    workers: Vec<Account<Seat<J>, K>>,
    admin: Account<Admin<J>, K>,
    gathered: Account<Admin<J>, K>,
    sealer: Admin<J>,
    numbers: Numbers,
    ringer: Ringer,
) -> (Account<Admin<J>, K>, Result<(), ServeFault>)
    ensures { IfSome result.0.told (OneRun J.opening result.0.token.seen) }
{
    let accounts = Accounts::new(workers, admin, gathered);
    let (turned_away, ended) = match Common::new(alloc, host, door, sealer, &numbers, ringer) {
        Ok((common, to)) => {
            run_threads(rt, &common, &accounts, clients, admins, owner, numbers, to);
            common.into_result()
        }
        Err(fault) => (0, Err(fault)),
    };
    let mut all = accounts.into_gathered(rt, door);
    all.turn_away(turned_away);
    (opened(all), ended)
}

/// What all threads of a server share.
struct Common<'a, J: Naming, G: Gate, H> {
    alloc: Global,
    host: &'a H,
    door: &'a Door<J, G>,
    patience: Patience,
    ringer: Ringer,
    queue: Queue,
    sealer: SharedAdmin<J>,
    gauge: Gauge,
    faults: Faults,
}

impl<'a, J: Naming, G: Gate + Drop, H: Supervisor> Common<'a, J, G, H> {
    /// Returns it, and the end of the queue at which connections arrive.
    fn new(
        alloc: Global,
        host: &'a H,
        door: &'a Door<J, G>,
        sealer: Admin<J>,
        numbers: &Numbers,
        ringer: Ringer,
    ) -> Result<(Common<'a, J, G, H>, Arrivals), ServeFault> {
        let Ok(gauge) = Gauge::new(alloc, numbers.slots, numbers.seal_at) else {
            return Err(ServeFault::Memory);
        };
        let Ok((to, queue)) = queue_of(alloc, numbers.workers) else {
            return Err(ServeFault::Memory);
        };
        let common = Common {
            alloc,
            host,
            door,
            patience: numbers.patience,
            ringer,
            queue,
            sealer: SharedAdmin::new(sealer),
            gauge,
            faults: Faults::new(alloc),
        };
        Ok((common, to))
    }

    /// Turns away the connections that no worker took. Returns how many were turned away, and the first fault.
    fn into_result(self) -> (u64, Result<(), ServeFault>) {
        let Common {
            alloc: _,
            host: _,
            door: _,
            patience: _,
            ringer: _,
            queue,
            sealer: _,
            gauge: _,
            faults,
        } = self;
        queue.close(faults.live().turned_away());
        let number = faults.live().turned_away().number();
        (number, faults.into_result())
    }

    fn monitor(&self) -> Monitor<'_, H> {
        Monitor::new(self.host, &self.gauge)
    }
}

/// Runs the threads to their ends. Clients' connections are accepted by this one.
fn run_threads<
    J: Naming + Send + Sync,
    K: Chronicle + Send,
    G: Gate + Drop + Send + Sync,
    C: Entrance,
    A: Entrance + Drop + Send,
    H: Operator + Sync,
    R: Threads + Wait + Clock + Sync,
>(
    rt: &R,
    common: &Common<'_, J, G, H>,
    accounts: &Accounts<J, K>,
    clients: &mut C,
    admins: A,
    owner: Option<A>,
    numbers: Numbers,
    to: Arrivals,
) {
    let number = numbers.admins;
    let owners = numbers.owners;
    let faults = &common.faults;
    thread::scope(thread::scope_env(), rt, |scope| {
        for _ in 0..numbers.workers {
            faults.live().begin_thread();
            let started = scope.spawn(move || work(rt, common, accounts));
            if started.is_err() {
                faults.miss_thread(rt, common.host);
            }
        }
        faults.live().begin_thread();
        let started = scope.spawn(move || administer(rt, common, accounts, admins, number));
        if started.is_err() {
            faults.miss_thread(rt, common.host);
        }
        if let Some(microseconds) = common.host.heartbeat() {
            let started = scope.spawn(move || watch(rt, common, microseconds));
            if started.is_err() {
                faults.note(rt, common.host, ServeFault::NoThread);
            }
        }
        if let Some(entrance) = owner {
            faults.live().begin_thread();
            let started = scope.spawn(move || tell_owners(rt, common, entrance, owners));
            if started.is_err() {
                faults.miss_thread(rt, common.host);
            }
        }
        let crowd = Crowd::new(common.alloc, clients, numbers.workers, numbers.clients);
        admit(rt, crowd, &common.queue, to, common.host, faults);
        faults.end_connections(rt, common.patience.end);
    });
}

/// Serves clients' connections under a worker's account, and adds it to that of all.
fn work<J: Naming, K: Chronicle, G: Gate + Drop, H: Operator, R: Wait + Clock>(
    rt: &R,
    common: &Common<'_, J, G, H>,
    accounts: &Accounts<J, K>,
) {
    if let Some(account) = accounts.take_worker(rt) {
        let account = serve_clients(rt, common, account);
        accounts.add(rt, common.door, account);
    }
    common.faults.live().end_thread();
}

/// Tells the state to each of this number of connections of the owner, one after another.
fn tell_owners<J: Naming, G: Gate + Drop, A: Entrance + Drop, H: Operator, R: Wait + Clock>(
    rt: &R,
    common: &Common<'_, J, G, H>,
    entrance: A,
    number: u64,
) {
    let monitor = common.monitor();
    let faults = &common.faults;
    let mut entrance = entrance;
    for _ in 0..number {
        let Some(stream) = next_stream(rt, &mut entrance, common.host, faults) else {
            break;
        };
        if faults.is_noted(rt) {
            break;
        }
        tell_owner(
            rt,
            common.alloc,
            common.door,
            &common.sealer,
            &common.queue,
            common.patience,
            &monitor,
            &stream,
        );
    }
    faults.live().end_thread();
}

/// Notifies the operator that the server answers, until the other threads have ended.
fn watch<J: Naming, G: Gate + Drop, H: Operator, R: Wait + Clock>(
    rt: &R,
    common: &Common<'_, J, G, H>,
    microseconds: u64,
) {
    beat(
        rt,
        common.door,
        &common.sealer,
        common.host,
        common.faults.live(),
        microseconds,
    );
}

/// Serves connections from the queue at this account's seat, until no more come.
fn serve_clients<J: Naming, K: Chronicle, G: Gate + Drop, H: Operator, R: Wait + Clock>(
    rt: &R,
    common: &Common<'_, J, G, H>,
    account: Account<Seat<J>, K>,
) -> Account<SeatOrSession<J>, K> {
    let monitor = common.monitor();
    let live = common.faults.live();
    let mut slot = at_rest(account);
    for _ in rt.forever() {
        let seat = match settle(rt, common.door, slot, &monitor, &common.faults) {
            Ok(seat) => seat,
            Err(left) => {
                slot = left;
                break;
            }
        };
        let Some(arrived) = common.queue.next(rt) else {
            slot = at_rest(seat);
            break;
        };
        let Ok((number, guest)) = live.enter(rt, arrived) else {
            monitor.run_short();
            slot = at_rest(seat);
            continue;
        };
        common.queue.begin_work();
        slot = guest.attend_client(
            rt,
            common.alloc,
            common.door,
            seat,
            &common.sealer,
            common.host,
            &monitor,
            common.patience,
            &common.queue,
            &common.ringer,
        );
        common.queue.end_work();
        live.leave(rt, number);
    }
    slot
}

/// Serves administrators' connections, one after another, and adds the account to that of all.
fn administer<
    J: Naming,
    K: Chronicle,
    G: Gate + Drop,
    A: Entrance + Drop,
    H: Supervisor,
    R: Wait + Clock,
>(rt: &R, common: &Common<'_, J, G, H>, accounts: &Accounts<J, K>, entrance: A, number: u64) {
    if let Some(account) = accounts.take_admin(rt) {
        let account = serve_administrators(rt, common, account, entrance, number);
        accounts.add_admin(rt, common.door, account);
    }
    common.faults.live().end_thread();
}

/// Serves administrators' connections, one after another.
fn serve_administrators<
    J: Naming,
    K: Chronicle,
    G: Gate + Drop,
    A: Entrance + Drop,
    H: Supervisor,
    R: Wait + Clock,
>(
    rt: &R,
    common: &Common<'_, J, G, H>,
    admin: Account<Admin<J>, K>,
    entrance: A,
    number: u64,
) -> Account<Admin<J>, K> {
    let monitor = common.monitor();
    let live = common.faults.live();
    let mut account = admin;
    let mut lobby = Lobby::new(entrance);
    for _ in 0..number {
        let Some(arrived) = next_administrator(rt, &mut lobby, common.host, &common.faults) else {
            break;
        };
        let Ok((place, guest)) = live.enter(rt, arrived) else {
            monitor.run_short();
            continue;
        };
        account = guest.attend_administrator(
            rt,
            common.alloc,
            common.door,
            account,
            &common.sealer,
            &monitor,
            common.patience.admin,
            &mut lobby,
            live.turned_away(),
        );
        live.leave(rt, place);
    }
    lobby.close(live.turned_away());
    account
}

/// Returns the administrator's connection that waits, or waits for one.
fn next_administrator<A: Entrance, H: Supervisor, R: Wait + Clock>(
    rt: &R,
    lobby: &mut Lobby<A>,
    host: &H,
    faults: &Faults,
) -> Option<Arrived> {
    if let Some(arrived) = lobby.take() {
        return Some(arrived);
    }
    arrival(rt, lobby.entrance(), host, faults)
}
