//! A server over sockets, until it is killed.

ghost use Rattle.std.specs.Prelude.{◌≡◌};
ghost use Rattle.sm_core.specs.Opening.{opened};

use crate::console::{Console, Entrances};
use crate::passed::Passed;
use crate::sockets::{Claim, OWNER_ALONE};
use sm_account::{Account, Forgets};
use sm_bells::Ringer;
use sm_command::{Ending, Sockets};
use sm_connection::SealAt;
use sm_core::manager_identity;
use sm_door::{Admin, Door, Naming, Seat, UnnamedRegistry};
use sm_engine::ServeFault;
use sm_history::MOST_CLIENTS;
use sm_policy::Prepared;
use sm_script::ScriptFault;
use sm_serve::{Numbers, Patience, serve};
use sm_values::{Identity, Places};
use std::marker::Brand;
use std::os::unix::net::UnixListener;
use std::rt::{Clock, Files, Net};
use std::sync::Wait;
use std::thread;
use std::thread::Threads;

/// Serves clients and administrators under this policy. It returns where the manager or a socket wasn't opened, or a
/// fault ended the server.
pub fn serve_policy<'a, R: Files + Net + Threads + Wait + Clock + Sync>(
    host: &HostRuntime,
    rt: &R,
    policy: Prepared,
    places: Places,
    sockets: Sockets<'a>,
    passed: Passed,
) -> Result<(), Ending<'a>> {
    let Ok(who) = manager_identity(host.alloc()) else {
        return Err(Ending::Memory);
    };
    let ringer = match Ringer::new(host.alloc(), sockets.workers, sockets.take_wait) {
        Ok(ringer) => ringer,
        Err(error) => return Err(Ending::of_file(sockets.clients, error)),
    };
    open::<Brand, R>(
        host,
        rt,
        UnnamedRegistry::new(),
        who,
        policy,
        places,
        ringer,
        sockets,
        passed,
    )
}

/// Opens the door with a seat for each worker, and closes it when the server has ended.
fn open<'a, J: Naming + Send + Sync, R: Files + Net + Threads + Wait + Clock + Sync>(
    host: &HostRuntime,
    rt: &R,
    unnamed: UnnamedRegistry,
    who: Identity,
    policy: Prepared,
    places: Places,
    ringer: Ringer,
    sockets: Sockets<'a>,
    passed: Passed,
) -> Result<(), Ending<'a>>
    requires registry { unnamed.seen.book ≡ J.registry }
    requires opening { J.opening ≡ opened places who policy }
{
    let alloc = host.alloc();
    let slots = places.entries();
    let clients = MOST_CLIENTS.min(sockets.workers as usize);
    let opened = Door::<J, Ringer>::open_for(
        rt, alloc, unnamed, who, policy, places, ringer, clients,
    );
    let (door, seats, mut admins) = match opened {
        Ok(parts) => parts,
        Err(refusal) => return Err(Ending::Script(ScriptFault::Opening(refusal))),
    };
    let mut workers = Vec::new(alloc);
    for seat in seats {
        if workers.push(Account::new(seat, Forgets::new())).is_err() {
            door.close(rt);
            return Err(Ending::Memory);
        }
    }
    let tokens = Tokens {
        workers,
        gathered: Account::new(admins.swap_remove(0), Forgets::new()),
        admin: Account::new(admins.swap_remove(0), Forgets::new()),
        sealer: admins.swap_remove(0),
    };
    let ended = listen(host, rt, &door, tokens, slots, sockets, passed);
    door.close(rt);
    ended
}

/// The tokens of a server: for clients' connections, for administrators', for its own seals, and for what became of all.
#[derive(Drop)]
struct Tokens<J: Naming> {
    workers: Vec<Account<Seat<J>, Forgets>>,
    admin: Account<Admin<J>, Forgets>,
    gathered: Account<Admin<J>, Forgets>,
    sealer: Admin<J>,
}

/// How long the other end of a connection may take, in seconds.
const PATIENCE: Patience = Patience {
    hello: 10,
    reply: 10,
    admin: 60,
    end: 10,
};

/// Takes a socket that was passed, or claims the path and listens there.
fn open_socket<'a, R: Files + Net>(
    host: &HostRuntime,
    rt: &R,
    path: &'a str,
    mode: Option<u32>,
    passed: Option<UnixListener>,
) -> Result<(Option<Claim<'a>>, UnixListener), Ending<'a>> {
    if let Some(listener) = passed {
        return Ok((None, listener));
    }
    let claim = Claim::new(host, path)?;
    match claim.listen(rt, mode) {
        Ok(listener) => Ok((Some(claim), listener)),
        Err(error) => {
            claim.give_up(rt);
            Err(Ending::of_file(path, error))
        }
    }
}

/// Opens the clients' socket, then the other ones, and serves. Where it returns, the sockets and the locks that it made
/// are gone. Those that were passed stay.
fn listen<'a, J: Naming + Send + Sync, R: Files + Net + Threads + Wait + Clock + Sync>(
    host: &HostRuntime,
    rt: &R,
    door: &Door<J, Ringer>,
    tokens: Tokens<J>,
    slots: u32,
    sockets: Sockets<'a>,
    passed: Passed,
) -> Result<(), Ending<'a>> {
    let Passed { clients, admins } = passed;
    let (claim, clients) = open_socket(host, rt, sockets.clients, sockets.mode, clients)?;
    let is_passed = claim.is_none();
    let ended = match open_socket(host, rt, sockets.admins, Some(OWNER_ALONE), admins) {
        Ok((other, admins)) => {
            let entrances = Entrances {
                clients,
                admins,
                owner: None,
                are_passed: (is_passed, other.is_none()),
            };
            let ended = listen_for_owner(host, rt, door, tokens, slots, sockets, entrances);
            remove(rt, other);
            ended
        }
        Err(ending) => Err(ending),
    };
    remove(rt, claim);
    ended
}

/// Opens the owner's socket, if there is to be one, and serves.
fn listen_for_owner<'a, J: Naming + Send + Sync, R: Files + Net + Threads + Wait + Clock + Sync>(
    host: &HostRuntime,
    rt: &R,
    door: &Door<J, Ringer>,
    tokens: Tokens<J>,
    slots: u32,
    sockets: Sockets<'a>,
    mut entrances: Entrances,
) -> Result<(), Ending<'a>> {
    let Some(path) = sockets.status else {
        return serve_at(host, rt, door, tokens, slots, sockets, entrances);
    };
    let (claim, listener) = open_socket(host, rt, path, Some(OWNER_ALONE), None)?;
    entrances.owner = Some(listener);
    let ended = serve_at(host, rt, door, tokens, slots, sockets, entrances);
    remove(rt, claim);
    ended
}

fn remove<R: Files>(rt: &R, claim: Option<Claim>) {
    if let Some(claim) = claim {
        claim.remove(rt);
    }
}

/// Serves at these sockets, with a thread of its own for the log.
fn serve_at<'a, J: Naming + Send + Sync, R: Threads + Wait + Clock + Sync>(
    host: &HostRuntime,
    rt: &R,
    door: &Door<J, Ringer>,
    tokens: Tokens<J>,
    slots: u32,
    sockets: Sockets<'a>,
    entrances: Entrances,
) -> Result<(), Ending<'a>> {
    let (console, lines) = match Console::new(host, rt, sockets, &entrances) {
        Ok(parts) => parts,
        Err(error) => return Err(Ending::of_file(sockets.clients, error)),
    };
    let numbers = numbers_of(slots, &sockets);
    let shown = &console;
    thread::scope(thread::scope_env(), rt, |scope| {
        if scope.spawn(move || shown.write_log(lines)).is_err() {
            return Err(Ending::Serve(ServeFault::NoThread));
        }
        let ended = serve_under(host, rt, shown, door, tokens, numbers, entrances);
        shown.end_log();
        ended
    })
}

fn numbers_of(slots: u32, sockets: &Sockets) -> Numbers {
    Numbers {
        workers: sockets.workers,
        clients: u64::MAX,
        admins: u64::MAX,
        owners: u64::MAX,
        patience: PATIENCE,
        slots,
        seal_at: SealAt {
            entries: sockets.seal_at,
            bytes: sockets.seal_bytes,
        },
    }
}

/// Serves under the eyes of this console.
fn serve_under<'a, J: Naming + Send + Sync, R: Threads + Wait + Clock + Sync>(
    host: &HostRuntime,
    rt: &R,
    console: &Console<R>,
    door: &Door<J, Ringer>,
    tokens: Tokens<J>,
    numbers: Numbers,
    entrances: Entrances,
) -> Result<(), Ending<'a>> {
    let Entrances {
        mut clients,
        admins,
        owner,
        are_passed: _,
    } = entrances;
    let Tokens {
        workers,
        admin,
        gathered,
        sealer,
    } = tokens;
    let Ok(ringer) = door.gate().share() else {
        return Err(Ending::Memory);
    };
    let (_, ended) = serve(
        rt,
        host.alloc(),
        console,
        &mut clients,
        admins,
        owner,
        door,
        workers,
        admin,
        gathered,
        sealer,
        numbers,
        ringer,
    );
    match ended {
        Ok(()) => Ok(()),
        Err(fault) => Err(Ending::Serve(fault)),
    }
}
