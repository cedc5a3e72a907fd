//! A connection from its arrival to its end. It can't be dropped.

use crate::attending::{attend_administrator, attend_client};
use crate::entrance::Entrance;
use crate::operator::Operator;
use crate::pages::{NotedRead, NotedWrite};
use crate::patience::Patience;
use crate::queue::Queue;
use crate::shared_admin::SharedAdmin;
use crate::turned_away::TurnedAway;
use crate::visitor::Lobby;
use sm_account::{Account, Chronicle, Monitor, Supervisor};
use sm_bells::{Doorstep, Ringer};
use sm_door::{Admin, Door, Naming, Seat, SeatOrSession};
use sm_history::Gate;
use sm_values::drop_fields;
use std::alloc::{AllocError, Global};
use std::net::Shutdown;
use std::os::fd::AsRawFd;
use std::os::unix::net::UnixStream;
use std::rt::Clock;
use std::sync::{Arc, Wait};

/// A connection that was accepted. It isn't `Drop`, so it has to be served under an account, or turned away.
pub struct Arrived {
    stream: UnixStream,
}

impl Arrived {
    /// Takes a connection from an entrance.
    pub fn new(stream: UnixStream) -> Arrived {
        Arrived { stream }
    }

    /// Closes a connection that isn't served, and counts it: the server ends, or has no memory for it.
    pub fn turn_away(self, turned: &TurnedAway) {
        let Arrived { stream: _ } = self;
        turned.count();
    }

    /// Returns the connection as one that is about to be served, and what shuts it down. It is turned away if an
    /// allocation failed.
    pub fn admit(self, alloc: Global, turned: &TurnedAway) -> Result<(Guest, Cutter), AllocError> {
        let Arrived { stream } = self;
        match shared(alloc, stream) {
            Ok((stream, same)) => Ok((Guest { stream }, Cutter { stream: same })),
            Err(error) => {
                turned.count();
                Err(error)
            }
        }
    }
}

// Returns two owners of a connection.
fn shared(
    alloc: Global,
    stream: UnixStream,
) -> Result<(Arc<UnixStream>, Arc<UnixStream>), AllocError> {
    let one = Arc::new(alloc, stream)?;
    let other = Arc::try_clone(&one)?;
    Ok((one, other))
}

/// What shuts a connection down, and does nothing else with it.
pub struct Cutter {
    stream: Arc<UnixStream>,
}

impl Drop for Cutter {
    fn drop(self) {
        drop_fields!(self: stream);
    }
}

impl Cutter {
    /// Shuts the connection down. One that has ended meanwhile is as it should be.
    pub fn cut(&self) {
        let _ = self.stream.shutdown(Shutdown::Both);
    }
}

/// A connection that is about to be served. It isn't `Drop` either.
pub struct Guest {
    stream: Arc<UnixStream>,
}

impl Guest {
    /// Closes a connection that isn't served, and counts it: there is no memory for it.
    pub fn turn_away(self, turned: &TurnedAway) {
        let Guest { stream: _ } = self;
        turned.count();
    }

    /// Serves it as a client's, and adds it and its pages to the account. A `take` waits for its bell, if there is one.
    pub fn attend_client<J: Naming, K: Chronicle, G: Gate + Drop, H: Operator, R: Wait + Clock>(
        self,
        rt: &R,
        alloc: Global,
        door: &Door<J, G>,
        account: Account<Seat<J>, K>,
        sealer: &SharedAdmin<J>,
        host: &H,
        monitor: &Monitor<H>,
        patience: Patience,
        queue: &Queue,
        ringer: &Ringer,
    ) -> Account<SeatOrSession<J>, K> {
        let Guest { stream } = self;
        let step = Doorstep::new(rt, door.gate(), ringer.bells(), stream.as_raw_fd());
        let input = NotedRead::new(&*stream, account.page());
        let output = NotedWrite::new(&*stream, account.page());
        let (mut account, input, output) = attend_client(
            rt, alloc, door, account, sealer, host, monitor, patience, queue, &step, input, output,
        );
        account.keep(input.into_page(), output.into_page());
        account
    }

    /// Serves it as an administrator's, and adds it and its pages to the account.
    pub fn attend_administrator<
        J: Naming,
        K: Chronicle,
        G: Gate + Drop,
        A: Entrance,
        H: Supervisor,
        R: Wait + Clock,
    >(
        self,
        rt: &R,
        alloc: Global,
        door: &Door<J, G>,
        account: Account<Admin<J>, K>,
        sealer: &SharedAdmin<J>,
        monitor: &Monitor<H>,
        seconds: u64,
        lobby: &mut Lobby<A>,
        turned: &TurnedAway,
    ) -> Account<Admin<J>, K> {
        let Guest { stream } = self;
        let input = NotedRead::new(&*stream, account.page());
        let output = NotedWrite::new(&*stream, account.page());
        let (mut account, input, output) = attend_administrator(
            rt, alloc, door, account, sealer, monitor, seconds, input, output, lobby, turned,
        );
        account.keep(input.into_page(), output.into_page());
        account
    }
}
