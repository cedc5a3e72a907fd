//! The connection of an administrator, beside others that may wait.

ghost use Rattle.std.specs.Prelude.{◌≡◌};

use crate::arrived::Arrived;
use crate::entrance::Entrance;
use crate::turned_away::TurnedAway;
use sm_values::drop_fields;
use std::io::{self, Error, ErrorKind, Read};
use std::rt::Clock;
use std::time::{Duration, Instant};

/// Seconds for which an administrator's connection may idle while another one waits, and between two looks at whether
/// one does.
pub const COURTESY: u64 = 2;

/// The number of looks at which another one has waited, after which a connection that never idles ends.
const TURN: u64 = 4;

/// Where administrators arrive, and the one who has waited at least since the last look.
pub struct Lobby<A> {
    entrance: A,
    next: Option<Arrived>,
}

impl<A: Entrance> Lobby<A> {
    /// Makes a lobby in which nobody waits.
    pub fn new(entrance: A) -> Lobby<A> {
        Lobby {
            entrance,
            next: None,
        }
    }

    /// Returns where administrators arrive.
    pub fn entrance(&mut self) -> &mut A {
        &mut self.entrance
    }

    /// Returns the one who waits, if anyone does.
    pub fn take(&mut self) -> Option<Arrived> {
        self.next.take()
    }

    /// Turns away the one who waits, if anyone does.
    pub fn close(self, turned: &TurnedAway)
    where
        A: Drop,
    {
        let Lobby { entrance: _, next } = self;
        if let Some(arrived) = next {
            arrived.turn_away(turned);
        }
    }

    // Returns whether someone waited at the last look, and looks.
    fn has_waited(&mut self, turned: &TurnedAway) -> bool {
        if self.next.is_some() {
            return true;
        }
        if let Some(stream) = self.entrance.try_accept() {
            if let Some(earlier) = self.next.replace(Arrived::new(stream)) {
                earlier.turn_away(turned);
            }
        }
        false
    }
}

/// The reader of an administrator's connection. Its reads end after some seconds, and it makes another one unless
/// somebody else waits. Who never idles has a turn of some seconds once somebody does.
pub struct Visitor<'a, A, R, I> {
    rt: &'a R,
    input: I,
    lobby: &'a mut Lobby<A>,
    turned: &'a TurnedAway,
    // The number of times that a read may end without input.
    looks: u64,
    // When it was last looked before a read whether somebody waits, and how often somebody had.
    looked: Instant,
    waited: u64,
}

impl<'a, A, R, I: Drop> Drop for Visitor<'a, A, R, I> {
    fn drop(self) {
        drop_fields!(self: rt, input, lobby, turned, looks, looked, waited);
    }
}

impl<'a, A: Entrance, R, I> Visitor<'a, A, R, I> {
    /// The reader of a connection that begins now, whose reads end after `COURTESY` seconds, and that may idle for this
    /// number of seconds.
    pub fn new(
        rt: &'a R,
        input: I,
        lobby: &'a mut Lobby<A>,
        turned: &'a TurnedAway,
        seconds: u64,
        now: Instant,
    ) -> Visitor<'a, A, R, I>
        ensures { result.input ≡ input }
    {
        Visitor {
            rt,
            input,
            lobby,
            turned,
            looks: seconds.div_ceil(COURTESY),
            looked: now,
            waited: 0,
        }
    }

    /// Returns the reader.
    pub fn into_inner(self) -> I
        ensures { result ≡ self.entry.input }
    {
        let Visitor {
            rt: _,
            input,
            lobby: _,
            turned: _,
            looks: _,
            looked: _,
            waited: _,
        } = self;
        input
    }
}

impl<'a, A: Entrance, R: Clock, I> Visitor<'a, A, R, I> {
    // Looks whether somebody waits, if the last look is long ago. An error if somebody has waited for a turn.
    fn keep_turn(&mut self) -> io::Result<()>
        ensures { self.new.input ≡ self.old.input }
    {
        if self.looked.elapsed(self.rt)? < Duration::from_secs(COURTESY) {
            return Ok(());
        }
        self.looked = Instant::now(self.rt)?;
        if self.lobby.has_waited(self.turned) {
            self.waited = self.waited.saturating_add(1);
        }
        if self.waited >= TURN {
            return Err(Error::from(ErrorKind::TimedOut));
        }
        Ok(())
    }
}

impl<'a, A: Entrance, R: Clock, I: Read> Read for Visitor<'a, A, R, I> {
    ghost remaining = { λ v. I.remaining v.input };

    fn read(&mut self, buf: &mut [u8]) -> io::Result<usize> {
        self.keep_turn()?;
        for _ in 0..self.looks {
            match self.input.read(buf) {
                Ok(n) => return Ok(n),
                Err(error) => {
                    if error.kind() != ErrorKind::WouldBlock {
                        return Err(error);
                    }
                }
            }
            if self.lobby.has_waited(self.turned) {
                break;
            }
        }
        Err(Error::from(ErrorKind::TimedOut))
    }
}
