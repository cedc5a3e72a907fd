//! Exchanges over connections to a server, as tables of steps.

use super::server::{Talk, Visits, Waiting};
use Step::{Close, Flood, Over, ReloadStricter, Repeat, Say, SayAll, Vanish};
use sm_samples::{DEVICE_LABELS, push_reload, stricter_rules};
use sm_serve::Numbers;
use std::alloc::{AllocError, Global};
use std::io::{Read, Write};
use std::net::{Net, Shutdown};
use std::os::unix::net::UnixStream;
use std::process::Abort;
use std::time::Duration;

/// A step at one of the connections of a test. Connections are numbered from 0, clients first, then administrators.
#[derive(Clone, Copy)]
pub enum Step {
    /// Sends these bytes and reads this answer.
    Say(usize, &'static [u8], &'static [u8]),
    /// Repeats a `Say` the given number of times.
    Repeat(u32, usize, &'static [u8], &'static [u8]),
    /// Runs a `Say` at each of the first n connections.
    SayAll(usize, &'static [u8], &'static [u8]),
    /// Sends a reload of the stricter rules that expects this version, in three writes: its line, the rules, the
    /// labels. Reads this answer.
    ReloadStricter(usize, u64, &'static [u8]),
    /// Sends these bytes repeatedly until a write fails.
    Flood(usize, &'static [u8]),
    /// Shuts down the sending side.
    Close(usize),
    /// Drops the test's end of the connection.
    Vanish(usize),
    /// Waits until the server has ended the connection.
    Over(usize),
}

/// The test's ends of the connections to a server, and the steps to run at them.
#[derive(Drop)]
pub struct Exchange {
    alloc: Global,
    ends: Vec<Option<UnixStream>>,
    steps: &'static [Step],
    /// The number of steps that have succeeded, and so the index of the next one.
    pub done: usize,
}

impl Talk for Exchange {
    fn run(&mut self) -> Result<(), usize> {
        let steps = self.steps;
        self.run_steps(steps)
    }
}

impl Exchange {
    /// Runs these steps. On error returns the index of the failed step, counted from the first step of the exchange.
    pub fn run_steps(&mut self, steps: &'static [Step]) -> Result<(), usize> {
        for step in steps {
            if !self.succeeds(*step) {
                return Err(self.done);
            }
            self.done = self.done.saturating_add(1);
        }
        Ok(())
    }

    fn succeeds(&mut self, step: Step) -> bool {
        match step {
            Say(at, sent, wanted) => self.says(at, sent, wanted),
            Repeat(count, at, sent, wanted) => (0..count).all(|_| self.says(at, sent, wanted)),
            SayAll(count, sent, wanted) => (0..count).all(|at| self.says(at, sent, wanted)),
            ReloadStricter(at, expected, wanted) => self.reloads_stricter(at, expected, wanted),
            Flood(at, sent) => self.end(at).is_some_and(|end| refuses(end, sent)),
            Close(at) => self
                .end(at)
                .is_some_and(|end| end.shutdown(Shutdown::Write).is_ok()),
            Vanish(at) => self.vanishes(at),
            Over(at) => self.end(at).is_some_and(is_over),
        }
    }

    fn end(&self, at: usize) -> Option<&UnixStream> {
        self.ends.get(at)?.as_ref()
    }

    fn says(&self, at: usize, sent: &[u8], wanted: &[u8]) -> bool {
        self.end(at).is_some_and(|end| answers(end, sent, wanted))
    }

    fn reloads_stricter(&self, at: usize, expected: u64, wanted: &[u8]) -> bool {
        let Ok(rules) = stricter_rules(self.alloc) else {
            return false;
        };
        let mut text = Vec::new(self.alloc);
        if push_reload(&mut text, expected, &rules, DEVICE_LABELS).is_err() {
            return false;
        }
        let Some(text) = text.as_slice().strip_suffix(DEVICE_LABELS) else {
            return false;
        };
        let Some(line) = text.strip_suffix(rules.as_slice()) else {
            return false;
        };
        self.says(at, line, b"")
            && self.says(at, &rules, b"")
            && self.says(at, DEVICE_LABELS, wanted)
    }

    fn vanishes(&mut self, at: usize) -> bool {
        let Some(end) = self.ends.get_mut(at) else {
            return false;
        };
        end.take().is_some()
    }
}

/// Sends these bytes. Returns whether the answer is `wanted`.
fn answers(stream: &UnixStream, sent: &[u8], wanted: &[u8]) -> bool {
    let mut stream = stream;
    let mut got = [0; 512];
    if wanted.len() > 512 || stream.write_all(sent).is_err() {
        return false;
    }
    let got = &mut got[..wanted.len()];
    stream.read_exact(got).is_ok() && *got == *wanted
}

/// More requests than a connection's replies have room for.
const REQUESTS: u32 = 1_000_000;

/// Sends these bytes repeatedly. Returns whether a write failed.
fn refuses(stream: &UnixStream, sent: &[u8]) -> bool {
    let mut stream = stream;
    (0..REQUESTS).any(|_| stream.write_all(sent).is_err())
}

/// Whether the server has ended the connection.
fn is_over(stream: &UnixStream) -> bool {
    let mut stream = stream;
    matches!(stream.read(&mut [0]), Ok(0))
}

/// The test's and the server's end of a connection. Reads at the test's end time out after 20 seconds.
fn connection<R: Net + Abort>(rt: &R) -> (UnixStream, UnixStream) {
    let (near, far) = UnixStream::pair(rt).ok().expect(rt, "a connection");
    let patience = Some(Duration::from_secs(20));
    assert!(rt; near.set_read_timeout(patience).is_ok());
    (near, far)
}

/// Makes `count` connections, and appends the test's ends to `ends`.
fn connections<R: Net + Abort>(
    rt: &R,
    alloc: Global,
    ends: &mut Vec<Option<UnixStream>>,
    count: u64,
) -> Result<Waiting, AllocError> {
    let mut streams = Vec::new(alloc);
    for _ in 0..count {
        let (near, far) = connection(rt);
        ends.push(Some(near))?;
        streams.push(far)?;
    }
    streams.reverse();
    Ok(Waiting {
        failures: &[],
        streams,
    })
}

/// Connects the clients and administrators of a server with these numbers, for an exchange of these steps.
pub fn connected<R: Net + Abort>(
    rt: &R,
    alloc: Global,
    numbers: Numbers,
    steps: &'static [Step],
) -> Result<(Visits, Exchange), AllocError> {
    let mut ends = Vec::new(alloc);
    let clients = connections(rt, alloc, &mut ends, numbers.clients)?;
    let admins = connections(rt, alloc, &mut ends, numbers.admins)?;
    let visits = Visits {
        clients,
        admins,
        numbers,
        heartbeat: None,
    };
    let exchange = Exchange {
        alloc,
        ends,
        steps,
        done: 0,
    };
    Ok((visits, exchange))
}
