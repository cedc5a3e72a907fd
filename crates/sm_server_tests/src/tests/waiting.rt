//! A `take` that waits for a delivery to its client.

use sm_bells::{Doorstep, Ringer};
use sm_history::{Gate, NoGate};
use std::process::Abort;
use std::rt::Clock;
use std::test::Fail;
use std::thread;
use std::time::{Duration, Instant};

/// The milliseconds of a wait that is to end before its time.
const LONG: u32 = 60_000;

/// The milliseconds of a wait that goes on for its whole time.
const SHORT: u32 = 100;

/// In place of a connection's descriptor: none.
const NO_CONNECTION: i32 = -1;

/// The client that waits, and another one.
const CLIENT: u32 = 7;

const OTHER: u32 = 8;

/// How long a `take` waits at a doorstep.
fn waited<R: Clock + Abort, G: Gate>(rt: &R, step: &G) -> Duration {
    let begun = Instant::now(rt).ok().expect(rt, "a time");
    step.before_take();
    begun.elapsed(rt).ok().expect(rt, "a time")
}

#[test]
fn kept_deliveries_are_taken_without_a_wait(rt: HostRuntime) -> Result<(), Fail> {
    let ringer = Ringer::new(rt.alloc(), 1, LONG).ok().expect(&rt, "bells");
    let step = Doorstep::new(&rt, &NoGate, ringer.bells(), NO_CONNECTION);
    step.connect(CLIENT);
    for _ in 0..3 {
        ringer.ring(CLIENT);
    }
    for _ in 0..3 {
        assert!(&rt; waited(&rt, &step) < Duration::from_secs(5));
        step.take();
    }
    Ok(())
}

#[test]
fn a_take_waits_while_others_get_deliveries(rt: HostRuntime) -> Result<(), Fail> {
    let ringer = Ringer::new(rt.alloc(), 2, SHORT).ok().expect(&rt, "bells");
    let step = Doorstep::new(&rt, &NoGate, ringer.bells(), NO_CONNECTION);
    step.connect(CLIENT);
    ringer.ring(OTHER);
    assert!(&rt; waited(&rt, &step) >= Duration::from_millis(u64::from(SHORT)));
    // A delivery that was taken is waited for no more.
    ringer.ring(CLIENT);
    step.before_take();
    step.take();
    assert!(&rt; waited(&rt, &step) >= Duration::from_millis(u64::from(SHORT)));
    Ok(())
}

#[test]
fn a_take_waits_for_nothing_that_was_not_there(rt: HostRuntime) -> Result<(), Fail> {
    let ringer = Ringer::new(rt.alloc(), 1, SHORT).ok().expect(&rt, "bells");
    let step = Doorstep::new(&rt, &NoGate, ringer.bells(), NO_CONNECTION);
    step.connect(CLIENT);
    ringer.ring(CLIENT);
    step.before_take();
    step.find_empty();
    assert!(&rt; waited(&rt, &step) >= Duration::from_millis(u64::from(SHORT)));
    Ok(())
}

#[test]
fn a_ring_ends_a_wait(rt: HostRuntime) -> Result<(), Fail> {
    let ringer = Ringer::new(rt.alloc(), 1, LONG).ok().expect(&rt, "bells");
    let step = Doorstep::new(&rt, &NoGate, ringer.bells(), NO_CONNECTION);
    step.connect(CLIENT);
    let far = Duration::from_secs(5);
    thread::scope(thread::scope_env(), &rt, |scope| {
        let started = scope.spawn(|| ringer.ring(CLIENT));
        assert!(&rt; started.is_ok() && waited(&rt, &step) < far);
    });
    Ok(())
}
