//! A limit for the audit lines of a server's log.

use std::rt::Clock;
use std::time::{Duration, Instant};

/// The number of audit lines that are written in a second, at most, and those that were left out.
#[derive(Drop)]
pub struct Rate {
    // 0: no limit.
    most: u64,
    // When the present second began. It begins with a line.
    begun: Option<Instant>,
    // The lines of the present second that were let through.
    passed: u64,
    // Those that were left out and not reported.
    left_out: u64,
}

impl Rate {
    /// Lets through this many lines a second. 0: all.
    pub fn new(most: u32) -> Rate {
        Rate {
            most: u64::from(most),
            begun: None,
            passed: 0,
            left_out: 0,
        }
    }

    /// Returns how many of these lines are let through, and counts the others.
    pub fn admit<R: Clock>(&mut self, rt: &R, lines: u64) -> u64 {
        if self.most == 0 {
            return lines;
        }
        if self.rest(rt).is_none() {
            self.begun = Instant::now(rt).ok();
            self.passed = 0;
        }
        let admitted = lines.min(self.most.saturating_sub(self.passed));
        self.passed = self.passed.saturating_add(admitted);
        let others = lines.saturating_sub(admitted);
        self.left_out = self.left_out.saturating_add(others);
        admitted
    }

    /// Returns the rest of the present second, or `None` if it is over.
    pub fn rest<R: Clock>(&self, rt: &R) -> Option<Duration> {
        let passed = self.begun?.elapsed(rt).ok()?;
        let second = Duration::from_secs(1);
        if passed < second {
            Some(second.saturating_sub(passed))
        } else {
            None
        }
    }

    /// Returns the number of lines that were left out and not reported.
    pub fn left_out(&self) -> u64 {
        self.left_out
    }

    /// Notes that it was reported.
    pub fn report(&mut self) {
        self.left_out = 0;
    }
}
