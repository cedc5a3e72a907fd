//! Numbers in variables of the environment.

use std::env::{Env, FillError};
use std::str;

/// The most digits of a number.
const MOST_DIGITS: usize = 20;

/// A variable of the environment whose value is to be a number.
#[derive(Clone, Copy, PartialEq, Eq)]
pub enum Setting {
    Absent,
    /// Its value isn't a number.
    Odd,
    Number(u64),
}

/// Returns the variable of this name.
pub fn read_setting(host: &HostRuntime, name: &str) -> Setting {
    let mut text = [0u8; MOST_DIGITS];
    match host.var(name, &mut text) {
        Ok(length) => match number_of(&text[..length]) {
            Some(number) => Setting::Number(number),
            None => Setting::Odd,
        },
        Err(FillError::NotPresent) => Setting::Absent,
        Err(FillError::TooLong) => Setting::Odd,
    }
}

// A sign is no part of a number here.
fn number_of(text: &[u8]) -> Option<u64> {
    if !text.iter().all(|byte| byte.is_ascii_digit()) {
        return None;
    }
    let digits = str::from_utf8(text).ok()?;
    u64::from_str_radix(digits, 10).ok()
}

/// Returns whether a variable has the number of this process.
pub fn is_own(process: u64) -> bool {
    process == u64::from(libc::getpid().unsigned_abs())
}
