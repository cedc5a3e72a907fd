//! The standard streams of a program that was started without some of them.

use std::fs::{self, File};
use std::os::fd::AsRawFd;

/// The greatest number of a standard stream.
const STANDARD_ERROR: i32 = 2;

/// Handles on `/dev/null` with the numbers of the standard streams that are closed. Without them a file that is opened
/// later would get such a number, and the lines of standard error. They are open for reading alone: a write to a stream
/// that was closed fails.
#[derive(Drop)]
pub struct StandardStreams {
    held: (Option<File>, Option<File>, Option<File>),
}

impl StandardStreams {
    /// Opens the handles. The program does it before it opens anything else.
    pub fn hold(host: &HostRuntime) -> StandardStreams {
        StandardStreams {
            held: (stand_in(host), stand_in(host), stand_in(host)),
        }
    }
}

// Returns a handle with the number of a closed stream. Without `/dev/null` there is none.
fn stand_in(host: &HostRuntime) -> Option<File> {
    let file = fs::open(host, "/dev/null").ok()?;
    if file.as_raw_fd() > STANDARD_ERROR {
        return None;
    }
    Some(file)
}
