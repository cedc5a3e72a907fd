//! Whether systemd's journal reads standard error.

use std::env::Env;
use std::fs;
use std::os::unix::fs::MetadataExt;

/// The environment's variable with the device and the inode of a stream of the journal, which systemd sets for the
/// programs of its units (systemd.exec(5)).
const VARIABLE: &str = "JOURNAL_STREAM";

/// The most bytes of its value: two numbers of 64 bits, and a colon.
const MOST_NAME: usize = 41;

/// The file that is open as standard error.
const STANDARD_ERROR: &str = "/proc/self/fd/2";

/// Returns whether standard error is the stream that the variable names.
pub fn is_journal(host: &HostRuntime) -> bool {
    let mut name = [0u8; MOST_NAME];
    match host.var(VARIABLE, &mut name) {
        Ok(length) => is_standard_error(host, &name[..length]),
        Err(_) => false,
    }
}

// A file that can't be looked at has another name.
fn is_standard_error(host: &HostRuntime, name: &[u8]) -> bool {
    let Ok(file) = fs::metadata(host, STANDARD_ERROR) else {
        return false;
    };
    let (device, inode) = (file.dev(), file.ino());
    match format!(in host.alloc(); "{device}:{inode}") {
        Ok(found) => found.as_bytes() == name,
        Err(_) => false,
    }
}
