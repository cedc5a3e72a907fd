//! The options of a server.

use clap::ArgMatches;

/// The slots of a journal, if none are given.
pub const DEFAULT_SLOTS: u32 = 1_048_576;

/// The bytes of entries at which a server seals by itself, if none are given.
const DEFAULT_BYTES: u64 = 67_108_864;

/// The greatest permissions of a socket.
const MOST_PERMISSIONS: u32 = 0o777;

/// The sockets of a server, its number of threads for clients, and when it seals its journal by itself.
#[derive(Clone, Copy, PartialEq, Eq)]
pub struct Sockets<'a> {
    /// The path of the clients' socket.
    pub clients: &'a str,
    /// The path of the administrators' socket.
    pub admins: &'a str,
    /// The path of the owner's socket, if there is to be one.
    pub status: Option<&'a str>,
    /// 1 to 64 threads, each of which serves one client at a time.
    pub workers: u32,
    /// The permissions of the clients' socket, at most 0o777. `None`: the umask decides.
    pub mode: Option<u32>,
    /// The number of entries at which the server seals the open segment, from 2 to half of its slots.
    pub seal_at: Option<u32>,
    /// The bytes of entries at which the server seals the open segment. If neither is given, only administrators seal.
    pub seal_bytes: Option<u64>,
    /// Whether the audit lines of clients' requests go to standard error.
    pub audit: bool,
    /// The number of audit lines that are written in a second, at most. 0: no limit.
    pub audit_rate: u32,
    /// The milliseconds for which a `take` waits for a delivery, at most 60,000. 0: it doesn't wait.
    pub take_wait: u32,
}

/// Returns the options of a server.
pub fn sockets_of<'a>(matches: &ArgMatches<'a>) -> Option<Sockets<'a>> {
    Some(Sockets {
        clients: matches.get_str("socket")?,
        admins: matches.get_str("admin")?,
        status: matches.get_str("status"),
        workers: matches.get_one::<u32>("workers")?,
        mode: matches.get_str("mode").and_then(permissions_of),
        seal_at: entries_to_seal_at(matches),
        seal_bytes: bytes_to_seal_at(matches),
        audit: matches.get_flag("audit"),
        audit_rate: matches.get_one::<u32>("audit-rate").unwrap_or(0),
        take_wait: matches.get_one::<u32>("take-wait").unwrap_or(0),
    })
}

/// Returns the number of entries at which a server seals by itself. If neither the slots nor this number is given, it is
/// half of the slots.
fn entries_to_seal_at(matches: &ArgMatches) -> Option<u32> {
    match matches.get_one::<u32>("seal-at") {
        Some(entries) => Some(entries),
        None if matches.contains_id("journal") => None,
        None => Some(DEFAULT_SLOTS / 2),
    }
}

/// Returns the bytes of entries at which a server seals by itself. With the slots alone it doesn't.
fn bytes_to_seal_at(matches: &ArgMatches) -> Option<u64> {
    match matches.get_one::<u64>("seal-bytes") {
        Some(bytes) => Some(bytes),
        None if entries_to_seal_at(matches).is_none() => None,
        None => Some(DEFAULT_BYTES),
    }
}

/// Returns the slots of the journal.
pub fn slots_of(matches: &ArgMatches) -> u32 {
    matches.get_one::<u32>("journal").unwrap_or(DEFAULT_SLOTS)
}

/// Returns the permissions of one to four octal digits, or `None` if the word isn't that, or they are too great.
fn permissions_of(text: &str) -> Option<u32> {
    let digits = text.as_bytes();
    if digits.len() > 4 || !digits.iter().all(|digit| matches!(*digit, b'0'..=b'7')) {
        return None;
    }
    match u32::from_str_radix(text, 8) {
        Ok(mode) if mode <= MOST_PERMISSIONS => Some(mode),
        _ => None,
    }
}

/// Returns what is wrong with a server's options, each of which is valid by itself.
pub fn misused(matches: &ArgMatches) -> Option<&'static str> {
    if let Some(fault) = misused_paths(matches) {
        return Some(fault);
    }
    if matches.get_one::<u32>("seal-at") > Some(slots_of(matches) / 2) {
        return Some("--seal-at is greater than half of the slots in the journal");
    }
    if matches.contains_id("audit-rate") && !matches.get_flag("audit") {
        return Some("--audit-rate is given without --audit");
    }
    let mode = matches.get_str("mode")?;
    match permissions_of(mode) {
        Some(_) => None,
        None => Some("--mode isn't an octal number from 0 to 777"),
    }
}

/// Returns what is wrong with the paths of a server's sockets.
fn misused_paths(matches: &ArgMatches) -> Option<&'static str> {
    let clients = matches.get_str("socket")?;
    let admins = matches.get_str("admin")?;
    if clients.is_empty() {
        return Some("the path of --socket is empty");
    }
    if admins.is_empty() {
        return Some("the path of --admin is empty");
    }
    if clients == admins {
        return Some("--socket and --admin have the same path");
    }
    let status = matches.get_str("status")?;
    if status.is_empty() {
        return Some(NO_STATUS_PATH);
    }
    if status == clients || status == admins {
        return Some("--status has the path of another socket");
    }
    None
}

/// What is wrong with an empty path of the owner's socket.
pub const NO_STATUS_PATH: &str = "the path of --status is empty";
