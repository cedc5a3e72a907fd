//! Why the program ended without an answer, and its line on standard error.

ghost use Rattle.std.specs.Prelude.{◌≡◌, ◌≢◌, IfOk, string_bytes};
ghost use Rattle.std.specs.IoError.{error_kind};
ghost use Rattle.sm_command.specs.Endings as spec;
ghost use Rattle.sm_command.specs.Endings.{Tells};

use sm_engine::{Fault, ServeFault};
use sm_history::{Denial, Refusal};
use sm_questions::refused_line;
use sm_script::ScriptFault;
use sm_values::{Class, Perms, push_access};
use std::alloc::{AllocError, Global};
use std::io::{self, ErrorKind};
use thiserror::Error;

/// The line for a failed allocation, also for one while a line is made.
pub const NO_MEMORY: &[u8] = b"fault: no memory\n";

/// Why the program ended without an answer.
#[derive(Debug, Drop, Error)]
pub enum Ending<'a> {
    /// An allocation failed while the command line or the files of a policy were read.
    #[error("fault: no memory")]
    Memory,
    /// The file of this path couldn't be read.
    #[error("fault: {path}: {error}")]
    File { path: &'a str, error: io::Error },
    /// The lock beside the socket of this path couldn't be made.
    #[error("fault: {path}.lock: {error}")]
    Lock { path: &'a str, error: io::Error },
    /// The log on standard input has more bytes than are read.
    #[error("fault: log: too large")]
    LogTooLarge,
    /// One of the two policies of a `diff`, that of these files, is refused.
    #[error("fault: {rules} {contexts}: policy refused")]
    Refused { rules: &'a str, contexts: &'a str },
    /// The script was not run, or not to its end; or the verdict of a check couldn't be written.
    #[error(transparent)]
    Script(ScriptFault),
    /// A server ended early.
    #[error("fault: {0}")]
    Serve(ServeFault),
}

impl<'a> From<ScriptFault> for Ending<'a> {
    ghost use Rattle.sm_command.specs.declared.ending.Ending.TheVariants.{Script};

    ghost from_gives = { λ fault ending. ending ≡ Script fault };

    fn from(fault: ScriptFault) -> Ending<'a> {
        Ending::Script(fault)
    }
}

impl<'a> From<Fault> for Ending<'a> {
    ghost use Rattle.sm_command.specs.declared.ending.Ending.TheVariants.{Script};
    ghost use Rattle.sm_script.specs.declared.script_fault.ScriptFault.TheVariants.{Engine};

    ghost from_gives = { λ fault ending. ending ≡ Script (Engine fault) };

    fn from(fault: Fault) -> Ending<'a> {
        Ending::Script(ScriptFault::Engine(fault))
    }
}

impl<'a> Ending<'a> {
    /// Makes the ending for a file that couldn't be read.
    pub fn of_file(path: &'a str, error: io::Error) -> Ending<'a>
        ensures memory { error_kind error ≡ ErrorKind.OutOfMemory → result ≡ Ending.Memory }
        ensures file { error_kind error ≢ ErrorKind.OutOfMemory → result ≡ Ending.File path.entry error }
    {
        match error.kind() {
            ErrorKind::OutOfMemory => Ending::Memory,
            _ => Ending::File { path, error },
        }
    }

    /// Makes the ending for a socket's lock that couldn't be made.
    pub fn of_lock(path: &'a str, error: io::Error) -> Ending<'a>
        ensures memory { error_kind error ≡ ErrorKind.OutOfMemory → result ≡ Ending.Memory }
        ensures lock { error_kind error ≢ ErrorKind.OutOfMemory → result ≡ Ending.Lock path.entry error }
    {
        match error.kind() {
            ErrorKind::OutOfMemory => Ending::Memory,
            _ => Ending::Lock { path, error },
        }
    }

    /// Returns the line that says why.
    pub fn line(&self, alloc: Global) -> Result<Vec<u8>, AllocError>
        ensures { IfOk result (λ line. Tells self.now line.items) }
    {
        match self {
            Ending::Memory => Vec::from_slice(alloc, NO_MEMORY),
            Ending::File { path, error } => file_line(alloc, path, error),
            Ending::Lock { path, error } => lock_line(alloc, path, error),
            Ending::LogTooLarge => Vec::from_slice(alloc, b"fault: log: too large\n"),
            Ending::Refused { rules, contexts } => refused_files_line(alloc, rules, contexts),
            Ending::Script(ScriptFault::Policy(fault)) => refused_line(alloc, fault),
            Ending::Script(ScriptFault::Opening(refusal)) => opening_line(alloc, refusal),
            Ending::Script(ScriptFault::Engine(fault)) => {
                Vec::from_slice(alloc, fault_line(*fault))
            }
            Ending::Serve(fault) => Vec::from_slice(alloc, serve_line(*fault)),
        }
    }
}

// Returns `fault: PATH: ` and the operating system's words.
fn file_line(alloc: Global, path: &str, error: &io::Error) -> Result<Vec<u8>, AllocError>
    ensures { IfOk result (λ line. spec.TellsOfFile path.now line.items) }
{
    let words = format!(in alloc; "{error}")?;
    let mut line = Vec::from_slice(alloc, b"fault: ")?;
    line.extend_from_slice(path.as_bytes())?;
    line.extend_from_slice(b": ")?;
    line.extend_from_slice(words.as_bytes())?;
    line.extend_from_slice(b"\n")?;
    Ok(line)
}

// Returns `fault: PATH.lock: ` and the operating system's words.
fn lock_line(alloc: Global, path: &str, error: &io::Error) -> Result<Vec<u8>, AllocError>
    ensures { IfOk result (λ line. spec.TellsOfFile (spec.lock_of path.now) line.items) }
{
    let name = lock_of(alloc, path)?;
    file_line(alloc, name.as_str(), error)
}

// Returns `fault: RULES CONTEXTS: policy refused`.
fn refused_files_line(alloc: Global, rules: &str, contexts: &str) -> Result<Vec<u8>, AllocError>
    ensures { IfOk result (λ line. line.items ≡ spec.refused_files_line rules.now contexts.now) }
{
    let mut line = Vec::from_slice(alloc, b"fault: ")?;
    line.extend_from_slice(rules.as_bytes())?;
    line.extend_from_slice(b" ")?;
    line.extend_from_slice(contexts.as_bytes())?;
    line.extend_from_slice(b": policy refused\n")?;
    Ok(line)
}

/// Returns the path of the lock beside the socket of this path.
pub fn lock_of(alloc: Global, path: &str) -> Result<String, AllocError>
    ensures { IfOk result (λ name. string_bytes name ≡ spec.lock_of path.now) }
{
    let mut name = String::from_str(alloc, path)?;
    name.push_str(".lock")?;
    Ok(name)
}

// Returns the line for a refused opening. Only a missing rule or a failed allocation refuses one.
fn opening_line(alloc: Global, refusal: &Refusal) -> Result<Vec<u8>, AllocError>
    ensures { IfOk result (λ line. line.items ≡ spec.opening_line refusal.now) }
{
    match refusal {
        Refusal::Denied(denial) => match denial.get() {
            Denial::Rule {
                source,
                target,
                class,
                perm,
            } => denied_line(alloc, source.bytes(), target.bytes(), *class, *perm),
            _ => Vec::from_slice(alloc, b"fault: the manager was not opened\n"),
        },
        Refusal::Memory => Vec::from_slice(alloc, NO_MEMORY),
        _ => Vec::from_slice(alloc, b"fault: the manager was not opened\n"),
    }
}

// Returns `open denied SOURCE TARGET CLASS PERM`.
fn denied_line(
    alloc: Global,
    source: &[u8],
    target: &[u8],
    class: Class,
    perm: Perms,
) -> Result<Vec<u8>, AllocError>
    ensures { IfOk result (λ line. line.items ≡ spec.denied_line source.now target.now class perm) }
{
    let mut line = Vec::from_slice(alloc, b"open denied ")?;
    push_access(&mut line, source, target, class, perm)?;
    line.extend_from_slice(b"\n")?;
    Ok(line)
}

fn fault_line(fault: Fault) -> &'static [u8]
    ensures { result.now ≡ spec.fault_line fault }
{
    match fault {
        Fault::ReadFault => b"fault: a read failed\n",
        Fault::WriteFault => b"fault: a write failed\n",
        Fault::TooManyReads => b"fault: too many reads\n",
        Fault::LineTooLong => b"fault: a line is too long\n",
        Fault::Memory => NO_MEMORY,
    }
}

fn serve_line(fault: ServeFault) -> &'static [u8]
    ensures { result.now ≡ spec.serve_line fault }
{
    match fault {
        ServeFault::AcceptFault => b"fault: a connection was not accepted\n",
        ServeFault::NoThread => b"fault: a thread was not started\n",
        ServeFault::Memory => NO_MEMORY,
    }
}
