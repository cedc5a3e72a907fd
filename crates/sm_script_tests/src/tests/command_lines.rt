//! Command lines, and the line for a file that can't be read.

use clap::error::ErrorKind;
use sm_command::{
    AccessWords, AdminRequest, Administration, Ending, FilterWords, Invocation, Mode, NameWords,
    NewFiles, Question, RuleFilterWords, RuleWords, Sockets, TargetWord, invocation_of, words_of,
};
use std::alloc::{AllocError, Global};
use std::env::{Env, FillError};
use std::io;
use std::process::Abort;
use std::test::Fail;

fn words(alloc: Global, line: &str) -> Result<Vec<String>, AllocError> {
    let mut words = Vec::new(alloc);
    for word in line.split(' ') {
        words.push(String::from_str(alloc, word)?)?;
    }
    Ok(words)
}

// The options of a server whose command line gives only its two sockets.
const SOCKETS: Sockets = Sockets {
    clients: "s",
    admins: "a",
    status: None,
    workers: 16,
    mode: None,
    seal_at: Some(524_288),
    seal_bytes: Some(67_108_864),
    audit: false,
    audit_rate: 0,
    take_wait: 0,
};

const OTHER_FILES: NewFiles = NewFiles {
    rules: "s",
    contexts: "d",
};

const ANY_ACCESS: FilterWords = FilterWords {
    source: None,
    target: None,
    class: None,
    perm: None,
};

// Command lines with their modes, and the slots of their journals.
const ACCEPTED: &[(&str, Mode, u32)] = &[
    ("svcmgr run r c", Mode::Run, 1_048_576),
    ("svcmgr run --journal 2 r c", Mode::Run, 2),
    ("svcmgr run r c --journal 1048576", Mode::Run, 1_048_576),
    (
        "svcmgr check r c",
        Mode::Check {
            all: false,
            show: false,
        },
        1_048_576,
    ),
    (
        "svcmgr check --show r c",
        Mode::Check {
            all: false,
            show: true,
        },
        1_048_576,
    ),
    (
        "svcmgr check r --all c",
        Mode::Check {
            all: true,
            show: false,
        },
        1_048_576,
    ),
    (
        "svcmgr serve --socket s --admin a r c",
        Mode::Serve(SOCKETS),
        1_048_576,
    ),
    (
        "svcmgr serve --workers 64 --journal 4 --seal-at 2 --admin a --socket s --audit --mode 0660 --audit-rate 5 --take-wait 60000 r c",
        Mode::Serve(Sockets {
            workers: 64,
            mode: Some(0o660),
            seal_at: Some(2),
            audit: true,
            audit_rate: 5,
            take_wait: 60_000,
            ..SOCKETS
        }),
        4,
    ),
    (
        "svcmgr serve --journal 100 --socket s --admin a r c",
        Mode::Serve(Sockets {
            seal_at: None,
            seal_bytes: None,
            ..SOCKETS
        }),
        100,
    ),
    (
        "svcmgr serve --seal-bytes 4096 --socket s --admin a --journal 100 r c",
        Mode::Serve(Sockets {
            seal_at: None,
            seal_bytes: Some(4_096),
            ..SOCKETS
        }),
        100,
    ),
    (
        "svcmgr serve --status p --socket s --admin a r c",
        Mode::Serve(Sockets {
            status: Some("p"),
            ..SOCKETS
        }),
        1_048_576,
    ),
    (
        "svcmgr serve --seal-bytes 5000 --socket s --admin a r c",
        Mode::Serve(Sockets {
            seal_bytes: Some(5_000),
            ..SOCKETS
        }),
        1_048_576,
    ),
    (
        "svcmgr label r c activity",
        Mode::Ask(Question::Label("activity")),
        1_048_576,
    ),
    (
        "svcmgr explain r c app svc binder call",
        Mode::Ask(Question::Explain(AccessWords {
            source: "app",
            target: TargetWord::Type("svc"),
            class: "binder",
            perm: "call",
        })),
        1_048_576,
    ),
    (
        "svcmgr explain r c app activity service_manager find --name",
        Mode::Ask(Question::Explain(AccessWords {
            source: "app",
            target: TargetWord::Name("activity"),
            class: "service_manager",
            perm: "find",
        })),
        1_048_576,
    ),
    (
        "svcmgr access r c",
        Mode::Ask(Question::Access(ANY_ACCESS)),
        1_048_576,
    ),
    (
        "svcmgr access --source app --target svc --class binder --perm call r c",
        Mode::Ask(Question::Access(FilterWords {
            source: Some("app"),
            target: Some(TargetWord::Type("svc")),
            class: Some("binder"),
            perm: Some("call"),
        })),
        1_048_576,
    ),
    (
        "svcmgr access r c --name activity",
        Mode::Ask(Question::Access(FilterWords {
            target: Some(TargetWord::Name("activity")),
            ..ANY_ACCESS
        })),
        1_048_576,
    ),
    (
        "svcmgr rules r c",
        Mode::Rules(RuleFilterWords {
            kind: None,
            accesses: ANY_ACCESS,
        }),
        1_048_576,
    ),
    (
        "svcmgr rules --kind neverallow --source app r --name activity c --perm add",
        Mode::Rules(RuleFilterWords {
            kind: Some("neverallow"),
            accesses: FilterWords {
                source: Some("app"),
                target: Some(TargetWord::Name("activity")),
                class: None,
                perm: Some("add"),
            },
        }),
        1_048_576,
    ),
    ("svcmgr suggest r c", Mode::Suggest, 1_048_576),
    ("svcmgr unused r c", Mode::Unused, 1_048_576),
    (
        "svcmgr names --source app r c",
        Mode::Ask(Question::Names(NameWords {
            source: "app",
            perm: "find",
        })),
        1_048_576,
    ),
    (
        "svcmgr names r --perm add c --source app",
        Mode::Ask(Question::Names(NameWords {
            source: "app",
            perm: "add",
        })),
        1_048_576,
    ),
    (
        "svcmgr diff r c s d",
        Mode::Ask(Question::Diff {
            files: OTHER_FILES,
            by_rules: false,
        }),
        1_048_576,
    ),
    (
        "svcmgr diff r c s --rules d",
        Mode::Ask(Question::Diff {
            files: OTHER_FILES,
            by_rules: true,
        }),
        1_048_576,
    ),
];

fn accepts(
    rt: &impl Abort,
    alloc: Global,
    line: &str,
    mode: Mode,
    places: u32,
) -> Result<(), Fail> {
    let words = words(alloc, line)?;
    let found = match invocation_of(alloc, &words)? {
        Invocation::Policy(options) => Some((
            options.mode,
            (options.places.entries(), options.rules, options.contexts),
        )),
        _ => None,
    };
    let (found, rest) = found.expect(rt, line);
    assert!(rt; found == mode);
    assert_eq!(rt; rest, (places, "r", "c"));
    Ok(())
}

#[test]
fn accepted_command_lines(rt: HostRuntime) -> Result<(), Fail> {
    for (line, mode, places) in ACCEPTED {
        accepts(&rt, rt.alloc(), line, *mode, *places)?;
    }
    Ok(())
}

// Requests to a server, with the socket that they name.
const REQUESTS: &[(&str, Option<&str>, AdminRequest)] = &[
    (
        "svcmgr admin --admin a version",
        Some("a"),
        AdminRequest::Version,
    ),
    ("svcmgr admin version", None, AdminRequest::Version),
    ("svcmgr admin denials", None, AdminRequest::Denials),
    ("svcmgr admin --admin a seal", Some("a"), AdminRequest::Seal),
    (
        "svcmgr admin reload r c",
        None,
        AdminRequest::Reload(NewFiles {
            rules: "r",
            contexts: "c",
        }),
    ),
    (
        "svcmgr admin explain app svc binder call",
        None,
        AdminRequest::Explain(RuleWords {
            source: "app",
            target: "svc",
            class: "binder",
            perm: "call",
        }),
    ),
];

fn asks(rt: &impl Abort, alloc: Global, line: &str, wanted: &Administration) -> Result<(), Fail> {
    let words = words(alloc, line)?;
    let asked = match invocation_of(alloc, &words)? {
        Invocation::Administer(administration) => Some(administration),
        _ => None,
    };
    assert!(rt; asked.expect(rt, line) == *wanted);
    Ok(())
}

#[test]
fn requests_to_a_server(rt: HostRuntime) -> Result<(), Fail> {
    for (line, socket, request) in REQUESTS {
        let wanted = Administration {
            socket: *socket,
            request: *request,
        };
        asks(&rt, rt.alloc(), line, &wanted)?;
    }
    Ok(())
}

// Command lines that ask for the state, with the socket that they name.
const STATES: &[(&str, Option<&str>)] = &[
    ("svcmgr status", None),
    ("svcmgr status --status p", Some("p")),
];

#[test]
fn states_of_a_server(rt: HostRuntime) -> Result<(), Fail> {
    for (line, socket) in STATES {
        let words = words(rt.alloc(), line)?;
        let asked = match invocation_of(rt.alloc(), &words)? {
            Invocation::Status(asked) => Some(asked),
            _ => None,
        };
        assert!(rt; asked.expect(&rt, line) == *socket);
    }
    Ok(())
}

// Command lines that are refused, by the kind of the error.
const REFUSED: &[(ErrorKind, &[&str])] = &[
    (ErrorKind::MissingSubcommand, &["svcmgr", "svcmgr admin"]),
    (
        ErrorKind::InvalidSubcommand,
        &["svcmgr walk r c", "svcmgr admin --admin a stop"],
    ),
    (
        ErrorKind::MissingRequiredArgument,
        &[
            "svcmgr run r",
            "svcmgr serve r c",
            "svcmgr serve --socket s r c",
            "svcmgr label r c",
            "svcmgr explain r c app svc binder",
            "svcmgr diff r c s",
            "svcmgr rules --kind allow r",
            "svcmgr suggest r",
            "svcmgr unused r",
            "svcmgr check --show",
            "svcmgr admin reload r",
            "svcmgr admin explain app svc binder",
        ],
    ),
    (
        ErrorKind::UnknownArgument,
        &[
            "svcmgr run r c s",
            "svcmgr check --journal 2 r c",
            "svcmgr status r",
            "svcmgr run --workers 2 r c",
            "svcmgr access --kind allow r c",
            "svcmgr suggest r c log",
        ],
    ),
    (
        ErrorKind::ValueValidation,
        &[
            "svcmgr run --journal 1 r c",
            "svcmgr run --journal 1048577 r c",
            "svcmgr serve --workers 0 --socket s --admin a r c",
            "svcmgr serve --workers 65 --socket s --admin a r c",
            "svcmgr serve --socket  --admin a r c",
            "svcmgr serve --socket s --admin  r c",
            "svcmgr serve --socket s --admin s r c",
            "svcmgr serve --status  --socket s --admin a r c",
            "svcmgr serve --status s --socket s --admin a r c",
            "svcmgr serve --status a --socket s --admin a r c",
            "svcmgr status --status ",
            "svcmgr serve --seal-at 1 --socket s --admin a r c",
            "svcmgr serve --journal 9 --seal-at 5 --socket s --admin a r c",
            "svcmgr serve --seal-at 524289 --socket s --admin a r c",
            "svcmgr serve --seal-bytes 4095 --socket s --admin a r c",
            "svcmgr serve --seal-bytes 04096 --socket s --admin a r c",
            "svcmgr serve --mode 668 --socket s --admin a r c",
            "svcmgr serve --mode 1777 --socket s --admin a r c",
            "svcmgr serve --mode  --socket s --admin a r c",
            "svcmgr run --journal +4 r c",
            "svcmgr run --journal 02 r c",
            "svcmgr serve --journal 0100 --socket s --admin a r c",
            "svcmgr serve --seal-at +50 --socket s --admin a r c",
            "svcmgr serve --workers 016 --socket s --admin a r c",
            "svcmgr serve --audit-rate 5 --socket s --admin a r c",
            "svcmgr serve --audit --audit-rate 1000001 --socket s --admin a r c",
            "svcmgr serve --audit --audit-rate 00 --socket s --admin a r c",
            "svcmgr serve --take-wait 60001 --socket s --admin a r c",
            "svcmgr serve --take-wait +1 --socket s --admin a r c",
            "svcmgr admin --admin  version",
            "svcmgr admin explain app svc binder call\nseal",
        ],
    ),
    (
        ErrorKind::ArgumentConflict,
        &[
            "svcmgr access --target svc --name activity r c",
            "svcmgr rules --target svc --name activity r c",
        ],
    ),
    (ErrorKind::DisplayVersion, &["svcmgr --version"]),
    (ErrorKind::DisplayHelp, &["svcmgr --help"]),
];

fn refusal(rt: &impl Abort, alloc: Global, line: &str) -> ErrorKind {
    let words = words(alloc, line).ok().expect(rt, "memory");
    invocation_of(alloc, &words).err().expect(rt, line).kind()
}

#[test]
fn other_command_lines(rt: HostRuntime) {
    for (kind, lines) in REFUSED {
        for line in *lines {
            assert!(rt; refusal(&rt, rt.alloc(), line) == *kind);
        }
    }
}

/// A command line whose one word isn't UTF-8.
#[derive(Drop)]
struct NoText;

impl Env for NoText {
    fn arg(&self, i: usize, buf: &mut [u8]) -> Result<usize, FillError> {
        if i > 0 {
            return Err(FillError::NotPresent);
        }
        match buf {
            [] => Err(FillError::TooLong),
            [first, ..] => {
                *first = 0xff;
                Ok(1)
            }
        }
    }

    fn var(&self, _name: &str, _buf: &mut [u8]) -> Result<usize, FillError> {
        Err(FillError::NotPresent)
    }

    fn var_at(&self, _i: usize, _buf: &mut [u8]) -> Result<usize, FillError> {
        Err(FillError::NotPresent)
    }
}

#[test]
fn a_word_that_is_no_text(rt: HostRuntime) {
    let error = words_of(&(NoText, rt.alloc()))
        .err()
        .expect(&rt, "a refusal");
    assert!(rt; error.kind() == ErrorKind::ValueValidation);
}

fn has_line(rt: &impl Abort, alloc: Global, error: io::Error, wanted: &[u8]) {
    let line = Ending::of_file("a.rules", error).line(alloc);
    assert_eq!(rt; line.ok().expect(rt, "memory").as_slice(), wanted);
}

#[test]
fn a_file_fault_names_the_file(rt: HostRuntime) {
    let wanted = b"fault: a.rules: No such file or directory (os error 2)\n";
    has_line(&rt, rt.alloc(), io::Error::from_raw_os_error(2), wanted);
    let error = io::Error::from(io::ErrorKind::OutOfMemory);
    has_line(&rt, rt.alloc(), error, b"fault: no memory\n");
}
