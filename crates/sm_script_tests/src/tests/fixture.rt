//! A policy, and scripts that run under it.

use super::lines::same_lines;
use super::parts::{Parts, said_of};
use sm_engine::{Counted, Fault};
use sm_samples::{DEVICE_LABELS, DEVICE_RULES, ONE_LABEL, PLAIN_RULES, RULE_FOR_DEFAULTS};
use sm_script::{ScriptFault, run_script};
use sm_values::Places;
use std::alloc::Global;
use std::io::{Read, Write};
use std::process::Abort;

/// The files of a policy.
#[derive(Clone, Copy)]
pub struct Files {
    pub rules: &'static [u8],
    /// The line of the rules that is left out, with its newline; empty if all are kept.
    pub without: &'static [u8],
    /// Appended to the rules.
    pub more: &'static [u8],
    pub contexts: &'static [u8],
}

/// A device's policy.
pub const DEVICE: Files = Files {
    rules: DEVICE_RULES,
    without: b"",
    more: b"",
    contexts: DEVICE_LABELS,
};

/// A device's policy in which system_server may add and find names without a label of their own.
pub const DEVICE_WITH_DEFAULTS: Files = Files {
    more: RULE_FOR_DEFAULTS,
    ..DEVICE
};

/// A policy of single names.
pub const PLAIN: Files = Files {
    rules: PLAIN_RULES,
    without: b"",
    more: b"",
    contexts: ONE_LABEL,
};

impl Files {
    /// Returns the policy source. Asserts that the line to leave out is one of the rules.
    pub fn source(self, rt: &impl Abort, alloc: Global) -> Vec<u8> {
        let mut source = Vec::new(alloc);
        for line in self.rules.split_inclusive(|byte| *byte == b'\n') {
            if line != self.without {
                source.extend_from_slice(line).ok().expect(rt, "memory");
            }
        }
        let kept = source.len().saturating_add(self.without.len());
        assert_eq!(rt; kept, self.rules.len());
        source
            .extend_from_slice(self.more)
            .ok()
            .expect(rt, "memory");
        source
    }
}

/// The slots of the longest journal.
pub const LONGEST: u32 = 1_048_576;

/// The files of a policy, the slots of a journal, and the most reads of a run.
#[derive(Clone, Copy)]
pub struct Fixture {
    pub files: Files,
    pub places: u32,
    pub reads: u32,
}

/// How a run ended, and the reads and the writes that failed.
#[derive(Clone, Copy)]
pub struct Ran {
    pub ending: Result<(), Fault>,
    pub failures: [u64; 3],
}

impl Fixture {
    /// A policy of these files, with the longest journal.
    pub fn new(files: Files) -> Fixture {
        Fixture {
            files,
            places: LONGEST,
            reads: 1000,
        }
    }

    /// A device's policy.
    pub fn device() -> Fixture {
        Fixture::new(DEVICE)
    }

    /// The same with a journal of this many slots.
    pub fn with_places(self, places: u32) -> Fixture {
        Fixture {
            files: self.files,
            places,
            reads: self.reads,
        }
    }

    /// The same with at most this many reads.
    pub fn with_reads(self, reads: u32) -> Fixture {
        Fixture {
            files: self.files,
            places: self.places,
            reads,
        }
    }

    /// Runs the script that the reader gives. The policy has to be one that is accepted and may be opened.
    pub fn run<R: Read, W: Write, A: Write>(
        self,
        rt: &impl Abort,
        alloc: Global,
        reader: &mut R,
        writer: &mut W,
        audit: &mut A,
    ) -> Ran {
        let mut reader = Counted::new(reader);
        let mut writer = Counted::new(writer);
        let mut audit = Counted::new(audit);
        let (ending, _) = run_script(
            alloc,
            &self.files.source(rt, alloc),
            self.files.contexts,
            Places::new(self.places).expect(rt, "places"),
            self.reads,
            &mut reader,
            &mut writer,
            &mut audit,
        );
        Ran {
            ending: engine_ending(rt, &ending),
            failures: [reader.failures(), writer.failures(), audit.failures()],
        }
    }

    /// Runs a script, checks that it has exactly these replies, and returns its audit lines and how the run ended.
    pub fn ending(
        self,
        rt: &impl Abort,
        alloc: Global,
        mut script: &[u8],
        wanted: &[u8],
    ) -> (Vec<u8>, Result<(), Fault>) {
        let asked = script;
        let mut replies = Vec::new(alloc);
        let mut lines = Vec::new(alloc);
        let ran = self.run(rt, alloc, &mut script, &mut replies, &mut lines);
        same_lines(rt, asked, &replies, wanted);
        (lines, ran.ending)
    }

    /// Runs a script to its end, checks its replies, and returns its audit lines.
    pub fn replies(self, rt: &impl Abort, alloc: Global, script: &[u8], wanted: &[u8]) -> Vec<u8> {
        let (lines, ending) = self.ending(rt, alloc, script, wanted);
        assert!(rt; ending == Ok(()));
        lines
    }
}

fn engine_ending(rt: &impl Abort, ending: &Result<(), ScriptFault>) -> Result<(), Fault> {
    match ending {
        Ok(()) => Ok(()),
        Err(ScriptFault::Engine(fault)) => Err(*fault),
        Err(_) => None.expect(rt, "a policy that is accepted and opened"),
    }
}

/// Runs each script under this policy to its end, and checks its answers.
pub fn hold(rt: &impl Abort, alloc: Global, policy: Fixture, scripts: &[Parts]) {
    for parts in scripts {
        let said = said_of(rt, alloc, parts);
        policy.replies(rt, alloc, &said.script, &said.wanted);
    }
}
