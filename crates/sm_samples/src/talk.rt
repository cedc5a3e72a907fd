//! Request lines and the lines that answer them.

ghost use Rattle.std.specs.Prelude.{◌≡◌, ◌++◌, [], OnOk};
ghost use Rattle.std.specs.List.{flat_map};
ghost use Rattle.sm_samples.specs.Talks.{line_of, reload_text};

use sm_values::push_numbered;
use std::alloc::{AllocError, Global};

/// Request lines, each with the line that answers it.
pub type Talk = &'static [(&'static str, &'static str)];

/// What is said at a connection or in a script, and what it is to be answered.
#[derive(Drop)]
pub struct Said {
    pub script: Vec<u8>,
    pub wanted: Vec<u8>,
}

impl Said {
    /// Nothing yet.
    pub fn new(alloc: Global) -> Said
        ensures { (result.script.items ≡ []) × (result.wanted.items ≡ []) }
    {
        Said {
            script: Vec::new(alloc),
            wanted: Vec::new(alloc),
        }
    }

    /// Appends these lines. On error a part may have been appended.
    pub fn talk(&mut self, talk: Talk) -> Result<(), AllocError>
        ensures script { OnOk result
            (self.new.script.items ≡ self.old.script.items ++ flat_map (λ l. line_of l.0.now) talk.now) }
        ensures wanted { OnOk result
            (self.new.wanted.items ≡ self.old.wanted.items ++ flat_map (λ l. line_of l.1.now) talk.now) }
    {
        for (line, answer) in talk {
            push_line(&mut self.script, line)?;
            push_line(&mut self.wanted, answer)?;
        }
        Ok(())
    }

    /// Appends a `reload` line with its files, and the line that answers it, with its newline. On error a part may have
    /// been appended.
    pub fn reload(
        &mut self,
        expected: u64,
        rules: &[u8],
        contexts: &[u8],
        answer: &[u8],
    ) -> Result<(), AllocError>
        ensures script { OnOk result
            (self.new.script.items ≡ self.old.script.items ++ reload_text expected rules.now contexts.now) }
        ensures wanted { OnOk result (self.new.wanted.items ≡ self.old.wanted.items ++ answer.now) }
    {
        push_reload(&mut self.script, expected, rules, contexts)?;
        self.wanted.extend_from_slice(answer)
    }
}

/// Appends a `reload` line with its files. On error a part may have been appended.
#[tactic(auto, unfolding(crate::specs::Talks::reload_text))]
pub fn push_reload(
    script: &mut Vec<u8>,
    expected: u64,
    rules: &[u8],
    contexts: &[u8],
) -> Result<(), AllocError>
    ensures { OnOk result (script.new.items ≡ script.old.items ++ reload_text expected rules.now contexts.now) }
{
    push_numbered(script, b"reload ", expected)?;
    push_numbered(script, b" ", rules.len() as u64)?;
    push_numbered(script, b" ", contexts.len() as u64)?;
    script.extend_from_slice(b"\n")?;
    script.extend_from_slice(rules)?;
    script.extend_from_slice(contexts)
}

#[tactic(auto, unfolding(crate::specs::Talks::line_of))]
fn push_line(out: &mut Vec<u8>, line: &str) -> Result<(), AllocError>
    ensures { OnOk result (out.new.items ≡ out.old.items ++ line_of line.now) }
{
    out.extend_from_slice(line.as_bytes())?;
    out.extend_from_slice(b"\n")
}
