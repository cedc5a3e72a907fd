//! Statements of a policy source, as they are quoted.

ghost use Rattle.std.specs.Prelude.{◌≡◌, ◌++◌, IfOk, OnOk};
ghost use Rattle.sm_questions.specs.Covering.{AreQuotes};
ghost use Rattle.sm_questions.specs.Shown.{shown_statement};

use crate::line_starts::line_starts;
use crate::showing_all::push_statement;
use sm_values::drop_fields;
use std::alloc::{AllocError, Global};

/// The statements of a policy source, each as `FILE:LINE: STATEMENT`.
///
/// The last one that was found is kept: if a line begins many rules, it is read once.
pub struct Quotes<'a> {
    path: &'a [u8],
    text: &'a [u8],
    /// The index of the first byte of each line.
    starts: Vec<usize>,
    /// The line whose statement is kept.
    number: Option<u32>,
    line: Vec<u8>,
}

impl<'a> Drop for Quotes<'a> {
    fn drop(self) {
        drop_fields!(self: path, text, starts, number, line);
    }
}

impl<'a> Quotes<'a> {
    /// Returns the statements of the file of this path and text.
    pub fn new(alloc: Global, path: &'a [u8], text: &'a [u8]) -> Result<Quotes<'a>, AllocError>
        ensures { IfOk result (λ quotes. AreQuotes path.now text.now quotes) }
    {
        let starts = line_starts(alloc, text)?;
        Ok(Quotes {
            path,
            text,
            starts,
            number: None,
            line: Vec::new(alloc),
        })
    }

    /// Finds the statement of a line.
    fn find(&mut self, alloc: Global, number: u32) -> Result<(), AllocError>
        requires { AreQuotes self.old.path.now self.old.text.now self.old }
        ensures quotes { OnOk result (AreQuotes self.old.path.now self.old.text.now self.new) }
        ensures line { OnOk result (self.new.line.items ≡ shown_statement self.old.path.now self.old.text.now number) }
    {
        if self.number == Some(number) {
            return Ok(());
        }
        self.number = None;
        self.line.clear();
        push_statement(
            alloc,
            self.path,
            self.text,
            &self.starts,
            number,
            &mut self.line,
        )?;
        self.number = Some(number);
        Ok(())
    }

    /// Appends the statement of a line.
    pub fn push(&mut self, alloc: Global, number: u32, held: &mut Vec<u8>) -> Result<(), AllocError>
        requires { AreQuotes self.old.path.now self.old.text.now self.old }
        ensures quotes { OnOk result (AreQuotes self.old.path.now self.old.text.now self.new) }
        ensures line { OnOk result (held.new.items
            ≡ held.old.items ++ shown_statement self.old.path.now self.old.text.now number) }
    {
        self.find(alloc, number)?;
        held.extend_from_slice(&self.line)
    }
}
