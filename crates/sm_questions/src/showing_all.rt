//! The statements of a policy source that its violations name.

ghost use Rattle.std.specs.Prelude.{◌≡◌, ◌++◌, ◌-◌, IfOk, OnOk, drop};
ghost use Rattle.sm_contexts.specs.Lines.{lines};
ghost use Rattle.std.specs.List.{flat_map};
ghost use Rattle.sm_violations.specs.Listing.{violations_in};
ghost use Rattle.sm_questions.specs.AllShown as spec;
ghost use Rattle.sm_questions.specs.LineStarts.{AreStarts};
ghost use Rattle.sm_questions.specs.Shown.{shown_statement};

use crate::line_starts::line_starts;
use crate::one_line::first_statement;
use crate::showing::{push_text, shown_lines};
use indexmap::IndexSet;
use sm_contexts::Lines;
use sm_policy::PolicyFault;
use sm_violations::Violations;
use std::alloc::{AllocError, Global};

/// Adds the numbers of the lines that all violations name which aren't taken yet.
fn add_numbers(
    alloc: Global,
    violations: &mut Violations,
    numbers: &mut IndexSet<u32>,
) -> Result<(), AllocError>
    ensures { OnOk result (numbers.new.keys ≡ spec.with_numbers numbers.old.keys violations.old) }
{
    'violations: while let Some(violation) = violations.take(alloc)? {
        numbers.insert(violation.never_line)?;
        numbers.insert(violation.allow_line)?;
    }
    Ok(())
}

/// Returns the lines of a text from that of a number on, counted from 1.
fn lines_at<'a>(text: &'a [u8], starts: &[usize], number: u32) -> Lines<'a>
    requires { AreStarts text.now starts.now }
    ensures { result ≡ drop (number - 1) (lines text.now) }
{
    let place = number.saturating_sub(1) as usize;
    if place < starts.len() {
        Lines::new(&text[starts[place]..])
    } else {
        Lines::new(b"")
    }
}

/// Appends the statement of the line of a number.
pub fn push_statement(
    alloc: Global,
    path: &[u8],
    text: &[u8],
    starts: &[usize],
    number: u32,
    shown: &mut Vec<u8>,
) -> Result<(), AllocError>
    requires { AreStarts text.now starts.now }
    ensures { OnOk result (shown.new.items ≡ shown.old.items ++ shown_statement path.now text.now number) }
{
    let statement = first_statement(alloc, lines_at(text, starts, number))?;
    push_text(path, number, &statement, shown)
}

/// Returns the statements of the lines of these numbers.
fn shown_statements(
    alloc: Global,
    path: &[u8],
    text: &[u8],
    numbers: &IndexSet<u32>,
) -> Result<Vec<u8>, AllocError>
    ensures { IfOk result (λ shown. shown.items ≡ flat_map (shown_statement path.now text.now) numbers.now.keys) }
{
    let starts = line_starts(alloc, text)?;
    let mut shown = Vec::new(alloc);
    for i in 0..numbers.len() {
        match numbers.get_index(i) {
            Some(number) => push_statement(alloc, path, text, &starts, *number, &mut shown)?,
            None => {}
        }
    }
    Ok(shown)
}

/// Returns the statements that the violations in a policy source name, each once.
fn shown_violations(alloc: Global, path: &[u8], text: &[u8]) -> Result<Vec<u8>, AllocError>
    ensures { IfOk result (λ shown. shown.items ≡ spec.shown_violations path.now text.now (violations_in text.now)) }
{
    let mut violations = match Violations::read(alloc, text) {
        Ok(violations) => violations,
        Err(PolicyFault::Memory) => return Err(AllocError),
        Err(_) => return Ok(Vec::new(alloc)),
    };
    let mut numbers = IndexSet::new(alloc);
    add_numbers(alloc, &mut violations, &mut numbers)?;
    shown_statements(alloc, path, text, &numbers)
}

/// Returns the statements and lines that a refusal names of these two files, as [`shown_lines`](crate::shown_lines)
/// does; if a neverallow rule is broken, the statements of all violations, each once, in the order in which they come
/// first.
pub fn all_shown_lines(
    alloc: Global,
    rules_path: &[u8],
    rules: &[u8],
    contexts_path: &[u8],
    contexts: &[u8],
    fault: &PolicyFault,
) -> Result<Vec<u8>, AllocError>
    ensures { IfOk result (λ shown. shown.items
        ≡ spec.all_shown_lines rules_path.now rules.now contexts_path.now contexts.now fault.now) }
{
    match fault {
        PolicyFault::Neverallow(_) => shown_violations(alloc, rules_path, rules),
        _ => shown_lines(alloc, rules_path, rules, contexts_path, contexts, fault),
    }
}
