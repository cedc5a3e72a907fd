//! The statements and lines of a policy's files that a refusal names.

ghost use Rattle.std.specs.Prelude.{◌≡◌, ◌++◌, IfOk, OnOk, codes};
ghost use Rattle.sm_values.specs.Messages.{numbered};
ghost use Rattle.sm_questions.specs.Shown as spec;

use crate::one_line::statement_at;
use sm_contexts::{ContextsFault, Lines};
use sm_policy::{PolicyFault, Violation};
use sm_rules::RulesFault;
use sm_ruletext::RuleTextFault;
use sm_types::TypesFault;
use sm_values::push_numbered;
use std::alloc::{AllocError, Global};

/// Returns the line of a number, counted from 1. Nothing if there is none.
fn line_at(text: &[u8], number: u32) -> &[u8]
    ensures { result.now ≡ spec.line_at text.now number }
{
    let mut before = number.saturating_sub(1);
    let mut lines = Lines::new(text);
    'lines: while let Some(line) = lines.take() {
        if before == 0 {
            return line;
        }
        before -= 1;
    }
    b""
}

/// Appends `FILE:LINE: TEXT`, with a line as it is.
fn push_line(path: &[u8], text: &[u8], number: u32, shown: &mut Vec<u8>) -> Result<(), AllocError>
    ensures { OnOk result (shown.new.items ≡ shown.old.items ++ spec.shown_line path.now text.now number) }
{
    push_text(path, number, line_at(text, number), shown)
}

/// Appends `FILE:LINE: TEXT`, with the statement of a line.
fn push_statement(
    alloc: Global,
    path: &[u8],
    text: &[u8],
    number: u32,
    shown: &mut Vec<u8>,
) -> Result<(), AllocError>
    ensures { OnOk result (shown.new.items ≡ shown.old.items ++ spec.shown_statement path.now text.now number) }
{
    let statement = statement_at(alloc, text, number)?;
    push_text(path, number, &statement, shown)
}

pub fn push_text(
    path: &[u8],
    number: u32,
    text: &[u8],
    shown: &mut Vec<u8>,
) -> Result<(), AllocError>
    ensures { OnOk result (shown.new.items
        ≡ shown.old.items ++ (path.now ++ numbered (codes ":") number ++ codes ": " ++ text.now ++ codes "\n")) }
{
    shown.extend_from_slice(path)?;
    push_numbered(shown, b":", u64::from(number))?;
    shown.extend_from_slice(b": ")?;
    shown.extend_from_slice(text)?;
    shown.extend_from_slice(b"\n")
}

/// Appends the statement of the line of this number, if there is one.
fn push_at(
    alloc: Global,
    path: &[u8],
    text: &[u8],
    number: Option<u32>,
    shown: &mut Vec<u8>,
) -> Result<(), AllocError>
    ensures { OnOk result (shown.new.items ≡ shown.old.items ++ spec.shown_at path.now text.now number) }
{
    match number {
        Some(number) => push_statement(alloc, path, text, number, shown),
        None => Ok(()),
    }
}

fn push_source(
    alloc: Global,
    path: &[u8],
    source: &[u8],
    fault: RuleTextFault,
    shown: &mut Vec<u8>,
) -> Result<(), AllocError>
    ensures { OnOk result (shown.new.items ≡ shown.old.items ++ spec.shown_text path.now source.now fault) }
{
    match fault {
        RuleTextFault::Syntax(n) => push_statement(alloc, path, source, n, shown),
        RuleTextFault::Unsupported(n) => push_line(path, source, n, shown),
        RuleTextFault::TooLarge | RuleTextFault::TooMany | RuleTextFault::Memory => Ok(()),
    }
}

fn types_line(fault: TypesFault) -> Option<u32>
    ensures { result ≡ spec.types_line fault }
{
    match fault {
        TypesFault::Twice(n) | TypesFault::Unknown(n) => Some(n),
        TypesFault::TooMany | TypesFault::Memory => None,
    }
}

fn rules_line(fault: RulesFault) -> Option<u32>
    ensures { result ≡ spec.rules_line fault }
{
    match fault {
        RulesFault::Unknown(n) | RulesFault::UnknownPermission(n) => Some(n),
        RulesFault::Memory => None,
    }
}

fn push_contexts(
    path: &[u8],
    text: &[u8],
    fault: ContextsFault,
    shown: &mut Vec<u8>,
) -> Result<(), AllocError>
    ensures { OnOk result (shown.new.items ≡ shown.old.items ++ spec.shown_contexts path.now text.now fault) }
{
    match fault {
        ContextsFault::BadLine(n) | ContextsFault::TwoDefaults(n) => push_line(
            path, text, n, shown,
        ),
        ContextsFault::Conflict(earlier, later) => {
            push_line(path, text, later, shown)?;
            push_line(path, text, earlier, shown)
        }
        ContextsFault::TooLarge | ContextsFault::NoDefault | ContextsFault::Memory => Ok(()),
    }
}

fn push_violation(
    alloc: Global,
    path: &[u8],
    text: &[u8],
    violation: &Violation,
    shown: &mut Vec<u8>,
) -> Result<(), AllocError>
    ensures { OnOk result (shown.new.items ≡ shown.old.items ++ spec.shown_violation path.now text.now violation.now) }
{
    push_statement(alloc, path, text, violation.never_line, shown)?;
    push_statement(alloc, path, text, violation.allow_line, shown)
}

/// Returns the statements and lines that a refusal names of these two files, each as `FILE:LINE: TEXT`, in the order in
/// which it names them.
pub fn shown_lines(
    alloc: Global,
    rules_path: &[u8],
    rules: &[u8],
    contexts_path: &[u8],
    contexts: &[u8],
    fault: &PolicyFault,
) -> Result<Vec<u8>, AllocError>
    ensures { IfOk result (λ shown. shown.items
        ≡ spec.shown_lines rules_path.now rules.now contexts_path.now contexts.now fault.now) }
{
    let mut shown = Vec::new(alloc);
    match fault {
        PolicyFault::Rules(e) => push_source(alloc, rules_path, rules, *e, &mut shown)?,
        PolicyFault::Types(e) => push_at(alloc, rules_path, rules, types_line(*e), &mut shown)?,
        PolicyFault::Access(e) => push_at(alloc, rules_path, rules, rules_line(*e), &mut shown)?,
        PolicyFault::Contexts(e) => push_contexts(contexts_path, contexts, *e, &mut shown)?,
        PolicyFault::UndeclaredLabel(n) => push_line(contexts_path, contexts, *n, &mut shown)?,
        PolicyFault::Neverallow(violation) => {
            push_violation(alloc, rules_path, rules, violation, &mut shown)?
        }
        PolicyFault::Memory => {}
    }
    Ok(shown)
}
