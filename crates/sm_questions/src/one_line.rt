//! A statement of a policy source on one line.

ghost use Rattle.std.specs.Prelude.{◌≡◌, ◌≤◌, ◌-◌, true, IfOk, OnOk, length, drop};
ghost use Rattle.sm_contexts.specs.Lines.{lines};
ghost use Rattle.sm_questions.specs.OneLine as spec;

use sm_contexts::Lines;
use sm_values::is_blank;
use std::alloc::{AllocError, Global};

/// The most bytes of a statement that are shown.
const MOST: usize = 4_096;

/// Returns the number of bytes of a line before the first one that is `end`, or of all.
fn len_before(end: u8, line: &[u8]) -> usize
    ensures value { result ≡ spec.len_before end line.now }
    ensures within { result ≤ length line.now }
{
    line.iter().take_while(|b| **b != end).count()
}

/// Returns a line without its comment.
fn code_of(line: &[u8]) -> &[u8]
    ensures { result.now ≡ spec.code line.now }
{
    let (code, _) = line.split_at(len_before(b'#', line));
    code
}

/// Returns a line through its first semicolon, or all of it.
fn through_semicolon(line: &[u8]) -> &[u8]
    ensures { result.now ≡ spec.through_semicolon line.now }
{
    let len = len_before(b';', line);
    if len == line.len() {
        return line;
    }
    let (front, _) = line.split_at(len + 1);
    front
}

/// Appends a byte, behind a space if one is owed and something is before it.
fn push_byte(owes: bool, byte: u8, text: &mut Vec<u8>) -> Result<(), AllocError>
    ensures { OnOk result (text.new.items ≡ spec.with_byte owes text.old.items byte) }
{
    if owes && !text.is_empty() {
        text.push(b' ')?;
    }
    text.push(byte)?;
    Ok(())
}

/// Appends the words of a line, with one space between them.
fn push_words(line: &[u8], text: &mut Vec<u8>) -> Result<(), AllocError>
    ensures { OnOk result (text.new.items ≡ spec.with_words true text.old.items line.now) }
{
    let mut owes = true;
    for byte in line {
        if is_blank(*byte) {
            owes = true;
        } else {
            push_byte(owes, *byte, text)?;
            owes = false;
        }
    }
    Ok(())
}

/// Appends further lines, until the text ends with a semicolon.
fn push_lines(mut further: Lines, text: &mut Vec<u8>) -> Result<(), AllocError>
    ensures { OnOk result (text.new.items ≡ spec.with_lines text.old.items further.entry) }
{
    'lines: while let Some(line) = further.take() {
        if text.ends_with(b";") {
            return Ok(());
        }
        push_words(through_semicolon(code_of(line)), text)?;
    }
    Ok(())
}

/// Returns the lines of a text from that of a number on, counted from 1.
fn lines_from(text: &[u8], number: u32) -> Lines<'_>
    ensures { result ≡ drop (number - 1) (lines text.now) }
{
    let mut before = number.saturating_sub(1);
    let mut lines = Lines::new(text);
    'lines: while before > 0 {
        if lines.take().is_none() {
            return lines;
        }
        before -= 1;
    }
    lines
}

/// Returns the statement of the first of these lines on one line, or its first 4,096 bytes.
pub fn first_statement(alloc: Global, mut lines: Lines) -> Result<Vec<u8>, AllocError>
    ensures { IfOk result (λ statement. statement.items ≡ spec.shown_statement lines.entry) }
{
    let mut statement = Vec::new(alloc);
    if let Some(line) = lines.take() {
        push_words(code_of(line), &mut statement)?;
        push_lines(lines, &mut statement)?;
    }
    statement.truncate(MOST);
    Ok(statement)
}

/// Returns the statement of a line on one line, or its first 4,096 bytes.
pub fn statement_at(alloc: Global, text: &[u8], number: u32) -> Result<Vec<u8>, AllocError>
    ensures { IfOk result (λ statement. statement.items ≡ spec.statement_at text.now number) }
{
    first_statement(alloc, lines_from(text, number))
}
