//! Texts compared line by line: a failure shows the first line that differs.

use std::process::Abort;
use std::str;

/// What a `reload` line begins with. It announces two files by their sizes, which come after it.
const RELOAD: &[u8] = b"reload ";

/// What the line of an audit record begins with.
const RECORD: &[u8] = b"journal=";

const NOTHING: &[u8] = b"";

fn text(bytes: &[u8]) -> &str {
    str::from_utf8(bytes).unwrap_or("(not UTF-8)")
}

/// The number in a field. 0 if there is none.
fn number(field: Option<&[u8]>) -> usize {
    let digits = text(field.unwrap_or(NOTHING));
    digits.parse::<usize>().unwrap_or(0)
}

/// The size of the files that a request line announces.
fn size_of_files(line: &[u8]) -> usize {
    let Some(fields) = line.strip_prefix(RELOAD) else {
        return 0;
    };
    let mut fields = fields.split(|byte| *byte == b' ');
    let _expected = fields.next();
    let rules = number(fields.next());
    rules.saturating_add(number(fields.next()))
}

/// The first request line of a script, and the script after it and its files.
fn request(script: &[u8]) -> (&[u8], &[u8]) {
    let mut lines = script.split(|byte| *byte == b'\n');
    let line = lines.next().unwrap_or(NOTHING);
    let size = line.len().saturating_add(1);
    let rest = script.get(size.saturating_add(size_of_files(line))..);
    (line, rest.unwrap_or(NOTHING))
}

/// Asserts that these are the wanted lines, which answer a script. Each of its requests is answered by one line, and
/// `denials` also by a line for each record. For lines that answer nothing the script is empty.
pub fn same_lines(rt: &impl Abort, script: &[u8], came: &[u8], wanted: &[u8]) {
    if came == wanted {
        return;
    }
    let (mut asked, mut rest) = (NOTHING, script);
    let mut others = came.split(|byte| *byte == b'\n');
    for (n, line) in wanted.split(|byte| *byte == b'\n').enumerate() {
        if !line.starts_with(RECORD) {
            (asked, rest) = request(rest);
        }
        let other = others.next().unwrap_or(b"(nothing)");
        assert!(rt;
            other == line,
            "line {}\n     asked: {}\n      came: {}\n    wanted: {}",
            n.saturating_add(1),
            text(asked),
            text(other),
            text(line)
        );
    }
    panic!(rt; "more lines than wanted");
}
