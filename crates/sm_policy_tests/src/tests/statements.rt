//! The reader of policy sources: which statements it gives, and which fault it names.

use sm_ruletext::*;
use sm_samples::DEVICE_RULES;
use std::alloc::{AllocError, Global};
use std::process::Abort;

/// The statements of a text without faults.
pub fn accepted(rt: &impl Abort, alloc: Global, text: &[u8]) -> Vec<Statement> {
    read(alloc, text).ok().expect(rt, "statements")
}

/// Adds a piece `times` times.
pub fn repeated(text: &mut Vec<u8>, piece: &[u8], times: u32) -> Result<(), AllocError> {
    for _ in 0..times {
        text.extend_from_slice(piece)?;
    }
    Ok(())
}

#[test]
fn whole_text(rt: HostRuntime) {
    let statements = accepted(&rt, rt.alloc(), DEVICE_RULES);
    let mut line = 0;
    let mut rules = 0u32;
    for statement in &statements {
        assert!(rt; statement.line > line);
        line = statement.line;
        rules = rules.saturating_add(statement.what.is_rule() as u32);
    }
    assert_eq!(rt; (statements.len(), line, rules), (16, 16, 8));
    // Without the last newline, and without the last semicolon.
    for (end, wanted) in [(685, Ok(16)), (684, Err(RuleTextFault::Syntax(16)))] {
        let front = DEVICE_RULES.get(..end).expect(&rt, "a front");
        assert!(rt; read_front(rt.alloc(), front) == wanted);
    }
}

/// Whether a word begins a statement of the device's rules.
fn is_keyword(word: &[u8]) -> bool {
    matches!(word, b"attribute" | b"type" | b"allow" | b"neverallow")
}

/// The first word of a statement that a space ends, or all of it.
fn first_word(statement: &[u8]) -> &[u8] {
    match statement.iter().position(|byte| *byte == b' ') {
        Some(end) => statement.get(..end).unwrap_or(statement),
        None => statement,
    }
}

/// The number of statements in a prefix of the device's rules, or the fault of the statement that it cuts. The rules
/// have
/// neither comments nor texts in quotes.
fn wanted_of_front(front: &[u8]) -> Result<usize, RuleTextFault> {
    let mut statements = 0usize;
    let mut line = 1u32;
    let mut cut = None;
    for (at, byte) in front.iter().enumerate() {
        match *byte {
            b';' => {
                statements = statements.saturating_add(1);
                cut = None;
            }
            b'\n' => line = line.saturating_add(1),
            b' ' => {}
            _ => {
                if cut.is_none() {
                    cut = Some((at, line));
                }
            }
        }
    }
    match cut {
        None => Ok(statements),
        Some((at, line)) => Err(fault_of_cut(front.get(at..).unwrap_or(front), line)),
    }
}

/// The fault of a statement without its end: a first word that is cut, too, begins no statement.
fn fault_of_cut(statement: &[u8], line: u32) -> RuleTextFault {
    if is_keyword(first_word(statement)) {
        RuleTextFault::Syntax(line)
    } else {
        RuleTextFault::Unsupported(line)
    }
}

fn read_front(alloc: Global, front: &[u8]) -> Result<usize, RuleTextFault> {
    match read(alloc, front) {
        Ok(statements) => Ok(statements.len()),
        Err(fault) => Err(fault),
    }
}

#[test]
fn each_front_of_a_text(rt: HostRuntime) {
    for end in 0..=DEVICE_RULES.len() {
        let front = &DEVICE_RULES[..end];
        assert!(rt; read_front(rt.alloc(), front) == wanted_of_front(front));
    }
}

const FAULTS: [(&[u8], Option<RuleTextFault>); 12] = [
    (b"type a;\nrole r;\n", Some(RuleTextFault::Unsupported(2))),
    (b"\npermissive { a };", Some(RuleTextFault::Syntax(2))),
    (b"permissive self;", Some(RuleTextFault::Syntax(1))),
    (b"permissive a b;", Some(RuleTextFault::Syntax(1))),
    (b"dontaudit x y;", Some(RuleTextFault::Syntax(1))),
    (b"type a;\ntype b", Some(RuleTextFault::Syntax(2))),
    (
        b"\n# x\n allow a { } : b c;",
        Some(RuleTextFault::Syntax(3)),
    ),
    (b"allow self a:b c;", Some(RuleTextFault::Syntax(1))),
    (b"allow a ~self:b c;", Some(RuleTextFault::Syntax(1))),
    (b"allow a { -self }:b c;", Some(RuleTextFault::Syntax(1))),
    (
        b"allow a {{ self } *}:b c;;auditallow x \"a;b\" # ;\n;",
        None,
    ),
    // No text begins where its line has no second quote.
    (
        b"auditallow x \"a;b\n;",
        Some(RuleTextFault::Unsupported(1)),
    ),
];

#[test]
fn faults(rt: HostRuntime) {
    for (text, wanted) in FAULTS {
        let fault = read(rt.alloc(), text).err();
        assert!(rt; fault == wanted);
    }
}

/// The number of statements, and the line of the first.
fn number_and_line(statements: &[Statement]) -> Option<(usize, u32)> {
    Some((statements.len(), statements.first()?.line))
}

#[test]
fn skipped_statements(rt: HostRuntime) {
    for word in [
        b"auditallow".as_slice(),
        b"type_transition",
        b"expandattribute",
        b"allowxperm",
        b"auditallowxperm",
        b"dontauditxperm",
        b"neverallowxperm",
    ] {
        let text = Vec::from_slice(rt.alloc(), word);
        let mut text = text.ok().expect(&rt, "memory");
        let added = text.extend_from_slice(b" x y:z { w } \"a;b # c\" # d;\n;\ntype a;\n");
        added.ok().expect(&rt, "memory");
        let statements = accepted(&rt, rt.alloc(), &text);
        assert_eq!(rt; (word, number_and_line(&statements)), (word, Some((1, 3))));
    }
}

/// Whether a rule has the sets of the rule in the test below.
fn is_of_sets(rule: &Rule) -> bool {
    rule.is_kept()
        && rule.source.has_star()
        && rule.source.minus().contains(b"a")
        && rule.target.is_complement()
        && rule.class.selects(b"binder")
        && rule.perm.has_star()
}

#[test]
fn sets(rt: HostRuntime) {
    let text =
        b"attribute d;\ntype a, d;\ntype b;\nallow { * -a } ~d:binder *;\nallow x y:file read;";
    let statements = accepted(&rt, rt.alloc(), text);
    // The rule of another class is skipped.
    assert_eq!(rt; statements.len(), 4);
    for statement in &statements {
        if let What::Rule(RuleKind::Allow, rule) = &statement.what {
            assert_eq!(rt; (statement.line, is_of_sets(rule)), (4, true));
        }
    }
}

/// Whether a statement is that dontaudit rule or that declaration of `a` that the test below has.
fn is_as_written(what: &What) -> bool {
    match what {
        What::Rule(RuleKind::Dontaudit, rule) => rule.to_self,
        What::Permissive(name) => name.bytes() == b"a".as_slice(),
        _ => false,
    }
}

#[test]
fn permissive_and_dontaudit(rt: HostRuntime) {
    let text = b"dontaudit a { self b }:binder *;\ndontaudit x y:file read;\npermissive a;";
    let mut found = Vec::new(rt.alloc());
    for statement in &accepted(&rt, rt.alloc(), text) {
        let what = &statement.what;
        let row = (statement.line, what.is_rule(), is_as_written(what));
        found.push(row).ok().expect(&rt, "memory");
    }
    // The rule of another class is skipped.
    assert_eq!(rt;
        found.as_slice(),
        [(1, true, true), (3, false, true)].as_slice()
    );
}

/// The number of statements in a text, or its fault: a first piece, then the second repeated.
fn count_of(
    rt: &impl Abort,
    alloc: Global,
    first: &[u8],
    piece: &[u8],
    times: u32,
) -> Result<usize, RuleTextFault> {
    let mut text = Vec::new(alloc);
    repeated(&mut text, first, 1).ok().expect(rt, "memory");
    repeated(&mut text, piece, times).ok().expect(rt, "memory");
    read_front(alloc, &text)
}

#[test]
fn most_rules_and_longest_text(rt: HostRuntime) {
    let rule = b"allow a a:binder call;\n".as_slice();
    let spaces = b"                ".as_slice();
    for (first, piece, times, wanted) in [
        (b"type a;\n".as_slice(), rule, 65_536, Ok(65_537)),
        (b"type a;\n", rule, 65_537, Err(RuleTextFault::TooMany)),
        (b"", spaces, 262_144, Ok(0)),
        (b" ", spaces, 262_144, Err(RuleTextFault::TooLarge)),
    ] {
        let count = count_of(&rt, rt.alloc(), first, piece, times);
        assert!(rt; count == wanted);
    }
}
