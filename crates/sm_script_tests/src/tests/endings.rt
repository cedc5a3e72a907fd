//! The text of the program's fault is its line on standard error.

use sm_command::{Ending, unknown_line};
use sm_engine::{Fault, ServeFault};
use sm_history::{Denial, Refusal, Shared};
use sm_policy::PolicyFault;
use sm_questions::Unknown;
use sm_script::ScriptFault;
use sm_values::{Class, Name, Perms, Word};
use std::alloc::{AllocError, Global};
use std::io;
use std::process::Abort;
use std::test::Fail;

const FAULTS: [Fault; 5] = [
    Fault::ReadFault,
    Fault::WriteFault,
    Fault::TooManyReads,
    Fault::LineTooLong,
    Fault::Memory,
];

const SERVE_FAULTS: [ServeFault; 3] = [
    ServeFault::AcceptFault,
    ServeFault::NoThread,
    ServeFault::Memory,
];

// Asserts that the text of an ending is its line without the newline.
fn prints_its_line(rt: &impl Abort, alloc: Global, ending: Ending) -> Result<(), AllocError> {
    let text = format!(in alloc; "{ending}\n")?;
    let line = ending.line(alloc)?;
    assert_eq!(rt; text.as_bytes(), line.as_slice());
    Ok(())
}

#[test]
fn the_text_of_an_engine_fault_is_its_line(rt: HostRuntime) -> Result<(), Fail> {
    for fault in FAULTS {
        prints_its_line(&rt, rt.alloc(), Ending::from(fault))?;
    }
    for fault in SERVE_FAULTS {
        prints_its_line(&rt, rt.alloc(), Ending::Serve(fault))?;
    }
    Ok(())
}

#[test]
fn the_text_of_a_file_fault_is_its_line(rt: HostRuntime) -> Result<(), Fail> {
    let alloc = rt.alloc();
    prints_its_line(&rt, alloc, Ending::Memory)?;
    prints_its_line(
        &rt,
        alloc,
        Ending::of_file("a.rules", io::Error::from_raw_os_error(2)),
    )?;
    prints_its_line(
        &rt,
        alloc,
        Ending::of_lock("socket", io::Error::from_raw_os_error(13)),
    )?;
    let (rules, contexts) = ("a.rules", "a.contexts");
    prints_its_line(&rt, alloc, Ending::Refused { rules, contexts })?;
    Ok(())
}

#[test]
fn the_text_of_an_unknown_word_is_its_line(rt: HostRuntime) -> Result<(), Fail> {
    let word = b"app".as_slice();
    for unknown in [
        Unknown::Type(Word::new(word)),
        Unknown::Class(Word::new(word)),
        Unknown::Permission(Word::new(word)),
    ] {
        let text = format!(in rt.alloc(); "fault: {unknown}\n")?;
        let line = unknown_line(rt.alloc(), &unknown)?;
        assert_eq!(rt; text.as_bytes(), line.as_slice());
    }
    Ok(())
}

#[test]
fn the_text_of_a_script_fault_is_its_line(rt: HostRuntime) -> Result<(), Fail> {
    let alloc = rt.alloc();
    let missing = Denial::Rule {
        source: Name::new(alloc, b"servicemanager")?,
        target: Name::new(alloc, b"servicemanager")?,
        class: Class::Binder,
        perm: Perms::SET_CONTEXT_MGR,
    };
    let missing = Shared::new(alloc, missing)?;
    prints_its_line(
        &rt,
        alloc,
        Ending::Script(ScriptFault::Policy(PolicyFault::Memory)),
    )?;
    prints_its_line(
        &rt,
        alloc,
        Ending::Script(ScriptFault::Policy(PolicyFault::UndeclaredLabel(1))),
    )?;
    prints_its_line(
        &rt,
        alloc,
        Ending::Script(ScriptFault::Opening(Refusal::Denied(missing))),
    )?;
    prints_its_line(
        &rt,
        alloc,
        Ending::Script(ScriptFault::Opening(Refusal::Memory)),
    )?;
    prints_its_line(
        &rt,
        alloc,
        Ending::Script(ScriptFault::Opening(Refusal::Dead)),
    )?;
    Ok(())
}
