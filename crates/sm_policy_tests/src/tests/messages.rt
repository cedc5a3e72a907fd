//! The text of a fault is the words that a contract gives for its line.

use sm_contexts::ContextsFault;
use sm_policy::{PolicyFault, Violation, refused_text};
use sm_rules::RulesFault;
use sm_ruletext::RuleTextFault;
use sm_types::TypesFault;
use sm_values::{Class, Name, Perms};
use std::alloc::{AllocError, Global};
use std::process::Abort;
use std::test::Fail;

const SOURCE_FAULTS: [RuleTextFault; 5] = [
    RuleTextFault::TooLarge,
    RuleTextFault::TooMany,
    RuleTextFault::Syntax(3),
    RuleTextFault::Unsupported(4),
    RuleTextFault::Memory,
];

const TYPES_FAULTS: [TypesFault; 4] = [
    TypesFault::Twice(5),
    TypesFault::Unknown(6),
    TypesFault::TooMany,
    TypesFault::Memory,
];

const RULES_FAULTS: [RulesFault; 3] = [
    RulesFault::Unknown(7),
    RulesFault::UnknownPermission(8),
    RulesFault::Memory,
];

const CONTEXTS_FAULTS: [ContextsFault; 6] = [
    ContextsFault::TooLarge,
    ContextsFault::BadLine(9),
    ContextsFault::Conflict(10, 11),
    ContextsFault::TwoDefaults(12),
    ContextsFault::NoDefault,
    ContextsFault::Memory,
];

// Asserts that a fault's text is its words.
fn prints_its_words(rt: &impl Abort, alloc: Global, fault: PolicyFault) -> Result<(), AllocError> {
    let words = refused_text(alloc, &fault)?;
    let text = format!(in alloc; "{fault}")?;
    assert_eq!(rt; text.as_bytes(), words.as_slice());
    Ok(())
}

#[test]
fn the_text_of_a_fault_is_its_words(rt: HostRuntime) -> Result<(), Fail> {
    let alloc = rt.alloc();
    for fault in SOURCE_FAULTS {
        prints_its_words(&rt, alloc, PolicyFault::Rules(fault))?;
    }
    for fault in TYPES_FAULTS {
        prints_its_words(&rt, alloc, PolicyFault::Types(fault))?;
    }
    for fault in RULES_FAULTS {
        prints_its_words(&rt, alloc, PolicyFault::Access(fault))?;
    }
    for fault in CONTEXTS_FAULTS {
        prints_its_words(&rt, alloc, PolicyFault::Contexts(fault))?;
    }
    prints_its_words(&rt, alloc, PolicyFault::UndeclaredLabel(13))?;
    prints_its_words(&rt, alloc, PolicyFault::Memory)?;
    Ok(())
}

#[test]
fn the_text_of_a_violation_is_its_words(rt: HostRuntime) -> Result<(), Fail> {
    let violation = Violation {
        never_line: 14,
        allow_line: 15,
        source: Name::new(rt.alloc(), b"untrusted_app")?,
        target: Name::new(rt.alloc(), b"activity_service")?,
        class: Class::ServiceManager,
        perm: Perms::ADD,
    };
    prints_its_words(&rt, rt.alloc(), PolicyFault::Neverallow(violation))?;
    Ok(())
}
