//! Audit lines.

ghost use Rattle.std.specs.Prelude.{◌≡◌, ◌++◌, OnOk, IfOk, MatchResult, codes, option_map, unwrap_or, []};
ghost use Rattle.std.specs.List.{flat_map};
ghost use Rattle.sm_values.specs.Permissions.{perm_word};
ghost use Rattle.sm_audit.specs.AuditLines.{audit_line, place_text, cause_text, missing_text, permissive_text};
ghost use Rattle.sm_audit.specs.AuditLines.{name_field, process_text, target_text, scope_text};

use sm_history::{Denial, Record};
use sm_values::{Context, Identity, Name, Perms, push_name, push_numbered};
use std::alloc::{AllocError, Global};

/// Returns the line of a record, with its newline: one line, whatever the name is.
pub fn line(alloc: Global, denied: &Record) -> Result<Vec<u8>, AllocError>
    ensures { IfOk result (λ line. line.items ≡ audit_line denied.now) }
{
    let mut line = Vec::new(alloc);
    add_line(alloc, &mut line, denied)?;
    Ok(line)
}

/// Appends the lines of records, in their order. On error the text is unchanged.
pub fn push_lines(alloc: Global, out: &mut Vec<u8>, records: &[Record]) -> Result<(), AllocError>
    ensures { MatchResult result (λ _. out.new.items ≡ out.old.items ++ flat_map audit_line records.now)
        (λ _. out.new.items ≡ out.old.items) }
{
    let mut lines = Vec::new(alloc);
    for denied in records {
        add_line(alloc, &mut lines, denied)?;
    }
    out.extend_from_slice(&lines)
}

/// Appends the line of a record. On error the text is unchanged.
pub fn push_line(alloc: Global, out: &mut Vec<u8>, denied: &Record) -> Result<(), AllocError>
    ensures { MatchResult result (λ _. out.new.items ≡ out.old.items ++ audit_line denied.now)
        (λ _. out.new.items ≡ out.old.items) }
{
    let added = line(alloc, denied)?;
    out.extend_from_slice(&added)
}

// Appends the line of a record. On error a part of it may have been appended.
#[tactic(auto, unfolding(crate::specs::AuditLines::audit_line))]
fn add_line(alloc: Global, out: &mut Vec<u8>, denied: &Record) -> Result<(), AllocError>
    ensures { OnOk result (out.new.items ≡ out.old.items ++ audit_line denied.now) }
{
    push_place(out, denied.length, denied.version)?;
    push_cause(out, &denied.denial)?;
    push_process(alloc, out, &denied.who, denied.name.as_ref())?;
    push_scope(
        out,
        &denied.denial,
        denied.target.as_ref(),
        denied.permissive,
    )?;
    out.extend_from_slice(b"\n")
}

#[tactic(auto, unfolding(crate::specs::AuditLines::place_text))]
fn push_place(out: &mut Vec<u8>, length: u64, version: u64) -> Result<(), AllocError>
    ensures { OnOk result (out.new.items ≡ out.old.items ++ place_text length version) }
{
    push_numbered(out, b"journal=", length)?;
    push_numbered(out, b" version=", version)
}

#[tactic(auto, unfolding(crate::specs::AuditLines::cause_text))]
fn push_cause(out: &mut Vec<u8>, denial: &Denial) -> Result<(), AllocError>
    ensures { OnOk result (out.new.items ≡ out.old.items ++ cause_text denial.now) }
{
    match denial {
        Denial::Rule {
            source: _,
            target: _,
            class: _,
            perm,
        } => push_missing(out, *perm),
        Denial::App(_) => out.extend_from_slice(b" clause: denied app"),
        Denial::Isolated(_) => out.extend_from_slice(b" clause: denied isolated"),
    }
}

#[tactic(auto, unfolding(crate::specs::AuditLines::missing_text))]
fn push_missing(out: &mut Vec<u8>, perm: Perms) -> Result<(), AllocError>
    ensures { OnOk result (out.new.items ≡ out.old.items ++ missing_text perm) }
{
    out.extend_from_slice(b" avc: denied { ")?;
    out.extend_from_slice(word_of(perm))?;
    out.extend_from_slice(b" }")
}

/// The word of a single permission; nothing for a set of none or several.
fn word_of(perm: Perms) -> &'static [u8]
    ensures { result.now ≡ unwrap_or (perm_word perm) [] }
{
    perm.word().unwrap_or(b"")
}

#[tactic(auto, unfolding(crate::specs::AuditLines::process_text))]
fn push_process(
    alloc: Global,
    out: &mut Vec<u8>,
    who: &Identity,
    name: Option<&Name>,
) -> Result<(), AllocError>
    ensures { OnOk result (out.new.items ≡ out.old.items ++ process_text who.now (option_map (λ n. n.now) name.entry)) }
{
    push_numbered(out, b" for pid=", u64::from(who.pid))?;
    push_numbered(out, b" uid=", u64::from(who.uid))?;
    push_name_field(alloc, out, name)?;
    out.extend_from_slice(b" scontext=")?;
    out.extend_from_slice(who.context.text())
}

#[tactic(auto, unfolding(crate::specs::AuditLines::name_field))]
fn push_name_field(alloc: Global, out: &mut Vec<u8>, name: Option<&Name>) -> Result<(), AllocError>
    ensures { OnOk result (out.new.items ≡ out.old.items ++ name_field (option_map (λ n. n.now) name.entry)) }
{
    match name {
        None => Ok(()),
        Some(name) => {
            out.extend_from_slice(b" name=")?;
            push_name(alloc, out, name.bytes())
        }
    }
}

#[tactic(auto, unfolding(crate::specs::AuditLines::scope_text))]
fn push_scope(
    out: &mut Vec<u8>,
    denial: &Denial,
    target: Option<&Context>,
    permissive: bool,
) -> Result<(), AllocError>
    ensures { OnOk result
        (out.new.items ≡ out.old.items ++ scope_text denial.now (option_map (λ x. x.now) target.entry) permissive) }
{
    match denial {
        Denial::Rule {
            source: _,
            target: _,
            class,
            perm: _,
        } => {
            push_target(out, target)?;
            out.extend_from_slice(b" tclass=")?;
            out.extend_from_slice(class.word())?;
            out.extend_from_slice(permissive_word(permissive))
        }
        Denial::App(_) => Ok(()),
        Denial::Isolated(_) => Ok(()),
    }
}

fn permissive_word(permissive: bool) -> &'static [u8]
    ensures { result.now ≡ permissive_text permissive }
{
    if permissive {
        b" permissive=1"
    } else {
        b" permissive=0"
    }
}

#[tactic(auto, unfolding(crate::specs::AuditLines::target_text))]
fn push_target(out: &mut Vec<u8>, target: Option<&Context>) -> Result<(), AllocError>
    ensures { OnOk result (out.new.items ≡ out.old.items ++ target_text (option_map (λ x. x.now) target.entry)) }
{
    match target {
        None => Ok(()),
        Some(target) => {
            out.extend_from_slice(b" tcontext=")?;
            out.extend_from_slice(target.text())
        }
    }
}
