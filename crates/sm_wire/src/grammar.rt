//! Requests, parsed from the fields of a line, by the kind of the stream.

ghost use Rattle.std.specs.Prelude.{◌<◌, ◌∷◌, vec_len, vec_capacity};
ghost use Rattle.sm_wire.specs.Giving.{Gives};
ghost use Rattle.sm_wire.specs.Reading.{ReadsAs};
ghost use Rattle.sm_wire.specs.LineTable.{hello_line, explain_line, policy_lines, admin_lines, unnumbered_lines};
ghost use Rattle.sm_wire.specs.Grammar.{line_of, lines_of, fields_request_of, request_of};

use crate::client_requests::{client_request, version};
use crate::fields::Fields;
use crate::item::{Follows, Item, give};
use crate::kind::Kind;
use crate::numbers::{number, u32_field};
use crate::read_error::ReadError;
use crate::recent_names::RecentNames;
use crate::reload_header::reload;
use crate::request::Request;
use crate::values::{class_field, context_field, perm_field, word_field};
use sm_history::Query;
use sm_values::{ClientId, Identity, spells};
use std::alloc::Global;

/// Parses a line of this kind. The line has no newline.
#[tactic(auto, unfolding(crate::specs::Grammar::request_of))]
pub fn request(alloc: Global, kind: Kind, line: &[u8]) -> Result<Request, ReadError>
    ensures { ReadsAs result (request_of kind line.now) }
{
    let mut items = Vec::with_capacity(alloc, 1)?;
    fields_request(
        &mut RecentNames::none(alloc),
        kind,
        &mut Fields::new(line),
        &mut items,
    )?;
    match items.pop() {
        Some(Item::Asked(request)) => Ok(request),
        _ => unreachable!(),
    }
}

/// Parses a line of this kind from its fields. The first field of a script's line may be a client's number.
#[inline(always)]
#[tactic(auto, using(crate::proofs::LineLemmas::client_lines_left), unfolding(crate::specs::Grammar::fields_request_of, crate::specs::Grammar::script_fields_of, crate::specs::Grammar::lines_of, crate::specs::Grammar::parsed_by))]
pub fn fields_request(
    recent: &mut RecentNames,
    kind: Kind,
    fields: &mut Fields<'_>,
    items: &mut Vec<Item>,
) -> Result<Follows, ReadError>
    requires { vec_len items.old < vec_capacity items.old }
    ensures { Gives result items.old.items items.new.items (fields_request_of kind fields.old) }
{
    match kind {
        Kind::Client => {
            if fields.takes(b"hello") {
                return hello(recent.alloc, fields, items);
            }
            client_request(recent, None, fields, items)
        }
        Kind::Admin => admin_request(recent.alloc, fields, items),
        Kind::Script => {
            let word = fields.field()?;
            let Some(n) = number(word, 0xffff_ffff) else {
                return unnumbered_request(recent.alloc, word, fields, items);
            };
            client_request(recent, Some(ClientId(n as u32)), fields, items)
        }
    }
}

// Parses an administrator's line.
#[inline(never)]
#[tactic(auto, unfolding(crate::specs::Grammar::lines_of, crate::specs::Grammar::parsed_by))]
fn admin_request(
    alloc: Global,
    fields: &mut Fields<'_>,
    items: &mut Vec<Item>,
) -> Result<Follows, ReadError>
    requires { vec_len items.old < vec_capacity items.old }
    ensures { Gives result items.old.items items.new.items (lines_of admin_lines fields.old) }
{
    let word = fields.field()?;
    if spells(word, b"version") {
        return version(None, fields, items);
    }
    policy_request(alloc, word, fields, items)
}

// Parses a script's line without a client's number.
#[inline(never)]
#[tactic(auto, unfolding(crate::specs::Grammar::lines_of, crate::specs::Grammar::parsed_by))]
fn unnumbered_request(
    alloc: Global,
    word: &[u8],
    fields: &mut Fields<'_>,
    items: &mut Vec<Item>,
) -> Result<Follows, ReadError>
    requires { vec_len items.old < vec_capacity items.old }
    ensures { Gives result items.old.items items.new.items (lines_of unnumbered_lines (word.now ∷ fields.old)) }
{
    if spells(word, b"hello") {
        return hello(alloc, fields, items);
    }
    policy_request(alloc, word, fields, items)
}

// Parses an administrator's line that a script has, too.
#[inline(never)]
#[tactic(auto, unfolding(crate::specs::Grammar::lines_of, crate::specs::Grammar::parsed_by))]
fn policy_request(
    alloc: Global,
    word: &[u8],
    fields: &mut Fields<'_>,
    items: &mut Vec<Item>,
) -> Result<Follows, ReadError>
    requires { vec_len items.old < vec_capacity items.old }
    ensures { Gives result items.old.items items.new.items (lines_of policy_lines (word.now ∷ fields.old)) }
{
    if spells(word, b"reload") {
        let request = reload(fields)?;
        items.push_reserved(Item::Asked(request));
        Ok(Follows::Files)
    } else if spells(word, b"explain") {
        explain(alloc, fields, items)
    } else if spells(word, b"denials") {
        fields.end()?;
        give(items, Request::Denials)
    } else if spells(word, b"seal") {
        fields.end()?;
        give(items, Request::Seal)
    } else {
        Err(ReadError::Malformed)
    }
}

// Parses `hello PID UID CONTEXT`.
#[inline(never)]
#[tactic(auto, unfolding(crate::specs::Grammar::parsed_by))]
fn hello(
    alloc: Global,
    fields: &mut Fields<'_>,
    items: &mut Vec<Item>,
) -> Result<Follows, ReadError>
    requires { vec_len items.old < vec_capacity items.old }
    ensures { Gives result items.old.items items.new.items (line_of hello_line fields.old) }
{
    let pid = fields.field()?;
    let uid = fields.field()?;
    let context = fields.field()?;
    fields.end()?;
    let pid = u32_field(pid)?;
    let uid = u32_field(uid)?;
    let context = context_field(alloc, context)?;
    give(items, Request::Hello(Identity { pid, uid, context }))
}

// Parses `explain SOURCE TARGET CLASS PERM`.
#[inline(never)]
#[tactic(auto, unfolding(crate::specs::Grammar::parsed_by))]
fn explain(
    alloc: Global,
    fields: &mut Fields<'_>,
    items: &mut Vec<Item>,
) -> Result<Follows, ReadError>
    requires { vec_len items.old < vec_capacity items.old }
    ensures { Gives result items.old.items items.new.items (line_of explain_line fields.old) }
{
    let source = fields.field()?;
    let target = fields.field()?;
    let class = fields.field()?;
    let perm = fields.field()?;
    fields.end()?;
    let query = Query::Explain {
        source: word_field(alloc, source)?,
        target: word_field(alloc, target)?,
        class: class_field(class)?,
        perm: perm_field(perm)?,
    };
    give(items, Request::Look(None, query))
}
