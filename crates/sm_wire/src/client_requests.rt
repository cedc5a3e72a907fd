//! Requests of clients: a function for each line of the table. Each takes the fields after its word.
//!
//! A function zeroes its locals on entry. So the lines with fields are parsed by functions that aren't inlined, and a
//! short line doesn't pay for a long one.

ghost use Rattle.std.specs.Prelude.{◌<◌, ◌∷◌, vec_len, vec_capacity};
ghost use Rattle.sm_wire.specs.Giving.{Gives};
ghost use Rattle.sm_wire.specs.LineTable.{get_line, list_line, add_line, watch_line, unwatch_line, unregister_line};
ghost use Rattle.sm_wire.specs.LineTable.{version_line, call_line, release_line, client_lines, rare_lines};
ghost use Rattle.sm_wire.specs.Grammar.{line_of, lines_of};

use crate::fields::Fields;
use crate::item::{Follows, Item, give};
use crate::numbers::u32_field;
use crate::read_error::ReadError;
use crate::recent_names::RecentNames;
use crate::request::Request;
use crate::values::{
    flag_field, name_field, own_object_field, payload_field, reference_field, reference_fields,
};
use sm_history::{Event, Query};
use sm_values::{ClientId, spells};

/// Reads a query or a change of a client. The words that come most often are compared first.
#[tactic(auto, using(crate::proofs::LineLemmas::rare_lines_left), unfolding(crate::specs::Grammar::lines_of, crate::specs::Grammar::parsed_by))]
pub fn client_request(
    recent: &mut RecentNames,
    client: Option<ClientId>,
    fields: &mut Fields<'_>,
    items: &mut Vec<Item>,
) -> Result<Follows, ReadError>
    requires { vec_len items.old < vec_capacity items.old }
    ensures { Gives result items.old.items items.new.items (lines_of (client_lines client) fields.old) }
{
    if fields.takes(b"get") {
        return get(recent, client, fields, items);
    }
    if fields.takes(b"version") {
        return version(client, fields, items);
    }
    if fields.takes(b"take") {
        fields.end()?;
        return give(items, Request::Change(client, Event::Take));
    }
    if fields.takes(b"call") {
        return call(recent, client, fields, items);
    }
    if fields.takes(b"release") {
        return release(client, fields, items);
    }
    if fields.takes(b"add") {
        return add(recent, client, fields, items);
    }
    rare_request(recent, client, fields, items)
}

// Reads the other lines of a client.
#[inline(never)]
#[tactic(auto, unfolding(crate::specs::Grammar::lines_of, crate::specs::Grammar::parsed_by))]
fn rare_request(
    recent: &mut RecentNames,
    client: Option<ClientId>,
    fields: &mut Fields<'_>,
    items: &mut Vec<Item>,
) -> Result<Follows, ReadError>
    requires { vec_len items.old < vec_capacity items.old }
    ensures { Gives result items.old.items items.new.items (lines_of (rare_lines client) fields.old) }
{
    let word = fields.field()?;
    if spells(word, b"watch") {
        return watch(recent, client, fields, items);
    }
    if spells(word, b"unwatch") {
        return unwatch(recent, client, fields, items);
    }
    if spells(word, b"unregister") {
        return unregister(recent, client, fields, items);
    }
    if spells(word, b"list") {
        return list(client, fields, items);
    }
    if spells(word, b"check") {
        return get(recent, client, fields, items);
    }
    if spells(word, b"bye") {
        fields.end()?;
        return give(items, Request::Change(client, Event::Die));
    }
    Err(ReadError::Malformed)
}

// Reads `get NAME` or `check NAME`, which means the same. A name that was read lately is found by all the bytes that are
// left, which are then one field.
#[inline(never)]
#[tactic(auto, unfolding(crate::specs::Grammar::parsed_by))]
fn get(
    recent: &mut RecentNames,
    client: Option<ClientId>,
    fields: &mut Fields<'_>,
    items: &mut Vec<Item>,
) -> Result<Follows, ReadError>
    requires { vec_len items.old < vec_capacity items.old }
    ensures { Gives result items.old.items items.new.items (line_of (get_line client) fields.old) }
{
    if let Some(bytes) = fields.rest() {
        if let Some(name) = recent.kept(bytes) {
            let name = name.clone()?;
            return give(items, Request::Change(client, Event::Get { name }));
        }
    }
    get_new(recent, client, fields, items)
}

// The same, field by field.
#[inline(never)]
#[tactic(auto, unfolding(crate::specs::Grammar::parsed_by))]
fn get_new(
    recent: &mut RecentNames,
    client: Option<ClientId>,
    fields: &mut Fields<'_>,
    items: &mut Vec<Item>,
) -> Result<Follows, ReadError>
    requires { vec_len items.old < vec_capacity items.old }
    ensures { Gives result items.old.items items.new.items (line_of (get_line client) fields.old) }
{
    let name = fields.field()?;
    fields.end()?;
    let name = name_field(recent, name)?;
    give(items, Request::Change(client, Event::Get { name }))
}

// Reads `list MASK`.
#[inline(never)]
#[tactic(auto, unfolding(crate::specs::Grammar::parsed_by))]
fn list(
    client: Option<ClientId>,
    fields: &mut Fields<'_>,
    items: &mut Vec<Item>,
) -> Result<Follows, ReadError>
    requires { vec_len items.old < vec_capacity items.old }
    ensures { Gives result items.old.items items.new.items (line_of (list_line client) fields.old) }
{
    let mask = fields.field()?;
    fields.end()?;
    let mask = u32_field(mask)?;
    give(items, Request::Look(client, Query::List(mask)))
}

/// Reads `version`.
#[inline(always)]
#[tactic(auto, unfolding(crate::specs::Grammar::parsed_by))]
pub fn version(
    client: Option<ClientId>,
    fields: &mut Fields<'_>,
    items: &mut Vec<Item>,
) -> Result<Follows, ReadError>
    requires { vec_len items.old < vec_capacity items.old }
    ensures { Gives result items.old.items items.new.items (line_of (version_line client) fields.old) }
{
    fields.end()?;
    give(items, Request::Look(client, Query::Version))
}

// Reads `add NAME REF ALLOW DUMP`.
#[inline(never)]
#[tactic(auto, unfolding(crate::specs::Grammar::parsed_by))]
fn add(
    recent: &mut RecentNames,
    client: Option<ClientId>,
    fields: &mut Fields<'_>,
    items: &mut Vec<Item>,
) -> Result<Follows, ReadError>
    requires { vec_len items.old < vec_capacity items.old }
    ensures { Gives result items.old.items items.new.items (line_of (add_line client) fields.old) }
{
    let name = fields.field()?;
    let obj = fields.field()?;
    let allow_isolated = fields.field()?;
    let dump = fields.field()?;
    fields.end()?;
    let event = Event::Add {
        name: name_field(recent, name)?,
        obj: reference_field(obj)?,
        allow_isolated: flag_field(allow_isolated)?,
        dump: u32_field(dump)?,
    };
    give(items, Request::Change(client, event))
}

// Reads `watch NAME oN`.
#[inline(never)]
#[tactic(auto, unfolding(crate::specs::Grammar::parsed_by))]
fn watch(
    recent: &mut RecentNames,
    client: Option<ClientId>,
    fields: &mut Fields<'_>,
    items: &mut Vec<Item>,
) -> Result<Follows, ReadError>
    requires { vec_len items.old < vec_capacity items.old }
    ensures { Gives result items.old.items items.new.items (line_of (watch_line client) fields.old) }
{
    let name = fields.field()?;
    let object = fields.field()?;
    fields.end()?;
    let name = name_field(recent, name)?;
    let object = own_object_field(object)?;
    give(
        items,
        Request::Change(client, Event::Watch { name, object }),
    )
}

// Reads `unwatch NAME oN`.
#[inline(never)]
#[tactic(auto, unfolding(crate::specs::Grammar::parsed_by))]
fn unwatch(
    recent: &mut RecentNames,
    client: Option<ClientId>,
    fields: &mut Fields<'_>,
    items: &mut Vec<Item>,
) -> Result<Follows, ReadError>
    requires { vec_len items.old < vec_capacity items.old }
    ensures { Gives result items.old.items items.new.items (line_of (unwatch_line client) fields.old) }
{
    let name = fields.field()?;
    let object = fields.field()?;
    fields.end()?;
    let name = name_field(recent, name)?;
    let object = own_object_field(object)?;
    give(
        items,
        Request::Change(client, Event::Unwatch { name, object }),
    )
}

// Reads `unregister NAME REF`.
#[inline(never)]
#[tactic(auto, unfolding(crate::specs::Grammar::parsed_by))]
fn unregister(
    recent: &mut RecentNames,
    client: Option<ClientId>,
    fields: &mut Fields<'_>,
    items: &mut Vec<Item>,
) -> Result<Follows, ReadError>
    requires { vec_len items.old < vec_capacity items.old }
    ensures { Gives result items.old.items items.new.items (line_of (unregister_line client) fields.old) }
{
    let name = fields.field()?;
    let obj = fields.field()?;
    fields.end()?;
    let name = name_field(recent, name)?;
    let obj = reference_field(obj)?;
    give(
        items,
        Request::Change(client, Event::Unregister { name, obj }),
    )
}

// Reads `call N PAYLOAD REF ..`.
#[inline(never)]
#[tactic(auto, unfolding(crate::specs::Grammar::parsed_by))]
fn call(
    recent: &mut RecentNames,
    client: Option<ClientId>,
    fields: &mut Fields<'_>,
    items: &mut Vec<Item>,
) -> Result<Follows, ReadError>
    requires { vec_len items.old < vec_capacity items.old }
    ensures { Gives result items.old.items items.new.items (line_of (call_line client) fields.old) }
{
    let handle = fields.field()?;
    let payload = fields.field()?;
    let event = Event::Call {
        handle: u32_field(handle)?,
        payload: payload_field(recent.alloc, payload)?,
        refs: reference_fields(recent.alloc, fields)?,
    };
    give(items, Request::Change(client, event))
}

// Reads `release N`.
#[inline(never)]
#[tactic(auto, unfolding(crate::specs::Grammar::parsed_by))]
fn release(
    client: Option<ClientId>,
    fields: &mut Fields<'_>,
    items: &mut Vec<Item>,
) -> Result<Follows, ReadError>
    requires { vec_len items.old < vec_capacity items.old }
    ensures { Gives result items.old.items items.new.items (line_of (release_line client) fields.old) }
{
    let handle = fields.field()?;
    fields.end()?;
    let handle = u32_field(handle)?;
    give(items, Request::Change(client, Event::Release { handle }))
}
