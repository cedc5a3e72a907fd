//! Reads the bytes of whole items.

ghost use Rattle.std.specs.Prelude.{◌≡◌, ◌≢◌, ◌≤◌, ◌+◌, ◌++◌, [], length, take, IfOk, OnOk, OnErr};
ghost use Rattle.sm_wire.specs.Items.{Makes, policy_item, text_start, line_end};
ghost use Rattle.sm_wire.specs.Giving.{Appended};
ghost use Rattle.sm_wire.specs.Grammar.{request_of};
ghost use Rattle.sm_wire.specs.Ends.{IsWhole, whole_step, never_items};
ghost use Rattle.sm_wire.specs.declared.frame_state.FrameState.TheVariants.{Line};

use crate::fields::Fields;
use crate::frame_state::FrameState;
use crate::grammar::fields_request;
use crate::item::{Follows, Item};
use crate::kind::Kind;
use crate::read_error::ReadError;
use crate::recent_names::RecentNames;
use crate::reload_header::ReloadHeader;
use crate::request::Request;
use crate::texts::PolicyTexts;
use std::alloc::{AllocError, Global};

/// The most bytes of each file after a `reload` line.
const TEXT_LIMIT: u32 = 4_194_304;

/// Reports a line that is too long, once.
pub fn end_stream(mode: FrameState, items: &mut Vec<Item>) -> Result<(), AllocError>
    ensures item { OnOk result (items.new.items ≡ items.old.items ++ never_items mode) }
    ensures err { OnErr result (items.new.items ≡ items.old.items) }
{
    match mode {
        FrameState::Dead => Ok(()),
        _ => {
            items.push(Item::LineTooLong)?;
            Ok(())
        }
    }
}

/// Appends the item that is these bytes, and sets what is read next. After an error nothing has changed.
///
/// Most items are lines with another line behind them. So the other items, and the ends of `reload` lines, are read by
/// functions that aren't inlined, and `mode` is written only by these.
#[inline(always)]
#[tactic(auto, unfolding(crate::specs::Ends::whole_step))]
pub fn whole_item(
    kind: Kind,
    mode: &mut FrameState,
    bytes: &[u8],
    recent: &mut RecentNames,
    items: &mut Vec<Item>,
) -> Result<(), AllocError>
    requires { IsWhole mode.old bytes.now }
    ensures item { OnOk result
        (Makes (whole_step kind mode.old bytes.now) kind mode.new [] items.old.items items.new.items) }
    ensures err { OnErr result ((mode.new ≡ mode.old) × (items.new.items ≡ items.old.items)) }
{
    match mode {
        FrameState::Line => line(kind, mode, &bytes[..bytes.len() - 1], recent, items),
        _ => texts(recent.alloc, kind, mode, bytes, items),
    }
}

// Reads the files after a `reload` line.
#[cold]
#[inline(never)]
#[tactic(auto, unfolding(crate::specs::Ends::whole_step))]
fn texts(
    alloc: Global,
    kind: Kind,
    mode: &mut FrameState,
    bytes: &[u8],
    items: &mut Vec<Item>,
) -> Result<(), AllocError>
    requires whole { IsWhole mode.old bytes.now }
    requires no_line { mode.old ≢ Line }
    ensures item { OnOk result
        (Makes (whole_step kind mode.old bytes.now) kind mode.new [] items.old.items items.new.items) }
    ensures err { OnErr result ((mode.new ≡ mode.old) × (items.new.items ≡ items.old.items)) }
{
    let FrameState::Texts(header) = *mode else {
        return Ok(());
    };
    let item = policy(alloc, header, bytes)?;
    items.push(item)?;
    *mode = FrameState::Line;
    Ok(())
}

// Reads a line, without its newline.
#[inline(always)]
#[tactic(auto, using(crate::proofs::GivingLemmas::appended_front), unfolding(crate::specs::Items::line_end, crate::specs::Items::item_of, crate::specs::Grammar::header_of, crate::specs::Grammar::request_of))]
fn line(
    kind: Kind,
    mode: &mut FrameState,
    line: &[u8],
    recent: &mut RecentNames,
    items: &mut Vec<Item>,
) -> Result<(), AllocError>
    requires { mode.old ≡ Line }
    ensures item { OnOk result
        (Makes (line_end kind line.now) kind mode.new [] items.old.items items.new.items) }
    ensures err { OnErr result ((mode.new ≡ mode.old) × (items.new.items ≡ items.old.items)) }
{
    items.reserve(1)?;
    let count = items.len();
    match fields_request(recent, kind, &mut Fields::new(line), items) {
        Ok(Follows::Line) => Ok(()),
        Ok(Follows::Files) => files_begin(recent.alloc, kind, line, count, mode, items),
        Err(ReadError::Malformed) => {
            items.reserve(1)?;
            items.push_reserved(Item::Malformed);
            Ok(())
        }
        Err(ReadError::Memory) => Err(AllocError),
    }
}

// Handles the end of a line whose request may be a `reload`, which is the item behind the first `count`.
#[cold]
#[inline(never)]
#[tactic(auto, unfolding(crate::specs::Items::line_end, crate::specs::Items::item_of, crate::specs::Grammar::header_of))]
fn files_begin(
    alloc: Global,
    kind: Kind,
    line: &[u8],
    count: usize,
    mode: &mut FrameState,
    items: &mut Vec<Item>,
) -> Result<(), AllocError>
    requires line { mode.old ≡ Line }
    requires count { count ≤ length items.old.items }
    requires last { Appended (request_of kind line.now) (take count items.old.items) items.old.items }
    ensures item { OnOk result
        (Makes (line_end kind line.now) kind mode.new [] (take count items.old.items) items.new.items) }
    ensures err { OnErr result ((mode.new ≡ mode.old) × (items.new.items ≡ take count items.old.items)) }
{
    let Some(
        Item::Asked(
            Request::Reload {
                expected,
                rules,
                contexts,
            },
        ),
    ) = items.get(count)
    else {
        return Ok(());
    };
    let header = ReloadHeader {
        expected: *expected,
        rules: *rules,
        contexts: *contexts,
    };
    items.truncate(count);
    texts_begin(alloc, kind, header, mode, items)
}

// Handles the end of a `reload` line.
#[tactic(auto, unfolding(crate::specs::Items::text_start))]
fn texts_begin(
    alloc: Global,
    kind: Kind,
    header: ReloadHeader,
    mode: &mut FrameState,
    items: &mut Vec<Item>,
) -> Result<(), AllocError>
    requires { mode.old ≡ Line }
    ensures item { OnOk result
        (Makes (text_start kind header) kind mode.new [] items.old.items items.new.items) }
    ensures err { OnErr result ((mode.new ≡ mode.old) × (items.new.items ≡ items.old.items)) }
{
    if header.rules > TEXT_LIMIT || header.contexts > TEXT_LIMIT {
        items.push(Item::LineTooLong)?;
        *mode = FrameState::Dead;
        return Ok(());
    }
    if header.length() > 0 {
        *mode = FrameState::Texts(header);
        return Ok(());
    }
    let item = policy(alloc, header, b"")?;
    items.push(item)?;
    Ok(())
}

// Makes the item of a `reload` line and its files.
fn policy(alloc: Global, header: ReloadHeader, texts: &[u8]) -> Result<Item, AllocError>
    requires { length texts.now ≡ header.rules + header.contexts }
    ensures { IfOk result (λ i. i ≡ policy_item header texts.now) }
{
    let (rules, contexts) = texts.split_at(header.rules as usize);
    let rules = Vec::from_slice(alloc, rules)?;
    let contexts = Vec::from_slice(alloc, contexts)?;
    let texts = PolicyTexts::new(header.expected, rules, contexts);
    Ok(Item::Policy(texts))
}
