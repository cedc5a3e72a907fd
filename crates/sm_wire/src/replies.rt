//! Reply lines.

ghost use Rattle.std.specs.Prelude.{◌≡◌, ◌++◌, OnOk, OnErr, IfOk, codes};
ghost use Rattle.sm_values.specs.Messages.{numbered};
ghost use Rattle.sm_wire.specs.Replies.{message_text, names_text, outcome_text, refusal_text, sealed_text, why_text, answer_text};
ghost use Rattle.sm_wire.specs.Replies.{told_text, told_in};

use crate::decimals::{push_numbered, push_small, push_word};
use crate::deliveries::push_delivery;
use crate::names::push_names;
use crate::refusals::push_refusal;
use crate::telling::Telling;
use sm_history::{Answer, Delivery, NameList, Outcome, Refusal, Reply, is_hidden};
use std::alloc::{AllocError, Global};

/// Returns the line of the visible part of a reply, with its newline.
pub fn reply_line(alloc: Global, telling: Telling, reply: &Reply) -> Result<Vec<u8>, AllocError>
    ensures { IfOk result (λ line. line.items ≡ told_text (told_in telling reply.now)) }
{
    let mut line = Vec::new(alloc);
    push_reply(alloc, &mut line, telling, reply)?;
    Ok(line)
}

/// Appends the line of the visible part of a reply, with its newline. On error a part may have been appended.
///
/// Each line with a number is written by a function of its own, which isn't inlined: this one then saves no registers,
/// and its constants stay constants.
#[tactic(auto, unfolding(crate::specs::Replies::told_text, crate::specs::Replies::answered_text))]
pub fn push_reply(
    alloc: Global,
    out: &mut Vec<u8>,
    telling: Telling,
    reply: &Reply,
) -> Result<(), AllocError>
    ensures { OnOk result (out.new.items ≡ out.old.items ++ told_text (told_in telling reply.now)) }
{
    match telling {
        Telling::ToGet if is_hidden(reply) => out.extend_from_slice(b"null\n"),
        _ => push_told(alloc, out, reply),
    }
}

#[inline(always)]
#[tactic(auto, unfolding(crate::specs::Replies::told_text, crate::specs::Replies::answered_text))]
fn push_told(alloc: Global, out: &mut Vec<u8>, reply: &Reply) -> Result<(), AllocError>
    ensures { OnOk result (out.new.items ≡ out.old.items ++ told_text reply.now) }
{
    match reply {
        Reply::Done(outcome) => push_outcome(alloc, out, outcome),
        Reply::GotNull => out.extend_from_slice(b"null\n"),
        Reply::GotOwn(object) => push_own(out, *object),
        Reply::Looked {
            version,
            length,
            answer,
        } => push_answer(alloc, out, *version, *length, answer),
        Reply::Sealed { number, length } => push_sealed(out, *number, *length),
        Reply::Refused(refusal) => push_refused(out, refusal),
    }
}

/// Appends the line that answers a request outside the grammar, with its newline. On error nothing was appended.
#[inline(always)]
pub fn push_malformed(out: &mut Vec<u8>) -> Result<(), AllocError>
    ensures ok { OnOk result (out.new.items ≡ out.old.items ++ codes "malformed\n") }
    ensures err { OnErr result (out.new.items ≡ out.old.items) }
{
    push_word(out, b"malformed\n")
}

/// Appends the line of an outcome, with its newline. On error a part may have been appended.
#[inline(always)]
#[tactic(auto, unfolding(crate::specs::Replies::outcome_text))]
pub fn push_outcome(alloc: Global, out: &mut Vec<u8>, outcome: &Outcome) -> Result<(), AllocError>
    ensures { OnOk result (out.new.items ≡ out.old.items ++ outcome_text outcome.now ++ codes "\n") }
{
    match outcome {
        Outcome::Connected(client) => push_connected(out, client.0),
        Outcome::Granted(handle) => push_granted(out, *handle),
        Outcome::Taken(delivery) => push_taken(alloc, out, delivery.get()),
        Outcome::Died => out.extend_from_slice(b"bye\n"),
        Outcome::Reloaded(version) => push_reloaded(out, *version),
        _ => push_word(out, b"ok\n"),
    }
}

#[inline(always)]
#[tactic(auto, unfolding(crate::specs::Replies::answer_text))]
fn push_answer(
    alloc: Global,
    out: &mut Vec<u8>,
    version: u64,
    count: u64,
    answer: &Answer,
) -> Result<(), AllocError>
    ensures { OnOk result (out.new.items
        ≡ out.old.items ++ answer_text version count answer.now ++ codes "\n") }
{
    match answer {
        Answer::Names(names) => push_listing(alloc, out, version, count, names.get()),
        Answer::Version => push_version(out, version, count),
        Answer::Why(line) => push_why(out, version, *line),
    }
}

#[inline(never)]
fn push_granted(out: &mut Vec<u8>, handle: u32) -> Result<(), AllocError>
    ensures { OnOk result (out.new.items ≡ out.old.items ++ numbered (codes "handle ") handle ++ codes "\n") }
{
    push_numbered(out, b"handle ", u64::from(handle))?;
    end_line(out)
}

#[inline(never)]
fn push_connected(out: &mut Vec<u8>, client: u32) -> Result<(), AllocError>
    ensures { OnOk result (out.new.items ≡ out.old.items ++ numbered (codes "client ") client ++ codes "\n") }
{
    push_numbered(out, b"client ", u64::from(client))?;
    end_line(out)
}

#[inline(never)]
fn push_own(out: &mut Vec<u8>, object: u32) -> Result<(), AllocError>
    ensures { OnOk result (out.new.items ≡ out.old.items ++ numbered (codes "own ") object ++ codes "\n") }
{
    push_numbered(out, b"own ", u64::from(object))?;
    end_line(out)
}

#[inline(never)]
fn push_reloaded(out: &mut Vec<u8>, version: u64) -> Result<(), AllocError>
    ensures { OnOk result (out.new.items ≡ out.old.items ++ numbered (codes "reloaded ") version ++ codes "\n") }
{
    push_numbered(out, b"reloaded ", version)?;
    end_line(out)
}

#[inline(never)]
fn push_taken(alloc: Global, out: &mut Vec<u8>, delivery: &Delivery) -> Result<(), AllocError>
    ensures { OnOk result (out.new.items
        ≡ out.old.items ++ message_text delivery.now.object delivery.now.what ++ codes "\n") }
{
    push_delivery(alloc, out, delivery)?;
    end_line(out)
}

#[inline(never)]
fn push_refused(out: &mut Vec<u8>, refusal: &Refusal) -> Result<(), AllocError>
    ensures { OnOk result (out.new.items ≡ out.old.items ++ refusal_text refusal.now ++ codes "\n") }
{
    push_refusal(out, refusal)?;
    end_line(out)
}

#[inline(never)]
#[tactic(auto, unfolding(crate::specs::Replies::sealed_text))]
fn push_sealed(out: &mut Vec<u8>, number: u64, count: u64) -> Result<(), AllocError>
    ensures { OnOk result (out.new.items ≡ out.old.items ++ sealed_text number count ++ codes "\n") }
{
    push_two(out, b"sealed ", number, count)?;
    end_line(out)
}

#[inline(never)]
fn push_version(out: &mut Vec<u8>, version: u64, count: u64) -> Result<(), AllocError>
    ensures { OnOk result (out.new.items
        ≡ out.old.items ++ (numbered (codes "version ") version ++ numbered (codes " ") count) ++ codes "\n") }
{
    push_two(out, b"version ", version, count)?;
    end_line(out)
}

#[inline(always)]
fn end_line(out: &mut Vec<u8>) -> Result<(), AllocError>
    ensures { OnOk result (out.new.items ≡ out.old.items ++ codes "\n") }
{
    out.push(b'\n')?;
    Ok(())
}

// Appends a word and two numbers. Inline, since each word is a constant.
#[inline(always)]
fn push_two(out: &mut Vec<u8>, word: &[u8], first: u64, second: u64) -> Result<(), AllocError>
    ensures { OnOk result (out.new.items
        ≡ out.old.items ++ numbered word.now first ++ numbered (codes " ") second) }
{
    push_numbered(out, word, first)?;
    push_numbered(out, b" ", second)
}

// Appends `names`, the version, the length, the number of names, and the names.
#[inline(never)]
#[tactic(auto, unfolding(crate::specs::Replies::names_text))]
fn push_listing(
    alloc: Global,
    out: &mut Vec<u8>,
    version: u64,
    count: u64,
    names: &NameList,
) -> Result<(), AllocError>
    ensures { OnOk result (out.new.items ≡ out.old.items ++ names_text version count names.now ++ codes "\n") }
{
    push_two(out, b"names ", version, count)?;
    push_numbered(out, b" ", names.len() as u64)?;
    push_names(alloc, out, names)?;
    end_line(out)
}

#[inline(never)]
#[tactic(auto, unfolding(crate::specs::Replies::why_text))]
fn push_why(out: &mut Vec<u8>, version: u64, line: Option<u32>) -> Result<(), AllocError>
    ensures { OnOk result (out.new.items ≡ out.old.items ++ why_text version line ++ codes "\n") }
{
    match line {
        Some(line) => {
            push_numbered(out, b"allowed ", version)?;
            push_numbered(out, b" ", u64::from(line))?;
        }
        None => push_numbered(out, b"unwritten ", version)?,
    }
    end_line(out)
}
