//! Answers requests with a manager, at the turns of their actors. The words of a reply are appended to one text, the
//! lines of its records to another.

ghost use Rattle.std.specs.Prelude.{◌≡◌, ◌⊎◌, ◌++◌, true, List, OnOk, OnErr, codes};
ghost use Rattle.sm_history.specs.declared.by.By.TheVariants.{Admin, Manager as ByManager};
ghost use Rattle.sm_history.specs.declared.event.Event.TheVariants.{Connect, Reload};
ghost use Rattle.sm_history.specs.declared.query.Query.TheVariants.{Version};
ghost use Rattle.sm_history.specs.declared.records.Record.{Record};
ghost use Rattle.sm_history.specs.declared.refusal.Refusal.TheVariants.{Memory};
ghost use Rattle.sm_history.specs.declared.reply.Reply.{Reply};
ghost use Rattle.sm_history.specs.declared.reply.Reply.TheVariants.{Refused};
ghost use Rattle.sm_wire.specs.declared.telling.Telling.TheVariants.{Whole};
ghost use Rattle.sm_wire.specs.Replies.{denials_text, told_text};
ghost use Rattle.sm_script.specs.Answering.{AnswersNow, AnswersQuery, SealsNow, Told, asker_of, recorded};
ghost use Rattle.sm_script.specs.Answering.{the_administrator};

use sm_audit::push_lines;
use sm_core::Manager;
use sm_history::{Answer, By, Event, Query, Record, Refusal, Reply};
use sm_policy::Prepared;
use sm_values::{AdminId, ClientId, Identity};
use sm_wire::{Telling, push_denials, push_malformed, push_reply};
use std::alloc::{AllocError, Global};

/// The administrator of a script.
const ADMINISTRATOR: AdminId = AdminId(1);

/// Connects a process.
#[inline(never)]
pub fn answer_hello(
    alloc: Global,
    manager: &mut Manager,
    who: Identity,
    replies: &mut Vec<u8>,
    audit: &mut Vec<u8>,
) -> Result<(), AllocError>
    ensures ok { OnOk result ((reply : Reply) × (noted : List Record)
        × AnswersNow (recorded manager.old) ByManager (Connect who) reply noted (recorded manager.new)
        × Told Whole reply noted replies.old.items replies.new.items audit.old.items audit.new.items) }
    ensures err { OnErr result ((reply : Reply) × (noted : List Record)
        × AnswersNow (recorded manager.old) ByManager (Connect who) reply noted (recorded manager.new)) }
{
    let event = Event::Connect(who);
    answer_event(
        alloc,
        manager,
        By::Manager,
        event,
        Telling::Whole,
        replies,
        audit,
    )
}

/// Replaces the policy.
#[inline(never)]
pub fn answer_prepared(
    alloc: Global,
    manager: &mut Manager,
    expected: u64,
    policy: Prepared,
    replies: &mut Vec<u8>,
    audit: &mut Vec<u8>,
) -> Result<(), AllocError>
    ensures ok { OnOk result ((reply : Reply) × (noted : List Record)
        × AnswersNow (recorded manager.old) (Admin the_administrator) (Reload expected policy) reply noted
        (recorded manager.new)
        × Told Whole reply noted replies.old.items replies.new.items audit.old.items audit.new.items) }
    ensures err { OnErr result ((reply : Reply) × (noted : List Record)
        × AnswersNow (recorded manager.old) (Admin the_administrator) (Reload expected policy) reply noted
        (recorded manager.new)) }
{
    let by = By::Admin(ADMINISTRATOR);
    let prepared = policy;
    let event = Event::Reload { expected, prepared };
    answer_event(alloc, manager, by, event, Telling::Whole, replies, audit)
}

/// Makes an actor's event, at the actor's turn, and answers with the visible part of the reply.
#[inline(never)]
pub fn answer_event(
    alloc: Global,
    manager: &mut Manager,
    by: By,
    event: Event,
    telling: Telling,
    replies: &mut Vec<u8>,
    audit: &mut Vec<u8>,
) -> Result<(), AllocError>
    ensures ok { OnOk result ((reply : Reply) × (noted : List Record)
        × AnswersNow (recorded manager.old) by event reply noted (recorded manager.new)
        × Told telling reply noted replies.old.items replies.new.items audit.old.items audit.new.items) }
    ensures err { OnErr result ((reply : Reply) × (noted : List Record)
        × AnswersNow (recorded manager.old) by event reply noted (recorded manager.new)) }
{
    let (reply, records) = step(manager, by, event);
    let told = tell(alloc, telling, &reply, &records, replies, audit);
    let_go(reply, records);
    told
}

/// Answers a query of a client, or of the administrator if no client is named.
#[inline(never)]
pub fn answer_query(
    alloc: Global,
    manager: &Manager,
    client: Option<ClientId>,
    query: Query,
    replies: &mut Vec<u8>,
    audit: &mut Vec<u8>,
) -> Result<(), AllocError>
    ensures ok { OnOk result ((reply : Reply) × (noted : List Record)
        × AnswersQuery (recorded manager.now) (asker_of client) query reply noted (recorded manager.now)
        × Told Whole reply noted replies.old.items replies.new.items audit.old.items audit.new.items) }
    ensures err { OnErr result ((reply : Reply) × (noted : List Record)
        × AnswersQuery (recorded manager.now) (asker_of client) query reply noted (recorded manager.now)) }
{
    match &query {
        Query::Version => answer_version(alloc, manager, client, replies, audit),
        _ => answer_look(alloc, manager, client, query, replies, audit),
    }
}

// Answers a `version`. No records and no tables of a query are needed, unless it is refused.
#[inline(always)]
fn answer_version(
    alloc: Global,
    manager: &Manager,
    client: Option<ClientId>,
    replies: &mut Vec<u8>,
    audit: &mut Vec<u8>,
) -> Result<(), AllocError>
    ensures ok { OnOk result ((reply : Reply) × (noted : List Record)
        × AnswersQuery (recorded manager.now) (asker_of client) Version reply noted (recorded manager.now)
        × Told Whole reply noted replies.old.items replies.new.items audit.old.items audit.new.items) }
    ensures err { OnErr result ((reply : Reply) × (noted : List Record)
        × AnswersQuery (recorded manager.now) (asker_of client) Version reply noted (recorded manager.now)) }
{
    let Some((version, length)) = manager.version_seen(asker(client)) else {
        return answer_look(alloc, manager, client, Query::Version, replies, audit);
    };
    let answer = Answer::Version;
    let reply = Reply::Looked {
        version,
        length,
        answer,
    };
    push_reply(alloc, replies, Telling::Whole, &reply)
}

// Answers a query from the manager's tables.
#[inline(never)]
fn answer_look(
    alloc: Global,
    manager: &Manager,
    client: Option<ClientId>,
    query: Query,
    replies: &mut Vec<u8>,
    audit: &mut Vec<u8>,
) -> Result<(), AllocError>
    ensures ok { OnOk result ((reply : Reply) × (noted : List Record)
        × AnswersQuery (recorded manager.now) (asker_of client) query reply noted (recorded manager.now)
        × Told Whole reply noted replies.old.items replies.new.items audit.old.items audit.new.items) }
    ensures err { OnErr result ((reply : Reply) × (noted : List Record)
        × AnswersQuery (recorded manager.now) (asker_of client) query reply noted (recorded manager.now)) }
{
    let (reply, records) = look(manager, asker(client), query);
    let told = tell(alloc, Telling::Whole, &reply, &records, replies, audit);
    let_go(reply, records);
    told
}

// Makes an actor's event, at the actor's turn.
fn step(manager: &mut Manager, by: By, event: Event) -> (Reply, Vec<Record>)
    ensures { AnswersNow (recorded manager.old) by event result.0 result.1.items (recorded manager.new) }
{
    let turn = manager.turn(by);
    manager.step(by, turn, event)
}

fn look(manager: &Manager, by: By, query: Query) -> (Reply, Vec<Record>)
    ensures { AnswersQuery (recorded manager.now) by query result.0 result.1.items (recorded manager.now) }
{
    manager.look_recorded(by, query)
}

// Returns who asks.
fn asker(client: Option<ClientId>) -> By
    ensures { result ≡ asker_of client }
{
    match client {
        Some(client) => By::Client(client),
        None => By::Admin(ADMINISTRATOR),
    }
}

/// Answers with the last denials.
#[inline(never)]
pub fn answer_denials(
    alloc: Global,
    manager: &Manager,
    replies: &mut Vec<u8>,
) -> Result<(), AllocError>
    ensures { OnOk result ((replies.new.items ≡ replies.old.items ++ denials_text manager.now.ring)
        ⊎ (replies.new.items ≡ replies.old.items ++ told_text (Refused Memory))) }
{
    match manager.records() {
        Ok(records) => push_denials(alloc, replies, &records),
        Err(_) => push_reply(
            alloc,
            replies,
            Telling::Whole,
            &Reply::Refused(Refusal::Memory),
        ),
    }
}

/// Closes the open segment, and drops it.
#[inline(never)]
pub fn answer_seal(
    alloc: Global,
    manager: &mut Manager,
    replies: &mut Vec<u8>,
) -> Result<(), AllocError>
    ensures ok { OnOk result ((reply : Reply) × SealsNow (recorded manager.old) reply (recorded manager.new)
        × (replies.new.items ≡ replies.old.items ++ told_text reply)) }
    ensures err { OnErr result ((reply : Reply) × SealsNow (recorded manager.old) reply (recorded manager.new)) }
{
    let reply = seal(manager);
    push_reply(alloc, replies, Telling::Whole, &reply)
}

// Closes the open segment, and drops it.
fn seal(manager: &mut Manager) -> Reply
    ensures { SealsNow (recorded manager.old) result (recorded manager.new) }
{
    match manager.seal() {
        Ok(segment) => Reply::Sealed {
            number: segment.number(),
            length: segment.history_length(),
        },
        Err(refusal) => Reply::Refused(refusal),
    }
}

/// Answers a change without a client, which no line of a script spells.
#[cold]
#[inline(never)]
pub fn answer_nobody(_event: Event, replies: &mut Vec<u8>) -> Result<(), AllocError>
    ensures { OnOk result (replies.new.items ≡ replies.old.items ++ codes "malformed\n") }
{
    answer_unasked(replies)
}

/// Answers a request that no line of a script spells.
#[cold]
#[inline(never)]
pub fn answer_unasked(replies: &mut Vec<u8>) -> Result<(), AllocError>
    ensures { OnOk result (replies.new.items ≡ replies.old.items ++ codes "malformed\n") }
{
    push_malformed(replies)
}

// Appends the visible part of a reply, and the lines of its records.
fn tell(
    alloc: Global,
    telling: Telling,
    reply: &Reply,
    records: &[Record],
    replies: &mut Vec<u8>,
    audit: &mut Vec<u8>,
) -> Result<(), AllocError>
    ensures { OnOk result
        (Told telling reply.now records.now replies.old.items replies.new.items audit.old.items audit.new.items) }
{
    push_reply(alloc, replies, telling, reply)?;
    if records.is_empty() {
        return Ok(());
    }
    push_lines(alloc, audit, records)
}

// Drops a reply and its records: one step for a caller's proof, where their drops would each add cases.
#[inline(always)]
fn let_go(_reply: Reply, _records: Vec<Record>) {}
