//! The memory that journal entries own, in bytes. Each number is an upper bound, with what an allocator adds; of a
//! policy it is an estimate.

ghost use Rattle.std.specs.Prelude.{◌≡◌};
ghost use Rattle.sm_connection.specs.Owned as spec;

use crate::command::Command;
use sm_history::{Delivery, Denial, Event, Message, Notice, Notices, Outcome, Reason, Told};
use sm_policy::Prepared;
use sm_wire::Request;

/// An entry in its chunk.
pub const ENTRY: u64 = 112;

/// A shared text without its bytes: its counts and its address in one block of memory, and the header of the other.
pub const TEXT: u64 = 80;

/// A delivery behind a shared pointer, without its texts.
pub const DELIVERY: u64 = 128;

/// A list without its elements: its counts, its address and the room of a list of one.
pub const LIST: u64 = 192;

/// A reference in a list that has room for twice as many.
pub const REFERENCE: u64 = 16;

/// A notice in a list or behind a shared pointer, and the reason why a watcher was not notified, without its texts.
pub const NOTICE: u64 = 128;

/// The row of a client among the numbers of changes, which stays until the next seal.
pub const TURNS: u64 = 64;

/// A rule of a policy, without the sets of its types.
pub const RULE: u64 = 128;

/// A key of a contexts file with its context.
pub const LABEL: u64 = 512;

fn text_bytes(text: &[u8]) -> u64
    ensures { result ≡ spec.text_bytes text.now }
{
    (text.len() as u64).saturating_add(TEXT)
}

fn reference_bytes<T>(refs: &[T]) -> u64
    ensures { result ≡ spec.reference_bytes refs.now }
{
    (refs.len() as u64)
        .saturating_mul(REFERENCE)
        .saturating_add(LIST)
}

fn message_bytes(message: &Message) -> u64
    ensures { result ≡ spec.message_bytes message.now }
{
    match message {
        Message::Called {
            pid: _,
            uid: _,
            payload,
            refs,
        } => text_bytes(payload.bytes()).saturating_add(reference_bytes(refs.list())),
        Message::Registered { name, given: _ } => text_bytes(name.bytes()),
    }
}

fn delivery_bytes(delivery: &Delivery) -> u64
    ensures { result ≡ spec.delivery_bytes delivery.now }
{
    message_bytes(&delivery.what).saturating_add(DELIVERY)
}

fn denial_bytes(denial: &Denial) -> u64
    ensures { result ≡ spec.denial_bytes denial.now }
{
    match denial {
        Denial::Rule {
            source,
            target,
            class: _,
            perm: _,
        } => text_bytes(source.bytes()).saturating_add(text_bytes(target.bytes())),
        Denial::App(_) => 0,
        Denial::Isolated(_) => 0,
    }
}

fn reason_bytes(reason: &Reason) -> u64
    ensures { result ≡ spec.reason_bytes reason.now }
{
    match reason {
        Reason::Denied(denial) => denial_bytes(denial.get()),
        Reason::TargetFull => 0,
    }
}

fn told_bytes(told: &Told) -> u64
    ensures { result ≡ spec.told_bytes told.now }
{
    match told {
        Told::Told(delivery) => delivery_bytes(delivery.get()),
        Told::NotTold(reason) => reason_bytes(reason.get()),
    }
}

fn notice_bytes(notice: &Notice) -> u64
    ensures { result ≡ spec.notice_bytes notice.now }
{
    told_bytes(&notice.result).saturating_add(NOTICE)
}

#[tactic(auto, using(std::proofs::lemmas::List::Sums::fold_more))]
fn with_notices(bytes: u64, notices: &[Notice]) -> u64
    ensures { result ≡ spec.with_notices bytes notices.now }
{
    let mut sum = bytes;
    for notice in notices {
        sum = sum.saturating_add(notice_bytes(notice));
    }
    sum
}

fn notices_bytes(notices: &Notices) -> u64
    ensures { result ≡ spec.notices_bytes notices.now }
{
    let list = notices.list();
    if list.is_empty() {
        return 0;
    }
    with_notices(LIST, list)
}

fn policy_bytes(policy: &Prepared) -> u64
    ensures { result ≡ spec.policy_bytes policy.now }
{
    let counts = policy.counts();
    let types = u64::from(counts.types);
    let rule = (types / 4).saturating_add(RULE);
    let rules = u64::from(counts.rules).saturating_mul(rule);
    let labels = u64::from(counts.labels).saturating_mul(LABEL);
    types
        .saturating_mul(types)
        .saturating_add(rules)
        .saturating_add(labels)
}

fn event_bytes(event: &Event) -> u64
    ensures { result ≡ spec.event_bytes event.now }
{
    match event {
        Event::Open(who, policy) => {
            text_bytes(who.context.text()).saturating_add(policy_bytes(policy))
        }
        Event::Connect(who) => text_bytes(who.context.text()),
        Event::Add {
            name,
            obj: _,
            allow_isolated: _,
            dump: _,
        } => text_bytes(name.bytes()),
        Event::Get { name } => text_bytes(name.bytes()),
        Event::Watch { name, object: _ } => text_bytes(name.bytes()),
        Event::Unwatch { name, object: _ } => text_bytes(name.bytes()),
        Event::Unregister { name, obj: _ } => text_bytes(name.bytes()),
        Event::Call {
            handle: _,
            payload,
            refs,
        } => text_bytes(payload.bytes()).saturating_add(reference_bytes(refs.list())),
        Event::Release { handle: _ } => 0,
        Event::Take => 0,
        Event::Die => 0,
        Event::Reload {
            expected: _,
            prepared,
        } => policy_bytes(prepared),
    }
}

/// Returns the bytes of an accepted change's outcome.
pub fn outcome_bytes(outcome: &Outcome) -> u64
    ensures { result ≡ spec.outcome_bytes outcome.now }
{
    match outcome {
        Outcome::Connected(_) => TURNS,
        Outcome::Added(notices) => notices_bytes(notices),
        Outcome::Watched(Some(notice)) => notice_bytes(notice.get()),
        Outcome::Sent(delivery) => delivery_bytes(delivery.get()),
        Outcome::Taken(delivery) => delivery_bytes(delivery.get()),
        _ => 0,
    }
}

/// Returns the bytes of the entry that a command makes if it is accepted, without those of the outcome. A command that
/// makes no change has none.
pub fn command_bytes(command: &Command) -> u64
    ensures { result ≡ spec.command_bytes command.now }
{
    match command {
        Command::Hello(who) => text_bytes(who.context.text()).saturating_add(ENTRY),
        Command::Line(Request::Change(_, event)) => event_bytes(event).saturating_add(ENTRY),
        Command::Line(_) => 0,
        Command::Install {
            expected: _,
            prepared,
        } => policy_bytes(prepared).saturating_add(ENTRY),
        Command::Death => ENTRY,
    }
}
