//! Applies accepted changes to tables, by event and outcome.

ghost use Rattle.std.specs.Prelude.{slice_get, ◌≡◌, ◌∷◌, ◌<◌, true, ℕ, List, Some, OnOk};
ghost use Rattle.std.specs.List.{list_all};
ghost use Rattle.sm_values.specs.declared.number.Node.{Node};
ghost use Rattle.sm_history.specs.declared.effect.Watch.{Watch};
ghost use Rattle.sm_history.specs.declared.outcome.Outcome.{Outcome};
ghost use Rattle.sm_history.specs.declared.event.Event.TheVariants.{Open, Connect, Add, Get, Watch as WatchName, Call};
ghost use Rattle.sm_history.specs.declared.event.Event.TheVariants.{Release, Reload};
ghost use Rattle.sm_history.specs.Effects.{Effects};
ghost use Rattle.sm_history.specs.Clients.{is_live};
ghost use Rattle.sm_history.specs.Holdings.{given_to, handed, node_at, resolve_at};
ghost use Rattle.sm_history.specs.Histories.{found as found_in, given_ref, given_refs, handed_ref, handed_refs};
ghost use Rattle.sm_history.specs.Histories.{after_event};
ghost use Rattle.sm_history.specs.Notices.{notice_at, notices_at, after_notice, after_notices};
ghost use Rattle.sm_history.specs.Services.{service_at};
ghost use Rattle.sm_history.specs.Sound.{Sound};
ghost use Rattle.sm_history.specs.Tables.{TracksTables};
ghost use Rattle.sm_history.specs.Entering.{AllFit, IsDone, given_of};

use crate::client_rows::{client_index, held_under};
use crate::named_rows::service_in;
use crate::tables::{
    add, connect, deliver, die, give, open, release, remove, set, take, unwatch, watch,
};
use sm_history::{Delivery, Event, Given, Message, Notice, Outcome, Service, Tables, Told, Watch};
use sm_policy::Prepared;
use sm_values::{ClientId, Identity, Name, Node, ObjRef, Payload, Refs};
use std::alloc::AllocError;

/// Returns the object that was found; an earlier check has made sure that there is one.
fn found(node: Option<Node>) -> Node
    ensures { result ≡ found_in node }
{
    match node {
        Some(node) => node,
        None => Node {
            owner: ClientId(0),
            object: 0,
        },
    }
}

/// Returns the reference in a registration.
fn given_in(delivery: &Delivery) -> Given
    ensures { result ≡ given_of delivery.now }
{
    match &delivery.what {
        Message::Registered { given, .. } => *given,
        Message::Called { .. } => Given::Null,
    }
}

/// Returns the reference at an index.
fn given_at(given: &[Given], i: usize) -> Option<Given>
    ensures { result ≡ slice_get given.now i }
{
    given.get(i).copied()
}

/// Returns the object that a client holds under a number.
fn node_under(tables: &Tables, client: u32, number: u32) -> Option<Node>
    ensures { (d : Effects) → TracksTables d tables.now → is_live d client ≡ true
        → result ≡ node_at d client number }
{
    let i = client_index(&tables.live, client)?;
    let held = held_under(&tables.live[i].held, number)?;
    Some(held.node)
}

/// Returns the object that a client's reference names.
fn resolve(tables: &Tables, client: u32, obj: ObjRef) -> Option<Node>
    ensures { (d : Effects) → TracksTables d tables.now → is_live d client ≡ true
        → result ≡ resolve_at d client obj }
{
    match obj {
        ObjRef::Own(object) => Some(Node {
            owner: ClientId(client),
            object,
        }),
        ObjRef::Handle(number) => node_under(tables, client, number),
        ObjRef::Null => None,
    }
}

fn service(tables: &Tables, name: &[u8]) -> Option<Service>
    ensures { (d : Effects) → TracksTables d tables.now → result ≡ service_at d name.now }
{
    service_in(&tables.names, name)
}

/// Gives an object to a client, as its own or as a handle. Returns an error if an allocation fails.
fn hand(tables: &mut Tables, client: u32, node: Node, given: Given) -> Result<(), AllocError>
    ensures { OnOk result ((d : Effects) → Sound d → TracksTables d tables.old → is_live d client ≡ true
        → given ≡ given_to d client node → AllFit (handed d client node)
        → TracksTables (handed d client node) tables.new) }
{
    if let Given::Handle(number) = given {
        give(tables, client, node, number)?;
    }
    Ok(())
}

/// Notifies a watcher if its notice says so. Returns an error if an allocation fails.
fn tell(tables: &mut Tables, node: Node, notice: &Notice) -> Result<(), AllocError>
    ensures { OnOk result ((d : Effects) (w : Watch) → Sound d → TracksTables d tables.old
        → is_live d w.client ≡ true → notice.now ≡ notice_at d node w → AllFit (after_notice d node w)
        → TracksTables (after_notice d node w) tables.new) }
{
    if let Told::Told(delivery) = &notice.result {
        let client = notice.client.0;
        hand(tables, client, node, given_in(delivery.get()))?;
        deliver(tables, client, delivery.clone()?)?;
    }
    Ok(())
}

/// Notifies watchers in order, where their notices say so. Returns an error if an allocation fails.
fn tell_all(tables: &mut Tables, node: Node, notices: &[Notice]) -> Result<(), AllocError>
    ensures { OnOk result ((d : Effects) (ws : List Watch) → Sound d → TracksTables d tables.old
        → list_all (λ w. is_live d w.client) ws ≡ true → notices.now ≡ notices_at d node ws
        → AllFit (after_notices d node ws) → TracksTables (after_notices d node ws) tables.new) }
{
    for notice in notices {
        tell(tables, node, notice)?;
    }
    Ok(())
}

/// Gives a reference to a client. Returns an error if an allocation fails.
fn hand_one(
    tables: &mut Tables,
    from: u32,
    to: u32,
    obj: ObjRef,
    given: Option<Given>,
) -> Result<(), AllocError>
    ensures { OnOk result ((d : Effects) → Sound d → TracksTables d tables.old → is_live d from ≡ true
        → is_live d to ≡ true → given ≡ Some (given_ref d to (resolve_at d from obj))
        → AllFit (handed_ref d to (resolve_at d from obj))
        → TracksTables (handed_ref d to (resolve_at d from obj)) tables.new) }
{
    let Some(given) = given else {
        return Ok(());
    };
    let Some(node) = resolve(tables, from, obj) else {
        return Ok(());
    };
    hand(tables, to, node, given)?;
    Ok(())
}

/// Gives references to a client in order. Returns an error if an allocation fails.
fn hand_all(
    tables: &mut Tables,
    from: u32,
    to: u32,
    refs: &[ObjRef],
    given: &[Given],
) -> Result<(), AllocError>
    ensures { OnOk result ((d : Effects) → Sound d → TracksTables d tables.old → is_live d from ≡ true
        → is_live d to ≡ true → given.now ≡ given_refs d from to refs.now
        → AllFit (handed_refs d from to refs.now)
        → TracksTables (handed_refs d from to refs.now) tables.new) }
{
    for (i, obj) in refs.iter().enumerate() {
        hand_one(tables, from, to, *obj, given_at(given, i))?;
    }
    Ok(())
}

fn enter_open(
    tables: &mut Tables,
    client: u32,
    who: &Identity,
    policy: &Prepared,
) -> Result<(), AllocError>
    ensures { OnOk result ((d : Effects) (o : Outcome) → Sound d → TracksTables d tables.old
        → IsDone d client (Open who.now policy.now) o
        → TracksTables (after_event d client (Open who.now policy.now)) tables.new) }
{
    let who = who.clone()?;
    open(tables, who, policy.share()?);
    Ok(())
}

fn enter_connect(
    tables: &mut Tables,
    client: u32,
    who: &Identity,
    outcome: &Outcome,
) -> Result<(), AllocError>
    ensures { OnOk result ((d : Effects) → Sound d → TracksTables d tables.old
        → IsDone d client (Connect who.now) outcome.now
        → TracksTables (after_event d client (Connect who.now)) tables.new) }
{
    let Outcome::Connected(id) = outcome else {
        return Ok(());
    };
    connect(tables, id.0, who.clone()?)?;
    Ok(())
}

fn enter_add(
    tables: &mut Tables,
    client: u32,
    name: &Name,
    obj: ObjRef,
    allow_isolated: bool,
    dump: u32,
    outcome: &Outcome,
) -> Result<(), AllocError>
    ensures { OnOk result ((d : Effects) → Sound d → TracksTables d tables.old
        → IsDone d client (Add name.now obj allow_isolated dump) outcome.now
        → TracksTables (after_event d client (Add name.now obj allow_isolated dump)) tables.new) }
{
    let Outcome::Added(notices) = outcome else {
        return Ok(());
    };
    let node = found(resolve(tables, client, obj));
    let service = Service {
        node,
        adder: client,
        allow_isolated,
        dump,
    };
    add(tables, name.clone()?, service)?;
    tell_all(tables, node, notices.list())?;
    Ok(())
}

fn enter_get(
    tables: &mut Tables,
    client: u32,
    name: &Name,
    outcome: &Outcome,
) -> Result<(), AllocError>
    ensures { OnOk result ((d : Effects) → Sound d → TracksTables d tables.old
        → IsDone d client (Get name.now) outcome.now
        → TracksTables (after_event d client (Get name.now)) tables.new) }
{
    let Outcome::Granted(number) = outcome else {
        return Ok(());
    };
    let Some(service) = service(tables, name.bytes()) else {
        return Ok(());
    };
    if service.node.owner.0 == client {
        return Ok(());
    }
    give(tables, client, service.node, *number)?;
    Ok(())
}

fn enter_watch(
    tables: &mut Tables,
    client: u32,
    name: &Name,
    object: u32,
    outcome: &Outcome,
) -> Result<(), AllocError>
    ensures { OnOk result ((d : Effects) → Sound d → TracksTables d tables.old
        → IsDone d client (WatchName name.now object) outcome.now
        → TracksTables (after_event d client (WatchName name.now object)) tables.new) }
{
    let Outcome::Watched(told) = outcome else {
        return Ok(());
    };
    let service = service(tables, name.bytes());
    watch(
        tables,
        Watch {
            client,
            name: name.clone()?,
            object,
        },
    )?;
    let Some(service) = service else {
        return Ok(());
    };
    let Some(notice) = told else {
        return Ok(());
    };
    tell(tables, service.node, notice.get())?;
    Ok(())
}

fn enter_call(
    tables: &mut Tables,
    client: u32,
    handle: u32,
    payload: &Payload,
    refs: &Refs,
    outcome: &Outcome,
) -> Result<(), AllocError>
    ensures { OnOk result ((d : Effects) → Sound d → TracksTables d tables.old
        → IsDone d client (Call handle payload.now refs.now) outcome.now
        → TracksTables (after_event d client (Call handle payload.now refs.now)) tables.new) }
{
    let Outcome::Sent(sent) = outcome else {
        return Ok(());
    };
    let Message::Called { refs: given, .. } = &sent.get().what else {
        return Ok(());
    };
    let to = found(node_under(tables, client, handle)).owner.0;
    hand_all(tables, client, to, refs.list(), given.list())?;
    deliver(tables, to, sent.clone()?)?;
    Ok(())
}

fn enter_release(tables: &mut Tables, client: u32, handle: u32) -> Result<(), AllocError>
    ensures { OnOk result ((d : Effects) (o : Outcome) → Sound d → TracksTables d tables.old
        → IsDone d client (Release handle) o → TracksTables (after_event d client (Release handle)) tables.new) }
{
    release(tables, client, handle)?;
    Ok(())
}

fn enter_reload(
    tables: &mut Tables,
    client: u32,
    expected: u64,
    policy: &Prepared,
) -> Result<(), AllocError>
    ensures { OnOk result ((d : Effects) (o : Outcome) → Sound d → TracksTables d tables.old
        → IsDone d client (Reload expected policy.now) o
        → TracksTables (after_event d client (Reload expected policy.now)) tables.new) }
{
    set(tables, policy.share()?);
    Ok(())
}

/// Applies an event that was done. Returns an error if an allocation fails.
pub fn enter(
    tables: &mut Tables,
    client: u32,
    event: &Event,
    outcome: &Outcome,
) -> Result<(), AllocError>
    ensures { OnOk result ((d : Effects) → Sound d → TracksTables d tables.old
        → IsDone d client event.now outcome.now
        → TracksTables (after_event d client event.now) tables.new) }
{
    match event {
        Event::Open(who, policy) => enter_open(tables, client, who, policy)?,
        Event::Connect(who) => enter_connect(tables, client, who, outcome)?,
        Event::Add {
            name,
            obj,
            allow_isolated,
            dump,
        } => enter_add(tables, client, name, *obj, *allow_isolated, *dump, outcome)?,
        Event::Get { name } => enter_get(tables, client, name, outcome)?,
        Event::Watch { name, object } => enter_watch(tables, client, name, *object, outcome)?,
        Event::Unwatch { name, object } => unwatch(tables, client, name.bytes(), *object),
        Event::Unregister { name, .. } => remove(tables, name.bytes()),
        Event::Call {
            handle,
            payload,
            refs,
        } => enter_call(tables, client, *handle, payload, refs, outcome)?,
        Event::Release { handle } => enter_release(tables, client, *handle)?,
        Event::Take => take(tables, client),
        Event::Die => die(tables, client),
        Event::Reload { expected, prepared } => enter_reload(tables, client, *expected, prepared)?,
    }
    Ok(())
}
