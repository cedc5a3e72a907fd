//! Changes of a live client's row.

ghost use Rattle.std.specs.Prelude.{◌≡◌, ◌==◌, None, position, MatchOption, OnOk};
ghost use Rattle.sm_history.specs.Tables.{slot, IsPut, released_slot, client_row_of, IsPlace};
ghost use Rattle.sm_replay.specs.Replaying.{given_slot};

use sm_history::{ClientRow, Held};
use sm_values::Node;
use std::alloc::AllocError;

/// Returns what is held under a number.
pub fn held_under(slots: &[Option<Held>], number: u32) -> Option<Held>
    ensures { result ≡ slot slots.now number }
{
    slots.get(number as usize).copied().flatten()
}

/// What is held after one more grant of an object.
fn given(node: Node, old: Option<Held>) -> Option<Held>
    ensures { result ≡ given_slot node old }
{
    match old {
        None => Some(Held { node, count: 1 }),
        Some(held) => Some(Held {
            node: held.node,
            count: held.count.saturating_add(1),
        }),
    }
}

/// What is held after a release of one grant.
fn released(old: Option<Held>) -> Option<Held>
    ensures { result ≡ released_slot old }
{
    match old {
        None => None,
        Some(held) => {
            if held.count <= 1 {
                None
            } else {
                Some(Held {
                    node: held.node,
                    count: held.count - 1,
                })
            }
        }
    }
}

/// Replaces what is held under a number. Returns an error if an allocation fails.
fn put(slots: &mut Vec<Option<Held>>, number: u32, held: Option<Held>) -> Result<(), AllocError>
    ensures { OnOk result (IsPut slots.old.items slots.new.items number held) }
{
    let place = number as usize;
    for i in slots.len()..place + 1 {
        slots.push(None)?;
    }
    slots[place] = held;
    Ok(())
}

fn first_of(rows: &[ClientRow], client: u32) -> Option<usize>
    ensures { result ≡ position (λ r. r.client == client) rows.now }
{
    rows.iter().position(|row| row.client == client)
}

/// Returns the index of a client's row.
pub fn client_index(rows: &[ClientRow], client: u32) -> Option<usize>
    ensures { MatchOption result (client_row_of rows.now client ≡ None) (IsPlace (λ r. r.client) rows.now client) }
{
    first_of(rows, client)
}

/// Grants an object once more, under a number. Returns an error if an allocation fails.
pub fn give(row: &mut ClientRow, node: Node, number: u32) -> Result<(), AllocError>
    ensures held { OnOk result (IsPut row.old.held.items row.new.held.items number
        (given_slot node (slot row.old.held.items number))) }
    ensures client { row.new.client ≡ row.old.client }
    ensures who { row.new.who ≡ row.old.who }
    ensures waiting { row.new.waiting ≡ row.old.waiting }
{
    let held = held_under(&row.held, number);
    put(&mut row.held, number, given(node, held))
}

/// Releases one grant of what is held under a number. Returns an error if an allocation fails.
pub fn release(row: &mut ClientRow, number: u32) -> Result<(), AllocError>
    ensures held { OnOk result (IsPut row.old.held.items row.new.held.items number
        (released_slot (slot row.old.held.items number))) }
    ensures client { row.new.client ≡ row.old.client }
    ensures who { row.new.who ≡ row.old.who }
    ensures waiting { row.new.waiting ≡ row.old.waiting }
{
    let held = held_under(&row.held, number);
    put(&mut row.held, number, released(held))
}
