//! The rule that each step of a registry keeps.

use logbook::{Gain, Plain, Play, Rule};
use sm_history::Entry;
use std::marker::{Model, PhantomData};
use std::snapshot::Snapshot;

/// The entry of a registry, in proofs only: a book. No value of it is made.
pub struct Registered {
    places: u32,
    entries: Snapshot<Vec<Entry>>,
}

impl Model for Registered {
    ghost use Rattle.sm_history.specs.Books.{Book};
    ghost use Rattle.sm_history.specs.Histories.{whole};

    ghost Value = { Book };

    ghost view = { λ n. record { places = n.places; history = whole n.entries.value.items } };
}

/// Says which book values of type `V` show. It is implemented for a type without values, so a crate may implement it
/// for a type of another crate.
pub trait Shows<V> {
    ghost use Rattle.sm_history.specs.Books.{Book};

    ghost book: { V → Book };
}

/// The rule of a registry.
pub struct Law;

impl Rule<Registered, u64> for Law {
    ghost use Rattle.std.specs.Prelude.{[]};
    ghost use base.Fml.{ftrue};
    ghost use Rattle.sm_door.specs.Registries.{IsKept};

    ghost holds = { λ cells log. IsKept cells log };

    ghost first = { [] };

    ghost hinted = { λ n log. Unit {0} };

    ghost shows = { λ log. [] };

    ghost keeps = { λ names log. ftrue };

    ghost moves = { λ ask before after answer. Unit {0} };
}

/// Callers exchange nothing.
pub struct Nothing;

impl Gain<Registered, u64> for Nothing {
    ghost use base.Fml.{ftrue};

    ghost after = { λ names about answer. ftrue };
}

/// A step that records a book.
pub struct Add;

impl Play<Registered, u64> for Add {
    ghost use Rattle.sm_door.specs.Registries.{Adds};

    ghost then = { Adds };
}

/// The argument of such a step: the book that a value shows.
pub struct Asks<M> {
    of: PhantomData<M>,
}

impl<V, M: Shows<V>> Plain<V, Registered, u64> for Asks<M> {
    ghost use Rattle.std.specs.Prelude.{None};

    ghost ask = { λ value. M.book value };

    ghost state = { λ value. None };
}
