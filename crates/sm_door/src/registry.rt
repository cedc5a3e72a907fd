//! Registries and ids of histories.

ghost use Rattle.std.specs.Prelude.{◌≡◌, ◌+◌, ◌<◌, ◌^◌, [], length, IfSome, IsTrue};
ghost use Rattle.sm_door.specs.Registries.{head_of};

use crate::registry_rule::{Add, Asks, Law, Nothing, Registered, Shows};
use logbook::{Offer, Seen, Start, Word};
use sm_values::drop_fields;
use std::marker::{Brand, Model, PhantomData};
use std::sync::Wait;

/// Names a registry, and the book that it begins with. A program picks both at the one call that makes a door, so ids
/// of different registries have different types.
pub trait Naming {
    ghost use Rattle.logbook.specs.Pages.{Book as Log};
    ghost use Rattle.sm_history.specs.Books.{Book};

    ghost registry: { Log };

    ghost opening: { Book };
}

impl Naming for Brand {
    ghost use Rattle.sm_door.specs.Registries.{blank_book};

    ghost registry = { record { number = 0; log_name = 0; cells_name = 0 } };

    ghost opening = { blank_book };
}

/// An empty registry without a name. A name can be picked only for a registry that exists.
#[derive(Drop)]
pub struct UnnamedRegistry {
    head: Word<Registered, u64, Law>,
    pub seen: Seen<Registered, u64, Law>,
    pub ghost empty: { seen.log ≡ [] },
    pub ghost head_is: { head ≡ head_of seen.book },
}

impl UnnamedRegistry {
    /// Makes a registry.
    pub fn new() -> UnnamedRegistry {
        let (seen, mut first, _second) = Seen::open(Start::alone(), 0, 0);
        UnnamedRegistry {
            head: Word::tracked(0, &mut first),
            seen,
        }
    }

    /// Names the registry.
    pub fn named<J: Naming>(self) -> Registry<J>
        requires { self.seen.book ≡ J.registry }
        ensures { result ≡ [] }
    {
        let UnnamedRegistry { head, seen } = self;
        Registry {
            head,
            count: 0,
            seen,
            of: PhantomData,
        }
    }
}

/// A registry. Contracts see the recorded books, as far as this thread has seen them.
pub struct Registry<J: Naming> {
    head: Word<Registered, u64, Law>,
    count: u64,
    seen: Seen<Registered, u64, Law>,
    of: PhantomData<J>,
}

impl<J: Naming> Drop for Registry<J> {
    fn drop(self) {
        drop_fields!(self: head, count, seen, of);
    }
}

impl<J: Naming> Model for Registry<J> {
    ghost use Rattle.std.specs.Prelude.{◌≡◌, List, length};
    ghost use Rattle.sm_history.specs.Books.{Book};
    ghost use Rattle.sm_door.specs.Registries.{head_of};

    ghost Value = { List Book };

    ghost view = { λ r. r.seen.log };

    ghost invariant = { λ r. (r.head ≡ head_of J.registry) × (r.count ≡ length r.seen.log)
        × (r.seen.book ≡ J.registry) };
}

/// The number of a history. Contracts see that history's book.
pub struct HistoryId<J: Naming> {
    number: u64,
    seen: Seen<Registered, u64, Law>,
    of: PhantomData<J>,
}

impl<J: Naming> Drop for HistoryId<J> {
    fn drop(self) {
        drop_fields!(self: number, seen, of);
    }
}

impl<J: Naming> Model for HistoryId<J> {
    ghost use Rattle.std.specs.Prelude.{◌≡◌, ◌<◌, length};
    ghost use Rattle.sm_history.specs.Books.{Book};
    ghost use Rattle.sm_door.specs.Registries.{registered};

    ghost Value = { Book };

    ghost view = { λ b. registered b.seen.log b.number };

    ghost invariant = { λ b. (b.number < length b.seen.log) × (b.seen.book ≡ J.registry) };
}

impl<J: Naming> HistoryId<J> {
    /// Copies the id; the copy denotes the same history.
    pub fn again(&self) -> HistoryId<J>
        ensures { result ≡ self.now }
    {
        HistoryId {
            number: self.number,
            seen: self.seen.again(),
            of: PhantomData,
        }
    }

    /// Returns whether the other id has the same number. Then both denote the same history: of the two prefixes of
    /// the registry that they have seen, the longer one has one book at that number.
    pub fn is(&self, other: &HistoryId<J>) -> bool
        ensures { IsTrue result → self.now ≡ other.now }
    {
        let mut both = self.seen.again();
        both.learn(&other.seen);
        self.number == other.number
    }
}

impl<J: Naming> Registry<J> {
    /// Records the book that a value shows at the next number, and returns that number's id. It tries again if
    /// another thread was faster. Returns `None` once all 2^64 - 1 numbers are used.
    pub fn add<V, M: Shows<V>, R: Wait>(&mut self, rt: &R, value: &V) -> Option<HistoryId<J>>
        ensures { IfSome result (λ b. b ≡ M.book value.now) }
    {
        for _ in rt.forever() {
            if self.count == u64::MAX {
                return None;
            }
            if let Some(history_id) = self.try_add::<V, M>(value) {
                return Some(history_id);
            }
        }
        unreachable!()
    }

    /// Tries once. At `None` other books were recorded than this thread had seen; it has seen them now.
    fn try_add<V, M: Shows<V>>(&mut self, value: &V) -> Option<HistoryId<J>>
        requires { length self.old + 1 < 2 ^ 64 }
        ensures { IfSome result (λ b. b ≡ M.book value.now) }
    {
        let mut offer: Offer<Registered, u64, Law, Nothing> = self
            .seen
            .plain::<Nothing, V, Asks<M>>(value);
        let mut pen = self.seen.no_pen();
        let count = self.count;
        let found = self
            .head
            .compare_exchange::<Add, Nothing>(
                count,
                count + 1,
                &mut self.seen,
                &mut offer,
                &mut pen,
            );
        if found != count {
            self.count = found;
            return None;
        }
        self.count = count + 1;
        Some(HistoryId {
            number: count,
            seen: self.seen.again(),
            of: PhantomData,
        })
    }
}
