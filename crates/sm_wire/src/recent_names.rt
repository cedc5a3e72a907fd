//! A cache of recently read names, so that a repeated name needs no allocation.

ghost use Rattle.std.specs.Prelude.{◌≡◌, ◌∷◌, [], true, Some, IfSome, IsTrue};
ghost use Rattle.std.specs.List.{list_all};
ghost use Rattle.sm_values.specs.Contexts.{is_graphic};
ghost use Rattle.sm_wire.specs.Reading.{ReadsAs};
ghost use Rattle.sm_wire.specs.Values.{name_of, plain_name_of};
ghost use Rattle.sm_wire.specs.Fields.{fields_of};
ghost use Rattle.sm_wire.specs.Names.{HasEnds};

use crate::read_error::ReadError;
use sm_values::{MOST_NAME_BYTES, Name, all_graphic, drop_fields, spells};
use std::alloc::{AllocError, Global};
use std::marker::Model;

/// The number of the cache's places.
const PLACES: usize = 1024;

/// A kept name. Its bytes were tested when it was kept, so they aren't tested again.
#[derive(Drop)]
struct RecentName {
    name: Name,
    ghost graphic: { IsTrue (list_all is_graphic name) },
}

/// The last two names that selected a place.
#[derive(Drop)]
struct Place {
    last: Option<RecentName>,
    before: Option<RecentName>,
}

/// Recently read names, each in the place that its bytes select. The cache changes no name that is returned, so
/// contracts don't see it.
pub struct RecentNames {
    pub alloc: Global,
    /// The number of places once the first name has come.
    count: usize,
    places: Vec<Place>,
}

impl Drop for RecentNames {
    fn drop(self) {
        drop_fields!(self: alloc, count, places);
    }
}

impl Model for RecentNames {
    ghost Value = { Unit {0} };

    ghost view = { λ _. tt };
}

impl RecentNames {
    /// Makes an empty cache. Allocates nothing.
    pub fn new(alloc: Global) -> RecentNames {
        RecentNames {
            alloc,
            count: PLACES,
            places: Vec::new(alloc),
        }
    }

    /// Makes a cache that keeps no names, for a single line.
    pub fn none(alloc: Global) -> RecentNames {
        RecentNames {
            alloc,
            count: 0,
            places: Vec::new(alloc),
        }
    }

    /// Parses a name in plain bytes: returns a reference to a kept name, or a new one, which is kept unless it is too
    /// long for a service. If the places can't be allocated, nothing is kept.
    #[tactic(auto, unfolding(crate::specs::Values::plain_name_of))]
    pub fn plain_name(&mut self, bytes: &[u8]) -> Result<Name, ReadError>
        ensures { ReadsAs result (plain_name_of bytes.now) }
    {
        if let Some(name) = self.find(bytes) {
            return Ok(name.clone()?);
        }
        if !all_graphic(bytes) {
            return Err(ReadError::Malformed);
        }
        let name = Name::new(self.alloc, bytes)?;
        self.keep(&name)?;
        Ok(name)
    }

    /// Returns the kept name that these bytes spell. They are then a field of their own.
    #[inline(always)]
    #[tactic(auto, using(crate::proofs::FieldLemmas::graphic_field), unfolding(crate::specs::Values::name_of, crate::specs::Values::plain_name_of))]
    pub fn kept(&self, bytes: &[u8]) -> Option<&Name>
        ensures field { IfSome result (λ _. fields_of bytes.now ≡ bytes.now ∷ []) }
        ensures name { IfSome result (λ n. name_of bytes.now ≡ Some n.now) }
    {
        match bytes {
            [] => None,
            [b'%', ..] => None,
            [_, ..] => self.find(bytes),
        }
    }

    // Returns the kept name of these bytes.
    #[inline(always)]
    fn find(&self, bytes: &[u8]) -> Option<&Name>
        ensures spelled { IfSome result (λ n. n.now ≡ bytes.now) }
        ensures graphic { IfSome result (λ n. IsTrue (list_all is_graphic bytes.now)) }
    {
        let place = self.places.get(slot_of(bytes))?;
        if let Some(kept) = &place.last {
            if are_same(kept.name.bytes(), bytes) {
                return Some(&kept.name);
            }
        }
        if let Some(kept) = &place.before {
            if are_same(kept.name.bytes(), bytes) {
                return Some(&kept.name);
            }
        }
        None
    }

    // Keeps a name in its place, in which the last one stays.
    fn keep(&mut self, name: &Name) -> Result<(), AllocError>
        requires { IsTrue (list_all is_graphic name.now) }
    {
        if name.bytes().len() > MOST_NAME_BYTES {
            return Ok(());
        }
        self.make_places();
        if let Some(place) = self.places.get_mut(slot_of(name.bytes())) {
            let name = name.clone()?;
            place.before = place.last.replace(RecentName { name });
        }
        Ok(())
    }

    // Allocates the places when the first name comes.
    fn make_places(&mut self) {
        if !self.places.is_empty() || self.places.reserve_exact(self.count).is_err() {
            return;
        }
        for _ in 0..self.count {
            let place = Place {
                last: None,
                before: None,
            };
            if self.places.push(place).is_err() {
                return;
            }
        }
    }
}

// Returns the place of a name, by its length and its last eight bytes.
fn slot_of(bytes: &[u8]) -> usize {
    let last = match bytes.last_chunk::<8>() {
        Some(last) => u64::from_be_bytes(*last),
        None => short_number(bytes),
    };
    let sum = (last ^ bytes.len() as u64).wrapping_mul(0x9e37_79b9_7f4a_7c15);
    (sum >> 48) as usize % PLACES
}

// Returns a number for fewer than eight bytes.
fn short_number(bytes: &[u8]) -> u64 {
    let mut number = 0u64;
    for byte in bytes {
        number = number.wrapping_mul(256).wrapping_add(u64::from(*byte));
    }
    number
}

// Returns whether two names are the same. Those of 8 to 16 bytes are compared by their first and their last eight.
#[inline(always)]
fn are_same(a: &[u8], b: &[u8]) -> bool
    ensures { result ≡ true → a.now ≡ b.now }
{
    if a.len() == b.len() && a.len() <= 16 {
        if let Some(x) = ends_of(a) {
            if let Some(y) = ends_of(b) {
                return x.first == y.first && x.last == y.last;
            }
        }
    }
    spells(a, b)
}

// The first and the last eight bytes of a name, as numbers.
#[derive(Clone, Copy)]
struct Ends {
    first: u64,
    last: u64,
}

// Returns the first and the last eight bytes, if there are as many.
#[inline(always)]
fn ends_of(bytes: &[u8]) -> Option<Ends>
    ensures { IfSome result (λ e. HasEnds bytes.now e.first e.last) }
{
    let first = bytes.first_chunk::<8>()?;
    let last = bytes.last_chunk::<8>()?;
    Some(Ends {
        first: u64::from_le_bytes(*first),
        last: u64::from_le_bytes(*last),
    })
}
