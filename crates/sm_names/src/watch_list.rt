//! Watches by name.

ghost use Rattle.std.specs.Prelude.{◌≡◌, ◌≤◌, ◌<◌, ◌+◌, true, false, [], ◌∷◌, vec_len, length, filter};
ghost use Rattle.std.specs.Prelude.{bytes_eq, count_by};
ghost use Rattle.std.specs.List.{list_any};
ghost use Rattle.std.specs.List.Sorted.{IsPartitionedBy, IsPartitionPoint};
ghost use Rattle.std.specs.Ordering.{nat_cmp, is_lt, is_le, is_gt};
ghost use Rattle.std.specs.Cmp.Lexicographic.{slice_cmp};
ghost use Rattle.std.specs.Vec.{vec_capacity};
ghost use Rattle.sm_history.specs.declared.limits.TheConstants.{MOST_WATCHES};
ghost use Rattle.sm_history.specs.declared.effect.Effect.TheVariants.{Watches, Unwatches, Dies};
ghost use Rattle.sm_history.specs.Effects.{Effects};
ghost use Rattle.sm_history.specs.Clients.{is_live};
ghost use Rattle.sm_history.specs.Services.{same_watch, watches_at, watchers_at};
ghost use Rattle.sm_history.specs.Histories.{watch as make_watch};
ghost use Rattle.sm_names.specs.Watching.{watchers_in, AreInOrder, TracksList};

use sm_history::{MOST_WATCHES, Watch};
use std::alloc::Global;
use std::cmp::Ordering;

/// The watches of live clients, in rising byte order of their names, and of one name oldest first.
pub struct WatchList {
    pub list: Vec<Watch>,
    ghost few: { vec_len list ≤ MOST_WATCHES },
}

impl Drop for WatchList {
    fn drop(self) {
        let WatchList { list: _ } = self;
    }
}

fn is_before(watch: &Watch, name: &[u8]) -> bool
    ensures { result ≡ is_lt (slice_cmp nat_cmp watch.now.name name.now) }
{
    matches!(watch.name.bytes().cmp(name), Ordering::Less)
}

fn is_behind(watch: &Watch, name: &[u8]) -> bool
    ensures { result ≡ is_gt (slice_cmp nat_cmp watch.now.name name.now) }
{
    matches!(watch.name.bytes().cmp(name), Ordering::Greater)
}

/// Returns whether a watch is that of a name by a client's object.
pub fn is_same(watch: &Watch, client: u32, name: &[u8], object: u32) -> bool
    ensures { result ≡ same_watch (make_watch client name.now object) watch.now }
{
    client == watch.client && name == watch.name.bytes() && object == watch.object
}

/// Returns the watches from the first one whose name isn't before this one.
fn from_name<'a>(list: &'a [Watch], name: &[u8]) -> &'a [Watch]
    ensures same { AreInOrder list.now
        → watchers_in result.now name.now ≡ watchers_in list.now name.now }
    ensures first { AreInOrder list.now
        → IsPartitionedBy (λ w. bytes_eq w.name name.now) result.now }
    ensures fewer { length result.now ≤ length list.now }
{
    let start = list.partition_point(|w| is_before(w, name));
    &list[start..]
}

/// Returns the watches of a name at the front, where all watches of that name are together.
fn front_of<'a>(list: &'a [Watch], name: &[u8]) -> &'a [Watch]
    ensures same { IsPartitionedBy (λ w. bytes_eq w.name name.now) list.now
        → result.now ≡ watchers_in list.now name.now }
    ensures fewer { length result.now ≤ length list.now }
{
    let end = list.partition_point(|w| w.name.bytes() == name);
    &list[..end]
}

fn watchers_of<'a>(list: &'a [Watch], name: &[u8]) -> &'a [Watch]
    ensures same { AreInOrder list.now → result.now ≡ watchers_in list.now name.now }
    ensures fewer { length result.now ≤ length list.now }
{
    front_of(from_name(list, name), name)
}

/// Returns the number of watches of a name by a client's object in a list.
fn count_same(list: &[Watch], client: u32, name: &[u8], object: u32) -> usize
    ensures { result ≡ count_by (same_watch (make_watch client name.now object)) list.now }
{
    list.iter()
        .filter(|w| is_same(w, client, name, object))
        .count()
}

/// Returns the index after the watches of a name.
fn place_behind(list: &[Watch], name: &[u8]) -> usize
    ensures within { result ≤ length list.now }
    ensures parts { AreInOrder list.now
        → IsPartitionPoint (λ w. is_le (slice_cmp nat_cmp w.name name.now) ≡ true)
        (λ w. is_le (slice_cmp nat_cmp w.name name.now) ≡ false) list.now result }
{
    list.partition_point(|w| !is_behind(w, name))
}

impl WatchList {
    /// Makes an empty list.
    pub fn new(alloc: Global) -> WatchList
        ensures { TracksList [] result.list.items }
    {
        WatchList {
            list: Vec::new(alloc),
        }
    }

    /// Returns the number of watches.
    pub fn len(&self) -> usize
        ensures tracks { (d : Effects) → TracksList d self.now.list.items
            → result ≡ length (watches_at d) }
        ensures len { result ≡ length self.now.list.items }
        ensures few { result ≤ MOST_WATCHES }
    {
        self.list.len()
    }

    /// Returns the watches of a name, oldest first.
    pub fn watchers(&self, name: &[u8]) -> &[Watch]
        ensures { (d : Effects) → TracksList d self.now.list.items
            → result.now ≡ watchers_at d name.now }
    {
        if self.list.is_empty() {
            return &[];
        }
        watchers_of(&self.list, name)
    }

    /// Returns whether a client's object watches a name.
    pub fn contains(&self, client: u32, name: &[u8], object: u32) -> bool
        ensures { (d : Effects) → TracksList d self.now.list.items
            → result ≡ list_any (same_watch (make_watch client name.now object)) (watches_at d) }
    {
        self.count(client, name, object) > 0
    }

    /// Returns the number of watches of a name by a client's object.
    pub fn count(&self, client: u32, name: &[u8], object: u32) -> u32
        ensures { (d : Effects) → TracksList d self.now.list.items
            → result ≡ count_by (same_watch (make_watch client name.now object)) (watches_at d) }
    {
        let watchers = watchers_of(&self.list, name);
        count_same(watchers, client, name, object) as u32
    }

    /// Inserts a watch after those of its name. Allocates nothing.
    pub fn add(&mut self, watch: Watch)
        requires room { length self.old.list.items < vec_capacity self.old.list }
        requires few { length self.old.list.items < MOST_WATCHES }
        ensures tracks { (d : Effects) → TracksList d self.old.list.items
            → is_live d watch.client ≡ true
            → TracksList (Watches watch ∷ d) self.new.list.items }
        ensures kept { (vec_capacity self.new.list ≡ vec_capacity self.old.list)
            × (length self.new.list.items ≡ length self.old.list.items + 1) }
    {
        let place = place_behind(&self.list, watch.name.bytes());
        match self.list.insert(place, watch) {
            Ok(()) => {}
            Err(_) => unreachable!(),
        }
    }

    /// Removes every watch of a name by a client's object, and returns their number.
    pub fn remove(&mut self, client: u32, name: &[u8], object: u32) -> u32
        ensures ended { (d : Effects) → TracksList d self.old.list.items
            → result ≡ count_by (same_watch (make_watch client name.now object)) (watches_at d) }
        ensures tracks { (d : Effects) → TracksList d self.old.list.items
            → TracksList (Unwatches (make_watch client name.now object) ∷ d) self.new.list.items }
        ensures kept { (vec_capacity self.new.list ≡ vec_capacity self.old.list)
            × (length self.new.list.items ≤ length self.old.list.items) }
    {
        let ended = self.count(client, name, object);
        self.list.retain(|w| !is_same(w, client, name, object));
        ended
    }

    /// Removes a client's watches.
    pub fn remove_client(&mut self, client: u32)
        ensures tracks { (d : Effects) → TracksList d self.old.list.items
            → TracksList (Dies client ∷ d) self.new.list.items }
        ensures kept { (vec_capacity self.new.list ≡ vec_capacity self.old.list)
            × (length self.new.list.items ≤ length self.old.list.items) }
    {
        self.list.retain(|w| client != w.client);
    }
}
