//! A chronicle that keeps the bytes of each connection.

use sm_account::{Chronicle, Page, Visited};
use std::alloc::Global;

/// The bytes of a connection.
#[derive(Drop)]
pub struct Conversation {
    /// The bytes that the server read.
    pub read: Vec<u8>,
    /// The bytes that it wrote.
    pub written: Vec<u8>,
}

impl Conversation {
    /// Makes one without bytes.
    pub fn new(alloc: Global) -> Conversation {
        Conversation {
            read: Vec::new(alloc),
            written: Vec::new(alloc),
        }
    }

    /// Returns whether both have the same bytes.
    fn is_same(&self, other: &Conversation) -> bool {
        self.read.as_slice() == other.read.as_slice()
            && self.written.as_slice() == other.written.as_slice()
    }

    /// Returns the number of bytes in which both begin alike, read and written.
    fn likeness(&self, other: &Conversation) -> usize {
        let read = common_len(&self.read, &other.read);
        let written = common_len(&self.written, &other.written);
        read.saturating_add(written)
    }
}

/// Returns the number of bytes in which both begin alike.
fn common_len(one: &[u8], other: &[u8]) -> usize {
    let mut len = 0usize;
    for (a, b) in one.iter().zip(other) {
        if *a != *b {
            return len;
        }
        len = len.saturating_add(1);
    }
    len
}

/// A chronicle that counts connections, and keeps the bytes of those that were served.
#[derive(Drop)]
pub struct Remembers {
    alloc: Global,
    /// The number of connections that were added.
    pub added: u64,
    /// The number of connections that were turned away.
    pub turned_away: u64,
    /// The connections that have ended, in any order.
    pub conversations: Vec<Conversation>,
}

impl Remembers {
    /// Makes an empty one.
    pub fn new(alloc: Global) -> Remembers {
        Remembers {
            alloc,
            added: 0,
            turned_away: 0,
            conversations: Vec::new(alloc),
        }
    }

    /// Returns how often a conversation with exactly these bytes was kept.
    pub fn times(&self, said: &Conversation) -> usize {
        self.conversations
            .iter()
            .filter(|kept| kept.is_same(said))
            .count()
    }

    /// Returns the conversation that begins most like this one, if any was kept.
    pub fn nearest(&self, said: &Conversation) -> Option<&Conversation> {
        self.conversations
            .iter()
            .max_by_key(|kept| kept.likeness(said))
    }
}

impl Chronicle for Remembers {
    fn page(&self) -> Page {
        Page::keeping(self.alloc)
    }

    fn add<V: Visited>(&mut self, _visit: &V) {
        self.added = self.added.saturating_add(1);
    }

    // If an allocation fails, the conversation is missing.
    fn keep(&mut self, read: Page, written: Page) {
        if let (Some(read), Some(written)) = (read.into_bytes(), written.into_bytes()) {
            let _ = self.conversations.push(Conversation { read, written });
        }
    }

    fn turn_away(&mut self, number: u64) {
        self.turned_away = self.turned_away.saturating_add(number);
    }

    // If an allocation fails, the conversations of the other one are missing.
    fn join(&mut self, other: Remembers) {
        let Remembers {
            alloc: _,
            added,
            turned_away,
            mut conversations,
        } = other;
        self.added = self.added.saturating_add(added);
        self.turned_away = self.turned_away.saturating_add(turned_away);
        let _ = self.conversations.append(&mut conversations);
    }
}
