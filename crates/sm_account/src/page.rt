//! The bytes of a connection.

ghost use Rattle.std.specs.Prelude.{◌≡◌, ◌⊎◌, ◌++◌, None, Some, [], option_map};

use std::alloc::Global;
use std::marker::Model;

/// The bytes that went in one direction of a connection, or nothing, if nobody wants to know them.
#[derive(Drop)]
pub struct Page {
    kept: Option<Vec<u8>>,
}

impl Model for Page {
    ghost use Rattle.std.specs.Prelude.{ℕ, List, Option, option_map};

    ghost Value = { Option (List ℕ) };

    ghost view = { λ p. option_map (λ v. v.items) p.kept };
}

impl Page {
    /// A page that keeps nothing.
    pub fn blank() -> Page
        ensures { result ≡ None }
    {
        Page { kept: None }
    }

    /// A page that keeps the bytes, of which there are none yet.
    pub fn keeping(alloc: Global) -> Page
        ensures { result ≡ Some [] }
    {
        Page {
            kept: Some(Vec::new(alloc)),
        }
    }

    /// Adds bytes to those that are kept. Nothing is kept from then on if an allocation failed.
    pub fn note(&mut self, bytes: &[u8])
        ensures { (self.new ≡ None) ⊎ (self.new ≡ option_map (λ kept. kept ++ bytes.now) self.old) }
    {
        let Some(mut kept) = self.kept.take() else {
            return;
        };
        if kept.extend_from_slice(bytes).is_ok() {
            self.kept = Some(kept);
        }
    }

    /// Returns the bytes that were kept.
    pub fn into_bytes(self) -> Option<Vec<u8>>
        ensures { option_map (λ v. v.items) result ≡ self }
    {
        let Page { kept } = self;
        kept
    }
}

#[test]
fn a_page_keeps_what_is_noted(rt: HostRuntime) {
    let mut page = Page::keeping(rt.alloc());
    page.note(b"ver");
    page.note(b"sion\n");
    assert!(rt;
        page.into_bytes()
            .is_some_and(|bytes| bytes.as_slice() == b"version\n".as_slice())
    );
}
