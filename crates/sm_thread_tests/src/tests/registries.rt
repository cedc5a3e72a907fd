//! A registry gives out numbers that tell ids apart, and each id shows the book of its value.

ghost use Rattle.std.specs.Prelude.{◌≡◌};

use sm_door::{Naming, Shows, UnnamedRegistry};
use std::marker::Brand;
use std::process::Abort;
use std::sync::Wait;

/// A number shows the book of this many slots.
struct Places;

impl Shows<u32> for Places {
    ghost use Rattle.std.specs.Prelude.{[]};
    ghost use Rattle.sm_history.specs.Histories.{whole};

    ghost book = { λ places. record { places = places; history = whole [] } };
}

#[test]
fn numbers_tell_history_ids_apart(rt: HostRuntime) {
    three_history_ids::<Brand, _>(&rt, UnnamedRegistry::new());
}

fn three_history_ids<J: Naming, R: Wait + Abort>(rt: &R, unnamed: UnnamedRegistry)
    requires { unnamed.seen.book ≡ J.registry }
{
    let mut registry = unnamed.named::<J>();
    let one = registry.add::<u32, Places, R>(rt, &1).expect(rt, "an id");
    let two = registry.add::<u32, Places, R>(rt, &2).expect(rt, "an id");
    let again = registry.add::<u32, Places, R>(rt, &1).expect(rt, "an id");
    assert!(rt; one.is(&one.again()));
    assert!(rt; !one.is(&two));
    assert!(rt; !two.is(&one));
    assert!(rt; !one.is(&again));
    assert!(rt; two.again().is(&two));
}
