//! How a call ended, where one allocation may have failed.

ghost use Rattle.std.specs.Prelude.{◌≡◌, IfSome, Ok};

use std::process::Abort;
use std::test::*;

/// The value of a call. `None` if an allocation failed, which is the only error that may come.
pub fn value<T: Drop, E: PartialEq + Drop>(
    rt: &impl Abort,
    ended: Result<T, E>,
    refused: E,
) -> Option<T>
    ensures { IfSome result (λ v. ended ≡ Ok v) }
{
    match ended {
        Ok(value) => Some(value),
        Err(error) => {
            assert!(rt; error == refused);
            None
        }
    }
}

/// Two equal numbers.
pub fn same(rt: &impl Abort, came: u64, wanted: u64) {
    assert_eq!(rt; came, wanted);
}

/// Two equal texts.
pub fn same_text(rt: &impl Abort, came: &[u8], wanted: &[u8]) {
    assert_eq!(rt; came, wanted);
}
