//! What a client holds.

use sm_values::Node;

/// An object that a client holds, and the number of grants that it hasn't released.
#[derive(Clone, Copy)]
pub struct Held {
    pub node: Node,
    pub count: u64,
}
