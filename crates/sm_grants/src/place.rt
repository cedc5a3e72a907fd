//! Objects in a list.

ghost use Rattle.std.specs.Prelude.{◌≡◌, position};
ghost use Rattle.sm_history.specs.Effects.{same_node};

use sm_values::Node;

/// Returns the index of an object in a list.
pub fn node_index(nodes: &[Node], node: Node) -> Option<usize>
    ensures { result ≡ position (λ n. same_node n node) nodes.now }
{
    nodes
        .iter()
        .position(|n| n.owner.0 == node.owner.0 && n.object == node.object)
}
