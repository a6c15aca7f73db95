//! How many nodes a tree has.

ghost use Rattle.std.specs.Prelude.{◌≡◌, ◌<◌, ◌^◌};
ghost use Rattle.rob_reach.specs.Trees.{node_count};
ghost use Rattle.rob_tree.specs.View.{node_of};

use rob_number::Exact;
use rob_tree::Node;

/// The number of nodes.
pub fn count_nodes<N: Exact>(node: &Node<N>) -> u32
    requires few { node_count (node_of N.value node.now) < 2 ^ 32 }
    ensures count { result ≡ node_count (node_of N.value node.now) }
{
    match node {
        Node::Leaf(_) => 1,
        Node::Open => 1,
        Node::Split(_, _, below, above) => 1 + count_nodes(below) + count_nodes(above),
    }
}
