//! The leaf of a number, by a walk along the leaves of a node.

ghost use Rattle.std.specs.Prelude.{◌<◌};
ghost use Rattle.rob_tree.specs.View.{node_of};
ghost use Rattle.rob_tree.specs.Walks.{IsWalk};

use crate::tree::Node;
use rob_cert::Cert;
use rob_number::Exact;

/// What a walk along the leaves of a node finds.
#[derive(Clone, Copy, Debug)]
pub enum Walk<'a, N> {
    /// The leaf's certificate.
    Here(&'a Cert<N>),
    /// The leaf is open.
    Open,
    /// The leaf stands behind the node: its number there.
    Behind(u32),
}

/// The leaf of that number, counted from 1.
pub fn leaf_of<N: Exact>(node: &Node<N>, number: u32) -> Walk<'_, N>
    requires some { 0 < number }
    ensures walk { IsWalk N.value (node_of N.value node.now) number result }
{
    match node {
        Node::Leaf(cert) => {
            if number == 1 {
                Walk::Here(cert)
            } else {
                Walk::Behind(number - 1)
            }
        }
        Node::Open => {
            if number == 1 {
                Walk::Open
            } else {
                Walk::Behind(number - 1)
            }
        }
        Node::Split(_, _, below, above) => match leaf_of(below, number) {
            Walk::Here(cert) => Walk::Here(cert),
            Walk::Open => Walk::Open,
            Walk::Behind(left) => leaf_of(above, left),
        },
    }
}
