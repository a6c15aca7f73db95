//! Branch trees. (Land, Doig, An automatic method of solving discrete programming problems; Nemhauser, Wolsey, Integer
//! and Combinatorial Optimization, chapter II.4.)

ghost use Rattle.std.specs.Prelude.{◌≡◌, IfOk};
ghost use Rattle.rob_reach.specs.Trees.{split};
ghost use Rattle.rob_tree.specs.View.{node_of};

use rob_cert::{Cert, Status};
use rob_number::{Exact, Memory};
use std::alloc::Global;

/// A branch: a bound of a variable that a box has beyond the model's own.
#[derive(Clone, Copy, Debug, PartialEq, Eq)]
pub struct Branch {
    /// The variable's number, which is that of its decision column.
    pub column: u32,
    /// Whether the variable is at most `k`; else it is at least `k`.
    pub at_most: bool,
    pub k: i64,
}

/// A node of a branch tree, which stands for a box.
#[derive(Debug, Drop)]
pub enum Node<N> {
    /// A certificate of the box.
    Leaf(Cert<N>),
    /// A branch on a variable at K: the node of the box where it is at most K, and that of the box where it is at least
    /// K + 1.
    Split(u32, i64, Box<Node<N>>, Box<Node<N>>),
    /// A box that is left open, since the model is shown to be unbounded without it.
    Open,
}

/// The node of a branch at K on the variable of that number, from 0, with the nodes of its two boxes. The one error is
/// want of memory.
pub fn split_node<N: Exact>(
    alloc: Global,
    column: u32,
    k: i64,
    below: Node<N>,
    above: Node<N>,
) -> Result<Node<N>, Memory>
    ensures split { IfOk result (λ node. node_of N.value node
        ≡ split column k (node_of N.value below) (node_of N.value above)) }
{
    let below = Box::new(alloc, below)?;
    let above = Box::new(alloc, above)?;
    Ok(Node::Split(column, k, below, above))
}

/// A branch tree, and what it claims of the model over plans with whole numbers.
#[derive(Debug)]
pub struct Tree<N> {
    pub status: Status,
    /// The optimum; 0 where the status is another.
    pub value: N,
    /// The number of the leaf that shows the status, from 1; 0 in an infeasible tree.
    pub best: u32,
    pub root: Node<N>,
}

impl<N: Drop> Drop for Tree<N> {
    /// Lets go of it in one call. A derived drop would stand in each function that does.
    fn drop(self) {
        let Tree {
            status: _status,
            value: _value,
            best: _best,
            root: _root,
        } = self;
    }
}
