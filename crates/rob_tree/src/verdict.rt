//! What the check of a tree says.

ghost use Rattle.std.specs.Prelude.{◌≡◌};
ghost use Rattle.rob_tree.specs.declared.verdict.TreeVerdict.TheVariants as Is;

use crate::tree::Branch;
use rob_model::{Place, Spot};
use rob_number::{List, Memory};

/// What of a leaf fails.
#[derive(Clone, Copy, Debug, PartialEq, Eq)]
pub enum LeafFault {
    /// That condition of its certificate, for its box.
    At(Place),
    /// It is unbounded in an optimal tree, or not infeasible in an infeasible one.
    Status,
    /// It is optimal at a better value than the tree's.
    Value,
    /// It is the leaf that is to show the status, and claims another status or value.
    Best,
    /// It is that leaf, and its plan isn't whole.
    Whole,
}

/// What the check of a tree says. Its conditions are tried in order, leaf by leaf.
#[derive(Debug, Drop)]
pub enum TreeVerdict {
    /// All conditions hold, and no number on the way is wide.
    Accepted,
    /// The number of a leaf, from 1: that condition of it is the first that fails, and no number on the way to it is
    /// wide.
    Rejected(u32, LeafFault),
    /// A number is wide for the box behind that path, and all conditions before it hold.
    TooWide(List<Branch>, Spot),
    /// Memory was refused.
    Memory,
}

impl From<Memory> for TreeVerdict {
    ghost from_gives = { λ _ verdict. verdict ≡ Is.Memory };

    fn from(_memory: Memory) -> TreeVerdict {
        TreeVerdict::Memory
    }
}
