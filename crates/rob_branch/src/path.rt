//! Paths of branches, and the two branches at a number K.

ghost use Rattle.std.specs.Prelude.{◌≡◌, ◌<◌, ◌∷◌, ◌++◌, ◌^◌, [], IfOk, nat_abs};
ghost use Rattle.rob_reach.specs.Boxes.{at_least_branch, at_most_branch};
ghost use Rattle.rob_tree.specs.View.{branch_of};

use rob_model::copy::copy_list;
use rob_number::{List, Memory};
use rob_tree::Branch;
use std::alloc::Global;

/// The path with one branch more.
pub fn longer(alloc: Global, path: &[Branch], branch: Branch) -> Result<List<Branch>, Memory>
    ensures path { IfOk result (λ list. list ≡ path.now ++ branch ∷ []) }
{
    let mut list = copy_list(alloc, path)?;
    list.push(branch)?;
    Ok(list)
}

/// The branch that asks for at most K.
pub fn branch_below(column: u32, k: i64) -> Branch
    requires small { nat_abs k < 2 ^ 62 }
    ensures branch { branch_of result ≡ at_most_branch column k }
{
    Branch {
        column,
        at_most: true,
        k,
    }
}

/// The branch that asks for at least K + 1.
pub fn branch_above(column: u32, k: i64) -> Branch
    requires small { nat_abs k < 2 ^ 62 }
    ensures branch { branch_of result ≡ at_least_branch column k }
{
    Branch {
        column,
        at_most: false,
        k: k + 1,
    }
}
