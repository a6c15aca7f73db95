//! Branch trees.

ghost use Rattle.rob_meaning.specs.Places.{Each};
ghost use Rattle.rob_meaning.specs.RobustModel.{RobustModel};
ghost use Rattle.rob_meaning.specs.WellFormed.{IsModel};
ghost use Rattle.rob_reach.specs.Ranges.{KeepsBothBounds};
ghost use Rattle.rob_reach.specs.Trees.{BranchesOn, Node, ProvesTree, Tree, branch_count, leaf_count, leaves, node_count};
ghost use Rattle.rob_reach.specs.Verdicts.{Condition, Holds, IsFirstFault, IsTree, tree_conditions};
ghost use Rattle.rob_reach.specs.WholeStatus.{HasWholeStatus};
ghost use Rattle.std.specs.Prelude.{◌≡◌, ◌↔◌, ◌+◌, ℕ, suc, List, length};

/// What a tree shows, and how many leaves it has.
pub fn tree_laws()
    // If a tree whose branches are on named variables proves, the model has its status over plans
    // with whole numbers, with its value.
    ensures true_of { (m : RobustModel) (names : List ℕ) (t : Tree) → IsModel m
        → KeepsBothBounds m names → BranchesOn names t.root → ProvesTree m names t
        → HasWholeStatus m names t.status t.value }
    // It proves exactly where its conditions hold, which are judged leaf by leaf, in order.
    ensures conditions { (m : RobustModel) (names : List ℕ) (t : Tree) → IsTree names t
        → ProvesTree m names t ↔ Each (Holds m.sense names t) (tree_conditions m t) }
    // The first that fails is one, and none fails where the tree proves.
    ensures one_fault { (m : RobustModel) (names : List ℕ) (t : Tree) (c d : Condition)
        → IsFirstFault m names t c → IsFirstFault m names t d → c ≡ d }
    ensures refused { (m : RobustModel) (names : List ℕ) (t : Tree) → IsTree names t
        → (c : Condition) → IsFirstFault m names t c → ProvesTree m names t → ⊥ }
    // A tree has one branch less than leaves.
    ensures leaves { (m : RobustModel) (n : Node) → length (leaves m n) ≡ leaf_count n }
    ensures branches { (n : Node) → leaf_count n ≡ suc (branch_count n) }
    ensures nodes { (n : Node) → node_count n ≡ leaf_count n + branch_count n }
{}
