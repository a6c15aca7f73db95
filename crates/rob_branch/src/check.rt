//! The check of a tree: its leaves in order, each by the check of its certificate for its box.

ghost use Rattle.std.specs.Prelude.{◌≡◌, ◌≢◌, ◌⊎◌, ◌+◌, ◌^◌, ◌<◌, ◌≤◌, ◌∷◌, ◌++◌, [], map, None, IfOk, IfErr};
ghost use Rattle.rob_cert.specs.Shape.{HasShape};
ghost use Rattle.rob_cert.specs.View.{certificate_of, status_of};
ghost use Rattle.rob_meaning.specs.Certificates.{infeasible};
ghost use Rattle.rob_meaning.specs.RobustModel.{RobustModel};
ghost use Rattle.rob_model.specs.Valid.{IsValid};
ghost use Rattle.rob_model.specs.View.{robust};
ghost use Rattle.rob_reach.specs.Boxes as boxes;
ghost use Rattle.rob_reach.specs.Ranges.{KeepsBothBounds, whole_rule};
ghost use Rattle.rob_reach.specs.Trees.{leaf, leaf_count, leaves};
ghost use Rattle.rob_reach.specs.Verdicts.{KeepsBest};
ghost use Rattle.rob_reach.specs.WholeStatus.{HasWholeStatus};
ghost use Rattle.rob_tree.specs.Shape.{HasTreeShape};
ghost use Rattle.rob_tree.specs.View.{branch_of, node_of, tree_of};
ghost use Rattle.rob_branch.specs.Leaves.{CountsCheck, Ends, IsBoxNode, IsPassedNode, MayCheck, Stops, TellsWide};
ghost use Rattle.rob_branch.specs.Verdicts.{CountsVerdict, IsVerdict, OnAccepted};
ghost use Rattle.rob_tree.specs.declared.verdict.TreeVerdict.TheVariants as Is;

use crate::grow::Area;
use crate::leaf::{Claim, LeafCheck, judge_leaf, last_fault};
use crate::path::{branch_above, branch_below, longer};
use rob_cert::{Cert, Status};
use rob_model::copy::copy_list;
use rob_model::{Model, Spot};
use rob_number::{Exact, Ledger};
use rob_tree::{Branch, LeafFault, Node, Tree, TreeVerdict, Walk, behind, leaf_of};
use std::alloc::Global;

/// How far a check is: what the tree claims, and the number of the next leaf, from 1.
#[derive(Clone, Copy, Debug)]
pub struct Progress<N> {
    pub claim: Claim<N>,
    pub number: u32,
}

/// The verdict where a number is wide for the box behind a path.
fn too_wide(alloc: Global, path: &[Branch], spot: Spot) -> TreeVerdict
    ensures told { TellsWide path.now spot result }
{
    match copy_list(alloc, path) {
        Ok(path) => TreeVerdict::TooWide(path, spot),
        Err(_) => TreeVerdict::Memory,
    }
}

/// Checks a leaf; the number of the next one.
fn check_leaf<N: Exact, L: Ledger>(
    alloc: Global,
    area: Area<'_, N>,
    claim: Claim<N>,
    cert: &Cert<N>,
    number: u32,
    ledger: &mut L,
) -> Result<u32, TreeVerdict>
    requires valid { IsValid N.value area.model.now }
    requires shape { HasShape (robust N.value area.model.now) (certificate_of N.value cert.now) }
    requires few { number + 1 < 2 ^ 32 }
    ensures passed { IfOk result (IsPassedNode N.limit (status_of claim.status)
        (N.value claim.value)
        (robust N.value area.entry.model.now) (leaf (certificate_of N.value cert.now)) number) }
    ensures stopped { IfErr result (Stops N.limit (status_of claim.status) (N.value claim.value)
        (robust N.value area.entry.model.now) (map branch_of area.entry.path.now)
        (leaf (certificate_of N.value cert.now)) number) }
    ensures counted { CountsCheck L.ops L.wides ledger.old ledger.new result }
{
    match judge_leaf(alloc, area.model, claim, cert, ledger) {
        LeafCheck::Passed => Ok(number + 1),
        LeafCheck::Fails(fault) => Err(TreeVerdict::Rejected(number, fault)),
        LeafCheck::Wide(spot) => Err(too_wide(alloc, area.path, spot)),
        LeafCheck::Memory => Err(TreeVerdict::Memory),
    }
}

/// Checks the leaves of a node; the number of the next one.
#[cycle(check)]
fn check_node<N: Exact, L: Ledger>(
    alloc: Global,
    area: Area<'_, N>,
    progress: Progress<N>,
    node: &Node<N>,
    ledger: &mut L,
) -> Result<u32, TreeVerdict>
    requires valid { IsValid N.value area.model.now }
    requires bounded { KeepsBothBounds (robust N.value area.model.now) area.names.now }
    requires node { IsBoxNode N.limit (robust N.value area.model.now) area.names.now
        (node_of N.value node.now) }
    requires few { progress.number + leaf_count (node_of N.value node.now) < 2 ^ 32 }
    ensures passed { IfOk result (IsPassedNode N.limit (status_of progress.claim.status)
        (N.value progress.claim.value)
        (robust N.value area.entry.model.now) (node_of N.value node.now) progress.number) }
    ensures stopped { IfErr result (Stops N.limit (status_of progress.claim.status)
        (N.value progress.claim.value)
        (robust N.value area.entry.model.now) (map branch_of area.entry.path.now)
        (node_of N.value node.now) progress.number) }
    ensures counted { CountsCheck L.ops L.wides ledger.old ledger.new result }
{
    match node {
        Node::Leaf(cert) => check_leaf(alloc, area, progress.claim, cert, progress.number, ledger),
        Node::Open => Ok(progress.number + 1),
        Node::Split(column, k, below, above) => {
            let at_most = branch_below(*column, *k);
            let at_least = branch_above(*column, *k);
            match check_side(alloc, area, at_most, progress, below, ledger) {
                Err(verdict) => Err(verdict),
                Ok(number) => {
                    let next = Progress {
                        claim: progress.claim,
                        number,
                    };
                    check_side(alloc, area, at_least, next, above, ledger)
                }
            }
        }
    }
}

/// Checks the leaves of the node behind a branch.
#[cycle(check)]
fn check_side<N: Exact, L: Ledger>(
    alloc: Global,
    area: Area<'_, N>,
    branch: Branch,
    progress: Progress<N>,
    node: &Node<N>,
    ledger: &mut L,
) -> Result<u32, TreeVerdict>
    requires valid { IsValid N.value area.model.now }
    requires bounded { KeepsBothBounds (robust N.value area.model.now) area.names.now }
    requires may { MayCheck N.limit (robust N.value area.model.now) area.names.now
        (branch_of branch) (node_of N.value node.now) }
    requires few { progress.number + leaf_count (node_of N.value node.now) < 2 ^ 32 }
    ensures passed { IfOk result (IsPassedNode N.limit (status_of progress.claim.status)
        (N.value progress.claim.value)
        (boxes.behind (robust N.value area.entry.model.now) (branch_of branch))
        (node_of N.value node.now) progress.number) }
    ensures stopped { IfErr result (Stops N.limit (status_of progress.claim.status)
        (N.value progress.claim.value)
        (boxes.behind (robust N.value area.entry.model.now) (branch_of branch))
        (map branch_of area.entry.path.now ++ branch_of branch ∷ [])
        (node_of N.value node.now) progress.number) }
    ensures counted { CountsCheck L.ops L.wides ledger.old ledger.new result }
{
    let model = behind(alloc, area.model, branch)?;
    let path = longer(alloc, area.path, branch)?;
    let side = Area {
        model: &model,
        names: area.names,
        path: path.items(),
    };
    check_node(alloc, side, progress, node, ledger)
}

/// The verdict on the leaf that is to show the status, where all leaves are passed.
fn check_best<N: Exact>(claim: Claim<N>, names: &[u32], best: u32, root: &Node<N>) -> TreeVerdict
    requires shows { status_of claim.status ≢ infeasible }
    requires best { (0 < best) × (best ≤ leaf_count (node_of N.value root.now)) }
    ensures ended { (m : RobustModel)
        → Ends (status_of claim.status) names.now (N.value claim.value) best
        (leaves m (node_of N.value root.now)) result }
{
    match leaf_of(root, best) {
        Walk::Here(cert) => match last_fault(claim, names, cert) {
            None => TreeVerdict::Accepted,
            Some(fault) => TreeVerdict::Rejected(best, fault),
        },
        Walk::Open => TreeVerdict::Rejected(best, LeafFault::Best),
        Walk::Behind(_) => unreachable!(),
    }
}

/// The verdict where all leaves are passed: in an infeasible tree no leaf is to show the status.
fn last_verdict<N: Exact>(claim: Claim<N>, names: &[u32], best: u32, root: &Node<N>) -> TreeVerdict
    requires best { KeepsBest (status_of claim.status) best
        (leaf_count (node_of N.value root.now)) }
    ensures ended { (m : RobustModel)
        → Ends (status_of claim.status) names.now (N.value claim.value) best
        (leaves m (node_of N.value root.now)) result }
{
    match claim.status {
        Status::Infeasible => TreeVerdict::Accepted,
        Status::Optimal => check_best(claim, names, best, root),
        Status::Unbounded => check_best(claim, names, best, root),
    }
}

/// Whether a tree proves what it claims of a model, over plans whose named variables are whole. Its conditions are
/// tried in order: leaf by leaf whether the certificate proves for the leaf's box, whether its status may stand in the
/// tree, and whether its value is no better than the tree's; last whether leaf number `best` shows the status, and
/// whether its plan is whole. An open leaf has no condition but these last. `names` has the numbers of variables.
/// `Rejected` names the first condition that fails, with the number of its leaf from 1, where no number before it is
/// wide; `TooWide` the first number that is wide, behind the path of its leaf's box, where all conditions before it
/// hold; `Memory` comes where memory for a box, its set rows and forms, or a path is refused.
pub fn check_tree<N: Exact, L: Ledger>(
    alloc: Global,
    model: &Model<N>,
    names: &[u32],
    tree: &Tree<N>,
    ledger: &mut L,
) -> TreeVerdict
    requires valid { IsValid N.value model.now }
    requires rule { whole_rule (robust N.value model.now) names.now ≡ None }
    requires shape { HasTreeShape N.limit (robust N.value model.now) names.now
        (tree_of N.value tree.now) }
    // The first condition that fails or is wide decides: accepted, the tree proves, and no number is wide.
    ensures verdict { IsVerdict N.limit (robust N.value model.now) names.now
        (tree_of N.value tree.now) result }
    // No other verdict is the tree's, but for want of memory: so one that proves, with no wide number, is accepted.
    ensures exact { (v : TreeVerdict) → IsVerdict N.limit (robust N.value model.now) names.now
        (tree_of N.value tree.now) v → (result ≡ v) ⊎ (result ≡ Is.Memory) ⊎ (v ≡ Is.Memory) }
    // So the model has the status that an accepted tree claims, with its value.
    ensures true_of { OnAccepted result (HasWholeStatus (robust N.value model.now) names.now
        (tree_of N.value tree.now).status (tree_of N.value tree.now).value) }
    ensures counted { CountsVerdict L.ops L.wides ledger.old ledger.new result }
{
    let claim = Claim {
        status: tree.status,
        value: tree.value,
    };
    let area = Area {
        model,
        names,
        path: &[],
    };
    let first = Progress { claim, number: 1 };
    match check_node(alloc, area, first, &tree.root, ledger) {
        Err(verdict) => verdict,
        Ok(_) => last_verdict(claim, names, tree.best, &tree.root),
    }
}
