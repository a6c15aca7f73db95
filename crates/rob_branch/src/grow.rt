//! How a tree grows: depth first, the box with the upper bound before the other. (Land, Doig, An automatic method of
//! solving discrete programming problems.)

ghost use Rattle.std.specs.Prelude.{◌≡◌, ◌++◌, ◌∷◌, [], map, ℕ, None, Some, Err as Error, IfOk, IfErr, OnOk};
ghost use Rattle.rob_cert.specs.View.{certificate_of};
ghost use Rattle.rob_model.specs.Valid.{IsValid};
ghost use Rattle.rob_model.specs.View.{robust};
ghost use Rattle.rob_reach.specs.Growing as growing;
ghost use Rattle.rob_reach.specs.Boxes as boxes;
ghost use Rattle.rob_reach.specs.Ranges.{KeepsBothBounds, whole_rule as first_rule};
ghost use Rattle.rob_reach.specs.Trees as trees;
ghost use Rattle.rob_reach.specs.WholeStatus.{HasWholeStatus};
ghost use Rattle.rob_tree.specs.View.{branch_of, node_of, tree_of};
ghost use Rattle.rob_tree.specs.declared.error.TreeStop.TheVariants as Refused;
ghost use Rattle.rob_elab.specs.Written.{IsWritten};
ghost use Rattle.rob_dualize.specs.Solving.{HasScenario};
ghost use Rattle.rob_branch.specs.Growth.{CanGrow, CountsGrowth, HasCause, HasCauseBehind, IsBranchedAt, IsGrownTo, IsGrownTree, IsSolvedBy, MayGrow, TellsStop};
ghost use Rattle.rob_branch.specs.View.{search_of};

use crate::path::{branch_above, branch_below, longer};
use crate::search::{Outcome, Search, comes_of, counted};
use rob_cert::{Cert, Status, Stop};
use rob_dualize::solve_model;
use rob_model::Model;
use rob_model::copy::copy_list;
use rob_model::numbers::zero;
use rob_number::{Exact, Ledger, Tally};
use rob_tree::{Branch, Node, Tree, TreeStop, behind, split_node, whole_rule};
use std::alloc::Global;

/// A box: its model, the named variables, and the branches that lead to it.
#[derive(Clone, Copy, Debug)]
pub struct Area<'a, N> {
    pub model: &'a Model<N>,
    pub names: &'a [u32],
    pub path: &'a [Branch],
}

/// A node that has grown, and how far the search is behind it.
#[derive(Debug, Drop)]
pub struct Grown<N> {
    pub node: Node<N>,
    pub after: Search<N>,
}

/// Why a search stops in the box behind a path.
fn stopped(alloc: Global, path: &[Branch], stop: Stop) -> TreeStop
    ensures told { TellsStop path.now stop result }
{
    match stop {
        Stop::EmptySet(weights) => TreeStop::EmptySet(weights),
        Stop::Wide(spot, _) => match copy_list(alloc, path) {
            Ok(path) => TreeStop::Wide(path, spot),
            Err(_) => TreeStop::Memory,
        },
        Stop::Memory => TreeStop::Memory,
    }
}

/// Grows a box: once the model is shown to be unbounded it is left open, else it is solved.
#[cycle(grow)]
fn grow<N: Exact, L: Ledger>(
    alloc: Global,
    area: Area<'_, N>,
    before: Search<N>,
    ledger: &mut L,
) -> Result<Grown<N>, TreeStop>
    requires valid { IsValid N.value area.model.now }
    requires ready { CanGrow (robust N.value area.model.now) area.names.now
        (search_of N.value before) }
    requires admitted { HasScenario (robust N.value area.model.now) }
    ensures grown { IfOk result (IsGrownTo N.value N.limit
        (robust N.value area.entry.model.now) area.entry.names.now (search_of N.value before)) }
    ensures cause { IfErr result (HasCauseBehind N.limit
        (robust N.value area.entry.model.now) area.entry.names.now
        (search_of N.value before) (map branch_of area.entry.path.now)) }
    ensures counted { CountsGrowth L.ops L.wides ledger.old ledger.new result }
{
    if before.endless.is_some() {
        return Ok(Grown {
            node: Node::Open,
            after: counted(before),
        });
    }
    match solve_model(alloc, area.model, ledger) {
        Ok(cert) => grow_from(alloc, area, before, cert, ledger),
        Err(stop) => Err(stopped(alloc, area.path, stop)),
    }
}

/// Grows a box with its certificate: a leaf, or a branch.
#[cycle(grow)]
fn grow_from<N: Exact, L: Ledger>(
    alloc: Global,
    area: Area<'_, N>,
    before: Search<N>,
    cert: Cert<N>,
    ledger: &mut L,
) -> Result<Grown<N>, TreeStop>
    requires valid { IsValid N.value area.model.now }
    requires ready { CanGrow (robust N.value area.model.now) area.names.now
        (search_of N.value before) }
    requires going { before.endless ≡ None }
    requires solved { IsSolvedBy N.limit (robust N.value area.model.now)
        (certificate_of N.value cert) }
    ensures grown { IfOk result (IsGrownTo N.value N.limit
        (robust N.value area.entry.model.now) area.entry.names.now (search_of N.value before)) }
    ensures cause { IfErr result (HasCauseBehind N.limit
        (robust N.value area.entry.model.now) area.entry.names.now
        (search_of N.value before) (map branch_of area.entry.path.now)) }
    ensures counted { CountsGrowth L.ops L.wides ledger.old ledger.new result }
{
    match comes_of(area.names, area.model.sense, before, &cert) {
        Outcome::Ends(after) => Ok(Grown {
            node: Node::Leaf(cert),
            after,
        }),
        Outcome::Branches(column, k) => grow_branch(alloc, area, before, column, k, ledger),
    }
}

/// Grows a box that is branched at K on a variable, as a certificate of it asks.
#[cycle(grow)]
fn grow_branch<N: Exact, L: Ledger>(
    alloc: Global,
    area: Area<'_, N>,
    before: Search<N>,
    column: u32,
    k: i64,
    ledger: &mut L,
) -> Result<Grown<N>, TreeStop>
    requires valid { IsValid N.value area.model.now }
    requires ready { CanGrow (robust N.value area.model.now) area.names.now
        (search_of N.value before) }
    requires branched { IsBranchedAt N.limit (robust N.value area.model.now) area.names.now
        (search_of N.value before) column k }
    ensures grown { IfOk result (IsGrownTo N.value N.limit
        (robust N.value area.entry.model.now) area.entry.names.now (search_of N.value before)) }
    ensures cause { IfErr result (HasCauseBehind N.limit
        (robust N.value area.entry.model.now) area.entry.names.now
        (search_of N.value before) (map branch_of area.entry.path.now)) }
    ensures counted { CountsGrowth L.ops L.wides ledger.old ledger.new result }
{
    let at_most = branch_below(column, k);
    let at_least = branch_above(column, k);
    match grow_side(alloc, area, before, at_most, ledger) {
        Err(stop) => Err(stop),
        Ok(below) => match grow_side(alloc, area, below.after, at_least, ledger) {
            Err(stop) => Err(stop),
            Ok(above) => joined(alloc, column, k, below.node, above),
        },
    }
}

/// The node of a branch.
fn joined<N: Exact>(
    alloc: Global,
    column: u32,
    k: i64,
    below: Node<N>,
    above: Grown<N>,
) -> Result<Grown<N>, TreeStop>
    ensures joined { IfOk result (λ grown. (grown.after ≡ above.after)
        × (node_of N.value grown.node
        ≡ trees.split column k (node_of N.value below) (node_of N.value above.node))) }
    ensures memory { IfErr result (λ stop. stop ≡ Refused.Memory) }
{
    let node = split_node(alloc, column, k, below, above.node)?;
    Ok(Grown {
        node,
        after: above.after,
    })
}

/// Grows the box behind a branch that a certificate of the area allows.
#[cycle(grow)]
fn grow_side<N: Exact, L: Ledger>(
    alloc: Global,
    area: Area<'_, N>,
    before: Search<N>,
    branch: Branch,
    ledger: &mut L,
) -> Result<Grown<N>, TreeStop>
    requires valid { IsValid N.value area.model.now }
    requires bounded { KeepsBothBounds (robust N.value area.model.now) area.names.now }
    requires admitted { HasScenario (robust N.value area.model.now) }
    requires may { MayGrow N.limit (robust N.value area.model.now) area.names.now before.count
        (branch_of branch) }
    ensures grown { IfOk result (IsGrownTo N.value N.limit
        (boxes.behind (robust N.value area.entry.model.now) (branch_of branch)) area.entry.names.now
        (search_of N.value before)) }
    ensures cause { IfErr result (HasCauseBehind N.limit
        (boxes.behind (robust N.value area.entry.model.now) (branch_of branch)) area.entry.names.now
        (search_of N.value before) (map branch_of area.entry.path.now ++ branch_of branch ∷ [])) }
    ensures counted { CountsGrowth L.ops L.wides ledger.old ledger.new result }
{
    let model = behind(alloc, area.model, branch)?;
    let path = longer(alloc, area.path, branch)?;
    let side = Area {
        model: &model,
        names: area.names,
        path: path.items(),
    };
    grow(alloc, side, before, ledger)
}

/// Where a search begins.
fn start<N: Exact>() -> Search<N>
    ensures start { search_of N.value result ≡ growing.start }
{
    Search {
        count: 0,
        best: None,
        endless: None,
    }
}

/// The tree of a search that is over.
fn tree_by<N: Exact>(grown: Grown<N>) -> Tree<N>
    ensures tree { tree_of N.value result ≡ growing.tree_by (search_of N.value grown.after).endless
        (search_of N.value grown.after).best (node_of N.value grown.node) }
{
    let nothing = zero(&mut Tally::new());
    match (grown.after.endless, grown.after.best) {
        (Some(best), _) => Tree {
            status: Status::Unbounded,
            value: nothing,
            best,
            root: grown.node,
        },
        (None, Some(best)) => Tree {
            status: Status::Optimal,
            value: best.value,
            best: best.number,
            root: grown.node,
        },
        (None, None) => Tree {
            status: Status::Infeasible,
            value: nothing,
            best: 0,
            root: grown.node,
        },
    }
}

/// The tree of a model whose named variables take whole numbers, by branch and bound: one solve for each node that
/// isn't open. A search branches on the first named variable whose number isn't whole, at its floor K, and goes to the
/// box where it is at most K before that where it is at least K + 1; a box whose optimum is no better than the best
/// whole plan so far is a leaf, and once a whole plan with an improving direction is found the boxes that are left stay
/// open. `names` has the numbers of variables; one that stands there twice is no other variable, but its range counts
/// twice in the product that rule 63 bounds. `Rule` comes exactly where `whole_rule` gives that number; `EmptySet` only
/// where the model admits no scenario, as its weights show; `Wide` only where that number is wide in the box behind
/// that path, to which the search comes; `Memory` only where no rule is broken.
pub fn grow_tree<N: Exact, L: Ledger>(
    alloc: Global,
    model: &Model<N>,
    names: &[u32],
    ledger: &mut L,
) -> Result<Tree<N>, TreeStop>
    requires valid { IsValid N.value model.now }
    // The tree is what the model grows into, with the shape that its text asks for, numbers that fit, and boxes in
    // which nothing is wide when they are written in whole numbers; so it proves, and its status is true over plans
    // with whole numbers.
    ensures tree { IfOk result (λ tree. IsGrownTree N.limit (robust N.value model.now) names.now
        (tree_of N.value tree)) }
    ensures true_of { IfOk result (λ tree. HasWholeStatus (robust N.value model.now) names.now
        (tree_of N.value tree).status (tree_of N.value tree).value) }
    // A tree comes only where nothing is wide when the model is written in whole numbers.
    ensures written { OnOk result (IsWritten N.limit (robust N.value model.now)) }
    ensures cause { IfErr result (HasCause N.limit (robust N.value model.now) names.now) }
    // A broken rule is always told, and nothing is counted then.
    ensures rule { (rule : ℕ) → first_rule (robust N.value model.now) names.now ≡ Some rule
        → result ≡ Error (Refused.Rule rule) }
    ensures unchanged { (rule : ℕ) → first_rule (robust N.value model.now) names.now ≡ Some rule
        → ledger.new ≡ ledger.old }
    ensures counted { CountsGrowth L.ops L.wides ledger.old ledger.new result }
{
    match whole_rule(model, names) {
        Some(rule) => Err(TreeStop::Rule(rule)),
        None => grow_root(alloc, model, names, ledger),
    }
}

/// The tree of a model whose names break no rule.
fn grow_root<N: Exact, L: Ledger>(
    alloc: Global,
    model: &Model<N>,
    names: &[u32],
    ledger: &mut L,
) -> Result<Tree<N>, TreeStop>
    requires valid { IsValid N.value model.now }
    requires kept { first_rule (robust N.value model.now) names.now ≡ None }
    ensures tree { IfOk result (λ tree. IsGrownTree N.limit (robust N.value model.now) names.now
        (tree_of N.value tree)) }
    ensures true_of { IfOk result (λ tree. HasWholeStatus (robust N.value model.now) names.now
        (tree_of N.value tree).status (tree_of N.value tree).value) }
    ensures written { OnOk result (IsWritten N.limit (robust N.value model.now)) }
    ensures cause { IfErr result (HasCause N.limit (robust N.value model.now) names.now) }
    ensures counted { CountsGrowth L.ops L.wides ledger.old ledger.new result }
{
    let area = Area {
        model,
        names,
        path: &[],
    };
    match solve_model(alloc, model, ledger) {
        Err(stop) => Err(stopped(alloc, &[], stop)),
        Ok(cert) => match grow_from(alloc, area, start(), cert, ledger) {
            Err(stop) => Err(stop),
            Ok(grown) => Ok(tree_by(grown)),
        },
    }
}
