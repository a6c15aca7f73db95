//! The tree that a text is.

ghost use Rattle.std.specs.Prelude.{◌≡◌, ◌^◌, ◌≤◌, None, length, nat_abs, IfOk, IfErr, IsTrue, ◌↔◌, ◌<◌, ◌+◌};
ghost use Rattle.rob_cert.specs.Apart.{IsNamedInWords};
ghost use Rattle.rob_cert.specs.NamesView.{naming};
ghost use Rattle.rob_cert.specs.View.{status_of};
ghost use Rattle.rob_meaning.specs.Named.{IsNamed};
ghost use Rattle.rob_model.specs.Valid.{IsValid};
ghost use Rattle.rob_model.specs.View.{robust};
ghost use Rattle.rob_number.specs.Counts.{NeverFell};
ghost use Rattle.rob_reach.specs.Ranges.{KeepsBothBounds, whole_rule};
ghost use Rattle.rob_reach.specs.Trees as trees;
ghost use Rattle.rob_tree.specs.Parts.{CanReadNodes, HasEndCause, HasRootCause, IsEnded, IsLeafNumber, IsReadTree, IsRootRead, tree_with};
ghost use Rattle.rob_tree.specs.Reading.{HasCause, Reads, TreeFits};
ghost use Rattle.rob_tree.specs.ClaimLines.{greatest_leaf};
ghost use Rattle.rob_tree.specs.TreeText.{IsTextOfTree};
ghost use Rattle.rob_tree.specs.View.{node_of, tree_of};

use crate::error::{Offence, TreeErr};
use crate::lines::{Claim, Shown, read_best, read_claim};
use crate::nodes::{Mark, NodeRead, Scene, read_node};
use crate::tree::Tree;
use rob_cert::Status;
use rob_cert::names::Names;
use rob_model::Model;
use rob_number::{Exact, Ledger};
use std::alloc::Global;

/// Whether the number is that of a leaf, in a tree of that many branches; where no leaf shows the status, whether it is
/// 0.
fn is_leaf_number(status: Status, best: i64, branches: u32) -> bool
    ensures test { IsTrue result ↔ IsLeafNumber (status_of status) best branches }
{
    match status {
        Status::Infeasible => best == 0,
        _ => 0 < best && best <= branches as i64 + 1,
    }
}

/// The tree of a root that was read, with nothing behind it and `best` naming a leaf.
fn finished<N: Exact>(claim: Claim<N>, best: i64, root: NodeRead<'_, N>) -> Result<Tree<N>, TreeErr>
    requires few { root.at.branches < 1000 }
    ensures ended { IfOk result (λ tree. IsEnded
        (status_of claim.status) best root.entry.at.rest.now root.entry.at.branches) }
    ensures tree { IfOk result (λ tree. tree_of N.value tree
        ≡ tree_with (status_of claim.status) (N.value claim.value) best
        (node_of N.value root.entry.node)) }
    ensures fault { IfErr result (HasEndCause
        (status_of claim.status) best root.entry.at.rest.now root.entry.at.line
        root.entry.at.branches) }
{
    if !root.at.rest.is_empty() {
        return Err(TreeErr::Rule(Offence::NoLine.rule(), root.at.line));
    }
    if !is_leaf_number(claim.status, best, root.at.branches) {
        return Err(TreeErr::Rule(Offence::NoName.rule(), 2));
    }
    Ok(Tree {
        status: claim.status,
        value: claim.value,
        best: best as u32,
        root: root.node,
    })
}

/// The tree of a claim and the lines behind it.
fn read_root<N: Exact, L: Ledger>(
    alloc: Global,
    scene: Scene<'_, N>,
    claim: Claim<N>,
    shown: Shown<'_>,
    ledger: &mut L,
) -> Result<Tree<N>, TreeErr>
    requires valid { IsValid N.value scene.model.now }
    requires ready { CanReadNodes (robust N.value scene.model.now) scene.named.now
        (naming scene.names.now) }
    requires same { scene.status ≡ claim.status }
    requires small { shown.line + length shown.rest.now ≤ 2 ^ 30 + 1 }
    requires best { nat_abs shown.best ≤ greatest_leaf }
    ensures read { IfOk result (λ tree. IsRootRead N.limit
        (robust N.value scene.entry.model.now) scene.entry.named.now
        (status_of claim.status) shown.entry.best (N.value claim.value) shown.entry.rest.now
        (tree_of N.value tree)) }
    ensures fault { IfErr result (HasRootCause N.limit
        (robust N.value scene.entry.model.now) scene.entry.named.now
        (status_of claim.status) shown.entry.best shown.entry.rest.now shown.entry.line) }
    ensures counted { NeverFell L.ops L.wides ledger.old ledger.new }
{
    let at = Mark {
        rest: shown.rest,
        line: shown.line,
        branches: 0,
    };
    match read_node(alloc, scene, at, ledger) {
        Err(error) => Err(error),
        Ok(root) => finished(claim, shown.best, root),
    }
}

/// The tree of a text, with the names of the model's columns at hand.
fn read_text<N: Exact, L: Ledger>(
    alloc: Global,
    text: &[u8],
    model: &Model<N>,
    named: &[u32],
    names: &Names,
    ledger: &mut L,
) -> Result<Tree<N>, TreeErr>
    requires valid { IsValid N.value model.now }
    requires ready { CanReadNodes (robust N.value model.now) named.now (naming names.now) }
    requires bounded { KeepsBothBounds (robust N.value model.now) named.now }
    requires small { length text.now ≤ 2 ^ 30 }
    ensures read { IfOk result (λ tree. IsReadTree N.limit (robust N.value model.now) named.now
        (tree_of N.value tree) text.now) }
    ensures fault { IfErr result (HasCause N.limit (robust N.value model.now) named.now text.now) }
    ensures counted { NeverFell L.ops L.wides ledger.old ledger.new }
{
    match read_claim(text, ledger) {
        Err(offence) => Err(TreeErr::Rule(offence.rule(), 1)),
        Ok(read) => match read_best(read.claim.status, read.rest, ledger) {
            Err(offence) => Err(TreeErr::Rule(offence.rule(), 2)),
            Ok(shown) => {
                let scene = Scene {
                    model,
                    named,
                    names,
                    status: read.claim.status,
                };
                read_root(alloc, scene, read.claim, shown, ledger)
            }
        },
    }
}

/// The tree for the model and its named variables that a text is: each text is that of one tree at most. The first bad
/// line decides, and on it the lowest rule; that `best` names a leaf is judged last. A text is at most 2^30 bytes long.
/// `names` are the numbers of the variables that take whole numbers, from 0. `Rule` has the rule, 31 to 33 or 71 to 73,
/// and the line, from 1; `Memory` may come at any text.
pub fn read_tree<N: Exact, L: Ledger>(
    alloc: Global,
    text: &[u8],
    model: &Model<N>,
    names: &[u32],
    ledger: &mut L,
) -> Result<Tree<N>, TreeErr>
    requires valid { IsValid N.value model.now }
    requires named { IsNamed (robust N.value model.now) }
    requires rule { whole_rule (robust N.value model.now) names.now ≡ None }
    requires small { length text.now ≤ 2 ^ 30 }
    // The text is the tree's, whose numbers fit.
    ensures read { IfOk result (λ tree. IsReadTree N.limit (robust N.value model.now) names.now
        (tree_of N.value tree) text.now) }
    ensures fault { IfErr result (HasCause N.limit (robust N.value model.now) names.now text.now) }
    // Where no name has a space or a line's end, each text of a tree with numbers that fit is read as that tree.
    ensures exact { (t : trees.Tree) → IsNamedInWords (robust N.value model.now)
        → IsTextOfTree N.limit (robust N.value model.now) names.now t text.now
        → TreeFits N.limit (robust N.value model.now) t → Reads N.value t result }
    ensures counted { NeverFell L.ops L.wides ledger.old ledger.new }
{
    match Names::of(alloc, model) {
        Err(memory) => Err(TreeErr::from(memory)),
        Ok(columns) => read_text(alloc, text, model, names, &columns, ledger),
    }
}
