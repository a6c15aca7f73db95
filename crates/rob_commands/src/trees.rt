//! What is printed of a branch tree, and the answer where none grows.

ghost use Rattle.std.specs.Prelude.{◌≡◌, ◌≢◌, ◌++◌, IfOk, OnOk, codes};
ghost use Rattle.rob_cert.specs.View.{status_of};
ghost use Rattle.rob_meaning.specs.Certificates.{Certificate, infeasible};
ghost use Rattle.rob_model.specs.Valid.{IsValid};
ghost use Rattle.rob_model.specs.View.{robust};
ghost use Rattle.rob_reach.specs.Ranges.{KeepsBothBounds};
ghost use Rattle.rob_reach.specs.Trees.{ProvesTree};
ghost use Rattle.rob_report.specs.Lines.{line};
ghost use Rattle.rob_report.specs.Report.{report_of};
ghost use Rattle.rob_tree.specs.Shape.{HasTreeShape};
ghost use Rattle.rob_tree.specs.View.{tree_of};
ghost use Rattle.rob_commands.specs.TreeReport.{IsPlanText, IsReport, IsShownBy, nodes_line};
ghost use Rattle.rob_commands.specs.Stops.{IsUngrownOf, RepliesUngrown};

use crate::certificates::empty_set;
use crate::ended::Ended;
use crate::nodes::count_nodes;
use crate::paths::wide_node;
use crate::reply::{Reply, broken_words};
use itoa::Buffer;
use rob_cert::Status;
use rob_model::Model;
use rob_number::{Exact, Memory, Text};
use rob_report::report_text;
use rob_tree::{Tree, TreeStop, Walk, leaf_of};
use std::alloc::Global;

/// What `whole` prints of a tree: the report of the leaf that shows its status, and the number of nodes.
pub fn report<N: Exact>(
    alloc: Global,
    model: &Model<N>,
    numbers: &[u32],
    tree: &Tree<N>,
) -> Result<Text, Memory>
    requires valid { IsValid N.value model.now }
    requires bounded { KeepsBothBounds (robust N.value model.now) numbers.now }
    requires shape { HasTreeShape N.limit (robust N.value model.now) numbers.now
        (tree_of N.value tree.now) }
    requires proves { ProvesTree (robust N.value model.now) numbers.now (tree_of N.value tree.now) }
    ensures report { IfOk result (IsReport (robust N.value model.now) numbers.now
        (tree_of N.value tree.now)) }
{
    let mut text = plan_text(alloc, model, numbers, tree)?;
    put_nodes(&mut text, count_nodes(&tree.root))?;
    Ok(text)
}

/// Appends the line of the number of nodes.
fn put_nodes(out: &mut Text, count: u32) -> Result<(), Memory>
    ensures appended { OnOk result (out.new ≡ out.old ++ nodes_line count) }
{
    out.push(b"nodes ")?;
    out.push(Buffer::new().format(count).as_bytes())?;
    out.push(b"\n")
}

/// The report of the leaf that shows a tree's status; an infeasible tree has none.
fn plan_text<N: Exact>(
    alloc: Global,
    model: &Model<N>,
    numbers: &[u32],
    tree: &Tree<N>,
) -> Result<Text, Memory>
    requires valid { IsValid N.value model.now }
    requires bounded { KeepsBothBounds (robust N.value model.now) numbers.now }
    requires shape { HasTreeShape N.limit (robust N.value model.now) numbers.now
        (tree_of N.value tree.now) }
    requires proves { ProvesTree (robust N.value model.now) numbers.now (tree_of N.value tree.now) }
    ensures plan { IfOk result (IsPlanText (robust N.value model.now) numbers.now
        (tree_of N.value tree.now)
        (status_of tree.now.status)) }
{
    match tree.status {
        Status::Optimal => shown_text(alloc, model, numbers, tree),
        Status::Infeasible => infeasible_text(alloc),
        Status::Unbounded => shown_text(alloc, model, numbers, tree),
    }
}

/// The line of an infeasible model.
fn infeasible_text(alloc: Global) -> Result<Text, Memory>
    ensures text { IfOk result (λ text. text ≡ line (codes "infeasible")) }
{
    let mut text = Text::new(alloc);
    text.push(b"infeasible\n")?;
    Ok(text)
}

/// The report of the leaf that shows a status which has a plan.
fn shown_text<N: Exact>(
    alloc: Global,
    model: &Model<N>,
    numbers: &[u32],
    tree: &Tree<N>,
) -> Result<Text, Memory>
    requires valid { IsValid N.value model.now }
    requires bounded { KeepsBothBounds (robust N.value model.now) numbers.now }
    requires shape { HasTreeShape N.limit (robust N.value model.now) numbers.now
        (tree_of N.value tree.now) }
    requires proves { ProvesTree (robust N.value model.now) numbers.now (tree_of N.value tree.now) }
    requires planned { status_of tree.now.status ≢ infeasible }
    ensures shown { IfOk result (λ text. (c : Certificate)
        × IsShownBy (robust N.value model.now) numbers.now (tree_of N.value tree.now) c
        × (text ≡ report_of (robust N.value model.now) c)) }
{
    match leaf_of(&tree.root, tree.best) {
        Walk::Here(cert) => report_text(alloc, model, cert),
        Walk::Open => unreachable!(),
        Walk::Behind(_) => unreachable!(),
    }
}

/// The answer where no tree grows.
pub fn ungrown<N: Exact>(alloc: Global, model: &Model<N>, stop: TreeStop) -> Result<Reply, Memory>
    requires valid { IsValid N.value model.now }
    requires named { IsUngrownOf (robust N.value model.now) stop }
    ensures stop { IfOk result (RepliesUngrown (robust N.value model.now) stop) }
{
    match stop {
        TreeStop::Rule(rule) => broken_words(alloc, Ended::Whole(rule), b"whole ", rule),
        TreeStop::EmptySet(weights) => empty_set(alloc, model, weights),
        TreeStop::Wide(path, spot) => wide_node(alloc, model, path, spot),
        TreeStop::Memory => Err(Memory),
    }
}
