//! Branch trees: grown and written, and texts read as trees.

ghost use Rattle.std.specs.Prelude.{◌≡◌, None};
ghost use Rattle.rob_meaning.specs.Named.{IsNamed};
ghost use Rattle.rob_model.specs.Valid.{IsValid};
ghost use Rattle.rob_model.specs.View.{robust};
ghost use Rattle.rob_reach.specs.Ranges.{KeepsBothBounds, whole_rule as first_rule};
ghost use Rattle.rob_tree.specs.Shape.{HasTreeShape};
ghost use Rattle.rob_tree.specs.View.{tree_of};

use crate::answer::Answer;
use crate::boxes::keeps_rules;
use crate::given;
use crate::stops::{empty, wide};
use rob_branch::grow_tree;
use rob_case::Trouble;
use rob_cert::Status;
use rob_model::Model;
use rob_number::{Exact, Tally, Text};
use rob_tree::{Branch, Node, Tree, TreeErr, TreeStop, read_tree, write_tree};
use std::alloc::Global;

/// The tree that the columns of a line grow, or why none does: its text, or what it claims and its nodes.
pub(crate) fn grown<N: Exact>(
    answer: &mut Answer,
    model: &Model<N>,
    line: &str,
    as_text: bool,
) -> Result<(), Trouble>
    requires valid { IsValid N.value model.now }
{
    let columns = given::columns(answer.alloc, line)?;
    of_columns(answer, model, columns.as_slice(), as_text)
}

/// The tree that columns grow, or why none does.
fn of_columns<N: Exact>(
    answer: &mut Answer,
    model: &Model<N>,
    columns: &[u32],
    as_text: bool,
) -> Result<(), Trouble>
    requires valid { IsValid N.value model.now }
{
    match grow_tree(answer.alloc, model, columns, &mut Tally::new()) {
        Ok(tree) => of_tree(answer, model, columns, &tree, as_text),
        Err(stop) => stopped(answer, stop),
    }
}

/// The text of a tree of named columns, or what it claims and its nodes.
fn of_tree<N: Exact>(
    answer: &mut Answer,
    model: &Model<N>,
    columns: &[u32],
    tree: &Tree<N>,
    as_text: bool,
) -> Result<(), Trouble>
    requires valid { IsValid N.value model.now }
    requires shape { HasTreeShape N.limit (robust N.value model.now) columns.now
        (tree_of N.value tree.now) }
{
    if as_text {
        return answer.show(written(answer.alloc, model, columns, tree)?);
    }
    claim(answer, "", tree.status, tree.value)?;
    answer.tell(" by leaf ", &tree.best)?;
    answer.say(" of")?;
    put_node(answer, &tree.root)
}

/// Appends words, and behind them a status and the value where there is one.
fn claim<N: Exact>(
    answer: &mut Answer,
    words: &str,
    status: Status,
    value: N,
) -> Result<(), Trouble> {
    answer.say(words)?;
    match status {
        Status::Optimal => answer.number("optimal ", value),
        Status::Infeasible => answer.say("infeasible"),
        Status::Unbounded => answer.say("unbounded"),
    }
}

/// Appends a node: what its certificate claims, that it is open, or its branch and the nodes behind it.
fn put_node<N: Exact>(answer: &mut Answer, node: &Node<N>) -> Result<(), Trouble> {
    match node {
        Node::Leaf(cert) => {
            claim(answer, " (", cert.status, cert.value)?;
            answer.say(")")
        }
        Node::Split(column, k, below, above) => {
            put_branch(answer, *column, *k)?;
            put_node(answer, below)?;
            put_node(answer, above)?;
            answer.say(")")
        }
        Node::Open => answer.say(" (open)"),
    }
}

/// Appends the branch of a node.
fn put_branch(answer: &mut Answer, column: u32, k: i64) -> Result<(), Trouble> {
    answer.tell(" (", &column)?;
    answer.tell(" at ", &k)?;
    answer.say(":")
}

/// Why no tree grows. It has the stop, and lends it.
fn stopped(answer: &mut Answer, stop: TreeStop) -> Result<(), Trouble> {
    told(answer, &stop)
}

/// What the stop of a tree tells.
fn told(answer: &mut Answer, stop: &TreeStop) -> Result<(), Trouble> {
    match stop {
        TreeStop::Rule(rule) => answer.tell("rule ", rule),
        TreeStop::EmptySet(weights) => empty(answer, weights.items()),
        TreeStop::Wide(path, spot) => {
            wide(answer, spot)?;
            put_path(answer, path.items())
        }
        TreeStop::Memory => Err(Trouble::Memory),
    }
}

/// Appends the branches of a path, each with its column.
fn put_path(answer: &mut Answer, path: &[Branch]) -> Result<(), Trouble> {
    for branch in path {
        answer.tell(" where ", &branch.column)?;
        answer.tell(sign(branch.at_most), &branch.k)?;
    }
    Ok(())
}

/// The sign of a branch.
fn sign(at_most: bool) -> &'static str {
    if at_most { " <= " } else { " >= " }
}

/// The text of a tree of named columns that keep both rules.
fn written<N: Exact>(
    alloc: Global,
    model: &Model<N>,
    columns: &[u32],
    tree: &Tree<N>,
) -> Result<Text, Trouble>
    requires valid { IsValid N.value model.now }
    requires shape { HasTreeShape N.limit (robust N.value model.now) columns.now
        (tree_of N.value tree.now) }
{
    keeps_rules(model, columns)?;
    Ok(write_tree(alloc, model, tree)?)
}

/// Whether a text is a tree of the columns of a line, and is written again; or the rule that it breaks and the line.
pub(crate) fn read<N: Exact>(
    answer: &mut Answer,
    text: &[u8],
    model: &Model<N>,
    line: &str,
) -> Result<(), Trouble>
    requires valid { IsValid N.value model.now }
    requires named { IsNamed (robust N.value model.now) }
{
    let columns = given::columns(answer.alloc, line)?;
    read_again(answer, text, model, columns.as_slice())
}

/// Whether a text is a tree of named columns, and is written again.
fn read_again<N: Exact>(
    answer: &mut Answer,
    text: &[u8],
    model: &Model<N>,
    columns: &[u32],
) -> Result<(), Trouble>
    requires valid { IsValid N.value model.now }
    requires named { IsNamed (robust N.value model.now) }
{
    keeps_rules(model, columns)?;
    if text.len() > 1 << 30 {
        return Err(Trouble::Line);
    }
    match read_tree(answer.alloc, text, model, columns, &mut Tally::new()) {
        Ok(tree) => same_text(answer, text, model, columns, &tree),
        Err(TreeErr::Rule(rule, line)) => broken(answer, rule, line),
        Err(TreeErr::Memory) => Err(Trouble::Memory),
    }
}

/// That a text breaks a rule in a line.
fn broken(answer: &mut Answer, rule: u8, line: u32) -> Result<(), Trouble> {
    answer.tell("rule ", &rule)?;
    answer.tell(" line ", &line)
}

/// Whether a tree of named columns is written as a text.
fn same_text<N: Exact>(
    answer: &mut Answer,
    text: &[u8],
    model: &Model<N>,
    columns: &[u32],
    tree: &Tree<N>,
) -> Result<(), Trouble>
    requires valid { IsValid N.value model.now }
    requires shape { HasTreeShape N.limit (robust N.value model.now) columns.now
        (tree_of N.value tree.now) }
{
    let again = written(answer.alloc, model, columns, tree)?;
    let same = again.bytes() == text;
    answer.say(if same {
        "written again"
    } else {
        "written otherwise"
    })
}
