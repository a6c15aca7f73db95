//! The answer of `checktree`.

ghost use Rattle.std.specs.Prelude.{◌≡◌, ◌≤◌, ◌^◌, ◌++◌, None, IfOk, OnOk, length};
ghost use Rattle.rob_meaning.specs.Named.{IsNamed};
ghost use Rattle.rob_model.specs.Valid.{IsValid};
ghost use Rattle.rob_model.specs.View.{robust};
ghost use Rattle.rob_reach.specs.Ranges as ranges;
ghost use Rattle.rob_reach.specs.Ranges.{KeepsNames};
ghost use Rattle.rob_report.specs.Lines.{line};
ghost use Rattle.rob_tree.specs.Shape.{HasTreeShape};
ghost use Rattle.rob_tree.specs.View.{tree_of};
ghost use Rattle.rob_top.specs.Calls.{count};
ghost use Rattle.rob_commands.specs.Replies.{Replies};
ghost use Rattle.rob_commands.specs.Answers.{fault_words, rejected_leaf_text};
ghost use Rattle.rob_top.specs.TreeWork.{AnswersTree, AnswersTreeFile, AnswersTreeNames, AnswersTreeNumbers, IsFaultOf, IsVerdictOf, RepliesVerdict};

use crate::checking::accepted;
use crate::names::variables_of;
use itoa::Buffer;
use rob_branch::check_tree;
use rob_commands::reply::{Reply, broken_rule, broken_words};
use rob_commands::{Ended, wide_node};
use rob_model::Model;
use rob_number::{Exact, Ledger, Memory, Text};
use rob_report::put_place;
use rob_tree::{LeafFault, Tree, TreeErr, TreeVerdict, read_tree, whole_rule};
use std::alloc::Global;

/// The answer of `checktree` for the texts of a list of names and of a branch tree.
pub fn check_tree_text<N: Exact + Drop, L: Ledger>(
    alloc: Global,
    model: &Model<N>,
    names: &str,
    text: &[u8],
    ledger: &mut L,
) -> Result<Reply, Memory>
    requires valid { IsValid N.value model.now }
    requires named { IsNamed (robust N.value model.now) }
    requires short { length text.now ≤ 2 ^ 30 }
    ensures answers { IfOk result (AnswersTreeNames N.limit
        (count (L.wides ledger.old) (L.wides ledger.new))
        (robust N.value model.now) names.now text.now) }
    ensures counted { L.wides ledger.old ≤ L.wides ledger.new }
{
    let found = variables_of(alloc, model, names)?;
    match found {
        Some(numbers) => on_numbers(alloc, model, numbers.items(), text, ledger),
        None => broken_words(alloc, Ended::Whole(61), b"whole ", 61),
    }
}

/// The answer for variables that are to take whole numbers.
fn on_numbers<N: Exact + Drop, L: Ledger>(
    alloc: Global,
    model: &Model<N>,
    numbers: &[u32],
    text: &[u8],
    ledger: &mut L,
) -> Result<Reply, Memory>
    requires valid { IsValid N.value model.now }
    requires named { IsNamed (robust N.value model.now) }
    requires kept { KeepsNames (robust N.value model.now) numbers.now }
    requires short { length text.now ≤ 2 ^ 30 }
    ensures answers { IfOk result (AnswersTreeNumbers N.limit
        (count (L.wides ledger.old) (L.wides ledger.new))
        (robust N.value model.now) numbers.now text.now) }
    ensures counted { L.wides ledger.old ≤ L.wides ledger.new }
{
    match whole_rule(model, numbers) {
        Some(rule) => broken_words(alloc, Ended::Whole(rule), b"whole ", rule),
        None => on_text(alloc, model, numbers, text, ledger),
    }
}

/// The answer for the text of a tree, where the named variables break no rule.
fn on_text<N: Exact + Drop, L: Ledger>(
    alloc: Global,
    model: &Model<N>,
    numbers: &[u32],
    text: &[u8],
    ledger: &mut L,
) -> Result<Reply, Memory>
    requires valid { IsValid N.value model.now }
    requires named { IsNamed (robust N.value model.now) }
    requires rule { ranges.whole_rule (robust N.value model.now) numbers.now ≡ None }
    requires short { length text.now ≤ 2 ^ 30 }
    ensures answers { IfOk result (AnswersTreeFile N.limit
        (count (L.wides ledger.old) (L.wides ledger.new))
        (robust N.value model.now) numbers.now text.now) }
    ensures counted { L.wides ledger.old ≤ L.wides ledger.new }
{
    match read_tree(alloc, text, model, numbers, ledger) {
        Ok(tree) => on_tree(alloc, model, numbers, &tree, ledger),
        Err(TreeErr::Rule(rule, number)) => {
            broken_rule(alloc, Ended::Tree(rule, number), b"tree ", rule, number)
        }
        Err(TreeErr::Memory) => Err(Memory),
    }
}

/// The answer for a tree.
fn on_tree<N: Exact, L: Ledger>(
    alloc: Global,
    model: &Model<N>,
    numbers: &[u32],
    tree: &Tree<N>,
    ledger: &mut L,
) -> Result<Reply, Memory>
    requires valid { IsValid N.value model.now }
    requires rule { ranges.whole_rule (robust N.value model.now) numbers.now ≡ None }
    requires shape { HasTreeShape N.limit (robust N.value model.now) numbers.now
        (tree_of N.value tree.now) }
    ensures answers { IfOk result (AnswersTree N.limit
        (count (L.wides ledger.old) (L.wides ledger.new))
        (robust N.value model.now) numbers.now (tree_of N.value tree.now)) }
    ensures counted { L.wides ledger.old ≤ L.wides ledger.new }
{
    let verdict = check_tree(alloc, model, numbers, tree, ledger);
    judged(alloc, model, tree, verdict)
}

/// The answer for a verdict on a tree.
fn judged<N: Exact>(
    alloc: Global,
    model: &Model<N>,
    tree: &Tree<N>,
    verdict: TreeVerdict,
) -> Result<Reply, Memory>
    requires valid { IsValid N.value model.now }
    requires named { IsVerdictOf (robust N.value model.now) verdict }
    ensures verdict { IfOk result (RepliesVerdict (robust N.value model.now)
        (tree_of N.value tree.now) verdict) }
{
    match verdict {
        TreeVerdict::Accepted => accepted(alloc, tree.status, tree.value),
        TreeVerdict::Rejected(number, fault) => rejected(alloc, model, number, fault),
        TreeVerdict::TooWide(path, spot) => wide_node(alloc, model, path, spot),
        TreeVerdict::Memory => Err(Memory),
    }
}

/// The answer for a tree that doesn't prove: what of which leaf fails.
fn rejected<N: Exact>(
    alloc: Global,
    model: &Model<N>,
    number: u32,
    fault: LeafFault,
) -> Result<Reply, Memory>
    requires valid { IsValid N.value model.now }
    requires named { IsFaultOf (robust N.value model.now) fault }
    ensures rejected { IfOk result (Replies (Ended.TreeRejected number fault)
        (rejected_leaf_text (robust N.value model.now) number fault)) }
{
    let mut text = Text::new(alloc);
    text.push(b"rejected leaf ")?;
    text.push(Buffer::new().format(number).as_bytes())?;
    text.push(b" ")?;
    put_fault(model, fault, &mut text)?;
    Ok(Reply {
        ended: Ended::TreeRejected(number, fault),
        text,
    })
}

/// Appends what of a leaf fails, and the line's end.
fn put_fault<N: Exact>(model: &Model<N>, fault: LeafFault, out: &mut Text) -> Result<(), Memory>
    requires valid { IsValid N.value model.now }
    requires named { IsFaultOf (robust N.value model.now) fault }
    ensures appended { OnOk result (out.new
        ≡ out.old ++ line (fault_words (robust N.value model.now) fault)) }
{
    match fault {
        LeafFault::At(place) => {
            put_place(model, place, out)?;
            out.push(b"\n")
        }
        LeafFault::Status => out.push(b"status\n"),
        LeafFault::Value => out.push(b"value\n"),
        LeafFault::Best => out.push(b"best\n"),
        LeafFault::Whole => out.push(b"whole\n"),
    }
}
