//! The answers of `whole` and `tree`.

ghost use Rattle.std.specs.Prelude.{◌≡◌, ◌≤◌, IfOk};
ghost use Rattle.rob_cert.specs.View.{status_of};
ghost use Rattle.rob_meaning.specs.Named.{IsNamed};
ghost use Rattle.rob_model.specs.Valid.{IsValid};
ghost use Rattle.rob_model.specs.View.{robust};
ghost use Rattle.rob_reach.specs.Ranges.{KeepsBothBounds, KeepsNames};
ghost use Rattle.rob_reach.specs.Trees.{ProvesTree};
ghost use Rattle.rob_tree.specs.Shape.{HasTreeShape};
ghost use Rattle.rob_tree.specs.View.{tree_of};
ghost use Rattle.rob_top.specs.Branched.{IsPrintedTree};
ghost use Rattle.rob_top.specs.Calls.{count};
ghost use Rattle.rob_top.specs.Commands.{IsBranching};
ghost use Rattle.rob_top.specs.Work.{AnswersNames, AnswersVariables};
ghost use Rattle.rob_commands.specs.Replies.{ended_of};

use crate::names::variables_of;
use rob_branch::grow_tree;
use rob_commands::Ended;
use rob_commands::certificates::ended_by;
use rob_commands::reply::{Reply, broken_words};
use rob_commands::trees::{report, ungrown};
use rob_model::Model;
use rob_number::{Exact, Ledger, Memory, Text};
use rob_tree::{Tree, write_tree};
use rob_words::Verb;
use std::alloc::Global;

/// The answer for the text of a list of names.
pub fn branch_text<N: Exact + Drop, L: Ledger>(
    alloc: Global,
    model: &Model<N>,
    verb: Verb,
    names: &str,
    ledger: &mut L,
) -> Result<Reply, Memory>
    requires valid { IsValid N.value model.now }
    requires named { IsNamed (robust N.value model.now) }
    requires branches { IsBranching verb }
    ensures answers { IfOk result (AnswersNames N.limit
        (count (L.wides ledger.old) (L.wides ledger.new))
        (robust N.value model.now) verb names.now) }
    ensures counted { L.wides ledger.old ≤ L.wides ledger.new }
{
    let found = variables_of(alloc, model, names)?;
    match found {
        Some(numbers) => on_variables(alloc, model, verb, numbers.items(), ledger),
        None => broken_words(alloc, Ended::Whole(61), b"whole ", 61),
    }
}

/// The answer for variables that are to take whole numbers.
fn on_variables<N: Exact + Drop, L: Ledger>(
    alloc: Global,
    model: &Model<N>,
    verb: Verb,
    numbers: &[u32],
    ledger: &mut L,
) -> Result<Reply, Memory>
    requires valid { IsValid N.value model.now }
    requires branches { IsBranching verb }
    requires kept { KeepsNames (robust N.value model.now) numbers.now }
    ensures answers { IfOk result (AnswersVariables N.limit
        (count (L.wides ledger.old) (L.wides ledger.new))
        (robust N.value model.now) verb numbers.now) }
    ensures counted { L.wides ledger.old ≤ L.wides ledger.new }
{
    match grow_tree(alloc, model, numbers, ledger) {
        Ok(tree) => grown(alloc, model, verb, numbers, &tree),
        Err(stop) => ungrown(alloc, model, stop),
    }
}

/// The answer for a tree that proves.
fn grown<N: Exact>(
    alloc: Global,
    model: &Model<N>,
    verb: Verb,
    numbers: &[u32],
    tree: &Tree<N>,
) -> Result<Reply, Memory>
    requires valid { IsValid N.value model.now }
    requires branches { IsBranching verb }
    requires bounded { KeepsBothBounds (robust N.value model.now) numbers.now }
    requires shape { HasTreeShape N.limit (robust N.value model.now) numbers.now
        (tree_of N.value tree.now) }
    requires proves { ProvesTree (robust N.value model.now) numbers.now (tree_of N.value tree.now) }
    ensures status { IfOk result (λ reply. reply.ended ≡ ended_of (status_of tree.now.status)) }
    ensures printed { IfOk result (λ reply. IsPrintedTree verb
        (robust N.value model.now) numbers.now
        (tree_of N.value tree.now) reply.text) }
{
    let text = printed(alloc, model, verb, numbers, tree)?;
    Ok(Reply {
        ended: ended_by(tree.status),
        text,
    })
}

/// What a command prints of a tree: `tree` the tree itself.
fn printed<N: Exact>(
    alloc: Global,
    model: &Model<N>,
    verb: Verb,
    numbers: &[u32],
    tree: &Tree<N>,
) -> Result<Text, Memory>
    requires valid { IsValid N.value model.now }
    requires branches { IsBranching verb }
    requires bounded { KeepsBothBounds (robust N.value model.now) numbers.now }
    requires shape { HasTreeShape N.limit (robust N.value model.now) numbers.now
        (tree_of N.value tree.now) }
    requires proves { ProvesTree (robust N.value model.now) numbers.now (tree_of N.value tree.now) }
    ensures printed { IfOk result (IsPrintedTree verb (robust N.value model.now) numbers.now
        (tree_of N.value tree.now)) }
{
    match verb {
        Verb::Whole => report(alloc, model, numbers, tree),
        Verb::Tree => write_tree(alloc, model, tree),
        _ => unreachable!(),
    }
}
