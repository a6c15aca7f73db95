//! The answer where a number is wide in a box.

ghost use Rattle.std.specs.Fmt.{signed_decimal};
ghost use Rattle.std.specs.Prelude.{◌≡◌, ◌<◌, ◌++◌, IfOk, OnOk, length};
ghost use Rattle.rob_meaning.specs.Names.{column_names};
ghost use Rattle.rob_model.specs.Valid.{IsValid};
ghost use Rattle.rob_model.specs.View.{robust};
ghost use Rattle.rob_report.specs.Lines.{line};
ghost use Rattle.rob_report.specs.Places.{IsSpotOf};
ghost use Rattle.rob_commands.specs.Answers.{branch_line, path_lines, branch_relation, wide_node_text};
ghost use Rattle.rob_commands.specs.Replies.{Replies};
ghost use Rattle.rob_commands.specs.Stops.{IsPathOf};

use crate::ended::Ended;
use crate::reply::Reply;
use rob_cert::spelling::put_whole;
use rob_model::{Model, Spot, put_column_name};
use rob_number::{Exact, List, Memory, Text};
use rob_report::spot_text;
use rob_tree::Branch;
use std::alloc::Global;

/// The answer where a number is wide in the box behind a path.
pub fn wide_node<N: Exact>(
    alloc: Global,
    model: &Model<N>,
    path: List<Branch>,
    spot: Spot,
) -> Result<Reply, Memory>
    requires valid { IsValid N.value model.now }
    requires named { IsSpotOf (robust N.value model.now) spot }
    requires columns { IsPathOf (robust N.value model.now) path }
    ensures wide { IfOk result (Replies (Ended.WideNode path spot)
        (wide_node_text (robust N.value model.now) path spot)) }
{
    let mut text = spot_text(alloc, model, &spot)?;
    put_path(&mut text, model, path.items())?;
    Ok(Reply {
        ended: Ended::WideNode(path, spot),
        text,
    })
}

/// Appends a line for each branch of a path.
fn put_path<N: Exact>(out: &mut Text, model: &Model<N>, path: &[Branch]) -> Result<(), Memory>
    requires valid { IsValid N.value model.now }
    requires columns { IsPathOf (robust N.value model.now) path.now }
    ensures appended { OnOk result (out.new
        ≡ out.old ++ path_lines (robust N.value model.now) path.now) }
{
    match path {
        [branch, path @ ..] => {
            put_branch(out, model, *branch)?;
            put_path(out, model, path)
        }
        [] => Ok(()),
    }
}

/// Appends the line of a branch.
fn put_branch<N: Exact>(out: &mut Text, model: &Model<N>, branch: Branch) -> Result<(), Memory>
    requires valid { IsValid N.value model.now }
    requires column { branch.column < length (column_names (robust N.value model.now)) }
    ensures appended { OnOk result (out.new
        ≡ out.old ++ branch_line (robust N.value model.now) branch) }
{
    out.push(b"where ")?;
    put_column_name(model, branch.column, out)?;
    put_bound(out, branch.at_most, branch.k)
}

/// Appends how a branch bounds its variable, and the line's end.
fn put_bound(out: &mut Text, at_most: bool, k: i64) -> Result<(), Memory>
    ensures appended { OnOk result (out.new
        ≡ out.old ++ (branch_relation at_most ++ line (signed_decimal k))) }
{
    out.push(relation(at_most))?;
    put_whole(out, k)?;
    out.push(b"\n")
}

/// The words between a variable and its bound.
fn relation(at_most: bool) -> &'static [u8]
    ensures words { result.now ≡ branch_relation at_most }
{
    if at_most { b" <= " } else { b" >= " }
}
