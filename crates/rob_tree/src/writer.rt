//! The text of a tree.

ghost use Rattle.std.specs.Fmt.{decimal, signed_decimal};
ghost use Rattle.std.specs.Prelude.{◌≡◌, ◌∷◌, ◌++◌, ◌<◌, [], codes, length, IfOk, OnOk};
ghost use Rattle.rob_cert.specs.Spelling.{cert_text, name_at, naming_of, spaced};
ghost use Rattle.rob_cert.specs.View.{certificate_of, status_of};
ghost use Rattle.rob_cert.specs.Shape.{HasShape};
ghost use Rattle.rob_meaning.specs.Names.{column_names};
ghost use Rattle.rob_model.specs.Valid.{IsValid};
ghost use Rattle.rob_model.specs.View.{robust};
ghost use Rattle.rob_tree.specs.Shape.{IsTreeOf};
ghost use Rattle.rob_tree.specs.TreeText.{IsSpelledWith, best_text, claim_text, pieces, pieces_text, tree_text};
ghost use Rattle.rob_tree.specs.View.{node_of, tree_of};

use crate::tree::{Node, Tree};
use itoa::Buffer;
use rob_cert::spelling::{put_named, put_whole, put_words};
use rob_cert::{Cert, Status, write_cert};
use rob_model::{Model, put_column_name};
use rob_number::{Exact, Memory, Text};
use std::alloc::Global;

/// The text of a tree: what it claims, the leaf that shows it, and its nodes, a branch before the nodes of its two
/// boxes. The one error is want of memory.
pub fn write_tree<N: Exact>(alloc: Global, model: &Model<N>, tree: &Tree<N>) -> Result<Text, Memory>
    requires valid { IsValid N.value model.now }
    requires shape { IsTreeOf N.limit (robust N.value model.now) (tree_of N.value tree.now) }
    ensures text { IfOk result (λ text. text
        ≡ tree_text (robust N.value model.now) (tree_of N.value tree.now)) }
{
    let mut text = Text::new(alloc);
    put_claim(&mut text, tree)?;
    put_best(&mut text, tree)?;
    put_node(alloc, &mut text, model, &tree.root)?;
    Ok(text)
}

/// Appends the line of what the tree claims.
fn put_claim<N: Exact>(out: &mut Text, tree: &Tree<N>) -> Result<(), Memory>
    ensures appended { OnOk result (out.new ≡ out.old
        ++ claim_text (status_of tree.now.status) (N.value tree.now.value)) }
{
    match tree.status {
        Status::Optimal => put_named(out, b"tree", b"optimal", tree.value),
        Status::Infeasible => put_words(out, b"tree", b"infeasible"),
        Status::Unbounded => put_words(out, b"tree", b"unbounded"),
    }
}

/// Appends the line of the leaf that shows it, where one does.
fn put_best<N: Exact>(out: &mut Text, tree: &Tree<N>) -> Result<(), Memory>
    ensures appended { OnOk result (out.new
        ≡ out.old ++ best_text (status_of tree.now.status) tree.now.best) }
{
    match tree.status {
        Status::Optimal => put_number(out, tree.best),
        Status::Infeasible => Ok(()),
        Status::Unbounded => put_number(out, tree.best),
    }
}

/// Appends the line of a leaf's number.
fn put_number(out: &mut Text, best: u32) -> Result<(), Memory>
    ensures appended { OnOk result (out.new
        ≡ out.old ++ spaced (codes "best" ∷ (decimal best ∷ []))) }
{
    let mut buffer = Buffer::new();
    put_words(out, b"best", buffer.format(best).as_bytes())
}

/// Appends the text of a node.
fn put_node<N: Exact>(
    alloc: Global,
    out: &mut Text,
    model: &Model<N>,
    node: &Node<N>,
) -> Result<(), Memory>
    requires valid { IsValid N.value model.now }
    requires spelled { IsSpelledWith N.limit (robust N.value model.now) (node_of N.value node.now) }
    ensures appended { OnOk result (out.new ≡ out.old
        ++ pieces_text (naming_of (robust N.value model.now)) (pieces (node_of N.value node.now))) }
{
    match node {
        Node::Leaf(cert) => put_leaf(alloc, out, model, cert),
        Node::Split(column, k, below, above) => {
            put_branch(out, model, *column, *k)?;
            put_node(alloc, out, model, below)?;
            put_node(alloc, out, model, above)
        }
        Node::Open => out.push(b"open\n"),
    }
}

/// Appends the lines of a leaf.
fn put_leaf<N: Exact>(
    alloc: Global,
    out: &mut Text,
    model: &Model<N>,
    cert: &Cert<N>,
) -> Result<(), Memory>
    requires valid { IsValid N.value model.now }
    requires shape { HasShape (robust N.value model.now) (certificate_of N.value cert.now) }
    ensures appended { OnOk result (out.new ≡ out.old
        ++ (spaced (codes "leaf" ∷ []) ++ cert_text (robust N.value model.now)
        (certificate_of N.value cert.now))) }
{
    out.push(b"leaf\n")?;
    let text = write_cert(alloc, model, cert)?;
    out.push(text.bytes())
}

/// Appends the line of a branch.
fn put_branch<N: Exact>(out: &mut Text, model: &Model<N>, column: u32, k: i64) -> Result<(), Memory>
    requires valid { IsValid N.value model.now }
    requires inside { column < length (column_names (robust N.value model.now)) }
    ensures appended { OnOk result (out.new ≡ out.old ++ spaced (codes "branch"
        ∷ (name_at (column_names (robust N.value model.now)) column ∷ (signed_decimal k ∷ [])))) }
{
    out.push(b"branch ")?;
    put_column_name(model, column, out)?;
    out.push(b" ")?;
    put_whole(out, k)?;
    out.push(b"\n")
}
