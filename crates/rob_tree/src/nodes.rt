//! The nodes of a tree's text, a branch before the nodes of its two boxes.

ghost use Rattle.std.specs.Fmt.{signed_decimal};
ghost use Rattle.std.specs.Prelude.{◌≡◌, ◌≢◌, ◌+◌, ◌^◌, ◌<◌, ◌≤◌, ◌↔◌, ℕ, codes, length, nat_abs, pos, IfOk, IfErr, IsTrue, MatchOption, MatchResult};
ghost use Rattle.rob_cert.specs.NamesView.{naming};
ghost use Rattle.rob_cert.specs.Reading.{words_in};
ghost use Rattle.rob_cert.specs.Spelling.{name_at};
ghost use Rattle.rob_cert.specs.View.{status_of};
ghost use Rattle.rob_meaning.specs.Named.{IsNamed};
ghost use Rattle.rob_meaning.specs.Certificates.{unbounded};
ghost use Rattle.rob_meaning.specs.Places.{Each};
ghost use Rattle.rob_model.specs.Valid.{IsValid};
ghost use Rattle.rob_model.specs.View.{robust};
ghost use Rattle.rob_number.specs.Counts.{NeverFell};
ghost use Rattle.rob_reach.specs.Trees.{IsIn, split};
ghost use Rattle.rob_tree.specs.Parts.{CanReadNodes, HasLeafCause, HasNodeCause, IsHead, IsHeadRead, IsLeafRead, IsNodeRead, IsSceneOf};
ghost use Rattle.rob_tree.specs.Reading.{IsBranchWord, IsNodeCause, IsNodeFault};
ghost use Rattle.rob_tree.specs.View.{node_of};
ghost use Rattle.rob_tree.specs.declared.error.TreeErr.TheVariants.{Memory};

use crate::error::{Offence, TreeErr};
use crate::lines::read_whole;
use crate::part::certificate_part;
use crate::tree::{Node, split_node};
use rob_cert::cursor::{split_byte, three_words};
use rob_cert::names::{Names, name_in};
use rob_cert::{CertErr, Status, read_cert};
use rob_model::Model;
use rob_number::{Exact, Ledger};
use std::alloc::Global;

/// What the nodes of a text are read for: a model, its named variables, the names of its columns, and what the tree
/// claims.
#[derive(Clone, Copy, Debug)]
pub struct Scene<'a, N> {
    pub model: &'a Model<N>,
    pub named: &'a [u32],
    pub names: &'a Names,
    pub status: Status,
}

/// Where a reader stands: what is left of the text, the number of its first line, and how many branches have come.
#[derive(Clone, Copy, Debug)]
pub struct Mark<'a> {
    pub rest: &'a [u8],
    pub line: u32,
    pub branches: u32,
}

/// What a line of a node tells.
#[derive(Clone, Copy, Debug)]
pub enum Head {
    /// A certificate follows.
    Leaf,
    /// A branch on the variable of that number at K.
    Branch(u32, i64),
    /// A leaf that is left open.
    Open,
}

/// What a line of a node tells, and where a reader stands behind it.
#[derive(Clone, Copy, Debug)]
struct HeadRead<'a> {
    head: Head,
    at: Mark<'a>,
}

/// A node that was read, and where a reader stands behind it.
#[derive(Debug, Drop)]
pub struct NodeRead<'a, N> {
    pub node: Node<N>,
    pub at: Mark<'a>,
}

/// The named variable that has the name.
fn find_named(names: &Names, named: &[u32], name: &[u8]) -> Option<u32>
    requires inside { Each (λ j. j < length names.now.columns) named.now }
    ensures found { MatchOption result
        ((j : ℕ) → IsIn j named.now → name.now ≡ name_at (naming names.now).columns j → ⊥)
        (λ j. IsIn j named.now × (name.now ≡ name_at (naming names.now).columns j)) }
{
    for column in named {
        if name_in(names.columns.items(), *column as usize) == name {
            return Some(*column);
        }
    }
    None
}

/// The K of a branch that a word spells: K + 1 is within the limit too.
fn read_k<N: Exact, L: Ledger>(word: &[u8], ledger: &mut L) -> Option<i64>
    ensures k { MatchOption result (IsBranchWord N.limit word.now → ⊥)
        (λ k. (nat_abs k ≤ N.limit) × (k ≢ pos N.limit) × (word.now ≡ signed_decimal k)) }
    ensures counted { NeverFell L.ops L.wides ledger.old ledger.new }
{
    let k = read_whole::<N, L>(word, ledger)?;
    if k == N::LIMIT { None } else { Some(k) }
}

/// What a line of a branch tells.
fn read_branch<N: Exact, L: Ledger>(
    scene: Scene<'_, N>,
    branches: u32,
    line: &[u8],
    ledger: &mut L,
) -> Result<Head, Offence>
    requires scene { IsSceneOf (robust N.value scene.model.now) scene.named.now
        (naming scene.names.now) }
    requires other { (line.now ≢ codes "leaf")
        × ((status_of scene.status ≡ unbounded) → line.now ≢ codes "open") }
    ensures head { MatchResult result
        (λ h. IsHead N.limit scene.entry.named.now (naming scene.entry.names.now).columns
        (status_of scene.entry.status) branches (words_in line.now) h)
        (λ o. IsNodeFault N.limit (robust N.value scene.entry.model.now) scene.entry.named.now
        (status_of scene.entry.status) branches (words_in line.now) o) }
    ensures counted { NeverFell L.ops L.wides ledger.old ledger.new }
{
    match three_words(line) {
        None => Err(Offence::NoLine),
        Some(words) => {
            if words.first != b"branch".as_slice() || branches >= 999 {
                return Err(Offence::NoLine);
            }
            match find_named(scene.names, scene.named, words.second) {
                None => Err(Offence::NoName),
                Some(column) => match read_k::<N, L>(words.third, ledger) {
                    None => Err(Offence::NoNumber),
                    Some(k) => Ok(Head::Branch(column, k)),
                },
            }
        }
    }
}

/// Whether a line is that of an open leaf, which an unbounded tree may have.
fn is_open(status: Status, line: &[u8]) -> bool
    ensures open { IsTrue result ↔ ((status_of status ≡ unbounded) × (line.now ≡ codes "open")) }
{
    match status {
        Status::Unbounded => line == b"open".as_slice(),
        _ => false,
    }
}

/// What a line of a node tells.
fn head_of<N: Exact, L: Ledger>(
    scene: Scene<'_, N>,
    branches: u32,
    line: &[u8],
    ledger: &mut L,
) -> Result<Head, Offence>
    requires scene { IsSceneOf (robust N.value scene.model.now) scene.named.now
        (naming scene.names.now) }
    ensures head { MatchResult result
        (λ h. IsHead N.limit scene.entry.named.now (naming scene.entry.names.now).columns
        (status_of scene.entry.status) branches (words_in line.now) h)
        (λ o. IsNodeFault N.limit (robust N.value scene.entry.model.now) scene.entry.named.now
        (status_of scene.entry.status) branches (words_in line.now) o) }
    ensures counted { NeverFell L.ops L.wides ledger.old ledger.new }
{
    if line == b"leaf".as_slice() {
        Ok(Head::Leaf)
    } else if is_open(scene.status, line) {
        Ok(Head::Open)
    } else {
        read_branch(scene, branches, line, ledger)
    }
}

/// What the next line tells.
fn read_head<'a, N: Exact, L: Ledger>(
    scene: Scene<'_, N>,
    at: Mark<'a>,
    ledger: &mut L,
) -> Result<HeadRead<'a>, Offence>
    requires scene { IsSceneOf (robust N.value scene.model.now) scene.named.now
        (naming scene.names.now) }
    requires small { at.line + length at.rest.now < 2 ^ 32 }
    ensures head { MatchResult result
        (λ h. IsHeadRead N.limit scene.entry.named.now (naming scene.entry.names.now).columns
        (status_of scene.entry.status) at.entry.rest.now at.entry.line at.entry.branches
        h.head h.at.rest.now h.at.line h.at.branches)
        (λ o. IsNodeCause N.limit (robust N.value scene.entry.model.now) scene.entry.named.now
        (status_of scene.entry.status) at.entry.branches at.entry.rest.now o) }
    ensures counted { NeverFell L.ops L.wides ledger.old ledger.new }
{
    match split_byte(at.rest, b'\n') {
        None => Err(Offence::NoLine),
        Some(split) => match head_of(scene, at.branches, split.front, ledger) {
            Err(offence) => Err(offence),
            Ok(head) => Ok(HeadRead {
                head,
                at: Mark {
                    rest: split.back,
                    line: at.line + 1,
                    branches: at.branches,
                },
            }),
        },
    }
}

/// The leaf of a certificate's lines.
fn read_leaf<'a, N: Exact, L: Ledger>(
    alloc: Global,
    scene: Scene<'_, N>,
    at: Mark<'a>,
    ledger: &mut L,
) -> Result<NodeRead<'a, N>, TreeErr>
    requires valid { IsValid N.value scene.model.now }
    requires named { IsNamed (robust N.value scene.model.now) }
    requires few { at.branches < 1000 }
    requires short { length at.rest.now ≤ 2 ^ 30 }
    requires small { at.line + length at.rest.now ≤ 2 ^ 30 + 1 }
    ensures read { IfOk result (λ r. IsLeafRead N.limit
        (robust N.value scene.entry.model.now) at.entry.rest.now
        at.entry.line at.entry.branches
        (node_of N.value r.node) r.at.rest.now r.at.line r.at.branches) }
    ensures fault { IfErr result (HasLeafCause N.limit (robust N.value scene.entry.model.now)
        at.entry.rest.now at.entry.line) }
    ensures counted { NeverFell L.ops L.wides ledger.old ledger.new }
{
    let part = certificate_part(at.rest);
    match read_cert(alloc, part.lines, scene.model, ledger) {
        Err(CertErr::Rule(rule, line)) => Err(TreeErr::Rule(rule, at.line + line - 1)),
        Err(CertErr::Memory) => Err(TreeErr::Memory),
        Ok(cert) => Ok(NodeRead {
            node: Node::Leaf(cert),
            at: Mark {
                rest: part.behind,
                line: at.line + part.count,
                branches: at.branches,
            },
        }),
    }
}

/// The node of a branch.
fn joined<'a, N: Exact>(
    alloc: Global,
    column: u32,
    k: i64,
    below: Node<N>,
    above: NodeRead<'a, N>,
) -> Result<NodeRead<'a, N>, TreeErr>
    ensures joined { IfOk result (λ r. (r.at ≡ above.entry.at)
        × (node_of N.value r.node
        ≡ split column k (node_of N.value below) (node_of N.value above.entry.node))) }
    ensures memory { IfErr result (λ e. e ≡ Memory) }
{
    let node = split_node(alloc, column, k, below, above.node)?;
    Ok(NodeRead { node, at: above.at })
}

/// A node: a leaf with its certificate, a branch with the nodes of its two boxes, or an open leaf.
pub fn read_node<'a, N: Exact, L: Ledger>(
    alloc: Global,
    scene: Scene<'_, N>,
    at: Mark<'a>,
    ledger: &mut L,
) -> Result<NodeRead<'a, N>, TreeErr>
    requires valid { IsValid N.value scene.model.now }
    requires ready { CanReadNodes (robust N.value scene.model.now) scene.named.now
        (naming scene.names.now) }
    requires few { at.branches < 1000 }
    requires small { at.line + length at.rest.now ≤ 2 ^ 30 + 1 }
    ensures read { IfOk result (λ r. IsNodeRead N.limit
        (robust N.value scene.entry.model.now) scene.entry.named.now
        (status_of scene.entry.status) at.entry.rest.now at.entry.line at.entry.branches
        (node_of N.value r.node) r.at.rest.now r.at.line r.at.branches) }
    ensures fault { IfErr result (HasNodeCause N.limit
        (robust N.value scene.entry.model.now) scene.entry.named.now
        (status_of scene.entry.status) at.entry.rest.now at.entry.line at.entry.branches) }
    ensures counted { NeverFell L.ops L.wides ledger.old ledger.new }
{
    match read_head(scene, at, ledger) {
        Err(offence) => Err(TreeErr::Rule(offence.rule(), at.line)),
        Ok(read) => match read.head {
            Head::Leaf => read_leaf(alloc, scene, read.at, ledger),
            Head::Open => Ok(NodeRead {
                node: Node::Open,
                at: read.at,
            }),
            Head::Branch(column, k) => {
                let first = Mark {
                    rest: read.at.rest,
                    line: read.at.line,
                    branches: read.at.branches + 1,
                };
                match read_node(alloc, scene, first, ledger) {
                    Err(error) => Err(error),
                    Ok(below) => match read_node(alloc, scene, below.at, ledger) {
                        Err(error) => Err(error),
                        Ok(above) => joined(alloc, column, k, below.node, above),
                    },
                }
            }
        },
    }
}
