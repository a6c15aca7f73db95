//! Which statements are those of version 1: no name has an index, and nothing has a range.

ghost use Rattle.std.specs.Prelude.{◌≡◌, map, MatchBool};
ghost use Rattle.rob_index.specs.PlainLines.{IsPlainLine};
ghost use Rattle.rob_syntax.specs.Plain as spec;
ghost use Rattle.rob_syntax.specs.Seen.{seen_over, seen_part, seen_ranged, seen_ref, seen_share, seen_sides, seen_statement, seen_tree, parts_of, factors_of};

use crate::syntax::{Indexed, Part, Range, Ranged, Ref, Share, Sides, Tree};
use rob_number::List;

/// Whether the statement is one of version 1.
pub fn is_plain(statement: &Indexed) -> bool
    ensures plain { MatchBool result (IsPlainLine (seen_statement statement.now))
        (IsPlainLine (seen_statement statement.now) → ⊥) }
{
    is_plain_line(statement)
}

/// The same, as it is tested.
fn is_plain_line(statement: &Indexed) -> bool
    ensures plain { result ≡ spec.is_plain_line (seen_statement statement.now) }
{
    match statement {
        Indexed::Uncertain(d) => has_no_index(&d.name) && has_no_range(&d.ranges),
        Indexed::Over(x) => has_no_index(&x.item) && has_no_range(&x.ranges),
        Indexed::Set(x) => are_plain_sides(&x.item) && has_no_range(&x.ranges),
        Indexed::Budget(b) => are_plain_members(b.members.items()) && is_plain_over(&b.over),
        Indexed::Var(d) => has_no_index(&d.name) && has_no_range(&d.ranges),
        Indexed::Adaptive(p) => {
            has_no_index(&p.name) && are_plain_entries(p.on.items()) && has_no_range(&p.ranges)
        }
        Indexed::Goal(g) => {
            is_plain_tree(&g.objective) && is_plain_over(&g.over) && has_no_range(&g.ranges)
        }
        Indexed::Row(name, x) => {
            has_no_index(name) && are_plain_sides(&x.item) && has_no_range(&x.ranges)
        }
    }
}

/// Whether the name has no index.
fn has_no_index(name: &Ref) -> bool
    ensures plain { result ≡ spec.is_nothing (seen_ref name.now).indices }
{
    name.indices.items().is_empty()
}

/// Whether there is no range.
fn has_no_range(ranges: &List<Range>) -> bool
    ensures plain { result ≡ spec.is_nothing ranges.now }
{
    ranges.items().is_empty()
}

/// Whether the name behind `over` has no index.
fn is_plain_over(over: &Option<Ref>) -> bool
    ensures plain { result ≡ spec.is_plain_over (seen_over over.now) }
{
    match over {
        Some(name) => has_no_index(name),
        None => true,
    }
}

/// Whether nothing on either side has an index or a range.
fn are_plain_sides(sides: &Sides) -> bool
    ensures plain { result ≡ spec.are_plain_sides (seen_sides sides.now) }
{
    is_plain_tree(&sides.left) && is_plain_tree(&sides.right) && is_plain_over(&sides.over)
}

/// Whether no member has an index or a range.
fn are_plain_members(members: &[Ranged<Share>]) -> bool
    ensures plain { result ≡ spec.are_plain_members (map (seen_ranged seen_share) members.now) }
{
    for member in members {
        if !has_no_range(&member.ranges) || !has_no_index(&member.item.name) {
            return false;
        }
    }
    true
}

/// Whether no entry has an index or a range.
fn are_plain_entries(entries: &[Ranged<Ref>]) -> bool
    ensures plain { result ≡ spec.are_plain_entries (map (seen_ranged seen_ref) entries.now) }
{
    for entry in entries {
        if !has_no_range(&entry.ranges) || !has_no_index(&entry.item) {
            return false;
        }
    }
    true
}

/// Whether the tree has no index and no sum over a range.
#[cycle(plain)]
fn is_plain_tree(tree: &Tree) -> bool
    ensures plain { result ≡ spec.is_plain_tree (seen_tree tree.now) }
{
    match tree {
        Tree::Number(_) => true,
        Tree::Ref(name) => has_no_index(name),
        Tree::Sum(parts) => are_plain_parts(parts.items()),
        Tree::Product(factors) => are_plain_factors(factors.items()),
        Tree::Ranged(_, _) => false,
    }
}

/// Whether no part of a sum has an index or a range.
#[cycle(plain)]
fn are_plain_parts(parts: &[Part]) -> bool
    ensures plain { result ≡ spec.are_plain_parts (parts_of (map seen_part parts.now)) }
{
    for part in parts {
        if !is_plain_tree(&part.inner) {
            return false;
        }
    }
    true
}

/// Whether no factor of a product has an index or a range.
#[cycle(plain)]
fn are_plain_factors(factors: &[Tree]) -> bool
    ensures plain { result ≡ spec.are_plain_factors (factors_of (map seen_tree factors.now)) }
{
    for factor in factors {
        if !is_plain_tree(factor) {
            return false;
        }
    }
    true
}
