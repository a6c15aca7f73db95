//! How many indices a name may have.

ghost use Rattle.std.specs.Prelude.{◌≡◌, map};
ghost use Rattle.rob_index.specs.FewIndices as spec;
ghost use Rattle.rob_syntax.specs.Seen.{seen_over, seen_part, seen_ranged, seen_ref, seen_share, seen_sides, seen_statement, seen_tree, parts_of, factors_of};

use crate::syntax::{Indexed, Part, Ranged, Ref, Share, Sides, Tree};

/// The indices that a name may have: with one more the shortest name that it gives has over 32 bytes.
const MOST_INDICES: usize = 15;

/// Whether no name of the statement has more indices than it may.
pub fn has_few_indices(statement: &Indexed) -> bool
    ensures few { result ≡ spec.has_few_indices (seen_statement statement.now) }
{
    match statement {
        Indexed::Uncertain(d) => has_few(&d.name),
        Indexed::Over(x) => has_few(&x.item),
        Indexed::Set(x) => are_few_sides(&x.item),
        Indexed::Budget(b) => are_few_members(b.members.items()) && is_few_over(&b.over),
        Indexed::Var(d) => has_few(&d.name),
        Indexed::Adaptive(p) => has_few(&p.name) && are_few_entries(p.on.items()),
        Indexed::Goal(g) => is_few_tree(&g.objective) && is_few_over(&g.over),
        Indexed::Row(name, x) => has_few(name) && are_few_sides(&x.item),
    }
}

/// Whether the name has no more.
fn has_few(name: &Ref) -> bool
    ensures few { result ≡ spec.has_few (seen_ref name.now) }
{
    name.indices.items().len() <= MOST_INDICES
}

/// So of the name behind `over`.
fn is_few_over(over: &Option<Ref>) -> bool
    ensures few { result ≡ spec.is_few_over (seen_over over.now) }
{
    match over {
        Some(name) => has_few(name),
        None => true,
    }
}

/// So of the names on both sides.
fn are_few_sides(sides: &Sides) -> bool
    ensures few { result ≡ spec.are_few_sides (seen_sides sides.now) }
{
    is_few_tree(&sides.left) && is_few_tree(&sides.right) && is_few_over(&sides.over)
}

/// So of the name of each member.
fn are_few_members(members: &[Ranged<Share>]) -> bool
    ensures few { result ≡ spec.are_few_items (λ m. m.name)
        (map (seen_ranged seen_share) members.now) }
{
    for member in members {
        if !has_few(&member.item.name) {
            return false;
        }
    }
    true
}

/// So of each entry.
fn are_few_entries(entries: &[Ranged<Ref>]) -> bool
    ensures few { result ≡ spec.are_few_items (λ r. r) (map (seen_ranged seen_ref) entries.now) }
{
    for entry in entries {
        if !has_few(&entry.item) {
            return false;
        }
    }
    true
}

/// So of each name in the tree.
#[cycle(few)]
fn is_few_tree(tree: &Tree) -> bool
    ensures few { result ≡ spec.is_few_tree (seen_tree tree.now) }
{
    match tree {
        Tree::Number(_) => true,
        Tree::Ref(name) => has_few(name),
        Tree::Sum(parts) => are_few_parts(parts.items()),
        Tree::Product(factors) => are_few_factors(factors.items()),
        Tree::Ranged(_, inner) => is_few_tree(inner),
    }
}

/// So of each part of a sum.
#[cycle(few)]
fn are_few_parts(parts: &[Part]) -> bool
    ensures few { result ≡ spec.are_few_parts (parts_of (map seen_part parts.now)) }
{
    for part in parts {
        if !is_few_tree(&part.inner) {
            return false;
        }
    }
    true
}

/// So of each factor of a product.
#[cycle(few)]
fn are_few_factors(factors: &[Tree]) -> bool
    ensures few { result ≡ spec.are_few_factors (factors_of (map seen_tree factors.now)) }
{
    for factor in factors {
        if !is_few_tree(factor) {
            return false;
        }
    }
    true
}
