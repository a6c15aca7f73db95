//! What of a statement has tokens, in each setting of its ranges.

ghost use Rattle.std.specs.Prelude.{◌≡◌, ◌+◌, [], ◌∷◌, map, IfOk, None, Some};
ghost use Rattle.std.specs.Option.{option_map};
ghost use Rattle.rob_index.specs.Counting as counting;
ghost use Rattle.rob_index.specs.Fast.{names_in, nest_of};
ghost use Rattle.rob_syntax.specs.Seen.{seen_bounds, seen_numeral, seen_over, seen_ranged, seen_ranges, seen_ref, seen_share, seen_statement, seen_tree};
ghost use Rattle.rob_expand.specs.Scopes.{IsPlaced, Pairwise};
ghost use Rattle.rob_expand.specs.Statements.{IsLine, IsParts, member_item, name_item};

use crate::line::Line;
use crate::place::{place, place_name, place_over};
use crate::placed::Placed;
use crate::scope::Scope;
use crate::tokens::{bounds_tokens, number_tokens, over_tokens, signed_tokens};
use rob_index_forms::ends_of;
use rob_number::{List, Memory};
use rob_ranges::Ends;
use rob_settings::around::{copied, with_name};
use rob_settings::inner::Inner;
use rob_settings::item::Item;
use rob_syntax::syntax::{Entry, Indexed, Range, Ranged, Ref, Rule, Share, Shares, Sides, Target};
use std::alloc::Global;

/// Ranges as forms, the outermost first, and the names that are bound inside them, the innermost first.
#[derive(Drop)]
pub struct Nest {
    pub ends: List<Ends>,
    pub names: List<usize>,
}

/// The ranges of a statement, and its line in each of their settings.
pub fn line_of(alloc: Global, limit: u64, statement: &Indexed) -> Result<(List<Ends>, Line), Memory>
    ensures line { IfOk result (λ p. IsLine limit (seen_statement statement.now) p.0 p.1) }
{
    match statement {
        Indexed::Uncertain(entry) => declaration(alloc, limit, entry),
        Indexed::Over(set) => set_name(alloc, limit, set),
        Indexed::Set(sides) => relation(alloc, limit, sides),
        Indexed::Row(name, sides) => row(alloc, limit, name, sides),
        Indexed::Goal(target) => goal(alloc, limit, target),
        Indexed::Budget(shares) => budget(alloc, limit, shares),
        Indexed::Var(entry) => declaration(alloc, limit, entry),
        Indexed::Adaptive(rule) => policy(alloc, limit, rule),
    }
}

/// A name that is declared, with its bounds.
fn declaration(alloc: Global, limit: u64, entry: &Entry) -> Result<(List<Ends>, Line), Memory>
    ensures parts { IfOk result (λ p. IsParts limit (seen_ranges entry.now.ranges)
        (3 + counting.bounds_tokens limit (option_map seen_bounds entry.now.bounds)) (Some (seen_ref entry.now.name))
        [] [] None p.0 p.1) }
{
    let nest = nest_in(alloc, &[], entry.ranges.items())?;
    let head = place_name(alloc, nest.names.items(), &entry.name)?;
    let bounds = bounds_tokens(limit, entry.bounds);
    let trees = List::new(alloc);
    let items = List::new(alloc);
    let line = Line {
        limit,
        base: 3 + bounds,
        head: Some(head),
        trees,
        items,
        over: None,
    };
    Ok((nest.ends, line))
}

/// A set that is declared.
fn set_name(alloc: Global, limit: u64, set: &Ranged<Ref>) -> Result<(List<Ends>, Line), Memory>
    ensures parts { IfOk result
        (λ p. IsParts limit (seen_ranges set.now.ranges) 3 (Some (seen_ref set.now.item)) [] [] None p.0 p.1) }
{
    let nest = nest_in(alloc, &[], set.ranges.items())?;
    let head = place_name(alloc, nest.names.items(), &set.item)?;
    let trees = List::new(alloc);
    let items = List::new(alloc);
    let line = Line {
        limit,
        base: 3,
        head: Some(head),
        trees,
        items,
        over: None,
    };
    Ok((nest.ends, line))
}

/// Two expressions with a relation between them.
fn relation(alloc: Global, limit: u64, sides: &Ranged<Sides>) -> Result<(List<Ends>, Line), Memory>
    ensures parts { IfOk result (λ p. IsParts limit (seen_ranges sides.now.ranges)
        (3 + counting.over_tokens limit (seen_over sides.now.item.over)) None
        (seen_tree sides.now.item.left ∷ seen_tree sides.now.item.right ∷ []) [] (seen_over sides.now.item.over)
        p.0 p.1) }
{
    let nest = nest_in(alloc, &[], sides.ranges.items())?;
    let trees = two_trees(alloc, nest.names.items(), &sides.item)?;
    let over = place_over(alloc, nest.names.items(), &sides.item.over)?;
    let tokens = over_tokens(&sides.item.over);
    let items = List::new(alloc);
    let line = Line {
        limit,
        base: 3 + tokens,
        head: None,
        trees,
        items,
        over,
    };
    Ok((nest.ends, line))
}

/// A row.
fn row(
    alloc: Global,
    limit: u64,
    name: &Ref,
    sides: &Ranged<Sides>,
) -> Result<(List<Ends>, Line), Memory>
    ensures parts { IfOk result (λ p. IsParts limit (seen_ranges sides.now.ranges)
        (5 + counting.over_tokens limit (seen_over sides.now.item.over)) (Some (seen_ref name.now))
        (seen_tree sides.now.item.left ∷ seen_tree sides.now.item.right ∷ []) [] (seen_over sides.now.item.over)
        p.0 p.1) }
{
    let nest = nest_in(alloc, &[], sides.ranges.items())?;
    let head = place_name(alloc, nest.names.items(), name)?;
    let trees = two_trees(alloc, nest.names.items(), &sides.item)?;
    let over = place_over(alloc, nest.names.items(), &sides.item.over)?;
    let tokens = over_tokens(&sides.item.over);
    let items = List::new(alloc);
    let line = Line {
        limit,
        base: 5 + tokens,
        head: Some(head),
        trees,
        items,
        over,
    };
    Ok((nest.ends, line))
}

/// Both sides of a relation.
fn two_trees(alloc: Global, names: &[usize], sides: &Sides) -> Result<List<Placed>, Memory>
    ensures trees { IfOk result (λ trees. Pairwise (IsPlaced [] names.now) trees
        (seen_tree sides.now.left ∷ seen_tree sides.now.right ∷ [])) }
{
    let mut scope = Scope::within(alloc, names)?;
    let left = place(alloc, &mut scope, &sides.left)?;
    let right = place(alloc, &mut scope, &sides.right)?;
    let mut trees = List::new(alloc);
    trees.push(left)?;
    trees.push(right)?;
    Ok(trees)
}

/// A goal.
fn goal(alloc: Global, limit: u64, target: &Target) -> Result<(List<Ends>, Line), Memory>
    ensures parts { IfOk result (λ p. IsParts limit (seen_ranges target.now.ranges)
        (2 + counting.over_tokens limit (seen_over target.now.over)) None (seen_tree target.now.objective ∷ []) []
        (seen_over target.now.over) p.0 p.1) }
{
    let nest = nest_in(alloc, &[], target.ranges.items())?;
    let mut scope = Scope::within(alloc, nest.names.items())?;
    let tree = place(alloc, &mut scope, &target.objective)?;
    let mut trees = List::new(alloc);
    trees.push(tree)?;
    let over = place_over(alloc, nest.names.items(), &target.over)?;
    let tokens = over_tokens(&target.over);
    let items = List::new(alloc);
    let line = Line {
        limit,
        base: 2 + tokens,
        head: None,
        trees,
        items,
        over,
    };
    Ok((nest.ends, line))
}

/// A budget, which has no ranges of its own.
fn budget(alloc: Global, limit: u64, shares: &Shares) -> Result<(List<Ends>, Line), Memory>
    ensures parts { IfOk result (λ p. IsParts limit []
        (3 + (counting.number_tokens limit (seen_numeral shares.now.limit)
        + counting.over_tokens limit (seen_over shares.now.over)))
        None [] (map (member_item limit []) (map (seen_ranged seen_share) shares.now.members))
        (seen_over shares.now.over) p.0 p.1) }
{
    let items = member_items(alloc, limit, shares.members.items())?;
    let over = place_over(alloc, &[], &shares.over)?;
    let number = number_tokens(limit, shares.limit);
    let tokens = over_tokens(&shares.over);
    let ranges = List::new(alloc);
    let trees = List::new(alloc);
    let line = Line {
        limit,
        base: 3 + (number + tokens),
        head: None,
        trees,
        items,
        over,
    };
    Ok((ranges, line))
}

/// An adaptive variable.
fn policy(alloc: Global, limit: u64, rule: &Rule) -> Result<(List<Ends>, Line), Memory>
    ensures parts { IfOk result (λ p. IsParts limit (seen_ranges rule.now.ranges)
        (5 + counting.bounds_tokens limit (option_map seen_bounds rule.now.bounds)) (Some (seen_ref rule.now.name)) []
        (map (name_item (names_in [] (seen_ranges rule.now.ranges))) (map (seen_ranged seen_ref) rule.now.on)) None
        p.0 p.1) }
{
    let nest = nest_in(alloc, &[], rule.ranges.items())?;
    let head = place_name(alloc, nest.names.items(), &rule.name)?;
    let items = name_items(alloc, nest.names.items(), rule.on.items())?;
    let bounds = bounds_tokens(limit, rule.bounds);
    let trees = List::new(alloc);
    let line = Line {
        limit,
        base: 5 + bounds,
        head: Some(head),
        trees,
        items,
        over: None,
    };
    Ok((nest.ends, line))
}

/// Ranges inside others, which bind these names.
pub fn nest_in(alloc: Global, names: &[usize], ranges: &[Range]) -> Result<Nest, Memory>
    ensures ends { IfOk result (λ nest. nest.ends ≡ nest_of names.now (seen_ranges ranges.now)) }
    ensures names { IfOk result (λ nest. nest.names ≡ names_in names.now (seen_ranges ranges.now)) }
{
    let mut ends = List::new(alloc);
    let mut inside = copied(alloc, names)?;
    for range in ranges {
        ends.push(ends_of(alloc, inside.items(), range)?)?;
        inside = with_name(alloc, range.name, inside.items())?;
    }
    Ok(Nest {
        ends,
        names: inside,
    })
}

/// The members of a budget.
fn member_items(alloc: Global, limit: u64, members: &[Ranged<Share>]) -> Result<List<Item>, Memory>
    ensures items { IfOk result (λ items.
        items ≡ map (member_item limit []) (map (seen_ranged seen_share) members.now)) }
{
    let mut made = List::new(alloc);
    for member in members {
        let nest = nest_in(alloc, &[], member.ranges.items())?;
        let name = place_name(alloc, nest.names.items(), &member.item.name)?;
        let centre = signed_tokens(limit, member.item.centre);
        let deviation = number_tokens(limit, member.item.deviation);
        let ranges = Inner::new(alloc, nest.ends)?;
        made.push(Item {
            name,
            behind: 2 + (centre + deviation),
            ranges,
        })?;
    }
    Ok(made)
}

/// The names of a list.
fn name_items(alloc: Global, names: &[usize], on: &[Ranged<Ref>]) -> Result<List<Item>, Memory>
    ensures items { IfOk result (λ items.
        items ≡ map (name_item names.now) (map (seen_ranged seen_ref) on.now)) }
{
    let mut made = List::new(alloc);
    for entry in on {
        let nest = nest_in(alloc, names, entry.ranges.items())?;
        let name = place_name(alloc, nest.names.items(), &entry.item)?;
        let ranges = Inner::new(alloc, nest.ends)?;
        made.push(Item {
            name,
            behind: 0,
            ranges,
        })?;
    }
    Ok(made)
}
