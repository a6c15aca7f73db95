//! The walk through the places of a statement, in their order, until what is looked for is found. A function that
//! answers leaves the ranges around as they were, but for `inside`, which enters those of the statement.

ghost use Rattle.std.specs.Prelude.{◌≡◌, map, IfOk, OnOk};
ghost use Rattle.rob_syntax.specs.Seen.{seen_index, seen_over, seen_part, parts_of, factors_of, seen_range, seen_ranged, seen_ranges, seen_ref, seen_share, seen_sides, seen_statement, seen_tree};
ghost use Rattle.rob_index.specs.Expansion.{ranges_of};
ghost use Rattle.rob_index.specs.Places.{places};
ghost use Rattle.rob_index.specs.Search.{search_on, search_places};
ghost use Rattle.rob_index.specs.Statements.{ranged};
ghost use Rattle.rob_places.specs.Tests.{is_set, test_of};
ghost use Rattle.rob_places.specs.Walk.{walk_each, walk_factors, walk_indices, walk_inner, walk_inside, walk_item, walk_optional, walk_parts, walk_sides, walk_tree};

use crate::around::Around;
use crate::test::{Task, Test, at_index, at_range};
use rob_number::Memory;
use rob_syntax::syntax::{Index, Indexed, Part, Range, Ranged, Ref, Share, Sides, Target, Tree};
use std::alloc::Global;

/// Whether what the ends of the ranges around a place tell is asked.
fn asks(test: Test) -> bool {
    match test {
        Test::Unknown | Test::GreatDigits => false,
        Test::SoughtLong | Test::Out => true,
    }
}

/// Indices of a name.
pub fn indices(
    alloc: Global,
    test: Test,
    around: &Around,
    indices: &[Index],
    left: &mut u32,
) -> Result<bool, Memory>
    ensures found { IfOk result (λ found.
        found ≡ (walk_indices test around.now (map seen_index indices.now) left.old).found) }
    ensures left { OnOk result (left.new
        ≡ (walk_indices test around.now (map seen_index indices.now) left.old).left) }
{
    for index in indices {
        if at_index(alloc, test, around, index, left)? {
            return Ok(true);
        }
    }
    Ok(false)
}

/// The name behind `over`, if one stands there.
fn optional(
    alloc: Global,
    test: Test,
    around: &Around,
    over: &Option<Ref>,
    left: &mut u32,
) -> Result<bool, Memory>
    ensures found { IfOk result (λ found. found
        ≡ (walk_optional test around.now (seen_over over.now) left.old).found) }
    ensures left { OnOk result (left.new
        ≡ (walk_optional test around.now (seen_over over.now) left.old).left) }
{
    match over {
        None => Ok(false),
        Some(name) => indices(alloc, test, around, name.indices.items(), left),
    }
}

/// An expression.
#[cycle(tree)]
fn tree(
    alloc: Global,
    task: &Task,
    around: &mut Around,
    tree: &Tree,
    left: &mut u32,
) -> Result<bool, Memory>
    ensures found { IfOk result (λ found. found
        ≡ (walk_tree (is_set task.now.declared.now) task.now.test around.old
        (seen_tree tree.now) left.old).found) }
    ensures left { OnOk result (left.new
        ≡ (walk_tree (is_set task.now.declared.now) task.now.test around.old
        (seen_tree tree.now) left.old).left) }
    ensures around { OnOk result (around.new ≡ around.old) }
{
    match tree {
        Tree::Number(_) => Ok(false),
        Tree::Ref(name) => indices(alloc, task.test, around, name.indices.items(), left),
        Tree::Sum(own) => parts(alloc, task, around, own.items(), left),
        Tree::Product(own) => factors(alloc, task, around, own.items(), left),
        Tree::Ranged(range, inner) => ranged(alloc, task, around, range, inner, left),
    }
}

/// A sum over a range.
#[cycle(tree)]
fn ranged(
    alloc: Global,
    task: &Task,
    around: &mut Around,
    range: &Range,
    inner: &Tree,
    left: &mut u32,
) -> Result<bool, Memory>
    ensures found { IfOk result (λ found. found
        ≡ (walk_tree (is_set task.now.declared.now) task.now.test around.old
        (ranged (seen_range range.now) (seen_tree inner.now)) left.old).found) }
    ensures left { OnOk result (left.new
        ≡ (walk_tree (is_set task.now.declared.now) task.now.test around.old
        (ranged (seen_range range.now) (seen_tree inner.now)) left.old).left) }
    ensures around { OnOk result (around.new ≡ around.old) }
{
    if at_range(alloc, task, around, range, left)? {
        return Ok(true);
    }
    around.enter(alloc, asks(task.test), range)?;
    let found = tree(alloc, task, around, inner, left)?;
    around.leave();
    Ok(found)
}

/// The parts of a sum.
#[cycle(tree)]
fn parts(
    alloc: Global,
    task: &Task,
    around: &mut Around,
    own: &[Part],
    left: &mut u32,
) -> Result<bool, Memory>
    ensures found { IfOk result (λ found. found
        ≡ (walk_parts (is_set task.now.declared.now) task.now.test around.old
        (parts_of (map seen_part own.now)) left.old).found) }
    ensures left { OnOk result (left.new
        ≡ (walk_parts (is_set task.now.declared.now) task.now.test around.old
        (parts_of (map seen_part own.now)) left.old).left) }
    ensures around { OnOk result (around.new ≡ around.old) }
{
    for part in own {
        if tree(alloc, task, around, &part.inner, left)? {
            return Ok(true);
        }
    }
    Ok(false)
}

/// The factors of a product.
#[cycle(tree)]
fn factors(
    alloc: Global,
    task: &Task,
    around: &mut Around,
    own: &[Tree],
    left: &mut u32,
) -> Result<bool, Memory>
    ensures found { IfOk result (λ found. found
        ≡ (walk_factors (is_set task.now.declared.now) task.now.test
        around.old (factors_of (map seen_tree own.now)) left.old).found) }
    ensures left { OnOk result (left.new
        ≡ (walk_factors (is_set task.now.declared.now) task.now.test around.old
        (factors_of (map seen_tree own.now)) left.old).left) }
    ensures around { OnOk result (around.new ≡ around.old) }
{
    for factor in own {
        if tree(alloc, task, around, factor, left)? {
            return Ok(true);
        }
    }
    Ok(false)
}

/// The name of an item, inside its ranges, of which the outermost comes first.
#[derive(Clone, Copy)]
struct RangedName<'a> {
    ranges: &'a [Range],
    name: &'a Ref,
}

/// An item with its ranges: these, then its name inside them. `asked`: whether much is asked inside the first.
#[tactic(auto, using(crate::proofs::AroundLemmas::outside_is, rob_ranges::proofs::NestLists::all_but_last_is))]
fn item(
    alloc: Global,
    task: &Task,
    around: &mut Around,
    asked: bool,
    own: RangedName,
    left: &mut u32,
) -> Result<bool, Memory>
    ensures found { IfOk result (λ found. found
        ≡ (walk_item (is_set task.now.declared.now) task.now.test around.old
        (seen_ranges own.entry.ranges.now) (seen_ref own.entry.name.now) left.old).found) }
    ensures left { OnOk result (left.new
        ≡ (walk_item (is_set task.now.declared.now) task.now.test around.old
        (seen_ranges own.entry.ranges.now) (seen_ref own.entry.name.now) left.old).left) }
    ensures around { OnOk result (around.new ≡ around.old) }
{
    let name = own.name;
    match own.ranges {
        [] => indices(alloc, task.test, around, name.indices.items(), left),
        [outermost, ranges @ ..] => {
            if at_range(alloc, task, around, outermost, left)? {
                return Ok(true);
            }
            around.enter(alloc, asked, outermost)?;
            let many = asks(task.test) && ranges.len() > 1;
            let found = item(alloc, task, around, many, RangedName { ranges, name }, left)?;
            around.leave();
            Ok(found)
        }
    }
}

/// The members of a budget.
fn members(
    alloc: Global,
    task: &Task,
    around: &mut Around,
    own: &[Ranged<Share>],
    left: &mut u32,
) -> Result<bool, Memory>
    ensures found { IfOk result (λ found. found
        ≡ (walk_each (is_set task.now.declared.now) task.now.test
        (λ m. m.name) around.old (map (seen_ranged seen_share) own.now) left.old).found) }
    ensures left { OnOk result (left.new ≡ (walk_each (is_set task.now.declared.now) task.now.test
        (λ m. m.name) around.old (map (seen_ranged seen_share) own.now) left.old).left) }
    ensures around { OnOk result (around.new ≡ around.old) }
{
    for member in own {
        let ranges = member.ranges.items();
        let name = &member.item.name;
        let asked = asks(task.test);
        if item(
            alloc,
            task,
            around,
            asked,
            RangedName { ranges, name },
            left,
        )? {
            return Ok(true);
        }
    }
    Ok(false)
}

/// The parameters that an adaptive variable depends on.
fn entries(
    alloc: Global,
    task: &Task,
    around: &mut Around,
    own: &[Ranged<Ref>],
    left: &mut u32,
) -> Result<bool, Memory>
    ensures found { IfOk result (λ found. found
        ≡ (walk_each (is_set task.now.declared.now) task.now.test
        (λ r. r) around.old (map (seen_ranged seen_ref) own.now) left.old).found) }
    ensures left { OnOk result (left.new ≡ (walk_each (is_set task.now.declared.now) task.now.test
        (λ r. r) around.old (map (seen_ranged seen_ref) own.now) left.old).left) }
    ensures around { OnOk result (around.new ≡ around.old) }
{
    for entry in own {
        let ranges = entry.ranges.items();
        let name = &entry.item;
        let asked = asks(task.test);
        if item(
            alloc,
            task,
            around,
            asked,
            RangedName { ranges, name },
            left,
        )? {
            return Ok(true);
        }
    }
    Ok(false)
}

/// Both sides of a relation, then the name behind `over`.
fn sides(
    alloc: Global,
    task: &Task,
    around: &mut Around,
    own: &Sides,
    left: &mut u32,
) -> Result<bool, Memory>
    ensures found { IfOk result (λ found. found
        ≡ (walk_sides (is_set task.now.declared.now) task.now.test around.old
        (seen_sides own.now) left.old).found) }
    ensures left { OnOk result (left.new
        ≡ (walk_sides (is_set task.now.declared.now) task.now.test around.old
        (seen_sides own.now) left.old).left) }
{
    if tree(alloc, task, around, &own.left, left)? {
        return Ok(true);
    }
    if tree(alloc, task, around, &own.right, left)? {
        return Ok(true);
    }
    optional(alloc, task.test, around, &own.over, left)
}

/// What stands inside the ranges of a statement.
fn inner(
    alloc: Global,
    task: &Task,
    around: &mut Around,
    statement: &Indexed,
    left: &mut u32,
) -> Result<bool, Memory>
    ensures found { IfOk result (λ found. found
        ≡ (walk_inner (is_set task.now.declared.now) task.now.test around.old
        (seen_statement statement.now) left.old).found) }
    ensures left { OnOk result (left.new
        ≡ (walk_inner (is_set task.now.declared.now) task.now.test around.old
        (seen_statement statement.now) left.old).left) }
{
    match statement {
        Indexed::Uncertain(entry) => own_indices(alloc, task, around, &entry.name, left),
        Indexed::Over(set) => own_indices(alloc, task, around, &set.item, left),
        Indexed::Set(relation) => sides(alloc, task, around, &relation.item, left),
        Indexed::Budget(budget) => {
            if members(alloc, task, around, budget.members.items(), left)? {
                return Ok(true);
            }
            optional(alloc, task.test, around, &budget.over, left)
        }
        Indexed::Var(entry) => own_indices(alloc, task, around, &entry.name, left),
        Indexed::Adaptive(rule) => {
            if own_indices(alloc, task, around, &rule.name, left)? {
                return Ok(true);
            }
            entries(alloc, task, around, rule.on.items(), left)
        }
        Indexed::Goal(target) => objective(alloc, task, around, target, left),
        Indexed::Row(name, relation) => {
            if own_indices(alloc, task, around, name, left)? {
                return Ok(true);
            }
            sides(alloc, task, around, &relation.item, left)
        }
    }
}

/// The objective of a goal, then the name behind `over`.
fn objective(
    alloc: Global,
    task: &Task,
    around: &mut Around,
    target: &Target,
    left: &mut u32,
) -> Result<bool, Memory>
    ensures found { IfOk result (λ found. found ≡ (search_on
        (walk_tree (is_set task.now.declared.now) task.now.test around.old (seen_tree target.now.objective) left.old)
        (walk_optional task.now.test around.old (seen_over target.now.over))).found) }
    ensures left { OnOk result (left.new ≡ (search_on
        (walk_tree (is_set task.now.declared.now) task.now.test around.old (seen_tree target.now.objective) left.old)
        (walk_optional task.now.test around.old (seen_over target.now.over))).left) }
{
    if tree(alloc, task, around, &target.objective, left)? {
        return Ok(true);
    }
    optional(alloc, task.test, around, &target.over, left)
}

/// The indices of a name.
fn own_indices(
    alloc: Global,
    task: &Task,
    around: &Around,
    name: &Ref,
    left: &mut u32,
) -> Result<bool, Memory>
    ensures found { IfOk result (λ found.
        found ≡ (walk_indices task.now.test around.now (map seen_index name.now.indices) left.old).found) }
    ensures left { OnOk result
        (left.new ≡ (walk_indices task.now.test around.now (map seen_index name.now.indices) left.old).left) }
{
    indices(alloc, task.test, around, name.indices.items(), left)
}

/// The ranges of a statement.
fn ranges_of(statement: &Indexed) -> &[Range]
    ensures ranges { seen_ranges result.now ≡ ranges_of (seen_statement statement.now) }
{
    match statement {
        Indexed::Uncertain(entry) => entry.ranges.items(),
        Indexed::Over(set) => set.ranges.items(),
        Indexed::Set(relation) => relation.ranges.items(),
        Indexed::Budget(_) => &[],
        Indexed::Var(entry) => entry.ranges.items(),
        Indexed::Adaptive(rule) => rule.ranges.items(),
        Indexed::Goal(target) => target.ranges.items(),
        Indexed::Row(_, relation) => relation.ranges.items(),
    }
}

/// The same inside ranges that are still to be entered.
fn inside(
    alloc: Global,
    task: &Task,
    around: &mut Around,
    own: &[Range],
    statement: &Indexed,
    left: &mut u32,
) -> Result<bool, Memory>
    ensures found { IfOk result (λ found. found
        ≡ (walk_inside (is_set task.now.declared.now) task.now.test around.old
        (seen_ranges own.now) (seen_statement statement.now) left.old).found) }
    ensures left { OnOk result (left.new
        ≡ (walk_inside (is_set task.now.declared.now) task.now.test around.old
        (seen_ranges own.now) (seen_statement statement.now) left.old).left) }
{
    match own {
        [] => inner(alloc, task, around, statement, left),
        [outermost, others @ ..] => {
            if at_range(alloc, task, around, outermost, left)? {
                return Ok(true);
            }
            around.enter(alloc, asks(task.test), outermost)?;
            inside(alloc, task, around, others, statement, left)
        }
    }
}

/// A statement.
pub fn statement(
    alloc: Global,
    task: &Task,
    statement: &Indexed,
    left: &mut u32,
) -> Result<bool, Memory>
    ensures found { IfOk result (λ found. found
        ≡ (search_places (test_of (is_set task.now.declared.now) task.now.test)
        (places (seen_statement statement.now)) left.old).found) }
    ensures left { OnOk result (left.new
        ≡ (search_places (test_of (is_set task.now.declared.now) task.now.test)
        (places (seen_statement statement.now)) left.old).left) }
{
    let mut around = Around::new(alloc);
    inside(
        alloc,
        task,
        &mut around,
        ranges_of(statement),
        statement,
        left,
    )
}
