//! The plain statement that a statement stands for in a setting. A name is the number of its word.

ghost use Rattle.std.specs.Prelude.{◌≡◌, ◌++◌, [], map, false, IfOk, OnOk};
ghost use Rattle.std.specs.Option.{option_map};
ghost use Rattle.rob_syntax.specs.Known.{texts};
ghost use Rattle.rob_syntax.specs.Numbered.{numbered, numbered_member, numbered_tree};
ghost use Rattle.rob_syntax.specs.Seen.{seen_ranged, seen_share, seen_statement};
ghost use Rattle.rob_syntax.specs.Symbols.{number_of};
ghost use Rattle.rob_expand.specs.Growing.{named_at, over_at, printed};
ghost use Rattle.rob_expand.specs.Instances.{each_at, instance, member_at};
ghost use Rattle.rob_expand.specs.Making.{budget_in, entry_at, first_at, head_in, numbers_in, relation_in, second_at};
ghost use Rattle.rob_expand.specs.Placed.{placed_of};
ghost use Rattle.rob_settings.specs.Spots.{IsThin, IsThinAt, picks};
ghost use Rattle.rob_expand.specs.Statements.{IsLineOf};
ghost use Rattle.rob_settings.specs.declared.spot.Spot.{Spot as SpecSpot};
ghost use Rattle.rob_ranges.specs.Spans.{Every};

use crate::line::Line;
use crate::lines::nest_in;
use crate::make::{make_in, zero};
use crate::name::name_number;
use crate::place::place_name;
use crate::placed::Placed;
use rob_number::{List, Memory};
use rob_ranges::Whole;
use rob_settings::item::{Item, Named};
use rob_settings::settings::{Setting, all_settings};
use rob_settings::spot::{Spot, one_at};
use rob_syntax::Words;
use rob_syntax::syntax::{
    Bounds, Budget, Declared, Goal, Indexed, Member, Policy, Ranged, Rel, Relation, Row, Sense,
    Share, Shares, Spread, Statement, Syntax,
};
use std::alloc::Global;

/// The words whose numbers are names.
#[derive(Clone, Copy)]
pub struct Names<'a> {
    /// Those of the statement.
    pub own: &'a Words,
    /// Those of the plain statements that it stands for.
    pub words: &'a Words,
}

/// Appends the plain statement of each of some settings.
pub fn append_instances(
    list: &mut List<Statement>,
    alloc: Global,
    names: Names,
    statement: &Indexed,
    line: &Line,
    spots: &[Spot],
) -> Result<(), Memory>
    requires line { IsLineOf (seen_statement statement.now) line.now }
    requires thin { Every (IsThin line.now.items) spots.now }
    ensures appended { OnOk result (list.new
        ≡ list.old ++ map (λ (s : SpecSpot). numbered (texts names.entry.words.now.keys)
        (instance (texts names.entry.own.now.keys) printed (seen_statement statement.now) s.values))
        spots.now) }
{
    for spot in spots {
        let kept = spot.kept.items();
        let values = spot.values.items();
        let plain = make_statement(alloc, names, statement, line, kept, values)?;
        list.push(plain)?;
    }
    Ok(())
}

/// The plain statement.
fn make_statement(
    alloc: Global,
    names: Names,
    statement: &Indexed,
    line: &Line,
    kept: &[usize],
    values: &[Whole],
) -> Result<Statement, Memory>
    requires line { IsLineOf (seen_statement statement.now) line.now }
    requires thin { IsThinAt false line.now.items kept.now values.now }
    ensures made { IfOk result (λ made. made ≡ numbered (texts names.entry.words.now.keys)
        (instance (texts names.entry.own.now.keys) printed (seen_statement statement.now)
        values.now)) }
{
    match statement {
        Indexed::Uncertain(entry) => make_uncertain(alloc, names, entry.bounds, line, values),
        Indexed::Over(_) => make_set_name(alloc, names, line, values),
        Indexed::Set(sides) => make_set(alloc, names, sides.item.rel, line, values),
        Indexed::Budget(shares) => make_budget(alloc, names, shares, line, values),
        Indexed::Var(entry) => make_var(alloc, names, entry.bounds, line, values),
        Indexed::Adaptive(rule) => make_policy(alloc, names, rule.bounds, line, kept, values),
        Indexed::Goal(target) => make_goal(alloc, names, target.sense, line, values),
        Indexed::Row(_, sides) => make_row(alloc, names, sides.item.rel, line, values),
    }
}

/// An uncertain parameter, with its bounds.
fn make_uncertain(
    alloc: Global,
    names: Names,
    bounds: Option<Bounds>,
    line: &Line,
    values: &[Whole],
) -> Result<Statement, Memory>
    ensures made { IfOk result (λ made. made ≡ Statement.Uncertain (record {
      name = head_in (texts names.entry.own.now.keys) (texts names.entry.words.now.keys)
          line.now values.now;
      bounds = bounds;
    })) }
{
    let name = head_number(alloc, names, line, values)?;
    Ok(Statement::Uncertain(Declared { name, bounds }))
}

/// The name of a set.
fn make_set_name(
    alloc: Global,
    names: Names,
    line: &Line,
    values: &[Whole],
) -> Result<Statement, Memory>
    ensures made { IfOk result (λ made. made
        ≡ Statement.Over (head_in (texts names.entry.own.now.keys)
        (texts names.entry.words.now.keys) line.now values.now)) }
{
    let name = head_number(alloc, names, line, values)?;
    Ok(Statement::Over(name))
}

/// A condition of a set.
fn make_set(
    alloc: Global,
    names: Names,
    rel: Rel,
    line: &Line,
    values: &[Whole],
) -> Result<Statement, Memory>
    ensures made { IfOk result (λ made. made
        ≡ Statement.Set (relation_in (texts names.entry.own.now.keys)
        (texts names.entry.words.now.keys) rel line.now values.now)) }
{
    let relation = make_relation(alloc, names, rel, line, values)?;
    Ok(Statement::Set(relation))
}

/// A variable, with its bounds.
fn make_var(
    alloc: Global,
    names: Names,
    bounds: Option<Bounds>,
    line: &Line,
    values: &[Whole],
) -> Result<Statement, Memory>
    ensures made { IfOk result (λ made. made ≡ Statement.Var (record {
      name = head_in (texts names.entry.own.now.keys) (texts names.entry.words.now.keys)
          line.now values.now;
      bounds = bounds;
    })) }
{
    let name = head_number(alloc, names, line, values)?;
    Ok(Statement::Var(Declared { name, bounds }))
}

/// An adaptive variable, with its bounds.
fn make_policy(
    alloc: Global,
    names: Names,
    bounds: Option<Bounds>,
    line: &Line,
    kept: &[usize],
    values: &[Whole],
) -> Result<Statement, Memory>
    requires thin { IsThinAt false line.now.items kept.now values.now }
    ensures made { IfOk result (λ made. made ≡ Statement.Adaptive (record {
      name = head_in (texts names.entry.own.now.keys) (texts names.entry.words.now.keys)
          line.now values.now;
      on = numbers_in (texts names.entry.own.now.keys) (texts names.entry.words.now.keys)
          line.now.items values.now;
      bounds = bounds;
    })) }
{
    let name = head_number(alloc, names, line, values)?;
    let on = kept_numbers(alloc, names, line.items.items(), kept, values)?;
    Ok(Statement::Adaptive(Policy { name, on, bounds }))
}

/// The goal.
fn make_goal(
    alloc: Global,
    names: Names,
    sense: Sense,
    line: &Line,
    values: &[Whole],
) -> Result<Statement, Memory>
    ensures made { IfOk result (λ made. made ≡ Statement.Goal (record {
      sense = sense;
      objective = numbered_tree (texts names.entry.words.now.keys)
          (first_at (texts names.entry.own.now.keys) (map placed_of line.now.trees) values.now);
      over = option_map (number_of (texts names.entry.words.now.keys))
          (over_at (texts names.entry.own.now.keys) line.now.over values.now);
    })) }
{
    let objective = first_tree(alloc, names, line.trees.items(), values)?;
    let over = optional_number(alloc, names, &line.over, values)?;
    Ok(Statement::Goal(Goal {
        sense,
        objective,
        over,
    }))
}

/// A row.
fn make_row(
    alloc: Global,
    names: Names,
    rel: Rel,
    line: &Line,
    values: &[Whole],
) -> Result<Statement, Memory>
    ensures made { IfOk result (λ made. made ≡ Statement.Row (record {
      name = head_in (texts names.entry.own.now.keys) (texts names.entry.words.now.keys)
          line.now values.now;
      relation = relation_in (texts names.entry.own.now.keys) (texts names.entry.words.now.keys)
          rel line.now values.now;
    })) }
{
    let name = head_number(alloc, names, line, values)?;
    let relation = make_relation(alloc, names, rel, line, values)?;
    Ok(Statement::Row(Row { name, relation }))
}

/// The number of the name that a line declares, or 0.
fn head_number(alloc: Global, names: Names, line: &Line, values: &[Whole]) -> Result<usize, Memory>
    ensures number { IfOk result (λ number. number
        ≡ head_in (texts names.entry.own.now.keys) (texts names.entry.words.now.keys)
        line.now values.now) }
{
    let number = optional_number(alloc, names, &line.head, values)?;
    Ok(number.unwrap_or(0))
}

/// The number of a name that may be missing.
fn optional_number(
    alloc: Global,
    names: Names,
    name: &Option<Named>,
    values: &[Whole],
) -> Result<Option<usize>, Memory>
    ensures number { IfOk result (λ number. number
        ≡ option_map (number_of (texts names.entry.words.now.keys))
        (over_at (texts names.entry.own.now.keys) name.now values.now)) }
{
    match name {
        None => Ok(None),
        Some(name) => Ok(Some(name_number(alloc, names.own, names.words, name, values)?)),
    }
}

/// A relation between the two expressions of a line.
fn make_relation(
    alloc: Global,
    names: Names,
    rel: Rel,
    line: &Line,
    values: &[Whole],
) -> Result<Relation, Memory>
    ensures made { IfOk result (λ made. made
        ≡ relation_in (texts names.entry.own.now.keys) (texts names.entry.words.now.keys)
        rel line.now values.now) }
{
    let left = first_tree(alloc, names, line.trees.items(), values)?;
    let right = second_tree(alloc, names, line.trees.items(), values)?;
    let over = optional_number(alloc, names, &line.over, values)?;
    Ok(Relation {
        left,
        rel,
        right,
        over,
    })
}

/// The first of some expressions, or the number 0.
fn first_tree(
    alloc: Global,
    names: Names,
    trees: &[Placed],
    values: &[Whole],
) -> Result<Syntax, Memory>
    ensures made { IfOk result (λ made. made ≡ numbered_tree (texts names.entry.words.now.keys)
        (first_at (texts names.entry.own.now.keys) (map placed_of trees.now) values.now)) }
{
    match trees {
        [] => Ok(zero()),
        [first, ..] => make_in(alloc, names.own, names.words, first, values),
    }
}

/// The second of some expressions, or the number 0.
fn second_tree(
    alloc: Global,
    names: Names,
    trees: &[Placed],
    values: &[Whole],
) -> Result<Syntax, Memory>
    ensures made { IfOk result (λ made. made ≡ numbered_tree (texts names.entry.words.now.keys)
        (second_at (texts names.entry.own.now.keys) (map placed_of trees.now) values.now)) }
{
    match trees {
        [] => Ok(zero()),
        [_, behind @ ..] => first_tree(alloc, names, behind, values),
    }
}

/// A budget.
fn make_budget(
    alloc: Global,
    names: Names,
    shares: &Shares,
    line: &Line,
    values: &[Whole],
) -> Result<Statement, Memory>
    ensures made { IfOk result (λ made. made
        ≡ Statement.Budget (budget_in (texts names.entry.own.now.keys)
        (texts names.entry.words.now.keys) shares.now line.now values.now)) }
{
    let mut members = List::new(alloc);
    append_members(&mut members, alloc, names, shares.members.items(), values)?;
    let over = optional_number(alloc, names, &line.over, values)?;
    let limit = shares.limit;
    Ok(Statement::Budget(Budget {
        limit,
        members,
        over,
    }))
}

/// Appends the members of a budget.
fn append_members(
    members: &mut List<Member>,
    alloc: Global,
    names: Names,
    shares: &[Ranged<Share>],
    values: &[Whole],
) -> Result<(), Memory>
    ensures appended { OnOk result (members.new
        ≡ members.old ++ map (numbered_member (texts names.entry.words.now.keys))
        (each_at (texts names.entry.own.now.keys) printed
        (member_at (texts names.entry.own.now.keys) printed) []
        (map (seen_ranged seen_share) shares.now) values.now)) }
{
    for share in shares {
        let nest = nest_in(alloc, &[], share.ranges.items())?;
        let name = place_name(alloc, nest.names.items(), &share.item.name)?;
        let settings = all_settings(alloc, nest.ends.items(), values)?;
        let centre = share.item.centre;
        let deviation = share.item.deviation;
        let spread = Spread { centre, deviation };
        append_entries(members, alloc, names, &name, spread, settings.items())?;
    }
    Ok(())
}

/// Appends a member in each of some settings.
fn append_entries(
    members: &mut List<Member>,
    alloc: Global,
    names: Names,
    name: &Named,
    spread: Spread,
    settings: &[Setting],
) -> Result<(), Memory>
    ensures appended { OnOk result (members.new ≡ members.old
        ++ map (entry_at (texts names.entry.own.now.keys) (texts names.entry.words.now.keys)
        name.now spread) settings.now) }
{
    for setting in settings {
        let name = name_number(alloc, names.own, names.words, name, setting.items())?;
        members.push(Member { name, spread })?;
    }
    Ok(())
}

/// The numbers of the names of the items at some places, in each setting of their ranges.
fn kept_numbers(
    alloc: Global,
    names: Names,
    items: &[Item],
    kept: &[usize],
    values: &[Whole],
) -> Result<List<usize>, Memory>
    ensures numbers { IfOk result (λ numbers. numbers
        ≡ numbers_in (texts names.entry.own.now.keys) (texts names.entry.words.now.keys)
        (picks items.now kept.now) values.now) }
{
    let mut numbers = List::new(alloc);
    for k in kept {
        append_items(&mut numbers, alloc, names, one_at(items, *k), values)?;
    }
    Ok(numbers)
}

/// Appends the numbers of the names of some items, in each setting of their ranges.
fn append_items(
    numbers: &mut List<usize>,
    alloc: Global,
    names: Names,
    items: &[Item],
    values: &[Whole],
) -> Result<(), Memory>
    ensures numbers { OnOk result (numbers.new ≡ numbers.old
        ++ numbers_in (texts names.entry.own.now.keys) (texts names.entry.words.now.keys)
        items.now values.now) }
{
    for item in items {
        let settings = item.ranges.settings(alloc, values)?;
        append_numbers(numbers, alloc, names, &item.name, settings.items())?;
    }
    Ok(())
}

/// Appends the number of a name in each of some settings.
fn append_numbers(
    numbers: &mut List<usize>,
    alloc: Global,
    names: Names,
    name: &Named,
    settings: &[Setting],
) -> Result<(), Memory>
    ensures appended { OnOk result (numbers.new
        ≡ numbers.old ++ map (number_of (texts names.entry.words.now.keys))
        (map (named_at (texts names.entry.own.now.keys) name.now) settings.now)) }
{
    for setting in settings {
        let number = name_number(alloc, names.own, names.words, name, setting.items())?;
        numbers.push(number)?;
    }
    Ok(())
}
