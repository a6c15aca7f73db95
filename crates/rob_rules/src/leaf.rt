//! The names and numbers of a statement.

ghost use Rattle.std.specs.Prelude.{◌≡◌, ◌++◌, map, IfOk, OnOk};
ghost use Rattle.std.specs.List.{flat_map};
ghost use Rattle.rob_syntax.specs.Trees.{tree_of, part_of, summands_of, operands_of};
ghost use Rattle.rob_rules.specs.Leaves as spec;
ghost use Rattle.rob_rules.specs.declared.leaf.Leaf.TheVariants.{Name};

use rob_number::{List, Memory};
use rob_syntax::syntax::{Bounds, Member, Numeral, Relation, Statement, Summand, Syntax};
use std::alloc::Global;

/// A name or a number in a statement.
#[derive(Clone, Copy)]
pub enum Leaf {
    /// The number of a word.
    Name(usize),
    Number(Numeral),
}

/// The names that a statement uses, but for the one behind `over`, and its numbers, from the left to the right.
pub fn leaves(alloc: Global, statement: &Statement) -> Result<List<Leaf>, Memory>
    ensures leaves { IfOk result (λ list. list ≡ spec.statement_leaves statement.now) }
{
    let mut list = List::new(alloc);
    match statement {
        Statement::Uncertain(declared) | Statement::Var(declared) => {
            append_bounds(&mut list, declared.bounds)?;
        }
        Statement::Set(relation) => append_relation(&mut list, relation)?,
        Statement::Row(row) => append_relation(&mut list, &row.relation)?,
        Statement::Goal(goal) => append_tree(&mut list, &goal.objective)?,
        Statement::Budget(budget) => {
            list.push(Leaf::Number(budget.limit))?;
            append_members(&mut list, budget.members.items())?;
        }
        Statement::Adaptive(policy) => {
            append_names(&mut list, policy.on.items())?;
            append_bounds(&mut list, policy.bounds)?;
        }
        Statement::Over(_) => {}
    }
    Ok(list)
}

/// Appends those of both sides.
fn append_relation(list: &mut List<Leaf>, relation: &Relation) -> Result<(), Memory>
    ensures appended { OnOk result (list.new ≡ list.old ++ spec.relation_leaves relation.now) }
{
    append_tree(list, &relation.left)?;
    append_tree(list, &relation.right)
}

/// Appends those of an expression.
#[cycle(leaves)]
fn append_tree(list: &mut List<Leaf>, tree: &Syntax) -> Result<(), Memory>
    ensures appended { OnOk result (list.new ≡ list.old ++ spec.leaves (tree_of tree.now)) }
{
    match tree {
        Syntax::Number(number) => list.push(Leaf::Number(*number)),
        Syntax::Name(name) => list.push(Leaf::Name(*name)),
        Syntax::Sum(parts) => append_parts(list, parts.items()),
        Syntax::Product(factors) => append_factors(list, factors.items()),
    }
}

/// Appends those of the parts of a sum.
#[cycle(leaves)]
fn append_parts(list: &mut List<Leaf>, parts: &[Summand]) -> Result<(), Memory>
    ensures appended { OnOk result (list.new
        ≡ list.old ++ spec.part_leaves (summands_of (map part_of parts.now))) }
{
    for part in parts {
        append_tree(list, &part.inner)?;
    }
    Ok(())
}

/// Appends those of the factors of a product.
#[cycle(leaves)]
fn append_factors(list: &mut List<Leaf>, factors: &[Syntax]) -> Result<(), Memory>
    ensures appended { OnOk result (list.new
        ≡ list.old ++ spec.factor_leaves (operands_of (map tree_of factors.now))) }
{
    for factor in factors {
        append_tree(list, factor)?;
    }
    Ok(())
}

/// Appends the names of a list.
fn append_names(list: &mut List<Leaf>, names: &[usize]) -> Result<(), Memory>
    ensures appended { OnOk result (list.new ≡ list.old ++ map Name names.now) }
{
    for name in names {
        list.push(Leaf::Name(*name))?;
    }
    Ok(())
}

/// Appends the names and numbers of the members of a budget.
fn append_members(list: &mut List<Leaf>, members: &[Member]) -> Result<(), Memory>
    ensures appended { OnOk result (list.new
        ≡ list.old ++ flat_map spec.member_leaves members.now) }
{
    for member in members {
        append_member(list, *member)?;
    }
    Ok(())
}

/// Appends a member's name, its centre and its deviation.
fn append_member(list: &mut List<Leaf>, member: Member) -> Result<(), Memory>
    ensures appended { OnOk result (list.new ≡ list.old ++ spec.member_leaves member) }
{
    list.push(Leaf::Name(member.name))?;
    list.push(Leaf::Number(member.spread.centre.number))?;
    list.push(Leaf::Number(member.spread.deviation))
}

/// Appends the numbers of bounds.
fn append_bounds(list: &mut List<Leaf>, bounds: Option<Bounds>) -> Result<(), Memory>
    ensures appended { OnOk result (list.new ≡ list.old ++ spec.bound_leaves bounds) }
{
    match bounds {
        None => Ok(()),
        Some(Bounds::Between(both)) => {
            list.push(Leaf::Number(both.lower.number))?;
            list.push(Leaf::Number(both.upper.number))
        }
        Some(Bounds::AtLeast(bound) | Bounds::AtMost(bound)) => {
            list.push(Leaf::Number(bound.number))
        }
    }
}
