//! What may be wrong with a plain statement.

ghost use Rattle.std.specs.Prelude.{◌≡◌, IfOk};
ghost use Rattle.std.specs.List.{list_any};
ghost use Rattle.rob_rules.specs.Faults as spec;
ghost use Rattle.rob_rules.specs.Leaves.{statement_leaves, members_of};
ghost use Rattle.rob_rules.specs.Scopes.{earlier_of};
ghost use Rattle.rob_rules.specs.Sizes.{IsSmall};
ghost use Rattle.rob_syntax.specs.Trees.{tree_of};
ghost use Rattle.rob_rules.specs.declared.fault.Fault.TheVariants.{NameTwice};
ghost use Rattle.rob_rules.specs.Weights.{weight_of, statement_weight};
ghost use Rattle.rob_rules.specs.Weights as weights;

use crate::degree::{Weight, joined, nothing, sort_at, weigh};
use crate::leaf::{Leaf, leaves};
use crate::scope::{Scope, declared_by, is_goal};
use crate::sort::Sort;
use indexmap::IndexSet;
use rob_number::Memory;
use rob_syntax::syntax::{Member, Numeral, Relation, Statement};
use std::alloc::Global;

/// What may be wrong with a plain statement, in the order of the rules' numbers; and that a text has no goal.
#[derive(Clone, Copy, PartialEq, Eq)]
pub enum Fault {
    /// The declared name is declared already, or an adaptive variable's list, or the members of a budget, hold a name
    /// twice; the name behind `over` is no member.
    NameTwice,
    /// A used name isn't declared on an earlier line, or is a row's; a set's name stands elsewhere than behind `over`,
    /// or the name behind `over` isn't a set's, as that of a budget's member.
    NameUnknown,
    /// A run of digits has a value over the limit.
    NumberTooLong,
    /// A number behind `by` has a numerator of value 0.
    DeviationNotPositive,
    /// A product is of degree over 1 in the decisions.
    TwoDecisions,
    /// A product that holds no adaptive variable with a list is of degree over 1 in the parameters.
    TwoUncertain,
    /// A product that holds one is.
    RandomRecourse,
    /// A set statement, a budget or an adaptive variable's list uses a variable or an adaptive variable.
    DecisionInSet,
    /// The text has no goal. Its line is one more than the text has line ends.
    NoObjective,
    /// The line is a second goal.
    ObjectiveTwice,
    /// A limit on the model's size is passed on this line.
    Limit,
    /// Digits behind `/` have the value 0.
    ZeroDivisor,
}

impl Fault {
    /// The number of the rule that the fault breaks.
    pub fn rule(self) -> u8
        ensures rule { result ≡ spec.rule_of self }
    {
        match self {
            Fault::NameTwice => 12,
            Fault::NameUnknown => 13,
            Fault::NumberTooLong => 14,
            Fault::DeviationNotPositive => 15,
            Fault::TwoDecisions => 16,
            Fault::TwoUncertain => 17,
            Fault::RandomRecourse => 18,
            Fault::DecisionInSet => 19,
            Fault::NoObjective => 20,
            Fault::ObjectiveTwice => 21,
            Fault::Limit => 22,
            Fault::ZeroDivisor => 23,
        }
    }
}

/// The fault that decides, if the statement has one. `before` is what is known in front of its line, `now` in front of
/// the statement itself: a line may stand for several.
pub fn first_fault(
    alloc: Global,
    limit: u64,
    before: &Scope,
    now: &Scope,
    statement: &Statement,
) -> Result<Option<Fault>, Memory>
    requires small { IsSmall now.now.sizes }
    ensures fault { IfOk result (λ found. found
        ≡ spec.first_fault limit (earlier_of before.now) (earlier_of now.now) statement.now) }
{
    const IN_ORDER: [Fault; 11] = [
        Fault::NameTwice,
        Fault::NameUnknown,
        Fault::NumberTooLong,
        Fault::DeviationNotPositive,
        Fault::TwoDecisions,
        Fault::TwoUncertain,
        Fault::RandomRecourse,
        Fault::DecisionInSet,
        Fault::ObjectiveTwice,
        Fault::Limit,
        Fault::ZeroDivisor,
    ];
    let names_and_numbers = leaves(alloc, statement)?;
    let leaves = names_and_numbers.items();
    let parted = Parted { statement, leaves };
    for fault in IN_ORDER {
        if has_fault(alloc, limit, before, now, parted, fault)? {
            return Ok(Some(fault));
        }
    }
    Ok(None)
}

/// A statement, and its names and numbers in their order.
#[derive(Clone, Copy)]
struct Parted<'a> {
    statement: &'a Statement,
    leaves: &'a [Leaf],
}

/// Whether the statement has the fault.
fn has_fault(
    alloc: Global,
    limit: u64,
    before: &Scope,
    now: &Scope,
    parted: Parted,
    fault: Fault,
) -> Result<bool, Memory>
    requires small { IsSmall now.now.sizes }
    requires leaves { parted.leaves.now ≡ statement_leaves parted.statement.now }
    ensures holds { IfOk result (λ has. has ≡ spec.has_fault limit
        (earlier_of before.now) (earlier_of now.now) parted.entry.statement.now fault) }
{
    let Parted { statement, leaves } = parted;
    let has = match fault {
        Fault::NameTwice => return name_twice(alloc, now, statement, leaves),
        Fault::NameUnknown => {
            some_unknown(&before.sorts, leaves) || is_over_none(&before.sorts, over_of(statement))
        }
        Fault::NumberTooLong => some_over(limit, leaves),
        Fault::DeviationNotPositive => some_certain(statement),
        Fault::TwoDecisions => weigh_statement(&before.sorts, statement).two_decisions,
        Fault::TwoUncertain => weigh_statement(&before.sorts, statement).two_uncertain,
        Fault::RandomRecourse => weigh_statement(&before.sorts, statement).random_recourse,
        Fault::DecisionInSet => is_of_set(statement) && some_decision(&before.sorts, leaves),
        Fault::ObjectiveTwice => is_goal(statement) && now.goal,
        Fault::Limit => !now.sizes.counted(statement).is_within(),
        Fault::ZeroDivisor => some_zero_divisor(leaves),
        Fault::NoObjective => false,
    };
    Ok(has)
}

/// Whether the declared name is declared already, or an adaptive variable's list, or the members of a budget, hold a
/// name twice.
fn name_twice(
    alloc: Global,
    scope: &Scope,
    statement: &Statement,
    leaves: &[Leaf],
) -> Result<bool, Memory>
    requires small { IsSmall scope.now.sizes }
    requires leaves { leaves.now ≡ statement_leaves statement.now }
    ensures twice { IfOk result (λ twice. twice
        ≡ spec.has_fault 0 (earlier_of scope.now) (earlier_of scope.now) statement.now NameTwice) }
{
    let declared = declared_by(scope.sizes, statement);
    if is_declared(&scope.sorts, declared) {
        return Ok(true);
    }
    if !is_listing(statement) {
        return Ok(false);
    }
    has_twice(alloc, leaves)
}

/// Whether a declared name is declared already.
fn is_declared(sorts: &[Option<Sort>], declared: Option<(usize, Sort)>) -> bool
    ensures holds { result ≡ spec.is_declared sorts.now declared }
{
    match declared {
        Some((name, _)) => sort_at(sorts, name).is_some(),
        None => false,
    }
}

/// The name behind `over` at the end of a statement, if one is there.
fn over_of(statement: &Statement) -> Option<usize>
    ensures over { result ≡ spec.over_of statement.now }
{
    match statement {
        Statement::Set(relation) => relation.over,
        Statement::Budget(budget) => budget.over,
        Statement::Goal(goal) => goal.over,
        Statement::Row(row) => row.relation.over,
        Statement::Uncertain(_) | Statement::Over(_) | Statement::Var(_) | Statement::Adaptive(_) =>
            None,
    }
}

/// Whether the name behind `over` isn't a set's.
fn is_over_none(sorts: &[Option<Sort>], over: Option<usize>) -> bool
    ensures holds { result ≡ spec.is_over_none sorts.now over }
{
    match over {
        None => false,
        Some(name) => !matches!(sort_at(sorts, name), Some(Sort::Set(_))),
    }
}

/// Whether the statement is an adaptive variable or a budget, whose names are a list.
fn is_listing(statement: &Statement) -> bool
    ensures holds { result ≡ spec.is_listing statement.now }
{
    matches!(statement, Statement::Adaptive(_) | Statement::Budget(_))
}

/// Whether the names of a statement are parameters.
fn is_of_set(statement: &Statement) -> bool
    ensures holds { result ≡ spec.is_of_set statement.now }
{
    matches!(
        statement,
        Statement::Set(_) | Statement::Budget(_) | Statement::Adaptive(_)
    )
}

/// Whether some name stands there twice.
fn has_twice(alloc: Global, leaves: &[Leaf]) -> Result<bool, Memory>
    ensures holds { IfOk result (λ twice. twice ≡ spec.has_twice leaves.now) }
{
    let mut seen: IndexSet<usize> = IndexSet::new(alloc);
    for leaf in leaves {
        if let Leaf::Name(name) = leaf
            && !seen.insert(*name)?
        {
            return Ok(true);
        }
    }
    Ok(false)
}

/// Whether a name there may not be used.
fn some_unknown(sorts: &[Option<Sort>], leaves: &[Leaf]) -> bool
    ensures holds { result ≡ list_any (spec.is_unknown sorts.now) leaves.now }
{
    leaves.iter().any(|leaf| is_unknown(sorts, *leaf))
}

/// Whether it is a name that may not be used.
fn is_unknown(sorts: &[Option<Sort>], leaf: Leaf) -> bool
    ensures holds { result ≡ spec.is_unknown sorts.now leaf }
{
    match leaf {
        Leaf::Name(name) => !is_usable(sort_at(sorts, name)),
        Leaf::Number(_) => false,
    }
}

/// Whether a name that stands for this may be used.
fn is_usable(sort: Option<Sort>) -> bool
    ensures holds { result ≡ spec.is_usable sort }
{
    match sort {
        Some(Sort::Parameter(_) | Sort::Decision(_) | Sort::Policy(_, _)) => true,
        Some(Sort::RowName | Sort::Set(_)) | None => false,
    }
}

/// Whether a name there stands for a decision.
fn some_decision(sorts: &[Option<Sort>], leaves: &[Leaf]) -> bool
    ensures holds { result ≡ list_any (spec.names_decision sorts.now) leaves.now }
{
    leaves.iter().any(|leaf| names_decision(sorts, *leaf))
}

/// Whether it is the name of a decision.
fn names_decision(sorts: &[Option<Sort>], leaf: Leaf) -> bool
    ensures holds { result ≡ spec.names_decision sorts.now leaf }
{
    match leaf {
        Leaf::Name(name) => is_decision(sort_at(sorts, name)),
        Leaf::Number(_) => false,
    }
}

/// Whether a name that stands for this is a decision.
fn is_decision(sort: Option<Sort>) -> bool
    ensures holds { result ≡ spec.is_decision sort }
{
    match sort {
        Some(Sort::Decision(_) | Sort::Policy(_, _)) => true,
        Some(Sort::Parameter(_) | Sort::RowName | Sort::Set(_)) | None => false,
    }
}

/// Whether digits there have a value over the limit.
fn some_over(limit: u64, leaves: &[Leaf]) -> bool
    ensures holds { result ≡ list_any (spec.is_over limit) leaves.now }
{
    leaves.iter().any(|leaf| is_over(limit, *leaf))
}

/// Whether it is a number with digits whose value is over the limit.
fn is_over(limit: u64, leaf: Leaf) -> bool
    ensures holds { result ≡ spec.is_over limit leaf }
{
    match leaf {
        Leaf::Name(_) => false,
        Leaf::Number(number) => {
            limit < number.numerator || has_divisor_over(limit, number.divisor)
        }
    }
}

/// Whether the digits behind `/`, where there are some, have a value over the limit.
fn has_divisor_over(limit: u64, divisor: Option<u64>) -> bool
    ensures holds { result ≡ spec.has_divisor_over limit divisor }
{
    match divisor {
        None => false,
        Some(value) => limit < value,
    }
}

/// Whether a number there has a divisor of value 0.
fn some_zero_divisor(leaves: &[Leaf]) -> bool
    ensures holds { result ≡ list_any spec.has_zero_divisor leaves.now }
{
    leaves.iter().any(|leaf| has_zero_divisor(*leaf))
}

/// Whether it is a number with a divisor of value 0.
fn has_zero_divisor(leaf: Leaf) -> bool
    ensures holds { result ≡ spec.has_zero_divisor leaf }
{
    match leaf {
        Leaf::Number(
            Numeral {
                divisor: Some(value),
                ..
            },
        ) => value == 0,
        Leaf::Number(_) | Leaf::Name(_) => false,
    }
}

/// Whether a member of the budget, if it is one, has a deviation of 0.
fn some_certain(statement: &Statement) -> bool
    ensures holds { result ≡ list_any spec.is_certain (members_of statement.now) }
{
    match statement {
        Statement::Budget(budget) => some_without_deviation(budget.members.items()),
        Statement::Uncertain(_)
        | Statement::Over(_)
        | Statement::Set(_)
        | Statement::Var(_)
        | Statement::Adaptive(_)
        | Statement::Goal(_)
        | Statement::Row(_) => false,
    }
}

/// Whether a member's deviation is 0.
fn some_without_deviation(members: &[Member]) -> bool
    ensures holds { result ≡ list_any spec.is_certain members.now }
{
    members
        .iter()
        .any(|member| member.spread.deviation.numerator == 0)
}

/// The weight of all expressions of a statement together.
fn weigh_statement(sorts: &[Option<Sort>], statement: &Statement) -> Weight
    ensures weight { result ≡ statement_weight sorts.now statement.now }
{
    match statement {
        Statement::Set(relation) => weigh_relation(sorts, relation),
        Statement::Row(row) => weigh_relation(sorts, &row.relation),
        Statement::Goal(goal) => weigh(sorts, &goal.objective),
        Statement::Uncertain(_)
        | Statement::Over(_)
        | Statement::Budget(_)
        | Statement::Var(_)
        | Statement::Adaptive(_) => nothing(),
    }
}

/// The weight of both sides together.
fn weigh_relation(sorts: &[Option<Sort>], relation: &Relation) -> Weight
    ensures weight { result ≡ weights.joined (weight_of sorts.now (tree_of relation.now.left))
        (weight_of sorts.now (tree_of relation.now.right)) }
{
    joined(weigh(sorts, &relation.left), weigh(sorts, &relation.right))
}
