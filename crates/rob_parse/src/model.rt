//! From the statements of a text to its model.

ghost use Rattle.std.specs.Prelude.{◌≡◌, ◌≤◌, ◌<◌, ◌^◌, [], ◌∷◌, ◌++◌, length, map, take, IfOk, IfErr, OnOk, IsSome, option_copied};
ghost use Rattle.rob_meaning.specs.Named.{IsNamed};
ghost use Rattle.rob_meaning.specs.Places.{Each};
ghost use Rattle.rob_meaning.specs.RobustModel.{in_set, joint_parameters};
ghost use Rattle.std.specs.List.{flat_map};
ghost use Rattle.rob_number.specs.Counts.{CountsOnly};
ghost use Rattle.rob_model.specs.Valid.{IsValid};
ghost use Rattle.rob_model.specs.View.{robust, parameter_of, variable_of, adaptive_of, set_line_of, row_of};
ghost use Rattle.rob_parse.specs.Building.{FitsBounds, FitsRelation, FitsNumber, FitsMember, FitsStatement, HasAdded, HasRoom, HasRoomForAll};
ghost use Rattle.rob_parse.specs.Building as spec;
ghost use Rattle.rob_syntax.specs.Known.{texts};
ghost use Rattle.rob_parse.specs.Written.{parameters, variables, adaptives, set_lines, rows, goal_in};
ghost use Rattle.rob_parse.specs.Models.{line_taken, model_of, row_taken};
ghost use Rattle.rob_parse.specs.Modelled.{ReadsModel};
ghost use Rattle.rob_rules.specs.Texts.{HasTextCause};
ghost use Rattle.rob_syntax.specs.declared.syntax.Statement.TheVariants as parsed;

use crate::fraction::{fraction, lower, upper};
use crate::parts::{members, parameters_at, relation, sense, word_of};
use crate::place::{Place, set_at};
use crate::tree::expression;
use rob_model::{Adaptive, Model, Param, RowDef, SetLine, Var};
use rob_number::{Exact, Ledger, List, Memory, Text};
use rob_rules::{ModelErr, Scope, Sort, read_text};
use rob_syntax::Words;
use rob_syntax::syntax::{Budget, Declared, Goal, Policy, Relation, Row, Statement};
use std::alloc::Global;

/// The model that a text says, its numbers being of the type `N`, whose limit bounds digits; or the rule that the text
/// breaks and the line, counted from 1: first the rules of tokens, then the first bad line, and on it the rule that is
/// judged first.
pub fn read_model<N: Exact, L: Ledger>(
    alloc: Global,
    text: &[u8],
    ledger: &mut L,
) -> Result<Model<N>, ModelErr>
    requires room { length text.now ≤ 2 ^ 30 }
    ensures read { IfOk result (λ m. ReadsModel N.limit text.now (robust N.value m)) }
    ensures valid { IfOk result (λ m. IsValid N.value m) }
    ensures named { IfOk result (λ m. IsNamed (robust N.value m)) }
    ensures cause { IfErr result (λ e. HasTextCause N.limit text.now e) }
    // No number is wide, since digits over the limit are refused before.
    ensures counted { CountsOnly L.ops L.wides ledger.old ledger.new }
{
    let found = match read_text(alloc, text, N::LIMIT as u64) {
        Ok(found) => found,
        Err(error) => return Err(error),
    };
    let list = found.list.items();
    match model(alloc, &found.words, &found.scope, list, ledger) {
        Ok(model) => Ok(model),
        Err(_) => Err(ModelErr::Memory),
    }
}

/// The model of some statements, where this is what names stand for.
fn model<N: Exact, L: Ledger>(
    alloc: Global,
    words: &Words,
    scope: &Scope,
    list: &[Statement],
    ledger: &mut L,
) -> Result<Model<N>, Memory>
    requires fits { Each (FitsStatement N.limit) list.now }
    requires goal { IsSome (goal_in list.now) }
    requires room { HasRoomForAll scope.now }
    requires count { scope.now.sizes.parameters
        ≡ length (flat_map (parameters (texts words.now.keys)) list.now) }
    ensures read { IfOk result (λ m. robust N.value m
        ≡ model_of (texts words.now.keys) scope.now.sorts.items list.now) }
    ensures counted { CountsOnly L.ops L.wides ledger.old ledger.new }
{
    let Some(goal) = goal(list) else {
        unreachable!()
    };
    let place = place_of(scope, goal.over);
    let mut model = Model {
        params: List::new(alloc),
        sets: List::new(alloc),
        set_lines: List::new(alloc),
        line_sets: List::new(alloc),
        vars: List::new(alloc),
        adaptives: List::new(alloc),
        sense: sense(goal.sense),
        objective: expression(
            alloc,
            scope.sorts.as_slice(),
            place,
            &goal.objective,
            ledger,
        )?,
        objective_set: place.set,
        rows: List::new(alloc),
        row_sets: List::new(alloc),
    };
    for statement in list {
        add(alloc, words, scope, statement, &mut model, ledger)?;
    }
    join(alloc, model.sets.items(), &mut model.params)?;
    Ok(model)
}

/// The set that a line is over, and how many written parameters there are.
fn place_of(scope: &Scope, over: Option<usize>) -> Place
    requires count { scope.now.sizes.parameters < 2 ^ 32 }
    ensures place { result ≡ spec.place_of scope.now over }
{
    Place {
        count: scope.sizes.parameters as u32,
        set: set_at(scope.sorts.as_slice(), over),
    }
}

/// Gives each named set the written parameters, with its name in front of theirs.
fn join<N: Exact>(alloc: Global, sets: &[Text], params: &mut List<Param<N>>) -> Result<(), Memory>
    ensures joint { OnOk result (map (parameter_of N.value) params.new
        ≡ joint_parameters (map (parameter_of N.value) params.old) sets.now) }
{
    let count = params.items().len();
    for set in sets {
        join_set(alloc, set, count, params)?;
    }
    Ok(())
}

/// Appends the first parameters, as many as are written, as this set has them.
fn join_set<N: Exact>(
    alloc: Global,
    set: &Text,
    count: usize,
    params: &mut List<Param<N>>,
) -> Result<(), Memory>
    requires count { count ≤ length params.old }
    ensures joint { OnOk result (map (parameter_of N.value) params.new
        ≡ map (parameter_of N.value) params.old ++ map (in_set set.now)
        (take count (map (parameter_of N.value) params.old))) }
{
    for k in 0..count {
        let param = param_in(alloc, set, &params.items()[k])?;
        params.push(param)?;
    }
    Ok(())
}

/// A parameter as a set has it: its name behind the set's and a dot, and its bounds.
fn param_in<N: Exact>(alloc: Global, set: &Text, param: &Param<N>) -> Result<Param<N>, Memory>
    ensures parameter { IfOk result (λ p. parameter_of N.value p
        ≡ in_set set.now (parameter_of N.value param.now)) }
{
    let mut name = Text::new(alloc);
    name.push(set.bytes())?;
    name.push(b".")?;
    name.push(param.name.bytes())?;
    Ok(Param {
        name,
        lower: param.lower,
        upper: param.upper,
    })
}

/// The goal, if there is one.
fn goal(list: &[Statement]) -> Option<&Goal>
    ensures goal { option_copied result ≡ goal_in list.now }
{
    for statement in list {
        if let Statement::Goal(goal) = statement {
            return Some(goal);
        }
    }
    None
}

/// Adds what a statement says, if it is no goal.
fn add<N: Exact, L: Ledger>(
    alloc: Global,
    words: &Words,
    scope: &Scope,
    statement: &Statement,
    model: &mut Model<N>,
    ledger: &mut L,
) -> Result<(), Memory>
    requires fits { FitsStatement N.limit statement.now }
    requires room { HasRoomForAll scope.now }
    ensures added { OnOk result (HasAdded (texts words.now.keys) scope.now statement.now
        (robust N.value model.old) (robust N.value model.new)) }
    ensures counted { CountsOnly L.ops L.wides ledger.old ledger.new }
{
    match statement {
        Statement::Uncertain(declared) => {
            model
                .params
                .push(parameter(alloc, words, *declared, ledger)?)
        }
        Statement::Over(name) => model.sets.push(word_of(alloc, words, *name)?),
        Statement::Set(relation) => {
            let place = place_of(scope, relation.over);
            let line = set_line(alloc, scope.sorts.as_slice(), place, relation, ledger)?;
            add_line(model, line, place.set)
        }
        Statement::Budget(budget) => {
            let place = place_of(scope, budget.over);
            let line = budget_line(alloc, scope.sorts.as_slice(), place, budget, ledger)?;
            add_line(model, line, place.set)
        }
        Statement::Var(declared) => model.vars.push(variable(alloc, words, *declared, ledger)?),
        Statement::Adaptive(policy) => {
            model.adaptives.push(adaptive(alloc, words, scope.sorts.as_slice(), policy, ledger)?)
        }
        Statement::Row(row) => {
            let place = place_of(scope, row.relation.over);
            model.rows.push(row_def(alloc, words, scope.sorts.as_slice(), place, row, ledger)?)?;
            model.row_sets.push(place.set)
        }
        Statement::Goal(_) => Ok(()),
    }
}

/// Adds a statement on a set, with the set's number.
fn add_line<N: Exact>(model: &mut Model<N>, line: SetLine<N>, set: u32) -> Result<(), Memory>
    ensures added { OnOk result (robust N.value model.new ≡ record (robust N.value model.old) {
      set_lines = (robust N.value model.old).set_lines ++ set_line_of N.value line ∷ [];
      line_sets = (robust N.value model.old).line_sets ++ set ∷ [];
    }) }
{
    model.set_lines.push(line)?;
    model.line_sets.push(set)
}

/// A parameter that is declared.
fn parameter<N: Exact, L: Ledger>(
    alloc: Global,
    words: &Words,
    declared: Declared,
    ledger: &mut L,
) -> Result<Param<N>, Memory>
    requires fits { FitsBounds N.limit declared.bounds }
    ensures read { IfOk result (λ p. parameter_of N.value p ∷ []
        ≡ parameters (texts words.now.keys) (parsed.Uncertain declared)) }
    ensures counted { CountsOnly L.ops L.wides ledger.old ledger.new }
{
    let name = word_of(alloc, words, declared.name)?;
    let lower = lower(declared.bounds, ledger);
    let upper = upper(declared.bounds, ledger);
    Ok(Param { name, lower, upper })
}

/// A variable that is declared.
fn variable<N: Exact, L: Ledger>(
    alloc: Global,
    words: &Words,
    declared: Declared,
    ledger: &mut L,
) -> Result<Var<N>, Memory>
    requires fits { FitsBounds N.limit declared.bounds }
    ensures read { IfOk result (λ x. variable_of N.value x ∷ []
        ≡ variables (texts words.now.keys) (parsed.Var declared)) }
    ensures counted { CountsOnly L.ops L.wides ledger.old ledger.new }
{
    let name = word_of(alloc, words, declared.name)?;
    let lower = lower(declared.bounds, ledger);
    let upper = upper(declared.bounds, ledger);
    Ok(Var { name, lower, upper })
}

/// An adaptive variable that is declared.
fn adaptive<N: Exact, L: Ledger>(
    alloc: Global,
    words: &Words,
    sorts: &[Option<Sort>],
    policy: &Policy,
    ledger: &mut L,
) -> Result<Adaptive<N>, Memory>
    requires fits { FitsBounds N.limit policy.now.bounds }
    ensures read { IfOk result (λ y. adaptive_of N.value y ∷ []
        ≡ adaptives (texts words.now.keys) sorts.now (parsed.Adaptive policy.now)) }
    ensures counted { CountsOnly L.ops L.wides ledger.old ledger.new }
{
    let name = word_of(alloc, words, policy.name)?;
    let on = parameters_at(alloc, sorts, policy.on.items())?;
    let lower = lower(policy.bounds, ledger);
    let upper = upper(policy.bounds, ledger);
    Ok(Adaptive {
        name,
        on,
        lower,
        upper,
    })
}

/// A linear condition on the parameters.
fn set_line<N: Exact, L: Ledger>(
    alloc: Global,
    sorts: &[Option<Sort>],
    place: Place,
    set: &Relation,
    ledger: &mut L,
) -> Result<SetLine<N>, Memory>
    requires fits { FitsRelation N.limit set.now }
    requires room { HasRoom sorts.now place }
    ensures read { IfOk result (λ s. set_line_of N.value s ∷ []
        ≡ map (line_taken place.count place.set) (set_lines sorts.now (parsed.Set set.now))) }
    ensures counted { CountsOnly L.ops L.wides ledger.old ledger.new }
{
    let left = expression(alloc, sorts, place, &set.left, ledger)?;
    let rel = relation(set.rel);
    let right = expression(alloc, sorts, place, &set.right, ledger)?;
    Ok(SetLine::Line { left, rel, right })
}

/// A budget.
fn budget_line<N: Exact, L: Ledger>(
    alloc: Global,
    sorts: &[Option<Sort>],
    place: Place,
    budget: &Budget,
    ledger: &mut L,
) -> Result<SetLine<N>, Memory>
    requires fits { FitsNumber N.limit budget.now.limit
        × Each (FitsMember N.limit) budget.now.members }
    requires room { HasRoom sorts.now place }
    ensures read { IfOk result (λ s. set_line_of N.value s ∷ []
        ≡ map (line_taken place.count place.set) (set_lines sorts.now (parsed.Budget budget.now))) }
    ensures counted { CountsOnly L.ops L.wides ledger.old ledger.new }
{
    let limit = fraction(budget.limit, ledger);
    let members = members(alloc, sorts, place, budget.members.items(), ledger)?;
    Ok(SetLine::Budget { limit, members })
}

/// A row.
fn row_def<N: Exact, L: Ledger>(
    alloc: Global,
    words: &Words,
    sorts: &[Option<Sort>],
    place: Place,
    row: &Row,
    ledger: &mut L,
) -> Result<RowDef<N>, Memory>
    requires fits { FitsRelation N.limit row.now.relation }
    requires room { HasRoom sorts.now place }
    ensures read { IfOk result (λ r. row_of N.value r ∷ []
        ≡ map (row_taken place.count place.set)
        (rows (texts words.now.keys) sorts.now (parsed.Row row.now))) }
    ensures counted { CountsOnly L.ops L.wides ledger.old ledger.new }
{
    let name = word_of(alloc, words, row.name)?;
    let left = expression(alloc, sorts, place, &row.relation.left, ledger)?;
    let rel = relation(row.relation.rel);
    let right = expression(alloc, sorts, place, &row.relation.right, ledger)?;
    Ok(RowDef {
        name,
        left,
        rel,
        right,
    })
}
