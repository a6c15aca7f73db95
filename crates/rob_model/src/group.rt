//! The names that one part of a model has: a row, a variable, a parameter, a statement.

ghost use Rattle.std.specs.Prelude.{◌≡◌, ◌<◌, ◌≤◌, ◌+◌, ◌++◌, ◌*◌, ◌/◌, ◌%◌, ◌==◌, if◌then◌else◌, ℕ, List, [], ◌∷◌, length, map, slice_get, option_map, codes};
ghost use Rattle.std.specs.Option.{option_copied};
ghost use Rattle.rob_algebra.specs.Fraction.{Fraction};
ghost use Rattle.rob_meaning.specs.Names.{parameter_name as name_of_parameter};
ghost use Rattle.rob_model.specs.GroupNames.{dotted as dotted_name, numbered as numbered_name, side_names, bound_names, rule_names, statement_row_names, lift_names, condition_names};
ghost use Rattle.rob_meaning.specs.RobustModel.{Parameter, budget};
ghost use Rattle.rob_model.specs.NameGroups.{names_in, member_count};
ghost use Rattle.rob_model.specs.Naming.{Finds};
ghost use Rattle.rob_model.specs.Spelling.{name_of, tail_of};
ghost use Rattle.rob_model.specs.View.{relation_of, parameter_of, adaptive_of, set_line_of, member_of};

use crate::bounds::declared;
use crate::model::{Adaptive, Member, Param, Rel, SetLine};
use crate::spelling::Spelling;
use rob_number::Exact;

/// What names are the names of.
#[derive(Clone, Copy, Debug, PartialEq, Eq)]
pub enum Kind {
    Form,
    Column,
    SetRow,
    SetPlace,
    Parameters,
}

/// The names of one part of a model, in order.
#[derive(Drop)]
pub enum Group<'a, N> {
    /// One name.
    Single(&'a [u8]),
    /// The name of a comparison, or those of the two halves of an equality.
    Sides(&'a [u8], Rel),
    /// The names of the declared bounds of a parameter or a variable.
    Bounds(&'a [u8], &'a Option<N>, &'a Option<N>),
    /// The names of the columns of an adaptive variable, over the model's parameters.
    Rule(&'a Adaptive<N>, &'a [Param<N>]),
    /// The names of the set rows of a statement, by its number from 1.
    StatementRows(&'a SetLine<N>, u32, &'a [Param<N>]),
    /// The name of a statement as a set condition, by its number from 1.
    Condition(&'a SetLine<N>, u32),
    /// The names of the set columns of a budget's members, by the number of the statement from 1.
    Lifts(&'a SetLine<N>, u32, &'a [Param<N>]),
}

impl<'a, N: Exact> Group<'a, N> {
    /// The number of names.
    pub fn count(&self) -> u32
        requires few { length (names_in N.value self.now) ≤ 5000 }
        ensures count { result ≡ length (names_in N.value self.now) }
    {
        match self {
            Group::Single(_) => 1,
            Group::Sides(_, rel) => side_count(*rel),
            Group::Bounds(_, lower, upper) => declared(lower) + declared(upper),
            Group::Rule(rule, _) => 1 + rule.on.items().len() as u32,
            Group::StatementRows(line, _, _) => row_count(line),
            Group::Condition(_, _) => 1,
            Group::Lifts(line, _, _) => lift_count(line),
        }
    }

    /// The name of that number in the group, from 0.
    pub fn name(&self, index: u32) -> Spelling<'a>
        requires few { length (names_in N.value self.now) ≤ 5000 }
        requires inside { index < length (names_in N.value self.now) }
        ensures name { slice_get (names_in N.value self.now) index ≡ Some (name_of result) }
    {
        match self {
            Group::Single(name) => plain(name),
            Group::Sides(name, rel) => side_name(name, *rel, index),
            Group::Bounds(name, lower, upper) => bound_name(name, lower, upper, index),
            Group::Rule(rule, params) => rule_name(rule, params, index),
            Group::StatementRows(line, number, params) => row_name(line, *number, params, index),
            Group::Condition(line, number) => condition_name(line, *number),
            Group::Lifts(line, number, params) => lift_name(line, *number, params, index),
        }
    }

    /// The first number in the group that has the name.
    pub fn find(&self, name: &[u8]) -> Option<u32>
        requires few { length (names_in N.value self.now) ≤ 5000 }
        ensures found { Finds (names_in N.value self.now) name.now result }
    {
        for k in 0..self.count() {
            if self.name(k).is(name) {
                return Some(k);
            }
        }
        None
    }
}

// ---- how many names there are
/// The number of inequalities that a comparison is.
fn side_count(rel: Rel) -> u32
    ensures count { (name : List ℕ) → result ≡ length (side_names (relation_of rel) name) }
{
    match rel {
        Rel::AtMost => 1,
        Rel::AtLeast => 1,
        Rel::Equal => 2,
    }
}

/// The number of set rows of a statement: two for each member of a budget, and one for their sum.
fn row_count<N: Exact>(line: &SetLine<N>) -> u32
    requires few { member_count (set_line_of N.value line.now) ≤ 5000 }
    ensures count { (ps : List Parameter) (n : ℕ)
        → result ≡ length (statement_row_names ps n (set_line_of N.value line.now)) }
{
    match line {
        SetLine::Line { rel, .. } => side_count(*rel),
        SetLine::Budget { members, .. } => 2 * members.items().len() as u32 + 1,
    }
}

/// The number of set columns of a statement.
fn lift_count<N: Exact>(line: &SetLine<N>) -> u32
    requires few { member_count (set_line_of N.value line.now) ≤ 5000 }
    ensures count { (ps : List Parameter) (n : ℕ)
        → result ≡ length (lift_names ps n (set_line_of N.value line.now)) }
{
    match line {
        SetLine::Line { .. } => 0,
        SetLine::Budget { members, .. } => members.items().len() as u32,
    }
}

// ---- single names
/// A name as it is declared.
fn plain(name: &[u8]) -> Spelling<'_>
    ensures name { name_of result ≡ name.now }
{
    Spelling {
        first: name,
        number: None,
        second: None,
        last: None,
    }
}

/// A name, a dot and a further name.
fn dotted<'a>(name: &'a [u8], part: &'a [u8]) -> Spelling<'a>
    ensures name { name_of result ≡ dotted_name name.now part.now }
{
    Spelling {
        first: name,
        number: None,
        second: Some(part),
        last: None,
    }
}

/// A name, a dot and a word.
fn suffixed<'a>(name: &'a [u8], word: &'static [u8]) -> Spelling<'a>
    ensures name { name_of result ≡ dotted_name name.now word.now }
{
    Spelling {
        first: name,
        number: None,
        second: None,
        last: Some(word),
    }
}

/// A word, a dot and a number.
fn numbered(word: &[u8], number: u32) -> Spelling<'_>
    ensures name { name_of result ≡ numbered_name word.now number }
{
    Spelling {
        first: word,
        number: Some(number),
        second: None,
        last: None,
    }
}

/// The name of a parameter, none past the last.
pub fn parameter_name<N: Exact>(params: &[Param<N>], k: u32) -> &[u8]
    ensures name { result.now ≡ name_of_parameter (map (parameter_of N.value) params.now) k }
{
    if (k as usize) < params.len() {
        params[k as usize].name.bytes()
    } else {
        b""
    }
}

/// The name of a comparison, or of a half of an equality.
fn side_name(name: &[u8], rel: Rel, index: u32) -> Spelling<'_>
    requires inside { index < length (side_names (relation_of rel) name.now) }
    ensures name { slice_get (side_names (relation_of rel) name.now) index ≡ Some (name_of result) }
{
    Spelling {
        first: name,
        number: None,
        second: None,
        last: half_of(rel, index),
    }
}

/// The half of an equality; none of another comparison.
fn half_of(rel: Rel, index: u32) -> Option<&'static [u8]>
    ensures half { (name : List ℕ) → index < length (side_names (relation_of rel) name)
        → slice_get (side_names (relation_of rel) name) index
        ≡ Some (name ++ tail_of (option_copied result)) }
{
    match rel {
        Rel::AtMost => None,
        Rel::AtLeast => None,
        Rel::Equal => { if index == 0 { Some(b"le") } else { Some(b"ge") } }
    }
}

/// The name of a declared bound, lower before upper.
fn bound_name<'a, N: Exact>(
    name: &'a [u8],
    lower: &Option<N>,
    upper: &Option<N>,
    index: u32,
) -> Spelling<'a>
    requires inside { index < length (bound_names name.now (option_map N.value lower.now)
        (option_map N.value upper.now)) }
    ensures name { slice_get (bound_names name.now (option_map N.value lower.now)
        (option_map N.value upper.now)) index
        ≡ Some (name_of result) }
{
    match lower {
        Some(_) if index == 0 => suffixed(name, b"lower"),
        _ => suffixed(name, b"upper"),
    }
}

/// The name of a column of an adaptive variable.
fn rule_name<'a, N: Exact>(
    rule: &'a Adaptive<N>,
    params: &'a [Param<N>],
    index: u32,
) -> Spelling<'a>
    requires inside { index < length (rule_names (map (parameter_of N.value) params.now)
        (adaptive_of N.value rule.now)) }
    ensures name { slice_get (rule_names (map (parameter_of N.value) params.now)
        (adaptive_of N.value rule.now)) index
        ≡ Some (name_of result) }
{
    if index == 0 {
        return plain(rule.name.bytes());
    }
    let k = rule.on.items()[index as usize - 1];
    dotted(rule.name.bytes(), parameter_name(params, k))
}

/// The name of a set row of a statement.
fn row_name<'a, N: Exact>(
    line: &'a SetLine<N>,
    number: u32,
    params: &'a [Param<N>],
    index: u32,
) -> Spelling<'a>
    requires few { member_count (set_line_of N.value line.now) ≤ 5000 }
    requires inside { index < length
        (statement_row_names (map (parameter_of N.value) params.now) number
        (set_line_of N.value line.now)) }
    ensures name { slice_get (statement_row_names (map (parameter_of N.value) params.now) number
        (set_line_of N.value line.now)) index
        ≡ Some (name_of result) }
{
    match line {
        SetLine::Line { rel, .. } => line_row_name(*rel, number, index),
        SetLine::Budget { members, .. } => budget_row_name(members.items(), number, params, index),
    }
}

/// The name of a set row of a linear condition.
fn line_row_name(rel: Rel, number: u32, index: u32) -> Spelling<'static>
    requires inside { index < length
        (side_names (relation_of rel) (numbered_name (codes "set") number)) }
    ensures name { slice_get (side_names (relation_of rel) (numbered_name (codes "set") number))
        index ≡ Some (name_of result) }
{
    Spelling {
        first: b"set",
        number: Some(number),
        second: None,
        last: half_of(rel, index),
    }
}

/// The name of a set row of a budget: two for each member, and then the sum.
fn budget_row_name<'a, N: Exact>(
    members: &'a [Member<N>],
    number: u32,
    params: &'a [Param<N>],
    index: u32,
) -> Spelling<'a>
    requires few { length members.now ≤ 5000 }
    requires inside { index < 2 * length members.now + 1 }
    ensures name { (limit : Fraction)
        → slice_get (statement_row_names (map (parameter_of N.value) params.now) number
        (budget limit (map (member_of N.value) members.now))) index ≡ Some (name_of result) }
{
    let place = index as usize / 2;
    if place < members.len() {
        Spelling {
            first: b"budget",
            number: Some(number),
            second: Some(parameter_name(params, members[place].param)),
            last: Some(direction(index)),
        }
    } else {
        Spelling {
            first: b"budget",
            number: Some(number),
            second: None,
            last: Some(b"sum"),
        }
    }
}

/// The directions in which a member's parameter leaves its centre.
fn direction(index: u32) -> &'static [u8]
    ensures direction { result.now ≡ (if index % 2 == 0 then codes "up" else codes "down") }
{
    if index % 2 == 0 { b"up" } else { b"down" }
}

/// The name of a statement as a set condition.
fn condition_name<N: Exact>(line: &SetLine<N>, number: u32) -> Spelling<'static>
    ensures name { condition_names number (set_line_of N.value line.now) ≡ name_of result ∷ [] }
{
    match line {
        SetLine::Line { .. } => numbered(b"set", number),
        SetLine::Budget { .. } => numbered(b"budget", number),
    }
}

/// The name of a set column of a budget's member.
fn lift_name<'a, N: Exact>(
    line: &'a SetLine<N>,
    number: u32,
    params: &'a [Param<N>],
    index: u32,
) -> Spelling<'a>
    requires inside { index < length (lift_names (map (parameter_of N.value) params.now) number
        (set_line_of N.value line.now)) }
    ensures name { slice_get (lift_names (map (parameter_of N.value) params.now) number
        (set_line_of N.value line.now)) index
        ≡ Some (name_of result) }
{
    match line {
        SetLine::Budget { members, .. } => {
            let member = &members.items()[index as usize];
            Spelling {
                first: b"t",
                number: Some(number),
                second: Some(parameter_name(params, member.param)),
                last: None,
            }
        }
        SetLine::Line { .. } => unreachable!(),
    }
}
