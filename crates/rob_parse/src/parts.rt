//! From the parts of statements to those of a model.

ghost use Rattle.std.specs.Prelude.{◌≡◌, map, IfOk};
ghost use Rattle.rob_number.specs.Counts.{CountsOnly};
ghost use Rattle.rob_meaning.specs.Places.{Each};
ghost use Rattle.rob_model.specs.View.{member_of, relation_of as model_relation, sense_of as model_sense};
ghost use Rattle.rob_parse.specs.Building.{FitsMember, HasRoom};
ghost use Rattle.rob_syntax.specs.Known.{texts};
ghost use Rattle.rob_parse.specs.Written.{relation_of, sense_of};
ghost use Rattle.rob_parse.specs.Models.{member_taken};
ghost use Rattle.rob_parse.specs.Written as spec;

use crate::fraction::{fraction, signed};
use crate::place::Place;
use rob_model::{Member, Rel, Sense};
use rob_number::{Exact, Ledger, List, Memory, Text};
use rob_rules::{Sort, sort_at};
use rob_syntax::{Words, syntax};
use std::alloc::Global;

/// The word of this number, as a text.
pub fn word_of(alloc: Global, words: &Words, name: usize) -> Result<Text, Memory>
    ensures word { IfOk result (λ text. text ≡ spec.word_of (texts words.now.keys) name) }
{
    let mut text = Text::new(alloc);
    text.push(word_at(words, name))?;
    Ok(text)
}

/// The word of this number.
fn word_at(words: &Words, name: usize) -> &[u8]
    ensures word { result.now ≡ spec.word_of (texts words.now.keys) name }
{
    match words.get_index(name) {
        Some(word) => word.as_slice(),
        None => &[],
    }
}

/// The number of a parameter; nothing else stands where one is asked for.
fn parameter_number(sort: Option<Sort>) -> u32
    ensures number { result ≡ spec.parameter_number sort }
{
    match sort {
        Some(Sort::Parameter(k)) => k,
        _ => 0,
    }
}

/// The number of the parameter of this name.
fn parameter_at(sorts: &[Option<Sort>], name: usize) -> u32
    ensures number { result ≡ spec.parameter_at sorts.now name }
{
    parameter_number(sort_at(sorts, name))
}

/// The numbers of the parameters of these names.
pub fn parameters_at(
    alloc: Global,
    sorts: &[Option<Sort>],
    names: &[usize],
) -> Result<List<u32>, Memory>
    ensures numbers { IfOk result (λ list. list ≡ map (spec.parameter_at sorts.now) names.now) }
{
    let mut list = List::new(alloc);
    for name in names {
        list.push(parameter_at(sorts, *name))?;
    }
    Ok(list)
}

/// The members of a budget.
pub fn members<N: Exact, L: Ledger>(
    alloc: Global,
    sorts: &[Option<Sort>],
    place: Place,
    members: &[syntax::Member],
    ledger: &mut L,
) -> Result<List<Member<N>>, Memory>
    requires fits { Each (FitsMember N.limit) members.now }
    requires room { HasRoom sorts.now place }
    ensures read { IfOk result (λ list. map (member_of N.value) list
        ≡ map (member_taken place.count place.set) (map (spec.member sorts.now) members.now)) }
    ensures counted { CountsOnly L.ops L.wides ledger.old ledger.new }
{
    let mut list = List::new(alloc);
    for next in members {
        list.push(member(sorts, place, next, ledger))?;
    }
    Ok(list)
}

/// A member of a budget.
fn member<N: Exact, L: Ledger>(
    sorts: &[Option<Sort>],
    place: Place,
    member: &syntax::Member,
    ledger: &mut L,
) -> Member<N>
    requires fits { FitsMember N.limit member.now }
    requires room { HasRoom sorts.now place }
    ensures read { member_of N.value result
        ≡ member_taken place.count place.set (spec.member sorts.now member.now) }
    ensures counted { CountsOnly L.ops L.wides ledger.old ledger.new }
{
    Member {
        param: place.set * place.count + parameter_at(sorts, member.name),
        centre: signed(member.spread.centre, ledger),
        deviation: fraction(member.spread.deviation, ledger),
    }
}

/// A relation.
pub fn relation(rel: syntax::Rel) -> Rel
    ensures relation { model_relation result ≡ relation_of rel }
{
    match rel {
        syntax::Rel::AtMost => Rel::AtMost,
        syntax::Rel::AtLeast => Rel::AtLeast,
        syntax::Rel::Equal => Rel::Equal,
    }
}

/// Whether a goal is to be small or large.
pub fn sense(sense: syntax::Sense) -> Sense
    ensures sense { model_sense result ≡ sense_of sense }
{
    match sense {
        syntax::Sense::Minimise => Sense::Minimise,
        syntax::Sense::Maximise => Sense::Maximise,
    }
}
