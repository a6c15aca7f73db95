//! The names that terms are printed with, in lists that are made once.

ghost use Rattle.std.specs.Prelude.{◌≡◌, ◌++◌, codes, map, IfOk};
ghost use Rattle.rob_meaning.specs.Names.{set_column_names};
ghost use Rattle.rob_model.specs.Valid.{IsValid};
ghost use Rattle.rob_model.specs.View.{parameter_of, robust};
ghost use Rattle.rob_report.specs.Rows.{form_column_names, fronts_of};

use crate::names::{put_set_column, set_column_count};
use rob_model::copy::word;
use rob_model::{Model, Param, column_count, put_column_name};
use rob_number::{Exact, List, Memory, Text};
use std::alloc::Global;

/// What the terms of forms are printed with.
#[derive(Debug, Drop)]
pub struct Labels {
    /// For the constant and each parameter what stands in front of a column's name: its own name and a star.
    pub fronts: List<Text>,
    /// The columns' names: `1` for the constant, the decision columns, and `tau`.
    pub columns: List<Text>,
}

/// What the terms of a model's forms are printed with.
pub fn form_labels<N: Exact>(alloc: Global, model: &Model<N>) -> Result<Labels, Memory>
    requires valid { IsValid N.value model.now }
    ensures fronts { IfOk result (λ labels. labels.fronts
        ≡ fronts_of (robust N.value model.now).parameters) }
    ensures columns { IfOk result (λ labels. labels.columns
        ≡ form_column_names (robust N.value model.now)) }
{
    let fronts = form_fronts(alloc, model.params.items())?;
    let columns = form_columns(alloc, model)?;
    Ok(Labels { fronts, columns })
}

/// `1*`, and the name of each parameter with a star behind it.
fn form_fronts<N: Exact>(alloc: Global, params: &[Param<N>]) -> Result<List<Text>, Memory>
    ensures list { IfOk result (λ list. list ≡ fronts_of (map (parameter_of N.value) params.now)) }
{
    let mut list = List::new(alloc);
    list.push(starred(alloc, b"1")?)?;
    for param in params {
        list.push(starred(alloc, param.name.bytes())?)?;
    }
    Ok(list)
}

/// A name with a star behind it.
fn starred(alloc: Global, name: &[u8]) -> Result<Text, Memory>
    ensures text { IfOk result (λ text. text ≡ name.now ++ codes "*") }
{
    let mut text = Text::new(alloc);
    text.push(name)?;
    text.push(b"*")?;
    Ok(text)
}

/// `1`, the names of the decision columns, and `tau`.
fn form_columns<N: Exact>(alloc: Global, model: &Model<N>) -> Result<List<Text>, Memory>
    requires valid { IsValid N.value model.now }
    ensures list { IfOk result (λ list. list ≡ form_column_names (robust N.value model.now)) }
{
    let mut list = List::new(alloc);
    list.push(word(alloc, b"1")?)?;
    for index in 0..column_count(model) {
        let mut name = Text::new(alloc);
        put_column_name(model, index, &mut name)?;
        list.push(name)?;
    }
    list.push(word(alloc, b"tau")?)?;
    Ok(list)
}

/// The names of the set columns.
pub fn set_columns<N: Exact>(alloc: Global, model: &Model<N>) -> Result<List<Text>, Memory>
    requires valid { IsValid N.value model.now }
    ensures list { IfOk result (λ list. list ≡ set_column_names (robust N.value model.now)) }
{
    let mut list = List::new(alloc);
    for index in 0..set_column_count(model) {
        let mut name = Text::new(alloc);
        put_set_column(model, index, &mut name)?;
        list.push(name)?;
    }
    Ok(list)
}
