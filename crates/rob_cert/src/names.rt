//! The names of a model's columns, forms and set rows, in lists.

ghost use Rattle.std.specs.Prelude.{◌≡◌, ◌<◌, ◌^◌, ◌++◌, ◌∷◌, [], codes, length, map, IfOk};
ghost use Rattle.rob_meaning.specs.Names.{column_names, form_names, set_row_names};
ghost use Rattle.rob_meaning.specs.RobustModel.{Parameter};
ghost use Rattle.rob_model.specs.Valid.{IsValid};
ghost use Rattle.rob_model.specs.View.{parameter_of, robust};
ghost use Rattle.rob_cert.specs.NamesView.{naming};
ghost use Rattle.rob_cert.specs.Spelling.{entry_names, name_at, naming_of};

use crate::kind::Vector;
use rob_model::{
    Model, Param, column_count, form_count, put_column_name, put_form_name, put_set_row_name,
    set_row_count,
};
use rob_number::{Exact, List, Memory, Text};
use std::alloc::Global;

/// The names of a model's parameters, decision columns, forms and set rows, by their numbers.
#[derive(Debug)]
pub struct Names {
    pub parameters: List<Text>,
    pub columns: List<Text>,
    pub forms: List<Text>,
    pub set_rows: List<Text>,
}

impl Drop for Names {
    /// Lets go of it in one call. A derived drop would stand in each function that does.
    fn drop(self) {
        let Names {
            parameters: _parameters,
            columns: _columns,
            forms: _forms,
            set_rows: _set_rows,
        } = self;
    }
}

impl Names {
    /// The names of a model.
    pub fn of<N: Exact>(alloc: Global, model: &Model<N>) -> Result<Names, Memory>
        requires valid { IsValid N.value model.now }
        ensures names { IfOk result (λ names. naming names ≡ naming_of (robust N.value model.now)) }
    {
        let parameters = parameter_list(alloc, model.params.items())?;
        let columns = column_list(alloc, model)?;
        let forms = form_list(alloc, model)?;
        let set_rows = set_row_list(alloc, model)?;
        Ok(Names {
            parameters,
            columns,
            forms,
            set_rows,
        })
    }

    /// The number of entries of a vector.
    pub fn entry_count(&self, vector: Vector) -> usize
        requires few { length self.now.columns < 2 ^ 32 }
        ensures count { result ≡ length (entry_names (naming self.now) vector) }
    {
        match vector {
            Vector::Inside => self.parameters.items().len(),
            Vector::Plan => self.columns.items().len(),
            Vector::Move => self.columns.items().len() + 1,
            Vector::At => self.parameters.items().len(),
        }
    }

    /// The name of an entry of a vector. The direction's bound stands behind the columns.
    pub fn entry(&self, vector: Vector, place: usize) -> &[u8]
        requires inside { place < length (entry_names (naming self.now) vector) }
        ensures name { result.now ≡ name_at (entry_names (naming self.now) vector) place }
    {
        match vector {
            Vector::Inside => name_in(self.parameters.items(), place),
            Vector::Plan => name_in(self.columns.items(), place),
            Vector::Move => moved_name(self.columns.items(), place),
            Vector::At => name_in(self.parameters.items(), place),
        }
    }
}

/// The name of that number.
pub fn name_in(names: &[Text], place: usize) -> &[u8]
    requires inside { place < length names.now }
    ensures name { result.now ≡ name_at names.now place }
{
    names[place].bytes()
}

/// The name of that number in the columns and tau behind them.
fn moved_name(columns: &[Text], place: usize) -> &[u8]
    requires inside { place < length (columns.now ++ codes "tau" ∷ []) }
    ensures name { result.now ≡ name_at (columns.now ++ codes "tau" ∷ []) place }
{
    if place < columns.len() {
        name_in(columns, place)
    } else {
        b"tau"
    }
}

// ---- lists of names
/// The names of the parameters.
fn parameter_list<N: Exact>(alloc: Global, params: &[Param<N>]) -> Result<List<Text>, Memory>
    ensures list { IfOk result (λ list. list
        ≡ map (λ (d : Parameter). d.name) (map (parameter_of N.value) params.now)) }
{
    let mut list = List::new(alloc);
    for param in params {
        let mut name = Text::new(alloc);
        name.push(param.name.bytes())?;
        list.push(name)?;
    }
    Ok(list)
}

/// The names of the decision columns.
fn column_list<N: Exact>(alloc: Global, model: &Model<N>) -> Result<List<Text>, Memory>
    requires valid { IsValid N.value model.now }
    ensures list { IfOk result (λ list. list ≡ column_names (robust N.value model.now)) }
{
    let mut list = List::new(alloc);
    for index in 0..column_count(model) {
        let mut name = Text::new(alloc);
        put_column_name(model, index, &mut name)?;
        list.push(name)?;
    }
    Ok(list)
}

/// The names of the forms.
fn form_list<N: Exact>(alloc: Global, model: &Model<N>) -> Result<List<Text>, Memory>
    requires valid { IsValid N.value model.now }
    ensures list { IfOk result (λ list. list ≡ form_names (robust N.value model.now)) }
{
    let mut list = List::new(alloc);
    for index in 0..form_count(model) {
        let mut name = Text::new(alloc);
        put_form_name(model, index, &mut name)?;
        list.push(name)?;
    }
    Ok(list)
}

/// The names of the set rows.
fn set_row_list<N: Exact>(alloc: Global, model: &Model<N>) -> Result<List<Text>, Memory>
    requires valid { IsValid N.value model.now }
    ensures list { IfOk result (λ list. list ≡ set_row_names (robust N.value model.now)) }
{
    let mut list = List::new(alloc);
    for index in 0..set_row_count(model) {
        let mut name = Text::new(alloc);
        put_set_row_name(model, index, &mut name)?;
        list.push(name)?;
    }
    Ok(list)
}
