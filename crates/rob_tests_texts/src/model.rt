//! Values, policies, admission and names of a model.

ghost use Rattle.rob_model.specs.Valid.{IsValid};

use rob_case::numbers::{exact, exacts, shown as shown_number, small, whole, wholes};
use rob_case::text::{keyword, said, shown};
use rob_case::{Case, Trouble};
use rob_model::{
    Model, Plan, Scenario, admits, column_count, find_column, find_form, find_param, find_set_row,
    first_broken, form_count, policy_at, put_column_name, put_form_name, put_set_place_name,
    put_set_row_name, set_place_count, set_row_count, value_at,
};
use rob_number::{Exact, Tally, Text, Wide};
use std::alloc::Global;

/// The answer of a test, or that a number on the way is wide.
fn told(alloc: Global, answer: Result<bool, Wide>) -> Result<String, Trouble> {
    match answer {
        Ok(true) => said(alloc, "yes"),
        Ok(false) => said(alloc, "no"),
        Err(Wide) => said(alloc, "wide"),
    }
}

fn value<N: Exact>(alloc: Global, answer: Result<N, Wide>) -> Result<String, Trouble> {
    match answer {
        Ok(x) => shown_number(alloc, x),
        Err(Wide) => said(alloc, "wide"),
    }
}

fn scenario<N: Exact>(alloc: Global, line: &str) -> Result<Scenario<N>, Trouble> {
    let numbers = wholes(alloc, line)?;
    Ok(Scenario {
        values: exacts(alloc, numbers.as_slice())?,
    })
}

fn plan<N: Exact>(alloc: Global, case: &Case) -> Result<Plan<N>, Trouble> {
    Ok(Plan {
        columns: exacts(alloc, case.plan())?,
        bound: exact(0)?,
    })
}

/// Whether a scenario is admitted.
pub(crate) fn admitted<N: Exact>(
    alloc: Global,
    model: &Model<N>,
    line: &str,
) -> Result<String, Trouble>
    requires valid { IsValid N.value model.now }
{
    let scenario = scenario(alloc, line)?;
    if scenario.values.items().len() != model.params.items().len() {
        return Err(Trouble::Line);
    }
    told(alloc, admits(model, &scenario, &mut Tally::new()))
}

/// The first condition that fails, at a base and then a vector.
pub(crate) fn broken<N: Exact>(
    alloc: Global,
    model: &Model<N>,
    line: &str,
) -> Result<String, Trouble>
    requires valid { IsValid N.value model.now }
{
    let (base, vector) = keyword(line);
    let base = exact(whole(base)?)?;
    let vector: Scenario<N> = scenario(alloc, vector)?;
    let vector = vector.values.items();
    if vector.len() != model.params.items().len() {
        return Err(Trouble::Line);
    }
    match first_broken(model, base, vector, &mut Tally::new()) {
        Ok(found) => Ok(format!(in alloc; "{found:?}")?),
        Err(Wide) => said(alloc, "wide"),
    }
}

/// The value of the first adaptive variable in a scenario, and how many numbers were found wide.
pub(crate) fn policy<N: Exact>(
    alloc: Global,
    case: &Case,
    model: &Model<N>,
    line: &str,
) -> Result<String, Trouble>
    requires valid { IsValid N.value model.now }
{
    let plan = plan(alloc, case)?;
    let scenario = scenario(alloc, line)?;
    if model.adaptives.items().len() == 0 {
        return Err(Trouble::Line);
    }
    let mut ledger = Tally::new();
    let answer = value(alloc, policy_at(model, 0, &plan, &scenario, &mut ledger))?;
    let wides = ledger.wides();
    Ok(format!(in alloc; "{answer} with {wides} wide")?)
}

/// The objective's value in a scenario.
pub(crate) fn objective<N: Exact>(
    alloc: Global,
    case: &Case,
    model: &Model<N>,
    line: &str,
) -> Result<String, Trouble>
    requires valid { IsValid N.value model.now }
{
    let plan = plan(alloc, case)?;
    let scenario = scenario(alloc, line)?;
    value(
        alloc,
        value_at(&model.objective, model, &plan, &scenario, &mut Tally::new()),
    )
}

/// The numbers of forms, columns, set rows and set places.
pub(crate) fn counts<N: Exact>(alloc: Global, model: &Model<N>) -> Result<String, Trouble>
    requires valid { IsValid N.value model.now }
{
    let forms = form_count(model);
    let columns = column_count(model);
    let rows = set_row_count(model);
    let places = set_place_count(model);
    Ok(format!(in alloc; "{forms} {columns} {rows} {places}")?)
}

/// The number of a name of a kind.
pub(crate) fn found<N: Exact>(
    alloc: Global,
    model: &Model<N>,
    line: &str,
) -> Result<String, Trouble>
    requires valid { IsValid N.value model.now }
{
    let (kind, name) = keyword(line);
    let number = number_of(model, kind, name.as_bytes())?;
    Ok(format!(in alloc; "{number:?}")?)
}

fn number_of<N: Exact>(model: &Model<N>, kind: &str, name: &[u8]) -> Result<Option<u32>, Trouble>
    requires valid { IsValid N.value model.now }
{
    match kind {
        "form" => Ok(find_form(model, name)),
        "column" => Ok(find_column(model, name)),
        "set-row" => Ok(find_set_row(model, name)),
        "parameter" => Ok(find_param(model, name)),
        _ => Err(Trouble::Line),
    }
}

/// The name of a number of a kind.
pub(crate) fn named<N: Exact>(
    alloc: Global,
    model: &Model<N>,
    line: &str,
) -> Result<String, Trouble>
    requires valid { IsValid N.value model.now }
{
    let (kind, number) = keyword(line);
    let mut name = Text::new(alloc);
    put_name(model, kind, small(number)?, &mut name)?;
    shown(alloc, name.bytes())
}

fn put_name<N: Exact>(
    model: &Model<N>,
    kind: &str,
    index: u32,
    out: &mut Text,
) -> Result<(), Trouble>
    requires valid { IsValid N.value model.now }
{
    match kind {
        "form" if index < form_count(model) => Ok(put_form_name(model, index, out)?),
        "column" if index < column_count(model) => Ok(put_column_name(model, index, out)?),
        "set-row" if index < set_row_count(model) => Ok(put_set_row_name(model, index, out)?),
        "set-place" if index < set_place_count(model) => Ok(put_set_place_name(model, index, out)?),
        _ => Err(Trouble::Line),
    }
}
