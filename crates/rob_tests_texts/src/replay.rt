//! Scenario files under plans, and files that are refused.

ghost use Rattle.rob_model.specs.Valid.{IsValid};

use rob_case::numbers::{exact, exacts, put, put_all};
use rob_case::{Case, Trouble};
use rob_model::{Model, Plan};
use rob_number::{Exact, Tally};
use rob_replay::{ReplayErr, TableLine, replay};
use std::alloc::Global;

/// The plan of the case, with a bound of 12.
fn plan<N: Exact>(alloc: Global, case: &Case) -> Result<Plan<N>, Trouble> {
    Ok(Plan {
        columns: exacts(alloc, case.plan())?,
        bound: exact(12)?,
    })
}

/// The table of a file, or how many lines it has; or the rule that it breaks, or the wide number, and the record.
pub(crate) fn table<N: Exact>(
    alloc: Global,
    case: &Case,
    model: &Model<N>,
    whole: bool,
) -> Result<String, Trouble>
    requires valid { IsValid N.value model.now }
{
    let plan = plan(alloc, case)?;
    match replay(alloc, model, &plan, case.bytes(), &mut Tally::new()) {
        Ok(table) => told(alloc, table.lines.items(), whole),
        Err(error) => refused(alloc, &error),
    }
}

fn refused(alloc: Global, error: &ReplayErr) -> Result<String, Trouble> {
    match *error {
        ReplayErr::Rule(rule, record) => Ok(format!(in alloc; "rule {rule} record {record}")?),
        ReplayErr::Wide(record) => Ok(format!(in alloc; "wide in record {record}")?),
        ReplayErr::Memory => Err(Trouble::Memory),
    }
}

/// How many lines a table has, and the lines where it is to be told whole.
fn told<N: Exact>(alloc: Global, lines: &[TableLine<N>], whole: bool) -> Result<String, Trouble> {
    let count = lines.len();
    let mut answer = format!(in alloc; "{count} lines")?;
    if whole {
        for line in lines {
            put_line(alloc, &mut answer, line)?;
        }
    }
    Ok(answer)
}

/// Appends a line: outside, or the values of the adaptive variables, the objective and the slacks.
fn put_line<N: Exact>(
    alloc: Global,
    text: &mut String,
    line: &TableLine<N>,
) -> Result<(), Trouble> {
    let number = line.number;
    let side = if line.inside { "inside" } else { "outside" };
    text.push_str(format!(in alloc; ", {number} {side}")?.as_str())?;
    put_all(alloc, text, line.adaptives.items())?;
    if line.inside {
        text.push_str(" objective")?;
        put(alloc, text, line.objective)?;
        text.push_str(" slacks")?;
    }
    put_all(alloc, text, line.slacks.items())
}

/// Whether each proper prefix of a file has a table or is refused, and memory is not.
pub(crate) fn prefixes<N: Exact>(
    alloc: Global,
    case: &Case,
    model: &Model<N>,
) -> Result<String, Trouble>
    requires valid { IsValid N.value model.now }
{
    let plan = plan(alloc, case)?;
    let count = judged(alloc, model, &plan, case.bytes())?;
    Ok(format!(in alloc; "{count} prefixes")?)
}

/// How many proper prefixes there are, each judged.
fn judged<N: Exact>(
    alloc: Global,
    model: &Model<N>,
    plan: &Plan<N>,
    text: &[u8],
) -> Result<usize, Trouble>
    requires valid { IsValid N.value model.now }
{
    for n in 0..text.len() {
        if let Err(ReplayErr::Memory) = replay(alloc, model, plan, &text[..n], &mut Tally::new()) {
            return Err(Trouble::Memory);
        }
    }
    Ok(text.len())
}
