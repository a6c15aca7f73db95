//! The model of a number.

ghost use Rattle.std.specs.Prelude.{◌≡◌, ◌≤◌, IfOk};
ghost use Rattle.rob_model.specs.Valid.{IsValid};
ghost use Rattle.rob_model.specs.View.{robust};
ghost use Rattle.rob_number.specs.Counts.{CountsOnly};
ghost use Rattle.rob_gen.specs.Generated.{generated};

use crate::declared::{budgets, demands, first_orders, later_orders};
use crate::expressions::cost;
use crate::needs::needs;
use crate::numbers::default_sets;
use rob_model::{Model, Sense};
use rob_number::{Exact, Ledger, List, Memory};
use std::alloc::Global;

/// The model of a number: orders over `n % 4 + 2` periods for demands around 10, 11 or 12, with a row for each period
/// and a budget of 1. Numbers that leave the same remainder by 12 have the same model. Each number in it is at most 14.
/// The one error is want of memory.
pub fn generate<N: Exact, L: Ledger>(
    alloc: Global,
    n: u32,
    ledger: &mut L,
) -> Result<Model<N>, Memory>
    requires limit { 14 ≤ N.limit }
    ensures model { IfOk result (λ model. robust N.value model ≡ generated n) }
    ensures valid { IfOk result (λ model. IsValid N.value model) }
    // No number is wide.
    ensures counted { CountsOnly L.ops L.wides ledger.old ledger.new }
{
    let count = n % 4 + 2;
    let params = demands(alloc, n, count, ledger)?;
    let sets = List::new(alloc);
    let set_lines = budgets(alloc, n, count, ledger)?;
    let line_sets = default_sets(alloc, 1)?;
    let vars = first_orders(alloc, ledger)?;
    let adaptives = later_orders(alloc, count - 1, ledger)?;
    let sense = Sense::Minimise;
    let objective = cost(alloc, count)?;
    let objective_set = 0;
    let rows = needs(alloc, count)?;
    let row_sets = default_sets(alloc, count)?;
    Ok(Model {
        params,
        sets,
        set_lines,
        line_sets,
        vars,
        adaptives,
        sense,
        objective,
        objective_set,
        rows,
        row_sets,
    })
}
