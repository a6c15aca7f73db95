//! The objective's form: the epigraph of the objective, with `tau` for its bound.

ghost use Rattle.std.specs.Prelude.{◌<◌, ◌∷◌, [], length};
ghost use Rattle.rob_number.specs.Counts.{NeverFell};
ghost use Rattle.rob_meaning.specs.Forms.{objective_form, tau_column};
ghost use Rattle.rob_model.specs.Valid.{IsValid};
ghost use Rattle.rob_model.specs.View.{robust};
ghost use Rattle.rob_sets.specs.Tabulating.{Tabulates};
ghost use Rattle.rob_elab.specs.Appending.{Appends};

use crate::matrix::append_form;
use rob_model::names::column_count;
use rob_model::{Model, Sense, Spot, Where};
use rob_number::{Exact, Ledger, List};
use rob_sets::error::{Stop, stopped};
use rob_sets::expression::{coefficients, unit};
use rob_sets::line::less;
use rob_sets::{Cell, ElabErr, Table};
use std::alloc::Global;

/// The coefficients of the objective's form: the objective less `tau`, or `tau` less the objective.
fn objective_table<N: Exact, L: Ledger>(
    alloc: Global,
    model: &Model<N>,
    ledger: &mut L,
) -> Result<Table<N>, Stop>
    requires valid { IsValid N.value model.now }
    ensures table { Tabulates N.value N.limit (robust N.value model.now)
        (objective_form (robust N.value model.now).sense (robust N.value model.now).objective
        (tau_column (robust N.value model.now))) (L.wides ledger.old) (L.wides ledger.new) result }
    ensures counted { NeverFell L.ops L.wides ledger.old ledger.new }
{
    let goal = coefficients(alloc, &model.objective, model, ledger)?;
    let column = column_count(model) + 1;
    let tau: Table<N> = unit(alloc, Cell { row: 0, column }, ledger)?;
    match model.sense {
        Sense::Minimise => less(goal, &tau, ledger),
        Sense::Maximise => less(tau, &goal, ledger),
    }
}

/// Clears and appends the objective's form.
pub fn append_objective<N: Exact, L: Ledger>(
    alloc: Global,
    model: &Model<N>,
    matrices: &mut List<List<List<i64>>>,
    ledger: &mut L,
) -> Result<(), ElabErr>
    requires valid { IsValid N.value model.now }
    requires few { length matrices.old < 1000 }
    ensures form { Appends N.limit (robust N.value model.now) (length matrices.old)
        (objective_form (robust N.value model.now).sense (robust N.value model.now).objective
        (tau_column (robust N.value model.now)) ∷ [])
        matrices.old matrices.new (L.wides ledger.old) (L.wides ledger.new) result }
    ensures counted { NeverFell L.ops L.wides ledger.old ledger.new }
{
    let place = Where::Form(matrices.items().len() as u32);
    match objective_table(alloc, model, ledger) {
        Ok(table) => append_form(alloc, model, &table, matrices, ledger),
        Err(stop) => Err(stopped(stop, Spot::Coefficient(place))),
    }
}
