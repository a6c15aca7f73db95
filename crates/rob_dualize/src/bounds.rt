//! How large the numbers can become in the rows of the two programs that a model is solved by.

ghost use Rattle.std.specs.Prelude.{◌↔◌, IfOk};
ghost use Rattle.rob_meaning.specs.RobustModel.{RobustModel};
ghost use Rattle.rob_rows.specs.LinearPrograms.{program_of};
ghost use Rattle.rob_sets.specs.SetForm.{IsSetForm};
ghost use Rattle.rob_elab.specs.Elaborated.{AreElaborated};
ghost use Rattle.rob_elab.specs.Forms.{IsForms};
ghost use Rattle.rob_dualize.specs.RowBounds.{AreBothWithin, TellsBound, TellsBounds};
ghost use Rattle.rob_dualize.specs.SetSolving.{IsSetOfModel, program_of_set};
ghost use Rattle.rob_dualize.specs.Solving.{IsNarrowModel};
ghost use Rattle.rob_dualize.specs.Wholes.{counterpart_in, counterpart_of, FitsSolver, IsFew};

use crate::elaborated::Elaborated;
use crate::set_lp::set_lp;
use rob_elab::Forms;
use rob_narrow::{bound_of, greatest};
use rob_number::{Exact, Memory};
use rob_rows::{Lp, Rows};
use rob_sets::SetForm;
use std::alloc::Global;

/// A program's size, and the bound that follows from it.
#[derive(Debug, Drop)]
pub struct RowBound {
    /// How many rows the program has.
    pub rows: u64,
    /// The greatest size of its numbers, or 1 where that is less.
    pub greatest: u64,
    /// With `m` rows and numbers of size `a`: `((m + 1) * a) ^ (m + 1)`, which no number of a row on the program's path
    /// exceeds in size; nothing where it is over the width's limit.
    pub bound: Option<u64>,
}

/// The bounds of the two programs of a model.
#[derive(Debug, Drop)]
pub struct ModelBounds {
    /// That of the set's program.
    pub set: RowBound,
    /// That of the robust counterpart.
    pub counterpart: RowBound,
}

/// The bounds of the set's program and of the counterpart, at the width of `N`. Where both are within its limit the
/// model isn't refused for a wide row.
pub fn model_bounds<N: Exact>(
    alloc: Global,
    forms: &Forms,
    set: &SetForm,
) -> Result<ModelBounds, Memory>
    requires model { AreElaborated N.limit forms.now set.now }
    requires few { IsFew (counterpart_of forms.now set.now) }
    ensures bounds { IfOk result (λ told. (m : RobustModel) → IsForms m forms.now
        → IsSetForm m set.now → TellsBounds N.limit m told) }
    ensures narrow { IfOk result (λ told. (m : RobustModel) → IsForms m forms.now
        → IsSetForm m set.now → AreBothWithin told ↔ IsNarrowModel N.limit m) }
{
    let of_set = set_bound::<N>(alloc, set)?;
    let counterpart = counterpart_bound::<N>(alloc, Elaborated { forms, set })?;
    Ok(ModelBounds {
        set: of_set,
        counterpart,
    })
}

/// The bound of the set's program. The program itself is let go of.
fn set_bound<N: Exact>(alloc: Global, set: &SetForm) -> Result<RowBound, Memory>
    requires model { IsSetOfModel N.limit set.now }
    ensures bound { IfOk result (TellsBound N.limit (program_of_set set.now)) }
{
    let lp = set_lp(alloc, set)?;
    row_bound::<N, Lp>(alloc, &lp)
}

/// The bound of the counterpart, which is told row by row.
fn counterpart_bound<N: Exact>(alloc: Global, model: Elaborated) -> Result<RowBound, Memory>
    requires model { FitsSolver N.limit model }
    ensures bound { IfOk result (TellsBound N.limit (counterpart_in model.entry)) }
{
    row_bound::<N, Elaborated>(alloc, &model)
}

/// The bound of a program. Each row is told into one list.
fn row_bound<N: Exact, R: Rows>(alloc: Global, source: &R) -> Result<RowBound, Memory>
    requires ready { R.ready source.now }
    ensures bound { IfOk result (TellsBound N.limit (program_of (R.lp source.now))) }
{
    let mut numbers = vec![in alloc; 0i64; source.columns()]?;
    let rows = source.rows();
    let size = greatest(source, numbers.as_mut_slice());
    Ok(RowBound {
        rows: rows as u64,
        greatest: size,
        bound: bound_of(rows, size, N::LIMIT as u64),
    })
}
