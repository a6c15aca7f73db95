//! The linear program of the lifted set, which asks whether a scenario is admitted:
//!     maximise 0  subject to  g * (v - w) <= h  for each set row, and v, w >= 0
//! Set column c is the difference of the columns 2 c and 2 c + 1. (Chvatal, Linear Programming, chapter 1.)

ghost use Rattle.std.specs.Prelude.{◌≡◌, ◌+◌, ◌-◌, ◌*◌, ◌^◌, ◌<◌, ◌↔◌, ℕ, pos, nat_abs, length, map, IfOk};
ghost use Rattle.rob_counterpart.specs.Counterpart.{robust_of, set_program};
ghost use Rattle.rob_counterpart.specs.SamePrograms.{AreSame};
ghost use Rattle.rob_linear.specs.Optimality.{IsInfeasible};
ghost use Rattle.rob_linear.specs.Programs.{Program};
ghost use Rattle.rob_linear.specs.Vectors.{at};
ghost use Rattle.rob_meaning.specs.Places.{Each};
ghost use Rattle.rob_meaning.specs.RobustModel.{RobustModel};
ghost use Rattle.rob_meaning.specs.UncertaintySet.{IsEmptySet};
ghost use Rattle.rob_meaning.specs.WellFormed.{IsModel};
ghost use Rattle.rob_model.specs.Limits.{IsWithinLimits};
ghost use Rattle.rob_rows.specs.LinearPrograms.{IsShaped, HasNumbersWithin, program_of};
ghost use Rattle.rob_sets.specs.SetForm.{IsSetForm, SetFits};
ghost use Rattle.rob_sets.specs.declared.set_form.SetForm.{SetForm};
ghost use Rattle.rob_sets.specs.declared.set_form.SetRow.{SetRow};
ghost use Rattle.rob_dualize.specs.SetProgram.{HasWholeRows, IsOverRobust, robust_set, in_pairs, left_sides, right_sides};

use rob_number::{List, Memory};
use rob_rows::Lp;
use rob_sets::{SetForm, SetRow};
use std::alloc::{AllocError, Global};

/// The program over the set rows with no cost: a row for each set row, in order, and two columns for each set column,
/// of which the first counts positively. It is infeasible exactly where no scenario is admitted.
pub fn set_lp(alloc: Global, set: &SetForm) -> Result<Lp, Memory>
    requires whole { HasWholeRows set.now }
    requires fits { SetFits (2 ^ 62 - 1) set.now }
    ensures program { IfOk result (λ lp. IsOverRobust (robust_set set.now) (program_of lp)) }
    ensures shaped { IfOk result (λ lp. IsShaped lp) }
    ensures within { IfOk result (λ lp. (limit : ℕ) → SetFits limit set.now
        → HasNumbersWithin limit lp) }
{
    let rows = set.rows.items();
    Ok(Lp {
        a: left_in_pairs(alloc, rows)?,
        b: rights(alloc, rows)?,
        c: zeros(alloc, 2 * set.columns as usize)?,
    })
}

/// What the program of a model's set form says of the model. It does nothing, and its clauses are the claim.
pub fn set_program_laws()
    // The set form of a model can be given to `set_lp`.
    ensures whole { (m : RobustModel) (set : SetForm) → IsSetForm m set → HasWholeRows set }
    ensures few { (m : RobustModel) (set : SetForm) → IsSetForm m set → IsWithinLimits m
        → 2 * set.columns + length set.rows < 2 ^ 31 }
    // Its program is that of the model's set, so both have the same bases, the same path and the same endings.
    ensures rows { (m : RobustModel) (set : SetForm) (P : Program) → IsSetForm m set
        → IsOverRobust (robust_set set) P → IsOverRobust (robust_of m) P }
    ensures same { (m : RobustModel) (set : SetForm) (P : Program) → IsSetForm m set
        → IsOverRobust (robust_set set) P → AreSame P (set_program m) }
    // It is infeasible exactly where no scenario is admitted.
    ensures empty { (m : RobustModel) (set : SetForm) (P : Program) → IsModel m → IsSetForm m set
        → IsOverRobust (robust_set set) P → IsInfeasible P ↔ IsEmptySet m }
{}

/// The coefficients of each row, in pairs.
fn left_in_pairs(alloc: Global, rows: &[SetRow]) -> Result<List<List<i64>>, Memory>
    requires fits { Each (λ (row : SetRow). Each (λ a. nat_abs a < 2 ^ 62) row.g) rows.now }
    ensures rows { IfOk result (λ list. list ≡ map in_pairs (left_sides rows.now)) }
{
    let mut list = List::new(alloc);
    for row in rows {
        list.push(pairs(alloc, row.g.items())?)?;
    }
    Ok(list)
}

/// Each number, and behind it its negation.
fn pairs(alloc: Global, numbers: &[i64]) -> Result<List<i64>, Memory>
    requires fits { Each (λ a. nat_abs a < 2 ^ 62) numbers.now }
    ensures pairs { IfOk result (λ list. list ≡ in_pairs numbers.now) }
{
    let mut list = List::new(alloc);
    for number in numbers {
        list.push(*number)?;
        list.push(-*number)?;
    }
    Ok(list)
}

/// So many zeros.
fn zeros(alloc: Global, count: usize) -> Result<List<i64>, AllocError>
    ensures many { IfOk result (λ list. length list ≡ count) }
    ensures zeros { IfOk result (λ list. (k : ℕ) → at list k ≡ pos 0) }
{
    Ok(List::from(vec![in alloc; 0i64; count]?))
}

/// The right sides.
fn rights(alloc: Global, rows: &[SetRow]) -> Result<List<i64>, Memory>
    ensures rights { IfOk result (λ list. list ≡ right_sides rows.now) }
{
    let mut list = List::new(alloc);
    for row in rows {
        list.push(row.h)?;
    }
    Ok(list)
}
