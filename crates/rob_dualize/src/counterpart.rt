//! The robust counterpart as a linear program, told row by row.

ghost use Rattle.std.specs.Prelude.{◌≡◌, ◌<◌, ◌≤◌, ◌⊎◌, ℕ, length};
ghost use Rattle.rob_linear.specs.Vectors.{at};
ghost use Rattle.rob_meaning.specs.Places.{tabulate};
ghost use Rattle.rob_counterpart.specs.Reform.{pairs, multiplier, row_entry};
ghost use Rattle.rob_dualize.specs.Told.{listed, CanBeTold, listed_is_shaped};
ghost use Rattle.rob_dualize.specs.Wholes.{wholes_in, cost_of, counterpart_in, IsFew};

use crate::elaborated::Elaborated;
use crate::entries::{cost_number, right_number, row_number};
use rob_elab::Forms;
use rob_rows::Rows;

/// The robust counterpart of the forms and the set rows, told row by row straight from these: nobody holds the program.
/// It maximises `tau` or its negation, as the sense says. Its columns are the decision columns and `tau`, each as a
/// pair whose first column counts positively; then a multiplier for each form and set row. Its rows, for each form: for
/// each set column two rows that equate the multipliers' sum of the set rows with the form's number at the plan, the
/// one with the positive multipliers first; then one row that bounds the multipliers' sum of the right sides. (Ben-Tal,
/// El Ghaoui, Nemirovski, Robust Optimization, chapter 1.)
impl<'a> Rows for Elaborated<'a> {
    ghost lp = { λ model. listed (counterpart_in model) };

    ghost ready = { λ model. CanBeTold model.forms.now model.set.now };

    fn columns(&self) -> usize {
        program_columns(*self)
    }

    fn rows(&self) -> usize {
        program_rows(*self)
    }

    fn write_row(&self, i: usize, numbers: &mut [i64]) -> i64 {
        let block = 2 * self.set.columns as usize + 1;
        let form = i / block;
        let row = i % block;
        write_form_row(*self, form, row, numbers);
        right_number(*self, form, row)
    }

    fn write_cost(&self, numbers: &mut [i64]) {
        write_costs(self.forms, numbers);
    }

    ghost shaped = { λ model _. listed_is_shaped (counterpart_in model) };
}

/// Writes form i's row p: the numbers at the plan's columns and at the form's own multipliers, and 0 at those of other
/// forms.
fn write_form_row(model: Elaborated, i: usize, p: usize, numbers: &mut [i64])
    requires told { CanBeTold model.forms.now model.set.now }
    requires form_in { i < length model.forms.now.matrices }
    requires size { length numbers.old ≡ (counterpart_in model).n }
    ensures row { numbers.new
        ≡ tabulate (counterpart_in model.entry).n (row_entry (wholes_in model.entry) i p) }
{
    numbers.fill(0);
    write_plan(model, i, p, numbers);
    write_multipliers(model, i, p, numbers);
}

/// Writes its numbers at the plan's columns.
fn write_plan(model: Elaborated, i: usize, p: usize, numbers: &mut [i64])
    requires told { CanBeTold model.forms.now model.set.now }
    requires form_in { i < length model.forms.now.matrices }
    requires size { length numbers.old ≡ (counterpart_in model).n }
    ensures plan { (k : ℕ) → k < pairs (wholes_in model.entry)
        → at numbers.new k ≡ row_entry (wholes_in model.entry) i p k }
    ensures others { (k : ℕ) → pairs (wholes_in model.entry) ≤ k
        → at numbers.new k ≡ at numbers.old k }
{
    for k in 0..2 * (model.forms.columns as usize + 1) {
        numbers[k] = row_number(model, i, p, k);
    }
}

/// Writes its numbers at the form's own multipliers.
fn write_multipliers(model: Elaborated, i: usize, p: usize, numbers: &mut [i64])
    requires told { CanBeTold model.forms.now model.set.now }
    requires form_in { i < length model.forms.now.matrices }
    requires size { length numbers.old ≡ (counterpart_in model).n }
    ensures own { (k : ℕ) → multiplier (wholes_in model.entry) i 0 ≤ k
        → k < multiplier (wholes_in model.entry) i (length model.entry.set.now.rows)
        → at numbers.new k ≡ row_entry (wholes_in model.entry) i p k }
    ensures others { (k : ℕ) → (k < multiplier (wholes_in model.entry) i 0)
        ⊎ (multiplier (wholes_in model.entry) i (length model.entry.set.now.rows) ≤ k)
        → at numbers.new k ≡ at numbers.old k }
{
    let rows = model.set.rows.items().len();
    let first = 2 * (model.forms.columns as usize + 1) + i * rows;
    for k in first..first + rows {
        numbers[k] = row_number(model, i, p, k);
    }
}

/// Writes the costs of all columns.
fn write_costs(forms: &Forms, numbers: &mut [i64])
    ensures costs { numbers.new ≡ tabulate (length numbers.old) (cost_of forms.now) }
{
    for k in 0..numbers.len() {
        numbers[k] = cost_number(forms, k);
    }
}

/// The number of columns.
pub fn program_columns(model: Elaborated) -> usize
    requires few { IsFew (counterpart_in model) }
    ensures count { result ≡ (counterpart_in model.entry).n }
{
    let forms = model.forms;
    2 * (forms.columns as usize + 1) + forms.matrices.items().len() * model.set.rows.items().len()
}

/// The number of rows.
pub fn program_rows(model: Elaborated) -> usize
    requires few { IsFew (counterpart_in model) }
    ensures count { result ≡ (counterpart_in model.entry).m }
{
    model.forms.matrices.items().len() * (2 * model.set.columns as usize + 1)
}
