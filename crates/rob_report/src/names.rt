//! The names of a model's parts, appended by their numbers.

ghost use Rattle.std.specs.Prelude.{◌≡◌, ◌<◌, ◌≤◌, ◌+◌, ◌++◌, ◌∷◌, codes, length, OnOk};
ghost use Rattle.rob_cert.specs.Spelling.{name_at};
ghost use Rattle.rob_meaning.specs.Forms.{forms};
ghost use Rattle.rob_meaning.specs.Names.{column_names_with_tau, set_column_names, set_condition_names, set_row_names};
ghost use Rattle.rob_meaning.specs.RobustModel.{column_count as column_count_of};
ghost use Rattle.rob_meaning.specs.SetConditions.{set_conditions};
ghost use Rattle.rob_meaning.specs.SetRows.{set_column_count as set_column_count_of, set_rows};
ghost use Rattle.rob_model.specs.Valid.{IsValid};
ghost use Rattle.rob_model.specs.View.{robust};
ghost use Rattle.rob_report.specs.Spots.{form_name, statement_name};

use rob_model::bounds::bound_count;
use rob_model::{
    Model, column_count, put_column_name, put_form_name, put_set_place_name, put_set_row_name,
    set_place_count,
};
use rob_number::{Exact, Memory, Text};

/// Appends the name of a form.
pub fn put_form<N: Exact>(model: &Model<N>, index: u32, out: &mut Text) -> Result<(), Memory>
    requires valid { IsValid N.value model.now }
    requires inside { index < length (forms (robust N.value model.now)) }
    ensures appended { OnOk result (out.new
        ≡ out.old ++ form_name (robust N.value model.now) index) }
{
    put_form_name(model, index, out)
}

/// Appends the name of a set row.
pub fn put_set_row<N: Exact>(model: &Model<N>, index: u32, out: &mut Text) -> Result<(), Memory>
    requires valid { IsValid N.value model.now }
    requires inside { index < length (set_rows (robust N.value model.now)) }
    ensures appended { OnOk result (out.new
        ≡ out.old ++ name_at (set_row_names (robust N.value model.now)) index) }
{
    put_set_row_name(model, index, out)
}

/// Appends the name of what a certificate's items are summed in: 0 is the constant, decision columns count from 1, and
/// the bound stands behind them.
pub fn put_sum_column<N: Exact>(model: &Model<N>, index: u32, out: &mut Text) -> Result<(), Memory>
    requires valid { IsValid N.value model.now }
    requires inside { index ≤ column_count_of (robust N.value model.now) + 1 }
    ensures appended { OnOk result (out.new ≡ out.old
        ++ name_at (codes "constant" ∷ column_names_with_tau (robust N.value model.now)) index) }
{
    if index == 0 {
        out.push(b"constant")
    } else if index <= column_count(model) {
        put_column_name(model, index - 1, out)
    } else {
        out.push(b"tau")
    }
}

/// Appends the name of a set condition.
pub fn put_condition<N: Exact>(model: &Model<N>, index: u32, out: &mut Text) -> Result<(), Memory>
    requires valid { IsValid N.value model.now }
    requires inside { index < length (set_conditions (robust N.value model.now)) }
    ensures appended { OnOk result (out.new
        ≡ out.old ++ name_at (set_condition_names (robust N.value model.now)) index) }
{
    put_set_place_name(model, index, out)
}

/// Appends the name of a statement on the set.
pub fn put_statement<N: Exact>(model: &Model<N>, index: u32, out: &mut Text) -> Result<(), Memory>
    requires valid { IsValid N.value model.now }
    requires inside { index < length model.now.set_lines }
    ensures appended { OnOk result (out.new
        ≡ out.old ++ statement_name (robust N.value model.now) index) }
{
    put_condition(model, bound_count(model.params.items()) + index, out)
}

/// The number of set conditions.
fn condition_count<N: Exact>(model: &Model<N>) -> u32
    requires valid { IsValid N.value model.now }
    ensures count { result ≡ length (set_condition_names (robust N.value model.now)) }
    ensures small { result ≤ 256 }
{
    bound_count(model.params.items()) + model.set_lines.items().len() as u32
}

/// The number of set columns.
pub fn set_column_count<N: Exact>(model: &Model<N>) -> u32
    requires valid { IsValid N.value model.now }
    ensures count { result ≡ length (set_column_names (robust N.value model.now)) }
{
    set_place_count(model) - condition_count(model)
}

/// Appends the name of a set column.
pub fn put_set_column<N: Exact>(model: &Model<N>, index: u32, out: &mut Text) -> Result<(), Memory>
    requires valid { IsValid N.value model.now }
    requires inside { index < set_column_count_of (robust N.value model.now) }
    ensures appended { OnOk result (out.new
        ≡ out.old ++ name_at (set_column_names (robust N.value model.now)) index) }
{
    put_set_place_name(model, condition_count(model) + index, out)
}
