//! The rows of a model, as they are printed.

ghost use Rattle.std.specs.Prelude.{◌≡◌, ◌<◌, ◌++◌, length, IfOk, OnOk};
ghost use Rattle.rob_cert.specs.Spelling.{name_at};
ghost use Rattle.rob_elab.specs.Forms.{IsForms};
ghost use Rattle.rob_meaning.specs.Forms.{forms as forms_of};
ghost use Rattle.rob_meaning.specs.Names.{form_names, set_row_names};
ghost use Rattle.rob_meaning.specs.SetRows.{set_rows};
ghost use Rattle.rob_model.specs.Valid.{IsValid};
ghost use Rattle.rob_model.specs.View.{robust};
ghost use Rattle.rob_sets.specs.SetForm.{IsSetForm};
ghost use Rattle.rob_report.specs.Rows.{form_line, forms_text, rows_of, set_row_line, set_rows_text};

use crate::labels::{Labels, form_labels, set_columns};
use crate::names::{put_form, put_set_row};
use crate::terms::{put_limit, put_matrix, put_terms, put_zero};
use rob_elab::Forms;
use rob_model::{Model, form_count, set_row_count};
use rob_number::{Exact, List, Memory, Text};
use rob_sets::{SetForm, SetRow};
use std::alloc::Global;

/// The rows of a model, a line each: `set NAME:` with the terms ` NUM*COLUMN` of a row of the lifted set and ` <= NUM`,
/// then `form NAME:` with the terms ` NUM*K*J` of a form and ` <= 0`. `K` is `1` or a parameter, `J` is `1`, a decision
/// column or `tau`. Terms of 0 are left out, and ` 0` stands where there is no other.
pub fn rows_text<N: Exact>(
    alloc: Global,
    model: &Model<N>,
    forms: &Forms,
    set: &SetForm,
) -> Result<Text, Memory>
    requires valid { IsValid N.value model.now }
    requires forms { IsForms (robust N.value model.now) forms.now }
    requires set { IsSetForm (robust N.value model.now) set.now }
    ensures text { IfOk result (λ text. text ≡ rows_of (robust N.value model.now)) }
{
    let mut text = Text::new(alloc);
    put_set_rows(alloc, model, set.rows.items(), &mut text)?;
    put_forms(alloc, model, forms.matrices.items(), &mut text)?;
    Ok(text)
}

/// Appends the lines of the set rows.
fn put_set_rows<N: Exact>(
    alloc: Global,
    model: &Model<N>,
    rows: &[SetRow],
    out: &mut Text,
) -> Result<(), Memory>
    requires valid { IsValid N.value model.now }
    requires count { length rows.now ≡ length (set_rows (robust N.value model.now)) }
    ensures appended { OnOk result (out.new
        ≡ out.old ++ set_rows_text (robust N.value model.now) rows.now) }
{
    let columns = set_columns(alloc, model)?;
    for index in 0..set_row_count(model) {
        let row = &rows[index as usize];
        put_row(model, index, columns.items(), row, out)?;
    }
    Ok(())
}

/// Appends the line of a set row.
fn put_row<N: Exact>(
    model: &Model<N>,
    index: u32,
    columns: &[Text],
    row: &SetRow,
    out: &mut Text,
) -> Result<(), Memory>
    requires valid { IsValid N.value model.now }
    requires inside { index < length (set_rows (robust N.value model.now)) }
    ensures appended { OnOk result (out.new ≡ out.old
        ++ set_row_line columns.now
        (name_at (set_row_names (robust N.value model.now)) index) row.now) }
{
    out.push(b"set ")?;
    put_set_row(model, index, out)?;
    out.push(b":")?;
    let before = out.bytes().len();
    put_terms(out, b"", row.g.items(), columns)?;
    put_zero(out, before)?;
    put_limit(out, row.h)
}

/// Appends the lines of the forms.
fn put_forms<N: Exact>(
    alloc: Global,
    model: &Model<N>,
    matrices: &[List<List<i64>>],
    out: &mut Text,
) -> Result<(), Memory>
    requires valid { IsValid N.value model.now }
    requires count { length matrices.now ≡ length (forms_of (robust N.value model.now)) }
    ensures appended { OnOk result (out.new
        ≡ out.old ++ forms_text (robust N.value model.now) matrices.now) }
{
    let labels = form_labels(alloc, model)?;
    for index in 0..form_count(model) {
        let matrix = &matrices[index as usize];
        put_matrix_line(model, index, &labels, matrix.items(), out)?;
    }
    Ok(())
}

/// Appends the line of a form.
fn put_matrix_line<N: Exact>(
    model: &Model<N>,
    index: u32,
    labels: &Labels,
    matrix: &[List<i64>],
    out: &mut Text,
) -> Result<(), Memory>
    requires valid { IsValid N.value model.now }
    requires inside { index < length (forms_of (robust N.value model.now)) }
    ensures appended { OnOk result (out.new
        ≡ out.old ++ form_line labels.now.fronts labels.now.columns
        (name_at (form_names (robust N.value model.now)) index) matrix.now) }
{
    out.push(b"form ")?;
    put_form(model, index, out)?;
    out.push(b":")?;
    let before = out.bytes().len();
    put_matrix(out, labels.fronts.items(), labels.columns.items(), matrix)?;
    put_zero(out, before)?;
    put_limit(out, 0)
}
