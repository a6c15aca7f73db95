//! Weights that show an empty set, as they are printed.

ghost use Rattle.std.specs.Prelude.{◌≡◌, ◌<◌, ◌++◌, length, IfOk, OnOk};
ghost use Rattle.rob_cert.specs.Spelling.{name_at};
ghost use Rattle.rob_meaning.specs.Names.{set_row_names};
ghost use Rattle.rob_meaning.specs.SetRows.{set_rows};
ghost use Rattle.rob_model.specs.Valid.{IsValid};
ghost use Rattle.rob_model.specs.View.{robust};
ghost use Rattle.rob_report.specs.Spots.{empty_set_lines, weight_line, weight_lines};

use crate::names::put_set_row;
use itoa::Buffer;
use rob_model::{Model, set_row_count};
use rob_number::{Exact, Memory, Text};
use std::alloc::Global;

/// The lines for a set that admits no scenario: `empty set`, and `SETROW WEIGHT` for each weight that isn't 0.
/// `weights` has one for each set row. (Farkas's lemma.)
pub fn empty_set_text<N: Exact>(
    alloc: Global,
    model: &Model<N>,
    weights: &[i64],
) -> Result<Text, Memory>
    requires valid { IsValid N.value model.now }
    requires count { length weights.now ≡ length (set_rows (robust N.value model.now)) }
    ensures text { IfOk result (λ text. text
        ≡ empty_set_lines (robust N.value model.now) weights.now) }
{
    let mut text = Text::new(alloc);
    text.push(b"empty set\n")?;
    put_weights(model, weights, &mut text)?;
    Ok(text)
}

/// Appends the lines of the weights.
fn put_weights<N: Exact>(model: &Model<N>, weights: &[i64], out: &mut Text) -> Result<(), Memory>
    requires valid { IsValid N.value model.now }
    requires count { length weights.now ≡ length (set_rows (robust N.value model.now)) }
    ensures appended { OnOk result (out.new
        ≡ out.old ++ weight_lines (robust N.value model.now) weights.now) }
{
    for index in 0..set_row_count(model) {
        put_weight(model, index, weights[index as usize], out)?;
    }
    Ok(())
}

/// Appends the line of a weight, unless it is 0.
fn put_weight<N: Exact>(
    model: &Model<N>,
    index: u32,
    weight: i64,
    out: &mut Text,
) -> Result<(), Memory>
    requires valid { IsValid N.value model.now }
    requires inside { index < length (set_rows (robust N.value model.now)) }
    ensures appended { OnOk result (out.new
        ≡ out.old ++ weight_line
        (name_at (set_row_names (robust N.value model.now)) index) weight) }
{
    if weight == 0 {
        return Ok(());
    }
    let mut buffer = Buffer::new();
    put_set_row(model, index, out)?;
    out.push(b" ")?;
    out.push(buffer.format(weight).as_bytes())?;
    out.push(b"\n")
}
