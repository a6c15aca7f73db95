//! Places of a certificate's conditions, as they are printed.

ghost use Rattle.std.specs.Prelude.{◌≡◌, ◌++◌, suc, IfOk, OnOk};
ghost use Rattle.std.specs.Fmt.{decimal};
ghost use Rattle.rob_model.specs.Valid.{IsValid};
ghost use Rattle.rob_model.specs.View.{robust};
ghost use Rattle.rob_report.specs.Places.{IsPlaceOf, IsSignOf, IsSumOf};
ghost use Rattle.rob_report.specs.Spots.{place_words, rejected_line, sign_words, sum_words};

use crate::names::{put_condition, put_form, put_set_column, put_set_row, put_sum_column};
use itoa::Buffer;
use rob_model::{Model, Place};
use rob_number::{Exact, Memory, Text};
use std::alloc::Global;

/// The line for a certificate that is rejected at a place: `rejected ` and the condition that fails. Items are printed
/// by their numbers from 1.
pub fn place_text<N: Exact>(alloc: Global, model: &Model<N>, place: &Place) -> Result<Text, Memory>
    requires valid { IsValid N.value model.now }
    requires named { IsPlaceOf (robust N.value model.now) place.now }
    ensures text { IfOk result (λ text. text ≡ rejected_line (robust N.value model.now) place.now) }
{
    let mut text = Text::new(alloc);
    text.push(b"rejected ")?;
    put_place(model, *place, &mut text)?;
    text.push(b"\n")?;
    Ok(text)
}

/// Appends a place.
pub fn put_place<N: Exact>(model: &Model<N>, place: Place, out: &mut Text) -> Result<(), Memory>
    requires valid { IsValid N.value model.now }
    requires named { IsPlaceOf (robust N.value model.now) place }
    ensures appended { OnOk result (out.new
        ≡ out.old ++ place_words (robust N.value model.now) place) }
{
    match place {
        Place::Scale => out.push(b"scale"),
        Place::Inside(condition) => {
            out.push(b"inside ")?;
            put_condition(model, condition, out)
        }
        Place::Weight(item) => put_item(b"weight ", item, out),
        Place::Base(item) => put_item(b"base ", item, out),
        Place::Item(item, condition) => {
            put_item(b"item ", item, out)?;
            out.push(b" ")?;
            put_condition(model, condition, out)
        }
        Place::Sum(column) => {
            out.push(b"sum ")?;
            put_sum_column(model, column, out)
        }
        Place::CoverSign(form, set_row) => {
            out.push(b"cover ")?;
            put_sign(model, form, set_row, out)
        }
        Place::Cover(form, column) => {
            out.push(b"cover ")?;
            put_sum(model, form, column, out)
        }
        Place::MoveBound => out.push(b"move tau"),
        Place::HoldSign(form, set_row) => {
            out.push(b"hold ")?;
            put_sign(model, form, set_row, out)
        }
        Place::Hold(form, column) => {
            out.push(b"hold ")?;
            put_sum(model, form, column, out)
        }
    }
}

/// Appends a word and an item's number, which is counted from 0 and printed from 1.
fn put_item(word: &[u8], item: u32, out: &mut Text) -> Result<(), Memory>
    ensures appended { OnOk result (out.new ≡ out.old ++ (word.now ++ decimal (suc item))) }
{
    let mut buffer = Buffer::new();
    out.push(word)?;
    out.push(buffer.format(item as u64 + 1).as_bytes())
}

/// Appends a form, and a set row of its cover.
fn put_sign<N: Exact>(
    model: &Model<N>,
    form: u32,
    set_row: u32,
    out: &mut Text,
) -> Result<(), Memory>
    requires valid { IsValid N.value model.now }
    requires named { IsSignOf (robust N.value model.now) form set_row }
    ensures appended { OnOk result (out.new
        ≡ out.old ++ sign_words (robust N.value model.now) form set_row) }
{
    put_form(model, form, out)?;
    out.push(b" ")?;
    put_set_row(model, set_row, out)
}

/// Appends a form, and the constant or a set column, which is counted from 1.
fn put_sum<N: Exact>(model: &Model<N>, form: u32, column: u32, out: &mut Text) -> Result<(), Memory>
    requires valid { IsValid N.value model.now }
    requires named { IsSumOf (robust N.value model.now) form column }
    ensures appended { OnOk result (out.new
        ≡ out.old ++ sum_words (robust N.value model.now) form column) }
{
    put_form(model, form, out)?;
    if column == 0 {
        return out.push(b" constant");
    }
    out.push(b" at ")?;
    put_set_column(model, column - 1, out)
}
