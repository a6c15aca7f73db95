//! Spots of wide numbers, as they are printed.

ghost use Rattle.std.specs.Prelude.{◌≡◌, ◌<◌, ◌++◌, codes, length, IfOk, OnOk};
ghost use Rattle.rob_meaning.specs.Forms.{forms};
ghost use Rattle.rob_model.specs.Valid.{IsValid};
ghost use Rattle.rob_model.specs.View.{robust};
ghost use Rattle.rob_report.specs.Places.{IsProgramOf, IsSpotOf, IsWhereOf};
ghost use Rattle.rob_report.specs.Spots.{basis_words, dictionary_words, form_name, program_words, spot_words, too_wide_line, where_words};

use crate::names::{put_form, put_set_row, put_statement};
use crate::places::put_place;
use rob_cert::spelling::put_count;
use rob_model::{Model, Program, Spot, Where};
use rob_number::{Exact, Memory, Text};
use std::alloc::Global;

/// The line for a number that is wide: `too wide ` and its spot.
pub fn spot_text<N: Exact>(alloc: Global, model: &Model<N>, spot: &Spot) -> Result<Text, Memory>
    requires valid { IsValid N.value model.now }
    requires named { IsSpotOf (robust N.value model.now) spot.now }
    ensures text { IfOk result (λ text. text ≡ too_wide_line (robust N.value model.now) spot.now) }
{
    let mut text = Text::new(alloc);
    text.push(b"too wide ")?;
    put_spot(model, spot, &mut text)?;
    text.push(b"\n")?;
    Ok(text)
}

/// Appends a spot.
fn put_spot<N: Exact>(model: &Model<N>, spot: &Spot, out: &mut Text) -> Result<(), Memory>
    requires valid { IsValid N.value model.now }
    requires named { IsSpotOf (robust N.value model.now) spot.now }
    ensures appended { OnOk result (out.new
        ≡ out.old ++ spot_words (robust N.value model.now) spot.now) }
{
    match spot {
        Spot::Coefficient(place) => {
            out.push(b"coefficient ")?;
            put_where(model, *place, out)
        }
        Spot::Clearing(place) => {
            out.push(b"clearing ")?;
            put_where(model, *place, out)
        }
        Spot::Dictionary(program, basis, position) => {
            out.push(b"dictionary ")?;
            put_dictionary(model, *program, basis.items(), *position, out)
        }
        Spot::Sum(place, term) => {
            out.push(b"sum ")?;
            put_where(model, *place, out)?;
            out.push(b" ")?;
            put_count(out, *term as u64)
        }
        Spot::Check(place) => {
            out.push(b"check ")?;
            put_place(model, *place, out)
        }
        Spot::Replay(record) => {
            out.push(b"replay ")?;
            put_count(out, *record as u64)
        }
    }
}

/// Appends what a coefficient, a clearing or a sum belongs to.
fn put_where<N: Exact>(model: &Model<N>, place: Where, out: &mut Text) -> Result<(), Memory>
    requires valid { IsValid N.value model.now }
    requires named { IsWhereOf (robust N.value model.now) place }
    ensures appended { OnOk result (out.new
        ≡ out.old ++ where_words (robust N.value model.now) place) }
{
    match place {
        Where::Form(form) => put_form(model, form, out),
        Where::SetLine(line) => put_statement(model, line, out),
        Where::SetRow(row) => put_set_row(model, row, out),
        Where::Plan => out.push(b"plan"),
        Where::Move => out.push(b"move"),
        Where::Cut(form) => {
            out.push(b"cut ")?;
            put_form(model, form, out)
        }
        Where::Cost(form) => {
            out.push(b"cost ")?;
            put_form(model, form, out)
        }
    }
}

/// Appends a dictionary: its program, the position of a row, and the basic columns.
fn put_dictionary<N: Exact>(
    model: &Model<N>,
    program: Program,
    basis: &[u32],
    position: u32,
    out: &mut Text,
) -> Result<(), Memory>
    requires valid { IsValid N.value model.now }
    requires named { IsProgramOf (robust N.value model.now) program }
    ensures appended { OnOk result (out.new
        ≡ out.old ++ dictionary_words (robust N.value model.now) program basis.now position) }
{
    put_program(model, program, out)?;
    out.push(b" at ")?;
    put_count(out, position as u64)?;
    out.push(b" basis")?;
    put_basis(basis, out)
}

/// Appends the basic columns, each behind a space.
pub(crate) fn put_basis(basis: &[u32], out: &mut Text) -> Result<(), Memory>
    ensures appended { OnOk result (out.new ≡ out.old ++ basis_words basis.now) }
{
    for column in basis {
        out.push(b" ")?;
        put_count(out, *column as u64)?;
    }
    Ok(())
}

/// Appends the name of a program.
fn put_program<N: Exact>(model: &Model<N>, program: Program, out: &mut Text) -> Result<(), Memory>
    requires valid { IsValid N.value model.now }
    requires named { IsProgramOf (robust N.value model.now) program }
    ensures appended { OnOk result (out.new
        ≡ out.old ++ program_words (robust N.value model.now) program) }
{
    match program {
        Program::Set => out.push(b"set"),
        Program::Reform => out.push(b"reform"),
        Program::Master => out.push(b"master"),
        Program::SearchPlan(form) => put_search(model, form, b" plan", out),
        Program::SearchMove(form) => put_search(model, form, b" move", out),
    }
}

/// Appends the search for the worst scenario of a form, and at what.
fn put_search<N: Exact>(
    model: &Model<N>,
    form: u32,
    at: &[u8],
    out: &mut Text,
) -> Result<(), Memory>
    requires valid { IsValid N.value model.now }
    requires inside { form < length (forms (robust N.value model.now)) }
    ensures appended { OnOk result (out.new
        ≡ out.old ++ (codes "search " ++ (form_name (robust N.value model.now) form ++ at.now))) }
{
    out.push(b"search ")?;
    put_form(model, form, out)?;
    out.push(at)
}
