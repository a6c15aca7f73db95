//! The text of a certificate.

ghost use Rattle.std.specs.Prelude.{◌≡◌, ◌+◌, ◌^◌, ◌<◌, ◌≤◌, ◌∷◌, ◌++◌, [], length, map, IfOk, OnOk};
ghost use Rattle.rob_meaning.specs.Certificates.{optimal};
ghost use Rattle.rob_meaning.specs.Places.{Each};
ghost use Rattle.rob_model.specs.Valid.{IsValid};
ghost use Rattle.rob_model.specs.View.{robust};
ghost use Rattle.rob_cert.specs.declared.kind.Vector.TheVariants.{Move};
ghost use Rattle.rob_cert.specs.Lines.{bound_lines, cover_lines, end_line, entry_lines, item_lines, lines_of, status_line};
ghost use Rattle.rob_cert.specs.NamesView.{naming};
ghost use Rattle.rob_cert.specs.Shape.{HasShape};
ghost use Rattle.rob_cert.specs.Spelling.{cert_text, entry_names, HasNames, IsCoverNamed, IsItemNamed, line_text, lines_text, Naming};
ghost use Rattle.rob_cert.specs.View.{certificate_of, cover_of, item_of, status_of};

use crate::certificate::{Cert, Cover, Item, Status};
use crate::kind::{Multipliers, Vector};
use crate::names::{Names, name_in};
use crate::spelling::{put_named, put_numbers, put_pair, put_single, put_words};
use rob_model::Model;
use rob_number::{Exact, Memory, Text};
use std::alloc::Global;

/// The text of a certificate: its lines, each number in lowest terms, and what is 0 in a list left out.
pub fn write_cert<N: Exact>(alloc: Global, model: &Model<N>, cert: &Cert<N>) -> Result<Text, Memory>
    requires valid { IsValid N.value model.now }
    requires shape { HasShape (robust N.value model.now) (certificate_of N.value cert.now) }
    ensures text { IfOk result (λ text. text
        ≡ cert_text (robust N.value model.now) (certificate_of N.value cert.now)) }
{
    let names = Names::of(alloc, model)?;
    let mut text = Text::new(alloc);
    put_cert(&mut text, &names, cert)?;
    Ok(text)
}

/// Appends the line of a status.
fn put_status<N: Exact>(out: &mut Text, cert: &Cert<N>) -> Result<(), Memory>
    ensures appended { (names : Naming) → OnOk result (out.new
        ≡ out.old ++ line_text names (status_line (status_of cert.now.status))) }
{
    put_words(out, b"certificate", cert.status.word())
}

/// Appends the last line.
fn put_end(out: &mut Text) -> Result<(), Memory>
    ensures appended { (names : Naming)
        → OnOk result (out.new ≡ out.old ++ lines_text names (end_line ∷ [])) }
{
    out.push(b"end\n")
}

/// Appends the lines of the value and the scale, where there is a plan.
fn put_bounds<N: Exact>(out: &mut Text, cert: &Cert<N>) -> Result<(), Memory>
    ensures appended { (names : Naming) → OnOk result (out.new ≡ out.old ++ lines_text names
        (bound_lines (status_of cert.now.status) (N.value cert.now.value)
        (N.value cert.now.scale))) }
{
    match cert.status {
        Status::Optimal => put_both(out, cert.value, cert.scale),
        Status::Infeasible => Ok(()),
        Status::Unbounded => put_both(out, cert.value, cert.scale),
    }
}

/// Appends both.
fn put_both<N: Exact>(out: &mut Text, value: N, scale: N) -> Result<(), Memory>
    ensures appended { (names : Naming) → OnOk result (out.new
        ≡ out.old ++ lines_text names (bound_lines optimal (N.value value) (N.value scale))) }
{
    put_single(out, b"value", value)?;
    put_single(out, b"scale", scale)
}

/// Appends the line of an entry of a vector, unless it is 0.
fn put_entry<N: Exact>(
    out: &mut Text,
    vector: Vector,
    names: &Names,
    place: usize,
    number: N,
) -> Result<(), Memory>
    requires inside { place < length (entry_names (naming names.now) vector) }
    ensures appended { OnOk result (out.new
        ≡ out.old ++ lines_text (naming names.now)
        (entry_lines vector place (N.value number ∷ []))) }
{
    if number.sign() == 0 {
        return Ok(());
    }
    put_named(out, vector.word(), names.entry(vector, place), number)
}

/// Appends the lines of a vector's entries that aren't 0, the first standing at `first`.
fn put_entries<N: Exact>(
    out: &mut Text,
    vector: Vector,
    names: &Names,
    first: usize,
    numbers: &[N],
) -> Result<(), Memory>
    requires inside { first + length numbers.now ≤ length (entry_names (naming names.now) vector) }
    requires few { first + length numbers.now < 2 ^ 64 }
    ensures appended { OnOk result (out.new
        ≡ out.old ++ lines_text (naming names.now)
        (entry_lines vector first (map N.value numbers.now))) }
{
    let mut place = first;
    for number in numbers {
        put_entry(out, vector, names, place, *number)?;
        place += 1;
    }
    Ok(())
}

/// Appends the lines of covers.
fn put_covers<N: Exact>(
    out: &mut Text,
    which: Multipliers,
    names: &Names,
    list: &[Cover<N>],
) -> Result<(), Memory>
    requires named { Each (IsCoverNamed (naming names.now)) (map (cover_of N.value) list.now) }
    ensures appended { OnOk result (out.new
        ≡ out.old ++ lines_text (naming names.now)
        (cover_lines which (map (cover_of N.value) list.now))) }
{
    for cover in list {
        put_cover(out, which, names, cover)?;
    }
    Ok(())
}

/// Appends the line of a cover.
fn put_cover<N: Exact>(
    out: &mut Text,
    which: Multipliers,
    names: &Names,
    cover: &Cover<N>,
) -> Result<(), Memory>
    requires named { IsCoverNamed (naming names.now) (cover_of N.value cover.now) }
    ensures appended { OnOk result (out.new
        ≡ out.old ++ lines_text (naming names.now)
        (cover_lines which (cover_of N.value cover.now ∷ []))) }
{
    let form = name_in(names.forms.items(), cover.form as usize);
    let set_row = name_in(names.set_rows.items(), cover.set_row as usize);
    put_pair(out, which.word(), form, set_row, cover.amount)
}

/// Appends the lines of items.
fn put_items<N: Exact>(out: &mut Text, names: &Names, list: &[Item<N>]) -> Result<(), Memory>
    requires named { Each (IsItemNamed (naming names.now)) (map (item_of N.value) list.now) }
    requires few { length names.now.parameters < 2 ^ 32 }
    ensures appended { OnOk result (out.new
        ≡ out.old ++ lines_text (naming names.now) (item_lines (map (item_of N.value) list.now))) }
{
    for item in list {
        put_item(out, names, item)?;
    }
    Ok(())
}

/// Appends the lines of an item.
fn put_item<N: Exact>(out: &mut Text, names: &Names, item: &Item<N>) -> Result<(), Memory>
    requires named { IsItemNamed (naming names.now) (item_of N.value item.now) }
    requires few { length names.now.parameters < 2 ^ 32 }
    ensures appended { OnOk result (out.new
        ≡ out.old ++ lines_text (naming names.now) (item_lines (item_of N.value item.now ∷ []))) }
{
    let form = name_in(names.forms.items(), item.form as usize);
    put_numbers(out, b"item", form, item.weight, item.base)?;
    put_entries(out, Vector::At, names, 0, item.vector.items())
}

/// Appends the lines of a certificate.
fn put_cert<N: Exact>(out: &mut Text, names: &Names, cert: &Cert<N>) -> Result<(), Memory>
    requires named { HasNames (naming names.now) (certificate_of N.value cert.now) }
    ensures appended { OnOk result (out.new
        ≡ out.old ++ lines_text (naming names.now) (lines_of (certificate_of N.value cert.now))) }
{
    put_status(out, cert)?;
    put_bounds(out, cert)?;
    put_entries(out, Vector::Inside, names, 0, cert.inside.values.items())?;
    put_entries(out, Vector::Plan, names, 0, cert.plan.items())?;
    put_move(out, names, cert.step.items(), cert.step_bound)?;
    put_covers(out, Multipliers::Covers, names, cert.covers.items())?;
    put_covers(out, Multipliers::Holds, names, cert.holds.items())?;
    put_items(out, names, cert.items.items())?;
    put_end(out)
}

/// Appends the lines of a direction with its bound.
fn put_move<N: Exact>(out: &mut Text, names: &Names, step: &[N], bound: N) -> Result<(), Memory>
    requires inside { length step.now ≤ length names.now.columns }
    requires few { length names.now.columns < 2 ^ 32 }
    ensures appended { OnOk result (out.new ≡ out.old
        ++ lines_text (naming names.now)
        (entry_lines Move 0 (map N.value step.now ++ N.value bound ∷ []))) }
{
    put_entries(out, Vector::Move, names, 0, step)?;
    put_entry(out, Vector::Move, names, step.len(), bound)
}
