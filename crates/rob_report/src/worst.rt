//! What the search for the worst case of a form tells, as it is printed.

ghost use Rattle.std.specs.Prelude.{◌≡◌, ◌<◌, ◌++◌, length, map, IfOk, OnOk};
ghost use Rattle.rob_meaning.specs.Forms.{forms};
ghost use Rattle.rob_model.specs.Valid.{IsValid};
ghost use Rattle.rob_model.specs.View.{parameter_of, robust};
ghost use Rattle.rob_report.specs.Worst.{along_text, at_line, at_lines, greatest_text, worst_of};

use crate::names::put_form;
use rob_cert::Worst;
use rob_cert::spelling::{put_named, put_number};
use rob_model::{Model, Param};
use rob_number::{Exact, Memory, Text};
use std::alloc::Global;

/// What `worst` tells of a form: `worst FORM SLACK`, where the slack is that of the cleared form, or `along FORM`; then
/// `at PARAM NUM` for each number of the scenario or of the ray that isn't 0. The slack is read in the first case
/// alone.
pub fn worst_text<N: Exact>(
    alloc: Global,
    model: &Model<N>,
    form: u32,
    worst: &Worst<N>,
    slack: N,
) -> Result<Text, Memory>
    requires valid { IsValid N.value model.now }
    requires form_in { form < length (forms (robust N.value model.now)) }
    ensures text { IfOk result (λ text. text
        ≡ worst_of (robust N.value model.now) form N.value worst.now (N.value slack)) }
{
    let mut text = Text::new(alloc);
    put_worst(model, form, worst, slack, &mut text)?;
    Ok(text)
}

/// Appends what the search tells.
fn put_worst<N: Exact>(
    model: &Model<N>,
    form: u32,
    worst: &Worst<N>,
    slack: N,
    out: &mut Text,
) -> Result<(), Memory>
    requires valid { IsValid N.value model.now }
    requires form_in { form < length (forms (robust N.value model.now)) }
    ensures appended { OnOk result (out.new
        ≡ out.old ++ worst_of (robust N.value model.now) form N.value worst.now (N.value slack)) }
{
    match worst {
        Worst::At { scenario, .. } => {
            put_greatest(model, form, scenario.values.items(), slack, out)
        }
        Worst::Along { ray, .. } => put_along(model, form, ray.items(), out),
    }
}

/// Appends the lines of a worst scenario.
fn put_greatest<N: Exact>(
    model: &Model<N>,
    form: u32,
    scenario: &[N],
    slack: N,
    out: &mut Text,
) -> Result<(), Memory>
    requires valid { IsValid N.value model.now }
    requires form_in { form < length (forms (robust N.value model.now)) }
    ensures appended { OnOk result (out.new
        ≡ out.old ++ greatest_text (robust N.value model.now) form (N.value slack)
        (map N.value scenario.now)) }
{
    out.push(b"worst ")?;
    put_form(model, form, out)?;
    out.push(b" ")?;
    put_number(out, slack)?;
    out.push(b"\n")?;
    put_entries(model.params.items(), scenario, out)
}

/// Appends the lines of a ray.
fn put_along<N: Exact>(model: &Model<N>, form: u32, ray: &[N], out: &mut Text) -> Result<(), Memory>
    requires valid { IsValid N.value model.now }
    requires form_in { form < length (forms (robust N.value model.now)) }
    ensures appended { OnOk result (out.new
        ≡ out.old ++ along_text (robust N.value model.now) form (map N.value ray.now)) }
{
    out.push(b"along ")?;
    put_form(model, form, out)?;
    out.push(b"\n")?;
    put_entries(model.params.items(), ray, out)
}

/// Appends the line of each number that isn't 0, with its parameter.
fn put_entries<N: Exact>(params: &[Param<N>], numbers: &[N], out: &mut Text) -> Result<(), Memory>
    ensures appended { OnOk result (out.new
        ≡ out.old ++ at_lines (map N.value numbers.now) (map (parameter_of N.value) params.now)) }
{
    for (number, param) in numbers.iter().zip(params) {
        put_entry(param.name.bytes(), *number, out)?;
    }
    Ok(())
}

/// Appends the line of a number, unless it is 0.
fn put_entry<N: Exact>(name: &[u8], number: N, out: &mut Text) -> Result<(), Memory>
    ensures appended { OnOk result (out.new ≡ out.old ++ at_line (N.value number) name.now) }
{
    if number.sign() == 0 {
        Ok(())
    } else {
        put_named(out, b"at", name, number)
    }
}
