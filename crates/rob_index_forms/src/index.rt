//! Indices and ranges as forms over the values of the ranges around them. Names and values begin with the innermost.

ghost use Rattle.std.specs.Prelude.{◌≡◌, map, IfOk, OnOk};
ghost use Rattle.rob_index.specs.Forms.{plus_times};
ghost use Rattle.rob_index.specs.Fast as fast;
ghost use Rattle.rob_syntax.specs.Seen.{seen_atom, seen_step, seen_index, seen_range};

use rob_number::Memory;
use rob_ranges::{Ends, Form};
use rob_syntax::syntax::{Atom, Index, Range, Step};
use std::alloc::Global;

/// The ends of a range.
pub fn ends_of(alloc: Global, names: &[usize], range: &Range) -> Result<Ends, Memory>
    ensures ends { IfOk result (λ ends. ends ≡ fast.ends_of names.now (seen_range range.now)) }
{
    let from = index_form(alloc, names, &range.from)?;
    let upto = index_form(alloc, names, &range.upto)?;
    Ok(Ends::new(from, upto))
}

/// An index.
pub fn index_form(alloc: Global, names: &[usize], index: &Index) -> Result<Form, Memory>
    ensures form { IfOk result (λ form. form ≡ fast.index_form names.now (seen_index index.now)) }
{
    let mut form = steps_form(alloc, names, index.more.items())?;
    add_atom(&mut form, alloc, names, false, index.first)?;
    Ok(form)
}

/// The sum of the steps, from the last to the first.
fn steps_form(alloc: Global, names: &[usize], steps: &[Step]) -> Result<Form, Memory>
    ensures form { IfOk result (λ form. form
        ≡ fast.steps_form names.now (map seen_step steps.now)) }
{
    let mut form = Form::nothing(alloc);
    let mut k = steps.len();
    'back: while k > 0 {
        k -= 1;
        add_atom(&mut form, alloc, names, steps[k].minus, steps[k].atom)?;
    }
    Ok(form)
}

/// Adds digits, or the value of the range that has a name, or their opposite.
fn add_atom(
    form: &mut Form,
    alloc: Global,
    names: &[usize],
    minus: bool,
    atom: Atom,
) -> Result<(), Memory>
    ensures sum { OnOk result
        (form.new ≡ plus_times form.old (fast.sign_factor minus) (fast.atom_form names.now (seen_atom atom))) }
{
    match atom {
        Atom::Digits(digits) => form.add_number(alloc, minus, digits),
        Atom::Bound(name) => form.add_name(alloc, names, minus, name),
    }
}
