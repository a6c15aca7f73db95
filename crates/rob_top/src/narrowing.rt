//! The answer of `narrow`.

ghost use Rattle.std.specs.Prelude.{◌≡◌, IfOk};
ghost use Rattle.rob_dualize.specs.Wholes.{IsFew, counterpart_of};
ghost use Rattle.rob_elab.specs.Elaborated.{AreElaborated};
ghost use Rattle.rob_elab.specs.Forms.{IsForms};
ghost use Rattle.rob_meaning.specs.RobustModel.{RobustModel};
ghost use Rattle.rob_sets.specs.SetForm.{IsSetForm};
ghost use Rattle.rob_top.specs.Narrowed.{RepliesNarrow, bounds_text};

use rob_commands::Ended;
use rob_commands::reply::Reply;
use rob_dualize::bounds::ModelBounds;
use rob_dualize::{Elaborated, model_bounds};
use rob_number::{Exact, Memory, Text};
use rob_report::{put_bound, put_narrow};
use std::alloc::Global;

/// The answer of `narrow`: the bounds of the set's program and of the counterpart, and whether neither is over the
/// limit.
pub fn narrow<N: Exact>(alloc: Global, elaborated: Elaborated) -> Result<Reply, Memory>
    requires model { AreElaborated N.limit elaborated.forms.now elaborated.set.now }
    requires few { IsFew (counterpart_of elaborated.forms.now elaborated.set.now) }
    ensures narrow { IfOk result (λ reply. (m : RobustModel) → IsForms m elaborated.entry.forms.now
        → IsSetForm m elaborated.entry.set.now
        → RepliesNarrow N.limit m reply) }
{
    let bounds = model_bounds::<N>(alloc, elaborated.forms, elaborated.set)?;
    let text = bounds_text(alloc, &bounds)?;
    Ok(Reply {
        ended: Ended::Printed,
        text,
    })
}

/// The lines of the bounds.
fn bounds_text(alloc: Global, bounds: &ModelBounds) -> Result<Text, Memory>
    ensures text { IfOk result (λ text. text ≡ bounds_text bounds.now) }
{
    let set = &bounds.set;
    let counterpart = &bounds.counterpart;
    let narrow = set.bound.is_some() && counterpart.bound.is_some();
    let mut text = Text::new(alloc);
    put_bound(b"set", set.rows, set.greatest, set.bound, &mut text)?;
    put_bound(
        b"reform",
        counterpart.rows,
        counterpart.greatest,
        counterpart.bound,
        &mut text,
    )?;
    put_narrow(narrow, &mut text)?;
    Ok(text)
}
