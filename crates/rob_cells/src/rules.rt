//! The rules on a model and its cuts.

ghost use Rattle.std.specs.Prelude.{◌≡◌, ◌≤◌, [], IfOk, OnErr, length, map};
ghost use Rattle.rob_cells.specs.Rules.{IsFirstBroken};
ghost use Rattle.rob_cells.specs.View.{cut_of};
ghost use Rattle.rob_model.specs.Valid.{IsValid};
ghost use Rattle.rob_model.specs.View.{robust};

use crate::cut::Cut;
use crate::names::has_good_names;
use crate::size::is_split_within;
use rob_model::Model;
use rob_number::{Exact, Memory};
use std::alloc::Global;

/// The number of the first rule that is broken, or none where all are kept: 51 where the model has a named set, 53
/// where two declared names of the split model are equal or one is over 32 bytes, 54 where the split model passes a
/// limit on the size of models. The split model isn't built for it. The one error is want of memory.
pub fn broken_rule<N: Exact>(
    alloc: Global,
    model: &Model<N>,
    cuts: &[Cut<N>],
) -> Result<Option<u8>, Memory>
    requires valid { IsValid N.value model.now }
    requires few { length cuts.now ≤ 3 }
    ensures rule { IfOk result (IsFirstBroken (robust N.value model.now)
        (map (cut_of N.value) cuts.now)) }
    // Memory is refused only where the model has no named set.
    ensures alone { OnErr result (model.now.sets ≡ []) }
{
    if !model.sets.items().is_empty() {
        return Ok(Some(51));
    }
    if !has_good_names(alloc, model, cuts)? {
        return Ok(Some(53));
    }
    if is_split_within(model, cuts) {
        Ok(None)
    } else {
        Ok(Some(54))
    }
}
