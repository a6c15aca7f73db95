//! What stands inside sums over ranges that have one value each: such a sum is the expression inside it.

ghost use Rattle.std.specs.Prelude.{◌≤◌, IfOk};
ghost use Rattle.rob_expand.specs.declared.placed.Placed.{size-Placed};
ghost use Rattle.rob_expand.specs.Inmost.{IsInmost};

use crate::placed::Placed;
use rob_number::Memory;
use rob_ranges::Values;
use std::alloc::Global;

/// The expression inside the sums of one value with which an expression begins. Their values are put in front of those
/// around it.
pub fn inmost<'a>(
    alloc: Global,
    placed: &'a Placed,
    values: &mut Values,
) -> Result<&'a Placed, Memory>
    ensures inmost { IfOk result (λ last. IsInmost placed.now values.old last.now values.new) }
    ensures no_deeper { IfOk result (λ last. size-Placed last.now ≤ size-Placed placed.now) }
{
    match placed {
        Placed::Number(_) | Placed::Name(_) | Placed::Sum(_) | Placed::Product(_) => Ok(placed),
        Placed::Over(ends, inner) => {
            if values.enter(alloc, ends)? {
                inmost(alloc, inner, values)
            } else {
                Ok(placed)
            }
        }
    }
}
