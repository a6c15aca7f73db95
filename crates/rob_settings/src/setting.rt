//! Settings: the values of the ranges around a place, the innermost first.

ghost use Rattle.std.specs.Prelude.{◌≡◌, ◌∷◌, IfOk};

use rob_number::{List, Memory};
use rob_ranges::Whole;
use rob_ranges::form::copies;
use rob_ranges::reach::in_front;
use std::alloc::Global;

/// The values with one more in front: that of a range inside the others.
pub fn with_value(alloc: Global, value: &Whole, values: &[Whole]) -> Result<List<Whole>, Memory>
    ensures values { IfOk result (λ inside. inside ≡ value.now ∷ values.now) }
{
    in_front(alloc, value, values)
}

/// The same values.
pub fn copied(alloc: Global, values: &[Whole]) -> Result<List<Whole>, Memory>
    ensures values { IfOk result (λ copied. copied ≡ values.now) }
{
    let copied = copies(alloc, values)?;
    Ok(List::from(copied))
}
