//! The names of the ranges around a place, the innermost first.

ghost use Rattle.std.specs.Prelude.{◌≡◌, ◌∷◌, ◌++◌, IfOk, OnOk};

use rob_number::{List, Memory};
use std::alloc::Global;

/// The names with one more in front: that of a range inside the others.
pub fn with_name(alloc: Global, name: usize, names: &[usize]) -> Result<List<usize>, Memory>
    ensures names { IfOk result (λ inside. inside ≡ name ∷ names.now) }
{
    let mut inside = List::new(alloc);
    inside.push(name)?;
    append_names(&mut inside, names)?;
    Ok(inside)
}

/// The same names.
pub fn copied(alloc: Global, names: &[usize]) -> Result<List<usize>, Memory>
    ensures names { IfOk result (λ copied. copied ≡ names.now) }
{
    let copied = Vec::from_slice(alloc, names)?;
    Ok(List::from(copied))
}

/// Appends names.
fn append_names(list: &mut List<usize>, names: &[usize]) -> Result<(), Memory>
    ensures appended { OnOk result (list.new ≡ list.old ++ names.now) }
{
    for name in names {
        list.push(*name)?;
    }
    Ok(())
}
