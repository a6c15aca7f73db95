//! A dictionary made like another one.

ghost use Rattle.std.specs.Prelude.{◌≡◌, ◌<◌, ◌^◌, IfOk};
ghost use Rattle.rob_simplex.specs.Dictionaries.{positions, with_limit};

use crate::dictionary::Dictionary;
use rob_entries::{Cells, Entry, PivotRow};
use rob_number::Memory;
use std::alloc::Global;

impl<E: Entry> Dictionary<E> {
    /// A dictionary with the columns, the rows and the bounds of the other one, whose rows have up to 62 bits, and with
    /// all memory that solving needs.
    pub fn deepened<F: Entry>(alloc: Global, other: &Dictionary<F>) -> Result<Dictionary<E>, Memory>
        requires short { F.top < 2 ^ 62 }
        ensures same { IfOk result (λ dictionary. dictionary ≡ with_limit E.top other.now) }
    {
        let basis = Vec::from_slice(alloc, other.basis.as_slice())?;
        let places = Vec::from_slice(alloc, other.places.as_slice())?;
        let near = Vec::from_slice(alloc, other.near.as_slice())?;
        let bounds = Vec::from_slice(alloc, other.bounds.as_slice())?;
        let rows = Cells::deepened(alloc, &other.rows)?;
        let pivot_row = PivotRow::new(alloc, other.columns + 4)?;
        Ok(Dictionary {
            columns: other.columns,
            basis,
            places,
            near,
            rows,
            bounds,
            pivot_row,
        })
    }

    /// Copies the other dictionary, which is one of the same size.
    pub fn copy_from(&mut self, other: &Dictionary<E>)
        requires columns { self.old.columns ≡ other.now.columns }
        requires positions { positions self.old ≡ positions other.now }
        ensures same { self.new ≡ other.now }
    {
        self.basis
            .as_mut_slice()
            .copy_from_slice(other.basis.as_slice());
        self.places
            .as_mut_slice()
            .copy_from_slice(other.places.as_slice());
        self.near
            .as_mut_slice()
            .copy_from_slice(other.near.as_slice());
        self.rows.copy_from(&other.rows);
        self.bounds
            .as_mut_slice()
            .copy_from_slice(other.bounds.as_slice());
    }
}
