//! A dictionary: the rows of a basis, condensed, each with a number that bounds its entries.
//!
//! A row has n + 4 numbers: n + 2 entries of the columns that are not basic, one of which is a spare column of zeros,
//! then the right side, and last its own entry. `places` tells where a column stands, or n + 3 and its position where
//! it is basic; `near` tells the column at each place. The limit of the rows is the greatest that their entries allow.

use rob_entries::{Cells, Entry, PivotRow};
use std::marker::Model;

/// The rows of a basis up to positive factors, with their maps and bounds, and the memory that pivots work in.
pub struct Dictionary<E: Entry> {
    pub columns: usize,
    pub basis: Vec<usize>,
    pub places: Vec<usize>,
    pub near: Vec<usize>,
    pub rows: Cells<E>,
    pub bounds: Vec<u128>,
    pub pivot_row: PivotRow<E>,
}

impl<E: Entry> Drop for Dictionary<E> {
    /// Lets go of it in one call. A derived drop would stand in each function that does.
    fn drop(self) {
        let Dictionary {
            columns: _columns,
            basis: _basis,
            places: _places,
            near: _near,
            rows: _rows,
            bounds: _bounds,
            pivot_row: _pivot_row,
        } = self;
    }
}

impl<E: Entry> Model for Dictionary<E> {
    ghost use Rattle.std.specs.Prelude.{length};
    ghost use Rattle.rob_simplex.specs.Dictionaries.{Table, IsSound};

    ghost Value = { Table };

    ghost view = { λ d. record {
      limit = E.top;
      columns = d.columns;
      basis = d.basis.items;
      places = d.places.items;
      table = d.rows;
    } };

    ghost invariant = { λ d. IsSound E.top d.columns d.basis.items d.places.items d.near.items d.rows d.bounds.items
        (length d.pivot_row.entries) };
}
