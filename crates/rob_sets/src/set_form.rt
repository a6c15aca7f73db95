//! The uncertainty set in whole numbers.

use rob_number::List;

/// A row of the lifted set: the sum of `g` times the set columns is at most `h`.
#[derive(Debug, Drop)]
pub struct SetRow {
    /// A number for each set column: the parameters in order, then a column `t` for each member of each budget.
    pub g: List<i64>,
    pub h: i64,
}

/// The lifted set: a scenario is in the set exactly where some numbers in the columns `t` make all rows hold.
/// (Bertsimas and Sim, The Price of Robustness.)
#[derive(Debug)]
pub struct SetForm {
    /// The number of set columns.
    pub columns: u32,
    /// The rows in order: the declared bounds of the parameters, then the statements.
    pub rows: List<SetRow>,
}

impl Drop for SetForm {
    /// Lets go of it in one call. A derived drop would stand in each function that does.
    fn drop(self) {
        let SetForm {
            columns: _columns,
            rows: _rows,
        } = self;
    }
}
