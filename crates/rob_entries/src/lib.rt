//! Rows of whole numbers of any type: what rows need of their entries, rows one behind another, and a row that clears
//! others of one entry.
#![tactic(auto)]

mod cells;
mod clearing;
mod entry;
mod long;
mod rows;
mod scans;
mod short;
mod updates;

pub use cells::Cells;
pub use clearing::{Cell, PivotRow};
pub use entry::Entry;
