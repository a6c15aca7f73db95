//! Tables of rows with their bounds: rows that change places, are cleared of an entry, or lose an amount at one place.
#![tactic(auto)]

pub mod lowering;
pub mod row_moves;
pub mod table;
