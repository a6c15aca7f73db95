//! What robust linear models, their answers and certificates mean, over fractions of any size.
//!
//! It has no code: the definitions stand in specs/, and each module here states laws of theirs, as
//! clauses of functions that do nothing.
#![tactic(auto)]

pub mod certificates;
pub mod forms;
pub mod names;
pub mod status;
pub mod uncertainty_set;
