//! The robust counterpart of a model as one linear program, and what the endings of the simplex on it prove. It has
//! no code: its definitions are in specs/, and each module states laws of theirs, as clauses of a function that
//! does nothing.
#![tactic(auto)]

pub mod basic_pairs;
pub mod certificates;
pub mod completeness;
pub mod cutting_planes;
pub mod programs;
pub mod uncertainty_set;
