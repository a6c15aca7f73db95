//! Piecewise policies on cells of an uncertainty set, and the split model whose plans they are. It has no code: the
//! definitions stand in specs/, and each module here states laws of theirs, as clauses of functions that do nothing.
#![tactic(auto)]

pub mod policies;
pub mod scenarios;
