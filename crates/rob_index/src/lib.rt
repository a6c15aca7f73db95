//! Model text of either version: indices, ranges and sums, what they stand for, and the rules that are theirs. It has
//! no code: the definitions stand in specs/, and each module here states laws of theirs, as clauses of functions that
//! do nothing.
#![tactic(auto)]

pub mod expansion;
pub mod grammar;
pub mod judging;
pub mod limits;
pub mod naming;
pub mod reading;
pub mod spending;
