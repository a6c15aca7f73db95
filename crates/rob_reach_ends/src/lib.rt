//! Every model with a scenario has a status over plans with whole numbers, where the named variables
//! have bounds.
#![tactic(auto)]

pub mod ends;
