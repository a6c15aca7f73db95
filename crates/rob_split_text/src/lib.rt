//! The canonical text of a split model is read as that model. Laws alone.
#![tactic(auto)]

pub mod laws;
