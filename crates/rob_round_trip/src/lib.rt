//! Laws of canonical texts: a model that a text reads as is read again from its canonical text.
#![tactic(auto)]

pub mod laws;
pub mod versions;
