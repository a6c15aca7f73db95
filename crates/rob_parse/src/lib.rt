//! The model that a text reads as: its parts from the statements of the text, each taken in its set.
#![tactic(auto)]

mod fraction;
pub mod laws;
mod model;
mod parts;
mod place;
mod tree;

pub use model::read_model;
