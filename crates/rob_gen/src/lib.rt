//! A valid model from a number, for a first example of any size and for tests.
#![tactic(auto)]

mod declared;
mod expressions;
mod generator;
mod laws;
mod needs;
mod numbers;

pub use generator::generate;
pub use laws::generated_laws;
