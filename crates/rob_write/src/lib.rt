//! The canonical text of a model.
#![tactic(auto)]

mod expression_writer;
mod over;
mod page;
mod set_writer;
mod writer;
mod written;

pub use writer::write_model;
