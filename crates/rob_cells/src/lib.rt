//! Piecewise policies: the split model of a model and its cuts, in which each cell has a policy of its own.
#![tactic(auto)]

mod cell;
mod copies;
mod cut;
mod cutting;
mod error;
mod expression;
mod lines;
mod names;
mod rows;
mod rules;
mod size;
mod split;

pub use cut::Cut;
pub use cutting::cut_model;
pub use error::CellsErr;
pub use split::cell_count;
