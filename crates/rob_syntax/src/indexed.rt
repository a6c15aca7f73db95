//! Lines of either version: indices, ranges, sums and statements with them, read by rob_index' grammar.

mod bounds;
mod budget;
mod expr;
mod few;
mod front;
mod index;
mod limits;
mod line;
mod number;
mod plain;
mod policy;
mod range;
mod statement;

pub use plain::is_plain;
pub use statement::read_statement;
