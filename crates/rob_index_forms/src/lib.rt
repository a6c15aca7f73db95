//! Indices, and the ends of ranges, as forms over the values around them.
#![tactic(auto)]

mod index;

pub use index::{ends_of, index_form};
