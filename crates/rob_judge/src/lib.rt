//! Whether a range of a statement is too long, or an index out of bounds, in some setting of its ranges.
#![tactic(auto)]

mod judging;

pub use judging::{Judged, judge};
