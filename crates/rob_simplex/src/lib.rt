//! The exact simplex method on condensed rows: a best point with dual values, an improving ray, or weights that show
//! that no point is feasible.
#![tactic(auto)]

mod begun;
mod columns;
mod copies;
mod cost;
mod dictionary;
mod edits;
mod entering;
mod entries;
mod explicit_phase;
mod first_phase;
mod free_slacks;
mod judging;
mod known_rows;
mod least_row;
mod path;
mod pivot;
mod ratio_test;
mod replacement;
mod row_edits;
mod second_phase;
mod solution;
mod starting_places;
mod starting_rows;
mod state;
mod weights;
mod work;

pub use rob_number::LpKind;
pub use state::{Cause, LpStop};
pub use work::Work;
