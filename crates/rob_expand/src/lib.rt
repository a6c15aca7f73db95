//! What a statement with indices, ranges and sums stands for: whether that fits, and the plain statements.
#![tactic(auto)]

mod count;
mod expansion;
pub mod finding;
mod fits;
mod grow;
pub mod inmost;
mod instance;
pub mod laws;
pub mod line;
pub mod lines;
mod make;
pub mod name;
mod place;
pub mod placed;
mod scope;
mod tokens;

pub use expansion::expand;
pub use fits::has_room;
pub use name::Refusal;
