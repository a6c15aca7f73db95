//! The tokens of a model text.
#![tactic(auto)]

mod error;
pub mod laws;
mod offence;
mod piece;
mod place;
mod reader;
mod token;
mod weights;

pub use error::LexErr;
pub use offence::{MOST_TOKENS, Offence};
pub use reader::tokens;
pub use token::{Kind, Token};
