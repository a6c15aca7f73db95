//! The settings of the ranges around a place: which there are, where they are parted, and which items of a list may
//! have an entry in them.
#![tactic(auto)]

pub mod around;
mod divide;
pub mod inner;
pub mod item;
pub mod laws;
pub mod live;
pub mod room;
mod rounding;
pub mod setting;
pub mod settings;
pub mod spot;
