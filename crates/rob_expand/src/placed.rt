//! Expressions whose indices and ranges are forms over the values of the ranges around them: an index is made a form
//! once, for its place, and a setting evaluates it.

use rob_number::List;
use rob_ranges::Ends;
use rob_settings::item::Named;
use rob_syntax::syntax::Numeral;

/// A signed part of a sum.
#[cycle(placed)]
#[derive(Drop)]
pub struct Part {
    pub minus: bool,
    pub inner: Placed,
}

/// An expression's tree.
#[cycle(placed)]
#[derive(Drop)]
pub enum Placed {
    Number(Numeral),
    Name(Named),
    Sum(List<Part>),
    Product(List<Placed>),
    /// A sum over the values of a range.
    Over(Ends, Box<Placed>),
}
