//! Items of a list: a name, and the ranges of the item.

use crate::inner::Inner;
use rob_number::List;
use rob_ranges::Form;

/// A name's word, and its indices.
#[derive(Drop)]
pub struct Named {
    pub word: usize,
    pub indices: List<Form>,
}

/// An item of a list, which is an entry in each setting of its ranges.
#[derive(Drop)]
pub struct Item {
    pub name: Named,
    /// The tokens of an entry behind its name.
    pub behind: u32,
    pub ranges: Inner,
}
