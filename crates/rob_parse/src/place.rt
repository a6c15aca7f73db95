//! The set that a line answers to.

ghost use Rattle.std.specs.Prelude.{◌≡◌};
ghost use Rattle.rob_parse.specs.Models as spec;

use rob_rules::{Sort, sort_at};

/// The set that a line answers to, in a text with so many written parameters.
#[derive(Clone, Copy)]
pub struct Place {
    pub count: u32,
    /// The set's number; 0 is the default set.
    pub set: u32,
}

/// The number of the set that a line is over; without `over` it is the default set.
pub fn set_at(sorts: &[Option<Sort>], over: Option<usize>) -> u32
    ensures set { result ≡ spec.set_at sorts.now over }
{
    match over {
        None => 0,
        Some(name) => set_number(sort_at(sorts, name)),
    }
}

/// The number of a set; nothing else stands where one is asked for.
fn set_number(sort: Option<Sort>) -> u32
    ensures set { result ≡ spec.set_number sort }
{
    match sort {
        Some(Sort::Set(set)) => set,
        _ => 0,
    }
}
