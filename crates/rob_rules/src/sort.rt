//! What a name stands for.

/// What a name stands for, with its number among the names of its kind, in order of declaration, from 0.
#[derive(Clone, Copy)]
pub enum Sort {
    Parameter(u32),
    /// A here-and-now variable.
    Decision(u32),
    /// An adaptive variable, and whether it depends on a parameter.
    Policy(u32, bool),
    RowName,
    /// A set, numbered from 1: the default set has no name.
    Set(u32),
}
