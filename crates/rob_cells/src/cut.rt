//! Cuts of an uncertainty set.

/// A cut: a parameter, and the number at which it is cut.
#[derive(Clone, Copy, Debug)]
pub struct Cut<N> {
    /// The parameter's number, from 0.
    pub param: u32,
    pub at: N,
}
