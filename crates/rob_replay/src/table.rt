//! The table of a scenario file.

use rob_number::List;

/// What a plan gives in one joint scenario. Where that is outside there are no values.
#[derive(Debug)]
pub struct TableLine<N> {
    /// The number of its record, from 1 for the header.
    pub number: u32,
    /// Whether the scenario is admitted.
    pub inside: bool,
    /// The values of the adaptive variables in the default set, in order.
    pub adaptives: List<N>,
    /// 0 where the scenario is outside.
    pub objective: N,
    /// The slacks of the rows, and then those of the declared bounds of the adaptive variables, lower before upper.
    pub slacks: List<N>,
}

impl<N: Drop> Drop for TableLine<N> {
    /// Lets go of it in one call. A derived drop would stand in each function that does.
    fn drop(self) {
        let TableLine {
            number: _number,
            inside: _inside,
            adaptives: _adaptives,
            objective: _objective,
            slacks: _slacks,
        } = self;
    }
}

/// A line for each record behind the header.
#[derive(Debug, Drop)]
pub struct Table<N> {
    pub lines: List<TableLine<N>>,
}
