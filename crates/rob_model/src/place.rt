//! The places at which a computation meets a number that is wide, and the conditions of a certificate.

use rob_number::List;

/// What a coefficient, or the clearing of fractions, belongs to. Numbers count from 0 in the order of forms, of set
/// statements, or of set rows.
#[derive(Clone, Copy, Debug, PartialEq, Eq)]
pub enum Where {
    Form(u32),
    SetLine(u32),
    SetRow(u32),
    /// The master's plan with its bound.
    Plan,
    /// The master's improving direction.
    Move,
    /// The worst scenario or ray of that form.
    Cut(u32),
    /// The costs of the search for the worst scenario of that form.
    Cost(u32),
}

/// A linear program.
#[derive(Clone, Copy, Debug, PartialEq, Eq)]
pub enum Program {
    /// The lifted set alone.
    Set,
    /// The robust counterpart by duality.
    Reform,
    /// The master problem over the cuts so far.
    Master,
    /// The search for the worst scenario of that form at the plan.
    SearchPlan(u32),
    /// The search for the worst scenario of that form along the direction.
    SearchMove(u32),
}

/// A condition of a certificate. Items, set conditions, forms and set rows count from 0 in their orders. Of columns, 0
/// is the constant, and the others count from 1.
#[derive(Clone, Copy, Debug, PartialEq, Eq)]
pub enum Place {
    /// The scale is above 0.
    Scale,
    /// A set condition at the scenario `inside`.
    Inside(u32),
    /// An item's weight is above 0.
    Weight(u32),
    /// An item's base is at least 0.
    Base(u32),
    /// An item, and a set condition at its vector.
    Item(u32, u32),
    /// The sum of the items in a column: the constant, a decision column or, as the last, the bound.
    Sum(u32),
    /// A form, and a set row whose multiplier is at least 0.
    CoverSign(u32, u32),
    /// A form, and the sum of its set rows in a column: the constant or a set column.
    Cover(u32, u32),
    /// The bound of the direction improves.
    MoveBound,
    /// The same two for the direction.
    HoldSign(u32, u32),
    Hold(u32, u32),
}

/// Where a number is wide.
#[derive(Debug, Drop)]
pub enum Spot {
    /// A coefficient of a part of an expression.
    Coefficient(Where),
    /// A least common denominator, or a number times it.
    Clearing(Where),
    /// A row of a dictionary: the program, its basis, and the row's position.
    Dictionary(Program, List<u32>, u32),
    /// A prefix of a sum: its place, and the term.
    Sum(Where, u32),
    /// A condition of the certificate that is checked.
    Check(Place),
    /// A record of the scenario file, by its line.
    Replay(u32),
}
