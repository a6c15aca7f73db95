//! What the parser makes of a line: names are numbers of words, and numbers are as they are written. A statement with
//! indices, ranges and sums stands for a list of plain ones.

use rob_number::List;

/// A number as it is written: digits, and the digits behind `/`.
#[derive(Clone, Copy)]
pub struct Numeral {
    pub numerator: u64,
    pub divisor: Option<u64>,
}

/// A signed part of a sum.
#[cycle(syntax)]
#[derive(Drop)]
pub struct Summand {
    pub minus: bool,
    pub inner: Syntax,
}

/// An expression's tree. A sum has two parts or more, or one that is subtracted; a product has two factors or more.
#[cycle(syntax)]
#[derive(Drop)]
pub enum Syntax {
    Number(Numeral),
    /// The number of a word.
    Name(usize),
    Sum(List<Summand>),
    Product(List<Syntax>),
}

/// A number with an optional `-`.
#[derive(Clone, Copy)]
pub struct Signed {
    pub minus: bool,
    pub number: Numeral,
}

/// Both bounds.
#[derive(Clone, Copy)]
pub struct Interval {
    pub lower: Signed,
    pub upper: Signed,
}

/// Bounds as they are written.
#[derive(Clone, Copy)]
pub enum Bounds {
    Between(Interval),
    AtLeast(Signed),
    AtMost(Signed),
}

/// A relation.
#[derive(Clone, Copy, PartialEq, Eq)]
pub enum Rel {
    AtMost,
    AtLeast,
    Equal,
}

/// The sense of a goal.
#[derive(Clone, Copy, PartialEq, Eq)]
pub enum Sense {
    Minimise,
    Maximise,
}

/// A name that is declared, with its bounds.
#[derive(Clone, Copy)]
pub struct Declared {
    /// The number of a word.
    pub name: usize,
    pub bounds: Option<Bounds>,
}

/// A centre and the greatest deviation from it.
#[derive(Clone, Copy)]
pub struct Spread {
    pub centre: Signed,
    pub deviation: Numeral,
}

/// A member of a budget of uncertainty: a parameter with its centre and its deviation.
#[derive(Clone, Copy)]
pub struct Member {
    /// The number of a word.
    pub name: usize,
    pub spread: Spread,
}

/// A budget of uncertainty: its limit and its members, of which there is one at least.
pub struct Budget {
    pub limit: Numeral,
    pub members: List<Member>,
    /// The number of the word behind `over`.
    pub over: Option<usize>,
}

impl Drop for Budget {
    /// Lets go of it in one call. A derived drop would stand in each function that does.
    fn drop(self) {
        let Budget {
            limit: _limit,
            members: _members,
            over: _over,
        } = self;
    }
}

/// An adaptive variable that is declared, with the parameters that it depends on and its bounds.
pub struct Policy {
    /// The number of a word.
    pub name: usize,
    /// The numbers of words.
    pub on: List<usize>,
    pub bounds: Option<Bounds>,
}

impl Drop for Policy {
    /// Lets go of it in one call. A derived drop would stand in each function that does.
    fn drop(self) {
        let Policy {
            name: _name,
            on: _on,
            bounds: _bounds,
        } = self;
    }
}

/// Two expressions with a relation between them, and the set that the relation is over.
pub struct Relation {
    pub left: Syntax,
    pub rel: Rel,
    pub right: Syntax,
    /// The number of the word behind `over`.
    pub over: Option<usize>,
}

impl Drop for Relation {
    /// Lets go of it in one call. A derived drop would stand in each function that does.
    fn drop(self) {
        let Relation {
            left: _left,
            rel: _rel,
            right: _right,
            over: _over,
        } = self;
    }
}

/// A row: the number of its name's word, and what it demands.
#[derive(Drop)]
pub struct Row {
    pub name: usize,
    pub relation: Relation,
}

/// The goal.
#[derive(Drop)]
pub struct Goal {
    pub sense: Sense,
    pub objective: Syntax,
    /// The number of the word behind `over`.
    pub over: Option<usize>,
}

/// A statement.
pub enum Statement {
    Uncertain(Declared),
    /// A set that is declared: the number of its name's word.
    Over(usize),
    Set(Relation),
    Budget(Budget),
    Var(Declared),
    Adaptive(Policy),
    Goal(Goal),
    Row(Row),
}

impl Drop for Statement {
    /// Lets go of it in one call. A derived drop would stand in each function that does.
    fn drop(self) {
        match self {
            Statement::Uncertain(_part) => {}
            Statement::Over(_part) => {}
            Statement::Set(_part) => {}
            Statement::Budget(_part) => {}
            Statement::Var(_part) => {}
            Statement::Adaptive(_part) => {}
            Statement::Goal(_part) => {}
            Statement::Row(_part) => {}
        }
    }
}

/// Digits of an index, or the number of the word that is a range's name.
#[derive(Clone, Copy)]
pub enum Atom {
    Digits(u64),
    Bound(usize),
}

/// An atom added, or subtracted.
#[derive(Clone, Copy)]
pub struct Step {
    pub minus: bool,
    pub atom: Atom,
}

/// An index: an atom, and those added to it and subtracted from it.
#[derive(Drop)]
pub struct Index {
    pub first: Atom,
    pub more: List<Step>,
}

/// A name with its indices, or with none.
#[derive(Drop)]
pub struct Ref {
    /// The number of a word.
    pub name: usize,
    pub indices: List<Index>,
}

/// A range: the number of its name's word, and both ends, which are values of it.
#[derive(Drop)]
pub struct Range {
    pub name: usize,
    pub from: Index,
    pub upto: Index,
}

/// Something with the ranges that bind it, in order.
#[derive(Drop)]
pub struct Ranged<T> {
    pub item: T,
    pub ranges: List<Range>,
}

/// A signed part of a sum.
#[cycle(tree)]
#[derive(Drop)]
pub struct Part {
    pub minus: bool,
    pub inner: Tree,
}

/// An expression's tree, as that of a plain expression, with indices, and with sums over a range.
#[cycle(tree)]
#[derive(Drop)]
pub enum Tree {
    Number(Numeral),
    Ref(Ref),
    Sum(List<Part>),
    Product(List<Tree>),
    Ranged(Range, Box<Tree>),
}

/// A member of a budget of uncertainty: a parameter with its centre and its greatest deviation.
#[derive(Drop)]
pub struct Share {
    pub name: Ref,
    pub centre: Signed,
    pub deviation: Numeral,
}

/// Two expressions with a relation between them, and the set that the relation is over.
#[derive(Drop)]
pub struct Sides {
    pub left: Tree,
    pub rel: Rel,
    pub right: Tree,
    pub over: Option<Ref>,
}

/// A name that is declared, with its bounds and its ranges.
pub struct Entry {
    pub name: Ref,
    pub bounds: Option<Bounds>,
    pub ranges: List<Range>,
}

impl Drop for Entry {
    /// Lets go of it in one call. A derived drop would stand in each function that does.
    fn drop(self) {
        let Entry {
            name: _name,
            bounds: _bounds,
            ranges: _ranges,
        } = self;
    }
}

/// A budget of uncertainty: its limit and its members, of which there is one at least.
pub struct Shares {
    pub limit: Numeral,
    pub members: List<Ranged<Share>>,
    pub over: Option<Ref>,
}

impl Drop for Shares {
    /// Lets go of it in one call. A derived drop would stand in each function that does.
    fn drop(self) {
        let Shares {
            limit: _limit,
            members: _members,
            over: _over,
        } = self;
    }
}

/// An adaptive variable that is declared, with the parameters that it depends on, its bounds and its ranges.
pub struct Rule {
    pub name: Ref,
    pub on: List<Ranged<Ref>>,
    pub bounds: Option<Bounds>,
    pub ranges: List<Range>,
}

impl Drop for Rule {
    /// Lets go of it in one call. A derived drop would stand in each function that does.
    fn drop(self) {
        let Rule {
            name: _name,
            on: _on,
            bounds: _bounds,
            ranges: _ranges,
        } = self;
    }
}

/// The goal.
pub struct Target {
    pub sense: Sense,
    pub objective: Tree,
    pub over: Option<Ref>,
    pub ranges: List<Range>,
}

impl Drop for Target {
    /// Lets go of it in one call. A derived drop would stand in each function that does.
    fn drop(self) {
        let Target {
            sense: _sense,
            objective: _objective,
            over: _over,
            ranges: _ranges,
        } = self;
    }
}

/// A statement with indices, ranges and sums.
pub enum Indexed {
    Uncertain(Entry),
    /// A set that is declared.
    Over(Ranged<Ref>),
    Set(Ranged<Sides>),
    Budget(Shares),
    Var(Entry),
    Adaptive(Rule),
    Goal(Target),
    /// A row's name, what it demands, and its ranges.
    Row(Ref, Ranged<Sides>),
}

impl Drop for Indexed {
    /// Lets go of it in one call. A derived drop would stand, variant by variant, in each function that does.
    fn drop(self) {
        match self {
            Indexed::Uncertain(_entry) => {}
            Indexed::Over(_set) => {}
            Indexed::Set(_sides) => {}
            Indexed::Budget(_shares) => {}
            Indexed::Var(_entry) => {}
            Indexed::Adaptive(_rule) => {}
            Indexed::Goal(_target) => {}
            Indexed::Row(_name, _sides) => {}
        }
    }
}
