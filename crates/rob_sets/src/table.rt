//! Tables of coefficients, sparse.

ghost use Rattle.std.specs.Prelude.{◌≡◌, ℕ, max, OnOk, IfOk, IfErr};
ghost use Rattle.rob_algebra.specs.Fraction.{◌+ℚ◌, ◌*ℚ◌};
ghost use Rattle.rob_number.specs.Answer.{answer};
ghost use Rattle.rob_number.specs.Counts.{CountsTold, NeverFell, Rose};
ghost use Rattle.rob_algebra.specs.Width.{IsWide, kept};
ghost use Rattle.rob_meaning.specs.Coefficients.{single, table_times};
ghost use Rattle.rob_meaning.specs.Values.{signed as with_sign};
ghost use Rattle.rob_sets.specs.Stops.{StopsFor};
ghost use Rattle.rob_meaning.specs.Places.{0ℚ};
ghost use Rattle.rob_sets.specs.Tables.{numbers_of, AreApart};

use crate::error::Stop;
use rob_model::numbers::zero;
use rob_number::{Exact, Ledger, Memory, Wide};
use std::alloc::Global;
use std::collections::BTreeMap;

/// A place in a table: row 0 is the constant, row `k + 1` parameter `k`; column 0 is the constant, column `j + 1`
/// decision column `j`.
#[derive(Clone, Copy, Debug, PartialEq, Eq, PartialOrd, Ord)]
pub struct Cell {
    pub row: u32,
    pub column: u32,
}

/// The coefficients of an expression, by parameter and decision column. What has no number is 0, so its size is the
/// number of parameters and columns that the expression names.
#[derive(Drop)]
pub struct Table<N> {
    numbers: BTreeMap<Cell, N>,
}

impl<N: Exact> Table<N> {
    /// The table of 0. It takes no memory.
    pub fn new(alloc: Global) -> Table<N>
        ensures zero { (k j : ℕ) → numbers_of N.value result k j ≡ 0ℚ }
    {
        Table {
            numbers: BTreeMap::new(alloc),
        }
    }

    /// The table that has one number.
    pub fn single<L: Ledger>(
        alloc: Global,
        cell: Cell,
        x: N,
        ledger: &mut L,
    ) -> Result<Table<N>, Stop>
        ensures number { IfOk result (λ t. (k j : ℕ) → numbers_of N.value t k j
            ≡ N.value x *ℚ single cell.row cell.column k j) }
        ensures memory { IfErr result (λ stop. stop ≡ Stop.Memory) }
        ensures counted { NeverFell L.ops L.wides ledger.old ledger.new }
    {
        let mut table = Table::new(alloc);
        table.add(cell, x, ledger)?;
        Ok(table)
    }

    /// The number at a cell.
    pub fn number<L: Ledger>(&self, cell: Cell, ledger: &mut L) -> N
        ensures value { N.value result ≡ numbers_of N.value self.now cell.row cell.column }
        ensures counted { NeverFell L.ops L.wides ledger.old ledger.new }
    {
        match self.numbers.get(&cell) {
            Some(x) => *x,
            None => zero(ledger),
        }
    }

    /// The number at a cell, with another one added.
    fn raised<L: Ledger>(&self, cell: Cell, x: N, ledger: &mut L) -> Result<N, Wide>
        ensures exact { answer N.value result
            ≡ kept N.limit (numbers_of N.value self.now cell.row cell.column +ℚ N.value x) }
        ensures counted { CountsTold L.ops L.wides ledger.old ledger.new result }
    {
        match self.numbers.get(&cell) {
            Some(y) => y.add(x, ledger),
            None => Ok(x),
        }
    }

    /// Adds a number at a cell.
    pub fn add<L: Ledger>(&mut self, cell: Cell, x: N, ledger: &mut L) -> Result<(), Stop>
        ensures added { OnOk result ((k j : ℕ) → numbers_of N.value self.new k j
            ≡ numbers_of N.value self.old k j +ℚ N.value x *ℚ single cell.row cell.column k j) }
        ensures wide { IfErr result (StopsFor (Rose (L.wides ledger.old) (L.wides ledger.new)
            × IsWide N.limit (numbers_of N.value self.old cell.row cell.column +ℚ N.value x))) }
        ensures counted { NeverFell L.ops L.wides ledger.old ledger.new }
    {
        let sum = self.raised(cell, x, ledger)?;
        self.numbers.insert(cell, sum)?;
        Ok(())
    }

    /// Puts a number at a cell that has none.
    pub fn put(&mut self, cell: Cell, x: N) -> Result<(), Memory>
        requires absent { numbers_of N.value self.old cell.row cell.column ≡ 0ℚ }
        ensures put { OnOk result ((k j : ℕ) → numbers_of N.value self.new k j
            ≡ numbers_of N.value self.old k j +ℚ N.value x *ℚ single cell.row cell.column k j) }
    {
        self.numbers.insert(cell, x)?;
        Ok(())
    }

    /// Adds the numbers of another table, or subtracts them.
    pub fn join<L: Ledger>(
        &mut self,
        minus: bool,
        other: &Table<N>,
        ledger: &mut L,
    ) -> Result<(), Stop>
        ensures joined { OnOk result ((k j : ℕ) → numbers_of N.value self.new k j
            ≡ numbers_of N.value self.old k j
            +ℚ with_sign minus (numbers_of N.value other.now k j)) }
        ensures wide { IfErr result (StopsFor (Rose (L.wides ledger.old) (L.wides ledger.new)
            × ((k : ℕ) × (j : ℕ) × IsWide N.limit
            (numbers_of N.value self.old k j
            +ℚ with_sign minus (numbers_of N.value other.now k j))))) }
        ensures counted { NeverFell L.ops L.wides ledger.old ledger.new }
    {
        for (cell, x) in &other.numbers {
            self.add(*cell, signed(minus, *x), ledger)?;
        }
        Ok(())
    }

    /// The product with another table. Of the two at most one has parameters, and at most one has decision columns.
    pub fn times<L: Ledger>(
        &self,
        alloc: Global,
        other: &Table<N>,
        ledger: &mut L,
    ) -> Result<Table<N>, Stop>
        requires apart { AreApart (numbers_of N.value self.now) (numbers_of N.value other.now) }
        ensures product { IfOk result (λ t. (k j : ℕ) → numbers_of N.value t k j
            ≡ table_times (numbers_of N.value self.now) (numbers_of N.value other.now) k j) }
        ensures wide { IfErr result (StopsFor (Rose (L.wides ledger.old) (L.wides ledger.new)
            × ((k : ℕ) × (j : ℕ) × IsWide N.limit
            (table_times (numbers_of N.value self.now) (numbers_of N.value other.now) k j)))) }
        ensures counted { NeverFell L.ops L.wides ledger.old ledger.new }
    {
        let mut product = Table::new(alloc);
        for (a, x) in &self.numbers {
            for (b, y) in &other.numbers {
                let number = x.mul(*y, ledger)?;
                product.add(both(*a, *b), number, ledger)?;
            }
        }
        Ok(product)
    }
}

/// The cell of a product of two coefficients, of which at most one belongs to a parameter and at most one to a decision
/// column.
fn both(a: Cell, b: Cell) -> Cell
    ensures row { result.row ≡ max a.row b.row }
    ensures column { result.column ≡ max a.column b.column }
{
    Cell {
        row: a.row.max(b.row),
        column: a.column.max(b.column),
    }
}

/// A number with its sign, or with the other one.
pub fn signed<N: Exact>(minus: bool, x: N) -> N
    ensures value { N.value result ≡ with_sign minus (N.value x) }
{
    if minus { x.neg() } else { x }
}
