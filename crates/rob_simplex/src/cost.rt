//! A new cost, put on a dictionary that stands, column by column.

ghost use Rattle.std.specs.Prelude.{◌≡◌, ◌<◌, ◌≤◌, ◌+◌, ◌-◌, ◌^◌, ℕ, suc, nat_abs, OnOk, OnErr, IfErr, MatchResult};
ghost use Rattle.rob_linear.specs.Vectors.{at};
ghost use Rattle.rob_linear.specs.Programs.{Program, with_cost};
ghost use Rattle.rob_linear.specs.Stages.{truncated, unit_row};
ghost use Rattle.rob_linear.specs.WideRows.{IsOwnWideAt, HasWideRowFrom};
ghost use Rattle.rob_number.specs.Counts.{CountsOnly};
ghost use Rattle.rob_table.specs.Lowering.{IsLowered, IsWideLowered};
ghost use Rattle.rob_simplex.specs.Dictionaries.{positions, width_of, columns_of, rows_of, IsSized};
ghost use Rattle.rob_simplex.specs.Lowering.{amount_of, HasCleared, HasRefusedCost, CanLowerAndClear, CanLowerObjective, IsBasicAt, IsCostOf};
ghost use Rattle.rob_simplex.specs.Phases.{StandsFor, EndsFrom};
ghost use Rattle.rob_simplex.specs.Judging.{Tells};
ghost use Rattle.rob_simplex.specs.PathEnds.{PathStopsFrom};

use crate::dictionary::Dictionary;
use crate::state::{Cause, Halt};
use rob_entries::Entry;
use rob_number::{Exact, Ledger, Wide};
use rob_table::lowering::{Lowering, Step, lower_row, write_step};

impl<E: Entry> Dictionary<E> {
    /// Makes the objective's row that of the cost 0: 1 in its own column, and 0 elsewhere.
    fn drop_cost(&mut self)
        ensures objective { (c : ℕ) → c < width_of self.old
            → rows_of self.new (positions self.old) c ≡ unit_row (suc (self.old.columns + positions self.old)) c }
        ensures rows { (i c : ℕ) → i < positions self.old → rows_of self.new i c
            ≡ rows_of self.old i c }
        ensures basis { self.new.basis ≡ self.old.basis }
        ensures sized { IsSized self.old self.new }
    {
        let n = self.columns;
        let step = Step {
            one: n + 3,
            place: n + 3,
            number: E::of(1),
        };
        let m = self.basis.len();
        write_step(&mut self.rows, self.bounds.as_mut_slice(), m, step, n);
    }

    /// Takes the factor times the objective's entry off the entry of a column that is not basic, in the objective's
    /// row. `Wide` where that row in lowest terms then has an entry over the limit; the row is then open.
    fn lower<L: Ledger>(&mut self, column: usize, factor: i64, ledger: &mut L) -> Result<(), Wide>
        requires ready { CanLowerObjective self.old column }
        requires factor { nat_abs factor < 2 ^ 62 }
        ensures lowered { OnOk result (IsLowered (width_of self.old) column
            (amount_of self.old factor) (rows_of self.old (positions self.old))
            (rows_of self.new (positions self.old))) }
        ensures wide { OnErr result (IsWideLowered self.old.limit (width_of self.old) column
            (amount_of self.old factor) (rows_of self.old (positions self.old))) }
        ensures rows { (i c : ℕ) → i < positions self.old → rows_of self.new i c
            ≡ rows_of self.old i c }
        ensures basis { self.new.basis ≡ self.old.basis }
        ensures sized { IsSized self.old self.new }
        ensures counted { CountsOnly L.ops L.wides ledger.old ledger.new }
    {
        let m = self.basis.len();
        let place = self.places[column];
        let way = self.places[self.columns + m];
        let there = Lowering {
            row: m,
            place,
            way,
            n: self.columns,
        };
        lower_row(
            &mut self.rows,
            self.bounds.as_mut_slice(),
            &mut self.pivot_row,
            there,
            factor,
            ledger,
        )
    }

    /// The same for a column that stands open at the position i, whose row then clears it in the objective's.
    fn lower_and_clear<L: Ledger>(
        &mut self,
        i: usize,
        column: usize,
        factor: i64,
        ledger: &mut L,
    ) -> Result<(), Wide>
        requires ready { CanLowerAndClear self.old i column factor }
        ensures cleared { OnOk result (HasCleared self.old self.new i column factor) }
        ensures wide { OnErr result (HasRefusedCost self.old.limit self.old i column factor) }
        ensures basis { self.new.basis ≡ self.old.basis }
        ensures sized { IsSized self.old self.new }
        ensures counted { CountsOnly L.ops L.wides ledger.old ledger.new }
    {
        self.lower(column, factor, ledger)?;
        let m = self.basis.len();
        match self.clear_others(i, column, m + 1, ledger) {
            Ok(()) => Ok(()),
            Err(_) => Err(Wide),
        }
    }

    /// Puts in the cost of a column that is basic at position i.
    fn put_in_basic<L: Ledger>(
        &mut self,
        i: usize,
        column: usize,
        factor: i64,
        ledger: &mut L,
    ) -> Result<(), Wide>
        requires stands { (P : Program) × StandsFor (truncated P column) self.old }
        requires basic { IsBasicAt self.old i column }
        requires factor { nat_abs factor < 2 ^ 62 }
        ensures put { (P : Program) → P.c column ≡ factor → StandsFor (truncated P column) self.old
            → OnOk result (StandsFor (truncated P (suc column)) self.new) }
        ensures wide { (P : Program) → P.c column ≡ factor → StandsFor (truncated P column) self.old
            → OnErr result (IsOwnWideAt self.old.limit P (columns_of self.old.basis) P.m) }
        ensures basis { self.new.basis ≡ self.old.basis }
        ensures sized { IsSized self.old self.new }
        ensures counted { CountsOnly L.ops L.wides ledger.old ledger.new }
    {
        let n = self.columns();
        let m = self.positions();
        self.replace(i, n + m + 3);
        let cleared = self.lower_and_clear(i, column, factor, ledger);
        self.replace(i, column);
        cleared
    }

    /// Puts in the cost of a column: the objective's row goes from the stage of the columns before it to the next.
    /// `Wide` where a stage is wide; the rows are then open.
    fn put_in<L: Ledger>(&mut self, column: usize, factor: i64, ledger: &mut L) -> Result<(), Wide>
        requires stands { (P : Program) × StandsFor (truncated P column) self.old }
        requires column_in { column < self.old.columns }
        requires factor { nat_abs factor < 2 ^ 62 }
        ensures put { (P : Program) → P.c column ≡ factor → StandsFor (truncated P column) self.old
            → OnOk result (StandsFor (truncated P (suc column)) self.new) }
        ensures wide { (P : Program) → P.c column ≡ factor → StandsFor (truncated P column) self.old
            → OnErr result (IsOwnWideAt self.old.limit P (columns_of self.old.basis) P.m) }
        ensures basis { self.new.basis ≡ self.old.basis }
        ensures sized { IsSized self.old self.new }
        ensures counted { CountsOnly L.ops L.wides ledger.old ledger.new }
    {
        if factor == 0 {
            return Ok(());
        }
        match self.position_of(column) {
            None => self.lower(column, factor, ledger),
            Some(i) => self.put_in_basic(i, column, factor, ledger),
        }
    }

    /// Puts the cost on the dictionary in place of the one that it has. `Wide` where a stage of the objective's row is
    /// wide; the rows are then open.
    fn put_on<L: Ledger>(&mut self, cost: &[i64], ledger: &mut L) -> Result<(), Wide>
        requires stands { (P : Program) × StandsFor P self.old }
        requires cost { IsCostOf (2 ^ 62 - 1) self.old.columns cost.now }
        ensures put { (P : Program) → StandsFor P self.old
            → OnOk result (StandsFor (with_cost P (at cost.now)) self.new) }
        ensures wide { (P : Program) → StandsFor P self.old
            → OnErr result (IsOwnWideAt self.old.limit (with_cost P (at cost.now)) (columns_of self.old.basis) P.m) }
        ensures basis { self.new.basis ≡ self.old.basis }
        ensures sized { IsSized self.old self.new }
        ensures counted { CountsOnly L.ops L.wides ledger.old ledger.new }
    {
        self.drop_cost();
        for k in 0..cost.len() {
            match self.put_in(k, cost[k], ledger) {
                Ok(()) => {}
                Err(_) => return Err(Wide),
            }
        }
        Ok(())
    }

    /// Puts the cost on the dictionary, and turns until the path from the basis that stands ends: with `None` where no
    /// column improves the objective, else with the column that improves it without limit. An `Err` names a row that is
    /// wide at the basis that is then told: its own, or a stage of the objective's. Rows may be wider than `N`; the
    /// numbers that the last ones tell fit it.
    pub fn go_on<N: Exact, L: Ledger>(
        &mut self,
        cost: &[i64],
        ledger: &mut L,
    ) -> Result<Option<usize>, Halt>
        requires stands { (P : Program) × StandsFor P self.old }
        requires cost { IsCostOf N.limit self.old.columns cost.now }
        requires limit { N.limit ≤ self.old.limit }
        ensures told { (P : Program) → StandsFor P self.old
            → MatchResult result
            (λ ending. EndsFrom (with_cost P (at cost.now)) (columns_of self.old.basis) ending self.new
            × Tells N.limit ending self.new)
            (λ halt. HasWideRowFrom N.limit (with_cost P (at cost.now)) (columns_of self.old.basis)
            (columns_of self.new.basis) halt.position) }
        ensures caused { (P : Program) → StandsFor P self.old → IfErr result
            (λ halt. PathStopsFrom N.limit (with_cost P (at cost.now)) (columns_of self.old.basis) self.new
            halt.position) }
        ensures position { IfErr result (λ halt. halt.position ≤ positions self.old) }
        ensures sized { IsSized self.old self.new }
        ensures counted { CountsOnly L.ops L.wides ledger.old ledger.new }
    {
        match self.put_on(cost, ledger) {
            Ok(()) => self.improve_and_judge::<N, L>(ledger),
            Err(_) => Err(Halt {
                position: self.positions(),
                cause: Cause::Elsewhere,
            }),
        }
    }
}
