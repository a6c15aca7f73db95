//! The master program over the cuts so far: it grows by a row with each cut.

ghost use Rattle.std.specs.Prelude.{◌≡◌, ◌≤◌, ◌<◌, ◌++◌, ◌∷◌, [], ◌-◌, ◌^◌, ℕ, neg_ℤ, nat_abs, length, IfOk, IfErr};
ghost use Rattle.rob_rows.specs.LinearPrograms.{HasNumbersWithin};
ghost use Rattle.rob_rows.specs.PrimitiveParts.{IsWithin};
ghost use Rattle.rob_dualize.specs.Wholes.{AreSound};
ghost use Rattle.rob_cuts.specs.Master.{cut_row, IsMasterList, AddsCut};
ghost use Rattle.rob_cuts.specs.Rounds.{cut_of, CutFits};
ghost use Rattle.rob_cuts.specs.Stops.{StopsWith, IsInSum};

use crate::numbers::number;
use rob_cert::{Round, Stop};
use rob_dualize::entries::cost_number;
use rob_dualize::stop::{or_stop, wide_at};
use rob_elab::Forms;
use rob_model::{Spot, Where};
use rob_number::{Exact, List, Memory};
use rob_rows::Lp;
use rob_worst::sums::push_pair;
use std::alloc::Global;

/// The master over no cuts: it has a pair of columns for each decision column and for `tau`, and no row.
pub fn without_cuts(alloc: Global, forms: &Forms) -> Result<Lp, Memory>
    ensures master { IfOk result (λ lp. IsMasterList forms.now [] lp) }
    ensures within { IfOk result (λ lp. (limit : ℕ) → 1 ≤ limit → HasNumbersWithin limit lp) }
{
    let mut c = List::new(alloc);
    for k in 0..2 * (forms.columns as usize + 1) {
        c.push(cost_number(forms, k))?;
    }
    let a = List::new(alloc);
    let b = List::new(alloc);
    Ok(Lp { a, b, c })
}

/// Appends the row of a cut to the master. It stops where a prefix of the sum of a number of the cut is over the limit;
/// then the master is open.
pub fn append_cut<N: Exact>(
    alloc: Global,
    forms: &Forms,
    round: &Round,
    master: &mut Lp,
) -> Result<(), Stop>
    requires sound { AreSound forms.now }
    requires form_in { round.now.form < length forms.now.matrices }
    requires few { forms.now.columns < 2 ^ 31 }
    requires fits { CutFits N.limit forms.now.params (cut_of round.now) }
    ensures added { IfOk result (λ _. AddsCut forms.now (cut_of round.now) master.old master.new) }
    ensures within { IfOk result (λ _. HasNumbersWithin N.limit master.old
        → HasNumbersWithin N.limit master.new) }
    ensures stopped { IfErr result (StopsWith (IsInSum N.limit forms.now (cut_of round.now))) }
{
    let Some(constant) = number::<N>(forms, round, 0) else {
        return Err(wide_at(alloc, Spot::Sum(Where::Cut(round.form), 0)));
    };
    match row::<N>(alloc, forms, round) {
        Ok(row) => or_stop(push_row(master, row, constant)),
        Err(stop) => Err(stop),
    }
}

/// The row of the cut.
fn row<N: Exact>(alloc: Global, forms: &Forms, round: &Round) -> Result<List<i64>, Stop>
    requires sound { AreSound forms.now }
    requires form_in { round.now.form < length forms.now.matrices }
    requires few { forms.now.columns < 2 ^ 31 }
    requires fits { CutFits N.limit forms.now.params (cut_of round.now) }
    ensures row { IfOk result (λ row. row ≡ cut_row forms.now (cut_of round.now)) }
    ensures within { IfOk result (λ row. IsWithin N.limit row) }
    ensures stopped { IfErr result (StopsWith (IsInSum N.limit forms.now (cut_of round.now))) }
{
    let mut row = List::new(alloc);
    for j in 0..forms.columns as usize + 1 {
        let Some(number) = number::<N>(forms, round, j + 1) else {
            return Err(wide_at(alloc, Spot::Sum(Where::Cut(round.form), j as u32 + 1)));
        };
        push_pair(&mut row, number)?;
    }
    Ok(row)
}

/// Appends a row, whose right side is the constant's negation.
fn push_row(master: &mut Lp, row: List<i64>, constant: i64) -> Result<(), Memory>
    requires small { nat_abs constant ≤ 2 ^ 62 - 1 }
    ensures a { IfOk result (λ _. master.new.a ≡ master.old.a ++ row ∷ []) }
    ensures b { IfOk result (λ _. master.new.b ≡ master.old.b ++ neg_ℤ constant ∷ []) }
    ensures c { master.new.c ≡ master.old.c }
{
    master.a.push(row)?;
    master.b.push(-constant)?;
    Ok(())
}
