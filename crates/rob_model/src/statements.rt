//! The statements on the uncertainty set as set conditions, each taken some number of times.

ghost use Rattle.std.specs.Prelude.{◌≡◌, ◌≤◌, ◌+◌, length, map};
ghost use Rattle.std.specs.Result.{result_ok};
ghost use Rattle.rob_algebra.specs.Fraction.{◌<ℚ◌};
ghost use Rattle.rob_number.specs.Answer.{answer};
ghost use Rattle.rob_number.specs.Counts.{CountsTold};
ghost use Rattle.rob_meaning.specs.Places.{0ℚ, Each};
ghost use Rattle.rob_meaning.specs.RobustModel.{RobustModel, column_count};
ghost use Rattle.rob_meaning.specs.SetConditions.{all_stated, stated};
ghost use Rattle.rob_meaning.specs.WellFormed.{IsInside, IsSetLine};
ghost use Rattle.rob_model.specs.Limits.{most_columns};
ghost use Rattle.rob_model.specs.View.{robust, expression_of, relation_of, member_of, set_line_of};
ghost use Rattle.rob_model.specs.Within.{taken_within, deviation_within, total_within, holds_within, first_within, is_related};

use crate::expr::Expr;
use crate::model::{Member, Model, Rel, SetLine};
use crate::numbers::{at_most, number_at, size, zero};
use crate::value::evaluate;
use rob_number::{Exact, Ledger, Wide};

/// The number of the first statement that fails, each being taken `base` times; the first statement has number `first`.
pub fn broken_statement<N: Exact, L: Ledger>(
    model: &Model<N>,
    first: u32,
    base: N,
    vector: &[N],
    ledger: &mut L,
) -> Result<Option<u32>, Wide>
    requires lines { Each (IsSetLine (robust N.value model.now))
        (map (set_line_of N.value) model.now.set_lines) }
    requires few { column_count (robust N.value model.now) ≤ most_columns }
    requires small { first + length model.now.set_lines ≤ 1000 }
    ensures exact { result_ok result
        ≡ first_within N.limit (robust N.value model.now) (N.value base) (map N.value vector.now)
        (all_stated (map (set_line_of N.value) model.now.set_lines)) first }
    ensures counted { CountsTold L.ops L.wides ledger.old ledger.new result }
{
    let mut index = first;
    for line in model.set_lines.items() {
        if !holds(line, model, base, vector, ledger)? {
            return Ok(Some(index));
        }
        index += 1;
    }
    Ok(None)
}

/// Whether a statement, taken `base` times, holds at the vector.
pub fn holds<N: Exact, L: Ledger>(
    line: &SetLine<N>,
    model: &Model<N>,
    base: N,
    vector: &[N],
    ledger: &mut L,
) -> Result<bool, Wide>
    requires line { IsSetLine (robust N.value model.now) (set_line_of N.value line.now) }
    requires few { column_count (robust N.value model.now) ≤ most_columns }
    ensures exact { result_ok result
        ≡ holds_within N.limit (robust N.value model.now) (N.value base) (map N.value vector.now)
        (stated (set_line_of N.value line.now)) }
    ensures counted { CountsTold L.ops L.wides ledger.old ledger.new result }
{
    match line {
        SetLine::Line { left, rel, right } => {
            let left_side = taken(left, model, base, vector, ledger)?;
            let right_side = taken(right, model, base, vector, ledger)?;
            Ok(related(*rel, left_side, right_side))
        }
        SetLine::Budget { limit, members } => {
            let total = total_deviation(members.items(), base, vector, ledger)?;
            let scaled = base.mul(*limit, ledger)?;
            Ok(at_most(total, scaled))
        }
    }
}

/// An expression taken `base` times at the vector: `e(vector) - e(0) + base * e(0)`. There is no decision in it.
fn taken<N: Exact, L: Ledger>(
    e: &Expr<N>,
    model: &Model<N>,
    base: N,
    vector: &[N],
    ledger: &mut L,
) -> Result<N, Wide>
    requires inside { IsInside (robust N.value model.now) (expression_of N.value e.now) }
    requires few { column_count (robust N.value model.now) ≤ most_columns }
    ensures exact { answer N.value result
        ≡ taken_within N.limit (robust N.value model.now) (N.value base) (map N.value vector.now)
        (expression_of N.value e.now) }
    ensures counted { CountsTold L.ops L.wides ledger.old ledger.new result }
{
    let at_vector: N = evaluate(e, model, &[], vector, ledger)?;
    let constant = evaluate(e, model, &[], &[], ledger)?;
    let linear = at_vector.sub(constant, ledger)?;
    let scaled = base.mul(constant, ledger)?;
    linear.add(scaled, ledger)
}

/// The sum of the members' scaled deviations, their centres being taken `base` times.
fn total_deviation<N: Exact, L: Ledger>(
    members: &[Member<N>],
    base: N,
    vector: &[N],
    ledger: &mut L,
) -> Result<N, Wide>
    requires positive { Each (λ (h : Member N). 0ℚ <ℚ N.value h.deviation) members.now }
    ensures exact { (m : RobustModel) → answer N.value result
        ≡ total_within N.limit m (N.value base) (map N.value vector.now)
        (map (member_of N.value) members.now) 0ℚ }
    ensures counted { CountsTold L.ops L.wides ledger.old ledger.new result }
{
    let mut sum: N = zero(ledger);
    for member in members {
        let part = deviation(member, base, vector, ledger)?;
        sum = sum.add(part, ledger)?;
    }
    Ok(sum)
}

/// The distance of a member's parameter from its centre, taken `base` times, over its deviation.
fn deviation<N: Exact, L: Ledger>(
    member: &Member<N>,
    base: N,
    vector: &[N],
    ledger: &mut L,
) -> Result<N, Wide>
    requires positive { 0ℚ <ℚ N.value member.now.deviation }
    ensures exact { (m : RobustModel) → answer N.value result
        ≡ deviation_within N.limit m (N.value base) (map N.value vector.now)
        (member_of N.value member.now) }
    ensures counted { CountsTold L.ops L.wides ledger.old ledger.new result }
{
    let centre = base.mul(member.centre, ledger)?;
    let number: N = number_at(vector, member.param as usize, ledger);
    let difference = number.sub(centre, ledger)?;
    size(difference).div(member.deviation, ledger)
}

/// Whether two sides stand in a relation.
fn related<N: Exact>(rel: Rel, left: N, right: N) -> bool
    ensures test { result ≡ is_related (relation_of rel) (N.value left) (N.value right) }
{
    match rel {
        Rel::AtMost => at_most(left, right),
        Rel::AtLeast => at_most(right, left),
        Rel::Equal => left == right,
    }
}
