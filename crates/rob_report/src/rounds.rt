//! The rounds of the cutting-plane method, as they are printed.

ghost use Rattle.std.specs.Prelude.{◌≡◌, ◌<◌, ◌+◌, ◌++◌, map, All, OnOk};
ghost use Rattle.rob_model.specs.Valid.{IsValid};
ghost use Rattle.rob_model.specs.View.{parameter_of, robust};
ghost use Rattle.rob_report.specs.Rounds.{IsRoundOf, column_words, cut_words, entries_words, entry_words, kind_words, master_words, round_line, round_words, rounds_text, via_words};

use crate::names::put_form;
use crate::spots::put_basis;
use itoa::Buffer;
use rob_cert::Round;
use rob_cert::spelling::{put_count, put_whole};
use rob_model::{Model, Param};
use rob_number::{Exact, LpKind, Memory, Text};

/// Appends `rounds N`, and for each of the N rounds the line `round I KIND VIA cut FORM BASE PARAM NUM .. basis C ..`,
/// with ` column C` behind it for an unbounded master. I counts from 1, KIND is `optimal` or `unbounded`, VIA `plan`
/// or `move`; each parameter has its number, and the basis its columns by position.
pub fn put_rounds<N: Exact>(
    model: &Model<N>,
    rounds: &[Round],
    out: &mut Text,
) -> Result<(), Memory>
    requires valid { IsValid N.value model.now }
    requires named { All (IsRoundOf (robust N.value model.now)) rounds.now }
    ensures appended { OnOk result (out.new
        ≡ out.old ++ rounds_text (robust N.value model.now) rounds.now) }
{
    let mut buffer = Buffer::new();
    out.push(b"rounds ")?;
    out.push(buffer.format(rounds.len()).as_bytes())?;
    out.push(b"\n")?;
    for (index, round) in rounds.iter().enumerate() {
        put_round(model, index + 1, round, out)?;
    }
    Ok(())
}

/// Appends the line of a round.
fn put_round<N: Exact>(
    model: &Model<N>,
    number: usize,
    round: &Round,
    out: &mut Text,
) -> Result<(), Memory>
    requires valid { IsValid N.value model.now }
    requires named { IsRoundOf (robust N.value model.now) round.now }
    ensures appended { OnOk result (out.new
        ≡ out.old ++ round_line (robust N.value model.now) number round.now) }
{
    let mut buffer = Buffer::new();
    out.push(b"round ")?;
    out.push(buffer.format(number).as_bytes())?;
    out.push(b" ")?;
    put_round_words(model, round, out)?;
    out.push(b"\n")
}

/// Appends what is told of a round.
fn put_round_words<N: Exact>(model: &Model<N>, round: &Round, out: &mut Text) -> Result<(), Memory>
    requires valid { IsValid N.value model.now }
    requires named { IsRoundOf (robust N.value model.now) round.now }
    ensures appended { OnOk result (out.new
        ≡ out.old ++ round_words (robust N.value model.now) round.now) }
{
    out.push(kind_word(round.kind))?;
    out.push(b" ")?;
    out.push(via_word(round.by_step))?;
    put_cut(model, round, out)?;
    put_master(round, out)
}

/// The word for how a round's master ended.
fn kind_word(kind: LpKind) -> &'static [u8]
    ensures word { result.now ≡ kind_words kind }
{
    match kind {
        LpKind::Optimal => b"optimal",
        LpKind::Infeasible => b"infeasible",
        LpKind::Unbounded => b"unbounded",
    }
}

/// The word for what a cut cuts off.
fn via_word(by_step: bool) -> &'static [u8]
    ensures word { result.now ≡ via_words by_step }
{
    if by_step { b"move" } else { b"plan" }
}

/// Appends the cut of a round.
fn put_cut<N: Exact>(model: &Model<N>, round: &Round, out: &mut Text) -> Result<(), Memory>
    requires valid { IsValid N.value model.now }
    requires named { IsRoundOf (robust N.value model.now) round.now }
    ensures appended { OnOk result (out.new
        ≡ out.old ++ cut_words (robust N.value model.now) round.now) }
{
    out.push(b" cut ")?;
    put_form(model, round.form, out)?;
    out.push(b" ")?;
    put_whole(out, round.base)?;
    put_entries(model.params.items(), round.vector.items(), out)
}

/// Appends the number of each parameter.
fn put_entries<N: Exact>(params: &[Param<N>], numbers: &[i64], out: &mut Text) -> Result<(), Memory>
    ensures appended { OnOk result (out.new
        ≡ out.old ++ entries_words (map (parameter_of N.value) params.now) numbers.now) }
{
    for (param, number) in params.iter().zip(numbers) {
        put_entry(param.name.bytes(), *number, out)?;
    }
    Ok(())
}

/// Appends ` PARAM NUM`.
fn put_entry(name: &[u8], number: i64, out: &mut Text) -> Result<(), Memory>
    ensures appended { OnOk result (out.new ≡ out.old ++ entry_words name.now number) }
{
    out.push(b" ")?;
    out.push(name)?;
    out.push(b" ")?;
    put_whole(out, number)
}

/// Appends the basis of a round's master, and the column that grows.
fn put_master(round: &Round, out: &mut Text) -> Result<(), Memory>
    ensures appended { OnOk result (out.new ≡ out.old ++ master_words round.now) }
{
    out.push(b" basis")?;
    put_basis(round.basis.items(), out)?;
    put_column(round.column, out)
}

/// Appends the column that grows without end, where there is one.
fn put_column(column: Option<u32>, out: &mut Text) -> Result<(), Memory>
    ensures appended { OnOk result (out.new ≡ out.old ++ column_words column) }
{
    match column {
        Some(column) => {
            out.push(b" column ")?;
            put_count(out, column as u64)
        }
        None => Ok(()),
    }
}
