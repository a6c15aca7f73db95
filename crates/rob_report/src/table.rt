//! The table of a scenario file, as it is printed.

ghost use Rattle.std.specs.Prelude.{◌≡◌, ◌∷◌, ◌++◌, [], map, if◌then◌else◌, IfOk, OnOk};
ghost use Rattle.rob_model.specs.View.{adaptive_of, robust, row_of};
ghost use Rattle.rob_replay.specs.View.{line_of};
ghost use Rattle.rob_report.specs.Lines.{line};
ghost use Rattle.rob_report.specs.Tables.{adaptive_names as names_of_adaptives, bound_names, named_text, named_texts, own_bound_names, row_names as names_of_rows, slack_names as names_of_slacks, table_line, table_lines, table_of, values_text};

use itoa::Buffer;
use rob_cert::spelling::put_number;
use rob_model::copy::word;
use rob_model::{Adaptive, Model, RowDef};
use rob_number::{Exact, List, Memory, Text};
use rob_replay::{Table, TableLine};
use std::alloc::Global;

/// A line for each record behind the header: `R outside`, or `R inside`, then ` NAME NUM` for each adaptive variable,
/// ` objective NUM`, and ` NAME SLACK` for each row and for each declared bound of an adaptive variable.
pub fn table_text<N: Exact>(
    alloc: Global,
    model: &Model<N>,
    table: &Table<N>,
) -> Result<Text, Memory>
    ensures text { IfOk result (λ text. text
        ≡ table_of (robust N.value model.now) (map (line_of N.value) table.now.lines)) }
{
    let adaptives = adaptive_names(alloc, model.adaptives.items())?;
    let slacks = slack_names(alloc, model)?;
    let mut text = Text::new(alloc);
    put_lines(
        adaptives.items(),
        slacks.items(),
        table.lines.items(),
        &mut text,
    )?;
    Ok(text)
}

/// Appends the lines of records, with names for their values.
fn put_lines<N: Exact>(
    adaptives: &[Text],
    slacks: &[Text],
    lines: &[TableLine<N>],
    out: &mut Text,
) -> Result<(), Memory>
    ensures appended { OnOk result (out.new
        ≡ out.old ++ table_lines adaptives.now slacks.now (map (line_of N.value) lines.now)) }
{
    for line in lines {
        put_line(adaptives, slacks, line, out)?;
    }
    Ok(())
}

/// Appends the line of a record.
fn put_line<N: Exact>(
    adaptives: &[Text],
    slacks: &[Text],
    line: &TableLine<N>,
    out: &mut Text,
) -> Result<(), Memory>
    ensures appended { OnOk result (out.new
        ≡ out.old ++ table_line adaptives.now slacks.now (line_of N.value line.now)) }
{
    let mut buffer = Buffer::new();
    out.push(buffer.format(line.number).as_bytes())?;
    if line.inside {
        put_values(adaptives, slacks, line, out)
    } else {
        out.push(b" outside\n")
    }
}

/// Appends ` inside`, the values, and the line's end.
fn put_values<N: Exact>(
    adaptives: &[Text],
    slacks: &[Text],
    values: &TableLine<N>,
    out: &mut Text,
) -> Result<(), Memory>
    ensures appended { OnOk result (out.new
        ≡ out.old ++ line
        (values_text adaptives.now slacks.now (line_of N.value values.now).values)) }
{
    out.push(b" inside")?;
    put_named_numbers(adaptives, values.adaptives.items(), out)?;
    out.push(b" objective ")?;
    put_number(out, values.objective)?;
    put_named_numbers(slacks, values.slacks.items(), out)?;
    out.push(b"\n")
}

/// Appends ` NAME NUM` for each name and its number.
fn put_named_numbers<N: Exact>(names: &[Text], numbers: &[N], out: &mut Text) -> Result<(), Memory>
    ensures appended { OnOk result (out.new
        ≡ out.old ++ named_texts names.now (map N.value numbers.now)) }
{
    for (name, number) in names.iter().zip(numbers) {
        put_named_number(name.bytes(), *number, out)?;
    }
    Ok(())
}

/// Appends ` NAME NUM`.
fn put_named_number<N: Exact>(name: &[u8], number: N, out: &mut Text) -> Result<(), Memory>
    ensures appended { OnOk result (out.new ≡ out.old ++ named_text name.now (N.value number)) }
{
    out.push(b" ")?;
    out.push(name)?;
    out.push(b" ")?;
    put_number(out, number)
}

/// The names of the adaptive variables.
fn adaptive_names<N: Exact>(alloc: Global, adaptives: &[Adaptive<N>]) -> Result<List<Text>, Memory>
    ensures list { IfOk result (λ list. list
        ≡ names_of_adaptives (map (adaptive_of N.value) adaptives.now)) }
{
    let mut names = List::new(alloc);
    for adaptive in adaptives {
        names.push(word(alloc, adaptive.name.bytes())?)?;
    }
    Ok(names)
}

/// The names of the slacks: those of the rows, then those of the declared bounds of the adaptive variables.
fn slack_names<N: Exact>(alloc: Global, model: &Model<N>) -> Result<List<Text>, Memory>
    ensures list { IfOk result (λ list. list ≡ names_of_slacks (robust N.value model.now)) }
{
    let mut names = row_names(alloc, model.rows.items())?;
    push_bounds(alloc, model.adaptives.items(), &mut names)?;
    Ok(names)
}

/// The names of rows.
fn row_names<N: Exact>(alloc: Global, rows: &[RowDef<N>]) -> Result<List<Text>, Memory>
    ensures list { IfOk result (λ list. list ≡ names_of_rows (map (row_of N.value) rows.now)) }
{
    let mut names = List::new(alloc);
    for row in rows {
        names.push(word(alloc, row.name.bytes())?)?;
    }
    Ok(names)
}

/// Appends the names of the declared bounds of adaptive variables.
fn push_bounds<N: Exact>(
    alloc: Global,
    adaptives: &[Adaptive<N>],
    names: &mut List<Text>,
) -> Result<(), Memory>
    ensures appended { OnOk result (names.new
        ≡ names.old ++ bound_names (map (adaptive_of N.value) adaptives.now)) }
{
    for adaptive in adaptives {
        push_own_bounds(alloc, adaptive, names)?;
    }
    Ok(())
}

/// Appends the names of the declared bounds of an adaptive variable.
fn push_own_bounds<N: Exact>(
    alloc: Global,
    adaptive: &Adaptive<N>,
    names: &mut List<Text>,
) -> Result<(), Memory>
    ensures appended { OnOk result (names.new
        ≡ names.old ++ own_bound_names (adaptive_of N.value adaptive.now)) }
{
    let own = adaptive.name.bytes();
    push_declared(alloc, adaptive.lower.is_some(), own, b".lower", names)?;
    push_declared(alloc, adaptive.upper.is_some(), own, b".upper", names)
}

/// Appends a name with an end, if there is what it names.
fn push_declared(
    alloc: Global,
    declared: bool,
    front: &[u8],
    end: &[u8],
    names: &mut List<Text>,
) -> Result<(), Memory>
    ensures appended { OnOk result (names.new
        ≡ names.old ++ (if declared then (front.now ++ end.now) ∷ [] else [])) }
{
    if declared {
        names.push(ended(alloc, front, end)?)
    } else {
        Ok(())
    }
}

/// A name with an end.
fn ended(alloc: Global, front: &[u8], end: &[u8]) -> Result<Text, Memory>
    ensures text { IfOk result (λ text. text ≡ front.now ++ end.now) }
{
    let mut text = Text::new(alloc);
    text.push(front)?;
    text.push(end)?;
    Ok(text)
}
