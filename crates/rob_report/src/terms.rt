//! Sums of terms, as they are printed.

ghost use Rattle.std.specs.Prelude.{◌≡◌, ◌++◌, ℕ, List as Items, length, OnOk};
ghost use Rattle.rob_report.specs.Lines.{line};
ghost use Rattle.rob_report.specs.Rows.{limit_text, matrix_text, or_zero, term_text, terms_text};

use itoa::Buffer;
use rob_number::{List, Memory, Text};

/// Appends the term of a number, unless it is 0. The column's name stands behind `front`.
fn put_term(out: &mut Text, number: i64, front: &[u8], name: &[u8]) -> Result<(), Memory>
    ensures appended { OnOk result (out.new ≡ out.old ++ term_text number (front.now ++ name.now)) }
{
    if number == 0 {
        return Ok(());
    }
    let mut buffer = Buffer::new();
    out.push(b" ")?;
    out.push(buffer.format(number).as_bytes())?;
    out.push(b"*")?;
    out.push(front)?;
    out.push(name)
}

/// Appends the terms of numbers with the names of their columns.
pub fn put_terms(
    out: &mut Text,
    front: &[u8],
    numbers: &[i64],
    columns: &[Text],
) -> Result<(), Memory>
    ensures appended { OnOk result (out.new
        ≡ out.old ++ terms_text front.now numbers.now columns.now) }
{
    for (number, name) in numbers.iter().zip(columns) {
        put_term(out, *number, front, name.bytes())?;
    }
    Ok(())
}

/// Appends the terms of a matrix, row by row.
pub fn put_matrix(
    out: &mut Text,
    fronts: &[Text],
    columns: &[Text],
    matrix: &[List<i64>],
) -> Result<(), Memory>
    ensures appended { OnOk result (out.new
        ≡ out.old ++ matrix_text fronts.now columns.now matrix.now) }
{
    for (front, numbers) in fronts.iter().zip(matrix) {
        put_terms(out, front.bytes(), numbers.items(), columns)?;
    }
    Ok(())
}

/// Appends ` 0` where nothing stands behind the first `before` bytes.
pub fn put_zero(out: &mut Text, before: usize) -> Result<(), Memory>
    ensures appended { (old terms : Items ℕ) → length old ≡ before → out.old ≡ old ++ terms
        → OnOk result (out.new ≡ old ++ or_zero terms) }
{
    if out.bytes().len() == before {
        return out.push(b" 0");
    }
    Ok(())
}

/// Appends ` <= NUM` and the line's end.
pub fn put_limit(out: &mut Text, limit: i64) -> Result<(), Memory>
    ensures appended { OnOk result (out.new ≡ out.old ++ line (limit_text limit)) }
{
    let mut buffer = Buffer::new();
    out.push(b" <= ")?;
    out.push(buffer.format(limit).as_bytes())?;
    out.push(b"\n")
}
