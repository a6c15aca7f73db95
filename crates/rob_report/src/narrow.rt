//! How large the numbers of a program's rows can become, as it is printed.

ghost use Rattle.std.specs.Prelude.{◌≡◌, ◌++◌, OnOk};
ghost use Rattle.rob_report.specs.NarrowText.{bound_line, bound_words, narrow_line};

use rob_cert::spelling::put_count;
use rob_number::{Memory, Text};

/// Appends the line of a program: `PROGRAM rows M greatest A bound X`, with the number of its rows, the greatest size
/// of its numbers, and the bound, or `wide` where there is none.
pub fn put_bound(
    program: &[u8],
    rows: u64,
    greatest: u64,
    bound: Option<u64>,
    out: &mut Text,
) -> Result<(), Memory>
    ensures appended { OnOk result (out.new
        ≡ out.old ++ bound_line program.now rows greatest bound) }
{
    out.push(program)?;
    out.push(b" rows ")?;
    put_count(out, rows)?;
    out.push(b" greatest ")?;
    put_count(out, greatest)?;
    out.push(b" bound ")?;
    put_bound_word(bound, out)?;
    out.push(b"\n")
}

/// Appends the last line: `narrow yes`, or `narrow no`.
pub fn put_narrow(narrow: bool, out: &mut Text) -> Result<(), Memory>
    ensures appended { OnOk result (out.new ≡ out.old ++ narrow_line narrow) }
{
    out.push(if narrow {
        b"narrow yes\n"
    } else {
        b"narrow no\n"
    })
}

/// Appends the bound, or `wide` where there is none.
fn put_bound_word(bound: Option<u64>, out: &mut Text) -> Result<(), Memory>
    ensures appended { OnOk result (out.new ≡ out.old ++ bound_words bound) }
{
    match bound {
        Some(bound) => put_count(out, bound),
        None => out.push(b"wide"),
    }
}
