//! The rules 25, 26 and 27: whether some place of a statement breaks them, of 26 and 27 as far as a search finds it.

ghost use Rattle.std.specs.Prelude.{◌≡◌, ◌||◌, IfOk, OnOk};
ghost use Rattle.std.specs.List.{list_any};
ghost use Rattle.rob_index.specs.Places.{places};
ghost use Rattle.rob_index.specs.Rules.{has_great_digits, is_unknown};
ghost use Rattle.rob_index.specs.Search.{search_long, search_out, search_places};
ghost use Rattle.rob_syntax.specs.Seen.{seen_statement};
ghost use Rattle.rob_places.specs.Tests.{is_set, test_of};

use crate::test::{Task, Test};
use crate::walk;
use rob_number::Memory;
use rob_syntax::syntax::Indexed;
use std::alloc::Global;

/// Whether rule 25 is broken: a name in an index isn't that of a range around, or a range's own name is taken.
/// `declared` says of each word whether it is declared on an earlier line.
pub fn some_unknown(alloc: Global, declared: &[bool], statement: &Indexed) -> Result<bool, Memory>
    ensures found { IfOk result (λ found.
        found ≡ list_any (is_unknown (is_set declared.now)) (places (seen_statement statement.now))) }
{
    some_place(alloc, Test::Unknown, declared, statement)
}

/// Whether digits in an index are over 999, which breaks rule 27.
pub fn some_great_digits(alloc: Global, statement: &Indexed) -> Result<bool, Memory>
    ensures found { IfOk result (λ found. found
        ≡ list_any has_great_digits (places (seen_statement statement.now))) }
{
    some_place(alloc, Test::GreatDigits, &[], statement)
}

/// Whether a range is found to have more than 100 values, for what is left to be spent.
pub fn search_long(alloc: Global, statement: &Indexed, left: &mut u32) -> Result<bool, Memory>
    ensures found { IfOk result (λ found.
        found ≡ (search_places search_long (places (seen_statement statement.now)) left.old).found) }
    ensures left { OnOk result
        (left.new ≡ (search_places search_long (places (seen_statement statement.now)) left.old).left) }
{
    let task = Task {
        test: Test::SoughtLong,
        declared: &[],
    };
    walk::statement(alloc, &task, statement, left)
}

/// Whether digits in an index are over 999, or an index is found to be below 0 or over 999, for what may be spent.
pub fn some_out(alloc: Global, statement: &Indexed, effort: u32) -> Result<bool, Memory>
    ensures found { IfOk result (λ found. found
        ≡ (list_any has_great_digits (places (seen_statement statement.now))
        || (search_places search_out (places (seen_statement statement.now)) effort).found)) }
{
    let mut left = effort;
    let task = Task {
        test: Test::Out,
        declared: &[],
    };
    walk::statement(alloc, &task, statement, &mut left)
}

/// Whether some place is so, by a test that costs nothing.
fn some_place(
    alloc: Global,
    test: Test,
    declared: &[bool],
    statement: &Indexed,
) -> Result<bool, Memory>
    ensures found { IfOk result (λ found.
        found ≡ (search_places (test_of (is_set declared.now) test) (places (seen_statement statement.now)) 0).found) }
{
    let mut left = 0;
    let task = Task { test, declared };
    walk::statement(alloc, &task, statement, &mut left)
}
