//! The rules 26 and 27 of a line: whether a range has more than 100 values, or an index is below 0 or over 999, in some
//! setting. Each setting is walked through: where the line fits, each has its token. Of two ranges beside each other
//! the values of the first at which the second has none are passed over. Inside a range that is too long nothing is
//! looked at. By hand, with `for i = 0 to 90`: in `sum(j = i to i + i: x[j])` nothing is found, since `j` has at most
//! 91 values; with `x[j + 900]` an index is out of bounds, and with `j = i to i + i + i` a range is too long.

ghost use Rattle.std.specs.Prelude.{◌≡◌, [], ◌∷◌, map, false, true, IfOk};
ghost use Rattle.std.specs.List.{list_any};
ghost use Rattle.rob_index.specs.Forms.{length_form, value_of};
ghost use Rattle.rob_index.specs.Places.{places};
ghost use Rattle.rob_index.specs.Rules.{is_long, is_out};
ghost use Rattle.rob_syntax.specs.Seen.{seen_statement};
ghost use Rattle.rob_expand.specs.Judging.{factors_found, index_found, indices_found, item_found, length_found, line_found, lines_found, optional_found, parts_found, range_found, ranges_found, tree_found, values_found, worst};
ghost use Rattle.rob_expand.specs.Judging as spec;
ghost use Rattle.rob_expand.specs.Placed.{factors_of, part_of, parts_of, placed_of};
ghost use Rattle.rob_settings.specs.Spots.{IsThinAt, picks};
ghost use Rattle.rob_ranges.specs.Spans.{Every};

use rob_expand::finding::Finding;
use rob_expand::inmost::inmost;
use rob_expand::line::Line;
use rob_expand::lines::line_of;
use rob_expand::name::GREATEST_INDEX;
use rob_expand::placed::{Part, Placed};
use rob_number::Memory;
use rob_ranges::run::{Run, successor};
use rob_ranges::{Ends, Form, Values, Whole};
use rob_settings::inner::Inner;
use rob_settings::item::{Item, Named};
use rob_settings::live::first_live;
use rob_settings::setting::with_value;
use rob_settings::settings::{Setting, all_settings};
use rob_settings::spot::{middle, one_at, thin_in, thin_places};
use rob_syntax::syntax::Indexed;
use std::alloc::Global;

/// How far the last value of a range is from its first at most where it has no more than 100 values.
const LONGEST: i64 = 99;

/// What is found of the ranges and the indices of a statement.
#[derive(Clone, Copy)]
pub struct Judged {
    /// A range has more than 100 values.
    pub long: bool,
    /// An index is below 0 or over 999, where no range has more than 100 values.
    pub out: bool,
}

/// What is found of a statement.
pub fn judge(alloc: Global, limit: u64, statement: &Indexed) -> Result<Judged, Memory>
    ensures long { IfOk result (λ judged. judged.long
        ≡ list_any is_long (places (seen_statement statement.now))) }
    ensures out { IfOk result (λ judged. judged.long ≡ false
        → judged.out ≡ list_any is_out (places (seen_statement statement.now))) }
{
    let (ranges, line) = line_of(alloc, limit, statement)?;
    let found = judge_statement(alloc, ranges.items(), &line)?;
    Ok(Judged {
        long: is_too_long(found),
        out: is_out_found(found),
    })
}

/// Whether a range is too long.
fn is_too_long(found: Finding) -> bool
    ensures is { result ≡ spec.is_too_long found }
{
    match found {
        Finding::Nothing | Finding::Out => false,
        Finding::TooLong => true,
    }
}

/// Whether an index is out of bounds.
fn is_out_found(found: Finding) -> bool
    ensures is { result ≡ spec.is_out_found found }
{
    match found {
        Finding::Nothing | Finding::TooLong => false,
        Finding::Out => true,
    }
}

/// The worse of two findings.
fn worse(first: Finding, second: Finding) -> Finding
    ensures worse { result ≡ spec.worse first second }
{
    match first {
        Finding::Nothing => second,
        Finding::TooLong => Finding::TooLong,
        Finding::Out => match second {
            Finding::Nothing | Finding::Out => Finding::Out,
            Finding::TooLong => Finding::TooLong,
        },
    }
}

/// The finding where some range is too long or none is, and some index is out of bounds or none is.
fn found_where(long: bool, out: bool) -> Finding
    ensures finding { result ≡ spec.finding long out }
{
    if long {
        Finding::TooLong
    } else if out {
        Finding::Out
    } else {
        Finding::Nothing
    }
}

/// Ranges, and a line in each of their settings.
fn judge_statement(alloc: Global, ranges: &[Ends], line: &Line) -> Result<Finding, Memory>
    ensures found { IfOk result (λ found. found ≡ lines_found ranges.now line.now) }
{
    let found = judge_ranges(alloc, ranges, &[])?;
    if is_too_long(found) {
        return Ok(found);
    }
    let settings = all_settings(alloc, ranges, &[])?;
    let kept = thin_places(alloc, true, line.items.items(), settings.items())?;
    let here = judge_lines(alloc, line, kept.items(), settings.items())?;
    Ok(worse(found, here))
}

/// Ranges, each inside those before it.
#[cycle(judge_ranges)]
fn judge_ranges(alloc: Global, ranges: &[Ends], values: &[Whole]) -> Result<Finding, Memory>
    ensures found { IfOk result (λ found. found ≡ ranges_found ranges.now values.now) }
{
    match ranges {
        [] => Ok(Finding::Nothing),
        [range] => judge_length(alloc, range, values),
        [range, inner @ ..] => judge_inner(alloc, range, inner, values),
    }
}

/// A range, and others inside it.
#[cycle(judge_ranges)]
fn judge_inner(
    alloc: Global,
    range: &Ends,
    inner: &[Ends],
    values: &[Whole],
) -> Result<Finding, Memory>
    ensures found { IfOk result (λ found.
        found ≡ range_found range.now (ranges_found inner.now) values.now) }
{
    let found = judge_length(alloc, range, values)?;
    if is_too_long(found) {
        return Ok(found);
    }
    let from = range.from().value(alloc, values)?;
    let upto = range.upto().value(alloc, values)?;
    let here = judge_values(alloc, from, &upto, inner, values)?;
    Ok(worse(found, here))
}

/// The ranges inside a range with these ends, at each of its values. Those at which they have none are passed over.
#[cycle(judge_ranges)]
fn judge_values(
    alloc: Global,
    from: Whole,
    upto: &Whole,
    inner: &[Ends],
    values: &[Whole],
) -> Result<Finding, Memory>
    ensures found { IfOk result (λ found. found ≡ values_found from upto.now inner.now values.now) }
{
    let mut found = Finding::Nothing;
    let mut value = from;
    'values: loop {
        let Some(live) = first_live(alloc, &value, inner, values)? else {
            return Ok(found);
        };
        if upto.is_less(alloc, &live)? {
            return Ok(found);
        }
        let inside = with_value(alloc, &live, values)?;
        let here = judge_ranges(alloc, inner, inside.items())?;
        found = worse(found, here);
        value = successor(alloc, &live)?;
    }
}

/// How long a range is.
fn judge_length(alloc: Global, range: &Ends, values: &[Whole]) -> Result<Finding, Memory>
    ensures found { IfOk result (λ found. found ≡ length_found range.now values.now) }
{
    let values = Values::of(alloc, values);
    judge_length_inside(alloc, range, &values)
}

/// The same inside sums.
fn judge_length_inside(alloc: Global, range: &Ends, values: &Values) -> Result<Finding, Memory>
    ensures found { IfOk result (λ found. found ≡ length_found range.now values.now) }
{
    let length = length_at(alloc, range, values)?;
    let most = Whole::small(alloc, LONGEST);
    let long = most.is_less(alloc, &length)?;
    Ok(found_where(long, false))
}

/// How far the last value of a range is from the first.
fn length_at(alloc: Global, range: &Ends, values: &Values) -> Result<Whole, Memory>
    ensures length { IfOk result (λ length. length ≡ value_of (length_form range.now) values.now) }
{
    let from = values.value_of(alloc, range.from())?;
    let upto = values.value_of(alloc, range.upto())?;
    let minus_one = Whole::small(alloc, -1);
    upto.plus_times(alloc, &minus_one, &from)
}

/// A line in each of some settings, where no items but those at these places have entries or a range that is too long.
/// The settings are parted, and in each part those places are left out that have neither there: so nothing is told of
/// the settings behind the first one where a range is too long.
fn judge_lines(
    alloc: Global,
    line: &Line,
    kept: &[usize],
    settings: &[Setting],
) -> Result<Finding, Memory>
    requires thin { Every (IsThinAt true line.now.items kept.now) settings.now }
    ensures found { IfOk result (λ found. found ≡ worst (line_found line.now) settings.now) }
{
    match settings {
        [] => Ok(Finding::Nothing),
        [setting] => judge_line(alloc, line, kept, setting.items()),
        _ => {
            let (front, behind) = settings.split_at(middle(settings));
            let items = line.items.items();
            let first = thin_in(alloc, true, items, kept, front)?;
            let found = judge_lines(alloc, line, first.items(), front)?;
            if is_too_long(found) {
                return Ok(found);
            }
            let second = thin_in(alloc, true, items, kept, behind)?;
            let here = judge_lines(alloc, line, second.items(), behind)?;
            Ok(worse(found, here))
        }
    }
}

/// A line, where no items but those at these places have entries or a range that is too long.
fn judge_line(
    alloc: Global,
    line: &Line,
    kept: &[usize],
    values: &[Whole],
) -> Result<Finding, Memory>
    requires thin { IsThinAt true line.now.items kept.now values.now }
    ensures found { IfOk result (λ found. found ≡ line_found line.now values.now) }
{
    let head = judge_optional(alloc, &line.head, values)?;
    let trees = judge_trees(alloc, line.trees.items(), values)?;
    let items = judge_kept(alloc, line.items.items(), kept, values)?;
    let over = judge_optional(alloc, &line.over, values)?;
    let last = worse(items, over);
    let behind = worse(trees, last);
    let found = worse(head, behind);
    Ok(found)
}

/// A name that may be missing.
fn judge_optional(alloc: Global, name: &Option<Named>, values: &[Whole]) -> Result<Finding, Memory>
    ensures found { IfOk result (λ found. found ≡ optional_found name.now values.now) }
{
    match name {
        None => Ok(Finding::Nothing),
        Some(name) => judge_indices(alloc, name.indices.items(), values),
    }
}

/// The indices of a name.
fn judge_indices(alloc: Global, indices: &[Form], values: &[Whole]) -> Result<Finding, Memory>
    ensures found { IfOk result (λ found. found ≡ indices_found indices.now values.now) }
{
    let values = Values::of(alloc, values);
    judge_indices_inside(alloc, indices, &values)
}

/// The same inside sums.
fn judge_indices_inside(alloc: Global, indices: &[Form], values: &Values) -> Result<Finding, Memory>
    ensures found { IfOk result (λ found. found ≡ indices_found indices.now values.now) }
{
    let mut found = Finding::Nothing;
    for index in indices {
        let here = judge_index(alloc, index, values)?;
        found = worse(found, here);
    }
    Ok(found)
}

/// An index.
fn judge_index(alloc: Global, index: &Form, values: &Values) -> Result<Finding, Memory>
    ensures found { IfOk result (λ found. found ≡ index_found index.now values.now) }
{
    let value = values.value_of(alloc, index)?;
    let out = is_outside(alloc, &value)?;
    Ok(found_where(false, out))
}

/// Whether a number is below 0 or over 999.
fn is_outside(alloc: Global, value: &Whole) -> Result<bool, Memory>
    ensures outside { IfOk result (λ outside. outside ≡ spec.is_outside value.now) }
{
    let most = Whole::small(alloc, GREATEST_INDEX);
    let over = most.is_less(alloc, value)?;
    let below = value.is_negative();
    Ok(below || over)
}

/// Some expressions.
fn judge_trees(alloc: Global, trees: &[Placed], values: &[Whole]) -> Result<Finding, Memory>
    ensures found { IfOk result (λ found. found
        ≡ worst (λ t. tree_found (placed_of t) values.now) trees.now) }
{
    let mut found = Finding::Nothing;
    for tree in trees {
        let here = judge_in(alloc, tree, values)?;
        found = worse(found, here);
    }
    Ok(found)
}

/// The items at some places.
fn judge_kept(
    alloc: Global,
    items: &[Item],
    kept: &[usize],
    values: &[Whole],
) -> Result<Finding, Memory>
    ensures found { IfOk result (λ found.
        found ≡ worst (λ x. item_found x values.now) (picks items.now kept.now)) }
{
    let mut found = Finding::Nothing;
    for k in kept {
        let here = judge_items(alloc, one_at(items, *k), values)?;
        found = worse(found, here);
        if is_too_long(found) {
            return Ok(found);
        }
    }
    Ok(found)
}

/// Some items.
fn judge_items(alloc: Global, items: &[Item], values: &[Whole]) -> Result<Finding, Memory>
    ensures found { IfOk result (λ found. found ≡ worst (λ x. item_found x values.now) items.now) }
{
    let mut found = Finding::Nothing;
    for item in items {
        let here = judge_item(alloc, item, values)?;
        found = worse(found, here);
        if is_too_long(found) {
            return Ok(found);
        }
    }
    Ok(found)
}

/// An item: its ranges, and its name in each of their settings.
fn judge_item(alloc: Global, item: &Item, values: &[Whole]) -> Result<Finding, Memory>
    ensures found { IfOk result (λ found. found ≡ item_found item.now values.now) }
{
    if item.ranges.is_quiet_at(values) {
        return Ok(Finding::Nothing);
    }
    let found = judge_lengths(alloc, &item.ranges, values)?;
    if is_too_long(found) {
        return Ok(found);
    }
    let settings = item.ranges.settings(alloc, values)?;
    let here = judge_entries(alloc, item.name.indices.items(), settings.items())?;
    Ok(worse(found, here))
}

/// How long the ranges of an item are. Where the lengths tell that none is too long, no value is put in.
fn judge_lengths(alloc: Global, ranges: &Inner, values: &[Whole]) -> Result<Finding, Memory>
    ensures found { IfOk result (λ found. found ≡ ranges_found ranges.now values.now) }
{
    if ranges.is_short_at(values) {
        Ok(Finding::Nothing)
    } else {
        judge_ranges(alloc, ranges.ranges(), values)
    }
}

/// The indices of a name in each of some settings.
fn judge_entries(alloc: Global, indices: &[Form], settings: &[Setting]) -> Result<Finding, Memory>
    ensures found { IfOk result (λ found. found ≡ worst (indices_found indices.now) settings.now) }
{
    let mut found = Finding::Nothing;
    for setting in settings {
        let here = judge_indices(alloc, indices, setting.items())?;
        found = worse(found, here);
    }
    Ok(found)
}

/// An expression.
fn judge_in(alloc: Global, placed: &Placed, values: &[Whole]) -> Result<Finding, Memory>
    ensures found { IfOk result (λ found. found ≡ tree_found (placed_of placed.now) values.now) }
{
    let values = Values::of(alloc, values);
    judge_tree(alloc, placed, &values)
}

/// The same inside sums.
#[cycle(judge_tree)]
fn judge_tree(alloc: Global, placed: &Placed, values: &Values) -> Result<Finding, Memory>
    ensures found { IfOk result (λ found. found ≡ tree_found (placed_of placed.now) values.now) }
{
    match placed {
        Placed::Number(_) => Ok(Finding::Nothing),
        Placed::Name(name) => judge_indices_inside(alloc, name.indices.items(), values),
        Placed::Sum(parts) => judge_parts(alloc, parts.items(), values),
        Placed::Product(factors) => judge_factors(alloc, factors.items(), values),
        Placed::Over(ends, inner) => judge_over(alloc, ends, inner, values),
    }
}

/// The parts of a sum.
#[cycle(judge_tree)]
fn judge_parts(alloc: Global, parts: &[Part], values: &Values) -> Result<Finding, Memory>
    ensures found { IfOk result (λ found. found
        ≡ parts_found (parts_of (map part_of parts.now)) values.now) }
{
    let mut found = Finding::Nothing;
    for part in parts {
        let here = judge_tree(alloc, &part.inner, values)?;
        found = worse(found, here);
    }
    Ok(found)
}

/// The factors of a product.
#[cycle(judge_tree)]
fn judge_factors(alloc: Global, factors: &[Placed], values: &Values) -> Result<Finding, Memory>
    ensures found { IfOk result (λ found.
        found ≡ factors_found (factors_of (map placed_of factors.now)) values.now) }
{
    let mut found = Finding::Nothing;
    for factor in factors {
        let here = judge_tree(alloc, factor, values)?;
        found = worse(found, here);
    }
    Ok(found)
}

/// A range, and an expression at each of its values.
#[cycle(judge_tree)]
fn judge_over(
    alloc: Global,
    ends: &Ends,
    inner: &Placed,
    values: &Values,
) -> Result<Finding, Memory>
    ensures found { IfOk result (λ found.
        found ≡ range_found ends.now (tree_found (placed_of inner.now)) values.now) }
{
    let mut found = judge_length_inside(alloc, ends, values)?;
    if is_too_long(found) {
        return Ok(found);
    }
    let mut run = Run::inside(alloc, ends, values)?;
    'values: while let Some(value) = run.next(alloc)? {
        let here = judge_at(alloc, inner, &value, values)?;
        found = worse(found, here);
    }
    Ok(found)
}

/// An expression at a value of the range around it.
#[cycle(judge_tree)]
fn judge_at(
    alloc: Global,
    inner: &Placed,
    value: &Whole,
    values: &Values,
) -> Result<Finding, Memory>
    ensures found { IfOk result (λ found.
        found ≡ tree_found (placed_of inner.now) (value.now ∷ values.now)) }
{
    let mut inside = values.with(alloc, value)?;
    match inner {
        Placed::Over(_, _) => {
            let last = inmost(alloc, inner, &mut inside)?;
            judge_tree(alloc, last, &inside)
        }
        _ => judge_tree(alloc, inner, &inside),
    }
}
