//! The names of a line in its settings, and the words that grow by them. Each call says whether some name is too long:
//! none of these becomes a word.

ghost use Rattle.std.specs.Prelude.{◌≡◌, ◌∷◌, ◌||◌, fold, map, option_to_list, false, IfOk, OnOk};
ghost use Rattle.std.specs.List.{flat_map, list_any};
ghost use Rattle.rob_index.specs.Forms.{values_of};
ghost use Rattle.rob_index.specs.Rules.{is_long_name};
ghost use Rattle.rob_syntax.specs.Known.{texts};
ghost use Rattle.rob_expand.specs.Growing.{each_names, factors_names, item_names, line_names, over_at, parts_names, printed_at};
ghost use Rattle.rob_expand.specs.Growing as spec;
ghost use Rattle.rob_expand.specs.Names.{tree_names};
ghost use Rattle.rob_expand.specs.Placed.{placed_of};
ghost use Rattle.rob_settings.specs.Spots.{IsThin, IsThinAt, picks};
ghost use Rattle.rob_settings.specs.declared.spot.Spot.{Spot as SpecSpot};
ghost use Rattle.rob_ranges.specs.Spans.{Every};

use crate::inmost::inmost;
use crate::line::Line;
use crate::name::{add_name, add_name_inside};
use crate::placed::{Part, Placed};
use rob_number::Memory;
use rob_ranges::run::Run;
use rob_ranges::{Ends, Values, Whole};
use rob_settings::item::{Item, Named};
use rob_settings::settings::Setting;
use rob_settings::spot::{Spot, one_at};
use rob_syntax::Words;
use std::alloc::Global;

/// The names of a line in each of some settings.
pub fn grow_lines(
    alloc: Global,
    own: &Words,
    words: &mut Words,
    line: &Line,
    spots: &[Spot],
) -> Result<bool, Memory>
    requires thin { Every (IsThin line.now.items) spots.now }
    ensures words { OnOk result (texts words.new.keys ≡ fold spec.add_name (texts words.old.keys)
        (flat_map (λ (s : SpecSpot). line_names (texts own.now.keys) line.now s.values) spots.now)) }
    ensures long { IfOk result (λ long. long ≡ list_any is_long_name
        (flat_map (λ (s : SpecSpot). line_names (texts own.now.keys) line.now s.values) spots.now)) }
{
    let mut long = false;
    for spot in spots {
        let here = grow_line(
            alloc,
            own,
            words,
            line,
            spot.kept.items(),
            spot.values.items(),
        )?;
        long = either(long, here);
    }
    Ok(long)
}

/// The names of a line, where no items but those at these places have entries.
fn grow_line(
    alloc: Global,
    own: &Words,
    words: &mut Words,
    line: &Line,
    kept: &[usize],
    values: &[Whole],
) -> Result<bool, Memory>
    requires thin { IsThinAt false line.now.items kept.now values.now }
    ensures words { OnOk result (texts words.new.keys ≡ fold spec.add_name (texts words.old.keys)
        (line_names (texts own.now.keys) line.now values.now)) }
    ensures long { IfOk result (λ long. long
        ≡ list_any is_long_name (line_names (texts own.now.keys) line.now values.now)) }
{
    let head = grow_optional(alloc, own, words, &line.head, values)?;
    let trees = grow_trees(alloc, own, words, line.trees.items(), values)?;
    let items = grow_kept(alloc, own, words, line.items.items(), kept, values)?;
    let over = grow_optional(alloc, own, words, &line.over, values)?;
    let last = either(items, over);
    let behind = either(trees, last);
    let long = either(head, behind);
    Ok(long)
}

/// Whether one of two holds.
fn either(first: bool, second: bool) -> bool
    ensures either { result ≡ (first || second) }
{
    first || second
}

/// A name that may be missing.
fn grow_optional(
    alloc: Global,
    own: &Words,
    words: &mut Words,
    name: &Option<Named>,
    values: &[Whole],
) -> Result<bool, Memory>
    ensures words { OnOk result (texts words.new.keys ≡ fold spec.add_name (texts words.old.keys)
        (option_to_list (over_at (texts own.now.keys) name.now values.now))) }
    ensures long { IfOk result (λ long. long
        ≡ list_any is_long_name (option_to_list (over_at (texts own.now.keys) name.now values.now))) }
{
    match name {
        None => Ok(false),
        Some(name) => add_name(alloc, own, words, name, values),
    }
}

/// The names of some expressions.
fn grow_trees(
    alloc: Global,
    own: &Words,
    words: &mut Words,
    trees: &[Placed],
    values: &[Whole],
) -> Result<bool, Memory>
    ensures words { OnOk result (texts words.new.keys ≡ fold spec.add_name (texts words.old.keys)
        (flat_map (λ p. tree_names (printed_at (texts own.now.keys) (placed_of p) values.now)) trees.now)) }
    ensures long { IfOk result (λ long. long ≡ list_any is_long_name
        (flat_map (λ p. tree_names (printed_at (texts own.now.keys) (placed_of p) values.now)) trees.now)) }
{
    let mut long = false;
    for tree in trees {
        let here = grow_in(alloc, own, words, tree, values)?;
        long = either(long, here);
    }
    Ok(long)
}

/// The names of the items at some places.
fn grow_kept(
    alloc: Global,
    own: &Words,
    words: &mut Words,
    items: &[Item],
    kept: &[usize],
    values: &[Whole],
) -> Result<bool, Memory>
    ensures words { OnOk result (texts words.new.keys ≡ fold spec.add_name (texts words.old.keys)
        (flat_map (λ x. item_names (texts own.now.keys) x values.now) (picks items.now kept.now))) }
    ensures long { IfOk result (λ long. long ≡ list_any is_long_name
        (flat_map (λ x. item_names (texts own.now.keys) x values.now) (picks items.now kept.now))) }
{
    let mut long = false;
    for k in kept {
        let here = grow_items(alloc, own, words, one_at(items, *k), values)?;
        long = either(long, here);
    }
    Ok(long)
}

/// The names of some items, in each setting of their ranges.
fn grow_items(
    alloc: Global,
    own: &Words,
    words: &mut Words,
    items: &[Item],
    values: &[Whole],
) -> Result<bool, Memory>
    ensures words { OnOk result (texts words.new.keys ≡ fold spec.add_name (texts words.old.keys)
        (flat_map (λ x. item_names (texts own.now.keys) x values.now) items.now)) }
    ensures long { IfOk result (λ long. long
        ≡ list_any is_long_name (flat_map (λ x. item_names (texts own.now.keys) x values.now) items.now)) }
{
    let mut long = false;
    for item in items {
        let settings = item.ranges.settings(alloc, values)?;
        let here = grow_entries(alloc, own, words, &item.name, settings.items())?;
        long = either(long, here);
    }
    Ok(long)
}

/// A name in each of some settings.
fn grow_entries(
    alloc: Global,
    own: &Words,
    words: &mut Words,
    name: &Named,
    settings: &[Setting],
) -> Result<bool, Memory>
    ensures words { OnOk result (texts words.new.keys ≡ fold spec.add_name (texts words.old.keys)
        (map (spec.named_at (texts own.now.keys) name.now) settings.now)) }
    ensures long { IfOk result (λ long. long
        ≡ list_any is_long_name (map (spec.named_at (texts own.now.keys) name.now) settings.now)) }
{
    let mut long = false;
    for setting in settings {
        let here = add_name(alloc, own, words, name, setting.items())?;
        long = either(long, here);
    }
    Ok(long)
}

/// The names of an expression.
fn grow_in(
    alloc: Global,
    own: &Words,
    words: &mut Words,
    placed: &Placed,
    values: &[Whole],
) -> Result<bool, Memory>
    ensures words { OnOk result (texts words.new.keys ≡ fold spec.add_name (texts words.old.keys)
        (tree_names (printed_at (texts own.now.keys) (placed_of placed.now) values.now))) }
    ensures long { IfOk result (λ long. long
        ≡ list_any is_long_name (tree_names (printed_at (texts own.now.keys) (placed_of placed.now) values.now))) }
{
    let values = Values::of(alloc, values);
    grow_tree(alloc, own, words, placed, &values)
}

/// The same inside sums.
#[cycle(grow)]
fn grow_tree(
    alloc: Global,
    own: &Words,
    words: &mut Words,
    placed: &Placed,
    values: &Values,
) -> Result<bool, Memory>
    ensures words { OnOk result (texts words.new.keys ≡ fold spec.add_name (texts words.old.keys)
        (tree_names (printed_at (texts own.now.keys) (placed_of placed.now) values.now))) }
    ensures long { IfOk result (λ long. long
        ≡ list_any is_long_name (tree_names (printed_at (texts own.now.keys) (placed_of placed.now) values.now))) }
{
    match placed {
        Placed::Number(_) => Ok(false),
        Placed::Name(name) => add_name_inside(alloc, own, words, name, values),
        Placed::Sum(parts) => grow_parts(alloc, own, words, parts.items(), values),
        Placed::Product(factors) => grow_factors(alloc, own, words, factors.items(), values),
        Placed::Over(ends, inner) => grow_over(alloc, own, words, ends, inner, values),
    }
}

/// The names of the parts of a sum.
#[cycle(grow)]
fn grow_parts(
    alloc: Global,
    own: &Words,
    words: &mut Words,
    parts: &[Part],
    values: &Values,
) -> Result<bool, Memory>
    ensures words { OnOk result (texts words.new.keys ≡ fold spec.add_name (texts words.old.keys)
        (parts_names (texts own.now.keys) values.now parts.now)) }
    ensures long { IfOk result (λ long. long
        ≡ list_any is_long_name (parts_names (texts own.now.keys) values.now parts.now)) }
{
    let mut long = false;
    for part in parts {
        let here = grow_tree(alloc, own, words, &part.inner, values)?;
        long = either(long, here);
    }
    Ok(long)
}

/// The names of the factors of a product.
#[cycle(grow)]
fn grow_factors(
    alloc: Global,
    own: &Words,
    words: &mut Words,
    factors: &[Placed],
    values: &Values,
) -> Result<bool, Memory>
    ensures words { OnOk result (texts words.new.keys ≡ fold spec.add_name (texts words.old.keys)
        (factors_names (texts own.now.keys) values.now factors.now)) }
    ensures long { IfOk result (λ long. long
        ≡ list_any is_long_name (factors_names (texts own.now.keys) values.now factors.now)) }
{
    let mut long = false;
    for factor in factors {
        let here = grow_tree(alloc, own, words, factor, values)?;
        long = either(long, here);
    }
    Ok(long)
}

/// The names of a sum over the values of a range.
#[cycle(grow)]
fn grow_over(
    alloc: Global,
    own: &Words,
    words: &mut Words,
    ends: &Ends,
    inner: &Placed,
    values: &Values,
) -> Result<bool, Memory>
    ensures words { OnOk result (texts words.new.keys ≡ fold spec.add_name (texts words.old.keys)
        (each_names (texts own.now.keys) (placed_of inner.now) values.now (values_of ends.now values.now))) }
    ensures long { IfOk result (λ long. long ≡ list_any is_long_name
        (each_names (texts own.now.keys) (placed_of inner.now) values.now (values_of ends.now values.now))) }
{
    let mut long = false;
    let mut run = Run::inside(alloc, ends, values)?;
    'values: while let Some(value) = run.next(alloc)? {
        let here = grow_at(alloc, own, words, inner, &value, values)?;
        long = either(long, here);
    }
    Ok(long)
}

/// The names of an expression at a value of the range around it.
#[cycle(grow)]
fn grow_at(
    alloc: Global,
    own: &Words,
    words: &mut Words,
    inner: &Placed,
    value: &Whole,
    values: &Values,
) -> Result<bool, Memory>
    ensures words { OnOk result (texts words.new.keys ≡ fold spec.add_name (texts words.old.keys)
        (tree_names (printed_at (texts own.now.keys) (placed_of inner.now) (value.now ∷ values.now)))) }
    ensures long { IfOk result (λ long. long ≡ list_any is_long_name
        (tree_names (printed_at (texts own.now.keys) (placed_of inner.now) (value.now ∷ values.now)))) }
{
    let mut inside = values.with(alloc, value)?;
    match inner {
        Placed::Over(_, _) => {
            let last = inmost(alloc, inner, &mut inside)?;
            grow_tree(alloc, own, words, last, &inside)
        }
        _ => grow_tree(alloc, own, words, inner, &inside),
    }
}
