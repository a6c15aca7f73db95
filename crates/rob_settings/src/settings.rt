//! The settings of ranges.

ghost use Rattle.std.specs.Prelude.{◌≡◌, ◌++◌, ◌∷◌, ◌≤◌, [], length, MatchResult, OnOk, IfOk, Some};
ghost use Rattle.rob_index.specs.Forms.{extensions};
ghost use Rattle.rob_settings.specs.Room.{left_of, HasStop};
ghost use Rattle.rob_settings.specs.Settings.{between};

use crate::live::first_live;
use crate::room::{Stop, spend};
use crate::setting::{copied, with_value};
use rob_number::{List, Memory};
use rob_ranges::reach::two_in_front;
use rob_ranges::run::successor;
use rob_ranges::small::value_inside;
use rob_ranges::{Ends, Whole};
use std::alloc::Global;

/// A setting: the values of the ranges around a place, the innermost first.
pub type Setting = List<Whole>;

/// The first and the last value of a range, at some values of those around it.
#[derive(Drop)]
struct EndValues {
    from: Whole,
    upto: Whole,
}

/// All settings of ranges, the outermost first, inside these values, the last range running fastest; or there are more
/// than `most`.
pub fn settings_of(
    alloc: Global,
    ranges: &[Ends],
    values: &[Whole],
    most: u32,
) -> Result<List<Setting>, Stop>
    ensures settings { IfOk result (λ settings. settings ≡ extensions ranges.now values.now) }
    ensures most { MatchResult result
        (λ _. length (extensions ranges.now values.now) ≤ most)
        (λ e. HasStop (left_of (length (extensions ranges.now values.now)) most) e) }
{
    let mut settings = List::new(alloc);
    append_settings(&mut settings, alloc, ranges, values, most)?;
    Ok(settings)
}

/// All settings of ranges. 2^32 or more are refused for want of memory.
pub fn all_settings(
    alloc: Global,
    ranges: &[Ends],
    values: &[Whole],
) -> Result<List<Setting>, Memory>
    ensures settings { IfOk result (λ settings. settings ≡ extensions ranges.now values.now) }
{
    match settings_of(alloc, ranges, values, u32::MAX) {
        Ok(settings) => Ok(settings),
        Err(_) => Err(Memory),
    }
}

/// Appends all settings, and answers what is left of the room for them.
#[cycle(walk)]
fn append_settings(
    settings: &mut List<Setting>,
    alloc: Global,
    ranges: &[Ends],
    values: &[Whole],
    room: u32,
) -> Result<u32, Stop>
    ensures appended { OnOk result (settings.new
        ≡ settings.old ++ extensions ranges.now values.now) }
    ensures left { MatchResult result
        (λ left. left_of (length (extensions ranges.now values.now)) room ≡ Some left)
        (λ e. HasStop (left_of (length (extensions ranges.now values.now)) room) e) }
{
    match ranges {
        [] => {
            let left = spend(1, room)?;
            settings.push(copied(alloc, values)?)?;
            Ok(left)
        }
        [range, inner @ ..] => {
            let from = range.from().value(alloc, values)?;
            let upto = range.upto().value(alloc, values)?;
            append_values(
                settings,
                alloc,
                EndValues { from, upto },
                inner,
                values,
                room,
            )
        }
    }
}

/// The same of a range with these ends, and of the ranges inside it. Values at which these have none are passed over.
#[cycle(walk)]
fn append_values(
    settings: &mut List<Setting>,
    alloc: Global,
    ends: EndValues,
    inner: &[Ends],
    values: &[Whole],
    room: u32,
) -> Result<u32, Stop>
    ensures appended { OnOk result (settings.new
        ≡ settings.old ++ between ends.from ends.upto inner.now values.now) }
    ensures left { MatchResult result
        (λ left. left_of (length (between ends.from ends.upto inner.now values.now)) room
        ≡ Some left)
        (λ e. HasStop
        (left_of (length (between ends.from ends.upto inner.now values.now)) room) e) }
{
    let EndValues { from, upto } = ends;
    let mut left = room;
    let mut value = from;
    'values: loop {
        if upto.is_less(alloc, &value)? {
            return Ok(left);
        }
        let Some(live) = first_live(alloc, &value, inner, values)? else {
            return Ok(left);
        };
        if upto.is_less(alloc, &live)? {
            return Ok(left);
        }
        left = append_at(settings, alloc, &live, inner, values, left)?;
        value = successor(alloc, &live)?;
    }
}

/// The same inside one value of a range. Where one range is left, no setting is made but those with a value of it.
#[cycle(walk)]
fn append_at(
    settings: &mut List<Setting>,
    alloc: Global,
    value: &Whole,
    inner: &[Ends],
    values: &[Whole],
    room: u32,
) -> Result<u32, Stop>
    ensures appended { OnOk result (settings.new
        ≡ settings.old ++ extensions inner.now (value.now ∷ values.now)) }
    ensures left { MatchResult result
        (λ left. left_of (length (extensions inner.now (value.now ∷ values.now))) room ≡ Some left)
        (λ e. HasStop (left_of (length (extensions inner.now (value.now ∷ values.now))) room) e) }
{
    match inner {
        [] => {
            let left = spend(1, room)?;
            settings.push(with_value(alloc, value, values)?)?;
            Ok(left)
        }
        [range] => {
            let from = value_inside(alloc, range.from(), value, values)?;
            let upto = value_inside(alloc, range.upto(), value, values)?;
            append_run(
                settings,
                alloc,
                EndValues { from, upto },
                value,
                values,
                room,
            )
        }
        _ => {
            let inside = with_value(alloc, value, values)?;
            append_settings(settings, alloc, inner, inside.items(), room)
        }
    }
}

/// The same of a range with these ends, in which no other one is, inside a value of the range around it.
fn append_run(
    settings: &mut List<Setting>,
    alloc: Global,
    ends: EndValues,
    around: &Whole,
    values: &[Whole],
    room: u32,
) -> Result<u32, Stop>
    ensures appended { OnOk result (settings.new
        ≡ settings.old ++ between ends.from ends.upto [] (around.now ∷ values.now)) }
    ensures left { MatchResult result
        (λ left. left_of (length (between ends.from ends.upto [] (around.now ∷ values.now))) room
        ≡ Some left)
        (λ e. HasStop
        (left_of (length (between ends.from ends.upto [] (around.now ∷ values.now))) room) e) }
{
    let EndValues { from, upto } = ends;
    let mut left = room;
    let mut value = from;
    'values: loop {
        if upto.is_less(alloc, &value)? {
            return Ok(left);
        }
        left = spend(1, left)?;
        settings.push(two_in_front(alloc, &value, around, values)?)?;
        value = successor(alloc, &value)?;
    }
}
