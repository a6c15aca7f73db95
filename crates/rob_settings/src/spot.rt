//! Settings, each with the items of a list that aren't idle there. An item is left out for all settings of a span at
//! once, where the greatest lengths of its ranges tell that it has none there; the settings are parted until one is
//! left. So an item without a setting isn't asked for in each. An item that has to be short to be idle isn't left out
//! where a range of it is too long, though it has no setting there.

ghost use Rattle.std.specs.Prelude.{◌≡◌, ◌<◌, ◌++◌, ℤ, length, [], ◌∷◌, List as Items, map, IfOk, IfSome, IsTrue, OnOk, false, if◌then◌else◌};
ghost use Rattle.rob_settings.specs.declared.spot.Spot.{Spot as SpecSpot};
ghost use Rattle.rob_ranges.specs.Spans.{Every, IsIn};
ghost use Rattle.rob_settings.specs.Spots.{IsThin, IsThinAt, busy, pick, picks};
ghost use Rattle.rob_settings.specs.Spots as spec;

use crate::around;
use crate::item::Item;
use crate::setting::copied;
use crate::settings::Setting;
use rob_number::{List, Memory};
use rob_ranges::Whole;
use rob_ranges::short::pair_of;
use rob_ranges::span::{Span, span_of};
use std::alloc::Global;

/// So many settings are tried at once also where they don't have the same value of the range around the innermost.
const MANY: usize = 128;

/// A setting, and the places of the items of a list that may have entries there.
#[derive(Drop)]
pub struct Spot {
    pub values: Setting,
    pub kept: List<usize>,
}

/// Each of some settings, with such items.
pub fn spots_of(alloc: Global, items: &[Item], settings: &[Setting]) -> Result<List<Spot>, Memory>
    ensures values { IfOk result (λ spots. map (λ (s : SpecSpot). s.values) spots ≡ settings.now) }
    ensures thin { IfOk result (λ spots. Every (IsThin items.now) spots) }
{
    let mut spots = List::new(alloc);
    let kept = thin_places(alloc, false, items, settings)?;
    append_spots(&mut spots, alloc, items, kept.items(), settings)?;
    Ok(spots)
}

/// The places of all items but some that are idle in all of these settings.
pub fn thin_places(
    alloc: Global,
    short: bool,
    items: &[Item],
    settings: &[Setting],
) -> Result<List<usize>, Memory>
    ensures thin { IfOk result (λ places. Every (IsThinAt short items.now places) settings.now) }
{
    let all = all_places(alloc, items)?;
    thin_in(alloc, short, items, all.items(), settings)
}

/// The places of all items.
fn all_places(alloc: Global, items: &[Item]) -> Result<List<usize>, Memory>
    ensures all { IfOk result (λ places. picks items.now places ≡ items.now) }
{
    let mut places = List::new(alloc);
    let mut k = 0;
    'upwards: while k < items.len() {
        places.push(k)?;
        k += 1;
    }
    Ok(places)
}

/// Appends each of some settings, in which no items but those at these places have entries.
fn append_spots(
    spots: &mut List<Spot>,
    alloc: Global,
    items: &[Item],
    kept: &[usize],
    settings: &[Setting],
) -> Result<(), Memory>
    requires done { Every (IsThin items.now) spots.old }
    requires kept { Every (IsThinAt false items.now kept.now) settings.now }
    ensures values { OnOk result (map (λ (s : SpecSpot). s.values) spots.new
        ≡ map (λ (s : SpecSpot). s.values) spots.old ++ settings.now) }
    ensures thin { OnOk result (Every (IsThin items.now) spots.new) }
{
    match settings {
        [] => Ok(()),
        [setting] => append_spot(spots, alloc, kept, setting.items()),
        _ => {
            let (front, behind) = settings.split_at(middle(settings));
            let first = thin_in(alloc, false, items, kept, front)?;
            append_spots(spots, alloc, items, first.items(), front)?;
            let second = thin_in(alloc, false, items, kept, behind)?;
            append_spots(spots, alloc, items, second.items(), behind)
        }
    }
}

/// Appends a setting with these places.
fn append_spot(
    spots: &mut List<Spot>,
    alloc: Global,
    kept: &[usize],
    values: &[Whole],
) -> Result<(), Memory>
    ensures appended { OnOk result (spots.new
        ≡ spots.old ++ record { values = values.now; kept = kept.now } ∷ []) }
{
    let values = copied(alloc, values)?;
    let kept = around::copied(alloc, kept)?;
    spots.push(Spot { values, kept })
}

/// Those of these places whose items aren't known to be idle in all of these settings.
pub fn thin_in(
    alloc: Global,
    short: bool,
    items: &[Item],
    kept: &[usize],
    settings: &[Setting],
) -> Result<List<usize>, Memory>
    requires kept { Every (IsThinAt short items.now kept.now) settings.now }
    ensures thin { IfOk result (λ thin. Every (IsThinAt short items.now thin) settings.now) }
{
    match span_for(kept, settings) {
        None => around::copied(alloc, kept),
        Some(span) => busy_places(alloc, short, items, kept, span),
    }
}

/// A span that has these settings, where it is worth while to try a place there.
fn span_for(kept: &[usize], settings: &[Setting]) -> Option<Span>
    ensures span { IfSome result (λ span. Every (IsIn span) settings.now) }
{
    if kept.is_empty() || (settings.len() < MANY && !is_row(settings)) {
        return None;
    }
    span_of(settings)
}

/// Where some settings are parted: where a row begins, near the middle; or in the middle of a row.
pub fn middle(settings: &[Setting]) -> usize
    requires some { 1 < length settings.now }
    ensures front { 0 < result }
    ensures behind { result < length settings.now }
{
    let half = settings.len() / 2;
    if is_row(settings) {
        return half;
    }
    let mut upwards = half;
    let mut downwards = half;
    'apart: while upwards < settings.len() {
        if !is_row(&settings[half - 1..upwards + 1]) {
            return upwards;
        }
        upwards += 1;
        if downwards > 0 {
            if !is_row(&settings[downwards - 1..half + 1]) {
                return downwards;
            }
            downwards -= 1;
        }
    }
    half
}

/// Whether the first of some settings and the last have the same value of the range around the innermost: then a form
/// is greatest at one of them.
fn is_row(settings: &[Setting]) -> bool {
    match settings {
        [first, .., last] => match (pair_of(first.items()), pair_of(last.items())) {
            (Some(first), Some(last)) => {
                first.second.low == last.second.low && first.second.high == last.second.high
            }
            _ => false,
        },
        _ => true,
    }
}

/// Those of these places whose items aren't known to be idle in all settings of a span.
fn busy_places(
    alloc: Global,
    short: bool,
    items: &[Item],
    kept: &[usize],
    span: Span,
) -> Result<List<usize>, Memory>
    ensures busy { IfOk result (λ places. (vs : Items ℤ) → IsIn span vs
        → busy short (picks items.now places) vs ≡ busy short (picks items.now kept.now) vs) }
{
    let mut places = List::new(alloc);
    for k in kept {
        let idle = are_idle(short, one_at(items, *k), span);
        push_unless(&mut places, idle, *k)?;
    }
    Ok(places)
}

/// The item at a place, if there is one.
#[inline(always)]
pub fn one_at(items: &[Item], k: usize) -> &[Item]
    ensures one { result.now ≡ pick items.now k }
{
    if k < items.len() {
        &items[k..k + 1]
    } else {
        &[]
    }
}

/// Whether the lengths tell that the only one of these items is idle in all settings of a span.
#[inline(always)]
fn are_idle(short: bool, items: &[Item], span: Span) -> bool
    ensures idle { IsTrue result → (vs : Items ℤ) → IsIn span vs → busy short items.now vs ≡ [] }
{
    match items {
        [item] => is_idle(short, item, span),
        _ => false,
    }
}

/// The same of an item.
#[inline(always)]
fn is_idle(short: bool, item: &Item, span: Span) -> bool
    ensures idle { IsTrue result → (vs : Items ℤ) → IsIn span vs
        → IsTrue (spec.is_idle short item.now vs) }
{
    if short {
        item.ranges.is_quiet_in(span)
    } else {
        item.ranges.is_empty_in(span)
    }
}

/// Appends a place, unless its item is idle.
#[inline(always)]
fn push_unless(places: &mut List<usize>, idle: bool, k: usize) -> Result<(), Memory>
    ensures pushed { OnOk result (places.new ≡ places.old ++ (if idle then [] else k ∷ [])) }
{
    if idle {
        return Ok(());
    }
    places.push(k)
}
