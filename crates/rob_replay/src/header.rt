//! The header of a scenario file.

ghost use Rattle.std.specs.Prelude.{◌≡◌, map, IfOk, option_map, bytes_eq};
ghost use Rattle.csv.specs.Records.{fields_of};
ghost use Rattle.rob_meaning.specs.RobustModel.{Parameter};
ghost use Rattle.rob_model.specs.View.{parameter_of};
ghost use Rattle.rob_replay.specs.Headers.{place_from, places_in, header_places};

use csv::ByteRecord;
use rob_model::Param;
use rob_number::{Exact, List, Memory};
use std::alloc::Global;

/// Whether a field is the name.
fn is_name(field: &[u8], name: &[u8]) -> bool
    ensures same { result ≡ bytes_eq field.now name.now }
{
    field == name
}

/// The place of the first field that is the name.
fn place_of(header: &ByteRecord, name: &[u8]) -> Option<usize>
    ensures place { result ≡ place_from 0 (fields_of header.now) name.now }
{
    let len = header.len();
    for i in 0..len {
        match header.get(i) {
            None => return None,
            Some(field) => {
                if is_name(field, name) {
                    return Some(i);
                }
            }
        }
    }
    None
}

/// The place of each joint parameter's name, if each is there.
fn places_of<N: Exact>(
    alloc: Global,
    params: &[Param<N>],
    header: &ByteRecord,
) -> Result<Option<List<usize>>, Memory>
    ensures places { IfOk result (λ o. option_map (λ ks. ks) o ≡ places_in (fields_of header.now)
        (map (λ (d : Parameter). d.name) (map (parameter_of N.value) params.now))) }
{
    let mut places = List::new(alloc);
    for param in params {
        match place_of(header, param.name.bytes()) {
            None => return Ok(None),
            Some(place) => places.push(place)?,
        }
    }
    Ok(Some(places))
}

/// The place of each joint parameter, if the record is a header for them.
pub fn read_header<N: Exact>(
    alloc: Global,
    params: &[Param<N>],
    header: &ByteRecord,
) -> Result<Option<List<usize>>, Memory>
    ensures places { IfOk result (λ o. option_map (λ ks. ks) o
        ≡ header_places (fields_of header.now)
        (map (λ (d : Parameter). d.name) (map (parameter_of N.value) params.now))) }
{
    if params.is_empty() || header.len() != params.len() {
        return Ok(None);
    }
    places_of(alloc, params, header)
}
