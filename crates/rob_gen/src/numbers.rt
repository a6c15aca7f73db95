//! Small whole numbers, the centres of demands, numbered names and lists of places.

ghost use Rattle.std.specs.Prelude.{◌≡◌, ◌≤◌, ◌<◌, ◌+◌, IfOk};
ghost use Rattle.rob_number.specs.Counts.{CountsOnly};
ghost use Rattle.rob_meaning.specs.Places.{tabulate};
ghost use Rattle.rob_gen.specs.Generated as defined;

use itoa::Buffer;
use rob_number::{Exact, Ledger, List, Memory, Text};
use std::alloc::Global;

/// A whole number, which fits.
pub fn whole<N: Exact, L: Ledger>(number: u32, ledger: &mut L) -> N
    requires fits { number ≤ N.limit }
    ensures value { N.value result ≡ defined.whole number }
    ensures counted { CountsOnly L.ops L.wides ledger.old ledger.new }
{
    match N::from_parts(number as i64, 1, ledger) {
        Ok(whole) => whole,
        Err(_) => unreachable!(),
    }
}

/// The centre of a period's demand; periods count from 1.
pub fn centre(n: u32, period: u32) -> u32
    ensures centre { result ≡ defined.centre n period }
    ensures within { (10 ≤ result) × (result ≤ 12) }
{
    10 + ((n as u64 + period as u64) % 3) as u32
}

/// A word with a number in decimal digits behind it.
pub fn numbered(alloc: Global, word: &[u8], number: u32) -> Result<Text, Memory>
    ensures name { IfOk result (λ name. name ≡ defined.numbered word.now number) }
{
    let mut name = Text::new(alloc);
    let mut buffer = Buffer::new();
    name.push(word)?;
    name.push(buffer.format(number).as_bytes())?;
    Ok(name)
}

/// The first places, from 0.
pub fn places(alloc: Global, count: u32) -> Result<List<u32>, Memory>
    ensures list { IfOk result (λ list. list ≡ defined.places count) }
{
    let mut list = List::new(alloc);
    for place in 0..count {
        list.push(place)?;
    }
    Ok(list)
}

/// The default set, for each of so many things.
pub fn default_sets(alloc: Global, count: u32) -> Result<List<u32>, Memory>
    ensures list { IfOk result (λ list. list ≡ tabulate count (λ _. 0)) }
{
    let mut list = List::new(alloc);
    for _ in 0..count {
        list.push(0)?;
    }
    Ok(list)
}
