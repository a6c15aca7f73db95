//! A sink in memory with fixed room, whose puts fail where a test wants it.

ghost use Rattle.std.specs.Prelude.{◌≡◌, ◌+◌, ◌≤◌, min, [], ◌∷◌, ◌++◌, length, take, IsOk, IfOk, OnOk, OnErr, MatchBool, vec_capacity};
ghost use Rattle.rob_outside.specs.MemSink.{accepts, after_put, empty_sink, first_of};
ghost use Rattle.rob_outside.specs.Taken.{Takes};

use crate::note::PutNote;
use crate::sink::{Sink, SinkErr};
use rob_number::{List, Memory};
use std::alloc::Global;
use std::marker::Model;

/// A put that fails.
#[derive(Debug, Drop)]
struct FailingPut {
    /// Its number, counted from 1.
    call: u64,
    /// How many of the bytes that fit it takes first.
    first: usize,
}

impl Model for FailingPut {
    ghost use Rattle.rob_outside.specs.MemSink.{FailingPut as PlainPut};

    ghost Value = { PlainPut };

    ghost view = { λ put. record { call = put.call; first = put.first } };
}

/// Output kept in memory, up to a fixed number of bytes.
pub struct MemSink {
    room: usize,
    failing: List<FailingPut>,
    bytes: Vec<u8>,
    calls: u64,
    puts: PutNote,
    faults: u64,
}

impl Drop for MemSink {
    /// Lets go of it in one call. A derived drop would stand in each function that does.
    fn drop(self) {
        let MemSink {
            room: _room,
            failing: _failing,
            bytes: _bytes,
            calls: _calls,
            puts: _puts,
            faults: _faults,
        } = self;
    }
}

impl Model for MemSink {
    ghost use Rattle.std.specs.Prelude.{◌≤◌, length, vec_capacity};
    ghost use Rattle.rob_outside.specs.MemSink.{SinkState};

    ghost Value = { SinkState };

    ghost view = { λ sink. record {
      room = sink.room;
      failing = sink.failing;
      bytes = sink.bytes.items;
      calls = sink.calls;
      puts = sink.puts.puts;
      faults = sink.faults;
    } };

    // The room was taken at the start, so no put takes memory.
    ghost invariant = { λ sink.
        (length sink.bytes.items ≤ sink.room) × (sink.room ≤ vec_capacity sink.bytes) };
}

impl MemSink {
    /// A sink with room for so many bytes, that took nothing and fails only for want of room.
    pub fn new(alloc: Global, room: usize) -> Result<MemSink, Memory>
        ensures empty { IfOk result (λ sink. sink ≡ empty_sink room) }
    {
        let bytes = Vec::with_capacity(alloc, room)?;
        Ok(MemSink {
            room,
            failing: List::new(alloc),
            bytes,
            calls: 0,
            puts: PutNote::new(),
            faults: 0,
        })
    }

    /// Lets the put of that number fail, after the first `first` of the bytes that fit. Puts count from 1, over the
    /// whole life of the sink. Of two entries for one put the first counts.
    pub fn fail_at(&mut self, call: u64, first: usize) -> Result<(), Memory>
        ensures listed { OnOk result (self.new ≡ record self.old {
          failing = self.old.failing ++ record { call = call; first = first } ∷ [];
        }) }
        ensures unchanged { OnErr result (self.new ≡ self.old) }
    {
        self.failing.push(FailingPut { call, first })
    }

    /// The bytes taken so far, in order.
    pub fn bytes(&self) -> &[u8]
        ensures list { result.now ≡ self.now.bytes }
        ensures within { length result.now ≤ self.now.room }
    {
        self.bytes.as_slice()
    }

    /// The number of puts so far. A count at `u64::MAX` stands.
    pub fn calls(&self) -> u64
        ensures count { result ≡ self.now.calls }
    {
        self.calls
    }
}

impl Sink for MemSink {
    ghost taken = { λ sink. sink.bytes };

    ghost puts = { λ sink. sink.puts };

    ghost faults = { λ sink. sink.faults };

    /// It takes no memory, and never answers `Memory`.
    fn put(&mut self, piece: &[u8]) -> Result<(), SinkErr>
        ensures took { Takes self.old.bytes self.new.bytes piece.now result }
        ensures after { self.new ≡ after_put self.old piece.now }
        ensures fault { MatchBool (accepts self.old piece.now)
            (IsOk result) (result ≡ Err SinkErr.Failed) }
    {
        self.calls = self.calls.saturating_add(1);
        let free = self.room - self.bytes.len();
        let failing = first_bytes(self.failing.items(), self.calls);
        append(&mut self.bytes, piece, failing.unwrap_or(free).min(free));
        let whole = failing.is_none() && piece.len() <= free;
        self.puts.note(piece, whole);
        if whole {
            return Ok(());
        }
        self.faults = self.faults.saturating_add(1);
        Err(SinkErr::Failed)
    }
}

/// How many bytes the put of that number takes before it fails, if it is one that fails.
fn first_bytes(failing: &[FailingPut], call: u64) -> Option<usize>
    ensures first { result ≡ first_of call failing.now }
{
    for put in failing {
        if put.call == call {
            return Some(put.first);
        }
    }
    None
}

/// Appends the first bytes of the piece, at most `most`, for which there is room.
fn append(bytes: &mut Vec<u8>, piece: &[u8], most: usize)
    requires room { length bytes.old.items + min most (length piece.now) ≤ vec_capacity bytes.old }
    ensures appended { bytes.new.items ≡ bytes.old.items ++ take most piece.now }
    ensures room { vec_capacity bytes.old ≤ vec_capacity bytes.new }
{
    let count = most.min(piece.len());
    match bytes.extend_from_slice(&piece[..count]) {
        Ok(()) => {}
        Err(_) => unreachable!(),
    }
}
