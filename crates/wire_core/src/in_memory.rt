//! Sources and sinks over memory.

ghost use Rattle.std.specs.Prelude.{◌≡◌, ◌+◌, ◌≤◌, ◌++◌, [], length, take, max, min, true, false, Some, None, IfOk};
ghost use Rattle.wire_core.specs.Counts.{Counts};
ghost use Rattle.wire_core.specs.Source.{GotReads, IsAtEnd, IsEnd, GotFailed};
ghost use Rattle.wire_core.specs.Sink.{PutWrites, PutFailed};
ghost use Rattle.wire_core.specs.Forms.{is_listed, next_answer, planned_answer};

use crate::memory::NoMemory;
use crate::outside::{Got, Put, Sink, Source};
use std::alloc::Global;
use std::marker::Model;

/// A source over memory that never fails.
#[derive(Drop)]
pub struct SteadySource {
    octets: Vec<u8>,
    place: usize,
    piece: usize,
    ends: u64,
}

impl Model for SteadySource {
    ghost use Rattle.std.specs.Prelude.{◌≤◌, ◌<◌, drop, length};
    ghost use Rattle.wire_core.specs.Forms.{Steady};

    ghost Value = { Steady };

    ghost view = { λ s. record { left = drop s.place s.octets.items; piece = s.piece; ends = s.ends } };

    ghost invariant = { λ s. (s.place ≤ length s.octets.items) × (0 < s.piece) };
}

impl SteadySource {
    /// A source of these octets, of which a read gives at most `piece`, and at least one while any is left.
    pub fn new(alloc: Global, octets: &[u8], piece: usize) -> Result<SteadySource, NoMemory>
        ensures { IfOk result
            (λ s. s ≡ record { left = octets.now; piece = max piece 1; ends = 0 }) }
    {
        Ok(SteadySource {
            octets: Vec::from_slice(alloc, octets)?,
            place: 0,
            piece: piece.max(1),
            ends: 0,
        })
    }
}

impl Source for SteadySource {
    ghost left = { λ s. Some s.left };

    ghost faults = { λ _. 0 };

    ghost ends = { λ s. s.ends };

    fn read(&mut self, buf: &mut [u8]) -> Got
        ensures answer { result ≡ next_answer self.old.left self.old.piece (length buf.old) }
        ensures piece { self.new.piece ≡ self.old.piece }
        ensures reads { GotReads result (Some self.old.left) (Some self.new.left) buf.new }
        ensures end { IsEnd result (length buf.old) → IsAtEnd (Some self.old.left) }
        ensures counts_ends { Counts (IsEnd result (length buf.old)) self.old.ends self.new.ends }
        ensures counts_faults { Counts (GotFailed result) 0 0 }
    {
        let rest = self.octets.len() - self.place;
        if rest == 0 {
            self.ends = self.ends.saturating_add(1);
            return Got::End;
        }
        let count = rest.min(self.piece).min(buf.len());
        let start = self.place;
        buf[..count].copy_from_slice(&self.octets[start..start + count]);
        self.place += count;
        Got::Bytes(count)
    }
}

/// A source over memory, some of whose reads fail.
#[derive(Drop)]
pub struct MemorySource {
    source: SteadySource,
    failing: Vec<usize>,
    calls: usize,
    faults: u64,
}

impl Model for MemorySource {
    ghost use Rattle.wire_core.specs.Forms.{Planned};

    ghost Value = { Planned };

    ghost view = { λ s. record { source = s.source; failing = s.failing.items; calls = s.calls; faults = s.faults } };
}

impl MemorySource {
    /// A source of these octets, of which a read gives at most `piece`, and at least one while any is left.
    /// The reads whose numbers are in `failing`, counted from 0, fail.
    pub fn new(
        alloc: Global,
        octets: &[u8],
        piece: usize,
        failing: &[usize],
    ) -> Result<MemorySource, NoMemory>
        ensures { IfOk result (λ s. s ≡ record {
          source = record { left = octets.now; piece = max piece 1; ends = 0 };
          failing = failing.now;
          calls = 0;
          faults = 0;
        }) }
    {
        Ok(MemorySource {
            source: SteadySource::new(alloc, octets, piece)?,
            failing: Vec::from_slice(alloc, failing)?,
            calls: 0,
            faults: 0,
        })
    }
}

impl Source for MemorySource {
    ghost left = { λ s. Some s.source.left };

    ghost faults = { λ s. s.faults };

    ghost ends = { λ s. s.source.ends };

    fn read(&mut self, buf: &mut [u8]) -> Got
        ensures answer { result ≡ planned_answer self.old (length buf.old) }
        ensures plan { (self.new.failing ≡ self.old.failing)
            × (self.new.calls ≡ min (self.old.calls + 1) usize.MAX) }
        ensures piece { self.new.source.piece ≡ self.old.source.piece }
        ensures reads { GotReads result (Some self.old.source.left) (Some self.new.source.left)
            buf.new }
        ensures end { IsEnd result (length buf.old) → IsAtEnd (Some self.old.source.left) }
        ensures counts_ends { Counts (IsEnd result (length buf.old)) self.old.source.ends
            self.new.source.ends }
        ensures counts_faults { Counts (GotFailed result) self.old.faults self.new.faults }
    {
        let fails = is_to_fail(self.calls, &self.failing);
        self.calls = self.calls.saturating_add(1);
        if fails {
            self.faults = self.faults.saturating_add(1);
            return Got::Failed;
        }
        self.source.read(buf)
    }
}

/// A sink over memory that never fails. It keeps the first octets that it is given, as many as it has room
/// for. It tells nothing of content, since no memory holds all that a sink can be given.
#[derive(Drop)]
pub struct SteadySink {
    octets: Vec<u8>,
    room: usize,
}

impl Model for SteadySink {
    ghost use Rattle.std.specs.Prelude.{◌≤◌, length, vec_capacity};
    ghost use Rattle.wire_core.specs.Forms.{FirstOctets};

    ghost Value = { FirstOctets };

    ghost view = { λ s. record { octets = s.octets.items; room = s.room } };

    ghost invariant = { λ s. (length s.octets.items ≤ s.room) × (s.room ≤ vec_capacity s.octets) };
}

impl SteadySink {
    /// A sink with room for so many octets.
    pub fn new(alloc: Global, room: usize) -> Result<SteadySink, NoMemory>
        ensures { IfOk result (λ s. s ≡ record { octets = []; room = room }) }
    {
        Ok(SteadySink {
            octets: Vec::with_capacity(alloc, room)?,
            room,
        })
    }

    /// The octets that it kept.
    pub fn as_slice(&self) -> &[u8]
        ensures { result.now ≡ self.now.octets }
    {
        &self.octets
    }
}

impl Sink for SteadySink {
    ghost written = { λ _. None };

    ghost faults = { λ _. 0 };

    fn write(&mut self, piece: &[u8]) -> Put
        ensures keeps { self.new
            ≡ record self.old { octets = take self.old.room (self.old.octets ++ piece.now) } }
        ensures writes { PutWrites result None None piece.now }
        ensures counts_faults { Counts (PutFailed result) 0 0 }
    {
        let count = piece.len().min(self.room - self.octets.len());
        let _ = self.octets.extend_from_slice(&piece[..count]);
        Put::Done
    }
}

/// A sink over memory, some of whose writes fail.
#[derive(Drop)]
pub struct MemorySink {
    octets: Vec<u8>,
    failing: Vec<usize>,
    calls: usize,
    faults: u64,
}

impl Model for MemorySink {
    ghost use Rattle.std.specs.Prelude.{vec_capacity};
    ghost use Rattle.wire_core.specs.Forms.{Writing};

    ghost Value = { Writing };

    ghost view = { λ s. record {
      written = s.octets.items;
      room = vec_capacity s.octets;
      failing = s.failing.items;
      calls = s.calls;
      faults = s.faults;
    } };
}

impl MemorySink {
    /// A sink with room for so many octets before it needs more memory. The writes whose numbers are in
    /// `failing`, counted from 0, fail. A write that finds no memory fails too.
    pub fn new(alloc: Global, room: usize, failing: &[usize]) -> Result<MemorySink, NoMemory>
        ensures { IfOk result (λ s. s
            ≡ record { written = []; room = room; failing = failing.now; calls = 0; faults = 0 }) }
    {
        Ok(MemorySink {
            octets: Vec::with_capacity(alloc, room)?,
            failing: Vec::from_slice(alloc, failing)?,
            calls: 0,
            faults: 0,
        })
    }

    /// The octets that were written.
    pub fn as_slice(&self) -> &[u8]
        ensures { result.now ≡ self.now.written }
    {
        &self.octets
    }
}

impl Sink for MemorySink {
    ghost written = { λ s. Some s.written };

    ghost faults = { λ s. s.faults };

    fn write(&mut self, piece: &[u8]) -> Put
        ensures listed { is_listed self.old.calls self.old.failing ≡ true → result ≡ Put.Failed }
        ensures succeeds { is_listed self.old.calls self.old.failing ≡ false
            → length self.old.written + length piece.now ≤ self.old.room → result ≡ Put.Done }
        ensures plan { (self.new.failing ≡ self.old.failing)
            × (self.new.calls ≡ min (self.old.calls + 1) usize.MAX) }
        ensures room { self.old.room ≤ self.new.room }
        ensures writes { PutWrites result (Some self.old.written) (Some self.new.written)
            piece.now }
        ensures counts_faults { Counts (PutFailed result) self.old.faults self.new.faults }
    {
        let fails = is_to_fail(self.calls, &self.failing);
        self.calls = self.calls.saturating_add(1);
        if fails {
            let _ = self.octets.extend_from_slice(&piece[..piece.len() / 2]);
            self.faults = self.faults.saturating_add(1);
            return Put::Failed;
        }
        if self.octets.extend_from_slice(piece).is_err() {
            self.faults = self.faults.saturating_add(1);
            return Put::Failed;
        }
        Put::Done
    }
}

/// Whether this call is one of those that are to fail.
fn is_to_fail(call: usize, failing: &[usize]) -> bool
    ensures { result ≡ is_listed call failing.now }
{
    failing.contains(&call)
}
