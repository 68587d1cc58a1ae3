//! The octets of a source, taken a chunk at a time.

ghost use Rattle.std.specs.Prelude.{◌≡◌, ◌+◌, ◌<◌, ◌≤◌, [], length, take, drop, Ok, Err, Some, None, IfSome, IfNone, IfOk, false, ◌≢◌};
ghost use Rattle.wire_core.specs.Counts.{Counts};
ghost use Rattle.wire_core.specs.Source.{Consumes, IsAtEnd};
ghost use Rattle.text_lines.specs.Streams.{Refills, most_octets};
ghost use Rattle.text_lines.specs.declared.intake.TakeFault.TheVariants.{Read};

use std::alloc::Global;
use std::marker::Model;
use wire_core::{Got, NoMemory, Source};

/// How many octets a read asks for at most.
const CHUNK: usize = 65_536;

/// How many octets are taken of a source at most.
const MOST: u64 = 1_099_511_627_776;

/// Why no more octets can be taken.
#[derive(Clone, Copy)]
pub(crate) enum TakeFault {
    /// The source failed.
    Read,
    /// The source has more octets than may be taken of one.
    TooMuch,
}

/// Octets that were taken of a source and not passed on yet.
#[derive(Drop)]
pub(crate) struct Intake {
    chunk: Vec<u8>,
    start: usize,
    end: usize,
    passed: u64,
}

impl Model for Intake {
    ghost use Rattle.std.specs.Prelude.{◌≡◌, ◌+◌, ◌-◌, ◌≤◌, length, slice_range};
    ghost use Rattle.text_lines.specs.Streams.{Held};

    ghost Value = { Held };

    ghost view = { λ i. record { octets = slice_range i.chunk.items i.start i.end; passed = i.passed } };

    ghost invariant = { λ i. (i.start ≤ i.end) × (i.end ≤ 65536) × (length i.chunk.items ≡ 65536)
        × (i.passed + (i.end - i.start) ≤ 1099511627776) };
}

impl Intake {
    /// Nothing is taken yet.
    pub(crate) fn new(alloc: Global) -> Result<Intake, NoMemory>
        ensures { IfOk result (λ i. i ≡ record { octets = []; passed = 0 }) }
    {
        Ok(Intake {
            chunk: Vec::from_elem(alloc, 0, CHUNK)?,
            start: 0,
            end: 0,
            passed: 0,
        })
    }

    /// The octets that were not passed on yet.
    pub(crate) fn octets(&self) -> &[u8]
        ensures { result.now ≡ self.now.octets }
    {
        &self.chunk[self.start..self.end]
    }

    /// Passes on the first octets.
    pub(crate) fn pass(&mut self, count: usize)
        requires { count ≤ length self.old.octets }
        ensures octets { self.new.octets ≡ drop count self.old.octets }
        ensures passed { self.new.passed ≡ self.old.passed + count }
        ensures within { self.new.passed + length self.new.octets ≤ most_octets }
    {
        self.start += count;
        self.passed += count as u64;
    }

    /// How many octets the next read asks for: one more than may be taken, where all are.
    fn room(&self) -> usize
        ensures some { 0 < result }
        ensures inside { result ≤ 65536 }
        ensures within { self.now.passed ≢ most_octets → self.now.passed + result ≤ most_octets }
        ensures one { self.now.passed ≡ most_octets → result ≡ 1 }
    {
        (MOST - self.passed).clamp(1, CHUNK as u64) as usize
    }

    /// Takes more octets of the source: whether some came, or the source is at its end.
    pub(crate) fn refill<S: Source>(&mut self, source: &mut S) -> Result<bool, TakeFault>
        requires { self.old.octets ≡ [] }
        ensures refills { Refills result (S.left source.old) (S.left source.new) self.old self.new }
        ensures within { self.new.passed + length self.new.octets ≤ most_octets }
        ensures counts_ends { Counts (result ≡ Ok false) (S.ends source.old) (S.ends source.new) }
        ensures counts_faults { Counts (result ≡ Err Read) (S.faults source.old)
            (S.faults source.new) }
    {
        let room = self.room();
        self.start = 0;
        self.end = 0;
        match read_front(source, &mut self.chunk, room) {
            None => Err(TakeFault::Read),
            Some(0) => Ok(false),
            Some(_) if self.passed == MOST => Err(TakeFault::TooMuch),
            Some(count) => {
                self.end = count;
                Ok(true)
            }
        }
    }
}

/// Reads at most `room` octets to the front of the chunk: how many came, 0 at the end of the source, or None
/// where the read failed.
fn read_front<S: Source>(source: &mut S, chunk: &mut [u8], room: usize) -> Option<usize>
    requires some { 0 < room }
    requires inside { room ≤ length chunk.old }
    ensures reads { IfSome result
        (λ n. (n ≤ room) × Consumes (S.left source.old) (S.left source.new) (take n chunk.new)) }
    ensures fails { IfNone result (S.left source.new ≡ S.left source.old) }
    ensures end { result ≡ Some 0
        → IsAtEnd (S.left source.old) × (S.left source.new ≡ S.left source.old) }
    ensures counts_ends { Counts (result ≡ Some 0) (S.ends source.old) (S.ends source.new) }
    ensures counts_faults { Counts (result ≡ None) (S.faults source.old) (S.faults source.new) }
{
    match source.read(&mut chunk[..room]) {
        Got::Bytes(count) => Some(count),
        Got::End => Some(0),
        Got::Failed => None,
    }
}
