//! The lines of a transcript, read from a source.

ghost use Rattle.std.specs.Prelude.{◌≡◌, [], Ok, Err, Some, None, IfOk, IfErr, true, false};
ghost use Rattle.wire_core.specs.Counts.{Counts};
ghost use Rattle.text_lines.specs.Streams.{rest_of};
ghost use Rattle.transcript.specs.Positions.{IsReading};
ghost use Rattle.transcript.specs.Reading.{At, start, start_with_control};
ghost use Rattle.transcript.specs.Taking.{ReadsNext, IsOfLine};
ghost use Rattle.transcript.specs.declared.line_fault.LineFault.{LineFault};
ghost use Rattle.transcript.specs.declared.line_fault.LineFault.TheVariants.{Read};

use crate::line::Line;
use crate::line_fault::LineFault;
use crate::reader::LineReader;
use std::alloc::Global;
use text_lines::{LONGEST_LINE, RawFault, RawLine, RawLines};
use wire_core::{NoMemory, Source};

/// The lines of a transcript, read from a source as they are asked for. Contracts see the source, what is held of it,
/// and the reader of lines.
#[derive(Drop)]
pub struct Lines<'a, S: Source> {
    source: &'a mut S,
    raw: RawLines,
    reader: LineReader,
    is_ended: bool,
}

impl<'a, S: Source> Lines<'a, S> {
    /// The lines that this reader gives of a source, of which nothing is taken yet.
    fn read_by(
        alloc: Global,
        source: &'a mut S,
        reader: LineReader,
    ) -> Result<Lines<'a, S>, NoMemory>
        ensures { IfOk result (λ lines. (lines.source.ghost_name ≡ source.entry.ghost_name)
            × (lines.source.now ≡ source.old)
            × (lines.raw.held.octets ≡ []) × (lines.raw.held.passed ≡ 0)
            × (lines.raw.longest ≡ 140000) × (lines.reader ≡ reader) × (lines.is_ended ≡ false)) }
    {
        Ok(Lines {
            source,
            raw: RawLines::new(alloc, LONGEST_LINE)?,
            reader,
            is_ended: false,
        })
    }

    /// The lines of this source, of which nothing is taken yet.
    pub fn new(alloc: Global, source: &'a mut S) -> Result<Lines<'a, S>, NoMemory>
        ensures { IfOk result (λ lines. (lines.source.ghost_name ≡ source.entry.ghost_name)
            × (lines.source.now ≡ source.old)
            × (lines.raw.held.octets ≡ []) × (lines.raw.held.passed ≡ 0) × (lines.raw.longest
            ≡ 140000) × IsReading lines.reader start × (lines.is_ended ≡ false)) }
    {
        Lines::read_by(alloc, source, LineReader::new(alloc)?)
    }

    /// The same, and control lines may stand among them.
    pub fn with_control(alloc: Global, source: &'a mut S) -> Result<Lines<'a, S>, NoMemory>
        ensures { IfOk result (λ lines. (lines.source.ghost_name ≡ source.entry.ghost_name)
            × (lines.source.now ≡ source.old)
            × (lines.raw.held.octets ≡ []) × (lines.raw.held.passed ≡ 0)
            × (lines.raw.longest ≡ 140000) × IsReading lines.reader start_with_control
            × (lines.is_ended ≡ false)) }
    {
        Lines::read_by(alloc, source, LineReader::with_control(alloc)?)
    }

    /// Why there is no next line.
    fn line_fault(&self, fault: RawFault) -> LineFault
        ensures { (at : At) → IsReading self.now.reader at → IsOfLine fault at result }
    {
        match fault {
            RawFault::Read => LineFault::Read,
            RawFault::TooMuch => LineFault::Long,
            RawFault::LongLine => self.reader.too_long(),
            RawFault::NoMemory => LineFault::NoMemory,
        }
    }

    /// Reads the next line, None at the end of the source. After that, and after a fault, it answers the same
    /// again and takes nothing more.
    pub fn next_line(&mut self) -> Result<Option<Line>, LineFault>
        ensures same_source { self.new.source.ghost_name ≡ self.old.source.ghost_name }
        ensures limit { self.new.raw.longest ≡ self.old.raw.longest }
        ensures answers { (at : At) → IsReading self.old.reader at → self.old.is_ended ≡ false
            → self.old.raw.longest ≡ 140000
            → ReadsNext result at (rest_of self.old.raw (S.left self.old.source.now))
            (rest_of self.new.raw (S.left self.new.source.now))
            (S.left self.new.source.now) self.old.raw self.new.raw self.new.reader
            self.new.is_ended }
        ensures refused { IfErr result (λ fault. self.new.reader.refused ≡ Some fault) }
        ensures over { (fault : LineFault) → self.old.reader.refused ≡ Some fault
            → (result ≡ Err fault) × (self.new.source.now ≡ self.old.source.now)
            × (self.new.reader.refused ≡ Some fault) }
        ensures ended { self.old.reader.refused ≡ None → self.old.is_ended ≡ true
            → (result ≡ Ok None) × (self.new.source.now ≡ self.old.source.now)
            × (self.new.is_ended ≡ true) }
        ensures counts_ends { (at : At) → IsReading self.old.reader at → self.old.is_ended ≡ false
            → Counts (self.new.is_ended ≡ true) (S.ends self.old.source.now)
            (S.ends self.new.source.now) }
        ensures counts_faults { (at : At) → IsReading self.old.reader at → self.old.is_ended ≡ false
            → self.old.raw.longest ≡ 140000
            → Counts (result ≡ Err Read) (S.faults self.old.source.now)
            (S.faults self.new.source.now) }
    {
        if let Some(fault) = self.reader.refused() {
            return Err(fault);
        }
        if self.is_ended {
            return Ok(None);
        }
        match self.raw.next_line(self.source) {
            Ok(RawLine::Line) => self.reader.take_some(self.raw.line()),
            Ok(RawLine::LastLine) => {
                self.is_ended = true;
                self.reader.take_some(self.raw.line())
            }
            Ok(RawLine::End) => {
                self.is_ended = true;
                Ok(None)
            }
            Err(fault) => {
                let fault = self.line_fault(fault);
                Err(self.reader.refuse(fault))
            }
        }
    }

    /// Gives the source back, as far as it was read.
    pub fn into_source(self) -> &'a mut S
        ensures same_source { result.ghost_name ≡ self.entry.source.ghost_name }
        ensures as_read { result.now ≡ self.entry.source.now }
    {
        let Lines { source, .. } = self;
        source
    }
}
