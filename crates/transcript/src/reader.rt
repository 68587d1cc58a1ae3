//! A reader of a transcript's lines, given one by one.

ghost use Rattle.std.specs.Prelude.{◌≡◌, Err, Some, IfOk, IfErr};
ghost use Rattle.transcript.specs.Reading.{At, beginning, read_line, start, start_with_control};
ghost use Rattle.transcript.specs.Positions.{IsReading, TakesLine, TakesSome, TooLong};
ghost use Rattle.transcript.specs.declared.line_fault.LineFault.{LineFault};

use crate::line::Line;
use crate::line_fault::LineFault;
use crate::position::Position;
use std::alloc::Global;
use wire_core::NoMemory;

/// A reader of a transcript's lines. Contracts say where it stands.
#[derive(Drop)]
pub struct LineReader {
    alloc: Global,
    position: Position,
    refused: Option<LineFault>,
}

impl LineReader {
    /// Before the first line, where control lines may stand or not.
    fn beginning(alloc: Global, controls: bool) -> LineReader
        ensures { IsReading result (beginning controls) }
    {
        LineReader {
            alloc,
            position: Position::beginning(alloc, controls),
            refused: None,
        }
    }

    /// Before the first line of a transcript without control lines.
    pub fn new(alloc: Global) -> Result<LineReader, NoMemory>
        ensures { IfOk result (λ reader. IsReading reader start) }
    {
        Ok(LineReader::beginning(alloc, false))
    }

    /// Before the first line of a transcript in which control lines may stand.
    pub fn with_control(alloc: Global) -> Result<LineReader, NoMemory>
        ensures { IfOk result (λ reader. IsReading reader start_with_control) }
    {
        Ok(LineReader::beginning(alloc, true))
    }

    /// Reads the next line, given without the octet 0a that ends it. After a refusal it answers the same from then on.
    pub fn take(&mut self, line: &[u8]) -> Result<Line, LineFault>
        ensures takes { (at : At) → IsReading self.old at
            → TakesLine result at (read_line at line.now) self.new }
        ensures refused { IfErr result (λ fault. self.new.refused ≡ Some fault) }
        ensures over { (fault : LineFault) → self.old.refused ≡ Some fault
            → (result ≡ Err fault) × (self.new ≡ self.old) }
    {
        if let Some(fault) = self.refused {
            return Err(fault);
        }
        match self.position.take(self.alloc, line) {
            Ok(line) => Ok(line),
            Err(fault) => Err(self.refuse(fault)),
        }
    }

    /// The same as an answer that may be that there is no line.
    pub(crate) fn take_some(&mut self, line: &[u8]) -> Result<Option<Line>, LineFault>
        ensures takes { (at : At) → IsReading self.old at
            → TakesSome result at (read_line at line.now) self.new }
        ensures refused { IfErr result (λ fault. self.new.refused ≡ Some fault) }
    {
        match self.take(line) {
            Ok(line) => Ok(Some(line)),
            Err(fault) => Err(fault),
        }
    }

    /// The refusal that it answers from now on.
    pub(crate) fn refused(&self) -> Option<LineFault>
        ensures { result ≡ self.now.refused }
    {
        self.refused
    }

    /// From now on this is the answer.
    pub(crate) fn refuse(&mut self, fault: LineFault) -> LineFault
        ensures same { result ≡ fault }
        ensures refused { self.new.refused ≡ Some fault }
        ensures position { self.new.position ≡ self.old.position }
    {
        self.refused = Some(fault);
        fault
    }

    /// Why the next line is bad where it has more octets than a line may have, of which the first are these.
    pub fn too_long(&self) -> LineFault
        ensures { (at : At) → IsReading self.now at → TooLong result at }
    {
        self.position.bad(1)
    }
}
