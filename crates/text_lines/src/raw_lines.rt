//! The lines of a source, as octets.

ghost use Rattle.std.specs.Prelude.{◌≡◌, ◌+◌, ◌≤◌, ◌==◌, [], length, take, position, Ok, Err, IfOk, IfErr, OnOk};
ghost use Rattle.wire_core.specs.Counts.{Counts};
ghost use Rattle.text_lines.specs.Streams.{Cuts, IsFirstPiece, IsUnended, SourceEnded, TakesRawLine, TakesNone, most_octets, rest_of};
ghost use Rattle.text_lines.specs.declared.raw_lines.RawFault.TheVariants.{Read};

use crate::intake::{Intake, TakeFault};
use std::alloc::{AllocError, Global};
use std::marker::Model;
use wire_core::{NoMemory, Source};

/// How many octets a line has at most, where no other limit is said.
pub const LONGEST_LINE: usize = 140_000;

/// Why there is no next line.
#[derive(Clone, Copy, PartialEq, Eq)]
pub enum RawFault {
    /// The source failed.
    Read,
    /// The source has more octets than may be taken of one.
    TooMuch,
    /// The line has more octets than a line may have.
    LongLine,
    NoMemory,
}

/// How the next line ends.
#[derive(Clone, Copy, PartialEq, Eq)]
pub enum RawLine {
    /// By the octet 0a.
    Line,
    /// With the source.
    LastLine,
    /// There is none, and the source is at its end.
    End,
}

impl From<TakeFault> for RawFault {
    ghost use Rattle.text_lines.specs.Streams.{IsTakeFault};

    ghost from_gives = { IsTakeFault };

    fn from(fault: TakeFault) -> RawFault {
        match fault {
            TakeFault::Read => RawFault::Read,
            TakeFault::TooMuch => RawFault::TooMuch,
        }
    }
}

impl From<AllocError> for RawFault {
    ghost use Rattle.std.specs.Prelude.{◌≡◌};
    ghost use Rattle.text_lines.specs.declared.raw_lines.RawFault.TheVariants.{NoMemory};

    ghost from_gives = { λ _ fault. fault ≡ NoMemory };

    fn from(_: AllocError) -> RawFault {
        RawFault::NoMemory
    }
}

/// The place of the first octet that ends a line.
fn line_end(octets: &[u8]) -> Option<usize>
    ensures { result ≡ position (λ x. x == 10) octets.now }
{
    octets.iter().position(|c| *c == b'\n')
}

/// The octets before the first one that ends a line, and whether there is one.
pub fn first_piece(octets: &[u8]) -> (&[u8], bool)
    ensures { IsFirstPiece result.1 octets.now result.0.now }
{
    match line_end(octets) {
        Some(end) => (&octets[..end], true),
        None => (octets, false),
    }
}

/// What was taken of a source, cut into lines.
#[derive(Drop)]
pub struct RawLines {
    intake: Intake,
    line: Vec<u8>,
    longest: usize,
}

impl Model for RawLines {
    ghost use Rattle.std.specs.Prelude.{◌+◌, ◌≤◌, length};
    ghost use Rattle.text_lines.specs.Streams.{Cutting, most_octets};

    ghost Value = { Cutting };

    ghost view = { λ r. record { line = r.line.items; held = r.intake; longest = r.longest } };

    ghost invariant = { λ r. r.intake.passed + length r.intake.octets ≤ most_octets };
}

impl RawLines {
    /// Nothing is taken yet, and no line may have more octets than this.
    pub fn new(alloc: Global, longest: usize) -> Result<RawLines, NoMemory>
        ensures { IfOk result
            (λ r. (r.held.octets ≡ []) × (r.held.passed ≡ 0) × (r.longest ≡ longest)) }
    {
        Ok(RawLines {
            intake: Intake::new(alloc)?,
            line: Vec::new(alloc),
            longest,
        })
    }

    /// The line that was cut last, without its end.
    pub fn line(&self) -> &[u8]
        ensures { result.now ≡ self.now.line }
    {
        &self.line
    }

    /// Moves what is held to the present line, up to the octet that ends it: whether there is one.
    fn cut(&mut self) -> Result<bool, RawFault>
        ensures cuts { Cuts result self.old self.new }
        ensures within { self.new.held.passed + length self.new.held.octets ≤ most_octets }
        ensures grows { self.old.held.passed ≤ self.new.held.passed }
        ensures short { OnOk result (length self.new.line ≤ self.old.longest) }
        ensures limit { self.new.longest ≡ self.old.longest }
    {
        let (piece, ends) = first_piece(self.intake.octets());
        let count = piece.len();
        if self.line.len() + count > self.longest {
            return Err(RawFault::LongLine);
        }
        self.line.extend_from_slice(piece)?;
        self.intake.pass(count + usize::from(ends));
        Ok(ends)
    }

    /// Takes the next line of the source.
    pub fn next_line<S: Source>(&mut self, source: &mut S) -> Result<RawLine, RawFault>
        ensures line { IfOk result (λ line. TakesRawLine line (rest_of self.old (S.left source.old))
            (rest_of self.new (S.left source.new)) self.old self.new) }
        ensures unended { IfOk result (λ line. IsUnended self.new.line) }
        ensures short { OnOk result (length self.new.line ≤ self.old.longest) }
        ensures limit { self.new.longest ≡ self.old.longest }
        ensures within { self.new.held.passed + length self.new.held.octets ≤ most_octets }
        ensures grows { self.old.held.passed ≤ self.new.held.passed }
        ensures fault { IfErr result (λ fault. TakesNone fault
            (rest_of self.old (S.left source.old)) (S.left source.new) self.old self.new) }
        ensures counts_ends { Counts (SourceEnded result) (S.ends source.old) (S.ends source.new) }
        ensures counts_faults { Counts (result ≡ Err Read) (S.faults source.old)
            (S.faults source.new) }
    {
        self.line.clear();
        loop {
            if self.cut()? {
                return Ok(RawLine::Line);
            }
            if !self.intake.refill(source)? {
                return Ok(if self.line.is_empty() {
                    RawLine::End
                } else {
                    RawLine::LastLine
                });
            }
        }
    }
}
