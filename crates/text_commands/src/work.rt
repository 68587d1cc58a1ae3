//! A command that goes through its input line by line.

ghost use Rattle.std.specs.Prelude.{◌≡◌, ◌≢◌, ◌<◌, ◌≤◌, ◌∷◌, [], ◌++◌, List, ℕ, length, Some, None, Ok, Err, OnOk, IfErr};
ghost use Rattle.wire_core.specs.Counts.{Rose};
ghost use Rattle.wire_core.specs.Sink.{Appends, AppendsPrefix};
ghost use Rattle.text_commands.specs.Tasks.{Closes, EndsBy, EndsCounts, Finishes, IsBad, IsLinesEnd, IsTask, StatusOf, TakesCounts, TakesLines, Task, Works};

use agent_status::Status;
use std::alloc::Global;
use text_lines::{RawFault, RawLine, RawLines};
use wire_core::{Put, Sink, Source};

/// What a command does with each line of its input.
pub trait Work {
    /// What it makes of all lines.
    ghost task: { Self → Task };

    /// It has taken these lines, and none of them is bad.
    ghost took: { Self → List (List ℕ) → Type 0 };

    /// Takes the next line, and writes what it gives.
    fn take<K: Sink>(&mut self, alloc: Global, line: &[u8], sink: &mut K) -> Result<(), Status>
        requires { (lines : List (List ℕ)) × took self.old lines }
        ensures same { task self.new ≡ task self.old }
        ensures works { (lines : List (List ℕ)) → took self.old lines
            → Works (task self.old) (λ lines. took self.new lines) result lines line.now
            (K.written sink.old) (K.written sink.new) }
        ensures fault { result ≡ Err Status.WriteFault
            → Rose (K.faults sink.old) (K.faults sink.new) }
        ensures faults_stay { K.faults sink.old ≤ K.faults sink.new };

    /// Writes what stands after all lines.
    fn close<K: Sink>(&self, alloc: Global, sink: &mut K) -> Status
        ensures closes { (lines : List (List ℕ)) → took self.now lines
            → Closes (task self.now) result lines (K.written sink.old) (K.written sink.new) }
        ensures fault { result ≡ Status.WriteFault → Rose (K.faults sink.old) (K.faults sink.new) }
        ensures faults_stay { K.faults sink.old ≤ K.faults sink.new };

    /// How many octets a line has at most.
    fn longest_line(&self) -> usize
        ensures { result ≡ (task self.now).longest };

    /// How the command ends at a line that has more octets than a line may have.
    fn too_long(&self) -> Status
        ensures { (lines : List (List ℕ)) (octets : List ℕ) → took self.now lines
            → (task self.now).longest < length octets
            → IsBad (task self.now) result (lines ++ octets ∷ []) };

    /// A bad line prints nothing, and what follows it changes nothing.
    fn is_task(&self)
        ensures { IsTask (task self.now) };
}

/// Writes this text after what was written before.
pub fn write_text<K: Sink>(sink: &mut K, text: &[u8]) -> Result<(), Status>
    ensures done { OnOk result (Appends (K.written sink.old) (K.written sink.new) text.now) }
    ensures failed { IfErr result (λ status. (status ≡ Status.WriteFault)
        × AppendsPrefix (K.written sink.old) (K.written sink.new) text.now) }
    ensures fault { result ≡ Err Status.WriteFault → Rose (K.faults sink.old) (K.faults sink.new) }
    ensures faults_stay { K.faults sink.old ≤ K.faults sink.new }
{
    match sink.write(text) {
        Put::Done => Ok(()),
        Put::Failed => Err(Status::WriteFault),
    }
}

/// How the command ends where the next line can't be taken of the source.
fn fault_status<W: Work>(work: &W, fault: RawFault) -> Status
    ensures { StatusOf fault (λ lines. W.took work.now lines) (W.task work.now) result }
{
    match fault {
        RawFault::Read => Status::ReadFault,
        RawFault::TooMuch => Status::TooLong,
        RawFault::LongLine => work.too_long(),
        RawFault::NoMemory => Status::OutOfMemory,
    }
}

/// Takes the last line, and writes what stands after all lines.
fn finish<W: Work, K: Sink>(alloc: Global, work: &mut W, line: &[u8], output: &mut K) -> Status
    requires { (lines : List (List ℕ)) × W.took work.old lines }
    ensures finishes { (lines : List (List ℕ)) → W.took work.old lines
        → Finishes (W.task work.old) result lines line.now (K.written output.old)
        (K.written output.new) }
    ensures known { IsLinesEnd result }
    ensures fault { result ≡ Status.WriteFault → Rose (K.faults output.old) (K.faults output.new) }
    ensures faults_stay { K.faults output.old ≤ K.faults output.new }
{
    match work.take(alloc, line, output) {
        Ok(()) => work.close(alloc, output),
        Err(status) => status,
    }
}

/// Takes the lines of the input that end by the octet 0a, none of which was taken yet, and has each one's text written
/// before the next is read. It answers whether the input has more octets behind them: they are the present line of `lines`.
pub fn take_lines<W: Work, S: Source, K: Sink>(
    alloc: Global,
    work: &mut W,
    lines: &mut RawLines,
    input: &mut S,
    output: &mut K,
) -> Result<bool, Status>
    requires first { W.took work.old [] }
    requires untaken { (lines.old.held.octets ≡ []) × (lines.old.held.passed ≡ 0) }
    requires limit { lines.old.longest ≡ (W.task work.old).longest }
    ensures same { W.task work.new ≡ W.task work.old }
    ensures takes { TakesLines (W.task work.old) (λ taken. W.took work.new taken) result
        (S.left input.old) (S.left input.new) lines.new.line
        (K.written output.old) (K.written output.new) }
    ensures known { IfErr result IsLinesEnd }
    ensures counts { TakesCounts result (S.ends input.old) (S.ends input.new) (S.faults input.old)
        (S.faults input.new)
        (K.faults output.old) (K.faults output.new) }
    ensures faults_stay { K.faults output.old ≤ K.faults output.new }
{
    work.is_task();
    loop {
        match lines.next_line(input) {
            Ok(RawLine::Line) => match work.take(alloc, lines.line(), output) {
                Ok(()) => {}
                Err(status) => return Err(status),
            },
            Ok(RawLine::LastLine) => return Ok(true),
            Ok(RawLine::End) => return Ok(false),
            Err(fault) => return Err(fault_status(work, fault)),
        }
    }
}

/// Takes the input line by line to its end. Each line's text is written before the next line is read.
pub fn run<W: Work, S: Source, K: Sink>(
    alloc: Global,
    work: &mut W,
    input: &mut S,
    output: &mut K,
) -> Status
    requires { W.took work.old [] }
    ensures begun { result ≢ Status.Usage }
    ensures known { IsLinesEnd result }
    ensures ends { (X : List ℕ) → S.left input.old ≡ Some X
        → EndsBy (W.task work.old) result X (S.left input.new) (K.written output.old)
        (K.written output.new) }
    ensures counts { EndsCounts result (S.ends input.old) (S.ends input.new) (S.faults input.old)
        (S.faults input.new)
        (K.faults output.old) (K.faults output.new) }
{
    work.is_task();
    // The memory of the reading is taken first: where it is wanting, the input is as it was.
    let Ok(mut lines) = RawLines::new(alloc, work.longest_line()) else {
        return Status::OutOfMemory;
    };
    match take_lines(alloc, work, &mut lines, input, output) {
        Ok(true) => finish(alloc, work, lines.line(), output),
        Ok(false) => work.close(alloc, output),
        Err(status) => status,
    }
}
