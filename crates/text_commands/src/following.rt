//! A command that goes through a transcript line by line.

ghost use Rattle.std.specs.Prelude.{◌≡◌, ◌≢◌, ◌≤◌, ◌⊎◌, [], List, ℕ, Err, Some, None, length, IfOk};
ghost use Rattle.wire_core.specs.Counts.{Rose};
ghost use Rattle.text_commands.specs.Following.{Takes};
ghost use Rattle.text_commands.specs.Status.{fault_status};
ghost use Rattle.text_commands.specs.Tasks.{ClosesWith, EndsBy, EndsCounts, IsLinesEnd};
ghost use Rattle.text_commands.specs.Transcripts.{FollowsLine, Rule, transcript_task};
ghost use Rattle.transcript.specs.Positions.{IsReading};
ghost use Rattle.transcript.specs.Reading.{beginning};
ghost use Rattle.text_lines.specs.Streams.{most_octets};
ghost use Rattle.transcript.specs.Told.{CanFollow, told_by};
ghost use Rattle.text_lines.specs.Words.{lines_of};
ghost use Rattle.transcript.specs.declared.line.Line as said;

use crate::work::{Work, run};
use agent_status::Status;
use std::alloc::Global;
use text_lines::LONGEST_LINE;
use transcript::{Line, LineFault, LineReader};
use wire_core::{NoMemory, Sink, Source};

/// What follows the lines of a transcript, one after another, and prints what each of them gives.
pub trait Follower {
    /// Whether control lines may stand, what the lines print, and what stands after all of them.
    ghost rule: { Self → Rule };

    /// It has followed these lines.
    ghost followed: { Self → List said.Line → Type 0 };

    /// A reader of the lines, before the first.
    fn reader(&self, alloc: Global) -> Result<LineReader, NoMemory>
        ensures { IfOk result (λ reader. IsReading reader (beginning (rule self.now).controls)) };

    /// Follows the next line, and prints what it gives.
    fn follow<K: Sink>(&mut self, alloc: Global, line: Line, sink: &mut K) -> Result<(), Status>
        requires { (lines : List said.Line) × followed self.old lines
            × CanFollow (told_by lines) line }
        ensures same { rule self.new ≡ rule self.old }
        ensures follows { (lines : List said.Line) → followed self.old lines
            → FollowsLine (rule self.old) (λ ls. followed self.new ls) result lines line
            (K.written sink.old) (K.written sink.new) }
        ensures fault { result ≡ Err Status.WriteFault
            → Rose (K.faults sink.old) (K.faults sink.new) }
        ensures faults_stay { K.faults sink.old ≤ K.faults sink.new };

    /// Prints what stands after all lines.
    fn close<K: Sink>(&self, alloc: Global, sink: &mut K) -> Status
        ensures closes { (lines : List said.Line) → followed self.now lines
            → ClosesWith result ((rule self.now).close lines) (K.written sink.old)
            (K.written sink.new) }
        ensures fault { result ≡ Status.WriteFault → Rose (K.faults sink.old) (K.faults sink.new) }
        ensures faults_stay { K.faults sink.old ≤ K.faults sink.new };

    /// No lines print nothing.
    ghost empty: { (follower : Self) → (rule follower).text [] ≡ [] };
}

/// A reader of a transcript's lines, and what follows them.
#[derive(Drop)]
pub struct TranscriptWork<F> {
    reader: LineReader,
    follower: F,
}

impl<F: Follower + Drop> TranscriptWork<F> {
    /// Before the first line.
    pub fn new(alloc: Global, follower: F) -> Result<TranscriptWork<F>, NoMemory>
        requires { F.followed follower [] }
        ensures first { IfOk result (λ work. Takes (F.rule follower) F.followed work []) }
        ensures follower { IfOk result (λ work. work.follower ≡ follower) }
    {
        Ok(TranscriptWork {
            reader: follower.reader(alloc)?,
            follower,
        })
    }
}

/// How the command ends at a line that can't be read.
fn line_status(fault: LineFault) -> Status
    ensures { result ≡ fault_status fault }
{
    match fault {
        LineFault::Read => Status::ReadFault,
        LineFault::Bad { line, reason } => Status::BadTranscript { line, reason },
        LineFault::Long => Status::TooLong,
        LineFault::NoMemory => Status::OutOfMemory,
    }
}

impl<F: Follower> Work for TranscriptWork<F> {
    ghost task = { λ work. transcript_task (F.rule work.follower) };

    ghost took = { λ work lines. Takes (F.rule work.follower) F.followed work lines };

    fn take<K: Sink>(&mut self, alloc: Global, line: &[u8], sink: &mut K) -> Result<(), Status> {
        transcript::lines_can_follow();
        match self.reader.take(line) {
            Ok(line) => self.follower.follow(alloc, line, sink),
            Err(fault) => Err(line_status(fault)),
        }
    }

    fn close<K: Sink>(&self, alloc: Global, sink: &mut K) -> Status {
        self.follower.close(alloc, sink)
    }

    fn longest_line(&self) -> usize {
        LONGEST_LINE
    }

    fn too_long(&self) -> Status {
        line_status(self.reader.too_long())
    }

    fn is_task(&self) {}
}

/// Reads a transcript from the input, and has each of its lines followed before the next one is read.
pub fn follow_transcript<F: Follower + Drop, S: Source, K: Sink>(
    alloc: Global,
    follower: F,
    input: &mut S,
    output: &mut K,
) -> Status
    requires { F.followed follower [] }
    ensures begun { result ≢ Status.Usage }
    ensures known { IsLinesEnd result }
    ensures ends { (X : List ℕ) → S.left input.old ≡ Some X
        → EndsBy (transcript_task (F.rule follower)) result X (S.left input.new)
        (K.written output.old) (K.written output.new) }
    ensures counts { EndsCounts result (S.ends input.old) (S.ends input.new) (S.faults input.old)
        (S.faults input.new)
        (K.faults output.old) (K.faults output.new) }
    ensures complete { (X : List ℕ) → S.left input.old ≡ Some X
        → (transcript_task (F.rule follower)).stop (lines_of X) ≡ None
        → length X ≤ most_octets → ¬ Rose (S.faults input.old) (S.faults input.new)
        → ¬ Rose (K.faults output.old) (K.faults output.new)
        → (result ≡ Status.Done) ⊎ (result ≡ Status.OutOfMemory) }
{
    // The memory of the reading is taken first: where it is wanting, the input is as it was.
    let Ok(mut work) = TranscriptWork::new(alloc, follower) else {
        return Status::OutOfMemory;
    };
    run(alloc, &mut work, input, output)
}
