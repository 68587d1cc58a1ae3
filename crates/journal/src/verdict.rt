//! Checking a journal, and the verdict.

ghost use Rattle.std.specs.Prelude.{◌≡◌, ◌≤◌, ◌⊎◌, List, [], ℕ, Some, None, Ok, Err, IfOk, length};
ghost use Rattle.wire_core.specs.Counts.{Rose};
ghost use Rattle.text_lines.specs.Streams.{most_octets};
ghost use Rattle.text_lines.specs.Words.{lines_of};
ghost use Rattle.journal.specs.Journal.{journal_text};
ghost use Rattle.journal.specs.Limits.{IsShortTask};
ghost use Rattle.journal.specs.Verdicts.{CheckCounts, ChecksBy, JudgesBy, verdict_by, verdict_text};

use crate::block::LONGEST_LINE;
use crate::checker::Checker;
use agent_status::Status;
use std::alloc::Global;
use text_commands::{Work, take_lines, write_text};
use text_lines::RawLines;
use wire_core::{NoMemory, Octets, Sink, Source, SteadySink};

/// Whether a text is a journal.
#[derive(Clone, Copy)]
pub enum Verdict {
    /// It is one, and the input has so many lines.
    Yes { lines: u64 },
    /// It stops to be one at the line of this number, for this reason.
    No { line: u64, reason: u32 },
}

/// The verdict as a line.
pub(crate) fn verdict_line(alloc: Global, verdict: Verdict) -> Result<Octets, NoMemory>
    ensures { IfOk result (λ line. line ≡ verdict_text verdict) }
{
    let text = match verdict {
        Verdict::Yes { lines } => format!(in alloc; "yes {lines}\n")?,
        Verdict::No { line, reason } => format!(in alloc; "no {line} {reason}\n")?,
    };
    Ok(Octets::from_vec(text.into_bytes()))
}

/// The verdict where a line is at fault. Any other status is none.
fn verdict_of(status: Status) -> Result<Verdict, Status>
    ensures { result ≡ verdict_by status }
{
    match status {
        Status::BadTranscript { line, reason } => Ok(Verdict::No { line, reason }),
        status => Err(status),
    }
}

/// Reads a text line by line, and judges whether it is a journal under this key.
fn judge<W: Work + Drop, S: Source>(
    alloc: Global,
    work: W,
    key: Octets,
    input: &mut S,
) -> Result<Verdict, Status>
    requires took { W.took work [] }
    requires short { IsShortTask (W.task work) }
    ensures judges { (X : List ℕ) → S.left input.old ≡ Some X
        → JudgesBy (W.task work) key result X (S.left input.new) }
    ensures counts { CheckCounts result (S.ends input.old) (S.ends input.new) (S.faults input.old)
        (S.faults input.new) 0 0 }
{
    work.is_task();
    // Nothing is written meanwhile.
    let Ok(mut nowhere) = SteadySink::new(alloc, 0) else {
        return Err(Status::OutOfMemory);
    };
    let Ok(mut lines) = RawLines::new(alloc, LONGEST_LINE) else {
        return Err(Status::OutOfMemory);
    };
    let mut checker = Checker::new(alloc, work, key);
    match take_lines(alloc, &mut checker, &mut lines, input, &mut nowhere) {
        Ok(true) => Ok(Verdict::No {
            line: checker.number(),
            reason: 1,
        }),
        Ok(false) => Ok(checker.verdict()),
        Err(status) => verdict_of(status),
    }
}

/// Reads a text line by line, judges whether it is the journal of an input under this key, and writes the verdict.
pub fn check_journal<W: Work + Drop, S: Source, K: Sink>(
    alloc: Global,
    work: W,
    key: Octets,
    input: &mut S,
    output: &mut K,
) -> Result<Verdict, Status>
    requires took { W.took work [] }
    requires short { IsShortTask (W.task work) }
    ensures checks { (X : List ℕ) → S.left input.old ≡ Some X
        → ChecksBy (W.task work) key result X (S.left input.new) (K.written output.old)
        (K.written output.new) }
    ensures counts { CheckCounts result (S.ends input.old) (S.ends input.new) (S.faults input.old)
        (S.faults input.new)
        (K.faults output.old) (K.faults output.new) }
    ensures complete { (X text : List ℕ) → S.left input.old ≡ Some X
        → (W.task work).stop (lines_of text) ≡ None
        → X ≡ journal_text (W.task work) key (lines_of text) → length X ≤ most_octets
        → ¬ Rose (S.faults input.old) (S.faults input.new)
        → ¬ Rose (K.faults output.old) (K.faults output.new)
        → ((count : ℕ) × (result ≡ Ok (Verdict.Yes count))) ⊎ (result ≡ Err Status.OutOfMemory) }
{
    work.is_task();
    let verdict = match judge(alloc, work, key, input) {
        Ok(verdict) => verdict,
        Err(status) => return Err(status),
    };
    let Ok(line) = verdict_line(alloc, verdict) else {
        return Err(Status::OutOfMemory);
    };
    match write_text(output, line.as_slice()) {
        Ok(()) => Ok(verdict),
        Err(status) => Err(status),
    }
}
