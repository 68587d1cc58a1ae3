//! The command `show`.

ghost use Rattle.std.specs.Prelude.{◌≡◌, ◌≢◌, ◌≤◌, ◌⊎◌, List, ℕ, Ok, Some, None, length, IfOk, IfErr};
ghost use Rattle.wire_core.specs.Counts.{Rose, one_more};
ghost use Rattle.printed_lines.specs.Show.{show_line};
ghost use Rattle.text_lines.specs.Streams.{most_octets};
ghost use Rattle.text_lines.specs.Words.{lines_of};
ghost use Rattle.text_commands.specs.Shown.{Shows, ShowsNot, show_task};
ghost use Rattle.text_commands.specs.Tasks.{EndsBy, EndsCounts, IsLinesEnd};

use crate::work::{Work, run, write_text};
use agent_status::Status;
use printed_lines::ShowFault;
use std::alloc::Global;
use text_lines::LONGEST_LINE;
use wire_core::{Octets, Sink, Source};

/// How many lines were shown. A count stands still at its end.
#[derive(Drop)]
pub(crate) struct ShowWork {
    lines: u64,
}

/// The number of the line after so many.
fn number_after(lines: u64) -> u64
    ensures { result ≡ one_more lines }
{
    lines.saturating_add(1)
}

/// What the line of this number shows.
fn text_of(alloc: Global, number: u64, line: &[u8]) -> Result<Octets, Status>
    ensures ok { IfOk result (λ text. show_line line.now ≡ Ok text) }
    ensures err { IfErr result (λ status. ShowsNot status number (show_line line.now)) }
{
    match printed_lines::show_line(alloc, line) {
        Ok(text) => Ok(text),
        Err(ShowFault::Bad { reason }) => Err(Status::BadTranscript {
            line: number,
            reason,
        }),
        Err(ShowFault::NoMemory) => Err(Status::OutOfMemory),
    }
}

impl Work for ShowWork {
    ghost task = { λ _. show_task };

    ghost took = { Shows };

    fn take<K: Sink>(&mut self, alloc: Global, line: &[u8], sink: &mut K) -> Result<(), Status> {
        let number = number_after(self.lines);
        let text = match text_of(alloc, number, line) {
            Ok(text) => text,
            Err(status) => return Err(status),
        };
        match write_text(sink, text.as_slice()) {
            Ok(()) => {
                self.lines = number;
                Ok(())
            }
            Err(status) => Err(status),
        }
    }

    fn close<K: Sink>(&self, _alloc: Global, _sink: &mut K) -> Status {
        Status::Done
    }

    fn longest_line(&self) -> usize {
        LONGEST_LINE
    }

    fn too_long(&self) -> Status {
        Status::BadTranscript {
            line: number_after(self.lines),
            reason: 1,
        }
    }

    fn is_task(&self) {}
}

/// Reads lines `radius HEX` and `diameter HEX`, and prints what each packet or message holds, or what is wrong with
/// it. Each line's text is written before the next line is read.
pub fn show<S: Source, K: Sink>(alloc: Global, input: &mut S, output: &mut K) -> Status
    ensures begun { result ≢ Status.Usage }
    ensures known { IsLinesEnd result }
    ensures ends { (X : List ℕ) → S.left input.old ≡ Some X
        → EndsBy show_task result X (S.left input.new) (K.written output.old)
        (K.written output.new) }
    ensures counts { EndsCounts result (S.ends input.old) (S.ends input.new) (S.faults input.old)
        (S.faults input.new)
        (K.faults output.old) (K.faults output.new) }
    ensures complete { (X : List ℕ) → S.left input.old ≡ Some X → show_task.stop (lines_of X) ≡ None
        → length X ≤ most_octets
        → ¬ Rose (S.faults input.old) (S.faults input.new)
        → ¬ Rose (K.faults output.old) (K.faults output.new)
        → (result ≡ Status.Done) ⊎ (result ≡ Status.OutOfMemory) }
{
    run(alloc, &mut ShowWork { lines: 0 }, input, output)
}
