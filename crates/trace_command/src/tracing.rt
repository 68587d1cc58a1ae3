//! The command.

ghost use Rattle.std.specs.Prelude.{◌≡◌, ◌≢◌, ◌≤◌, ◌⊎◌, List, ℕ, Some, None, length};
ghost use Rattle.wire_core.specs.Counts.{Rose};
ghost use Rattle.text_commands.specs.Tasks.{EndsBy, EndsCounts, IsLinesEnd};
ghost use Rattle.text_lines.specs.Streams.{most_octets};
ghost use Rattle.text_lines.specs.Words.{lines_of};
ghost use Rattle.trace_command.specs.Trace.{trace_task};

use crate::tracer::Tracer;
use agent_status::Status;
use std::alloc::Global;
use std::hash::RandomState;
use text_commands::follow_transcript;
use transcript_runs::Session;
use wire_core::{Sink, Source};

/// Reads a transcript from the input, and prints each input and what goes out for it in names. Each input's lines are
/// written before the next line is read. `random` is for a table that hashes its keys.
pub fn trace<S: Source, K: Sink>(
    alloc: Global,
    random: RandomState,
    input: &mut S,
    output: &mut K,
) -> Status
    ensures begun { result ≢ Status.Usage }
    ensures known { IsLinesEnd result }
    ensures ends { (X : List ℕ) → S.left input.old ≡ Some X
        → EndsBy trace_task result X (S.left input.new) (K.written output.old)
        (K.written output.new) }
    ensures counts { EndsCounts result (S.ends input.old) (S.ends input.new) (S.faults input.old)
        (S.faults input.new)
        (K.faults output.old) (K.faults output.new) }
    ensures complete { (X : List ℕ) → S.left input.old ≡ Some X
        → trace_task.stop (lines_of X) ≡ None → length X ≤ most_octets
        → ¬ Rose (S.faults input.old) (S.faults input.new)
        → ¬ Rose (K.faults output.old) (K.faults output.new)
        → (result ≡ Status.Done) ⊎ (result ≡ Status.OutOfMemory) }
{
    follow_transcript(alloc, Session::new(random, Tracer {}), input, output)
}
