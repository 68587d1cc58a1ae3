//! The command.

ghost use Rattle.std.specs.Prelude.{◌≡◌, ◌≢◌, ◌≤◌, ◌⊎◌, List, ℕ, Some, None, length};
ghost use Rattle.wire_core.specs.Counts.{Rose};
ghost use Rattle.text_commands.specs.Tasks.{EndsBy, EndsCounts, IsLinesEnd};
ghost use Rattle.text_lines.specs.Streams.{most_octets};
ghost use Rattle.text_lines.specs.Words.{lines_of};
ghost use Rattle.count_command.specs.Count.{count_task};

use crate::counter::Counter;
use agent_status::Status;
use std::alloc::Global;
use std::hash::RandomState;
use text_commands::follow_transcript;
use transcript_runs::Session;
use wire_core::{Sink, Source};

/// Reads a transcript from the input, and prints counters of it: a block before each event that reaches one of the moments
/// that lie `millis` milliseconds apart from the first event on, and one at the end. Each is written before the next line is
/// read. `random` is for a table that hashes its keys.
pub fn count<S: Source, K: Sink>(
    alloc: Global,
    random: RandomState,
    millis: u64,
    input: &mut S,
    output: &mut K,
) -> Status
    ensures begun { result ≢ Status.Usage }
    ensures known { IsLinesEnd result }
    ensures ends { (X : List ℕ) → S.left input.old ≡ Some X
        → EndsBy (count_task millis) result X (S.left input.new) (K.written output.old)
        (K.written output.new) }
    ensures counts { EndsCounts result (S.ends input.old) (S.ends input.new) (S.faults input.old)
        (S.faults input.new)
        (K.faults output.old) (K.faults output.new) }
    ensures complete { (X : List ℕ) → S.left input.old ≡ Some X
        → (count_task millis).stop (lines_of X) ≡ None → length X ≤ most_octets
        → ¬ Rose (S.faults input.old) (S.faults input.new)
        → ¬ Rose (K.faults output.old) (K.faults output.new)
        → (result ≡ Status.Done) ⊎ (result ≡ Status.OutOfMemory) }
{
    follow_transcript(
        alloc,
        Session::new(random, Counter::new(alloc, millis)),
        input,
        output,
    )
}
