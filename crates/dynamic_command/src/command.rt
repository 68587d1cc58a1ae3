//! The command `dynamic`.

ghost use Rattle.std.specs.Prelude.{◌≡◌, ◌≢◌, ◌≤◌, ◌⊎◌, List, ℕ, Some, None, length};
ghost use Rattle.wire_core.specs.Counts.{Rose};
ghost use Rattle.dynamic_command.specs.Dynamic.{dynamic_task};
ghost use Rattle.text_commands.specs.Tasks.{EndsBy, EndsCounts, IsLinesEnd};
ghost use Rattle.text_lines.specs.Streams.{most_octets};
ghost use Rattle.text_lines.specs.Words.{lines_of};

use crate::session::BookSession;
use agent_status::Status;
use std::alloc::Global;
use std::hash::RandomState;
use text_commands::follow_transcript;
use wire_core::{Sink, Source};

/// Reads a transcript in which control lines may stand from the input, and prints what the agent and the book of sessions
/// beside it send for each of its lines, and the end line. Each line's outputs are written before the next line is read.
/// `random` is for tables that hash their keys.
pub fn dynamic<S: Source, K: Sink>(
    alloc: Global,
    random: RandomState,
    input: &mut S,
    output: &mut K,
) -> Status
    ensures begun { result ≢ Status.Usage }
    ensures known { IsLinesEnd result }
    ensures ends { (X : List ℕ) → S.left input.old ≡ Some X
        → EndsBy dynamic_task result X (S.left input.new) (K.written output.old)
        (K.written output.new) }
    ensures counts { EndsCounts result (S.ends input.old) (S.ends input.new) (S.faults input.old)
        (S.faults input.new)
        (K.faults output.old) (K.faults output.new) }
    ensures complete { (X : List ℕ) → S.left input.old ≡ Some X
        → dynamic_task.stop (lines_of X) ≡ None → length X ≤ most_octets
        → ¬ Rose (S.faults input.old) (S.faults input.new)
        → ¬ Rose (K.faults output.old) (K.faults output.new)
        → (result ≡ Status.Done) ⊎ (result ≡ Status.OutOfMemory) }
{
    follow_transcript(alloc, BookSession::new(random), input, output)
}
