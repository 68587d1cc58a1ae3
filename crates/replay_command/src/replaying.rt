//! The command `replay`, and a replay line by line.

ghost use Rattle.std.specs.Prelude.{◌≡◌, ◌≢◌, ◌≤◌, ◌⊎◌, List, [], ℕ, Some, None, IfOk, length};
ghost use Rattle.wire_core.specs.Counts.{Rose};
ghost use Rattle.replay_command.specs.Replay.{IsReplayed, Replays, replay_task};
ghost use Rattle.text_commands.specs.Tasks.{EndsBy, EndsCounts, IsLinesEnd};
ghost use Rattle.text_lines.specs.Streams.{most_octets};
ghost use Rattle.text_lines.specs.Words.{lines_of};

use crate::counts::Counts;
use agent_status::Status;
use std::alloc::Global;
use std::hash::RandomState;
use text_commands::{TranscriptWork, follow_transcript};
use transcript_runs::Session;
use wire_core::{NoMemory, Sink, Source};

/// A replay that is given the lines one by one.
pub type Replaying = TranscriptWork<Session<Counts>>;

/// A replay before the first line. `random` is for a table that hashes its keys.
pub fn start_replay(alloc: Global, random: RandomState) -> Result<Replaying, NoMemory>
    ensures { IfOk result (λ replaying. Replays replaying []) }
{
    TranscriptWork::new(alloc, Session::new(random, Counts::none()))
}

/// Reads a transcript from the input, and prints what the agent sends for each of its events and the end line.
/// Each line's outputs are written before the next line is read. `random` is for a table that hashes its keys.
pub fn replay<S: Source, K: Sink>(
    alloc: Global,
    random: RandomState,
    input: &mut S,
    output: &mut K,
) -> Status
    ensures begun { result ≢ Status.Usage }
    ensures known { IsLinesEnd result }
    ensures ends { (X : List ℕ) → S.left input.old ≡ Some X
        → EndsBy replay_task result X (S.left input.new) (K.written output.old)
        (K.written output.new) }
    ensures done { (X : List ℕ) → S.left input.old ≡ Some X → result ≡ Status.Done
        → IsReplayed X (S.left input.new) (K.written output.old) (K.written output.new) }
    ensures counts { EndsCounts result (S.ends input.old) (S.ends input.new) (S.faults input.old)
        (S.faults input.new)
        (K.faults output.old) (K.faults output.new) }
    ensures complete { (X : List ℕ) → S.left input.old ≡ Some X
        → replay_task.stop (lines_of X) ≡ None → length X ≤ most_octets
        → ¬ Rose (S.faults input.old) (S.faults input.new)
        → ¬ Rose (K.faults output.old) (K.faults output.new)
        → (result ≡ Status.Done) ⊎ (result ≡ Status.OutOfMemory) }
{
    follow_transcript(alloc, Session::new(random, Counts::none()), input, output)
}
