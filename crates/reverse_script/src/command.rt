//! The command `reverse`.

ghost use Rattle.std.specs.Prelude.{◌≡◌, ◌≢◌, ◌≤◌, ◌⊎◌, List, ℕ, Some, None, length};
ghost use Rattle.wire_core.specs.Counts.{Rose};
ghost use Rattle.reverse_script.specs.Printed.{reverse_task};
ghost use Rattle.text_commands.specs.Tasks.{EndsBy, EndsCounts, IsLinesEnd};
ghost use Rattle.text_lines.specs.Streams.{most_octets};
ghost use Rattle.text_lines.specs.Words.{lines_of};

use crate::work::ReverseWork;
use agent_status::Status;
use std::alloc::Global;
use text_commands::run;
use wire_core::{Sink, Source};

/// Reads a script from the input, and prints what is sent to the RADIUS server and what is answered for each of its lines, and
/// the end line. Each line's outputs are written before the next line is read.
pub fn reverse<S: Source, K: Sink>(alloc: Global, input: &mut S, output: &mut K) -> Status
    ensures begun { result ≢ Status.Usage }
    ensures known { IsLinesEnd result }
    ensures ends { (X : List ℕ) → S.left input.old ≡ Some X
        → EndsBy reverse_task result X (S.left input.new) (K.written output.old)
        (K.written output.new) }
    ensures counts { EndsCounts result (S.ends input.old) (S.ends input.new) (S.faults input.old)
        (S.faults input.new)
        (K.faults output.old) (K.faults output.new) }
    ensures complete { (X : List ℕ) → S.left input.old ≡ Some X
        → reverse_task.stop (lines_of X) ≡ None → length X ≤ most_octets
        → ¬ Rose (S.faults input.old) (S.faults input.new)
        → ¬ Rose (K.faults output.old) (K.faults output.new)
        → (result ≡ Status.Done) ⊎ (result ≡ Status.OutOfMemory) }
{
    run(alloc, &mut ReverseWork::new(), input, output)
}
