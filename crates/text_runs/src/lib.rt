//! The commands that go from text to text, by their words.
#![tactic(auto)]

ghost use Rattle.std.specs.Prelude.{◌≡◌, ◌≢◌, ◌⊎◌, List, ℕ, Some, false};
ghost use Rattle.wire_core.specs.Counts.{Rose};
ghost use Rattle.command_line.specs.Words.{IsSized};
ghost use Rattle.text_runs.specs.TextEnds.{CountsAs, EndsAs, IsEndAs, IsSound, text_reads};

use agent_status::Status;
use command_line::TextCommand;
use count_command::count;
use dynamic_command::dynamic;
use replay_command::{measure, replay};
use reverse_script::reverse;
use std::alloc::Global;
use std::hash::RandomState;
use text_commands::{check, generate, show};
use trace_command::trace;
use wire_core::{Sink, Source};

/// Runs a command that goes from text to text. `random` is for tables that hash their keys.
pub fn run_text<S: Source, K: Sink>(
    alloc: Global,
    random: RandomState,
    command: TextCommand,
    input: &mut S,
    output: &mut K,
) -> Status
    requires { IsSized command }
    ensures begun { result ≢ Status.Usage }
    ensures unread { text_reads command ≡ false → input.new ≡ input.old }
    ensures ends { EndsAs command result (S.left input.old) (S.left input.new)
        (K.written output.old) (K.written output.new) }
    ensures known { IsEndAs command result }
    ensures counts { CountsAs command result (S.ends input.old) (S.ends input.new)
        (S.faults input.old) (S.faults input.new)
        (K.faults output.old) (K.faults output.new) }
    ensures complete { (X : List ℕ) → S.left input.old ≡ Some X → IsSound command X
        → ¬ Rose (S.faults input.old) (S.faults input.new)
        → ¬ Rose (K.faults output.old) (K.faults output.new)
        → (result ≡ Status.Done) ⊎ (result ≡ Status.OutOfMemory) }
{
    match command {
        TextCommand::Replay => replay(alloc, random, input, output),
        TextCommand::Trace => trace(alloc, random, input, output),
        TextCommand::Count { millis } => count(alloc, random, millis, input, output),
        TextCommand::Dynamic => dynamic(alloc, random, input, output),
        TextCommand::Reverse => reverse(alloc, input, output),
        TextCommand::Check => check(alloc, input, output),
        TextCommand::Show => show(alloc, input, output),
        TextCommand::Generate { count, seed } => generate(alloc, count, seed, output),
        TextCommand::Measure { count, seed } => measure(alloc, random, count, seed, output),
    }
}
