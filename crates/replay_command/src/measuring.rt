//! The command `measure`.

ghost use Rattle.std.specs.Prelude.{◌≡◌, ◌≢◌, ◌≤◌, [], None, IfErr, OnOk};
ghost use Rattle.text_commands.specs.Generated.{WriteCounts};
ghost use Rattle.replay_command.specs.Measured.{MeasuresBy};
ghost use Rattle.replay_command.specs.Replay.{Replays, replay_task};

use crate::laws::generated_lines_are_sound;
use crate::replaying::{Replaying, start_replay};
use agent_status::Status;
use generated_logins::Generator;
use std::alloc::Global;
use std::hash::RandomState;
use text_commands::Work;
use wire_core::{Sink, SteadySink};

/// Replays all lines that are still to come, and keeps nothing of what they print.
fn replay_all(alloc: Global, work: &mut Replaying, lines: &mut Generator) -> Result<(), Status>
    requires first { Replays work.old [] }
    requires sound { replay_task.stop lines.old ≡ None }
    ensures replays { OnOk result (Replays work.new lines.old) }
    ensures memory { IfErr result (λ status. status ≡ Status.OutOfMemory) }
{
    work.is_task();
    let Ok(mut nowhere) = SteadySink::new(alloc, 0) else {
        return Err(Status::OutOfMemory);
    };
    loop {
        match lines.next_line() {
            Ok(Some(line)) => match work.take(alloc, line.as_slice(), &mut nowhere) {
                Ok(()) => {}
                Err(status) => return Err(status),
            },
            Ok(None) => return Ok(()),
            Err(_) => return Err(Status::OutOfMemory),
        }
    }
}

/// Replays the transcript that `generate` writes, line by line as it is made, and prints its end line alone.
/// `random` is for a table that hashes its keys.
pub fn measure<K: Sink>(
    alloc: Global,
    random: RandomState,
    count: u32,
    seed: u32,
    output: &mut K,
) -> Status
    requires some { 1 ≤ count }
    requires most { count ≤ 1000000 }
    ensures begun { result ≢ Status.Usage }
    ensures ends { MeasuresBy result count seed (K.written output.old) (K.written output.new) }
    ensures counts { WriteCounts result (K.faults output.old) (K.faults output.new) }
{
    generated_lines_are_sound();
    let Ok(mut work) = start_replay(alloc, random) else {
        return Status::OutOfMemory;
    };
    match replay_all(alloc, &mut work, &mut Generator::new(alloc, count, seed)) {
        Ok(()) => work.close(alloc, output),
        Err(status) => status,
    }
}
