//! The command that the words of the command line name.

ghost use Rattle.std.specs.Prelude.{◌≡◌, ◌↔◌, None, false};
ghost use Rattle.text_runs.specs.TextEnds.{reads_input};
ghost use Rattle.command_line.specs.Words.{parsed_command as command_of_words, is_recorded, places_of};
ghost use Rattle.socket_commands.specs.Streams.{input_told, output_told};
ghost use Rattle.agent_tool.specs.Commands.{CommandEnded, Unwritten};

use agent_server::{Worker, World};
use agent_status::Status;
use command_line::{Command, Places, command_of};
use peer_runs::Target;
use record_text::RecordText;
use run_record::Recorder;
use socket_commands::{
    CommandEnd, Tape, idle, run_home, run_nas, run_recorder, run_server, unrecorded,
};
use std::alloc::Global;
use std::hash::RandomState;
use std::rt;
use std::sync::Wait;
use text_runs::run_text;
use wire_core::{Sink, Source};
use wire_devices::{Clock, Crew, Datagrams, Dialer};

/// Runs the command that these words name, over this input and this output, and over this outside. The record of a run goes
/// to the tape. `random` is for tables that hash their keys.
pub fn agent<R, S, K, C, D, L, W, Q, T, V>(
    rt: &R,
    alloc: Global,
    random: RandomState,
    words: &[String],
    input: &mut S,
    output: &mut K,
    world: World<C, D, L, W>,
    tape: Tape<Q, T, V>,
) -> CommandEnd<C, D, L, W, Q, T, V>
where
    R: Wait,
    S: Source,
    K: Sink,
    C: Clock + Send + Drop + 'static,
    D: Datagrams + Send + Drop + 'static,
    L: Dialer,
    L::In: Send + Drop + 'static,
    L::Out: Drop,
    W: Crew<Worker<C, D, L::In>>,
    Q: Wait + rt::Clock + Send + Drop + 'static,
    T: Sink + Send + Drop + 'static,
    V: Crew<Recorder<RecordText<Q, T>>>,
    requires rows { ((D.told world.auth).row ≡ 0) × ((D.told world.acct).row ≡ 0)
        × ((L.told world.dialer).row ≡ 0) }
    requires sound { tape.writer.faults ≡ 0 }
    ensures usage { result.finish.status ≡ Status.Usage ↔ command_of_words words.now ≡ None }
    ensures unread { reads_input (command_of_words words.now) ≡ false → input.new ≡ input.old }
    ensures unwritten { Unwritten (command_of_words words.now) result.finish.trail
        (output.new ≡ output.old) }
    ensures idle { places_of (command_of_words words.now) ≡ None
        → result.finish
        ≡ record { status = result.finish.status; world = world; trail = None; home = None } }
    ensures unrecorded { is_recorded (command_of_words words.now) ≡ false
        → result ≡ record { finish = result.finish; tape = tape; closed = None } }
    ensures ended { CommandEnded C.readings D.told L.In.told L.Out.told L.told L.made W.faults
        W.started T.written T.faults V.faults (command_of_words words.now) (record {
          input = input_told S.left S.ends S.faults input.old input.new;
          output = output_told K.written K.faults output.old output.new;
        }) world tape result }
{
    match command_of(words) {
        Some(Command::Text { command }) => {
            let status = run_text(alloc, random, command, input, output);
            unrecorded(idle(status, world), tape)
        }
        Some(
            Command::Run {
                places: Places::Serve { .. },
                millis,
            },
        ) => {
            let finish = run_server(rt, alloc, random, millis, input, output, world);
            unrecorded(finish, tape)
        }
        Some(
            Command::Run {
                places: Places::Record { .. },
                millis,
            },
        ) => run_recorder(rt, alloc, random, millis, input, world, tape),
        Some(
            Command::Run {
                places: Places::Home { .. },
                millis,
            },
        ) => unrecorded(run_home(rt, alloc, millis, input, output, world), tape),
        Some(
            Command::Run {
                places: Places::Nas { address, port },
                millis,
            },
        ) => {
            let place = Target { address, port };
            let finish = run_nas(rt, alloc, place, millis, input, output, world);
            unrecorded(finish, tape)
        }
        None => unrecorded(idle(Status::Usage, world), tape),
    }
}
