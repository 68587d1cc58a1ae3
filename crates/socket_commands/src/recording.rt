//! The command `record`.

ghost use Rattle.std.specs.Prelude.{◌≡◌, ◌≢◌, None};
ghost use Rattle.wire_core.specs.Counts.{Rose};
ghost use Rattle.agent_settings.specs.Config.{InLimits};
ghost use Rattle.socket_commands.specs.Records.{RecordEnded, RecordsBy, tape_told};
ghost use Rattle.socket_commands.specs.Serves.{IsRunEnd, IsSoundEnd};
ghost use Rattle.socket_commands.specs.Streams.{NoDeviceFailed, input_told};

use crate::serving::{booted, idle};
use agent_server::{Finish, RecordedRun, Worker, World, record};
use agent_settings::Config;
use agent_status::Status;
use record_text::RecordText;
use run_record::Recorder;
use std::alloc::Global;
use std::hash::RandomState;
use std::rt;
use std::sync::Wait;
use text_commands::take_settings;
use wire_core::{Sink, Source};
use wire_devices::{Clock, Crew, Datagrams, Dialer};

/// Where the record of a run goes to: what writes it, and what runs that in a thread.
#[derive(Drop)]
pub struct Tape<Q, T, V> {
    pub writer: RecordText<Q, T>,
    pub crew: V,
}

/// How a command ended, and what is left of it and of its record.
pub struct CommandEnd<C, D, L: Dialer, W, Q, T, V> {
    pub finish: Finish<C, D, L, W>,
    pub tape: Tape<Q, T, V>,
    /// The moment of the first entry that wasn't written, where one wasn't.
    pub closed: Option<u64>,
}

/// The end of a command that recorded nothing.
pub fn unrecorded<C, D, L: Dialer, W, Q, T, V>(
    finish: Finish<C, D, L, W>,
    tape: Tape<Q, T, V>,
) -> CommandEnd<C, D, L, W, Q, T, V>
    ensures { result ≡ record { finish = finish; tape = tape; closed = None } }
{
    CommandEnd {
        finish,
        tape,
        closed: None,
    }
}

/// Serves by these settings for so many milliseconds, and writes the record of the run behind its settings.
fn record_for<R, C, D, L, W, Q, T, V>(
    rt: &R,
    alloc: Global,
    random: RandomState,
    millis: u64,
    config: Config,
    world: World<C, D, L, W>,
    tape: Tape<Q, T, V>,
) -> CommandEnd<C, D, L, W, Q, T, V>
where
    R: Wait,
    C: Clock + Send + Drop + 'static,
    D: Datagrams + Send + Drop + 'static,
    L: Dialer,
    L::In: Send + Drop + 'static,
    L::Out: Drop,
    W: Crew<Worker<C, D, L::In>>,
    Q: Wait + rt::Clock + Send + Drop + 'static,
    T: Sink + Send + Drop + 'static,
    V: Crew<Recorder<RecordText<Q, T>>>,
    requires limits { InLimits config }
    requires rows { ((D.told world.auth).row ≡ 0) × ((D.told world.acct).row ≡ 0)
        × ((L.told world.dialer).row ≡ 0) }
    requires sound { tape.writer.faults ≡ 0 }
    ensures home { result.finish.home ≡ None }
    ensures recorded { RecordsBy C.readings D.told L.In.told L.Out.told L.told L.made W.faults
        W.started config millis world result.finish
        (tape_told T.written T.faults V.faults tape result) }
    ensures ends { IsRunEnd result.finish.status }
    ensures wrote { result.closed ≡ None → result.finish.status ≡ Status.WriteFault
        → Rose (T.faults tape.writer.sink) (T.faults result.tape.writer.sink) }
    ensures sound { result.closed ≡ None
        → ¬ Rose (T.faults tape.writer.sink) (T.faults result.tape.writer.sink)
        → ¬ Rose (V.faults tape.crew) (V.faults result.tape.crew)
        → NoDeviceFailed D.told L.told W.faults world result.finish.world
        → IsSoundEnd result.finish.status }
{
    let World {
        mut clock,
        auth,
        acct,
        dialer,
        crew,
    } = world;
    let first = clock.now();
    let world = World {
        clock,
        auth,
        acct,
        dialer,
        crew,
    };
    let config = booted(config, first);
    let until = first.saturating_add(millis);
    let Tape {
        mut writer,
        crew: mut recorders,
    } = tape;
    match writer.begin(&config) {
        Ok(()) => {}
        Err(status) => {
            let tape = Tape {
                writer,
                crew: recorders,
            };
            return unrecorded(idle(status, world), tape);
        }
    }
    let RecordedRun { finish, record } = record(
        rt,
        alloc,
        random,
        config,
        world,
        until,
        writer,
        &mut recorders,
    );
    CommandEnd {
        finish,
        tape: Tape {
            writer: record.writer,
            crew: recorders,
        },
        closed: record.closed,
    }
}

/// Reads settings, serves RADIUS clients by the home server for so many milliseconds, and writes the record of the run: the
/// lines of its settings, and then a line for each entry that isn't idle.
pub fn run_recorder<R, S, C, D, L, W, Q, T, V>(
    rt: &R,
    alloc: Global,
    random: RandomState,
    millis: u64,
    input: &mut S,
    world: World<C, D, L, W>,
    tape: Tape<Q, T, V>,
) -> CommandEnd<C, D, L, W, Q, T, V>
where
    R: Wait,
    S: Source,
    C: Clock + Send + Drop + 'static,
    D: Datagrams + Send + Drop + 'static,
    L: Dialer,
    L::In: Send + Drop + 'static,
    L::Out: Drop,
    W: Crew<Worker<C, D, L::In>>,
    Q: Wait + rt::Clock + Send + Drop + 'static,
    T: Sink + Send + Drop + 'static,
    V: Crew<Recorder<RecordText<Q, T>>>,
    requires rows { ((D.told world.auth).row ≡ 0) × ((D.told world.acct).row ≡ 0)
        × ((L.told world.dialer).row ≡ 0) }
    requires sound { tape.writer.faults ≡ 0 }
    ensures begun { result.finish.status ≢ Status.Usage }
    ensures home { result.finish.home ≡ None }
    ensures ended { RecordEnded C.readings D.told L.In.told L.Out.told L.told L.made W.faults
        W.started T.written T.faults V.faults millis
        (input_told S.left S.ends S.faults input.old input.new) world tape result }
{
    match take_settings(alloc, input) {
        Ok(config) => record_for(rt, alloc, random, millis, config, world, tape),
        Err(status) => unrecorded(idle(status, world), tape),
    }
}
