//! A run that is recorded.

ghost use Rattle.std.specs.Prelude.{◌≡◌, ◌⊎◌, [], None, if◌then◌else◌};
ghost use Rattle.agent_settings.specs.Config.{InLimits};
ghost use Rattle.agent_status.specs.declared.status.Status.TheVariants.{NoThread, OutOfMemory};
ghost use Rattle.agent_server.specs.Ran.{HasToldOnly, RanRecorded, Unstarted, run_by, status_recorded};

use crate::Worker;
use crate::server::{Finish, World, serve_sending};
use agent_settings::Config;
use agent_status::Status;
use run_record::{EntryWriter, Recorded, Recorder, Unrecorded, finish_recording, start_recording};
use std::alloc::Global;
use std::hash::RandomState;
use std::sync::Wait;
use wire_devices::{Clock, Crew, Datagrams, Dialer};

/// How a run ended that was to be recorded, and what is left of it.
pub struct RecordedRun<C, D, L: Dialer, W, E> {
    pub finish: Finish<C, D, L, W>,
    pub record: Recorded<E>,
}

/// The status of a run whose record is short from some moment on, or isn't.
fn status_of(end: Status, closed: Option<u64>) -> Status
    ensures { result ≡ status_recorded end closed }
{
    match (end, closed) {
        (Status::Done, Some(_)) => Status::WriteFault,
        (end, _) => end,
    }
}

/// Ends a run whose recording couldn't be started.
fn unrecorded<C, D, L: Dialer, W, E>(
    world: World<C, D, L, W>,
    refused: Unrecorded<E>,
) -> RecordedRun<C, D, L, W, E>
    ensures finish { result.finish ≡ record {
      status = if refused.refused then NoThread else
          OutOfMemory;
      world = world;
      trail = None;
      home = None;
    } }
    ensures record { result.record ≡ record { writer = refused.writer; closed = None } }
{
    let status = if refused.refused {
        Status::NoThread
    } else {
        Status::OutOfMemory
    };
    RecordedRun {
        finish: Finish {
            status,
            world,
            trail: None,
            home: None,
        },
        record: Recorded {
            writer: refused.writer,
            closed: None,
        },
    }
}

/// Serves as `serve` does, and gives each entry of the run that isn't idle to a thread that writes it. Where an entry can't
/// be kept or written, the record ends before it and the service goes on.
pub fn record<R, C, D, L, W, E, V>(
    rt: &R,
    alloc: Global,
    random: RandomState,
    config: Config,
    world: World<C, D, L, W>,
    until: u64,
    writer: E,
    recorders: &mut V,
) -> RecordedRun<C, D, L, W, E>
where
    R: Wait,
    C: Clock + Send + Drop + 'static,
    D: Datagrams + Send + Drop + 'static,
    L: Dialer,
    L::In: Send + Drop + 'static,
    L::Out: Drop,
    W: Crew<Worker<C, D, L::In>>,
    E: EntryWriter + Send + Drop + 'static,
    V: Crew<Recorder<E>>,
    requires limits { InLimits config }
    requires rows { ((D.told world.auth).row ≡ 0) × ((D.told world.acct).row ≡ 0)
        × ((L.told world.dialer).row ≡ 0) }
    ensures home { result.finish.home ≡ None }
    ensures ran { (base : E.Base) → E.stands writer base []
        → (Unstarted (run_by config until world result.finish) result.record.closed
        (V.faults recorders.old) (V.faults recorders.new)
        × E.stands result.record.writer base [])
        ⊎ RanRecorded E.stands C.readings D.told L.In.told L.Out.told L.told L.made W.faults
        W.started (HasToldOnly (C.readings world.clock)) (run_by config until world result.finish)
        base result.record.writer result.record.closed }
    ensures sound { result.record.closed ≡ None → E.faults result.record.writer ≡ E.faults writer }
{
    let (sender, helper) = match start_recording(alloc, writer, recorders) {
        Ok(ends) => ends,
        Err(refused) => return unrecorded(world, refused),
    };
    let (mut finish, sender) = serve_sending(rt, alloc, random, config, world, until, Some(sender));
    let Some(sender) = sender else { unreachable!() };
    let record = finish_recording(rt, recorders, sender, helper);
    finish.status = status_of(finish.status, record.closed);
    RecordedRun { finish, record }
}
