//! The command `serve`.

ghost use Rattle.std.specs.Prelude.{◌≡◌, ◌≢◌, None, Some, IfSome, IfNone, IfOk};
ghost use Rattle.wire_core.specs.Counts.{Rose};
ghost use Rattle.agent_settings.specs.Config.{InLimits};
ghost use Rattle.agent_status.specs.declared.status.Status.{Status};
ghost use Rattle.agent_server.specs.Ran.{IsAny};
ghost use Rattle.socket_commands.specs.Serves.{IsRunEnd, IsSoundEnd, RanFor, Reports, ServeEnded, after_failure, served_line, with_boot};
ghost use Rattle.socket_commands.specs.Streams.{NoDeviceFailed, input_told, output_told};

use agent_server::{Finish, Worker, World, serve};
use agent_settings::Config;
use agent_status::Status;
use std::alloc::Global;
use std::hash::RandomState;
use std::sync::Wait;
use text_commands::{take_settings, write_text};
use wire_core::{NoMemory, Octets, Sink, Source};
use wire_devices::{Clock, Crew, Datagrams, Dialer};

/// The settings with the boot that a run has: where none is set, the clock's first reading in whole seconds.
pub(crate) fn booted(mut config: Config, first: u64) -> Config
    requires { InLimits config }
    ensures exact { result ≡ with_boot first config }
    ensures limits { InLimits result }
{
    let seconds = (first / 1000 % (1 << 32)) as u32;
    config.boot = config.boot.or(Some(seconds));
    config
}

/// The line that tells of a run.
fn line_of(alloc: Global, entries: u64, lost: u64) -> Result<Octets, NoMemory>
    ensures { IfOk result (λ line. line ≡ served_line entries lost) }
{
    let text = format!(in alloc; "served {entries} {lost}\n")?;
    Ok(Octets::from_vec(text.into_bytes()))
}

/// The status of a run of whose line a write failed.
fn failed(end: Status) -> Status
    ensures { result ≡ after_failure end }
{
    match end {
        Status::OutOfMemory | Status::NoThread | Status::DatagramFault | Status::LinkFault => end,
        _ => Status::WriteFault,
    }
}

/// Writes the line that tells of a run, and gives the status of the command.
fn report<K: Sink>(alloc: Global, output: &mut K, entries: u64, lost: u64, end: Status) -> Status
    ensures { Reports end result (served_line entries lost) (K.written output.old)
        (K.written output.new) (K.faults output.old) (K.faults output.new) }
{
    let Ok(line) = line_of(alloc, entries, lost) else {
        return Status::OutOfMemory;
    };
    match write_text(output, line.as_slice()) {
        Ok(()) => end,
        Err(_) => failed(end),
    }
}

/// A run that didn't begin, or that was no server's.
pub fn idle<C, D, L: Dialer, W>(status: Status, world: World<C, D, L, W>) -> Finish<C, D, L, W>
    ensures { result ≡ record { status = status; world = world; trail = None; home = None } }
{
    Finish {
        status,
        world,
        trail: None,
        home: None,
    }
}

/// Serves by these settings for so many milliseconds, and writes how many entries the run had and how many inputs it lost.
fn serve_for<R, K, C, D, L, W>(
    rt: &R,
    alloc: Global,
    random: RandomState,
    millis: u64,
    config: Config,
    output: &mut K,
    world: World<C, D, L, W>,
) -> Finish<C, D, L, W>
where
    R: Wait,
    K: Sink,
    C: Clock + Send + Drop + 'static,
    D: Datagrams + Send + Drop + 'static,
    L: Dialer,
    L::In: Send + Drop + 'static,
    L::Out: Drop,
    W: Crew<Worker<C, D, L::In>>,
    requires limits { InLimits config }
    requires rows { ((D.told world.auth).row ≡ 0) × ((D.told world.acct).row ≡ 0)
        × ((L.told world.dialer).row ≡ 0) }
    ensures home { result.home ≡ None }
    ensures ran { (end : Status) × RanFor C.readings D.told L.In.told L.Out.told L.told L.made
        W.faults W.started config millis world (record result { status = end }) (λ first. IsAny)
        × IfSome result.trail (λ t. Reports end result.status (served_line t.entries t.lost)
        (K.written output.old) (K.written output.new) (K.faults output.old) (K.faults output.new))
        × IfNone result.trail (result.status ≡ end) }
    ensures unwritten { IfNone result.trail (output.new ≡ output.old) }
    ensures ends { IsRunEnd result.status }
    ensures wrote { result.status ≡ Status.WriteFault
        → Rose (K.faults output.old) (K.faults output.new) }
    ensures sound { ¬ Rose (K.faults output.old) (K.faults output.new)
        → NoDeviceFailed D.told L.told W.faults world result.world → IsSoundEnd result.status }
{
    let World {
        mut clock,
        auth,
        acct,
        dialer,
        crew,
    } = world;
    let first = clock.now();
    let world = World {
        clock,
        auth,
        acct,
        dialer,
        crew,
    };
    let until = first.saturating_add(millis);
    let Finish {
        status: end,
        world,
        trail,
        home,
    } = serve(rt, alloc, random, booted(config, first), world, until);
    let Some(trail) = trail else {
        return Finish {
            status: end,
            world,
            trail: None,
            home,
        };
    };
    let status = report(alloc, output, trail.entries, trail.lost, end);
    Finish {
        status,
        world,
        trail: Some(trail),
        home,
    }
}

/// Reads settings and serves RADIUS clients by the home server for so many milliseconds, and writes how many entries the
/// run had and how many inputs it lost.
pub fn run_server<R, S, K, C, D, L, W>(
    rt: &R,
    alloc: Global,
    random: RandomState,
    millis: u64,
    input: &mut S,
    output: &mut K,
    world: World<C, D, L, W>,
) -> Finish<C, D, L, W>
where
    R: Wait,
    S: Source,
    K: Sink,
    C: Clock + Send + Drop + 'static,
    D: Datagrams + Send + Drop + 'static,
    L: Dialer,
    L::In: Send + Drop + 'static,
    L::Out: Drop,
    W: Crew<Worker<C, D, L::In>>,
    requires rows { ((D.told world.auth).row ≡ 0) × ((D.told world.acct).row ≡ 0)
        × ((L.told world.dialer).row ≡ 0) }
    ensures begun { result.status ≢ Status.Usage }
    ensures home { result.home ≡ None }
    ensures ended { ServeEnded C.readings D.told L.In.told L.Out.told L.told L.made W.faults
        W.started millis (record {
          input = input_told S.left S.ends S.faults input.old input.new;
          output = output_told K.written K.faults output.old output.new;
        }) world result }
    ensures unwritten { IfNone result.trail (output.new ≡ output.old) }
{
    match take_settings(alloc, input) {
        Ok(config) => serve_for(rt, alloc, random, millis, config, output, world),
        Err(status) => idle(status, world),
    }
}
