//! The commands `home` and `nas`: the peers of the tests over the outside.

ghost use Rattle.std.specs.Prelude.{◌≡◌, ◌≢◌, None};
ghost use Rattle.socket_commands.specs.PeerEnds.{HomeEnded, NasEnded, link_of};
ghost use Rattle.socket_commands.specs.Streams.{input_told, output_told};

use agent_server::{Finish, Pair, World};
use agent_status::Status;
use peer_runs::{HomeEnd, Target, home, nas};
use std::alloc::Global;
use std::sync::Wait;
use wire_core::{Sink, Source};
use wire_devices::{Clock, Datagrams, Dialer};

/// A link as its two ends.
fn pair_of<I, O>(link: Option<(I, O)>) -> Option<Pair<I, O>>
    ensures { link_of result ≡ link }
{
    match link {
        Some((link_in, link_out)) => Some(Pair { link_in, link_out }),
        None => None,
    }
}

/// Is a home server for so many milliseconds, over one link that is dialled.
pub fn run_home<R, S, K, C, D, L, W>(
    rt: &R,
    alloc: Global,
    millis: u64,
    input: &mut S,
    output: &mut K,
    world: World<C, D, L, W>,
) -> Finish<C, D, L, W>
where
    R: Wait,
    S: Source,
    K: Sink,
    C: Clock,
    D: Datagrams,
    L: Dialer,
    ensures begun { result.status ≢ Status.Usage }
    ensures trail { result.trail ≡ None }
    ensures ended { HomeEnded C.readings L.In.told L.Out.told L.told millis (record {
      input = input_told S.left S.ends S.faults input.old input.new;
      output = output_told K.written K.faults output.old output.new;
    }) world result }
{
    let World {
        mut clock,
        auth,
        acct,
        mut dialer,
        crew,
    } = world;
    let HomeEnd { status, link } = home(rt, alloc, millis, input, output, &mut clock, &mut dialer);
    Finish {
        status,
        world: World {
            clock,
            auth,
            acct,
            dialer,
            crew,
        },
        trail: None,
        home: pair_of(link),
    }
}

/// Sends each packet of the input to this place until it is answered, for so many milliseconds at most.
pub fn run_nas<R, S, K, C, D, L, W>(
    rt: &R,
    alloc: Global,
    place: Target,
    millis: u64,
    input: &mut S,
    output: &mut K,
    world: World<C, D, L, W>,
) -> Finish<C, D, L, W>
where
    R: Wait,
    S: Source,
    K: Sink,
    C: Clock,
    D: Datagrams,
    L: Dialer,
    requires row { (D.told world.auth).row ≡ 0 }
    ensures begun { result.status ≢ Status.Usage }
    ensures trail { (result.trail ≡ None) × (result.home ≡ None) }
    ensures ended { NasEnded C.readings D.told place millis (record {
      input = input_told S.left S.ends S.faults input.old input.new;
      output = output_told K.written K.faults output.old output.new;
    }) world result }
{
    let World {
        mut clock,
        mut auth,
        acct,
        dialer,
        crew,
    } = world;
    let status = nas(
        rt, alloc, place, millis, input, output, &mut clock, &mut auth,
    );
    Finish {
        status,
        world: World {
            clock,
            auth,
            acct,
            dialer,
            crew,
        },
        trail: None,
        home: None,
    }
}
