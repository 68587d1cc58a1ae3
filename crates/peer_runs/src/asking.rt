//! A client at a socket, from its first step to its end.

ghost use Rattle.std.specs.Prelude.{◌≡◌, ◌<◌, ◌≤◌, length, take, Some, None, Ok, Err, OnOk, OnErr, IfOk, IfErr, IfSome, option_map, List, ℕ, ◌∷◌, []};
ghost use Rattle.std.specs.Option.{option_copied};
ghost use Rattle.wire_core.specs.Counts.{Rose};
ghost use Rattle.wire_devices.specs.Sockets.{Socket};
ghost use Rattle.test_peers.specs.Nas.{fresh};
ghost use Rattle.peer_runs.specs.Asking.{Looks, StepsOnce, EndsAsking};

use agent_status::Status;
use std::sync::Wait;
use test_peers::{Nas, NasOutput};
use wire_devices::{Clock, Datagrams, Took};

/// So many receives in a row that fail end a run.
const MOST_FAILURES: u8 = 16;

/// Where the packets are sent.
#[derive(Clone, Copy, PartialEq, Eq)]
pub struct Target {
    /// An IPv4 address.
    pub address: u32,
    pub port: u16,
}

/// Looks once at the socket: how many octets of the buffer were received, or None where nothing was there or the receive
/// failed.
fn look<D: Datagrams>(socket: &mut D, buf: &mut [u8], failures: &mut u8) -> Option<usize>
    requires row { failures.old ≡ (D.told socket.old).row }
    requires few { failures.old < 16 }
    ensures looks { Looks result (D.told socket.old) (D.told socket.new) buf.new }
    ensures row { failures.new ≡ (D.told socket.new).row }
    ensures faults_stay { (D.told socket.old).faults ≤ (D.told socket.new).faults }
    ensures most { failures.new ≤ 16 }
    ensures failed { failures.new ≡ 16 → result ≡ None }
    ensures rose { failures.new ≡ 16 → Rose (D.told socket.old).faults (D.told socket.new).faults }
{
    match socket.receive(buf) {
        Took::From { length, .. } => {
            *failures = 0;
            Some(length)
        }
        Took::Nothing => {
            *failures = 0;
            None
        }
        Took::Failed => {
            *failures += 1;
            None
        }
    }
}

/// The first so many octets of the buffer.
pub(crate) fn front(buf: &[u8], count: Option<usize>) -> Option<&[u8]>
    requires { IfSome count (λ n. n ≤ length buf.now) }
    ensures { option_copied result ≡ option_map (λ n. take n buf.now) count }
{
    match count {
        Some(count) => Some(&buf[..count]),
        None => None,
    }
}

/// One step of the client at the clock's moment. A send that fails loses its packet.
fn step_once<C: Clock, D: Datagrams>(
    nas: &mut Nas,
    got: Option<&[u8]>,
    place: Target,
    clock: &mut C,
    socket: &mut D,
) -> NasOutput
    ensures steps { StepsOnce place
        (record { nas = nas.old; nas' = nas.new; got = option_copied got.entry; output = result })
        (record {
          clock = C.readings clock.old;
          clock' = C.readings clock.new;
          socket = D.told socket.old;
          socket' = D.told socket.new;
        }) }
    ensures row { (D.told socket.new).row ≡ (D.told socket.old).row }
    ensures faults_stay { (D.told socket.old).faults ≤ (D.told socket.new).faults }
{
    let output = nas.step(clock.now(), got);
    if output == NasOutput::Send {
        let _ = socket.send(place.address, place.port, nas.packet());
    }
    output
}

/// Steps the client to its end: how many octets of the buffer are its reply, or None where it gave up. It isn't at its end
/// where so many receives in a row failed that the run ends.
pub(crate) fn ask<R: Wait, C: Clock, D: Datagrams>(
    rt: &R,
    nas: &mut Nas,
    place: Target,
    buf: &mut [u8],
    failures: &mut u8,
    clock: &mut C,
    socket: &mut D,
) -> Result<Option<usize>, Status>
    requires row { failures.old ≡ (D.told socket.old).row }
    requires few { failures.old < 16 }
    ensures asks { (patience : ℕ) (packet : List ℕ) → nas.old ≡ fresh packet patience
        → EndsAsking result (record { place = place; patience = patience; packet = packet })
        (record {
          clock = C.readings clock.old;
          clock' = C.readings clock.new;
          socket = D.told socket.old;
          socket' = D.told socket.new;
        }) buf.new }
    ensures row { failures.new ≡ (D.told socket.new).row }
    ensures few { OnOk result (failures.new < 16) }
    ensures many { IfErr result (λ status. (status ≡ Status.DatagramFault) × (failures.new ≡ 16)) }
    ensures faults_stay { (D.told socket.old).faults ≤ (D.told socket.new).faults }
    ensures rose { OnErr result (Rose (D.told socket.old).faults (D.told socket.new).faults) }
{
    let mut count = None;
    for _ in rt.forever() {
        let got = front(buf, count);
        match step_once(nas, got, place, clock, socket) {
            NasOutput::Send | NasOutput::Wait => {}
            NasOutput::Reply => return Ok(count),
            NasOutput::GaveUp => return Ok(None),
        }
        count = look(socket, buf, failures);
        if *failures == MOST_FAILURES {
            return Err(Status::DatagramFault);
        }
    }
    unreachable!()
}
