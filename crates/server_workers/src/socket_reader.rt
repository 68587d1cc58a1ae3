//! The reader of a socket.

ghost use Rattle.std.specs.Prelude.{◌≡◌, ◌^◌, ◌<◌, [], ◌∷◌, flat_map, IfSome};
ghost use Rattle.wire_devices.specs.declared.devices.Datagram.{Datagram};
ghost use Rattle.wire_devices.specs.Sockets.{FailedToReceive, FoundNone, Gave, Socket, datagram};
ghost use Rattle.turnstile.specs.Passes.{known, table_of};
ghost use Rattle.server_workers.specs.Entries.{replies, reply_of, turn_of};
ghost use Rattle.server_workers.specs.Going.{Went};
ghost use Rattle.server_workers.specs.SocketReading.{Hands, ReadsOnce, ReadsSocket, input_of, is_last as last_test};

use crate::base::RunBase;
use crate::heard::Heard;
use crate::turns::{enter, is_final, take_leave};
use agent_events::{Input, Output};
use radius_packet::Via;
use std::alloc::Global;
use std::sync::Wait;
use turnstile::{Desk, Pass, Turnstile};
use wire_core::{NoMemory, Octets};
use wire_devices::{Datagrams, Took};

/// No RADIUS packet is longer.
const BUFFER: usize = 4096;

/// A reader ends after so many receives in a row that failed.
const MOST_FAILURES: u8 = 16;

/// How the reading of a socket ended.
#[derive(Clone, Copy)]
pub struct SocketEnd {
    /// How many datagrams have no entry, since memory was wanting. It stops at 2^64 - 1.
    pub lost: u64,
    /// Whether 16 receives in a row failed.
    pub failed: bool,
}

/// What a reader counts: the datagrams that are lost, and the receives in a row that failed.
#[derive(Clone, Copy)]
struct ReadCounts {
    lost: u64,
    row: u8,
}

/// Sends an output, where it is a reply. A send that fails loses it.
fn send_reply<D: Datagrams>(socket: &mut D, output: &Output)
    ensures { Hands (D.told socket.old) (D.told socket.new) (reply_of output.now) }
{
    if let Output::Reply {
        via: _,
        address,
        port,
        octets,
    } = output
    {
        let _ = socket.send(*address, *port, octets.as_slice());
    }
}

fn send_replies<D: Datagrams>(socket: &mut D, outputs: &[Output])
    ensures { Hands (D.told socket.old) (D.told socket.new) (flat_map reply_of outputs.now) }
{
    for output in outputs {
        send_reply(socket, output);
    }
}

/// Enters an input, and sends the replies that come of it. None where memory was wanting: the input is lost then.
fn answer<
    R: Wait,
    T: Desk<Ask = Input, Answer = Heard, Refusal = NoMemory, Base = RunBase>,
    D: Datagrams,
>(
    rt: &R,
    turnstile: &Turnstile<T>,
    pass: &mut Pass<T>,
    socket: &mut D,
    input: Input,
) -> Option<Heard>
    requires { table_of pass.old ≡ turnstile.now }
    ensures table { table_of pass.new ≡ table_of pass.old }
    ensures went { Went (turn_of input result ∷ []) (known pass.old) (known pass.new) }
    ensures hands { Hands (D.told socket.old) (D.told socket.new)
        (replies (turn_of input result ∷ [])) }
{
    let heard = enter(rt, turnstile, pass, input)?;
    send_replies(socket, heard.outputs.as_slice());
    Some(heard)
}

/// Whether a reader stops after this answer.
fn is_last(heard: &Heard) -> bool
    ensures { result ≡ last_test heard.now }
{
    heard.finished || matches!(heard.closed, Some(cause) if is_final(cause))
}

/// The input that a datagram is, where there is memory for its octets.
fn copied(alloc: Global, via: Via, address: u32, port: u16, octets: &[u8]) -> Option<Input>
    ensures { IfSome result (λ input. input ≡ input_of via (datagram address port octets.now)) }
{
    match Octets::copy(alloc, octets) {
        Ok(octets) => Some(Input::Datagram {
            via,
            address,
            port,
            octets,
        }),
        Err(_) => None,
    }
}

/// Enters a datagram that was received, and sends the replies. True where the reader stops after it. One for which
/// there is no memory is lost.
fn take_in<
    R: Wait,
    T: Desk<Ask = Input, Answer = Heard, Refusal = NoMemory, Base = RunBase>,
    D: Datagrams,
>(
    rt: &R,
    turnstile: &Turnstile<T>,
    pass: &mut Pass<T>,
    socket: &mut D,
    input: Option<Input>,
    counts: &mut ReadCounts,
) -> bool
    requires table { table_of pass.old ≡ turnstile.now }
    requires range { counts.old.lost < 2 ^ 64 }
    ensures table { table_of pass.new ≡ table_of pass.old }
    ensures reads { (via : Via) (d : Datagram) (before : Socket)
        → IfSome input (λ i. i ≡ input_of via d) → Gave before (D.told socket.old) d
        → ReadsOnce via (known pass.old) (known pass.new) before (D.told socket.new) counts.old
        counts.new result }
{
    counts.row = 0;
    if let Some(input) = input {
        if let Some(heard) = answer(rt, turnstile, pass, socket, input) {
            return is_last(&heard);
        }
    }
    counts.lost = counts.lost.saturating_add(1);
    false
}

/// Enters a Tick where no datagram was there. True where the reader stops after it.
fn pass_time<
    R: Wait,
    T: Desk<Ask = Input, Answer = Heard, Refusal = NoMemory, Base = RunBase>,
    D: Datagrams,
>(
    rt: &R,
    turnstile: &Turnstile<T>,
    pass: &mut Pass<T>,
    socket: &mut D,
    counts: &mut ReadCounts,
) -> bool
    requires table { table_of pass.old ≡ turnstile.now }
    requires range { counts.old.lost < 2 ^ 64 }
    ensures table { table_of pass.new ≡ table_of pass.old }
    ensures reads { (via : Via) (before : Socket) → FoundNone before (D.told socket.old)
        → ReadsOnce via (known pass.old) (known pass.new) before (D.told socket.new) counts.old
        counts.new result }
{
    counts.row = 0;
    match answer(rt, turnstile, pass, socket, Input::Tick) {
        Some(heard) => is_last(&heard),
        None => false,
    }
}

/// Counts a receive that failed, and enters a Leave where so many in a row failed that the reader ends.
fn count_failure<
    R: Wait,
    T: Desk<Ask = Input, Answer = Heard, Refusal = NoMemory, Base = RunBase>,
    D: Datagrams,
>(
    rt: &R,
    turnstile: &Turnstile<T>,
    pass: &mut Pass<T>,
    socket: &mut D,
    counts: &mut ReadCounts,
) -> bool
    requires table { table_of pass.old ≡ turnstile.now }
    requires few { counts.old.row < 16 }
    requires range { counts.old.lost < 2 ^ 64 }
    ensures table { table_of pass.new ≡ table_of pass.old }
    ensures reads { (via : Via) (before : Socket) → FailedToReceive before (D.told socket.old)
        → counts.old.row ≡ before.row
        → ReadsOnce via (known pass.old) (known pass.new) before (D.told socket.new) counts.old
        counts.new result }
{
    counts.row += 1;
    if counts.row < MOST_FAILURES {
        return false;
    }
    let left = take_leave(rt, turnstile, pass);
    send_replies(socket, left.outputs.as_slice());
    true
}

/// One look at the socket, and what follows from it. True where it was the last.
fn read_once<
    R: Wait,
    T: Desk<Ask = Input, Answer = Heard, Refusal = NoMemory, Base = RunBase>,
    D: Datagrams,
>(
    rt: &R,
    alloc: Global,
    turnstile: &Turnstile<T>,
    pass: &mut Pass<T>,
    via: Via,
    socket: &mut D,
    buf: &mut [u8],
    counts: &mut ReadCounts,
) -> bool
    requires table { table_of pass.old ≡ turnstile.now }
    requires row { counts.old.row ≡ (D.told socket.old).row }
    requires few { counts.old.row < 16 }
    requires range { counts.old.lost < 2 ^ 64 }
    ensures table { table_of pass.new ≡ table_of pass.old }
    ensures reads { ReadsOnce via (known pass.old) (known pass.new) (D.told socket.old)
        (D.told socket.new) counts.old counts.new result }
{
    match socket.receive(buf) {
        Took::From {
            address,
            port,
            length,
        } => {
            let input = copied(alloc, via, address, port, &buf[..length]);
            take_in(rt, turnstile, pass, socket, input, counts)
        }
        Took::Nothing => pass_time(rt, turnstile, pass, socket, counts),
        Took::Failed => count_failure(rt, turnstile, pass, socket, counts),
    }
}

/// Enters what the socket of this port receives and sends the replies, until the run is at its end, the link won't be
/// made again, or too many receives in a row failed.
pub fn read_socket<
    R: Wait,
    T: Desk<Ask = Input, Answer = Heard, Refusal = NoMemory, Base = RunBase>,
    D: Datagrams,
>(
    rt: &R,
    alloc: Global,
    turnstile: &Turnstile<T>,
    pass: &mut Pass<T>,
    via: Via,
    socket: &mut D,
) -> SocketEnd
    requires table { table_of pass.old ≡ turnstile.now }
    requires row { (D.told socket.old).row ≡ 0 }
    ensures table { table_of pass.new ≡ table_of pass.old }
    ensures reads { ReadsSocket via (known pass.old) (known pass.new) (D.told socket.old)
        (D.told socket.new) result.lost result.failed }
{
    let mut buf = [0; BUFFER];
    let mut counts = ReadCounts { lost: 0, row: 0 };
    for _ in rt.forever() {
        if read_once(
            rt,
            alloc,
            turnstile,
            pass,
            via,
            socket,
            &mut buf,
            &mut counts,
        ) {
            return SocketEnd {
                lost: counts.lost,
                failed: counts.row == MOST_FAILURES,
            };
        }
    }
    unreachable!()
}
