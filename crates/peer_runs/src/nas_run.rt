//! The run of the test client.

ghost use Rattle.std.specs.Prelude.{◌≡◌, ◌≢◌, ◌<◌, ◌≤◌, ◌⊎◌, ◌↔◌, ◌∷◌, [], List, ℕ, length, Some, Ok, Err, IsOk, IfOk, IfErr, OnOk};
ghost use Rattle.std.specs.List.{AllByRecursion};
ghost use Rattle.std.specs.Option.{option_copied};
ghost use Rattle.wire_core.specs.Counts.{Rose, one_more};
ghost use Rattle.wire_devices.specs.Sockets.{Socket};
ghost use Rattle.radius_packet.specs.Packet.{read_packet};
ghost use Rattle.text_lines.specs.Streams.{most_octets};
ghost use Rattle.text_lines.specs.Words.{lines_of};
ghost use Rattle.test_peers.specs.PacketLines.{packet_in};
ghost use Rattle.text_commands.specs.Shown.{ShowsNot};
ghost use Rattle.text_commands.specs.Tasks.{EndsCounts};
ghost use Rattle.peer_runs.specs.NasRuns.{AsksLine, AsksText, NasEnds, answer_text, status_at};

use crate::asking::{Target, ask, front};
use agent_status::Status;
use std::alloc::Global;
use std::sync::Wait;
use test_peers::{LineFault, Nas, packet_in_line};
use text_commands::write_text;
use text_lines::{LONGEST_LINE, RawFault, RawLine, RawLines};
use wire_core::{NoMemory, Octets, Sink, Source};
use wire_devices::{Clock, Datagrams};

/// No RADIUS packet is longer.
const BUFFER: usize = 4096;

/// What a run counts: the lines that were answered, and the receives in a row that failed.
#[derive(Clone, Copy)]
struct NasCounts {
    lines: u64,
    failures: u8,
}

/// The number of the line after so many. A count stands still at its end.
fn number_after(lines: u64) -> u64
    ensures { result ≡ one_more lines }
{
    lines.saturating_add(1)
}

/// The packet of the line of this number.
fn packet_of(alloc: Global, number: u64, line: &[u8]) -> Result<Octets, Status>
    ensures ok { IfOk result (λ octets. packet_in line.now ≡ Ok octets) }
    ensures packet { IfOk result (λ octets. IsOk (read_packet octets)) }
    ensures err { IfErr result (λ status. ShowsNot status number (packet_in line.now)) }
{
    match packet_in_line(alloc, line) {
        Ok(octets) => Ok(octets),
        Err(LineFault::Bad { reason }) => Err(Status::BadTranscript {
            line: number,
            reason,
        }),
        Err(LineFault::NoMemory) => Err(Status::OutOfMemory),
    }
}

/// `reply` and these octets in hex.
fn reply_text(alloc: Global, octets: &[u8]) -> Result<Octets, NoMemory>
    ensures { IfOk result (λ text. text ≡ answer_text (Some octets.now)) }
{
    let digits = hex::encode(alloc, octets)?;
    let mut text = Vec::from_slice(alloc, b"reply ")?;
    text.extend_from_slice(digits.as_bytes())?;
    text.push(b'\n')?;
    Ok(Octets::from_vec(text))
}

/// The line of a client with this answer.
fn answer_line(alloc: Global, answer: Option<&[u8]>) -> Result<Octets, NoMemory>
    ensures { IfOk result (λ text. text ≡ answer_text (option_copied answer.entry)) }
{
    match answer {
        Some(octets) => reply_text(alloc, octets),
        None => Octets::copy(alloc, b"none\n"),
    }
}

/// Asks for the line of this number, by one client: its text.
fn ask_text<R: Wait, C: Clock, D: Datagrams>(
    rt: &R,
    alloc: Global,
    place: Target,
    patience: u64,
    number: u64,
    line: &[u8],
    buf: &mut [u8],
    failures: &mut u8,
    clock: &mut C,
    socket: &mut D,
) -> Result<Octets, Status>
    requires row { failures.old ≡ (D.told socket.old).row }
    requires few { failures.old < 16 }
    ensures text { AsksText result place patience number line.now (record {
      clock = C.readings clock.old;
      clock' = C.readings clock.new;
      socket = D.told socket.old;
      socket' = D.told socket.new;
    }) }
    ensures row { failures.new ≡ (D.told socket.new).row }
    ensures most { failures.new ≤ 16 }
    ensures many { (result ≡ Err Status.DatagramFault) ↔ (failures.new ≡ 16) }
    ensures faults_stay { (D.told socket.old).faults ≤ (D.told socket.new).faults }
    ensures rose { result ≡ Err Status.DatagramFault
        → Rose (D.told socket.old).faults (D.told socket.new).faults }
{
    let packet = match packet_of(alloc, number, line) {
        Ok(packet) => packet,
        Err(status) => return Err(status),
    };
    let mut nas = Nas::new(packet, patience);
    let count = match ask(rt, &mut nas, place, buf, failures, clock, socket) {
        Ok(count) => count,
        Err(status) => return Err(status),
    };
    match answer_line(alloc, front(buf, count)) {
        Ok(text) => Ok(text),
        Err(_) => Err(Status::OutOfMemory),
    }
}

/// Asks for a line, and writes its text.
fn ask_line<R: Wait, K: Sink, C: Clock, D: Datagrams>(
    rt: &R,
    alloc: Global,
    place: Target,
    patience: u64,
    line: &[u8],
    buf: &mut [u8],
    counts: &mut NasCounts,
    output: &mut K,
    clock: &mut C,
    socket: &mut D,
) -> Result<(), Status>
    requires row { counts.old.failures ≡ (D.told socket.old).row }
    requires few { counts.old.failures < 16 }
    ensures line { AsksLine result place patience (one_more counts.old.lines) line.now
        (K.written output.old) (K.written output.new) (record {
          clock = C.readings clock.old;
          clock' = C.readings clock.new;
          socket = D.told socket.old;
          socket' = D.told socket.new;
        }) }
    ensures lines { OnOk result (counts.new.lines ≡ one_more counts.old.lines) }
    ensures row { counts.new.failures ≡ (D.told socket.new).row }
    ensures most { counts.new.failures ≤ 16 }
    ensures many { (result ≡ Err Status.DatagramFault) ↔ (counts.new.failures ≡ 16) }
    ensures faults_stay { (D.told socket.old).faults ≤ (D.told socket.new).faults }
    ensures rose { result ≡ Err Status.DatagramFault
        → Rose (D.told socket.old).faults (D.told socket.new).faults }
    ensures write_fault { result ≡ Err Status.WriteFault
        → Rose (K.faults output.old) (K.faults output.new) }
    ensures writes_stay { K.faults output.old ≤ K.faults output.new }
{
    let number = number_after(counts.lines);
    let text = match ask_text(
        rt,
        alloc,
        place,
        patience,
        number,
        line,
        buf,
        &mut counts.failures,
        clock,
        socket,
    ) {
        Ok(text) => text,
        Err(status) => return Err(status),
    };
    match write_text(output, text.as_slice()) {
        Ok(()) => {
            counts.lines = number;
            Ok(())
        }
        Err(status) => Err(status),
    }
}

/// How the run ends where the next line can't be taken of the input, so many lines being answered.
fn fault_status(lines: u64, fault: RawFault) -> Status
    ensures { result ≡ status_at (one_more lines) fault }
{
    match fault {
        RawFault::Read => Status::ReadFault,
        RawFault::TooMuch => Status::TooLong,
        RawFault::LongLine => Status::BadTranscript {
            line: number_after(lines),
            reason: 1,
        },
        RawFault::NoMemory => Status::OutOfMemory,
    }
}

/// Reads lines of one word of HEX each, a packet, and asks for each by a client with this patience in milliseconds, which
/// sends it to the place until it is answered or gives up. Prints the reply that came for each line, or that none did.
pub fn nas<R: Wait, S: Source, K: Sink, C: Clock, D: Datagrams>(
    rt: &R,
    alloc: Global,
    place: Target,
    patience: u64,
    input: &mut S,
    output: &mut K,
    clock: &mut C,
    socket: &mut D,
) -> Status
    requires { (D.told socket.old).row ≡ 0 }
    ensures begun { result ≢ Status.Usage }
    // What the clients did, and by the status what was taken and written.
    ensures ends { NasEnds result place patience (record {
      input = S.left input.old;
      input' = S.left input.new;
      output = K.written output.old;
      output' = K.written output.new;
      clock = C.readings clock.old;
      clock' = C.readings clock.new;
      socket = D.told socket.old;
      socket' = D.told socket.new;
    }) }
    ensures numbered { (line reason : ℕ) → result ≡ Status.BadTranscript line reason → 0 < line }
    // When each fault comes.
    ensures fault { (result ≡ Status.DatagramFault) ↔ ((D.told socket.new).row ≡ 16) }
    ensures counts { EndsCounts result (S.ends input.old) (S.ends input.new) (S.faults input.old)
        (S.faults input.new)
        (K.faults output.old) (K.faults output.new) }
    ensures rose { result ≡ Status.DatagramFault
        → Rose (D.told socket.old).faults (D.told socket.new).faults }
    ensures complete { (X : List ℕ) → S.left input.old ≡ Some X
        → AllByRecursion (λ line. IsOk (packet_in line)) (lines_of X) → length X ≤ most_octets
        → ¬ Rose (S.faults input.old) (S.faults input.new)
        → ¬ Rose (K.faults output.old) (K.faults output.new)
        → ¬ Rose (D.told socket.old).faults (D.told socket.new).faults
        → (result ≡ Status.Done) ⊎ (result ≡ Status.OutOfMemory) }
{
    // The memory of the reading is taken first: where it is wanting, the input is as it was.
    let Ok(mut lines) = RawLines::new(alloc, LONGEST_LINE) else {
        return Status::OutOfMemory;
    };
    let mut buf = [0; BUFFER];
    let mut counts = NasCounts {
        lines: 0,
        failures: 0,
    };
    loop {
        let next = match lines.next_line(input) {
            Ok(next) => next,
            Err(fault) => return fault_status(counts.lines, fault),
        };
        if next == RawLine::End {
            return Status::Done;
        }
        if let Err(status) = ask_line(
            rt,
            alloc,
            place,
            patience,
            lines.line(),
            &mut buf,
            &mut counts,
            output,
            clock,
            socket,
        ) {
            return status;
        }
        if next == RawLine::LastLine {
            return Status::Done;
        }
    }
}
