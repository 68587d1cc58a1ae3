//! An input that is taken whole.

ghost use Rattle.std.specs.Prelude.{◌≡◌, ◌<◌, ◌≤◌, ◌+◌, length, take, Err, Some, None, IfOk, IfErr, IfSome};
ghost use Rattle.wire_core.specs.Counts.{Counts, Rose};
ghost use Rattle.wire_core.specs.Source.{Consumes, IsAtEnd};
ghost use Rattle.text_commands.specs.WholeInput.{TakesNot, most_whole};

use agent_status::Status;
use std::alloc::Global;
use wire_core::{Got, Source};

/// How many octets a read asks for at most.
const CHUNK: usize = 65_536;

/// How many octets are taken at most.
const MOST: usize = 1_048_576;

/// Room for one read.
fn new_chunk(alloc: Global) -> Result<Vec<u8>, Status>
    ensures sized { IfOk result (λ chunk. length chunk.items ≡ 65536) }
    ensures memory { IfErr result (λ status. status ≡ Status.OutOfMemory) }
{
    match Vec::from_elem(alloc, 0, CHUNK) {
        Ok(chunk) => Ok(chunk),
        Err(_) => Err(Status::OutOfMemory),
    }
}

/// How many octets the next read may ask for, so many being taken: past the most, one, which tells whether there are more.
fn room_after(taken: usize) -> usize
    requires { taken ≤ most_whole }
    ensures some { 0 < result }
    ensures chunk { result ≤ 65536 }
    ensures within { taken < most_whole → taken + result ≤ most_whole }
    ensures last { taken ≡ most_whole → result ≡ 1 }
{
    (MOST - taken).clamp(1, CHUNK)
}

/// Reads at most `room` octets to the front of the chunk: how many came, 0 at the end of the source, or None where the
/// read failed.
fn read_front<S: Source>(source: &mut S, chunk: &mut [u8], room: usize) -> Option<usize>
    requires some { 0 < room }
    requires inside { room ≤ length chunk.old }
    ensures reads { IfSome result
        (λ n. (n ≤ room) × Consumes (S.left source.old) (S.left source.new) (take n chunk.new)) }
    ensures kept { length chunk.new ≡ length chunk.old }
    ensures fails { result ≡ None → S.left source.new ≡ S.left source.old }
    ensures end { result ≡ Some 0
        → IsAtEnd (S.left source.old) × (S.left source.new ≡ S.left source.old) }
    ensures counts_ends { Counts (result ≡ Some 0) (S.ends source.old) (S.ends source.new) }
    ensures counts_faults { Counts (result ≡ None) (S.faults source.old) (S.faults source.new) }
{
    match source.read(&mut chunk[..room]) {
        Got::Bytes(count) => Some(count),
        Got::End => Some(0),
        Got::Failed => None,
    }
}

/// All octets of the input, at most 2^20.
pub fn take_whole<S: Source>(alloc: Global, input: &mut S) -> Result<Vec<u8>, Status>
    ensures whole { IfOk result (λ text. (length text.items ≤ most_whole)
        × Consumes (S.left input.old) (S.left input.new) text.items × IsAtEnd (S.left input.new)) }
    ensures ended { IfOk result (λ text. Rose (S.ends input.old) (S.ends input.new)) }
    ensures not { IfErr result (λ status. TakesNot status (S.left input.old) (S.left input.new)) }
    ensures read { result ≡ Err Status.ReadFault → Rose (S.faults input.old) (S.faults input.new) }
{
    let mut text = Vec::new(alloc);
    let Ok(mut chunk) = new_chunk(alloc) else {
        return Err(Status::OutOfMemory);
    };
    loop {
        let room = room_after(text.len());
        match read_front(input, &mut chunk, room) {
            None => return Err(Status::ReadFault),
            Some(0) => return Ok(text),
            Some(count) => {
                if text.len() == MOST {
                    return Err(Status::TooLong);
                }
                if text.extend_from_slice(&chunk[..count]).is_err() {
                    return Err(Status::OutOfMemory);
                }
            }
        }
    }
}
