//! The lines of the client's input.

ghost use Rattle.std.specs.Prelude.{◌≡◌, IsOk, IfOk};
ghost use Rattle.std.specs.Option.{option_copied};
ghost use Rattle.std.specs.Result.{is_ok};
ghost use Rattle.radius_packet.specs.Packet.{read_packet};
ghost use Rattle.test_peers.specs.Lines.{words_of};
ghost use Rattle.test_peers.specs.PacketLines.{ReadsPacket, one_of, packet_in};

use crate::lines::cut;
use crate::users::{BAD_WORD, LONGEST_LINE, TOO_LONG, read_hex};
use radius_packet::Packet;
use std::alloc::Global;
use wire_core::{NoMemory, Octets};

const NOT_ONE_WORD: u32 = 2;

/// Why a line names no packet (profile).
#[derive(Clone, Copy, PartialEq, Eq)]
pub enum LineFault {
    /// The first reason that stands: 1, the line has more than 140,000 octets; 2, it hasn't one word; 3, the word isn't
    /// HEX, or its octets are no packet.
    Bad { reason: u32 },
    /// Memory ran out.
    NoMemory,
}

impl From<NoMemory> for LineFault {
    ghost use Rattle.std.specs.Prelude.{◌≡◌};
    ghost use Rattle.test_peers.specs.declared.packet_lines.LineFault.TheVariants as faults;

    ghost from_gives = { λ _ e. e ≡ faults.NoMemory };

    fn from(_e: NoMemory) -> LineFault {
        LineFault::NoMemory
    }
}

/// The word of a line that has one.
#[tactic(auto, using(crate::proofs::LineLemmas::one_of_more, crate::proofs::LineLemmas::pieces_none))]
fn one_word(line: &[u8]) -> Option<&[u8]>
    ensures { option_copied result ≡ one_of (words_of line.now) }
{
    let (word, more) = cut(line, b' ');
    match more {
        None => Some(word),
        Some(_) => None,
    }
}

fn is_packet(octets: &[u8]) -> bool
    ensures { result ≡ is_ok (read_packet octets.now) }
{
    Packet::parse(octets).is_ok()
}

/// The packet of a line that is one word of HEX: pairs of hex digits of either case, or `-` for no octets.
pub fn packet_in_line(alloc: Global, line: &[u8]) -> Result<Octets, LineFault>
    ensures exact { ReadsPacket result (packet_in line.now) }
    ensures packet { IfOk result (λ octets. IsOk (read_packet octets)) }
{
    let bad = |reason: u32| LineFault::Bad { reason };
    if line.len() > LONGEST_LINE {
        return Err(bad(TOO_LONG));
    }
    let word = one_word(line).ok_or(bad(NOT_ONE_WORD))?;
    let octets = read_hex(alloc, word)?.ok_or(bad(BAD_WORD))?;
    if !is_packet(octets.as_slice()) {
        return Err(bad(BAD_WORD));
    }
    Ok(octets)
}
