//! What an event line tells.

ghost use Rattle.std.specs.Prelude.{◌≡◌};
ghost use Rattle.text_lines.specs.Reads.{Reads};
ghost use Rattle.text_lines.specs.Views.{plain};
ghost use Rattle.transcript.specs.Lines as lines;

use crate::kind::EventName;
use agent_events::Input;
use radius_packet::Via;
use std::alloc::Global;
use text_lines::WordFault;
use text_lines::words::{read_address, read_hex, read_number, read_u16};
use wire_core::Octets;

/// What an event line tells by itself.
#[derive(Drop)]
pub(crate) enum Happening {
    Input(Input),
    /// Octets of the link: which messages they end, the lines before tell too.
    Link(Octets),
}

/// The words after `auth` or `acct`.
fn read_datagram(alloc: Global, via: Via, words: &[&[u8]]) -> Result<Happening, WordFault>
    ensures { Reads result (lines.datagram_of via (plain words.now)) }
{
    match words {
        [address, port, hex] => Ok(Happening::Input(Input::Datagram {
            via,
            address: read_address(address)?,
            port: read_u16(port)?,
            octets: read_hex(alloc, hex)?,
        })),
        _ => Err(WordFault::Bad),
    }
}

/// The words after `link`.
fn read_link(alloc: Global, words: &[&[u8]]) -> Result<Happening, WordFault>
    ensures { Reads result (lines.link_of (plain words.now)) }
{
    match words {
        [hex] => Ok(Happening::Link(read_hex(alloc, hex)?)),
        _ => Err(WordFault::Bad),
    }
}

fn read_happening(alloc: Global, name: EventName, words: &[&[u8]]) -> Result<Happening, WordFault>
    ensures { Reads result (lines.happening_of name (plain words.now)) }
{
    match name {
        EventName::Datagram(via) => read_datagram(alloc, via, words),
        EventName::Link => read_link(alloc, words),
        EventName::Up => Ok(Happening::Input(Input::Up)),
        EventName::Ready => Ok(Happening::Input(Input::Ready)),
        EventName::Down => Ok(Happening::Input(Input::Down)),
        EventName::Tick => Ok(Happening::Input(Input::Tick)),
        EventName::Drain => Ok(Happening::Input(Input::Drain)),
        EventName::Leave => Ok(Happening::Input(Input::Leave)),
    }
}

/// The moment of an event line, in milliseconds, and what happened then.
pub(crate) fn read_event(
    alloc: Global,
    name: EventName,
    words: &[&[u8]],
) -> Result<(u64, Happening), WordFault>
    ensures { Reads result (lines.event_of name (plain words.now)) }
{
    match words {
        [moment, _, rest @ ..] => {
            let moment = read_number(moment, u64::MAX)?;
            let happening = read_happening(alloc, name, rest)?;
            Ok((moment, happening))
        }
        _ => Err(WordFault::Bad),
    }
}
