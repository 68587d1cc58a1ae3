//! What a control line tells.

ghost use Rattle.std.specs.Prelude.{[], ◌∷◌};
ghost use Rattle.text_lines.specs.Reads.{Reads};
ghost use Rattle.text_lines.specs.Views.{plain};
ghost use Rattle.transcript.specs.Lines as lines;

use std::alloc::Global;
use text_lines::WordFault;
use text_lines::words::{read_address, read_hex, read_number, read_u16};
use wire_core::Octets;

/// What a control line tells: a packet that came at a moment, in milliseconds, and where it came from.
#[derive(Drop)]
pub(crate) struct Control {
    pub(crate) moment: u64,
    pub(crate) address: u32,
    pub(crate) port: u16,
    pub(crate) octets: Octets,
}

/// What these words of a control line tell.
fn control_by(
    alloc: Global,
    moment: &[u8],
    address: &[u8],
    port: &[u8],
    hex: &[u8],
) -> Result<Control, WordFault>
    ensures { Reads result
        (lines.control_of (moment.now ∷ [] ∷ address.now ∷ port.now ∷ hex.now ∷ [])) }
{
    Ok(Control {
        moment: read_number(moment, u64::MAX)?,
        address: read_address(address)?,
        port: read_u16(port)?,
        octets: read_hex(alloc, hex)?,
    })
}

/// The words of a control line.
pub(crate) fn read_control(alloc: Global, words: &[&[u8]]) -> Result<Control, WordFault>
    ensures { Reads result (lines.control_of (plain words.now)) }
{
    match words {
        [moment, _, address, port, hex] => control_by(alloc, moment, address, port, hex),
        _ => Err(WordFault::Bad),
    }
}
