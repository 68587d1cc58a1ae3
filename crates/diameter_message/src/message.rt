//! A message, read in place.

ghost use Rattle.std.specs.Prelude.{◌≡◌, List, ℕ, Ok, IfOk};
ghost use Rattle.diameter_message.specs.declared.header.Header.{Header};
ghost use Rattle.diameter_message.specs.Message.{IsMessage, read_message};
ghost use Rattle.diameter_message.specs.View.{parsed};

use crate::fault::MessageFault;
use crate::header::Header;
use wire_core::{get_u24, get_u32};

/// A message whose AVPs lie in its octets.
#[derive(Clone, Copy)]
pub struct Message<'a> {
    pub header: Header,
    /// The octets behind the header, which aren't looked at.
    pub avps: &'a [u8],
}

/// The message that these octets are.
pub fn parse(octets: &[u8]) -> Result<Message<'_>, MessageFault>
    ensures exact { parsed result ≡ read_message octets.now }
    ensures found { IfOk result (λ message. IsMessage octets.now message.header message.avps.now) }
    ensures only { (header : Header) (avps : List ℕ)
        → IsMessage octets.now header avps
        → parsed result ≡ Ok (record { header = header; avps = avps }) }
{
    read(octets)
}

#[tactic(auto, unfolding(crate::specs::Message::read_message))]
fn read(octets: &[u8]) -> Result<Message<'_>, MessageFault>
    ensures { parsed result ≡ read_message octets.now }
{
    if octets.len() < 20 {
        return Err(MessageFault::Short);
    }
    if octets[0] != 1 {
        return Err(MessageFault::BadVersion);
    }
    let length = get_u24(octets, 1) as usize;
    if length != octets.len() || length % 4 != 0 {
        return Err(MessageFault::BadLength);
    }
    let header = Header {
        flags: octets[4],
        command: get_u24(octets, 5),
        application: get_u32(octets, 8),
        hop: get_u32(octets, 12),
        end: get_u32(octets, 16),
    };
    Ok(Message {
        header,
        avps: &octets[20..],
    })
}
