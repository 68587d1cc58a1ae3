//! A request that is sent once more.

ghost use Rattle.std.specs.Prelude.{◌≡◌, ℕ, List, IfOk};
ghost use Rattle.diameter_message.specs.declared.header.Header.{Header};
ghost use Rattle.diameter_message.specs.Message.{IsMessage, message_text};
ghost use Rattle.diameter_message.specs.Retransmission.{retransmission_header};

use crate::command_flags::RETRANSMITTED;
use std::alloc::Global;
use wire_core::{NoMemory, Octets};

/// This message with flag T set and another Hop-by-Hop Identifier, as a request that may have come before is sent on
/// another link (RFC 6733, section 5.5.4). Nothing else changes.
pub fn again(alloc: Global, request: &[u8], hop: u32) -> Result<Octets, NoMemory>
    requires { (header : Header) × (avps : List ℕ) × IsMessage request.now header avps }
    ensures text { (header : Header) (avps : List ℕ) → IsMessage request.now header avps
        → IfOk result (λ o. o ≡ message_text (retransmission_header header hop) avps) }
    ensures message { (header : Header) (avps : List ℕ) → IsMessage request.now header avps
        → IfOk result (λ o. IsMessage o (retransmission_header header hop) avps) }
{
    let mut octets = Octets::copy(alloc, request)?;
    octets.overwrite(4, &[request[4] | RETRANSMITTED]);
    octets.overwrite(12, &hop.to_be_bytes());
    Ok(octets)
}
