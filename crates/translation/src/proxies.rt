//! The Proxy-States of a packet, which its reply hands back (RFC 2865, section 5.33).

ghost use Rattle.std.specs.Prelude.{◌≡◌, ◌≤◌, ◌++◌, length, IfOk, OnOk};
ghost use Rattle.radius_packet.specs.Packet.{attribute_text, attributes_in, attributes_text};
ghost use Rattle.radius_packet.specs.Views.{attribute_view};
ghost use Rattle.translation.specs.Judging.{proxy_states};

use crate::codes::PROXY_STATE;
use radius_packet::{Attribute, Packet};
use std::alloc::Global;
use wire_core::{NoMemory, Octets};

/// Puts an attribute at the end: its type, its length with these two octets, and its value.
fn push_attribute(octets: &mut Vec<u8>, attribute: &Attribute<'_>) -> Result<(), NoMemory>
    requires { length attribute.now.value.now ≤ 253 }
    ensures { OnOk result
        (octets.new.items ≡ octets.old.items ++ attribute_text (attribute_view attribute.now)) }
{
    octets.push(attribute.code)?;
    octets.push(attribute.value.len() as u8 + 2)?;
    octets.extend_from_slice(attribute.value)?;
    Ok(())
}

/// The Proxy-States of the packet, as they stand in it, joined in order.
pub fn proxy_states(alloc: Global, packet: &Packet<'_>) -> Result<Octets, NoMemory>
    ensures text { IfOk result (λ o. o ≡ attributes_text (proxy_states packet.now.attributes)) }
    // They are whole attributes, as an answer wants them.
    ensures whole { IfOk result (λ o. o ≡ attributes_text (attributes_in o)) }
{
    let mut joined = Vec::new(alloc);
    for attribute in packet.attributes() {
        if attribute.code == PROXY_STATE {
            push_attribute(&mut joined, &attribute)?;
        }
    }
    Ok(Octets::from_vec(joined))
}
