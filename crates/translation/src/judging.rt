//! What packets of both codes are judged by.

ghost use Rattle.std.specs.Prelude.{◌≡◌, ◌+◌, ◌≤◌, length};
ghost use Rattle.wire_core.specs.Numbers.{number};
ghost use Rattle.radius_packet.specs.Views.{attribute_view};
ghost use Rattle.attribute_table.specs.Vendors.{vendor_parts};
ghost use Rattle.translation.specs.Judging as specs;
ghost use Rattle.translation.specs.Faults as faults;

use crate::codes::{NAS_IP_ADDRESS, PROXY_STATE, VENDOR_SPECIFIC};
use crate::direction::Direction;
use crate::values::is_good;
use agent_settings::Client;
use attribute_table::{is_key, vsa};
use radius_packet::{Attribute, Reason};
use wire_core::get_u32;

/// How many octets the Proxy-States of a packet may have, with their headers.
const MOST_PROXY_OCTETS: usize = 2048;

/// What a pass over the attributes of a packet, of either code, has found to speak against it.
#[derive(Clone, Copy)]
pub struct Faults {
    /// Whether a NAS-IP-Address is another's.
    pub foreign: bool,
    /// Whether an attribute holds a key.
    pub key: bool,
    /// The type of the first attribute with a bad value.
    pub bad: Option<u8>,
    /// How many octets the Proxy-States have, with their headers.
    pub proxy: usize,
}

/// Whether this is a NAS-IP-Address that is neither the source nor one of the client's.
fn is_foreign(client: &Client, source: u32, attribute: &Attribute<'_>) -> bool
    ensures { result ≡ specs.is_foreign client.now source (attribute_view attribute.now) }
{
    if attribute.code != NAS_IP_ADDRESS || attribute.value.len() != 4 {
        return false;
    }
    let address = get_u32(attribute.value, 0);
    address != source && !client.nas.as_slice().contains(&address)
}

/// Whether a part of a Vendor-Specific attribute holds a key.
fn has_key_part(value: &[u8]) -> bool
    ensures { result ≡ specs.has_key_part (vendor_parts value.now) }
{
    match vsa(value) {
        Some(mut parts) => parts.any(|part| is_key(part.code.into(), Some(part.vendor))),
        None => false,
    }
}

fn is_key_attribute(attribute: &Attribute<'_>) -> bool
    ensures { result ≡ specs.is_key_attribute (attribute_view attribute.now) }
{
    is_key(attribute.code.into(), None)
        || attribute.code == VENDOR_SPECIFIC && has_key_part(attribute.value)
}

fn bad_code(direction: Direction, attribute: &Attribute<'_>) -> Option<u8>
    ensures { result ≡ faults.bad_code direction (attribute_view attribute.now) }
{
    if is_good(direction, attribute) {
        None
    } else {
        Some(attribute.code)
    }
}

/// How many octets a Proxy-State has; 0 for any other attribute.
fn proxy_size(attribute: &Attribute<'_>) -> usize
    ensures size { result ≡ faults.proxy_size (attribute_view attribute.now) }
    ensures most { result ≤ length attribute.now.value.now + 2 }
{
    if attribute.code == PROXY_STATE {
        attribute.value.len() + 2
    } else {
        0
    }
}

impl Faults {
    /// Nothing, as before the first attribute.
    pub fn none() -> Faults
        ensures { result ≡ faults.none }
    {
        Faults {
            foreign: false,
            key: false,
            bad: None,
            proxy: 0,
        }
    }

    /// What is found with one attribute more, in a packet of this client that comes from this address.
    pub fn note(
        self,
        client: &Client,
        source: u32,
        direction: Direction,
        attribute: &Attribute<'_>,
    ) -> Faults
        requires { self.proxy + length attribute.now.value.now ≤ 4096 }
        ensures { result
            ≡ faults.faults_with client.now source direction self (attribute_view attribute.now) }
    {
        Faults {
            foreign: self.foreign || is_foreign(client, source, attribute),
            key: self.key || is_key_attribute(attribute),
            bad: self.bad.or(bad_code(direction, attribute)),
            proxy: self.proxy + proxy_size(attribute),
        }
    }

    /// The first reason that lies in the attributes: `KeyAttribute`, `BadValue`, `ProxyStateTooLong`.
    pub fn reason(&self) -> Option<Reason>
        ensures { result ≡ faults.reason_of self.now }
    {
        if self.key {
            return Some(Reason::KeyAttribute);
        }
        match self.bad {
            Some(code) => Some(Reason::BadValue { code }),
            None if self.proxy > MOST_PROXY_OCTETS => Some(Reason::ProxyStateTooLong),
            None => None,
        }
    }
}
