//! What several tests are fed. Cases are lines of columns between bars, and octets stand in hex digits.

ghost use Rattle.std.specs.Prelude.{◌≡◌, IfOk};
ghost use Rattle.radius_packet.specs.Packet.{attributes_in, attributes_text};

use agent_settings::{AddressList, Client};
use radius_packet::Packet;
use session_carrier::{Kept, Kind2, Numbers};
use std::alloc::Global;
use std::test::Fail;
use translation::proxy_states;
use wire_core::{NoMemory, Octets};

pub(crate) const ADDRESS: u32 = 0xc0a8_0110;

pub(crate) const NUMBERS: Numbers = Numbers {
    hop: 0,
    end: 0x0070_0000,
};

/// What stands before the next bar, and the rest.
pub(crate) fn cut(case: &str) -> (&str, &str) {
    case.split_once('|').unwrap_or((case, ""))
}

/// Whether these octets are those that the digits are.
pub(crate) fn are(octets: &[u8], alloc: Global, digits: &str) -> Result<bool, Fail> {
    let wanted = hex::decode(alloc, digits)?;
    Ok(octets == wanted.as_slice())
}

pub(crate) fn client(alloc: Global) -> Result<Client, NoMemory> {
    Ok(Client {
        name: Octets::copy(alloc, b"nas1")?,
        address: ADDRESS,
        secret: Octets::copy(alloc, b"xyzzy5461")?,
        origin_host: Octets::copy(alloc, b"nas1.example")?,
        origin_realm: Octets::copy(alloc, b"example")?,
        require_seal: false,
        omit_keys: false,
        nas: AddressList::from_vec(Vec::from_slice(alloc, &[0x0a00_0009])?),
    })
}

/// A packet without attributes.
pub(crate) const BARE: &[u8] = b"\x01\x05\x00\x140123456789abcdef";

/// Its Proxy-States.
fn no_proxies(alloc: Global) -> Result<Octets, Fail>
    ensures { IfOk result (λ o. o ≡ attributes_text (attributes_in o)) }
{
    let packet = Packet::parse(BARE)?;
    Ok(proxy_states(alloc, &packet)?)
}

/// What is kept of a request of the session `agent.example;7;0` without Proxy-States.
pub(crate) fn kept(alloc: Global, kind: Kind2, cause: u32) -> Result<Kept, Fail>
    ensures { IfOk result (λ k. k.proxy ≡ attributes_text (attributes_in k.proxy)) }
{
    Ok(Kept {
        kind,
        client: 0,
        id: 5,
        authenticator: [0, 1, 2, 3, 4, 5, 6, 7, 8, 9, 10, 11, 12, 13, 14, 15],
        proxy: no_proxies(alloc)?,
        session: Octets::copy(alloc, b"agent.example;7;0")?,
        realm: Octets::copy(alloc, b"example")?,
        cause,
    })
}

/// The octets, where there are some.
pub(crate) fn shown(octets: &Option<Octets>) -> &[u8] {
    match octets {
        Some(octets) => octets.as_slice(),
        None => b"",
    }
}
