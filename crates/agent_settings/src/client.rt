//! One RADIUS client.

ghost use Rattle.std.specs.Prelude.{◌≡◌};
ghost use Rattle.agent_settings.specs.Config as specs;

use crate::address_list::AddressList;
use wire_core::{Octets, is_identity};

/// A RADIUS client and the peer that it is in Diameter.
#[derive(Clone, Drop)]
pub struct Client {
    pub name: Octets,
    /// The IPv4 address that its packets come from.
    pub address: u32,
    /// The secret that it shares with the agent (RFC 2865, section 3).
    pub secret: Octets,
    /// The Origin-Host of its requests.
    pub origin_host: Octets,
    /// The Origin-Realm of its requests.
    pub origin_realm: Octets,
    /// Whether each Access-Request needs a Message-Authenticator.
    pub require_seal: bool,
    /// Whether key attributes are left out of a success, which is refused otherwise.
    pub omit_keys: bool,
    /// What NAS-IP-Address may be, besides the source address.
    pub nas: AddressList,
}

/// Whether this is a name that settings may hold: an identity of at most 64 octets.
pub fn is_name(octets: &[u8]) -> bool
    ensures { result ≡ specs.is_name octets.now }
{
    is_identity(octets) && octets.len() <= 64
}

/// Whether the client is within the limits: names of at most 64 octets, a secret of 1 to 128, at
/// most 64 addresses.
#[tactic(auto, unfolding(crate::specs::Config::is_client_in_limits))]
pub fn is_client_in_limits(client: &Client) -> bool
    ensures { result ≡ specs.is_client_in_limits client.now }
{
    is_name(client.name.as_slice())
        && is_name(client.origin_host.as_slice())
        && is_name(client.origin_realm.as_slice())
        && (1..=128).contains(&client.secret.len())
        && client.nas.as_slice().len() <= 64
}
