//! What the attributes of a packet say of the session, and of where its request goes.

ghost use Rattle.std.specs.Prelude.{◌≡◌, option_map, option_copied};
ghost use Rattle.session_carrier.specs.Carriers.{carried_view};
ghost use Rattle.translation.specs.Routes as specs;

use crate::codes::{CLASS, STATE, USER_NAME};
use radius_packet::Packet;
use session_carrier::{Carried, read_class, read_state};
use wire_core::is_identity;

/// What the first State that carries a session carries.
pub fn carried_state<'a>(packet: &Packet<'a>) -> Option<Carried<'a>>
    ensures { option_map carried_view result ≡ specs.carried_state packet.now.attributes }
{
    for attribute in packet.attributes() {
        if attribute.code != STATE {
            continue;
        }
        if let Some(carried) = read_state(attribute.value) {
            return Some(carried);
        }
    }
    None
}

/// The session that the first Class with one carries.
pub fn carried_class<'a>(packet: &Packet<'a>) -> Option<&'a [u8]>
    ensures { option_copied result ≡ specs.carried_class packet.now.attributes }
{
    for attribute in packet.attributes() {
        if attribute.code != CLASS {
            continue;
        }
        if let Some(session) = read_class(attribute.value) {
            return Some(session);
        }
    }
    None
}

/// What stands behind the last `@`.
fn behind_last_at(name: &[u8]) -> Option<&[u8]>
    ensures { option_copied result ≡ specs.behind_last_at name.now }
{
    let mut found = None;
    let mut rest = name;
    while let [octet, behind @ ..] = rest {
        if *octet == b'@' {
            found = Some(behind);
        }
        rest = behind;
    }
    found
}

/// The realm in the name of a user: what stands behind its last `@`, where it is an identity.
fn realm_in(name: &[u8]) -> Option<&[u8]>
    ensures { option_copied result ≡ specs.realm_in name.now }
{
    behind_last_at(name).filter(|realm| is_identity(realm))
}

/// The realm in the first User-Name.
pub fn name_realm<'a>(packet: &Packet<'a>) -> Option<&'a [u8]>
    ensures { option_copied result ≡ specs.name_realm packet.now.attributes }
{
    for attribute in packet.attributes() {
        if attribute.code == USER_NAME {
            return realm_in(attribute.value);
        }
    }
    None
}
