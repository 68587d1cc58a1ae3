//! What a carrier that comes back holds.

ghost use Rattle.std.specs.Prelude.{◌≡◌, ℕ, List, IfSome, option_map, option_copied};
ghost use Rattle.session_carrier.specs.Carriers as carriers;
ghost use Rattle.session_carrier.specs.Carriers.{IsState, IsClass, CarriedParts, carried_view};

use crate::carrier::PREFIX;
use wire_core::{is_identity, is_session_text};

/// What a State carries, in the octets of its value.
#[derive(Clone, Copy)]
pub struct Carried<'a> {
    /// The Destination-Host of the next request.
    pub host: &'a [u8],
    /// Its Destination-Realm.
    pub realm: &'a [u8],
    /// Its Session-Id.
    pub session: &'a [u8],
}

/// What stands behind the prefix.
#[tactic(auto, unfolding(crate::specs::Carriers::behind_prefix))]
fn behind_prefix(value: &[u8]) -> Option<&[u8]>
    ensures { option_copied result ≡ carriers.behind_prefix value.now }
{
    value.strip_prefix(PREFIX)
}

/// Where the first `/` stands.
fn slash_place(octets: &[u8]) -> Option<usize>
    ensures { result ≡ carriers.slash_place octets.now }
{
    octets.iter().position(|c| *c == b'/')
}

/// What stands before the first `/` and behind it.
#[tactic(auto, unfolding(crate::specs::Carriers::cut))]
fn cut(octets: &[u8]) -> Option<(&[u8], &[u8])>
    ensures { option_map (λ p. (p.0.now, p.1.now)) result ≡ carriers.cut octets.now }
{
    let place = slash_place(octets)?;
    Some((&octets[..place], &octets[place + 1..]))
}

/// The parts, if they are names and a session text.
fn checked<'a>(host: &'a [u8], realm: &'a [u8], session: &'a [u8]) -> Option<Carried<'a>>
    ensures { option_map carried_view result ≡ carriers.checked host.now realm.now session.now }
{
    if is_identity(host) && is_identity(realm) && is_session_text(session) {
        Some(Carried {
            host,
            realm,
            session,
        })
    } else {
        None
    }
}

/// What a State carries: behind `Diameter/` a host, a realm and a session, parted by the first two `/`.
pub fn read_state(value: &[u8]) -> Option<Carried<'_>>
    ensures exact { option_map carried_view result ≡ carriers.read_state value.now }
    ensures found { IfSome result (λ c. IsState value.now c.host.now c.realm.now c.session.now) }
    ensures only { (host realm session : List ℕ) → IsState value.now host realm session → option_map
        carried_view result ≡ Some (record { host = host; realm = realm; session = session }) }
{
    let text = behind_prefix(value)?;
    let (host, rest) = cut(text)?;
    let (realm, session) = cut(rest)?;
    checked(host, realm, session)
}

/// The session that a Class carries behind `Diameter/`.
pub fn read_class(value: &[u8]) -> Option<&[u8]>
    ensures exact { option_copied result ≡ carriers.read_class value.now }
    ensures found { IfSome result (λ s. IsClass value.now s.now) }
    ensures only { (session : List ℕ) → IsClass value.now session
        → option_copied result ≡ Some session }
{
    let session = behind_prefix(value)?;
    if is_session_text(session) {
        Some(session)
    } else {
        None
    }
}
