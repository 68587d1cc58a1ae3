//! Looking for AVPs and users.

ghost use Rattle.std.specs.Prelude.{◌≡◌, option_map};
ghost use Rattle.std.specs.Option.{option_copied};
ghost use Rattle.diameter_avp.specs.Avps.{readable_avps};
ghost use Rattle.diameter_avp.specs.View.{avp_view};
ghost use Rattle.test_peers.specs.Finding as specs;

use crate::users::User;
use diameter_avp::{Avp, avps};
use diameter_message::avp_codes::USER_PASSWORD;
use diameter_message::has_code;

/// The code of User-Name (RFC 4005, section 9.3).
const USER_NAME: u32 = 1;

/// The first AVP of this code with V clear, of those that stand before the first fault.
pub(crate) fn first_avp(octets: &[u8], code: u32) -> Option<Avp<'_>>
    ensures { option_map avp_view result ≡ specs.first_avp code (readable_avps octets.now) }
{
    for item in avps(octets) {
        let Ok(avp) = item else {
            return None;
        };
        if has_code(&avp, code) {
            return Some(avp);
        }
    }
    None
}

/// Its body.
fn first_body(octets: &[u8], code: u32) -> Option<&[u8]>
    ensures { option_copied result ≡ specs.first_body code (readable_avps octets.now) }
{
    match first_avp(octets, code) {
        Some(avp) => Some(avp.body),
        None => None,
    }
}

/// Whether this user is on the list, with this password.
fn is_listed(users: &[User], name: &[u8], password: &[u8]) -> bool
    ensures { result ≡ specs.is_listed users.now name.now password.now }
{
    users.iter().any(|u| u.name.as_slice() == name && u.password.as_slice() == password)
}

/// Whether the first User-Name and the first User-Password among these AVPs are those of a user.
pub(crate) fn is_welcome(users: &[User], avps: &[u8]) -> bool
    ensures { result ≡ specs.is_welcome users.now (readable_avps avps.now) }
{
    match first_body(avps, USER_NAME) {
        Some(name) => match first_body(avps, USER_PASSWORD) {
            Some(password) => is_listed(users, name, password),
            None => false,
        },
        None => false,
    }
}
