//! What the AVPs of an answer to a request for access say (RFC 4005, section 3.2; RFC 4072, section 3.2).

ghost use Rattle.std.specs.Prelude.{◌≡◌};
ghost use Rattle.std.specs.Option.{option_copied};
ghost use Rattle.std.specs.List.{list_any};
ghost use Rattle.diameter_avp.specs.Avps.{read_avps};
ghost use Rattle.diameter_avp.specs.View.{avp_view};
ghost use Rattle.translation.specs.AvpList.{list_view};
ghost use Rattle.translation.specs.Reading as specs;
ghost use Rattle.tunnel_map.specs.RoundTrip as groups;

use crate::avp_list::{count, first};
use crate::class::Class;
use crate::service::Service;
use attribute_table::{Row, is_key, is_known};
use diameter_avp::{Avp, avps};
use diameter_message::avp_codes::{
    AUTHORIZATION_LIFETIME, EAP_PAYLOAD, MULTI_ROUND_TIME_OUT, SESSION_ID, SESSION_TIMEOUT,
    TUNNELING,
};
use diameter_message::{has_code, is_success};
use wire_core::is_identity;

/// DIAMETER_MULTI_ROUND_AUTH (RFC 6733, section 7.1.1).
const MULTI_ROUND: u32 = 1001;

/// The greatest type that a vendor's attribute has, and the most octets of its value (RFC 2865, section 5.26).
const MOST_VENDOR_TYPE: u32 = 255;

const MOST_VENDOR_VALUE: usize = 247;

fn is_own_session(avp: &Avp<'_>, session: &[u8]) -> bool
    ensures { result ≡ specs.is_own_session session.now (avp_view avp.now) }
{
    has_code(avp, SESSION_ID) && avp.body == session
}

fn is_session_there(list: &[Avp<'_>], session: &[u8]) -> bool
    ensures { result ≡ list_any (specs.is_own_session session.now) (list_view list.now) }
{
    list.iter().any(|a| is_own_session(a, session))
}

/// Whether there is exactly one Session-Id, the request's.
pub fn has_own_session(list: &[Avp<'_>], session: &[u8]) -> bool
    ensures { result ≡ specs.has_own_session session.now (list_view list.now) }
{
    count(list, SESSION_ID) == 1 && is_session_there(list, session)
}

/// Whether an AVP carries a key.
pub fn is_key_avp(avp: &Avp<'_>) -> bool
    ensures { result ≡ specs.is_key_avp (avp_view avp.now) }
{
    is_key(avp.code, avp.vendor)
}

/// Whether an AVP of a vendor fits in a Vendor-Specific attribute (RFC 2865, section 5.26).
pub fn fits_vendor(avp: &Avp<'_>) -> bool
    ensures { result ≡ specs.fits_vendor (avp_view avp.now) }
{
    avp.code <= MOST_VENDOR_TYPE && avp.body.len() <= MOST_VENDOR_VALUE
}

fn is_understood(avp: &Avp<'_>) -> bool
    ensures { result ≡ specs.is_understood (avp_view avp.now) }
{
    if is_key_avp(avp) {
        return true;
    }
    if avp.vendor.is_some() {
        fits_vendor(avp)
    } else {
        is_known(avp.code)
    }
}

/// Whether an AVP must be understood and isn't.
pub fn is_unknown(avp: &Avp<'_>) -> bool
    ensures { result ≡ specs.is_unknown (avp_view avp.now) }
{
    avp.mandatory && !is_understood(avp)
}

/// Whether there is such an AVP.
pub(crate) fn has_unknown(list: &[Avp<'_>]) -> bool
    ensures { result ≡ specs.has_unknown (list_view list.now) }
{
    list.iter().any(is_unknown)
}

/// Whether an AVP is a group of a tunnel's attributes (RFC 4005, section 7.1).
pub fn is_group(avp: &Avp<'_>) -> bool
    ensures { result ≡ groups.is_group (avp_view avp.now) }
{
    has_code(avp, TUNNELING)
}

/// Whether these octets are AVPs with a key among them.
fn is_key_among(octets: &[u8]) -> bool
    ensures { result ≡ specs.is_key_among (read_avps octets.now) }
{
    let mut found = false;
    for item in avps(octets) {
        let Ok(member) = item else {
            return false;
        };
        found = found || is_key_avp(&member);
    }
    found
}

/// Whether an AVP is a key, or a group that can be read and holds one.
pub fn holds_key(avp: &Avp<'_>) -> bool
    ensures { result ≡ specs.holds_key (avp_view avp.now) }
{
    is_key_avp(avp) || is_group(avp) && is_key_among(avp.body)
}

/// Whether a key is there, or stands in a group that can be read.
pub(crate) fn has_key(list: &[Avp<'_>]) -> bool
    ensures { result ≡ specs.has_key (list_view list.now) }
{
    list.iter().any(holds_key)
}

/// Whether the AVPs of a row are copied into the reply.
pub fn goes_back(class: Class, row: &Row) -> bool
    ensures { result ≡ specs.goes_back class row.now }
{
    match class {
        Class::Bad => false,
        Class::Refusal => row.reject,
        Class::Challenge => row.challenge,
        Class::Success => row.accept,
    }
}

fn is_timeout(class: Class, avp: &Avp<'_>) -> bool
    ensures { result ≡ specs.is_timeout class (avp_view avp.now) }
{
    match class {
        Class::Success => has_code(avp, SESSION_TIMEOUT) || has_code(avp, AUTHORIZATION_LIFETIME),
        Class::Challenge => has_code(avp, MULTI_ROUND_TIME_OUT),
        Class::Refusal | Class::Bad => false,
    }
}

/// Whether this is a number of seconds for the reply, without four octets.
pub fn is_bad_timeout(class: Class, avp: &Avp<'_>) -> bool
    ensures { result ≡ specs.is_bad_timeout class (avp_view avp.now) }
{
    is_timeout(class, avp) && avp.body.len() != 4
}

/// Whether there are two EAP-Payloads, or there is none in a challenge.
pub fn has_bad_payload(service: Service, class: Class, list: &[Avp<'_>]) -> bool
    ensures { result ≡ specs.has_bad_payload service class (list_view list.now) }
{
    match service {
        Service::Nasreq => false,
        Service::Eap => {
            let payloads = count(list, EAP_PAYLOAD);
            payloads >= 2 || class == Class::Challenge && payloads == 0
        }
    }
}

/// The class that a Result-Code alone gives.
pub fn kind_of(code: u32) -> Class
    ensures { result ≡ specs.result_class code }
{
    if code == MULTI_ROUND {
        Class::Challenge
    } else if is_success(code) {
        Class::Success
    } else {
        Class::Refusal
    }
}

fn identity_in<'a>(avp: &Avp<'a>) -> Option<&'a [u8]>
    ensures { option_copied result ≡ specs.identity_in (avp_view avp.now) }
{
    if is_identity(avp.body) {
        Some(avp.body)
    } else {
        None
    }
}

/// The first AVP of this code, where it is an identity.
pub(crate) fn first_identity<'a>(list: &[Avp<'a>], code: u32) -> Option<&'a [u8]>
    ensures { option_copied result ≡ specs.first_identity code (list_view list.now) }
{
    match first(list, code) {
        Some(avp) => identity_in(&avp),
        None => None,
    }
}
