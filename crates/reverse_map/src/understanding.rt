//! What a packet can't be made of, whatever it would be (RFC 6733, section 4.1).

ghost use Rattle.std.specs.Prelude.{◌≡◌, count_by};
ghost use Rattle.std.specs.List.{list_any};
ghost use Rattle.diameter_avp.specs.View.{avp_view};
ghost use Rattle.translation.specs.AvpList.{list_view};
ghost use Rattle.translation.specs.Reading as reading;
ghost use Rattle.reverse_map.specs.Requests as specs;

use attribute_table::is_known;
use diameter_avp::Avp;
use diameter_message::avp_codes::{CHAP_AUTH, USER_PASSWORD};
use diameter_message::has_code;
use translation::is_key_avp;

/// The AVPs of requests that are known beside those of answers, in the order of the definition, which names them.
const REQUEST_CODES: [u32; 9] = [2, 283, 293, 295, 363, 364, 365, 366, 402];

/// The greatest type that a vendor's attribute has (RFC 2865, section 5.26).
const MOST_VENDOR_TYPE: u32 = 255;

#[tactic(auto, unfolding(crate::specs::Requests::request_codes))]
fn is_understood(avp: &Avp<'_>) -> bool
    ensures { result ≡ specs.is_understood avp.now.vendor avp.now.code }
{
    match avp.vendor {
        Some(_) => avp.code <= MOST_VENDOR_TYPE,
        None => is_known(avp.code) || REQUEST_CODES.contains(&avp.code),
    }
}

fn is_unsupported(avp: &Avp<'_>) -> bool
    ensures { result ≡ specs.is_unsupported (avp_view avp.now) }
{
    avp.mandatory && !is_key_avp(avp) && !is_understood(avp)
}

/// Whether an AVP must be understood and isn't.
pub(crate) fn has_unsupported(list: &[Avp<'_>]) -> bool
    ensures { result ≡ list_any specs.is_unsupported (list_view list.now) }
{
    list.iter().any(is_unsupported)
}

/// Whether an AVP is a key.
pub(crate) fn has_key(list: &[Avp<'_>]) -> bool
    ensures { result ≡ list_any reading.is_key_avp (list_view list.now) }
{
    list.iter().any(|a| is_key_avp(a))
}

fn is_credential(avp: &Avp<'_>) -> bool
    ensures { result ≡ specs.is_credential (avp_view avp.now) }
{
    has_code(avp, USER_PASSWORD) || has_code(avp, CHAP_AUTH)
}

/// How many passwords there are, of either kind.
pub(crate) fn count_credentials(list: &[Avp<'_>]) -> usize
    ensures { result ≡ count_by specs.is_credential (list_view list.now) }
{
    list.iter().filter(|a| is_credential(a)).count()
}
