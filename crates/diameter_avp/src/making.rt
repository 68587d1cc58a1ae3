//! The AVP that is written.

ghost use Rattle.std.specs.Prelude.{◌≡◌, ◌+◌, ◌<◌, ◌^◌, IfSome};
ghost use Rattle.diameter_avp.specs.Avps.{avp_length, header_length, made};
ghost use Rattle.diameter_avp.specs.View.{avp_view};

use crate::avp::{Avp, MANDATORY, VENDOR};

/// An AVP of these parts, without the P flag.
pub(crate) fn make_avp(code: u32, vendor: Option<u32>, mandatory: bool, body: &[u8]) -> Avp<'_>
    ensures { avp_view result ≡ made code vendor mandatory body.now }
{
    let vendor_flag = if vendor.is_some() { VENDOR } else { 0 };
    let mandatory_flag = if mandatory { MANDATORY } else { 0 };
    Avp {
        code,
        vendor,
        mandatory,
        flags: vendor_flag + mandatory_flag,
        body,
    }
}

/// How many octets the header takes.
fn header_size(vendor: Option<u32>) -> usize
    ensures size { result ≡ header_length vendor }
    ensures vendor { IfSome vendor (λ id. id < 2 ^ 32) }
{
    match vendor {
        Some(_) => 12,
        None => 8,
    }
}

/// What its length field counts.
pub(crate) fn length_of(avp: &Avp<'_>) -> usize
    ensures counted { result ≡ avp_length (avp_view avp.now) }
    ensures bounded { result + 3 < 2 ^ 64 }
    ensures vendor { IfSome avp.now.vendor (λ id. id < 2 ^ 32) }
{
    header_size(avp.vendor) + avp.body.len()
}
