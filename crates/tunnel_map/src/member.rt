//! What the members of a group are.

ghost use Rattle.std.specs.Prelude.{◌≡◌, ◌<◌, IfSome, option_copied};
ghost use Rattle.diameter_avp.specs.View.{avp_view};
ghost use Rattle.tunnel_map.specs.Groups as specs;

use crate::kind::{Kind, kind_of};
use diameter_avp::Avp;

/// The code of a Tunnel-Password.
const TUNNEL_PASSWORD: u32 = 69;

/// How many octets of text fit in an attribute behind a tag.
const MOST_TEXT: usize = 252;

/// The kind of a member. One with a Vendor-ID is none of these.
fn member_kind(member: &Avp<'_>) -> Option<Kind>
    ensures kind { result ≡ specs.member_kind (avp_view member.now) }
    ensures small { IfSome result (λ _. member.now.code < 256) }
{
    if member.vendor.is_some() {
        return None;
    }
    kind_of(member.code)
}

/// A member that no attribute stands for, nor a Tunnel-Password.
pub(crate) fn is_unknown(member: &Avp<'_>) -> bool
    ensures { result ≡ specs.is_unknown (avp_view member.now) }
{
    let is_password = member.vendor.is_none() && member.code == TUNNEL_PASSWORD;
    member_kind(member).is_none() && !is_password
}

/// What the attribute of a member has behind its tag, where the size is good.
fn body_in(kind: Kind, body: &[u8]) -> Option<&[u8]>
    ensures value { option_copied result ≡ specs.body_in kind body.now }
{
    match (kind, body) {
        (Kind::Number, [0, number @ ..]) if number.len() == 3 => Some(number),
        (Kind::Text, text) if text.len() <= MOST_TEXT => Some(text),
        _ => None,
    }
}

/// What the attribute of a member has behind its tag. None where the size is bad, and where no attribute stands for
/// the member.
pub(crate) fn attribute_body<'a>(member: &Avp<'a>) -> Option<&'a [u8]>
    ensures value { option_copied result ≡ specs.attribute_body (avp_view member.now) }
    ensures small { IfSome result (λ _. member.now.code < 256) }
{
    body_in(member_kind(member)?, member.body)
}

/// A number that isn't a zero and three octets, or a text of over 252 octets.
pub(crate) fn has_bad_size(member: &Avp<'_>) -> bool
    ensures { result ≡ specs.has_bad_size (avp_view member.now) }
{
    member_kind(member).is_some() && attribute_body(member).is_none()
}
