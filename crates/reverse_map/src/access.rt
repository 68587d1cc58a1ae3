//! The attributes of an Access-Request (RFC 2865, section 5; RFC 4005, sections 5.1 and 5.4).

ghost use Rattle.std.specs.Prelude.{◌≡◌, ◌≤◌, true, not, [], ◌∷◌, length, nat_lt, is_ok, is_none, option_map};
ghost use Rattle.std.specs.Option.{option_copied};
ghost use Rattle.password_hiding.specs.Hiding.{hidden_form};
ghost use Rattle.radius_packet.specs.Seals.{reply_length};
ghost use Rattle.diameter_avp.specs.Avps.{read_avps};
ghost use Rattle.diameter_avp.specs.View.{avp_view};
ghost use Rattle.translation.specs.Pushing.{Pushes};
ghost use Rattle.translation.specs.Replies.{attribute};
ghost use Rattle.reverse_map.specs.Requests as specs;

use crate::codes::{CHAP_PASSWORD, STATE, USER_PASSWORD};
use crate::rows::push_row;
use diameter_avp::Avp;
use diameter_message::avp_codes::{CHAP_ALGORITHM, CHAP_AUTH, CHAP_IDENT, CHAP_RESPONSE};
use diameter_message::{avp_codes, find_only};
use password_hiding::hide;
use radius_packet::Reply;
use translation::{Direction, Unfit, push};
use wire_core::get_u32;

/// How many octets the value of an attribute has at most (RFC 2865, section 5).
const MOST_VALUE: usize = 253;

/// The CHAP-Algorithm of RFC 4005, section 5.4.2.
const CHAP_WITH_MD5: u32 = 5;

/// Pushes the hidden form of a password of up to 128 octets.
fn push_password(
    request: &mut Reply,
    random: &[u8; 16],
    secret: &[u8],
    password: &[u8],
) -> Result<(), Unfit>
    ensures { Pushes request.old request.new (is_ok result) (not (nat_lt 128 (length password.now)))
        (attribute 2 (hidden_form secret.now random.now password.now) ∷ []) }
{
    match hide(secret, random, password) {
        Ok(hidden) => push(request, USER_PASSWORD, hidden.as_slice()),
        Err(_) => Err(Unfit),
    }
}

/// The value of a CHAP-Password: the identifier, and then the response to the challenge.
fn chap_value(algorithm: &[u8], ident: &[u8], response: &[u8]) -> Option<[u8; 17]>
    ensures { result ≡ specs.chap_value algorithm.now ident.now response.now }
{
    if algorithm.len() != 4 || get_u32(algorithm, 0) != CHAP_WITH_MD5 {
        return None;
    }
    if ident.len() != 1 || response.len() != 16 {
        return None;
    }
    let mut value = [0; 17];
    value[0] = ident[0];
    value[1..].copy_from_slice(response);
    Some(value)
}

/// The value of the CHAP-Password that a CHAP-Auth with these members becomes.
fn chap_password(members: &[u8]) -> Option<[u8; 17]>
    ensures { result ≡ specs.chap_password (read_avps members.now) }
{
    let algorithm = find_only(members, CHAP_ALGORITHM)?;
    let ident = find_only(members, CHAP_IDENT)?;
    let response = find_only(members, CHAP_RESPONSE)?;
    chap_value(algorithm, ident, response)
}

/// Pushes the CHAP-Password that a CHAP-Auth with these members becomes.
fn push_chap(request: &mut Reply, members: &[u8]) -> Result<(), Unfit>
    ensures { let value = specs.chap_password (read_avps members.now) in
        Pushes request.old request.new (is_ok result) (not (is_none value))
        (specs.chap_attributes value) }
{
    match chap_password(members) {
        Some(value) => push(request, CHAP_PASSWORD, &value),
        None => Err(Unfit),
    }
}

/// Pushes a State.
fn push_state(request: &mut Reply, state: &[u8]) -> Result<(), Unfit>
    ensures { Pushes request.old request.new (is_ok result) (not (nat_lt 253 (length state.now)))
        (attribute 24 state.now ∷ []) }
{
    if state.len() <= MOST_VALUE {
        push(request, STATE, state)
    } else {
        Err(Unfit)
    }
}

/// Pushes what an AVP without a vendor gives in an Access-Request with this authenticator.
pub(crate) fn push_access(
    request: &mut Reply,
    random: &[u8; 16],
    secret: &[u8],
    avp: &Avp<'_>,
) -> Result<(), Unfit>
    requires short { reply_length request.old ≤ 4096 }
    ensures { let a = avp_view avp.now in
        Pushes request.old request.new (is_ok result) (not (specs.is_bad_access a))
        (specs.access_attributes random.now secret.now a) }
{
    match avp.code {
        avp_codes::USER_PASSWORD => push_password(request, random, secret, avp.body),
        CHAP_AUTH => push_chap(request, avp.body),
        avp_codes::STATE => push_state(request, avp.body),
        _ => push_row(request, Direction::Access, avp),
    }
}
