//! The passwords of an Access-Request in Diameter (RFC 4005, sections 5.1 and 5.4 to 5.8).

ghost use Rattle.std.specs.Prelude.{◌≡◌, ◌≤◌, ◌+◌, ◌<◌, [], ◌∷◌, ◌++◌, length, IsTrue, IfOk, OnOk, None, true};
ghost use Rattle.password_hiding.specs.Hiding.{is_hidden_length};
ghost use Rattle.radius_packet.specs.Views.{attribute_view};
ghost use Rattle.diameter_avp.specs.Avps.{avps_text, made};
ghost use Rattle.diameter_message.specs.Writer.{list_length, with_avps};
ghost use Rattle.access_map.specs.Requests as specs;

use diameter_avp::{Group, WriteFault};
use diameter_message::MessageWriter;
use diameter_message::avp_codes::{
    CHAP_ALGORITHM, CHAP_AUTH, CHAP_CHALLENGE, CHAP_IDENT, CHAP_RESPONSE, USER_PASSWORD,
};
use password_hiding::unhide;
use radius_packet::{Attribute, Packet};
use wire_core::NoMemory;

/// The most octets that hide a password (RFC 2865, section 5.2).
const MOST_HIDDEN: usize = 128;

/// The CHAP-Algorithm of RFC 4005, section 5.5.
const CHAP_WITH_MD5: u32 = 5;

/// Puts the password that these octets hide under the secret and the authenticator.
pub(crate) fn put_password(
    writer: &mut MessageWriter,
    secret: &[u8],
    authenticator: &[u8; 16],
    value: &[u8],
) -> Result<(), NoMemory>
    requires hidden { IsTrue (is_hidden_length (length value.now)) }
    requires room { length (avps_text (writer.old.avps.list
        ++ specs.password_avp secret.now authenticator.now value.now ∷ [])) ≤ 65516 }
    ensures { OnOk result (writer.new
        ≡ with_avps writer.old (specs.password_avp secret.now authenticator.now value.now ∷ [])) }
{
    let mut octets = [0; MOST_HIDDEN];
    let password = &mut octets[..value.len()];
    password.copy_from_slice(value);
    match unhide(secret, authenticator, password) {
        Ok(length) => writer.put_with_room(USER_PASSWORD, None, true, &password[..length]),
        Err(_) => unreachable!(),
    }
}

/// Begins the group of a CHAP-Password.
fn begin_chap(writer: &mut MessageWriter) -> Result<Group, NoMemory>
    requires { length (avps_text (writer.old.avps.list ++ made 402 None true [] ∷ [])) ≤ 65516 }
    ensures put { OnOk result (writer.new ≡ with_avps writer.old (made 402 None true [] ∷ [])) }
    ensures place { IfOk result (λ group. group ≡ list_length writer.old) }
{
    match writer.avps().begin_group(CHAP_AUTH, true) {
        Ok(group) => Ok(group),
        Err(WriteFault::NoMemory) => Err(NoMemory),
        Err(WriteFault::TooLong) => unreachable!(),
    }
}

/// Puts a CHAP-Password: its first octet is the identifier, and the others are the response.
fn put_chap(writer: &mut MessageWriter, value: &[u8]) -> Result<(), NoMemory>
    requires some { 1 ≤ length value.now }
    requires room { length (avps_text (writer.old.avps.list ++ specs.chap_avp value.now ∷ []))
        ≤ 65516 }
    ensures { OnOk result (writer.new ≡ with_avps writer.old (specs.chap_avp value.now ∷ [])) }
{
    let group = begin_chap(writer)?;
    writer.put_number(CHAP_ALGORITHM, CHAP_WITH_MD5)?;
    writer.put_with_room(CHAP_IDENT, None, true, &value[..1])?;
    writer.put_with_room(CHAP_RESPONSE, None, true, &value[1..])?;
    writer.avps().end_group(group);
    Ok(())
}

/// Whether the packet has a CHAP-Challenge.
fn has_challenge(packet: &Packet<'_>) -> bool
    ensures { result ≡ specs.has_challenge packet.now }
{
    packet.attributes().any(|a| is_challenge(&a))
}

fn is_challenge(attribute: &Attribute<'_>) -> bool
    ensures { result ≡ specs.is_challenge (attribute_view attribute.now) }
{
    u32::from(attribute.code) == CHAP_CHALLENGE
}

/// Puts a CHAP-Password, and its challenge where the packet has no attribute for it.
pub(crate) fn put_chap_password(
    writer: &mut MessageWriter,
    packet: &Packet<'_>,
    authenticator: &[u8; 16],
    value: &[u8],
) -> Result<(), NoMemory>
    requires authenticator { authenticator.now ≡ packet.now.authenticator }
    requires some { 1 ≤ length value.now }
    requires room { length (avps_text (writer.old.avps.list
        ++ specs.chap_avp value.now ∷ specs.challenge_avps packet.now)) ≤ 65516 }
    ensures { OnOk result (writer.new
        ≡ with_avps writer.old (specs.chap_avp value.now ∷ specs.challenge_avps packet.now)) }
{
    put_chap(writer, value)?;
    if has_challenge(packet) {
        return Ok(());
    }
    writer.put_with_room(CHAP_CHALLENGE, None, true, authenticator)
}
