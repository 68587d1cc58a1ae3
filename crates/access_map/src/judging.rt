//! Whether an Access-Request is translated, and as what.

ghost use Rattle.std.specs.Prelude.{◌≡◌, ◌<◌, ◌||◌, ℕ};
ghost use Rattle.password_hiding.specs.Hiding as hiding;
ghost use Rattle.radius_packet.specs.Checks.{seal_of};
ghost use Rattle.radius_packet.specs.Views.{attribute_view};
ghost use Rattle.access_map.specs.Credentials as found;
ghost use Rattle.access_map.specs.Verdict as specs;
ghost use Rattle.translation.specs.Faults.{faults_in};
ghost use Rattle.translation.specs.declared.direction.Direction.TheVariants.{Access};

use crate::codes::{CHAP_PASSWORD, USER_PASSWORD};
use agent_settings::Client;
use radius_packet::{Attribute, Packet, Reason, Seal};
use session_carrier::Kind2;
use translation::{Direction, Faults, is_eap};

/// What a packet has to authenticate by.
#[derive(Clone, Copy)]
struct Credentials {
    /// Whether there is an EAP-Message.
    eap: bool,
    /// How many passwords there are.
    passwords: usize,
    /// Whether one of them has a wrong size.
    bad: bool,
}

/// What one pass over the attributes finds.
#[derive(Clone, Copy)]
struct Reading {
    faults: Faults,
    credentials: Credentials,
}

fn is_password(attribute: &Attribute<'_>) -> bool
    ensures { result ≡ specs.is_password (attribute_view attribute.now) }
{
    attribute.code == USER_PASSWORD || attribute.code == CHAP_PASSWORD
}

/// Whether so many octets can hide a password (RFC 2865, section 5.2).
fn is_hidden_length(length: usize) -> bool
    ensures { result ≡ hiding.is_hidden_length length }
{
    16 <= length && length <= 128 && length % 16 == 0
}

fn is_bad_password(attribute: &Attribute<'_>) -> bool
    ensures { result ≡ specs.is_bad_password (attribute_view attribute.now) }
{
    attribute.code == USER_PASSWORD && !is_hidden_length(attribute.value.len())
        || attribute.code == CHAP_PASSWORD && attribute.value.len() != 17
}

/// What is there with one attribute more.
fn credentials_with(before: Credentials, attribute: &Attribute<'_>) -> Credentials
    requires { before.passwords < 4096 }
    ensures { result ≡ found.credentials_with before (attribute_view attribute.now) }
{
    Credentials {
        eap: before.eap || is_eap(attribute),
        passwords: before.passwords + usize::from(is_password(attribute)),
        bad: before.bad || is_bad_password(attribute),
    }
}

fn read(client: &Client, address: u32, packet: &Packet<'_>) -> Reading
    ensures faults { result.faults ≡ faults_in client.now address Access packet.now.attributes }
    ensures credentials { result.credentials ≡ found.credentials_in packet.now.attributes }
{
    let mut faults = Faults::none();
    let mut credentials = Credentials {
        eap: false,
        passwords: 0,
        bad: false,
    };
    for attribute in packet.attributes() {
        faults = faults.note(client, address, Direction::Access, &attribute);
        credentials = credentials_with(credentials, &attribute);
    }
    Reading {
        faults,
        credentials,
    }
}

/// What speaks against the Message-Authenticator, or against there being none.
fn seal_reason(client: &Client, packet: &Packet<'_>, eap: bool) -> Option<Reason>
    ensures { result ≡ specs.seal_reason_of (client.now.require_seal || eap)
        (seal_of client.now.secret packet.now) }
{
    match packet.check_seal(client.secret.as_slice()) {
        Seal::Absent if client.require_seal || eap => Some(Reason::NoSeal),
        Seal::Wrong => Some(Reason::BadSeal),
        Seal::Absent | Seal::Right => None,
    }
}

/// What speaks against the passwords.
fn credentials_reason(credentials: &Credentials) -> Option<Reason>
    ensures { result ≡ found.credentials_reason credentials.now }
{
    if credentials.passwords > 1 || credentials.passwords > 0 && credentials.eap {
        Some(Reason::BothPasswords)
    } else if credentials.bad {
        Some(Reason::BadPassword)
    } else {
        None
    }
}

/// The first reason against an Access-Request of which this was read.
#[tactic(auto, using(translation::proofs::FaultLemmas::reason_of_faults_in))]
fn reason(client: &Client, packet: &Packet<'_>, reading: &Reading) -> Option<Reason>
    requires { reading.now.credentials ≡ found.credentials_in packet.now.attributes }
    ensures { (source : ℕ)
        → reading.now.faults ≡ faults_in client.now source Access packet.now.attributes
        → result ≡ specs.access_reason client.now source packet.now }
{
    if let Some(reason) = seal_reason(client, packet, reading.credentials.eap) {
        return Some(reason);
    }
    if reading.faults.foreign {
        return Some(Reason::NasAddress);
    }
    if let Some(reason) = credentials_reason(&reading.credentials) {
        return Some(reason);
    }
    reading.faults.reason()
}

/// What an Access-Request of this client from this address asks for, or the first reason against it.
#[tactic(auto, unfolding(crate::specs::Verdict::verdict))]
pub fn judge(client: &Client, address: u32, packet: &Packet<'_>) -> Result<Kind2, Reason>
    ensures { result ≡ specs.verdict client.now address packet.now }
{
    let reading = read(client, address, packet);
    match reason(client, packet, &reading) {
        Some(reason) => Err(reason),
        None if reading.credentials.eap => Ok(Kind2::Eap),
        None => Ok(Kind2::Access),
    }
}
