//! What a record says of its session.

ghost use Rattle.std.specs.Prelude.{◌≡◌};
ghost use Rattle.accounting_map.specs.Requests as specs;

use crate::codes::{ACCT_SESSION_ID, ACCT_SESSION_TIME, ACCT_TERMINATE_CAUSE};
use crate::numbers::{first_number, first_value};
use crate::statuses::{START, STOP};
use radius_packet::Packet;

/// Accounting-Record-Types (RFC 6733, section 9.8.1).
const START_RECORD: u32 = 2;

const INTERIM_RECORD: u32 = 3;

const STOP_RECORD: u32 = 4;

/// The Termination-Cause of a session that its user ended (RFC 6733, section 8.15).
const DIAMETER_LOGOUT: u32 = 1;

/// How many octets there are to a gigaword (RFC 2869, section 5.1).
const GIGAWORD: u64 = 0x1_0000_0000;

/// The Accounting-Record-Type of a record with this status.
pub(crate) fn record_type(status: u32) -> u32
    ensures { result ≡ specs.record_type status }
{
    match status {
        START => START_RECORD,
        STOP => STOP_RECORD,
        _ => INTERIM_RECORD,
    }
}

/// The Accounting-Record-Number of a record with this status, of a session that has lasted for so many seconds.
pub(crate) fn record_number(status: u32, seconds: u32) -> u32
    ensures { result ≡ specs.record_number status seconds }
{
    match status {
        START => 0,
        STOP => seconds.saturating_add(2),
        _ => seconds.saturating_add(1),
    }
}

/// For how many seconds the session has lasted.
pub(crate) fn session_time(packet: &Packet<'_>) -> u32
    ensures { result ≡ specs.session_time packet.now.attributes }
{
    first_number(packet, ACCT_SESSION_TIME).unwrap_or(0)
}

/// The octets that attributes of two types tell together.
pub(crate) fn volume(packet: &Packet<'_>, octets: u8, gigawords: u8) -> u64
    ensures { result ≡ specs.volume octets gigawords packet.now.attributes }
{
    let high = first_number(packet, gigawords).unwrap_or(0);
    let low = first_number(packet, octets).unwrap_or(0);
    u64::from(high) * GIGAWORD + u64::from(low)
}

/// The Termination-Cause of an Acct-Terminate-Cause (RFC 4005, section 9.3.5).
pub(crate) fn termination_cause(cause: u32) -> u32
    ensures { result ≡ specs.termination_cause cause }
{
    match cause {
        1..=18 => cause + 10,
        _ => DIAMETER_LOGOUT,
    }
}

/// The Termination-Cause of the first Acct-Terminate-Cause; DIAMETER_LOGOUT where there is none.
pub fn cause(packet: &Packet<'_>) -> u32
    ensures { result ≡ specs.cause packet.now.attributes }
{
    match first_number(packet, ACCT_TERMINATE_CAUSE) {
        Some(cause) => termination_cause(cause),
        None => DIAMETER_LOGOUT,
    }
}

/// The value of the first Acct-Session-Id; no octets where there is none.
pub fn session_id<'a>(packet: &Packet<'a>) -> &'a [u8]
    ensures { result.now ≡ specs.session_id packet.now.attributes }
{
    match first_value(packet, ACCT_SESSION_ID) {
        Some(id) => id,
        None => &[],
    }
}
