//! The names of sessions that no carrier gives.

ghost use Rattle.std.specs.Prelude.{◌≡◌, IfOk};
ghost use Rattle.session_carrier.specs.Session.{fresh_session, accounting_text};

use std::alloc::Global;
use std::io::Write;
use wire_core::{NoMemory, Octets};

/// How many octets the numbers of a fresh session have at most, each with its semicolon.
const LONGEST_NUMBERS: usize = 32;

/// The Session-Id `host;boot;serial`, whose numbers are decimal (RFC 6733, section 8.8).
#[tactic(auto, unfolding(crate::specs::Session::fresh_session))]
pub fn fresh(alloc: Global, host: &[u8], boot: u32, serial: u64) -> Result<Octets, NoMemory>
    ensures { IfOk result (λ s. s ≡ fresh_session host.now boot serial) }
{
    let room = host.len().saturating_add(LONGEST_NUMBERS);
    let mut session = Vec::with_capacity(alloc, room)?;
    session.extend_from_slice(host)?;
    write!(session, ";{boot};{serial}").map_err(|_| NoMemory)?;
    Ok(Octets::from_vec(session))
}

/// The Session-Id `host;0;0;acct;client;HEX` of a client's accounting session, HEX being its
/// Acct-Session-Id in lower-case hex (profile).
#[tactic(auto, unfolding(crate::specs::Session::accounting_text))]
pub fn accounting_session(
    alloc: Global,
    host: &[u8],
    client: &[u8],
    acct: &[u8],
) -> Result<Octets, NoMemory>
    ensures { IfOk result (λ s. s ≡ accounting_text host.now client.now acct.now) }
{
    let digits = hex::encode(alloc, acct)?;
    let mut session = Vec::from_slice(alloc, host)?;
    session.extend_from_slice(b";0;0;acct;")?;
    session.extend_from_slice(client)?;
    session.extend_from_slice(b";")?;
    session.extend_from_slice(digits.as_bytes())?;
    Ok(Octets::from_vec(session))
}
