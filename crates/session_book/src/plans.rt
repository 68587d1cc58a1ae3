//! What a datagram may do to the book, with the memory that this takes.

ghost use Rattle.std.specs.Prelude.{◌≡◌, ◌≤◌, List, ℕ, Ok, length, option_copied, IfOk, IfSome};
ghost use Rattle.radius_packet.specs.Packet.{read_packet};
ghost use Rattle.accounting_map.specs.Numbers as values;
ghost use Rattle.session_book.specs.History as history;
ghost use Rattle.session_book.specs.Planned.{planned};

use crate::reading::{first_value, status};
use crate::sessions::Entry;
use crate::values::{AttributeValue, SessionRoom};
use agent_events::Input;
use radius_packet::Packet;
use std::alloc::Global;
use wire_core::NoMemory;

/// Acct-Status-Types (RFC 2866, section 5.1).
const START: u32 = 1;

const STOP: u32 = 2;

/// RFC 2865, section 5.1.
const USER_NAME: u8 = 1;

/// RFC 2866, section 5.5.
const ACCT_SESSION_ID: u8 = 44;

/// What a datagram does to the book where it is taken up.
#[derive(Drop)]
pub(crate) enum Plan {
    Nothing,
    /// This entry goes in.
    Start { room: SessionRoom, entry: Entry },
    /// The session's entry goes.
    Stop,
}

/// A copy of a value, where there is one.
fn copy_of(alloc: Global, value: Option<&[u8]>) -> Result<Option<AttributeValue>, NoMemory>
    requires { IfSome (option_copied value) (λ v. length v ≤ 253) }
    ensures { IfOk result (λ v. v ≡ option_copied value.entry) }
{
    match value {
        None => Ok(None),
        Some(value) => Ok(Some(AttributeValue::copy(alloc, value)?)),
    }
}

/// A Start without an Acct-Session-Id does nothing.
fn plan_start(alloc: Global, address: u32, packet: &Packet<'_>) -> Result<Plan, NoMemory>
    ensures { (session : List ℕ) → IfOk result (λ p. planned p session
        ≡ history.started address packet.now session
        (values.first_value 44 packet.now.attributes)) }
{
    let Some(acct) = first_value(packet, ACCT_SESSION_ID) else {
        return Ok(Plan::Nothing);
    };
    let user = copy_of(alloc, first_value(packet, USER_NAME))?;
    let acct = AttributeValue::copy(alloc, acct)?;
    let room = SessionRoom::new(alloc)?;
    let entry = Entry {
        address,
        user,
        acct,
    };
    Ok(Plan::Start { room, entry })
}

fn plan_packet(alloc: Global, address: u32, packet: &Packet<'_>) -> Result<Plan, NoMemory>
    ensures { (session : List ℕ)
        → IfOk result (λ p. planned p session ≡ history.recorded address packet.now session) }
{
    match status(packet) {
        START => plan_start(alloc, address, packet),
        STOP => Ok(Plan::Stop),
        _ => Ok(Plan::Nothing),
    }
}

fn plan_datagram(alloc: Global, address: u32, octets: &[u8]) -> Result<Plan, NoMemory>
    ensures { (session : List ℕ) → IfOk result (λ p. planned p session
        ≡ history.packet_change address (read_packet octets.now) session) }
{
    match Packet::parse(octets) {
        Err(_) => Ok(Plan::Nothing),
        Ok(packet) => plan_packet(alloc, address, &packet),
    }
}

/// What an input does to the book where it is taken up.
pub(crate) fn plan_for(alloc: Global, input: &Input) -> Result<Plan, NoMemory>
    ensures { (session : List ℕ)
        → IfOk result (λ p. planned p session ≡ history.input_change input.now session) }
{
    match input {
        Input::Datagram {
            address,
            octets,
            ..
        } => plan_datagram(alloc, *address, octets.as_slice()),
        _ => Ok(Plan::Nothing),
    }
}
