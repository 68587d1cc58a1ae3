//! Whether an Accounting-Request is translated, and as what.

ghost use Rattle.std.specs.Prelude.{◌≡◌};
ghost use Rattle.translation.specs.Faults.{faults_in};
ghost use Rattle.translation.specs.declared.direction.Direction.TheVariants.{Accounting};
ghost use Rattle.accounting_map.specs.Verdict as specs;

use crate::statuses::{ACCOUNTING_OFF, ACCOUNTING_ON, INTERIM_UPDATE, START, STOP, Statuses};
use agent_settings::Client;
use radius_packet::{Packet, Reason};
use session_carrier::Kind2;
use translation::{Direction, Faults};

/// What a record of this status is.
fn status_kind(status: u32) -> Result<Kind2, Reason>
    ensures { result ≡ specs.status_kind status }
{
    match status {
        START => Ok(Kind2::Start),
        STOP => Ok(Kind2::Stop),
        INTERIM_UPDATE => Ok(Kind2::Interim),
        ACCOUNTING_ON | ACCOUNTING_OFF => Err(Reason::OnOff),
        _ => Err(Reason::NoStatus),
    }
}

/// What one pass over the attributes finds.
#[derive(Clone, Copy)]
struct Reading {
    faults: Faults,
    /// The number in the only Acct-Status-Type, else 0.
    status: u32,
}

fn read(client: &Client, address: u32, packet: &Packet<'_>) -> Reading
    ensures faults { result.faults ≡ faults_in client.now address Accounting packet.now.attributes }
    ensures status { result.status ≡ specs.status packet.now.attributes }
{
    let mut faults = Faults::none();
    let mut statuses = Statuses::Missing;
    for attribute in packet.attributes() {
        faults = faults.note(client, address, Direction::Accounting, &attribute);
        statuses = statuses.note(&attribute);
    }
    Reading {
        faults,
        status: statuses.status(),
    }
}

/// What an Accounting-Request of this client from this address records, or the first reason against it.
#[tactic(auto, using(translation::proofs::FaultLemmas::reason_of_faults_in), unfolding(crate::specs::Verdict::verdict))]
pub fn judge(client: &Client, address: u32, packet: &Packet<'_>) -> Result<Kind2, Reason>
    ensures { result ≡ specs.verdict client.now address packet.now }
{
    if !packet.check_accounting(client.secret.as_slice()) {
        return Err(Reason::BadAuthenticator);
    }
    let reading = read(client, address, packet);
    if reading.faults.foreign {
        return Err(Reason::NasAddress);
    }
    let kind = status_kind(reading.status)?;
    match reading.faults.reason() {
        Some(reason) => Err(reason),
        None => Ok(kind),
    }
}
