//! What a datagram leads to: it is dropped, it comes again, or it is taken up.

ghost use Rattle.std.specs.Prelude.{◌≡◌, ◌<◌, [], ◌∷◌, IfOk, None, Ok, OnOk, OnErr, length};
ghost use Rattle.pending_table.specs.Table as table;
ghost use Rattle.agent_core.specs.Verdict as specs;
ghost use Rattle.agent_core.specs.Verdicts.{IsRequest, request_with};
ghost use Rattle.agent_core.specs.Rooms as rooms;
ghost use Rattle.agent_core.specs.Machine as machine;
ghost use Rattle.agent_core.specs.Standing.{IsSteady};
ghost use Rattle.agent_core.specs.Considering.{Considers};

use crate::ledger::{Ledger, dropped};
use crate::requests::{Prepared, prepare};
use crate::verdict::{Request, verdict};
use agent_events::{Output, Outputs};
use pending_table::{Found, Key};
use radius_packet::{Reason, Via};
use session_carrier::Kept;
use std::alloc::Global;
use wire_core::{NoMemory, Octets};

/// What a datagram leads to.
#[derive(Drop)]
pub(crate) enum Considered {
    /// Nothing but these outputs.
    Says(Outputs),
    /// A request is taken up, with this key, what is kept of it and what it sends; it may begin a session; and these
    /// outputs go out.
    TakesUp {
        key: Key,
        kept: Kept,
        sent: Octets,
        fresh: bool,
        outputs: Outputs,
    },
}

/// One message for the link.
fn sending(alloc: Global, octets: Octets) -> Result<Outputs, NoMemory>
    ensures { IfOk result (λ o. o ≡ Output.Send octets ∷ []) }
{
    let mut outputs = Outputs::new(alloc);
    outputs.push(Output::Send { octets })?;
    Ok(outputs)
}

/// One reply, to the place that the request came from.
fn replying(alloc: Global, key: &Key, reply: Octets) -> Result<Outputs, NoMemory>
    ensures { IfOk result
        (λ o. o ≡ Output.Reply key.now.via key.now.address key.now.port reply ∷ []) }
{
    let mut outputs = Outputs::new(alloc);
    outputs.push(Output::Reply {
        via: key.via,
        address: key.address,
        port: key.port,
        octets: reply,
    })?;
    Ok(outputs)
}

/// What a request gets that comes again, by what the table has of it; None where it is new.
fn repeated(alloc: Global, key: &Key, found: Found<'_>) -> Result<Option<Outputs>, NoMemory>
    ensures { IfOk result (λ o. o ≡ machine.on_look key.now (table.told_by found.entry)) }
{
    let outputs = match found {
        Found::New => return Ok(None),
        Found::Waiting => dropped(alloc, Reason::Waiting)?,
        Found::Silent => dropped(alloc, Reason::Silent)?,
        Found::Kept(reply) => {
            let copy = Octets::copy(alloc, reply)?;
            replying(alloc, key, copy)?
        }
    };
    Ok(Some(outputs))
}

impl Ledger {
    /// What a request with a new key leads to.
    fn admitted(
        &self,
        alloc: Global,
        request: &Request<'_>,
        key: Key,
    ) -> Result<Considered, NoMemory>
        requires steady { IsSteady self.now }
        requires request { IsRequest self.now.config request.now }
        requires unknown { table.find_key self.now.table key self.now.moment ≡ None }
        ensures { IfOk result (Considers self.now (Ok (request_with key request.now))) }
    {
        match self.refusal() {
            Some(reason) => Ok(Considered::Says(dropped(alloc, reason)?)),
            None => {
                let prepared = prepare(alloc, &self.config, request, self.numbers(), self.serial)?;
                // What goes out may have room to spare. The copy that is kept has its own size.
                let copy = Octets::copy(alloc, prepared.sent.as_slice())?;
                let Prepared { kept, sent, fresh } = prepared;
                let outputs = sending(alloc, sent)?;
                Ok(Considered::TakesUp {
                    key,
                    kept,
                    sent: copy,
                    fresh,
                    outputs,
                })
            }
        }
    }

    /// What a datagram leads to. Nothing is changed yet.
    fn considered(
        &self,
        alloc: Global,
        via: Via,
        address: u32,
        port: u16,
        octets: &[u8],
    ) -> Result<Considered, NoMemory>
        requires { IsSteady self.now }
        ensures { IfOk result
            (Considers self.now (specs.verdict self.now.config via address port octets.now)) }
    {
        let request = match verdict(&self.config, via, address, octets) {
            Err(reason) => return Ok(Considered::Says(dropped(alloc, reason)?)),
            Ok(request) => request,
        };
        let key = Key {
            via,
            address,
            port,
            octets: Octets::copy(alloc, request.packet.whole())?,
        };
        match repeated(alloc, &key, self.table.look(&key, self.moment))? {
            Some(outputs) => Ok(Considered::Says(outputs)),
            None => self.admitted(alloc, &request, key),
        }
    }

    /// Takes a request up.
    fn take_up(&mut self, key: Key, kept: Kept, sent: Octets, fresh: bool) -> Result<(), NoMemory>
        requires steady { IsSteady self.old }
        requires unknown { table.find_key self.old.table key self.old.moment ≡ None }
        requires room { length (table.live self.old.table self.old.moment)
            < self.old.table.capacity }
        requires admits { rooms.refusal self.old.config (machine.kept_rooms self.old) ≡ None }
        ensures ok { OnOk result
            (self.new ≡ machine.with_row self.old (machine.new_row self.old key kept sent) fresh) }
        ensures err { OnErr result (self.new ≡ self.old) }
    {
        let link = self.peer.link();
        self.table
            .admit(key, link, self.used, kept, sent, self.moment)?;
        self.used += 1;
        self.outbox += 1;
        self.total = self.total.wrapping_add(1);
        self.serial += if fresh { 1 } else { 0 };
        Ok(())
    }

    /// A datagram came.
    pub(crate) fn datagram(
        &mut self,
        alloc: Global,
        via: Via,
        address: u32,
        port: u16,
        octets: &[u8],
    ) -> Result<Outputs, NoMemory>
        requires { IsSteady self.old }
        ensures outputs { IfOk result (λ o. o
            ≡ (machine.on_datagram self.old
            (specs.verdict self.old.config via address port octets.now)).outputs) }
        ensures ledger { OnOk result (self.new
            ≡ (machine.on_datagram self.old
            (specs.verdict self.old.config via address port octets.now)).ledger) }
        ensures err { OnErr result (self.new ≡ self.old) }
    {
        match self.considered(alloc, via, address, port, octets)? {
            Considered::Says(outputs) => Ok(outputs),
            Considered::TakesUp {
                key,
                kept,
                sent,
                fresh,
                outputs,
            } => {
                self.take_up(key, kept, sent, fresh)?;
                Ok(outputs)
            }
        }
    }
}
