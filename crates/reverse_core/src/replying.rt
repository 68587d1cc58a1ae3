//! What a reply of the RADIUS server leads to.

ghost use Rattle.std.specs.Prelude.{◌≡◌, ◌≤◌, ◌∷◌, [], List, ℕ, length, find, Some, IfOk, IsSome, OnOk, OnErr};
ghost use Rattle.radius_packet.specs.Packet.{read_packet};
ghost use Rattle.diameter_message.specs.declared.header.Header.{Header};
ghost use Rattle.reverse_map.specs.Answers as map;
ghost use Rattle.reverse_map.specs.Asked as asking;
ghost use Rattle.reverse_core.specs.declared.events.ReverseOutput.{ReverseOutput};
ghost use Rattle.reverse_core.specs.Considering.{IsStill};
ghost use Rattle.reverse_core.specs.History as history;
ghost use Rattle.reverse_core.specs.Requests.{Deed};
ghost use Rattle.reverse_core.specs.State.{state_of, Does, IsSound, Leads};
ghost use Rattle.reverse_core.specs.Ticking.{AnswersBy, Matches};

use crate::events::{ReverseOutput, ReverseOutputs, ReverseReason};
use crate::ledger::{Ledger, one};
use crate::requests::Taken;
use crate::values::Headed;
use diameter_message::command_codes::AA;
use diameter_message::{Header, parse};
use radius_packet::Packet;
use reverse_map::answer;
use std::alloc::Global;
use wire_core::{NoMemory, Octets};

/// Packets (RFC 2865, section 3; RFC 2866, section 3).
const ACCESS_ACCEPT: u8 = 2;

const ACCESS_REJECT: u8 = 3;

const ACCOUNTING_RESPONSE: u8 = 5;

const ACCESS_CHALLENGE: u8 = 11;

/// Whether a packet of this code answers the request with this header.
fn is_reply_code(header: &Header, code: u8) -> bool
    ensures { result ≡ map.is_reply_code header.now code }
{
    if header.command == AA {
        code == ACCESS_ACCEPT || code == ACCESS_REJECT || code == ACCESS_CHALLENGE
    } else {
        code == ACCOUNTING_RESPONSE
    }
}

/// The authenticator of a packet.
fn authenticator_of(packet: &Headed) -> [u8; 16]
    ensures { result ≡ history.authenticator_of packet.now }
{
    let mut authenticator = [0; 16];
    authenticator.copy_from_slice(&packet.as_slice()[4..20]);
    authenticator
}

impl Ledger {
    /// What is said to an input that does nothing to the requests.
    pub(crate) fn say(
        &mut self,
        alloc: Global,
        moment: u64,
        output: ReverseOutput,
    ) -> Result<ReverseOutputs, NoMemory>
        requires sound { IsSound self.old }
        requires late { self.old.moment ≤ moment }
        ensures outputs { IfOk result (λ o. o ≡ output ∷ []) }
        ensures state { (d : Deed) → IsStill d
            → OnOk result (Does moment d (state_of self.old) (state_of self.new)) }
        ensures sound { IsSound self.new }
        ensures err { OnErr result (state_of self.new ≡ state_of self.old) }
    {
        let outputs = one(alloc, output)?;
        self.purge(moment);
        self.moment = moment;
        Ok(outputs)
    }

    /// The answer that a packet gives to an open request, where it is an authentic reply to it.
    fn answered(
        &self,
        alloc: Global,
        taken: &Taken,
        packet: &Packet<'_>,
    ) -> Result<Option<Octets>, NoMemory>
        requires { IsSound self.now }
        ensures { IfOk result (AnswersBy (history.answered self.now.own taken.now packet.now
            (asking.request_in taken.now.request)) taken.now) }
    {
        let request = taken.request.as_slice();
        let Ok(message) = parse(request) else {
            return Ok(None);
        };
        let authenticator = authenticator_of(&taken.sent);
        if !packet.check_reply(authenticator, self.own.secret.as_slice()) {
            return Ok(None);
        }
        if !is_reply_code(&message.header, packet.code()) {
            return Ok(None);
        }
        Ok(Some(answer(alloc, &self.own, request, packet)?))
    }

    /// The answer that a packet gives to the open request with its identifier.
    fn matched(&self, alloc: Global, packet: &Packet<'_>) -> Result<Option<Octets>, NoMemory>
        requires { IsSound self.now }
        ensures { let found = find (history.has_identifier packet.now.id) self.now.open_ones.list in
            IfOk result (Matches (history.matched self.now.own packet.now found) found) }
    {
        match self.open_ones.find(packet.id()) {
            Some(found) => self.answered(alloc, &found.taken, packet),
            None => Ok(None),
        }
    }

    /// A packet of the RADIUS server.
    fn packet(
        &mut self,
        alloc: Global,
        moment: u64,
        packet: &Packet<'_>,
    ) -> Result<ReverseOutputs, NoMemory>
        requires sound { IsSound self.old }
        requires late { self.old.moment ≤ moment }
        ensures ok { IfOk result (Leads moment (history.matched self.old.own packet.now
            (find (history.has_identifier packet.now.id) self.old.open_ones.list))
            (state_of self.old) (state_of self.new)) }
        ensures sound { IsSound self.new }
        ensures err { OnErr result (state_of self.new ≡ state_of self.old) }
    {
        match self.matched(alloc, packet)? {
            None => self.say(
                alloc,
                moment,
                ReverseOutput::Dropped {
                    reason: ReverseReason::StrangeReply,
                },
            ),
            Some(octets) => {
                let answer = Headed::copy(alloc, octets.as_slice())?;
                let outputs = one(alloc, ReverseOutput::Answer { octets })?;
                self.close(packet.id(), moment, answer);
                Ok(outputs)
            }
        }
    }

    /// A datagram of the RADIUS server.
    pub(crate) fn reply(
        &mut self,
        alloc: Global,
        moment: u64,
        octets: &[u8],
    ) -> Result<ReverseOutputs, NoMemory>
        requires sound { IsSound self.old }
        requires late { self.old.moment ≤ moment }
        ensures ok { IfOk result (Leads moment (history.on_reply self.old.own
            self.old.open_ones.list octets.now) (state_of self.old) (state_of self.new)) }
        ensures sound { IsSound self.new }
        ensures err { OnErr result (state_of self.new ≡ state_of self.old) }
    {
        match Packet::parse(octets) {
            Ok(packet) => self.packet(alloc, moment, &packet),
            Err(_) => self.say(
                alloc,
                moment,
                ReverseOutput::Dropped {
                    reason: ReverseReason::StrangeReply,
                },
            ),
        }
    }
}
