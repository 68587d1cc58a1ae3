//! What a request leads to.

ghost use Rattle.std.specs.Prelude.{◌≡◌, ◌+◌, ◌%◌, ◌≤◌, ◌<◌, ◌^◌, [], ◌∷◌, ◌++◌, take, drop, length, find, Ok, None, Some, IfOk, IsSome, IsTrue};
ghost use Rattle.radius_packet.specs.Packet.{IsPacket};
ghost use Rattle.diameter_message.specs.Message.{read_message};
ghost use Rattle.diameter_message.specs.View.{message_view};
ghost use Rattle.reverse_map.specs.Asked as asking;
ghost use Rattle.reverse_map.specs.Answers.{refusal};
ghost use Rattle.reverse_map.specs.Requests.{request_image, request_packet};
ghost use Rattle.reverse_core.specs.declared.events.ReverseOutput.TheVariants.{Answer, Dropped};
ghost use Rattle.reverse_core.specs.declared.considering.Considered.TheVariants.{Says, Takes};
ghost use Rattle.reverse_core.specs.Considering.{found_view, known_by, Considers};
ghost use Rattle.reverse_core.specs.History as history;
ghost use Rattle.indexmap.specs.IndexMap.{get};
ghost use Rattle.reverse_core.specs.Keys as keys;
ghost use Rattle.reverse_core.specs.State.{state_of, kept_in, IsSound};
ghost use Rattle.reverse_core.specs.Windows.{kept_at};

use crate::events::{ReverseOutput, ReverseReason};
use crate::kept_answers::MOST;
use crate::key::Key;
use crate::ledger::{Ledger, Standing};
use crate::reading::{is_served, key_of};
use crate::requests::{KeptAnswer, Taken};
use crate::values::{AskingRequest, Headed};
use diameter_message::{Message, parse};
use reverse_map::{ReverseFault, packet, refuse};
use std::alloc::Global;
use wire_core::{NoMemory, Octets, SharedKey};

/// Result-Codes (RFC 6733, section 7.1).
const TOO_BUSY: u32 = 3004;

const AVP_UNSUPPORTED: u32 = 5001;

const UNABLE_TO_COMPLY: u32 = 5012;

/// What is known of a key.
#[derive(Clone, Copy)]
pub(crate) enum Found<'a> {
    Unknown,
    Open,
    Kept(&'a KeptAnswer),
}

/// What a request leads to.
#[derive(Drop)]
pub(crate) enum Considered {
    /// Nothing but this output.
    Says { output: ReverseOutput },
    /// It is taken up, and its packet goes out.
    Takes { taken: Taken },
}

/// An input that is dropped.
fn drop_as(reason: ReverseReason) -> Considered
    ensures { result ≡ Says (Dropped reason) }
{
    Considered::Says {
        output: ReverseOutput::Dropped { reason },
    }
}

/// A kept answer, for a request that comes again with this Hop-by-Hop Identifier.
#[tactic(auto, unfolding(wire_core::specs::Numbers::u32))]
fn answer_again(alloc: Global, kept: &KeptAnswer, hop: u32) -> Result<Considered, NoMemory>
    ensures { IfOk result (λ c. c ≡ Says (Answer (history.with_hop hop kept.now.answer))) }
{
    let mut octets = Octets::copy(alloc, kept.answer.as_slice())?;
    octets.overwrite(12, &hop.to_be_bytes());
    Ok(Considered::Says {
        output: ReverseOutput::Answer { octets },
    })
}

impl Ledger {
    /// What is known of the key of the answer before which so many were given.
    fn found_kept(&self, count: u64, moment: u64) -> Found<'_>
        ensures { found_view result ≡ known_by self.now.own moment (kept_at self.now.kept count) }
    {
        match self.kept.get(count) {
            None => Found::Unknown,
            Some(kept) => {
                if kept.is_kept(self.own.retention, moment) {
                    Found::Kept(kept)
                } else {
                    Found::Unknown
                }
            }
        }
    }

    /// Where the request of a key stands.
    fn standing(&self, key: &Key) -> Option<Standing>
        ensures { result ≡ get keys.same_key self.now.index key.now }
    {
        self.index.get(&SharedKey::lent(key)).copied()
    }

    /// What is known of a key.
    fn found(&self, key: &Key, moment: u64) -> Found<'_>
        requires { IsSound self.now }
        ensures { found_view result
            ≡ history.known key.now self.now.open_ones.list (kept_in (state_of self.now) moment) }
    {
        match self.standing(key) {
            None => Found::Unknown,
            Some(Standing::Open) => Found::Open,
            Some(Standing::Kept { count }) => self.found_kept(count, moment),
        }
    }

    /// The identifier of the next request's packet.
    fn next_identifier(&self) -> u8
        ensures { result ≡ self.now.open_ones.next % 256 }
    {
        (self.open_ones.next() % 256) as u8
    }

    /// Whether no further request may be taken up.
    fn is_full(&self, moment: u64) -> bool
        requires { IsSound self.now }
        ensures { result ≡ history.is_full self.now.open_ones.list
            (kept_in (state_of self.now) moment) self.now.open_ones.next }
    {
        MOST <= self.open_ones.len() + self.kept.count(self.own.retention, moment)
            || self.open_ones.find(self.next_identifier()).is_some()
    }

    /// An answer with this Result-Code to a request that isn't taken up.
    fn refuse(&self, alloc: Global, request: &[u8], code: u32) -> Result<Considered, NoMemory>
        requires sound { IsSound self.now }
        requires asked { IsSome (asking.request_in request.now) }
        ensures { asking.ForRequest request.now
            (λ q. IfOk result (λ c. c ≡ Says (Answer (refusal self.now.own q code)))) }
    {
        let octets = refuse(alloc, &self.own, request, code)?;
        Ok(Considered::Says {
            output: ReverseOutput::Answer { octets },
        })
    }

    /// The next request, with this packet.
    fn taken(
        &self,
        alloc: Global,
        key: Key,
        request: &[u8],
        packet: Octets,
    ) -> Result<Considered, NoMemory>
        requires asked { IsSome (asking.request_in request.now) }
        requires packet { 20 ≤ length packet }
        ensures { IfOk result (λ c. c ≡ Takes (record {
          number = self.now.open_ones.next;
          key = key;
          request = request.now;
          sent = packet;
        })) }
    {
        Ok(Considered::Takes {
            taken: Taken {
                number: self.open_ones.next(),
                key: SharedKey::new(alloc, key)?,
                request: AskingRequest::copy(alloc, request)?,
                sent: Headed::new(packet),
            },
        })
    }

    /// A request that may be taken up, where it can be a packet.
    fn translated(
        &self,
        alloc: Global,
        message: &Message<'_>,
        key: Key,
        octets: &[u8],
        random: [u8; 16],
    ) -> Result<Considered, NoMemory>
        requires sound { IsSound self.now }
        requires message { read_message octets.now ≡ Ok (message_view message.now) }
        requires served { IsTrue (asking.is_served message.now.header) }
        requires asked { IsSome (asking.asked_in (message_view message.now)) }
        requires key { asking.ForAsked (message_view message.now) (λ q. key ≡ keys.key_of q) }
        ensures { asking.ForAsked (message_view message.now) (λ q. IfOk result
            (Considers (history.translated self.now.own self.now.open_ones.next octets.now q
            (request_image (asking.direction_of q.header) (self.now.open_ones.next % 256) random
            self.now.own.secret q.avps)))) }
    {
        let id = self.next_identifier();
        match packet(alloc, message, id, random, self.own.secret.as_slice()) {
            Ok(sent) => self.taken(alloc, key, octets, sent),
            Err(ReverseFault::Unsupported) => self.refuse(alloc, octets, AVP_UNSUPPORTED),
            Err(ReverseFault::Unable) => self.refuse(alloc, octets, UNABLE_TO_COMPLY),
            Err(ReverseFault::NoMemory) => Err(NoMemory),
        }
    }

    /// A request of which nothing is known.
    fn unknown(
        &self,
        alloc: Global,
        moment: u64,
        message: &Message<'_>,
        key: Key,
        octets: &[u8],
        random: [u8; 16],
    ) -> Result<Considered, NoMemory>
        requires sound { IsSound self.now }
        requires message { read_message octets.now ≡ Ok (message_view message.now) }
        requires served { IsTrue (asking.is_served message.now.header) }
        requires asked { IsSome (asking.asked_in (message_view message.now)) }
        requires key { asking.ForAsked (message_view message.now) (λ q. key ≡ keys.key_of q) }
        ensures { asking.ForAsked (message_view message.now)
            (λ q. IfOk result (Considers (history.on_unknown self.now.own self.now.open_ones.list
            (kept_in (state_of self.now) moment) self.now.open_ones.next octets.now random q))) }
    {
        if self.is_full(moment) {
            self.refuse(alloc, octets, TOO_BUSY)
        } else {
            self.translated(alloc, message, key, octets, random)
        }
    }

    /// A request with a key.
    fn with_key(
        &self,
        alloc: Global,
        moment: u64,
        message: &Message<'_>,
        key: Key,
        octets: &[u8],
        random: [u8; 16],
    ) -> Result<Considered, NoMemory>
        requires sound { IsSound self.now }
        requires message { read_message octets.now ≡ Ok (message_view message.now) }
        requires served { IsTrue (asking.is_served message.now.header) }
        requires asked { IsSome (asking.asked_in (message_view message.now)) }
        requires key { asking.ForAsked (message_view message.now) (λ q. key ≡ keys.key_of q) }
        ensures { asking.ForAsked (message_view message.now)
            (λ q. IfOk result (Considers (history.on_asked self.now.own self.now.open_ones.list
            (kept_in (state_of self.now) moment) self.now.open_ones.next octets.now random
            (Some q)))) }
    {
        match self.found(&key, moment) {
            Found::Open => Ok(drop_as(ReverseReason::Open)),
            Found::Kept(kept) => answer_again(alloc, kept, message.header.hop),
            Found::Unknown => self.unknown(alloc, moment, message, key, octets, random),
        }
    }

    /// What a request leads to. Nothing is changed yet.
    pub(crate) fn considered(
        &self,
        alloc: Global,
        moment: u64,
        octets: &[u8],
        random: [u8; 16],
    ) -> Result<Considered, NoMemory>
        requires { IsSound self.now }
        ensures { IfOk result (Considers (history.on_request self.now.own self.now.open_ones.list
            (kept_in (state_of self.now) moment)
            self.now.open_ones.next octets.now random)) }
    {
        let Ok(message) = parse(octets) else {
            return Ok(drop_as(ReverseReason::NotRequest));
        };
        if !is_served(&message.header) {
            return Ok(drop_as(ReverseReason::NotRequest));
        }
        match key_of(alloc, &message)? {
            None => Ok(drop_as(ReverseReason::NoIdentity)),
            Some(key) => self.with_key(alloc, moment, &message, key, octets, random),
        }
    }
}
