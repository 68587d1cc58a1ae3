//! A client that sends one packet until it is answered.

ghost use Rattle.std.specs.Prelude.{◌≡◌, IsOk, option_map};
ghost use Rattle.std.specs.Option.{option_copied};
ghost use Rattle.radius_packet.specs.Packet.{read_packet};
ghost use Rattle.test_peers.specs.Nas as specs;

use radius_packet::Packet;
use std::marker::Model;
use wire_core::Octets;

/// How long the client waits before it sends again, in milliseconds.
const PAUSE: u64 = 500;

/// What the client does in a step.
#[derive(Clone, Copy, PartialEq, Eq)]
pub enum NasOutput {
    /// It sends its packet.
    Send,
    /// It waits.
    Wait,
    /// It has its reply: what it got.
    Reply,
    /// It waits no longer.
    GaveUp,
}

/// A client with one packet. Contracts see the packet, its identifier, the patience and when it was first stepped and
/// last sent.
#[derive(Drop)]
pub struct Nas {
    packet: Octets,
    id: u8,
    patience: u64,
    first: Option<u64>,
    sent: Option<u64>,
}

impl Model for Nas {
    ghost use Rattle.test_peers.specs.Nas.{NasParts};

    ghost Value = { NasParts };

    ghost view = { λ n. record { packet = n.packet; id = n.id; patience = n.patience; first = n.first; sent = n.sent } };
}

/// The identifier of the packet that these octets are.
fn id_in(octets: &[u8]) -> Option<u8>
    ensures { result ≡ specs.id_in octets.now }
{
    match Packet::parse(octets) {
        Ok(packet) => Some(packet.id()),
        Err(_) => None,
    }
}

/// Whether this moment is so long after that one. A sum past the greatest moment is never reached.
fn is_past(since: u64, time: u64, moment: u64) -> bool
    ensures { result ≡ specs.is_past since time moment }
{
    match since.checked_add(time) {
        Some(due) => due <= moment,
        None => false,
    }
}

impl Nas {
    /// A client that sends this packet, and gives it up `patience` milliseconds after its first step.
    pub fn new(packet: Octets, patience: u64) -> Nas
        requires { IsOk (read_packet packet) }
        ensures { result ≡ specs.fresh packet patience }
    {
        let id = id_in(packet.as_slice()).unwrap_or(0);
        Nas {
            packet,
            id,
            patience,
            first: None,
            sent: None,
        }
    }

    /// What it sends.
    pub fn packet(&self) -> &[u8]
        ensures { result.now ≡ self.now.packet }
    {
        self.packet.as_slice()
    }

    fn is_answered(&self, got: Option<&[u8]>) -> bool
        ensures { result ≡ specs.is_answered self.now (option_copied got.entry) }
    {
        match got {
            Some(octets) => id_in(octets) == Some(self.id),
            None => false,
        }
    }

    fn is_due(&self, moment: u64) -> bool
        ensures { result ≡ specs.is_due self.now moment }
    {
        match self.first {
            None => true,
            Some(_) => match self.sent {
                Some(sent) => is_past(sent, PAUSE, moment),
                None => false,
            },
        }
    }

    /// One step at a moment in milliseconds, with what was received since the last one.
    pub fn step(&mut self, moment: u64, got: Option<&[u8]>) -> NasOutput
        ensures output { result ≡ specs.output_at self.old moment (option_copied got.entry) }
        ensures after { self.new ≡ specs.nas_after self.old moment result }
    {
        let first = self.first.unwrap_or(moment);
        let due = self.is_due(moment);
        self.first = Some(first);
        if self.is_answered(got) {
            return NasOutput::Reply;
        }
        if is_past(first, self.patience, moment) {
            return NasOutput::GaveUp;
        }
        if due {
            self.sent = Some(moment);
            return NasOutput::Send;
        }
        NasOutput::Wait
    }
}
