//! What comes into the core of the reverse way, and what goes out of it.

ghost use Rattle.std.specs.Prelude.{◌≡◌};
ghost use Rattle.reverse_core.specs.Reasons.{reason_number};

use std::marker::Model;
use wire_core::Octets;

/// What comes in.
#[derive(Drop)]
pub enum ReverseInput {
    /// A Diameter message of a client, and sixteen random octets.
    Request { octets: Octets, random: [u8; 16] },
    /// A datagram of the RADIUS server.
    Reply { octets: Octets },
    /// Time passes.
    Tick,
}

/// Why an input has no other answer (profile). Its numbers follow those of the reasons of the other inputs.
#[derive(Clone, Copy, PartialEq, Eq)]
pub enum ReverseReason {
    /// No message, or none that is served.
    NotRequest,
    /// A request without one Session-Id and one Origin-Host.
    NoIdentity,
    /// A request that comes again while it is open.
    Open,
    /// A datagram that answers nothing that is open.
    StrangeReply,
}

impl ReverseReason {
    /// Its number: 28 to 31 in order.
    pub fn number(&self) -> u32
        ensures { result ≡ reason_number self.now }
    {
        match self {
            ReverseReason::NotRequest => 28,
            ReverseReason::NoIdentity => 29,
            ReverseReason::Open => 30,
            ReverseReason::StrangeReply => 31,
        }
    }
}

/// What goes out.
#[derive(Drop)]
pub enum ReverseOutput {
    /// A packet to the RADIUS server.
    Send { octets: Octets },
    /// A Diameter answer.
    Answer { octets: Octets },
    /// Nothing is done about this input.
    Dropped { reason: ReverseReason },
}

/// What goes out for one input, in order. Contracts see it as the list.
#[derive(Drop)]
pub struct ReverseOutputs {
    outputs: Vec<ReverseOutput>,
}

impl Model for ReverseOutputs {
    ghost use Rattle.std.specs.Prelude.{List};
    ghost use Rattle.reverse_core.specs.declared.events.ReverseOutput.{ReverseOutput};

    ghost Value = { List ReverseOutput };

    ghost view = { λ o. o.outputs.items };
}

impl ReverseOutputs {
    /// These outputs, in their order.
    pub fn from_vec(outputs: Vec<ReverseOutput>) -> ReverseOutputs
        ensures { result ≡ outputs.items }
    {
        ReverseOutputs { outputs }
    }

    /// The outputs in order.
    pub fn as_slice(&self) -> &[ReverseOutput]
        ensures { result.now ≡ self.now }
    {
        self.outputs.as_slice()
    }

    /// The outputs in order, each by value.
    pub fn into_vec(self) -> Vec<ReverseOutput>
        ensures { result.items ≡ self }
    {
        self.outputs
    }
}
