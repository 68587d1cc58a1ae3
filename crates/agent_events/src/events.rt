//! What comes into the core, and what goes out of it.

ghost use Rattle.std.specs.Prelude.{◌≡◌, [], ◌∷◌, ◌++◌, OnOk, OnErr};

use diameter_message::FrameFault;
use peer_machine::LinkCause;
use radius_packet::{Reason, Via};
use std::alloc::Global;
use std::marker::Model;
use wire_core::{NoMemory, Octets};

/// What comes in. Addresses are IPv4.
#[derive(Drop)]
pub enum Input {
    /// A datagram of an access server, at one of the two ports.
    Datagram {
        via: Via,
        address: u32,
        port: u16,
        octets: Octets,
    },
    /// The link to the home server is there; its capabilities are still to be exchanged.
    Up,
    /// The link to the home server is there, and its capabilities have been exchanged.
    Ready,
    /// A whole Diameter message of the link.
    Message {
        octets: Octets,
    },
    /// The octets of the link are no messages from here on.
    Broken {
        fault: FrameFault,
    },
    /// The link is gone.
    Down,
    /// Time has passed.
    Tick,
    /// All that was to be sent on the link has been handed over.
    Drain,
    /// The agent wants to end.
    Leave,
}

/// What goes out.
#[derive(Drop)]
pub enum Output {
    /// A RADIUS reply, to the place that its request came from.
    Reply {
        via: Via,
        address: u32,
        port: u16,
        octets: Octets,
    },
    /// A Diameter message, on the link.
    Send {
        octets: Octets,
    },
    /// Nothing is done about this input.
    Dropped {
        reason: Reason,
    },
    /// The link is closed.
    Closed {
        cause: LinkCause,
    },
}

/// What goes out for one input, in order. Contracts see it as the list.
#[derive(Drop)]
pub struct Outputs {
    outputs: Vec<Output>,
}

impl Model for Outputs {
    ghost use Rattle.std.specs.Prelude.{List};
    ghost use Rattle.agent_events.specs.declared.events.Output.{Output};

    ghost Value = { List Output };

    ghost view = { λ o. o.outputs.items };
}

impl Outputs {
    /// No output.
    pub fn new(alloc: Global) -> Outputs
        ensures { result ≡ [] }
    {
        Outputs {
            outputs: Vec::new(alloc),
        }
    }

    /// These outputs, in their order.
    pub fn from_vec(outputs: Vec<Output>) -> Outputs
        ensures { result ≡ outputs.items }
    {
        Outputs { outputs }
    }

    /// Puts an output at the end. An `Err` changes nothing.
    pub fn push(&mut self, output: Output) -> Result<(), NoMemory>
        ensures ok { OnOk result (self.new ≡ self.old ++ output ∷ []) }
        ensures err { OnErr result (self.new ≡ self.old) }
    {
        self.outputs.push(output)?;
        Ok(())
    }

    /// The outputs in order.
    pub fn as_slice(&self) -> &[Output]
        ensures { result.now ≡ self.now }
    {
        self.outputs.as_slice()
    }

    /// The outputs in order, each by value.
    pub fn into_vec(self) -> Vec<Output>
        ensures { result.items ≡ self }
    {
        self.outputs
    }
}
