//! The lines of a transcript as values.

ghost use Rattle.std.specs.Prelude.{◌≡◌, [], ◌∷◌, ◌++◌, length, IfOk, OnOk, OnErr};

use agent_events::Input;
use agent_settings::{Client, Config};
use std::alloc::Global;
use std::marker::Model;
use wire_core::{NoMemory, Octets};

/// The inputs of one event line, in order. Contracts see them as the list.
#[derive(Drop)]
pub struct Inputs {
    inputs: Vec<Input>,
}

impl Model for Inputs {
    ghost use Rattle.std.specs.Prelude.{List};
    ghost use Rattle.agent_events.specs.declared.events.Input.{Input};

    ghost Value = { List Input };

    ghost view = { λ i. i.inputs.items };
}

impl Inputs {
    /// No input.
    pub(crate) fn new(alloc: Global) -> Inputs
        ensures { result ≡ [] }
    {
        Inputs {
            inputs: Vec::new(alloc),
        }
    }

    /// Puts an input at the end. An `Err` changes nothing.
    pub(crate) fn push(&mut self, input: Input) -> Result<(), NoMemory>
        ensures ok { OnOk result (self.new ≡ self.old ++ input ∷ []) }
        ensures err { OnErr result (self.new ≡ self.old) }
    {
        self.inputs.push(input)?;
        Ok(())
    }

    /// This input alone.
    pub(crate) fn one(alloc: Global, input: Input) -> Result<Inputs, NoMemory>
        ensures { IfOk result (λ i. i ≡ input ∷ []) }
    {
        let mut inputs = Inputs::new(alloc);
        inputs.push(input)?;
        Ok(inputs)
    }

    /// How many inputs there are.
    pub fn len(&self) -> usize
        ensures { result ≡ length self.now }
    {
        self.inputs.len()
    }

    /// The inputs in order.
    pub fn as_slice(&self) -> &[Input]
        ensures { result.now ≡ self.now }
    {
        self.inputs.as_slice()
    }

    /// The inputs in order, each by value.
    pub fn into_vec(self) -> Vec<Input>
        ensures { result.items ≡ self }
    {
        self.inputs
    }
}

/// A line of a transcript; `number` counts from 1.
#[derive(Drop)]
pub enum Line {
    /// The settings, still without clients.
    Agent {
        number: u64,
        config: Config,
    },
    /// A further client of the settings.
    Client {
        number: u64,
        client: Client,
    },
    /// What comes in at a moment, in milliseconds. A `link` line that ends no message is no input.
    Event {
        number: u64,
        moment: u64,
        inputs: Inputs,
    },
    /// A packet that comes at a moment, in milliseconds, from this address and port, for what speaks with access servers
    /// beside the agent. Only a reader with control gives it.
    Control {
        number: u64,
        moment: u64,
        address: u32,
        port: u16,
        octets: Octets,
    },
}
