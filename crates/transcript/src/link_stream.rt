//! The octets of `link` lines, cut into messages.

ghost use Rattle.std.specs.Prelude.{◌≡◌, ◌++◌, ℕ, [], List, IfOk, OnOk};
ghost use Rattle.transcript.specs.Inputs.{Gives, HasCut, link_inputs, new_fault};
ghost use Rattle.diameter_message.specs.Framing.{StandsFor};

use crate::line::Inputs;
use agent_events::Input;
use diameter_message::{FrameFault, Framer, Next};
use std::alloc::Global;
use wire_core::NoMemory;

/// The octets of the `link` lines since the last `up` or `ready` line, cut into messages.
#[derive(Drop)]
pub(crate) struct LinkStream {
    framer: Framer,
    /// Whether the framer showed a fault at an earlier line.
    is_broken: bool,
}

impl LinkStream {
    /// Before the first octet.
    pub(crate) fn new(alloc: Global) -> LinkStream
        ensures { HasCut result.framer result.is_broken [] }
    {
        LinkStream {
            framer: Framer::new(alloc),
            is_broken: false,
        }
    }

    /// The inputs of a `link` line with these octets.
    pub(crate) fn take(&mut self, alloc: Global, octets: &[u8]) -> Result<Inputs, NoMemory>
        ensures inputs { (stream : List ℕ) → HasCut self.old.framer self.old.is_broken stream
            → IfOk result (λ inputs. inputs ≡ link_inputs stream (stream ++ octets.now)) }
        ensures cut { (stream : List ℕ) → HasCut self.old.framer self.old.is_broken stream
            → OnOk result (HasCut self.new.framer self.new.is_broken (stream ++ octets.now)) }
    {
        let mut inputs = Inputs::new(alloc);
        self.framer.feed(octets)?;
        let fault = give_messages(&mut self.framer, &mut inputs)?;
        tell(fault, self.is_broken, &mut inputs)?;
        self.is_broken = fault.is_some();
        Ok(inputs)
    }
}

/// A fault is an input where it shows for the first time.
fn tell(fault: Option<FrameFault>, was_broken: bool, inputs: &mut Inputs) -> Result<(), NoMemory>
    ensures { OnOk result (inputs.new ≡ inputs.old ++ new_fault was_broken fault) }
{
    match fault {
        Some(fault) => {
            if was_broken {
                Ok(())
            } else {
                inputs.push(Input::Broken { fault })
            }
        }
        None => Ok(()),
    }
}

/// Gives the messages that are whole, and then the fault of the stream, where it shows one.
fn give_messages(framer: &mut Framer, inputs: &mut Inputs) -> Result<Option<FrameFault>, NoMemory>
    ensures { (stream : List ℕ) (given : List (List ℕ)) → StandsFor framer.old stream given
        → IfOk result (λ fault. Gives stream given fault framer.new inputs.old inputs.new) }
{
    loop {
        match framer.next_message()? {
            Next::Message(octets) => inputs.push(Input::Message { octets })?,
            Next::Wait => return Ok(None),
            Next::Fault(fault) => return Ok(Some(fault)),
        }
    }
}
