//! What an input answers.

ghost use Rattle.std.specs.Prelude.{◌≡◌, List, IfOk};
ghost use Rattle.agent_core.specs.Places.{Event};
ghost use Rattle.agent_core.specs.History.{past, place};
ghost use Rattle.agent_core.specs.Standing.{StandsFor};
ghost use Rattle.agent_events.specs.declared.events.Input.TheVariants as inputs;
ghost use Rattle.transcript_runs.specs.Answers as specs;

use agent_core::Core;
use agent_events::Input;
use answer_causes::{Cause, cause_of};
use diameter_message::{parse, result_code};
use std::alloc::Global;
use wire_core::NoMemory;

/// An answer of the home server to a request that waited for it.
#[derive(Clone, Copy)]
pub struct HomeAnswer {
    pub command: u32,
    /// Its Result-Code, or 0 where none can be read.
    pub result: u32,
    /// When the request was taken up, in milliseconds.
    pub taken: u64,
    /// Why it doesn't give what it says, where it doesn't.
    pub cause: Option<Cause>,
}

/// What a message of the link answers, if it came at `moment`.
fn message_answered(
    alloc: Global,
    core: &Core,
    moment: u64,
    octets: &[u8],
) -> Result<Option<HomeAnswer>, NoMemory>
    ensures { (H : List Event) → StandsFor core.now H
        → IfOk result (λ answered. answered ≡ specs.answered_at (inputs.Message octets.now)
        (place core.now.config (past core.now.config H)
        (record { moment = moment; input = inputs.Message octets.now })).matched) }
{
    let Ok(message) = parse(octets) else {
        return Ok(None);
    };
    match core.awaited(moment, &message) {
        Some(entry) => {
            let client = core.config().clients.at(entry.kept.client as usize);
            let cause = cause_of(alloc, client, &entry.kept, &message)?;
            Ok(Some(HomeAnswer {
                command: message.header.command,
                result: result_code(message.avps),
                taken: entry.taken,
                cause,
            }))
        }
        None => Ok(None),
    }
}

/// What an input answers, if it came at `moment`.
pub fn answered(
    alloc: Global,
    core: &Core,
    moment: u64,
    input: &Input,
) -> Result<Option<HomeAnswer>, NoMemory>
    ensures { (H : List Event) → StandsFor core.now H
        → IfOk result (λ answered. answered ≡ specs.answered_at input.now
        (place core.now.config (past core.now.config H)
        (record { moment = moment; input = input.now })).matched) }
{
    match input {
        Input::Message { octets } => message_answered(alloc, core, moment, octets.as_slice()),
        _ => Ok(None),
    }
}
