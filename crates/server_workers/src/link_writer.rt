//! The writer of a link.

ghost use Rattle.std.specs.Prelude.{◌≡◌, [], ◌∷◌, true, false, None, IfOk, IfSome, IfNone};
ghost use Rattle.turnstile.specs.Passes.{known, table_of};
ghost use Rattle.server_workers.specs.Entries.{octets_in};
ghost use Rattle.server_workers.specs.LinkWriting.{GoesFor, SentOn, TakesLeave, TookLeave, WroteLink, WroteRound};

use crate::base::RunBase;
use crate::heard::Heard;
use crate::turns::{enter, is_final};
use agent_events::{Input, Output};
use peer_machine::LinkCause;
use std::alloc::{AllocError, Global};
use std::sync::Wait;
use turnstile::{Desk, Pass, Turnstile};
use wire_core::{NoMemory, Put};
use wire_devices::LinkOut;

/// How a writer went from its link.
#[derive(Clone, Copy, PartialEq, Eq)]
pub enum WriterEnd {
    /// The link was closed for this cause.
    Closed { cause: LinkCause },
    /// The agent took its leave, and what was still to be sent was drained and sent.
    Done,
    /// Memory was wanting for that.
    NoMemory,
}

/// The cause for which a writer goes after this answer. It goes for any, but where the run is finished for Refused and Left
/// alone: for another it takes the agent's leave.
fn goes_for(heard: &Heard) -> Option<LinkCause>
    ensures cause { IfSome result (λ cause. GoesFor cause heard.now) }
    ensures leave { IfNone result (heard.now.finished ≡ true → TakesLeave heard.now) }
    ensures none { IfNone result (heard.now.finished ≡ false → heard.now.closed ≡ None) }
{
    match heard.closed {
        Some(cause) => {
            if is_final(cause) || !heard.finished {
                Some(cause)
            } else {
                None
            }
        }
        None => None,
    }
}

/// Sends this on the link, where it is a message. It says whether no send failed.
fn send_one<O: LinkOut>(link: &mut O, output: &Output) -> bool
    ensures { SentOn result (output.now ∷ []) (O.told link.old) (O.told link.new) }
{
    match output {
        Output::Send { octets } => matches!(link.send(octets.as_slice()), Put::Done),
        _ => true,
    }
}

/// Sends these on the link, one after another, until a send fails. It says whether none failed.
fn send_each<O: LinkOut>(link: &mut O, outputs: &[Output]) -> bool
    ensures { SentOn result outputs.now (O.told link.old) (O.told link.new) }
{
    for output in outputs {
        if !send_one(link, output) {
            return false;
        }
    }
    true
}

/// How many octets the messages among these have, for the room that they take.
fn size(outputs: &[Output]) -> usize {
    let mut size: usize = 0;
    for output in outputs {
        if let Output::Send { octets } = output {
            size = size.saturating_add(octets.len());
        }
    }
    size
}

/// The messages among these, one behind another.
fn joined(alloc: Global, outputs: &[Output]) -> Result<Vec<u8>, AllocError>
    ensures { IfOk result (λ piece. piece.items ≡ octets_in outputs.now) }
{
    let mut piece = Vec::with_capacity(alloc, size(outputs))?;
    for output in outputs {
        if let Output::Send { octets } = output {
            piece.extend_from_slice(octets.as_slice())?;
        }
    }
    Ok(piece)
}

/// Sends these on the link, in order: several in one piece, which is a call of the system less for each, where there is
/// memory for it. It says whether no send failed.
fn send_all<O: LinkOut>(alloc: Global, link: &mut O, outputs: &[Output]) -> bool
    ensures { SentOn result outputs.now (O.told link.old) (O.told link.new) }
{
    if outputs.len() > 1 {
        if let Ok(piece) = joined(alloc, outputs) {
            return matches!(link.send(piece.as_slice()), Put::Done);
        }
    }
    send_each(link, outputs)
}

/// One round: drains, and sends what is handed over, where the link is sound. Where a send fails it isn't sound any more, and
/// a visit says so.
fn drain<
    R: Wait,
    T: Desk<Ask = Input, Answer = Heard, Refusal = NoMemory, Base = RunBase>,
    O: LinkOut,
>(
    rt: &R,
    alloc: Global,
    turnstile: &Turnstile<T>,
    pass: &mut Pass<T>,
    link: &mut O,
    sound: &mut bool,
) -> Option<Heard>
    requires { table_of pass.old ≡ turnstile.now }
    ensures table { table_of pass.new ≡ table_of pass.old }
    ensures wrote { WroteRound result sound.old sound.new (known pass.old) (known pass.new)
        (O.told link.old) (O.told link.new) }
{
    let heard = enter(rt, turnstile, pass, Input::Drain)?;
    if *sound && !send_all(alloc, link, heard.sends.as_slice()) {
        *sound = false;
        let _ = enter(rt, turnstile, pass, Input::Down);
    }
    Some(heard)
}

/// Takes the agent's leave, and drains once more.
fn leave<
    R: Wait,
    T: Desk<Ask = Input, Answer = Heard, Refusal = NoMemory, Base = RunBase>,
    O: LinkOut,
>(
    rt: &R,
    alloc: Global,
    turnstile: &Turnstile<T>,
    pass: &mut Pass<T>,
    link: &mut O,
    sound: &mut bool,
) -> WriterEnd
    requires { table_of pass.old ≡ turnstile.now }
    ensures table { table_of pass.new ≡ table_of pass.old }
    ensures took { TookLeave result sound.old sound.new (known pass.old) (known pass.new)
        (O.told link.old) (O.told link.new) }
{
    let Some(_) = enter(rt, turnstile, pass, Input::Leave) else {
        return WriterEnd::NoMemory;
    };
    match drain(rt, alloc, turnstile, pass, link, sound) {
        Some(_) => WriterEnd::Done,
        None => WriterEnd::NoMemory,
    }
}

/// Drains and sends round by round, until the link is closed. Where the run is finished it takes the agent's leave.
pub fn write_link<
    R: Wait,
    T: Desk<Ask = Input, Answer = Heard, Refusal = NoMemory, Base = RunBase>,
    O: LinkOut,
>(rt: &R, alloc: Global, turnstile: &Turnstile<T>, pass: &mut Pass<T>, link: &mut O) -> WriterEnd
    requires { table_of pass.old ≡ turnstile.now }
    ensures table { table_of pass.new ≡ table_of pass.old }
    ensures wrote { WroteLink result (known pass.old) (known pass.new) (O.told link.old)
        (O.told link.new) }
{
    let mut sound = true;
    for _ in rt.forever() {
        let Some(heard) = drain(rt, alloc, turnstile, pass, link, &mut sound) else {
            link.rest();
            continue;
        };
        if let Some(cause) = goes_for(&heard) {
            return WriterEnd::Closed { cause };
        }
        if heard.finished {
            return leave(rt, alloc, turnstile, pass, link, &mut sound);
        }
        link.rest();
    }
    unreachable!()
}
