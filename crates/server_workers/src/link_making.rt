//! How the server makes a link.

ghost use Rattle.std.specs.Prelude.{◌≡◌, List, [], ◌∷◌};
ghost use Rattle.turnstile.specs.Passes.{known, table_of};
ghost use Rattle.server_workers.specs.Entries.{RunTurn};
ghost use Rattle.server_workers.specs.Going.{Went};
ghost use Rattle.server_workers.specs.Running.{Dialled, MadeAs, MadeBy, TookTick};

use crate::base::RunBase;
use crate::heard::Heard;
use crate::turns::enter;
use agent_events::Input;
use std::sync::Wait;
use turnstile::{Desk, Pass, Turnstile};
use wire_core::NoMemory;
use wire_devices::Dialer;

/// So many dials in a row may fail.
const MOST_DIALS: u32 = 16;

/// How the dialling of a link ended.
pub enum Dialling<I, O> {
    Made { link_in: I, link_out: O },
    /// The run is at its end.
    Finished,
    /// Too many dials in a row failed.
    Failed,
}

/// Enters a Tick. It says whether the run is at its end.
fn tick<R: Wait, T: Desk<Ask = Input, Answer = Heard, Refusal = NoMemory, Base = RunBase>>(
    rt: &R,
    turnstile: &Turnstile<T>,
    pass: &mut Pass<T>,
) -> bool
    requires { table_of pass.old ≡ turnstile.now }
    ensures table { table_of pass.new ≡ table_of pass.old }
    ensures ticked { (turn : RunTurn) × Went (turn ∷ []) (known pass.old) (known pass.new)
        × TookTick result turn }
{
    match enter(rt, turnstile, pass, Input::Tick) {
        Some(heard) => heard.finished,
        None => false,
    }
}

/// Dials until a link is made, the run is at its end, or 16 dials in a row failed. Each that fails is followed by a Tick.
pub fn dial<
    R: Wait,
    T: Desk<Ask = Input, Answer = Heard, Refusal = NoMemory, Base = RunBase>,
    L: Dialer,
>(rt: &R, turnstile: &Turnstile<T>, pass: &mut Pass<T>, dialer: &mut L) -> Dialling<L::In, L::Out>
    requires table { table_of pass.old ≡ turnstile.now }
    requires row { (L.told dialer.old).row ≡ 0 }
    ensures table { table_of pass.new ≡ table_of pass.old }
    ensures dialled { (mine : List RunTurn) × Went mine (known pass.old) (known pass.new)
        × Dialled L.In.told L.Out.told result mine (L.told dialer.old) (L.told dialer.new) }
    ensures made { MadeBy result (L.made dialer.old) (L.made dialer.new) }
    ensures numbered { MadeAs L.In.told result (L.made dialer.old) }
{
    for row in 0..MOST_DIALS {
        if let Some((link_in, link_out)) = dialer.dial() {
            return Dialling::Made { link_in, link_out };
        }
        if tick(rt, turnstile, pass) && row + 1 < MOST_DIALS {
            return Dialling::Finished;
        }
    }
    Dialling::Failed
}
