//! The turns of the server's threads.

ghost use Rattle.std.specs.Prelude.{◌≡◌, List, [], ◌∷◌};
ghost use Rattle.turnstile.specs.Passes.{known, table_of};
ghost use Rattle.server_workers.specs.Entries.{is_final as final_test, AsksLeave, RunTurn, turn_of};
ghost use Rattle.server_workers.specs.Going.{SeenLast, Went};

use crate::base::RunBase;
use crate::heard::Heard;
use agent_events::Input;
use peer_machine::LinkCause;
use std::sync::Wait;
use std::thread;
use turnstile::{Desk, Pass, Turnstile};
use wire_core::NoMemory;

/// Waits for its turn, and enters this input. None where memory was wanting: the input is lost then.
pub fn enter<R: Wait, T: Desk<Ask = Input, Answer = Heard, Refusal = NoMemory, Base = RunBase>>(
    rt: &R,
    turnstile: &Turnstile<T>,
    pass: &mut Pass<T>,
    input: Input,
) -> Option<Heard>
    requires { table_of pass.old ≡ turnstile.now }
    ensures table { table_of pass.new ≡ table_of pass.old }
    ensures went { Went (turn_of input result ∷ []) (known pass.old) (known pass.new) }
    ensures last { SeenLast (turn_of input result) (known pass.old) (known pass.new) }
{
    turnstile.visit(rt, pass, input).ok()
}

/// Takes the agent's leave, and asks for it again wherever memory is wanting.
pub fn take_leave<
    R: Wait,
    T: Desk<Ask = Input, Answer = Heard, Refusal = NoMemory, Base = RunBase>,
>(rt: &R, turnstile: &Turnstile<T>, pass: &mut Pass<T>) -> Heard
    requires { table_of pass.old ≡ turnstile.now }
    ensures table { table_of pass.new ≡ table_of pass.old }
    ensures left { (tries : List RunTurn) × Went tries (known pass.old) (known pass.new)
        × AsksLeave result tries }
{
    for _ in rt.forever() {
        if let Some(left) = enter(rt, turnstile, pass, Input::Leave) {
            return left;
        }
        thread::yield_now();
    }
    unreachable!()
}

/// Whether no link is made after one that is closed for this cause.
pub fn is_final(cause: LinkCause) -> bool
    ensures { result ≡ final_test cause }
{
    matches!(cause, LinkCause::Refused { .. } | LinkCause::Left)
}
