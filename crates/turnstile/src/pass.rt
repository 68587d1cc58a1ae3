//! Passes, and what is left of them in the end.
ghost use Rattle.std.specs.Prelude.{◌≡◌};
ghost use Rattle.turnstile.specs.Order.{Rests};

use crate::desk::Desk;
use crate::view::View;
use atomic_table::Seat;
use std::marker::Model;
use wire_core::NoMemory;

/// A pass through a turnstile. It holds one or more of the numbers 0 to 3, and takes no memory. Contracts see what it
/// knows by `known`, and which turnstile it is of by `table_of`.
#[derive(Drop)]
pub struct PassOf<D, A, B> {
    pub(crate) seat: Seat<Option<D>, View<D, A, B>>,
    ghost rests: { Rests seat },
}

/// A pass at a desk's turnstile.
pub type Pass<D> = PassOf<D, <D as Desk>::Ask, <D as Desk>::Answer>;

/// All turns of a turnstile that was closed. It takes no memory, and contracts see it as the list of the turns.
#[derive(Drop)]
pub struct TurnsOf<D, A, B> {
    pub(crate) seat: Seat<Option<D>, View<D, A, B>>,
}

impl<D, A, B> Model for TurnsOf<D, A, B> {
    ghost use Rattle.std.specs.Prelude.{List};
    ghost use Rattle.turnstile.specs.Turns.{Turn};

    ghost Value = { List (Turn A B) };

    ghost view = { λ t. t.seat.me.0.known.seen };
}

/// All turns at a desk's turnstile.
pub type Turns<D> = TurnsOf<D, <D as Desk>::Ask, <D as Desk>::Answer>;

/// A turnstile that wasn't started, with the desk that was handed in.
#[derive(Drop)]
pub struct Unstarted<D> {
    pub desk: D,
    pub cause: NoMemory,
}

impl<D, A, B> PassOf<D, A, B> {
    pub(crate) fn into_seat(self) -> Seat<Option<D>, View<D, A, B>>
        ensures { result ≡ self.seat }
    {
        self.seat
    }
}
