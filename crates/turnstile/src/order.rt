//! The rule of the table, and its steps, which are named for the proofs alone.
ghost use Rattle.std.specs.Prelude.{Option};

use crate::desk::Desk;
use crate::view::View;
use atomic_table::{Join, Play, Split, TableRule};
use std::marker::{Brand, PhantomData};
use std::snapshot::Snapshot;

/// The rule of the table.
pub struct Order;

impl<D: Desk> TableRule<Option<D>, View<D, D::Ask, D::Answer>, Snapshot<D>> for Order {
    ghost use Rattle.turnstile.specs.Order.{TurnsInOrder, idle};
    ghost use Rattle.turnstile.specs.Knowing.{fresh};

    ghost holds = { λ key. TurnsInOrder D.stands key.value };

    ghost first = { λ key. idle (fresh key.value) };
}

/// A ticket is drawn.
pub(crate) struct Draw;

impl<D, A, B> Play<Option<D>, View<D, A, B>> for Draw {
    ghost use Rattle.turnstile.specs.Order.{drew};

    ghost then = { drew };
}

/// A waiting seat looks whether its ticket is due, and takes the desk where it is.
pub(crate) struct Look;

impl<D: Desk> Play<Option<D>, View<D, D::Ask, D::Answer>> for Look {
    ghost use Rattle.turnstile.specs.Order.{looked};

    ghost then = { looked D.stands };
}

/// The turn that a raise adds.
pub(crate) trait Turned<A, B> {
    ghost turn: { Option (A × B) };
}

impl<A, B> Turned<A, B> for Brand {
    ghost use Rattle.std.specs.Prelude.{None};

    ghost turn = { None };
}

/// The turn is added, and the desk is given back.
pub(crate) struct Raise<T> {
    turned: PhantomData<T>,
}

impl<D, A, B, T: Turned<A, B>> Play<Option<D>, View<D, A, B>> for Raise<T> {
    ghost use Rattle.turnstile.specs.Order.{raised};

    ghost then = { raised T.turn };
}

/// The seat with all numbers takes the desk for good.
pub(crate) struct Finish;

impl<D: Desk> Play<Option<D>, View<D, D::Ask, D::Answer>> for Finish {
    ghost use Rattle.turnstile.specs.Order.{finished};

    ghost then = { finished D.stands };
}

/// The greatest number goes to a new seat.
pub(crate) struct Cut;

impl<D, A, B> Split<View<D, A, B>> for Cut {
    ghost use Rattle.turnstile.specs.Knowing.{left_of, right_of};
    ghost use Rattle.turnstile.specs.Order.{idle};

    ghost left = { λ v. idle (left_of v.known) };

    ghost right = { λ v. idle (right_of v.known) };
}

/// The numbers of both, and the longer of the two lists seen.
pub(crate) struct Both;

impl<D, A, B> Join<View<D, A, B>> for Both {
    ghost use Rattle.turnstile.specs.Order.{both, spent};

    ghost both = { both };

    ghost spent = { spent };
}

/// What two passes knew before they were joined is compared.
pub(crate) struct Learn;

impl<D, A, B> Play<Option<D>, View<D, A, B>> for Learn {
    ghost use Rattle.turnstile.specs.Order.{learned};

    ghost then = { learned };
}
