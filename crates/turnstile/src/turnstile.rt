//! The calls of the turnstile.
ghost use Rattle.std.specs.Prelude.{◌≡◌, ℕ, ◌<◌, [], ◌∷◌, length, IfOk, IfErr, IsSome, Some};
ghost use Rattle.turnstile.specs.Turns.{Numbered, entry_of, of, plain};
ghost use Rattle.turnstile.specs.Knowing.{Carries, Visited, Joined, Stands, fresh, left_of, right_of};
ghost use Rattle.turnstile.specs.Passes.{known, table_of};

use crate::desk::Desk;
use crate::order::{Both, Cut, Order};
use crate::pass::{Pass, PassOf, Turns, TurnsOf, Unstarted};
use crate::steps::{draw, finish, hold_back, learn, raise, serve, wait, wake};
use crate::view::View;
use atomic_table::Table;
use std::alloc::Global;
use std::marker::{Brand, Model};
use std::snapshot::Snapshot;
use std::sync::Wait;
use std::sync::atomic::AtomicU32;
use wire_core::NoMemory;

/// One state, at which the threads that have passes take turns. Contracts see it as the name of its table, which
/// `table_of` gives of its passes.
#[derive(Drop)]
pub struct Turnstile<D: Desk> {
    table: Table<Option<D>, View<D, D::Ask, D::Answer>, Snapshot<D>, Order, Global>,
    /// How many visits sleep.
    sleepers: AtomicU32,
}

impl<D: Desk> Model for Turnstile<D> {
    ghost use Rattle.std.specs.Prelude.{◌≡◌};
    ghost use Rattle.atomic_table.specs.Seated.{TableId, table_id_coded};

    ghost Value = { TableId };

    ghost coded = { table_id_coded };

    ghost view = { λ t. t.table.shared.table_id };

    ghost invariant = { λ t. (t.table.shared.table_id.words ≡ 2) × (t.table.shared.table_id.slots ≡ 1) };
}

impl<D: Desk> Turnstile<D> {
    /// Starts a turnstile with this desk, and gives its one pass, with all four numbers. Without memory the desk comes
    /// back.
    pub fn start(alloc: Global, desk: D) -> Result<(Turnstile<D>, Pass<D>), Unstarted<D>>
        ensures table { IfOk result (λ r. table_of r.1 ≡ r.0) }
        ensures fresh { IfOk result (λ r. known r.1 ≡ fresh desk) }
        ensures carries { (base : D.Base) → D.stands desk base []
            → IfOk result (λ r. Carries D.stands (known r.1) base) }
        ensures same { IfErr result (λ u. u.desk ≡ desk) }
    {
        let about = Snapshot::of(&desk);
        let slots = slot_for(alloc, desk)?;
        match Table::new(alloc, &[0, 0], slots, &about) {
            Ok((table, seat)) => {
                let sleepers = AtomicU32::new(0);
                Ok((Turnstile { table, sleepers }, PassOf { seat }))
            }
            Err(refused) => Err(desk_of(refused.slots)),
        }
    }

    /// Waits for its turn, and makes one step of the desk with this ask. The turn is taken under the pass's least
    /// number; where the desk refuses, so does the visit, and its turn is blank.
    pub fn visit<R: Wait>(
        &self,
        rt: &R,
        pass: &mut Pass<D>,
        ask: D::Ask,
    ) -> Result<D::Answer, D::Refusal>
        requires { table_of pass.old ≡ self.now }
        ensures table { table_of pass.new ≡ table_of pass.old }
        ensures refused { IfErr result (λ e. D.refuses ask e) }
        ensures turn { Visited (entry_of ask result) (known pass.old) (known pass.new) }
        ensures stood { (base : D.Base) → Carries D.stands (known pass.old) base
            → (desk : D) × D.stands desk base (plain (known pass.new).seen) }
    {
        let top = &self.table.shared;
        hold_back(rt, top, &self.sleepers);
        let ticket = draw(top, &mut pass.seat);
        wait(rt, top, &mut pass.seat, ticket, &self.sleepers);
        let asked = Snapshot::of(&ask);
        let outcome = serve(rt, top, &mut pass.seat, ask);
        raise::<D, Brand>(top, &mut pass.seat, &asked, &outcome);
        wake(top, &self.sleepers);
        outcome
    }

    /// Gives the greatest number of the pass to a new one, which has seen as much.
    pub fn split(&self, pass: &mut Pass<D>) -> Pass<D>
        requires table { table_of pass.old ≡ self.now }
        requires two { 1 < length (known pass.old).numbers }
        ensures tables { (table_of pass.new ≡ table_of pass.old)
            × (table_of result ≡ table_of pass.old) }
        ensures left { known pass.new ≡ left_of (known pass.old) }
        ensures right { known result ≡ right_of (known pass.old) }
    {
        let seat = self.table.shared.split_seat::<Cut>(&mut pass.seat);
        PassOf { seat }
    }

    /// Puts the numbers of both passes together. The longer list of turns seen begins with the shorter.
    pub fn join(&self, pass: &mut Pass<D>, other: Pass<D>)
        requires tables { (table_of pass.old ≡ self.now) × (table_of other ≡ self.now) }
        ensures table { table_of pass.new ≡ table_of pass.old }
        ensures joined { Joined (known pass.old) (known other) (known pass.new) }
    {
        let top = &self.table.shared;
        top.join_seat::<Both>(&mut pass.seat, other.into_seat());
        learn(top, &mut pass.seat);
    }

    /// Gives the desk and all turns, to the pass with all four numbers. It waits for nobody: there is no other pass.
    pub fn close(&self, pass: Pass<D>) -> (D, Turns<D>)
        requires table { table_of pass ≡ self.now }
        requires all { length (known pass).numbers ≡ 4 }
        ensures turns { (result.1 ≡ (known pass).seen) × Numbered result.1 }
        ensures own { (n : ℕ) → of n result.1 ≡ of n (known pass).seen }
        ensures stands { (base : D.Base) → Carries D.stands (known pass) base
            → D.stands result.0 base (plain result.1) }
    {
        let top = &self.table.shared;
        let mut seat = pass.into_seat();
        draw(top, &mut seat);
        let desk = finish(top, &mut seat);
        (desk, TurnsOf { seat })
    }
}

/// The slots of the table: one, with the desk.
fn slot_for<D>(alloc: Global, desk: D) -> Result<Vec<Option<D>>, Unstarted<D>>
    ensures ok { IfOk result (λ v. v.items ≡ Some desk ∷ []) }
    ensures err { IfErr result (λ u. u.desk ≡ desk) }
{
    let mut slots = Vec::new(alloc);
    match slots.push(Some(desk)) {
        Ok(()) => Ok(slots),
        Err(failed) => {
            slots.destroy_empty();
            Err(unstarted(failed.value))
        }
    }
}

/// The desk comes back out of slots that no table took.
fn desk_of<D>(mut slots: Vec<Option<D>>) -> Unstarted<D>
    requires { (desk : D) × (slots.items ≡ Some desk ∷ []) }
    ensures { slots.items ≡ Some result.desk ∷ [] }
{
    let desk = slots.pop().unwrap();
    slots.destroy_empty();
    unstarted(desk)
}

fn unstarted<D>(desk: Option<D>) -> Unstarted<D>
    requires { IsSome desk }
    ensures { desk ≡ Some result.desk }
{
    Unstarted {
        desk: desk.unwrap(),
        cause: NoMemory,
    }
}
