//! The steps of a visit, over the table's shared part and a seat.
ghost use Rattle.std.specs.Prelude.{◌≡◌, ◌≢◌, ℕ, ◌+◌, ◌%◌, ◌^◌, ◌<◌, List, [], ◌∷◌, ◌++◌, length, Option, Some, None, IfErr};
ghost use Rattle.atomic_table.specs.Seated.{TableId};
ghost use Rattle.turnstile.specs.declared.view.Known.{Known};
ghost use Rattle.turnstile.specs.declared.view.Stage.TheVariants.{Idle, Waits, Serves};
ghost use Rattle.turnstile.specs.Turns.{StartsWith, In, longer, Numbered, entry_of, of, plain};
ghost use Rattle.turnstile.specs.Knowing.{Stands};
ghost use Rattle.turnstile.specs.Order.{AtTicket, Due, Agree, after, idle};

use crate::desk::Desk;
use crate::order::{Draw, Finish, Learn, Look, Order, Raise, Turned};
use crate::view::View;
use atomic_table::{Seat, Shared};
use std::snapshot::Snapshot;
use std::sync::Wait;
use std::sync::atomic::{AtomicU32, Ordering};
use std::thread;

/// The word that counts the tickets drawn.
pub(crate) const TICKET: usize = 0;

/// The word that counts the turns taken.
pub(crate) const TURN: usize = 1;

/// A seat yields so often before it sleeps.
const YIELDS: u32 = 64;

pub(crate) type Top<D> = Shared<
    Option<D>,
    View<D, <D as Desk>::Ask, <D as Desk>::Answer>,
    Snapshot<D>,
    Order,
>;

pub(crate) type Place<D> = Seat<Option<D>, View<D, <D as Desk>::Ask, <D as Desk>::Answer>>;

pub(crate) fn draw<D: Desk>(top: &Top<D>, seat: &mut Place<D>) -> u64
    requires table { (seat.old.table_id ≡ top.now.table_id) × (top.now.table_id.words ≡ 2) }
    requires idle { (seat.old.me.0.stage ≡ Idle) × (0 < length seat.old.me.0.known.numbers) }
    ensures same { (seat.new.table_id ≡ seat.old.table_id)
        × (seat.new.me.0.known ≡ seat.old.me.0.known) × (seat.new.me.0.told ≡ seat.old.me.0.told)
        × (seat.new.me.1 ≡ seat.old.me.1) }
    ensures drawn { AtTicket seat.new result }
{
    top.fetch_add::<Draw>(seat, TICKET, 1)
}

/// Lets others run until a turn is over, perhaps: yields some times, and then sleeps, as one of so many sleepers.
fn pause<D: Desk, R: Wait>(rt: &R, top: &Top<D>, turn: u64, yields: &mut u32, sleepers: &AtomicU32)
    requires { top.now.table_id.words ≡ 2 }
{
    if *yields < YIELDS {
        *yields += 1;
        thread::yield_now();
    } else {
        sleepers.fetch_add(1, Ordering::SeqCst);
        top.park(rt, TURN, (turn % 0x1_0000_0000) as u32);
        sleepers.fetch_sub(1, Ordering::SeqCst);
    }
}

/// Waits until no ticket seems to be out, so that the one drawn next is due at once. Were tickets drawn by all that wait,
/// each turn would go to another thread, in their order, and none would get on while one of them isn't running.
pub(crate) fn hold_back<D: Desk, R: Wait>(rt: &R, top: &Top<D>, sleepers: &AtomicU32)
    requires { top.now.table_id.words ≡ 2 }
{
    let mut yields = 0u32;
    for _ in rt.forever() {
        let turn = top.peek(TURN);
        if top.peek(TICKET) == turn {
            return;
        }
        pause(rt, top, turn, &mut yields, sleepers);
    }
}

/// Waits until the ticket is due.
pub(crate) fn wait<D: Desk, R: Wait>(
    rt: &R,
    top: &Top<D>,
    seat: &mut Place<D>,
    ticket: u64,
    sleepers: &AtomicU32,
)
    requires table { (seat.old.table_id ≡ top.now.table_id) × (top.now.table_id.words ≡ 2)
        × (top.now.table_id.slots ≡ 1) }
    requires drawn { AtTicket seat.old ticket }
    requires ready { (seat.old.me.0.told ≡ []) × (seat.old.me.1 ≡ [])
        × (0 < length seat.old.me.0.known.numbers) }
    ensures table { seat.new.table_id ≡ seat.old.table_id }
    ensures due { Due D.stands seat.old.me seat.new.me }
{
    let mut yields = 0u32;
    for _ in rt.forever() {
        let turn = top.load::<Look>(seat, TURN);
        if turn == ticket {
            return;
        }
        pause(rt, top, turn, &mut yields, sleepers);
    }
    unreachable!()
}

/// The step itself: the desk is taken out of its slot, steps, and is put back.
pub(crate) fn serve<D: Desk, R: Wait>(
    rt: &R,
    top: &Top<D>,
    seat: &mut Place<D>,
    ask: D::Ask,
) -> Result<D::Answer, D::Refusal>
    requires table { seat.old.table_id ≡ top.now.table_id }
    requires hand { (desk : D) × (seat.old.me.1 ≡ (0, Some desk) ∷ []) }
    ensures table { seat.new.table_id ≡ seat.old.table_id }
    ensures refused { IfErr result (λ e. D.refuses ask e) }
    ensures stepped { (desk : D) → seat.old.me.1 ≡ (0, Some desk) ∷ []
        → (next : D) × (seat.new.me ≡ (seat.old.me.0, (0, Some next) ∷ []))
        × ((base : D.Base) (turns : List (Option (D.Ask × D.Answer))) → D.stands desk base turns
        → D.stands next base (turns ++ entry_of ask result ∷ [])) }
{
    let mut desk = top.exchange(seat, 0, None).unwrap();
    let outcome = desk.step(rt, ask);
    match top.exchange(seat, 0, Some(desk)) {
        None => outcome,
        Some(_) => unreachable!(),
    }
}

/// Adds the turn and gives the desk back.
pub(crate) fn raise<D: Desk, T: Turned<D::Ask, D::Answer>>(
    top: &Top<D>,
    seat: &mut Place<D>,
    ask: &Snapshot<D::Ask>,
    outcome: &Result<D::Answer, D::Refusal>,
)
    requires table { (seat.old.table_id ≡ top.now.table_id) × (top.now.table_id.words ≡ 2) }
    requires turn { T.turn ≡ entry_of ask.now.value outcome.now }
    requires serves { (t : ℕ) × (seat.old.me.0.stage ≡ Serves t) × (seat.old.me.0.told ≡ [])
        × (0 < length seat.old.me.0.known.numbers) }
    requires hand { (desk : D) × (seat.old.me.1 ≡ (0, Some desk) ∷ [])
        × Stands D.stands seat.old.me.0.known desk (after T.turn seat.old.me.0.known).seen }
    ensures { (seat.new.table_id ≡ seat.old.table_id) × (seat.new.me
        ≡ (idle (after (entry_of ask.now.value outcome.now) seat.old.me.0.known), [])) }
{
    let _ = ask;
    let _ = outcome;
    top.fetch_add::<Raise<T>>(seat, TURN, 1);
}

/// Compares what two passes knew before they were joined.
pub(crate) fn learn<D: Desk>(top: &Top<D>, seat: &mut Place<D>)
    requires table { (seat.old.table_id ≡ top.now.table_id) × (top.now.table_id.words ≡ 2) }
    requires idle { (seat.old.me.0.stage ≡ Idle) × (seat.old.me.1 ≡ []) }
    ensures same { (seat.new.table_id ≡ seat.old.table_id)
        × (seat.new.me ≡ (idle seat.old.me.0.known, [])) }
    ensures agree { (v : Known D D.Ask D.Answer) (u : Known D D.Ask D.Answer)
        → seat.old.me.0.told ≡ v ∷ u ∷ [] → 0 < length v.numbers → 0 < length u.numbers
        → seat.old.me.0.known.seen ≡ longer v.seen u.seen → Agree seat.old.me.0.known v u }
{
    top.load::<Learn>(seat, TICKET);
}

/// Takes the desk for good, as the seat with all numbers.
pub(crate) fn finish<D: Desk>(top: &Top<D>, seat: &mut Place<D>) -> D
    requires table { (seat.old.table_id ≡ top.now.table_id) × (top.now.table_id.words ≡ 2)
        × (top.now.table_id.slots ≡ 1) }
    requires waits { (t : ℕ) × (seat.old.me.0.stage ≡ Waits t) }
    requires all { (length seat.old.me.0.known.numbers ≡ 4) × (seat.old.me.1 ≡ []) }
    ensures seen { (seat.new.me.0.known.seen ≡ seat.old.me.0.known.seen)
        × Numbered seat.old.me.0.known.seen }
    ensures stands { Stands D.stands seat.old.me.0.known result seat.old.me.0.known.seen }
{
    top.load::<Finish>(seat, TURN);
    top.exchange(seat, 0, None).unwrap()
}

/// Wakes those that sleep, where one does. Who goes to sleep later than this looks finds the turn raised already.
pub(crate) fn wake<D: Desk>(top: &Top<D>, sleepers: &AtomicU32)
    requires { top.now.table_id.words ≡ 2 }
{
    if sleepers.load(Ordering::SeqCst) != 0 {
        top.wake_all(TURN);
    }
}
