//! The links of a run, one after another, as their writer goes through them.

ghost use Rattle.std.specs.Prelude.{Option, ◌≡◌, ◌+◌, ◌-◌, ◌^◌, ◌<◌, ◌≤◌, ◌++◌, List, ℕ, [], ◌∷◌, length, min, Some, None, MatchOption, vec_len, vec_capacity, IfSome, IfNone};
ghost use Rattle.std.specs.Arc.{arc_value};
ghost use Rattle.wire_core.specs.Counts.{Rose};
ghost use Rattle.wire_devices.specs.Dialling.{Dials};
ghost use Rattle.wire_devices.specs.Links.{IsFreshInlet, IsFreshOutlet};
ghost use Rattle.wire_devices.specs.Telling.{TellsOnly};
ghost use Rattle.turnstile.specs.Knowing.{Joined};
ghost use Rattle.turnstile.specs.Passes.{known, table_of};
ghost use Rattle.turnstile.specs.Turns.{of};
ghost use Rattle.server_workers.specs.Entries.{AsksLeave, RunTurn};
ghost use Rattle.server_workers.specs.Going.{Went};
ghost use Rattle.server_workers.specs.Running.{ComesNext, NoNextLink, IsLinkWorker, Keeps, KeepsAll, KeepsPair, LinkOpened, Over, ReaderNeverRan, ReaderRan, Rests, StartedAs, StopsAs, StopsFor, TakesLeaveAlone, end_after as end_after_test, ports_in, ports_next, ports_of, InOrder, NextInOrder, counted, number_in, numbers_of};

use crate::base::RunBase;
use crate::heard::Heard;
use crate::link_making::{Dialling, dial};
use crate::link_writer::{WriterEnd, write_link};
use crate::links::Pair;
use crate::turns::{enter, is_final, take_leave};
use crate::workers::{Ended, Shared, Worker};
use agent_events::Input;
use std::alloc::Global;
use std::sync::{Arc, Wait};
use turnstile::{Desk, Pass, PassOf};
use wire_core::NoMemory;
use wire_devices::{Crew, Datagrams, Dialer, LinkIn, LinkOut, ThreadHelper};

/// So many links are made at most.
pub const MOST_LINKS: usize = 256;

/// Why no further link is made.
#[derive(Clone, Copy, PartialEq, Eq)]
pub enum RunEnd {
    /// The home server refused the link, or the agent left it.
    Closed,
    /// The run was at its end, and the writer took the agent's leave and drained once more.
    Left,
    /// All links that may be made were closed.
    Worn,
    /// Too many dials in a row failed.
    LinkFault,
    /// The reader of a link couldn't be started.
    NoThread,
    /// Memory was wanting.
    NoMemory,
}

/// The twins of both sockets, by which replies to the home server's answers are sent.
#[derive(Drop)]
pub struct Twins<D> {
    pub auth: D,
    pub acct: D,
}

/// A link whose reader runs.
pub struct Live<T, D, I, O>
where
    T: Desk<Ask = Input, Answer = Heard, Refusal = NoMemory, Base = RunBase>
        + Send
        + Drop
        + 'static,
    D: Datagrams + Send + Drop + 'static,
    I: LinkIn + Send + Drop + 'static,
{
    pub helper: ThreadHelper<Worker<T, D, I>>,
    pub link_out: O,
}

/// The links that are over, and what their readers counted.
#[derive(Drop)]
pub struct Past<I, O> {
    pub pairs: Vec<Pair<I, O>>,
    pub lost: u64,
    pub again: u64,
}

/// What a link's reader gives back.
#[derive(Drop)]
pub struct ReaderBack<T, D, I> {
    pub pass: PassOf<T, Input, Heard>,
    pub link_in: I,
    pub twins: Twins<D>,
    pub lost: u64,
    pub again: u64,
}

/// Waits for the reader of a link.
fn reader_back<T, D, I, W>(
    crew: &mut W,
    helper: ThreadHelper<Worker<T, D, I>>,
) -> ReaderBack<T, D, I>
where
    T: Desk<Ask = Input, Answer = Heard, Refusal = NoMemory, Base = RunBase>
        + Send
        + Drop
        + 'static,
    D: Datagrams + Send + Drop + 'static,
    I: LinkIn + Send + Drop + 'static,
    W: Crew<Worker<T, D, I>>,
    requires { IsLinkWorker helper }
    ensures back { ReaderRan D.told I.told helper result }
    ensures faults { W.faults crew.new ≡ W.faults crew.old }
    ensures started { W.started crew.new ≡ W.started crew.old }
{
    match crew.finish(helper) {
        Ended::Link {
            link,
            auth_twin,
            acct_twin,
            pass,
            lost,
            again,
            fault: _,
        } => ReaderBack {
            pass,
            link_in: link,
            twins: Twins {
                auth: auth_twin,
                acct: acct_twin,
            },
            lost,
            again,
        },
        Ended::Reader { .. } => unreachable!(),
    }
}

/// Takes back the reader of a link that couldn't be started.
pub fn reader_unstarted<T, D, I>(worker: Worker<T, D, I>) -> ReaderBack<T, D, I>
where
    T: Desk<Ask = Input, Answer = Heard, Refusal = NoMemory, Base = RunBase> + Drop,
    D: Drop,
    I: Drop,
    requires { IsLinkWorker worker }
    ensures { ReaderNeverRan worker result }
{
    match worker {
        Worker::Link {
            alloc: _,
            turnstile: _,
            pass,
            link,
            auth_twin,
            acct_twin,
        } => ReaderBack {
            pass,
            link_in: link,
            twins: Twins {
                auth: auth_twin,
                acct: acct_twin,
            },
            lost: 0,
            again: 0,
        },
        Worker::Reader { .. } => unreachable!(),
    }
}

/// Lets a link go that was closed. One that the agent left is the home server's to close.
fn let_go<O: LinkOut>(end: WriterEnd, link_out: &mut O)
    ensures { O.told link_out.new ≡ O.told link_out.old }
{
    if let WriterEnd::Closed { .. } = end {
        link_out.close();
    }
}

/// Goes through a link until it is closed or left, and then waits for its reader.
fn serve_link<R, T, D, I, O, W>(
    rt: &R,
    alloc: Global,
    turnstile: &Shared<T>,
    pass: &mut Pass<T>,
    crew: &mut W,
    live: Live<T, D, I, O>,
    past: &mut Past<I, O>,
) -> (WriterEnd, Twins<D>)
where
    R: Wait,
    T: Desk<Ask = Input, Answer = Heard, Refusal = NoMemory, Base = RunBase>
        + Send
        + Drop
        + 'static,
    D: Datagrams + Send + Drop + 'static,
    I: LinkIn + Send + Drop + 'static,
    O: LinkOut,
    W: Crew<Worker<T, D, I>>,
    requires table { table_of pass.old ≡ arc_value turnstile.now }
    requires started { StartedAs I.told O.told D.told (arc_value turnstile.now) (known pass.old)
        live.helper live.link_out past.old }
    ensures table { table_of pass.new ≡ table_of pass.old }
    ensures over { Over I.told O.told D.told result.0 (known pass.old) (known pass.new) result.1
        past.new }
    ensures kept { length past.new.pairs.items ≡ length past.old.pairs.items + 1 }
    ensures ports { ports_of D.told result.1 ≡ ports_in D.told live.helper }
    ensures numbers { numbers_of I.told past.new.pairs.items
        ≡ numbers_of I.told past.old.pairs.items ++ number_in I.told live.helper ∷ [] }
    ensures faults { W.faults crew.new ≡ W.faults crew.old }
    ensures started { W.started crew.new ≡ W.started crew.old }
{
    let Live {
        helper,
        mut link_out,
    } = live;
    let end = write_link(rt, alloc, turnstile, pass, &mut link_out);
    let_go(end, &mut link_out);
    let back = reader_back(crew, helper);
    let twins = put_past(turnstile, pass, back, link_out, past);
    (end, twins)
}

/// Joins the pass of a link's reader, and puts the link behind those that are over.
fn put_past<T, D, I, O>(
    turnstile: &Shared<T>,
    pass: &mut Pass<T>,
    back: ReaderBack<T, D, I>,
    link_out: O,
    past: &mut Past<I, O>,
) -> Twins<D>
where
    T: Desk<Ask = Input, Answer = Heard, Refusal = NoMemory, Base = RunBase>,
    requires table { table_of pass.old ≡ arc_value turnstile.now }
    requires theirs { table_of back.pass ≡ arc_value turnstile.now }
    requires room { vec_len past.old.pairs < vec_capacity past.old.pairs }
    ensures table { table_of pass.new ≡ table_of pass.old }
    ensures joined { Joined (known pass.old) (known back.pass) (known pass.new) }
    ensures twins { result ≡ back.twins }
    ensures pairs { past.new.pairs.items
        ≡ past.old.pairs.items ++ record { link_in = back.link_in; link_out = link_out } ∷ [] }
    ensures room { vec_capacity past.new.pairs ≡ vec_capacity past.old.pairs }
    ensures lost { past.new.lost ≡ min (past.old.lost + back.lost) (2 ^ 64 - 1) }
    ensures again { past.new.again ≡ min (past.old.again + back.again) (2 ^ 64 - 1) }
{
    let ReaderBack {
        pass: theirs,
        link_in,
        twins,
        lost,
        again,
    } = back;
    turnstile.join(pass, theirs);
    past.pairs.push_reserved(Pair { link_in, link_out });
    past.lost = past.lost.saturating_add(lost);
    past.again = past.again.saturating_add(again);
    twins
}

/// Takes the agent's leave where no link is open.
fn leave<R: Wait, T: Desk<Ask = Input, Answer = Heard, Refusal = NoMemory, Base = RunBase>>(
    rt: &R,
    turnstile: &Shared<T>,
    pass: &mut Pass<T>,
) -> RunEnd
    requires { table_of pass.old ≡ arc_value turnstile.now }
    ensures table { table_of pass.new ≡ table_of pass.old }
    ensures left { TakesLeaveAlone result (known pass.old) (known pass.new) }
{
    let Some(_) = enter(rt, turnstile, pass, Input::Leave) else {
        return RunEnd::NoMemory;
    };
    let Some(_) = enter(rt, turnstile, pass, Input::Drain) else {
        return RunEnd::NoMemory;
    };
    RunEnd::Left
}

/// What comes after a link.
enum Next<T, D, I, O>
where
    T: Desk<Ask = Input, Answer = Heard, Refusal = NoMemory, Base = RunBase>
        + Send
        + Drop
        + 'static,
    D: Datagrams + Send + Drop + 'static,
    I: LinkIn + Send + Drop + 'static,
{
    Go(Live<T, D, I, O>),
    Stop { end: RunEnd, twins: Twins<D> },
}

/// Takes the agent's leave, and ends the run so.
fn give_up<R, T, D, I, O>(
    rt: &R,
    turnstile: &Shared<T>,
    pass: &mut Pass<T>,
    end: RunEnd,
    twins: Twins<D>,
) -> Next<T, D, I, O>
where
    R: Wait,
    T: Desk<Ask = Input, Answer = Heard, Refusal = NoMemory, Base = RunBase>
        + Send
        + Drop
        + 'static,
    D: Datagrams + Send + Drop + 'static,
    I: LinkIn + Send + Drop + 'static,
    requires { table_of pass.old ≡ arc_value turnstile.now }
    ensures table { table_of pass.new ≡ table_of pass.old }
    ensures next { result ≡ Next.Stop end twins }
    ensures went { (tries : List RunTurn)
        × ((left : Heard) × Went tries (known pass.old) (known pass.new) × AsksLeave left tries) }
{
    let _ = take_leave(rt, turnstile, pass);
    Next::Stop { end, twins }
}

/// Starts the reader of a link that was opened. Where it can't be started the link is over at once.
fn start_reader<R, T, D, I, O, W>(
    rt: &R,
    alloc: Global,
    turnstile: &Shared<T>,
    pass: &mut Pass<T>,
    crew: &mut W,
    pair: Pair<I, O>,
    twins: Twins<D>,
    past: &mut Past<I, O>,
) -> Next<T, D, I, O>
where
    R: Wait,
    T: Desk<Ask = Input, Answer = Heard, Refusal = NoMemory, Base = RunBase>
        + Send
        + Drop
        + 'static,
    D: Datagrams + Send + Drop + 'static,
    I: LinkIn + Send + Drop + 'static,
    O: LinkOut,
    W: Crew<Worker<T, D, I>>,
    requires table { table_of pass.old ≡ arc_value turnstile.now }
    requires fresh { IsFreshInlet (I.told pair.link_in) × IsFreshOutlet (O.told pair.link_out) }
    requires opened { LinkOpened I.told O.told D.told (known pass.old) twins past.old }
    ensures table { table_of pass.new ≡ table_of pass.old }
    ensures next { (dials : Dials) → dials.row ≡ 0
        → ComesNext I.told O.told D.told result (arc_value turnstile.now) dials dials
        (W.faults crew.old) (W.faults crew.new) (known pass.old) (known pass.new) past.new }
    ensures stops { StopsAs result 0 (W.faults crew.old) (W.faults crew.new) }
    ensures kept { KeepsPair result (length past.old.pairs.items) (length past.new.pairs.items) }
    ensures ports { ports_next D.told result ≡ ports_of D.told twins }
    ensures order { (made : ℕ) → TellsOnly (I.told pair.link_in).number made
        → NextInOrder I.told result made (numbers_of I.told past.old.pairs.items)
        (numbers_of I.told past.new.pairs.items) }
    ensures started { W.started crew.old ≤ W.started crew.new }
{
    let Ok(share) = Arc::try_clone(turnstile) else {
        past.pairs.push_reserved(pair);
        return give_up(rt, turnstile, pass, RunEnd::NoMemory, twins);
    };
    let Pair { link_in, link_out } = pair;
    let Twins { auth, acct } = twins;
    let started = crew.start(Worker::Link {
        alloc,
        turnstile: share,
        pass: turnstile.split(pass),
        link: link_in,
        auth_twin: auth,
        acct_twin: acct,
    });
    match started {
        Ok(helper) => Next::Go(Live { helper, link_out }),
        Err(worker) => {
            let back = reader_unstarted(worker);
            let twins = put_past(turnstile, pass, back, link_out, past);
            give_up(rt, turnstile, pass, RunEnd::NoThread, twins)
        }
    }
}

/// Opens a link that was made, and starts its reader.
fn open_link<R, T, D, I, O, W>(
    rt: &R,
    alloc: Global,
    turnstile: &Shared<T>,
    pass: &mut Pass<T>,
    crew: &mut W,
    pair: Pair<I, O>,
    twins: Twins<D>,
    past: &mut Past<I, O>,
) -> Next<T, D, I, O>
where
    R: Wait,
    T: Desk<Ask = Input, Answer = Heard, Refusal = NoMemory, Base = RunBase>
        + Send
        + Drop
        + 'static,
    D: Datagrams + Send + Drop + 'static,
    I: LinkIn + Send + Drop + 'static,
    O: LinkOut,
    W: Crew<Worker<T, D, I>>,
    requires table { table_of pass.old ≡ arc_value turnstile.now }
    requires fresh { IsFreshInlet (I.told pair.link_in) × IsFreshOutlet (O.told pair.link_out) }
    requires few { length past.old.pairs.items < 256 }
    requires rests { Rests I.told O.told D.told (known pass.old) twins past.old }
    ensures table { table_of pass.new ≡ table_of pass.old }
    ensures next { (dials : Dials) → dials.row ≡ 0
        → ComesNext I.told O.told D.told result (arc_value turnstile.now) dials dials
        (W.faults crew.old) (W.faults crew.new) (known pass.old) (known pass.new) past.new }
    ensures stops { StopsAs result 0 (W.faults crew.old) (W.faults crew.new) }
    ensures kept { KeepsPair result (length past.old.pairs.items) (length past.new.pairs.items) }
    ensures ports { ports_next D.told result ≡ ports_of D.told twins }
    ensures order { (made : ℕ) → TellsOnly (I.told pair.link_in).number made
        → NextInOrder I.told result made (numbers_of I.told past.old.pairs.items)
        (numbers_of I.told past.new.pairs.items) }
    ensures started { W.started crew.old ≤ W.started crew.new }
{
    let Some(_) = enter(rt, turnstile, pass, Input::Up) else {
        past.pairs.push_reserved(pair);
        return give_up(rt, turnstile, pass, RunEnd::NoMemory, twins);
    };
    start_reader(rt, alloc, turnstile, pass, crew, pair, twins, past)
}

/// Makes the next link, where there is to be one.
fn next_link<R, T, D, L, W>(
    rt: &R,
    alloc: Global,
    turnstile: &Shared<T>,
    pass: &mut Pass<T>,
    dialer: &mut L,
    crew: &mut W,
    twins: Twins<D>,
    past: &mut Past<L::In, L::Out>,
) -> Next<T, D, L::In, L::Out>
where
    R: Wait,
    T: Desk<Ask = Input, Answer = Heard, Refusal = NoMemory, Base = RunBase>
        + Send
        + Drop
        + 'static,
    D: Datagrams + Send + Drop + 'static,
    L: Dialer,
    L::In: Send + Drop + 'static,
    W: Crew<Worker<T, D, L::In>>,
    requires table { table_of pass.old ≡ arc_value turnstile.now }
    requires row { (L.told dialer.old).row ≡ 0 }
    requires rests { Rests L.In.told L.Out.told D.told (known pass.old) twins past.old }
    ensures table { table_of pass.new ≡ table_of pass.old }
    ensures next { ComesNext L.In.told L.Out.told D.told result (arc_value turnstile.now)
        (L.told dialer.old) (L.told dialer.new) (W.faults crew.old) (W.faults crew.new)
        (known pass.old) (known pass.new) past.new }
    ensures stops { StopsAs result (L.told dialer.new).row (W.faults crew.old) (W.faults crew.new) }
    ensures kept { KeepsAll result (length past.old.pairs.items) (length past.new.pairs.items)
        (L.made dialer.old) (L.made dialer.new) }
    ensures ports { ports_next D.told result ≡ ports_of D.told twins }
    ensures order { NextInOrder L.In.told result (L.made dialer.old)
        (numbers_of L.In.told past.old.pairs.items) (numbers_of L.In.told past.new.pairs.items) }
    ensures started { W.started crew.old ≤ W.started crew.new }
{
    if past.pairs.len() >= MOST_LINKS {
        return give_up(rt, turnstile, pass, RunEnd::Worn, twins);
    }
    match dial(rt, turnstile, pass, dialer) {
        Dialling::Made { link_in, link_out } => {
            let pair = Pair { link_in, link_out };
            open_link(rt, alloc, turnstile, pass, crew, pair, twins, past)
        }
        Dialling::Finished => Next::Stop {
            end: leave(rt, turnstile, pass),
            twins,
        },
        Dialling::Failed => give_up(rt, turnstile, pass, RunEnd::LinkFault, twins),
    }
}

/// Why no link is made after one from which the writer went so. None where one is to be made.
fn end_after(end: WriterEnd) -> Option<RunEnd>
    ensures { result ≡ end_after_test end }
{
    match end {
        WriterEnd::Closed { cause } => is_final(cause).then_some(RunEnd::Closed),
        WriterEnd::Done => Some(RunEnd::Left),
        WriterEnd::NoMemory => Some(RunEnd::NoMemory),
    }
}

/// Goes through one link, and makes the next, where there is to be one.
fn serve_one<R, T, D, L, W>(
    rt: &R,
    alloc: Global,
    turnstile: &Shared<T>,
    pass: &mut Pass<T>,
    dialer: &mut L,
    crew: &mut W,
    live: Live<T, D, L::In, L::Out>,
    past: &mut Past<L::In, L::Out>,
) -> Next<T, D, L::In, L::Out>
where
    R: Wait,
    T: Desk<Ask = Input, Answer = Heard, Refusal = NoMemory, Base = RunBase>
        + Send
        + Drop
        + 'static,
    D: Datagrams + Send + Drop + 'static,
    L: Dialer,
    L::In: Send + Drop + 'static,
    W: Crew<Worker<T, D, L::In>>,
    requires table { table_of pass.old ≡ arc_value turnstile.now }
    requires row { (L.told dialer.old).row ≡ 0 }
    requires started { StartedAs L.In.told L.Out.told D.told (arc_value turnstile.now)
        (known pass.old) live.helper live.link_out past.old }
    ensures table { table_of pass.new ≡ table_of pass.old }
    ensures next { ComesNext L.In.told L.Out.told D.told result (arc_value turnstile.now)
        (L.told dialer.old) (L.told dialer.new) (W.faults crew.old) (W.faults crew.new)
        (known pass.old) (known pass.new) past.new }
    ensures stops { StopsAs result (L.told dialer.new).row (W.faults crew.old) (W.faults crew.new) }
    ensures kept { KeepsAll result (length past.old.pairs.items + 1) (length past.new.pairs.items)
        (L.made dialer.old) (L.made dialer.new) }
    ensures ports { ports_next D.told result ≡ ports_in D.told live.helper }
    ensures order { NextInOrder L.In.told result (L.made dialer.old)
        (numbers_of L.In.told past.old.pairs.items ++ number_in L.In.told live.helper ∷ [])
        (numbers_of L.In.told past.new.pairs.items) }
    ensures started { W.started crew.old ≤ W.started crew.new }
{
    let (end, twins) = serve_link(rt, alloc, turnstile, pass, crew, live, past);
    match end_after(end) {
        Some(end) => Next::Stop { end, twins },
        None => next_link(rt, alloc, turnstile, pass, dialer, crew, twins, past),
    }
}

/// Goes through link after link, until no further one is made.
pub fn serve_links<R, T, D, L, W>(
    rt: &R,
    alloc: Global,
    turnstile: &Shared<T>,
    pass: &mut Pass<T>,
    dialer: &mut L,
    crew: &mut W,
    first: Live<T, D, L::In, L::Out>,
    past: &mut Past<L::In, L::Out>,
) -> (RunEnd, Twins<D>)
where
    R: Wait,
    T: Desk<Ask = Input, Answer = Heard, Refusal = NoMemory, Base = RunBase>
        + Send
        + Drop
        + 'static,
    D: Datagrams + Send + Drop + 'static,
    L: Dialer,
    L::In: Send + Drop + 'static,
    W: Crew<Worker<T, D, L::In>>,
    requires table { table_of pass.old ≡ arc_value turnstile.now }
    requires row { (L.told dialer.old).row ≡ 0 }
    requires started { StartedAs L.In.told L.Out.told D.told (arc_value turnstile.now)
        (known pass.old) first.helper first.link_out past.old }
    ensures table { table_of pass.new ≡ table_of pass.old }
    ensures ends { NoNextLink L.In.told L.Out.told D.told result.0 (L.told dialer.old)
        (L.told dialer.new) (Rose (W.faults crew.old) (W.faults crew.new)) (known pass.old)
        (known pass.new) result.1 past.new }
    ensures stops { StopsFor result.0 (L.told dialer.new).row (W.faults crew.old)
        (W.faults crew.new) }
    ensures kept { Keeps (length past.old.pairs.items + 1) (length past.new.pairs.items)
        (L.made dialer.old) (L.made dialer.new) }
    ensures ports { ports_of D.told result.1 ≡ ports_in D.told first.helper }
    ensures order { (made : ℕ) → InOrder made
        (numbers_of L.In.told past.old.pairs.items ++ number_in L.In.told first.helper ∷ [])
        → L.made dialer.old ≡ counted made (length past.old.pairs.items + 1)
        → InOrder made (numbers_of L.In.told past.new.pairs.items) }
    ensures started { W.started crew.old ≤ W.started crew.new }
{
    let mut live = first;
    for _ in rt.forever() {
        match serve_one(rt, alloc, turnstile, pass, dialer, crew, live, past) {
            Next::Go(next) => live = next,
            Next::Stop { end, twins } => return (end, twins),
        }
    }
    unreachable!()
}
