//! The workers of a run: how they are started, and how they are taken back.

ghost use Rattle.std.specs.Prelude.{◌≡◌, ◌+◌, ◌<◌, ℕ, [], ◌∷◌, length, IfOk, IfErr, MatchResult, Ok, Err, None};
ghost use Rattle.std.specs.Arc.{arc_value};
ghost use Rattle.wire_core.specs.Counts.{Rose};
ghost use Rattle.radius_packet.specs.declared.reasons.Via.TheVariants.{Auth, Acct};
ghost use Rattle.agent_status.specs.declared.status.Status.TheVariants.{NoThread};
ghost use Rattle.wire_devices.specs.Links.{IsFreshInlet};
ghost use Rattle.turnstile.specs.Knowing.{Carries};
ghost use Rattle.turnstile.specs.Passes.{known, table_of};
ghost use Rattle.turnstile.specs.Turns.{of};
ghost use Rattle.agent_server.specs.Desks.{StandsBy};
ghost use Rattle.server_workers.specs.Running.{RoseBy};
ghost use Rattle.agent_server.specs.Starting.{AreShares, BeganFrom, IsPassOf, IsLinkReader, IsLinkReaderOf, IsReader, IsReaderOf, IsSocketBack, IsSocketWorker, IsStart};
ghost use Rattle.server_workers.specs.Workers.{CanRun};

use crate::Worker;
use crate::desk::AgentDesk;
use crate::server::Outcome;
use crate::stand::{Shares, tools_of};
use agent_events::Input;
use agent_status::Status;
use radius_packet::Via;
use server_workers::{Ended, Heard, RunBase, Shared, Twins, reader_unstarted, take_leave};
use std::alloc::Global;
use std::sync::Wait;
use turnstile::{Pass, PassOf};
use wire_devices::{Clock, Crew, Datagrams, LinkIn, ThreadHelper};

/// The three workers of a run.
struct Workers<C: Clock, D, I> {
    pub auth: Worker<C, D, I>,
    pub acct: Worker<C, D, I>,
    pub link: Worker<C, D, I>,
}

/// Makes the three workers. Each has a share of the turnstile and a number of the writer's pass.
fn make_workers<C: Clock + Drop, D, I>(
    alloc: Global,
    turnstile: &Shared<AgentDesk<C>>,
    pass: &mut Pass<AgentDesk<C>>,
    shares: Shares<C>,
    auth: D,
    acct: D,
    link: I,
    twins: Twins<D>,
) -> Workers<C, D, I>
    requires table { table_of pass.old ≡ arc_value turnstile.now }
    requires numbers { (known pass.old).numbers ≡ 0 ∷ 1 ∷ 2 ∷ 3 ∷ [] }
    requires shares { AreShares (arc_value turnstile.now) shares }
    ensures own { IsPassOf (arc_value turnstile.now) 0 (table_of pass.new) (known pass.new) }
    ensures same { ((known pass.new).seen ≡ (known pass.old).seen)
        × ((known pass.new).first ≡ (known pass.old).first) }
    ensures auth { IsReaderOf (arc_value turnstile.now) 1 Auth (known pass.new) auth result.auth }
    ensures acct { IsReaderOf (arc_value turnstile.now) 2 Acct (known pass.new) acct result.acct }
    ensures link { IsLinkReaderOf (arc_value turnstile.now) 3 (known pass.new) link twins
        result.link }
{
    let link = Worker::Link {
        alloc,
        turnstile: shares.link,
        pass: turnstile.split(pass),
        link,
        auth_twin: twins.auth,
        acct_twin: twins.acct,
    };
    let acct = Worker::Reader {
        alloc,
        turnstile: shares.acct,
        pass: turnstile.split(pass),
        via: Via::Acct,
        socket: acct,
    };
    let auth = Worker::Reader {
        alloc,
        turnstile: shares.auth,
        pass: turnstile.split(pass),
        via: Via::Auth,
        socket: auth,
    };
    Workers { auth, acct, link }
}

/// A worker that was started, or wasn't.
pub(crate) type Start<C, D, I> = Result<ThreadHelper<Worker<C, D, I>>, Worker<C, D, I>>;

/// The three workers of a run, started.
pub(crate) struct Team<C, D, I>
where
    C: Clock + Send + Drop + 'static,
    D: Datagrams + Send + Drop + 'static,
    I: LinkIn + Send + Drop + 'static,
{
    pub auth: ThreadHelper<Worker<C, D, I>>,
    pub acct: ThreadHelper<Worker<C, D, I>>,
    pub link: ThreadHelper<Worker<C, D, I>>,
}

/// The workers of a run of which one couldn't be started.
pub(crate) struct Unteamed<C, D, I>
where
    C: Clock + Send + Drop + 'static,
    D: Datagrams + Send + Drop + 'static,
    I: LinkIn + Send + Drop + 'static,
{
    pub auth: Start<C, D, I>,
    pub acct: Start<C, D, I>,
    pub link: Worker<C, D, I>,
}

/// Starts the three workers. After one that can't be started no other is.
fn start_team<C, D, I, W>(
    crew: &mut W,
    workers: Workers<C, D, I>,
) -> Result<Team<C, D, I>, Unteamed<C, D, I>>
where
    C: Clock + Send + Drop + 'static,
    D: Datagrams + Send + Drop + 'static,
    I: LinkIn + Send + Drop + 'static,
    W: Crew<Worker<C, D, I>>,
    requires can { CanRun D.told I.told workers.auth × CanRun D.told I.told workers.acct
        × CanRun D.told I.told workers.link }
    ensures ok { IfOk result (λ team. (team.auth ≡ workers.auth) × (team.acct ≡ workers.acct)
        × (team.link ≡ workers.link)) }
    ensures unrefused { IfOk result (λ team. W.faults crew.new ≡ W.faults crew.old) }
    ensures all_started { IfOk result (λ team. RoseBy 3 (W.started crew.old) (W.started crew.new)) }
    ensures err { IfErr result (λ team. IsStart workers.auth team.auth
        × IsStart workers.acct team.acct × (team.link ≡ workers.link)) }
    ensures refused { IfErr result (λ team. Rose (W.faults crew.old) (W.faults crew.new)) }
    ensures few_started { IfErr result (λ team. W.started crew.new < W.started crew.old + 3) }
{
    let Workers { auth, acct, link } = workers;
    let auth = match crew.start(auth) {
        Ok(helper) => helper,
        Err(auth) => {
            return Err(Unteamed {
                auth: Err(auth),
                acct: Err(acct),
                link,
            });
        }
    };
    let acct = match crew.start(acct) {
        Ok(helper) => helper,
        Err(acct) => {
            return Err(Unteamed {
                auth: Ok(auth),
                acct: Err(acct),
                link,
            });
        }
    };
    match crew.start(link) {
        Ok(link) => Ok(Team { auth, acct, link }),
        Err(link) => Err(Unteamed {
            auth: Ok(auth),
            acct: Ok(acct),
            link,
        }),
    }
}

/// Makes the three workers and starts them.
pub(crate) fn start_workers<C, D, I, W>(
    alloc: Global,
    turnstile: &Shared<AgentDesk<C>>,
    pass: &mut Pass<AgentDesk<C>>,
    shares: Shares<C>,
    crew: &mut W,
    auth: D,
    acct: D,
    link: I,
    twins: Twins<D>,
) -> Result<Team<C, D, I>, Unteamed<C, D, I>>
where
    C: Clock + Send + Drop + 'static,
    D: Datagrams + Send + Drop + 'static,
    I: LinkIn + Send + Drop + 'static,
    W: Crew<Worker<C, D, I>>,
    requires table { table_of pass.old ≡ arc_value turnstile.now }
    requires numbers { (known pass.old).numbers ≡ 0 ∷ 1 ∷ 2 ∷ 3 ∷ [] }
    requires shares { AreShares (arc_value turnstile.now) shares }
    requires rows { ((D.told auth).row ≡ 0) × ((D.told acct).row ≡ 0) }
    requires fresh { IsFreshInlet (I.told link) }
    ensures own { IsPassOf (arc_value turnstile.now) 0 (table_of pass.new) (known pass.new) }
    ensures same { ((known pass.new).seen ≡ (known pass.old).seen)
        × ((known pass.new).first ≡ (known pass.old).first) }
    ensures ok { IfOk result
        (λ team. IsReaderOf (arc_value turnstile.now) 1 Auth (known pass.new) auth team.auth
        × IsReaderOf (arc_value turnstile.now) 2 Acct (known pass.new) acct team.acct
        × IsLinkReaderOf (arc_value turnstile.now) 3 (known pass.new) link twins team.link) }
    ensures unrefused { IfOk result (λ team. W.faults crew.new ≡ W.faults crew.old) }
    ensures all_started { IfOk result (λ team. RoseBy 3 (W.started crew.old) (W.started crew.new)) }
    ensures err { IfErr result (λ team. MatchResult team.auth (IsReader (arc_value turnstile.now) 1)
        (IsReader (arc_value turnstile.now) 1)
        × MatchResult team.acct (IsReader (arc_value turnstile.now) 2)
        (IsReader (arc_value turnstile.now) 2)
        × IsLinkReader (arc_value turnstile.now) 3 team.link) }
    ensures refused { IfErr result (λ team. Rose (W.faults crew.old) (W.faults crew.new)) }
    ensures few_started { IfErr result (λ team. W.started crew.new < W.started crew.old + 3) }
{
    let workers = make_workers(alloc, turnstile, pass, shares, auth, acct, link, twins);
    start_team(crew, workers)
}

/// What the reader of a socket gives back.
#[derive(Drop)]
pub(crate) struct SocketBack<C, D> {
    pub pass: PassOf<AgentDesk<C>, Input, Heard>,
    pub socket: D,
    pub lost: u64,
    pub failed: bool,
}

/// Waits for the reader of a socket.
pub(crate) fn socket_ran<C, D, I, W>(
    crew: &mut W,
    reader: ThreadHelper<Worker<C, D, I>>,
) -> SocketBack<C, D>
where
    C: Clock + Send + Drop + 'static,
    D: Datagrams + Send + Drop + 'static,
    I: LinkIn + Send + Drop + 'static,
    W: Crew<Worker<C, D, I>>,
    requires worker { IsSocketWorker reader }
    ensures back { IsSocketBack D.told (Ok reader) result }
    ensures faults { W.faults crew.new ≡ W.faults crew.old }
    ensures started { W.started crew.new ≡ W.started crew.old }
{
    match crew.finish(reader) {
        Ended::Reader {
            socket,
            pass,
            lost,
            fault,
        } => SocketBack {
            pass,
            socket,
            lost,
            failed: fault.is_some(),
        },
        Ended::Link { .. } => unreachable!(),
    }
}

/// Takes back the reader of a socket that was never started.
fn socket_unstarted<C, D, I>(reader: Worker<C, D, I>) -> SocketBack<C, D>
where
    C: Clock + Drop,
    D: Datagrams + Drop,
    I: Drop,
    requires { IsSocketWorker reader }
    ensures { IsSocketBack D.told (Err reader) result }
{
    match reader {
        Worker::Reader {
            alloc: _,
            turnstile: _,
            pass,
            via: _,
            socket,
        } => SocketBack {
            pass,
            socket,
            lost: 0,
            failed: false,
        },
        Worker::Link { .. } => unreachable!(),
    }
}

/// The reader of a socket that was finished, or never started.
fn socket_back<C, D, I, W>(crew: &mut W, reader: Start<C, D, I>) -> SocketBack<C, D>
where
    C: Clock + Send + Drop + 'static,
    D: Datagrams + Send + Drop + 'static,
    I: LinkIn + Send + Drop + 'static,
    W: Crew<Worker<C, D, I>>,
    requires worker { MatchResult reader IsSocketWorker IsSocketWorker }
    ensures back { IsSocketBack D.told reader result }
    ensures faults { W.faults crew.new ≡ W.faults crew.old }
    ensures started { W.started crew.new ≡ W.started crew.old }
{
    match reader {
        Ok(helper) => socket_ran(crew, helper),
        Err(worker) => socket_unstarted(worker),
    }
}

/// Takes back the reader of a socket, and joins its pass. It gives the socket.
fn rejoin_socket<C, D, I, W>(
    turnstile: &Shared<AgentDesk<C>>,
    pass: &mut Pass<AgentDesk<C>>,
    crew: &mut W,
    reader: Start<C, D, I>,
) -> D
where
    C: Clock + Send + Drop + 'static,
    D: Datagrams + Send + Drop + 'static,
    I: LinkIn + Send + Drop + 'static,
    W: Crew<Worker<C, D, I>>,
    requires table { table_of pass.old ≡ arc_value turnstile.now }
    requires theirs { (number : ℕ) × MatchResult reader (IsReader (arc_value turnstile.now) number)
        (IsReader (arc_value turnstile.now) number) }
    ensures table { table_of pass.new ≡ table_of pass.old }
    ensures one_more { length (known pass.new).numbers ≡ length (known pass.old).numbers + 1 }
    ensures first { (known pass.new).first ≡ (known pass.old).first }
    ensures faults { W.faults crew.new ≡ W.faults crew.old }
    ensures started { W.started crew.new ≡ W.started crew.old }
{
    let back = socket_back(crew, reader);
    turnstile.join(pass, back.pass);
    back.socket
}

/// Takes back the reader of a link that couldn't be started, and joins its pass.
fn rejoin_link<C, D, I>(
    turnstile: &Shared<AgentDesk<C>>,
    pass: &mut Pass<AgentDesk<C>>,
    reader: Worker<C, D, I>,
)
where
    C: Clock + Drop,
    D: Drop,
    I: Drop,
    requires table { table_of pass.old ≡ arc_value turnstile.now }
    requires theirs { (number : ℕ) × IsLinkReader (arc_value turnstile.now) number reader }
    ensures table { table_of pass.new ≡ table_of pass.old }
    ensures one_more { length (known pass.new).numbers ≡ length (known pass.old).numbers + 1 }
    ensures first { (known pass.new).first ≡ (known pass.old).first }
{
    let back = reader_unstarted(reader);
    turnstile.join(pass, back.pass);
}

/// Ends a run of which a worker couldn't be started at first.
pub(crate) fn disband<R, C, D, I, O, W>(
    rt: &R,
    turnstile: &Shared<AgentDesk<C>>,
    mut pass: Pass<AgentDesk<C>>,
    crew: &mut W,
    team: Unteamed<C, D, I>,
) -> Outcome<C, D, I, O>
where
    R: Wait,
    C: Clock + Send + Drop + 'static,
    D: Datagrams + Send + Drop + 'static,
    I: LinkIn + Send + Drop + 'static,
    W: Crew<Worker<C, D, I>>,
    requires own { IsPassOf (arc_value turnstile.now) 0 (table_of pass) (known pass) }
    requires auth { MatchResult team.auth (IsReader (arc_value turnstile.now) 1)
        (IsReader (arc_value turnstile.now) 1) }
    requires acct { MatchResult team.acct (IsReader (arc_value turnstile.now) 2)
        (IsReader (arc_value turnstile.now) 2) }
    requires link { IsLinkReader (arc_value turnstile.now) 3 team.link }
    ensures ends { (result.status ≡ NoThread) × (result.trail ≡ None) }
    ensures began { (base : RunBase) → Carries (StandsBy C.readings) (known pass) base
        → BeganFrom C.readings base result.tools }
    ensures faults { W.faults crew.new ≡ W.faults crew.old }
    ensures started { W.started crew.new ≡ W.started crew.old }
{
    let _ = take_leave(rt, turnstile, &mut pass);
    let Unteamed { auth, acct, link } = team;
    let auth = rejoin_socket(turnstile, &mut pass, crew, auth);
    let acct = rejoin_socket(turnstile, &mut pass, crew, acct);
    rejoin_link(turnstile, &mut pass, link);
    Outcome {
        status: Status::NoThread,
        tools: tools_of(turnstile, pass),
        auth,
        acct,
        trail: None,
    }
}
