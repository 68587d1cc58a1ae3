//! The server: one core, at which the writer of the link and its workers take turns.

ghost use Rattle.std.specs.Prelude.{◌≡◌, ◌+◌, ◌<◌, ◌≤◌, ◌⊎◌, ◌++◌, ℕ, [], ◌∷◌, length, IfSome, IfNone, IsSome, Ok, Err, None};
ghost use Rattle.std.specs.Arc.{arc_value};
ghost use Rattle.wire_core.specs.Counts.{Rose};
ghost use Rattle.radius_packet.specs.declared.reasons.Via.TheVariants.{Auth, Acct};
ghost use Rattle.agent_settings.specs.Config.{InLimits};
ghost use Rattle.agent_status.specs.declared.status.Status.TheVariants.{NoThread, OutOfMemory};
ghost use Rattle.wire_devices.specs.Dialling.{Dials};
ghost use Rattle.wire_devices.specs.Sockets.{Socket};
ghost use Rattle.turnstile.specs.declared.view.Known.{Known};
ghost use Rattle.turnstile.specs.Knowing.{Carries};
ghost use Rattle.turnstile.specs.Passes.{known, table_of};
ghost use Rattle.turnstile.specs.Turns.{of, plain};
ghost use Rattle.agent_server.specs.Desks.{HasSent, StandsBy};
ghost use Rattle.server_workers.specs.Entries.{ticks};
ghost use Rattle.server_workers.specs.Running.{Keeps, RoseBy, StartedAs, counted, ports_in, ports_of, InOrder, number_in, numbers_of};
ghost use Rattle.agent_server.specs.Ran.{HasToldOnly, IsAny, RanFrom, run_by};
ghost use Rattle.agent_server.specs.Runs.{entries_recorded};
ghost use Rattle.agent_server.specs.Server.{EndsEarly, HasTrail, Served, status_given, twins_of};
ghost use Rattle.agent_server.specs.Starting.{AllDone, BeganFrom, IsPassOf, IsReader, IsReady, StartsFor};

use crate::Worker;
use crate::desk::{AgentDesk, DeskEnd, Tools};
use crate::stand::{FirstLink, Stand, first_link, prepare, tools_of};
use crate::team::{SocketBack, Team, disband, socket_ran, start_workers};
use crate::trail::Trail;
use agent_events::Input;
use agent_settings::Config;
use agent_status::Status;
use peer_machine::LinkCause;
use run_record::EntrySender;
use server_workers::{
    Heard, Links, Live, MOST_LINKS, Pair, Past, RunBase, RunEnd, Shared, Twins, serve_links,
};
use std::alloc::Global;
use std::hash::RandomState;
use std::sync::Wait;
use turnstile::Pass;
use wire_devices::{Clock, Crew, Datagrams, Dialer, LinkIn, LinkOut};

/// The outside of the agent: a clock, a socket for logins and one for accounting, what makes links to the home server, and
/// what runs the workers.
pub struct World<C, D, L, W> {
    pub clock: C,
    pub auth: D,
    pub acct: D,
    pub dialer: L,
    pub crew: W,
}

/// How a run ended, and what is left of it. `trail` is there exactly where all workers were started at first.
pub struct Finish<C, D, L: Dialer, W> {
    pub status: Status,
    pub world: World<C, D, L, W>,
    pub trail: Option<Trail<C, D, L::In, L::Out>>,
    pub home: Option<Pair<L::In, L::Out>>,
}

/// How a run ended, but for what only its writer holds.
pub(crate) struct Outcome<C, D, I, O> {
    pub status: Status,
    pub tools: Tools<C>,
    pub auth: D,
    pub acct: D,
    pub trail: Option<Trail<C, D, I, O>>,
}

/// The status of a run whose workers were started: the first that stands, of the writer's end, the failures of the sockets,
/// and the cause for which the last of so many links was closed.
fn status_of(end: RunEnd, socket_failed: bool, closed: Option<LinkCause>, links: usize) -> Status
    ensures { result ≡ status_given end socket_failed closed links }
{
    match end {
        RunEnd::NoMemory => Status::OutOfMemory,
        RunEnd::NoThread => Status::NoThread,
        _ if socket_failed => Status::DatagramFault,
        RunEnd::LinkFault => Status::LinkFault,
        _ => match closed {
            Some(LinkCause::Refused { result: code }) => Status::PeerRefused { result: code },
            Some(LinkCause::Left) | None => Status::Done,
            Some(cause) => {
                if links >= MOST_LINKS {
                    Status::LinkEnded { cause }
                } else {
                    Status::Done
                }
            }
        },
    }
}

/// Serves with a whole team, and ends the run.
fn lead<R, C, D, L, W>(
    rt: &R,
    alloc: Global,
    turnstile: &Shared<AgentDesk<C>>,
    mut pass: Pass<AgentDesk<C>>,
    dialer: &mut L,
    crew: &mut W,
    team: Team<C, D, L::In>,
    link_out: L::Out,
    mut past: Past<L::In, L::Out>,
) -> Outcome<C, D, L::In, L::Out>
where
    R: Wait,
    C: Clock + Send + Drop + 'static,
    D: Datagrams + Send + Drop + 'static,
    L: Dialer,
    L::In: Send + Drop + 'static,
    W: Crew<Worker<C, D, L::In>>,
    requires table { table_of pass ≡ arc_value turnstile.now }
    requires row { (L.told dialer.old).row ≡ 0 }
    requires started { StartedAs L.In.told L.Out.told D.told (arc_value turnstile.now) (known pass)
        team.link link_out past }
    requires readers { IsReader (arc_value turnstile.now) 1 team.auth
        × IsReader (arc_value turnstile.now) 2 team.acct }
    ensures some { IsSome result.trail }
    ensures started { W.started crew.old ≤ W.started crew.new }
    ensures kept { IfSome result.trail (λ trail. Keeps (length past.pairs.items + 1)
        (length trail.links) (L.made dialer.old) (L.made dialer.new)) }
    ensures ports { IfSome result.trail
        (λ trail. ports_of D.told (twins_of trail) ≡ ports_in D.told team.link) }
    ensures order { (made : ℕ)
        → InOrder made (numbers_of L.In.told past.pairs.items ++ number_in L.In.told team.link ∷ [])
        → L.made dialer.old ≡ counted made (length past.pairs.items + 1)
        → IfSome result.trail (λ trail. InOrder made (numbers_of L.In.told trail.links)) }
    ensures served { (base : RunBase) (dials : Dials) (auth acct : Socket)
        → Carries (StandsBy C.readings) (known pass) base
        → RoseBy (ticks (of 0 (known pass).seen)) dials.faults (L.told dialer.old).faults
        → dials.faults ≤ (L.told dialer.old).faults
        → StartsFor D.told Auth 1 (known pass) auth team.auth
        → StartsFor D.told Acct 2 (known pass) acct team.acct
        → IfSome result.trail (λ trail. Served C.readings D.told L.In.told L.Out.told (record {
          config = base.config;
          until = base.until;
          before = base.before;
          auth = auth;
          acct = acct;
          auth' = D.told result.auth;
          acct' = D.told result.acct;
          dials = dials;
          dials' = L.told dialer.new;
          starts = W.faults crew.old;
          starts' = W.faults crew.new;
          clock = result.tools.clock;
          trail = trail;
          status = result.status;
        })) }
    ensures sent { (base : RunBase) → Carries (StandsBy C.readings) (known pass) base
        → IfSome result.trail (λ trail. HasSent base.sender result.tools.sender
        (entries_recorded base.config (plain trail.turns))) }
{
    let Team { auth, acct, link } = team;
    let first = Live {
        helper: link,
        link_out,
    };
    let (end, twins) = serve_links(
        rt, alloc, turnstile, &mut pass, dialer, crew, first, &mut past,
    );
    let auth = socket_ran(crew, auth);
    let acct = socket_ran(crew, acct);
    conclude(turnstile, pass, end, twins, past, auth, acct)
}

/// Joins the passes of the sockets' readers, closes the turnstile, and says how the run ended.
fn conclude<C, D, I, O>(
    turnstile: &Shared<AgentDesk<C>>,
    mut pass: Pass<AgentDesk<C>>,
    end: RunEnd,
    twins: Twins<D>,
    past: Past<I, O>,
    auth: SocketBack<C, D>,
    acct: SocketBack<C, D>,
) -> Outcome<C, D, I, O>
where
    C: Clock + Drop,
    D: Datagrams,
    I: LinkIn,
    O: LinkOut,
    requires table { table_of pass ≡ arc_value turnstile.now }
    requires numbers { (known pass).numbers ≡ 0 ∷ 3 ∷ [] }
    requires auth { IsPassOf (arc_value turnstile.now) 1 (table_of auth.pass) (known auth.pass) }
    requires acct { IsPassOf (arc_value turnstile.now) 2 (table_of acct.pass) (known acct.pass) }
    ensures some { IsSome result.trail }
    ensures links { IfSome result.trail (λ trail. trail.links ≡ past.pairs.items) }
    ensures twins { IfSome result.trail (λ trail. twins_of trail ≡ twins) }
    ensures served { (base : RunBase) (first then last : Dials) (starts now : ℕ)
        (auth_socket acct_socket : Socket) (k : Known (AgentDesk C) Input Heard)
        → AllDone C.readings D.told I.told O.told (record {
          base = base;
          dials = first;
          dials' = then;
          dials'' = last;
          starts = starts;
          starts' = now;
          auth = auth_socket;
          acct = acct_socket;
          k = k;
          k' = known pass;
          end = end;
          twins = twins;
          past = past;
          auth_back = auth;
          acct_back = acct;
        })
        → IfSome result.trail (λ trail. Served C.readings D.told I.told O.told (record {
          config = base.config;
          until = base.until;
          before = base.before;
          auth = auth_socket;
          acct = acct_socket;
          auth' = D.told result.auth;
          acct' = D.told result.acct;
          dials = first;
          dials' = last;
          starts = starts;
          starts' = now;
          clock = result.tools.clock;
          trail = trail;
          status = result.status;
        })) }
    ensures sent { (base : RunBase) → Carries (StandsBy C.readings) (known pass) base
        → IfSome result.trail (λ trail. HasSent base.sender result.tools.sender
        (entries_recorded base.config (plain trail.turns))) }
{
    turnstile.join(&mut pass, auth.pass);
    turnstile.join(&mut pass, acct.pass);
    let (desk, turns) = turnstile.close(pass);
    let DeskEnd {
        tools,
        entries,
        closed,
    } = desk.into_end();
    let Past { pairs, lost, again } = past;
    let Twins {
        auth: auth_twin,
        acct: acct_twin,
    } = twins;
    let lost = lost.saturating_add(auth.lost).saturating_add(acct.lost);
    Outcome {
        status: status_of(end, auth.failed | acct.failed, closed, pairs.len()),
        tools,
        auth: auth.socket,
        acct: acct.socket,
        trail: Some(Trail {
            turns,
            entries,
            lost,
            again,
            auth_twin,
            acct_twin,
            links: Links::from_vec(pairs),
        }),
    }
}

/// Runs from a turnstile that was started.
fn run<R, C, D, L, W>(
    rt: &R,
    alloc: Global,
    stand: Stand<C, L::In, L::Out>,
    mut auth: D,
    mut acct: D,
    dialer: &mut L,
    crew: &mut W,
) -> Outcome<C, D, L::In, L::Out>
where
    R: Wait,
    C: Clock + Send + Drop + 'static,
    D: Datagrams + Send + Drop + 'static,
    L: Dialer,
    L::In: Send + Drop + 'static,
    L::Out: Drop,
    W: Crew<Worker<C, D, L::In>>,
    requires ready { IsReady stand }
    requires rows { ((D.told auth).row ≡ 0) × ((D.told acct).row ≡ 0)
        × ((L.told dialer.old).row ≡ 0) }
    ensures trail { HasTrail result.trail (W.started crew.old) (W.started crew.new) }
    ensures links { IfSome result.trail
        (λ trail. L.made dialer.new ≡ counted (L.made dialer.old) (length trail.links)) }
    ensures ports { IfSome result.trail
        (λ trail. ports_of D.told (twins_of trail) ≡ ((D.told auth).port, (D.told acct).port)) }
    ensures order { IfSome result.trail
        (λ trail. InOrder (L.made dialer.old) (numbers_of L.In.told trail.links)) }
    ensures began { (base : RunBase) → Carries (StandsBy C.readings) (known stand.pass) base
        → IfNone result.trail (BeganFrom C.readings base result.tools) }
    ensures served { (base : RunBase) → Carries (StandsBy C.readings) (known stand.pass) base
        → IfSome result.trail (λ trail. Served C.readings D.told L.In.told L.Out.told (record {
          config = base.config;
          until = base.until;
          before = base.before;
          auth = D.told auth;
          acct = D.told acct;
          auth' = D.told result.auth;
          acct' = D.told result.acct;
          dials = L.told dialer.old;
          dials' = L.told dialer.new;
          starts = W.faults crew.old;
          starts' = W.faults crew.new;
          clock = result.tools.clock;
          trail = trail;
          status = result.status;
        })) }
    ensures sent { (base : RunBase) → Carries (StandsBy C.readings) (known stand.pass) base
        → IfSome result.trail (λ trail. HasSent base.sender result.tools.sender
        (entries_recorded base.config (plain trail.turns))) }
    ensures early { (base : RunBase) → Carries (StandsBy C.readings) (known stand.pass) base
        → IfNone result.trail (EndsEarly result.status (C.readings result.tools.clock) base.until
        (L.told dialer.old) (L.told dialer.new)
        (Rose (D.told auth).faults (D.told result.auth).faults
        ⊎ Rose (D.told acct).faults (D.told result.acct).faults)
        (Rose (W.faults crew.old) (W.faults crew.new))) }
{
    let Stand {
        turnstile,
        shares,
        mut pass,
        past,
    } = stand;
    let FirstLink {
        pair: Pair { link_in, link_out },
        twins,
    } = match first_link(rt, &turnstile, &mut pass, dialer, &mut auth, &mut acct) {
        Ok(first) => first,
        Err(status) => {
            return Outcome {
                status,
                tools: tools_of(&turnstile, pass),
                auth,
                acct,
                trail: None,
            };
        }
    };
    match start_workers(
        alloc, &turnstile, &mut pass, shares, crew, auth, acct, link_in, twins,
    ) {
        Ok(team) => lead(
            rt, alloc, &turnstile, pass, dialer, crew, team, link_out, past,
        ),
        Err(team) => disband(rt, &turnstile, pass, crew, team),
    }
}

/// Ends a run for which there was no memory.
fn unready<C, D, L: Dialer, W>(world: World<C, D, L, W>) -> Finish<C, D, L, W>
    ensures { result ≡ record { status = OutOfMemory; world = world; trail = None; home = None } }
{
    Finish {
        status: Status::OutOfMemory,
        world,
        trail: None,
        home: None,
    }
}

/// Serves, and gives what it serves for to the sender of a record, where there is one. It gives the sender back.
pub(crate) fn serve_sending<R, C, D, L, W>(
    rt: &R,
    alloc: Global,
    random: RandomState,
    config: Config,
    world: World<C, D, L, W>,
    until: u64,
    sender: Option<EntrySender>,
) -> (Finish<C, D, L, W>, Option<EntrySender>)
where
    R: Wait,
    C: Clock + Send + Drop + 'static,
    D: Datagrams + Send + Drop + 'static,
    L: Dialer,
    L::In: Send + Drop + 'static,
    L::Out: Drop,
    W: Crew<Worker<C, D, L::In>>,
    requires limits { InLimits config }
    requires rows { ((D.told world.auth).row ≡ 0) × ((D.told world.acct).row ≡ 0)
        × ((L.told world.dialer).row ≡ 0) }
    ensures home { result.0.home ≡ None }
    ensures ran { RanFrom C.readings D.told L.In.told L.Out.told L.told L.made W.faults W.started
        (HasToldOnly (C.readings world.clock)) (run_by config until world result.0)
        (HasSent sender result.1) }
{
    let World {
        clock,
        auth,
        acct,
        mut dialer,
        mut crew,
    } = world;
    let stand = match prepare(alloc, random, config, Tools { clock, sender }, until) {
        Ok(stand) => stand,
        Err(Tools { clock, sender }) => {
            let world = World {
                clock,
                auth,
                acct,
                dialer,
                crew,
            };
            return (unready(world), sender);
        }
    };
    let Outcome {
        status,
        tools: Tools { clock, sender },
        auth,
        acct,
        trail,
    } = run(rt, alloc, stand, auth, acct, &mut dialer, &mut crew);
    let finish = Finish {
        status,
        world: World {
            clock,
            auth,
            acct,
            dialer,
            crew,
        },
        trail,
        home: None,
    };
    (finish, sender)
}

/// Serves RADIUS clients by the home server, up to the moment `until` of the clock, in milliseconds. Its own thread is the
/// writer of the link; the reader of each socket and of the present link are workers of the crew.
pub fn serve<R, C, D, L, W>(
    rt: &R,
    alloc: Global,
    random: RandomState,
    config: Config,
    world: World<C, D, L, W>,
    until: u64,
) -> Finish<C, D, L, W>
where
    R: Wait,
    C: Clock + Send + Drop + 'static,
    D: Datagrams + Send + Drop + 'static,
    L: Dialer,
    L::In: Send + Drop + 'static,
    L::Out: Drop,
    W: Crew<Worker<C, D, L::In>>,
    requires limits { InLimits config }
    requires rows { ((D.told world.auth).row ≡ 0) × ((D.told world.acct).row ≡ 0)
        × ((L.told world.dialer).row ≡ 0) }
    ensures home { result.home ≡ None }
    ensures ran { RanFrom C.readings D.told L.In.told L.Out.told L.told L.made W.faults W.started
        (HasToldOnly (C.readings world.clock)) (run_by config until world result) IsAny }
{
    let (finish, _) = serve_sending(rt, alloc, random, config, world, until, None);
    finish
}
