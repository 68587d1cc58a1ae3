//! What a run has at hand before its workers: the turnstile, and the first link.

ghost use Rattle.std.specs.Prelude.{◌≡◌, ◌+◌, ◌<◌, ◌≤◌, ◌⊎◌, [], ◌∷◌, length, vec_capacity, IfOk, IfErr, IfSome, IfNone, Ok, Err, None};
ghost use Rattle.std.specs.Arc.{arc_value};
ghost use Rattle.wire_core.specs.Counts.{Rose};
ghost use Rattle.agent_settings.specs.Config.{InLimits};
ghost use Rattle.agent_status.specs.declared.status.Status.TheVariants.{OutOfMemory};
ghost use Rattle.turnstile.specs.Knowing.{Carries};
ghost use Rattle.turnstile.specs.Passes.{known, table_of};
ghost use Rattle.turnstile.specs.Turns.{of};
ghost use Rattle.agent_server.specs.Desks.{HasRead, StandsBy};
ghost use Rattle.wire_devices.specs.Sockets.{IsFreshSocket};
ghost use Rattle.wire_devices.specs.Telling.{TellsOnly};
ghost use Rattle.server_workers.specs.Running.{counted, ports_of};
ghost use Rattle.agent_server.specs.Starting.{Alike, AreShares, BeganFrom, FirstFails, FirstOpened, IsRead, IsReady};

use crate::desk::{AgentDesk, DeskEnd, Tools};
use agent_core::Core;
use agent_events::Input;
use agent_settings::Config;
use agent_status::Status;
use server_workers::{Dialling, MOST_LINKS, Pair, Past, RunBase, Shared, Twins, dial, enter};
use std::alloc::Global;
use std::hash::RandomState;
use std::sync::{Arc, Wait};
use turnstile::{Pass, Turnstile, Unstarted};
use wire_devices::{Clock, Datagrams, Dialer};

/// A share of the turnstile for each worker.
#[derive(Drop)]
pub(crate) struct Shares<C: Clock> {
    pub auth: Shared<AgentDesk<C>>,
    pub acct: Shared<AgentDesk<C>>,
    pub link: Shared<AgentDesk<C>>,
}

/// A turnstile that was started, with a share of it for each worker, and room for the links.
pub(crate) struct Stand<C: Clock, I, O> {
    pub turnstile: Shared<AgentDesk<C>>,
    pub shares: Shares<C>,
    pub pass: Pass<AgentDesk<C>>,
    pub past: Past<I, O>,
}

/// Makes a share of the turnstile for each worker.
fn make_shares<C: Clock + Drop>(turnstile: &Shared<AgentDesk<C>>) -> Option<Shares<C>>
    ensures { IfSome result (AreShares (arc_value turnstile.now)) }
{
    let auth = Arc::try_clone(turnstile).ok()?;
    let acct = Arc::try_clone(turnstile).ok()?;
    let link = Arc::try_clone(turnstile).ok()?;
    Some(Shares { auth, acct, link })
}

/// Ends a turnstile at which nobody else is, and gives back what its desk was given.
pub(crate) fn tools_of<C: Clock + Drop>(
    turnstile: &Turnstile<AgentDesk<C>>,
    pass: Pass<AgentDesk<C>>,
) -> Tools<C>
    requires table { table_of pass ≡ turnstile.now }
    requires all { length (known pass).numbers ≡ 4 }
    ensures { (base : RunBase) → Carries (StandsBy C.readings) (known pass) base
        → IsRead C.readings result base (known pass).seen }
{
    let (desk, _) = turnstile.close(pass);
    let DeskEnd {
        tools,
        entries: _,
        closed: _,
    } = desk.into_end();
    tools
}

/// Makes all that a run wants before its first link. Without memory what the desk was to be given comes back.
pub(crate) fn prepare<C: Clock + Drop, I, O>(
    alloc: Global,
    random: RandomState,
    config: Config,
    tools: Tools<C>,
    until: u64,
) -> Result<Stand<C, I, O>, Tools<C>>
where
    I: Drop,
    O: Drop,
    requires { InLimits config }
    ensures ready { IfOk result IsReady }
    ensures carries { (base : RunBase) → config ≡ base.config → until ≡ base.until
        → HasRead (C.readings tools.clock) base.before []
        → tools.sender ≡ base.sender
        → IfOk result (λ stand. Carries (StandsBy C.readings) (known stand.pass) base) }
    ensures began { (base : RunBase) → config ≡ base.config → until ≡ base.until
        → HasRead (C.readings tools.clock) base.before []
        → tools.sender ≡ base.sender → IfErr result (BeganFrom C.readings base) }
{
    let Ok(pairs) = Vec::with_capacity(alloc, MOST_LINKS) else {
        return Err(tools);
    };
    let Ok(core) = Core::new(alloc, random, config) else {
        return Err(tools);
    };
    let Tools { clock, sender } = tools;
    let desk = AgentDesk::new(alloc, core, clock, until, sender);
    match Turnstile::start(alloc, desk) {
        Ok((turnstile, pass)) => share(alloc, turnstile, pass, pairs),
        Err(Unstarted { desk, cause: _ }) => {
            let DeskEnd {
                tools,
                entries: _,
                closed: _,
            } = desk.into_end();
            Err(tools)
        }
    }
}

/// Shares a turnstile that was started. Without memory what its desk was given comes back.
fn share<C: Clock + Drop, I: Drop, O: Drop>(
    alloc: Global,
    turnstile: Turnstile<AgentDesk<C>>,
    pass: Pass<AgentDesk<C>>,
    pairs: Vec<Pair<I, O>>,
) -> Result<Stand<C, I, O>, Tools<C>>
    requires table { table_of pass ≡ turnstile }
    requires numbers { (known pass).numbers ≡ 0 ∷ 1 ∷ 2 ∷ 3 ∷ [] }
    requires seen { (known pass).seen ≡ [] }
    requires pairs { (pairs.items ≡ []) × (256 ≤ vec_capacity pairs) }
    ensures ready { IfOk result IsReady }
    ensures same { IfOk result (λ stand. stand.pass ≡ pass) }
    ensures began { (base : RunBase) → Carries (StandsBy C.readings) (known pass) base
        → IfErr result (BeganFrom C.readings base) }
{
    let turnstile = match Arc::new(alloc, turnstile) {
        Ok(turnstile) => turnstile,
        Err(refused) => return Err(tools_of(&refused.value, pass)),
    };
    match make_shares(&turnstile) {
        Some(shares) => Ok(Stand {
            turnstile,
            shares,
            pass,
            past: Past {
                pairs,
                lost: 0,
                again: 0,
            },
        }),
        None => Err(tools_of(&turnstile, pass)),
    }
}

/// Makes a twin of each socket.
fn make_twins<D: Datagrams + Drop>(auth: &mut D, acct: &mut D) -> Option<Twins<D>>
    ensures fresh { IfSome result (λ twins. IsFreshSocket (D.told twins.auth)
        × IsFreshSocket (D.told twins.acct)) }
    ensures alike { IfSome result (λ twins. Alike (D.told auth.old) (D.told auth.new)
        × Alike (D.told acct.old) (D.told acct.new)) }
    ensures ports { IfSome result
        (λ twins. ports_of D.told twins ≡ ((D.told auth.old).port, (D.told acct.old).port)) }
    ensures failed { IfNone result (Rose (D.told auth.old).faults (D.told auth.new).faults
        ⊎ Rose (D.told acct.old).faults (D.told acct.new).faults) }
{
    let auth = auth.twin()?;
    let acct = acct.twin()?;
    Some(Twins { auth, acct })
}

/// The first link, opened, and a twin of each socket.
pub(crate) struct FirstLink<D, I, O> {
    pub pair: Pair<I, O>,
    pub twins: Twins<D>,
}

/// Makes the first link and opens it, and makes the twins of the sockets. Else it says how the run ends.
pub(crate) fn first_link<R, C, D, L>(
    rt: &R,
    turnstile: &Shared<AgentDesk<C>>,
    pass: &mut Pass<AgentDesk<C>>,
    dialer: &mut L,
    auth: &mut D,
    acct: &mut D,
) -> Result<FirstLink<D, L::In, L::Out>, Status>
where
    R: Wait,
    C: Clock,
    D: Datagrams + Drop,
    L: Dialer,
    L::In: Drop,
    L::Out: Drop,
    requires table { table_of pass.old ≡ arc_value turnstile.now }
    requires numbers { (known pass.old).numbers ≡ 0 ∷ 1 ∷ 2 ∷ 3 ∷ [] }
    requires seen { (known pass.old).seen ≡ [] }
    requires row { (L.told dialer.old).row ≡ 0 }
    ensures table { table_of pass.new ≡ table_of pass.old }
    ensures same { ((known pass.new).first ≡ (known pass.old).first)
        × ((known pass.new).numbers ≡ (known pass.old).numbers) }
    ensures opened { IfOk result (λ first. FirstOpened L.In.told L.Out.told D.told first
        (known pass.new).seen (L.told dialer.old) (L.told dialer.new)) }
    ensures made { IfOk result (λ first. L.made dialer.new ≡ counted (L.made dialer.old) 1) }
    ensures alike { IfOk result (λ first. Alike (D.told auth.old) (D.told auth.new)
        × Alike (D.told acct.old) (D.told acct.new)) }
    ensures ports { IfOk result
        (λ first. ports_of D.told first.twins ≡ ((D.told auth.old).port, (D.told acct.old).port)) }
    ensures numbered { IfOk result
        (λ first. TellsOnly (L.In.told first.pair.link_in).number (L.made dialer.old)) }
    ensures failed { IfErr result
        (λ status. FirstFails status (known pass.new).seen (L.told dialer.old) (L.told dialer.new)
        (Rose (D.told auth.old).faults (D.told auth.new).faults
        ⊎ Rose (D.told acct.old).faults (D.told acct.new).faults)) }
{
    let pair = match dial(rt, turnstile, pass, dialer) {
        Dialling::Made { link_in, link_out } => Pair { link_in, link_out },
        Dialling::Finished => return Err(Status::LinkFault),
        Dialling::Failed => {
            let _ = enter(rt, turnstile, pass, Input::Leave);
            return Err(Status::LinkFault);
        }
    };
    let Some(_) = enter(rt, turnstile, pass, Input::Up) else {
        let _ = enter(rt, turnstile, pass, Input::Leave);
        return Err(Status::OutOfMemory);
    };
    let Some(twins) = make_twins(auth, acct) else {
        return Err(Status::DatagramFault);
    };
    Ok(FirstLink { pair, twins })
}
