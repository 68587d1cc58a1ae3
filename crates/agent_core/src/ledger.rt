//! What the core keeps of the history: the settings, the link, a few counts and the live entries.

ghost use Rattle.std.specs.Prelude.{◌≡◌, ◌<◌, [], ◌∷◌, IfOk, None, OnOk, OnErr, length};
ghost use Rattle.agent_settings.specs.Config.{InLimits};
ghost use Rattle.pending_table.specs.Table as table;
ghost use Rattle.agent_core.specs.Machine as machine;
ghost use Rattle.agent_core.specs.Rooms as rooms;
ghost use Rattle.agent_core.specs.Standing.{IsSteady, start};

use agent_events::{Input, Output, Outputs};
use agent_settings::Config;
use peer_machine::{Peer, PeerInput, Phase};
use pending_table::Table;
use radius_packet::Reason;
use session_carrier::Numbers;
use std::alloc::Global;
use std::hash::RandomState;
use wire_core::NoMemory;

/// What is kept of the inputs so far.
#[derive(Drop)]
pub struct Ledger {
    pub config: Config,
    /// the greatest moment so far
    pub moment: u64,
    pub peer: Peer,
    /// the application requests sent on this link
    pub used: u32,
    /// what was sent on this link since the last Drain
    pub outbox: u32,
    /// the requests sent since the start, modulo 2^32, without those that were sent again
    pub total: u32,
    /// the fresh sessions so far
    pub serial: u64,
    pub table: Table,
}

/// One output that says why nothing is done.
pub(crate) fn dropped(alloc: Global, reason: Reason) -> Result<Outputs, NoMemory>
    ensures { IfOk result (λ o. o ≡ Output.Dropped reason ∷ []) }
{
    let mut outputs = Outputs::new(alloc);
    outputs.push(Output::Dropped { reason })?;
    Ok(outputs)
}

impl Ledger {
    /// What is kept before anything came in.
    pub(crate) fn new(
        alloc: Global,
        random: RandomState,
        config: Config,
    ) -> Result<Ledger, NoMemory>
        requires { InLimits config }
        ensures { IfOk result (λ s. s ≡ start config) }
    {
        let table = Table::new(
            alloc,
            random,
            config.capacity,
            config.patience,
            config.retention,
        )?;
        let peer = Peer::new(
            alloc,
            config.host.as_slice(),
            config.realm.as_slice(),
            config.address,
            config.boot.unwrap_or(0),
            config.watchdog,
        )?;
        Ok(Ledger {
            config,
            moment: 0,
            peer,
            used: 0,
            outbox: 0,
            total: 0,
            serial: 0,
            table,
        })
    }

    /// Why a new request is not taken up now.
    pub(crate) fn refusal(&self) -> Option<Reason>
        requires { self.now.table.capacity ≡ self.now.config.capacity }
        ensures exact { result ≡ rooms.refusal self.now.config (machine.kept_rooms self.now) }
        ensures room { result ≡ None
            → length (table.live self.now.table self.now.moment) < self.now.table.capacity }
    {
        let waiting = self.table.waiting(self.moment) as u64;
        let outbox = self.outbox as u64;
        if !matches!(self.peer.phase(), Phase::Serving) {
            Some(Reason::LinkDown)
        } else if 2_147_483_648 < self.used as u64 + waiting + 2 || self.serial == u64::MAX {
            Some(Reason::Spent)
        } else if self.table.is_full(self.moment) {
            Some(Reason::Full)
        } else if (self.config.backlog as u64) < outbox.max(waiting) + waiting + 2 {
            Some(Reason::Backlog)
        } else {
            None
        }
    }

    /// The numbers of the next application request.
    pub(crate) fn numbers(&self) -> Numbers
        ensures { result ≡ machine.kept_numbers self.now }
    {
        let boot = self.config.boot.unwrap_or(0);
        Numbers {
            hop: self.used,
            end: (boot % 4096 * 1_048_576).wrapping_add(self.total),
        }
    }

    /// An input at the moment that stands.
    fn act(&mut self, alloc: Global, input: &Input) -> Result<Outputs, NoMemory>
        requires { IsSteady self.old }
        ensures outputs { IfOk result (λ o. o ≡ (machine.on_input self.old input.now).outputs) }
        ensures ledger { OnOk result (self.new ≡ (machine.on_input self.old input.now).ledger) }
        ensures err { OnErr result (self.new ≡ self.old) }
    {
        match input {
            Input::Datagram {
                via,
                address,
                port,
                octets,
            } => self.datagram(alloc, *via, *address, *port, octets.as_slice()),
            Input::Up => self.linked(alloc, PeerInput::Up),
            Input::Ready => self.linked(alloc, PeerInput::Ready),
            Input::Message { octets } => self.message(alloc, octets.as_slice()),
            Input::Broken { fault } => self.linked(alloc, PeerInput::Broken(*fault)),
            Input::Down => self.linked(alloc, PeerInput::Down),
            Input::Tick => self.linked(alloc, PeerInput::Tick),
            Input::Drain => {
                self.outbox = 0;
                Ok(Outputs::new(alloc))
            }
            Input::Leave => self.linked(alloc, PeerInput::Leave),
        }
    }

    /// One step: the effective moment is the greatest so far. Dead entries are dropped where it isn't refused. After
    /// an `Err` everything is as it was.
    pub(crate) fn step(
        &mut self,
        alloc: Global,
        moment: u64,
        input: &Input,
    ) -> Result<Outputs, NoMemory>
        requires { IsSteady self.old }
        ensures outputs { IfOk result (λ o. o ≡ (machine.next self.old moment input.now).outputs) }
        ensures ledger { OnOk result (self.new ≡ (machine.next self.old moment input.now).ledger) }
        ensures err { OnErr result (self.new ≡ self.old) }
    {
        let before = self.moment;
        self.moment = before.max(moment);
        match self.act(alloc, input) {
            Ok(outputs) => {
                self.table.purge(self.moment);
                Ok(outputs)
            }
            Err(refused) => {
                self.moment = before;
                Err(refused)
            }
        }
    }
}
