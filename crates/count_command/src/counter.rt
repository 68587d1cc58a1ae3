//! What counts a run.

ghost use Rattle.std.specs.Prelude.{◌≡◌, ◌<◌, ◌≤◌, ◌++◌, [], List, length, unwrap_or, Some, IfOk, OnOk, option_copied};
ghost use Rattle.std.specs.List.{flat_map};
ghost use Rattle.agent_core.specs.Places.{Event};
ghost use Rattle.agent_core.specs.History.{past};
ghost use Rattle.agent_core.specs.Standing.{StandsFor};
ghost use Rattle.transcript_runs.specs.Runs.{Stage};
ghost use Rattle.transcript_runs.specs.Sessions.{IsTold};
ghost use Rattle.count_command.specs.Count.{HasCounted, count_end, count_telling, due_text, gauges_at, passes};
ghost use Rattle.count_command.specs.Hits.{answer_hits, input_hits, output_hits};
ghost use Rattle.count_command.specs.Tally.{with_hits};

use crate::answers::count_answer;
use crate::block::{Gauges, block};
use crate::events::{count_input, count_outputs};
use crate::tally::Tally;
use agent_core::Core;
use agent_events::{Input, Output};
use agent_settings::Config;
use agent_status::Status;
use peer_machine::Phase;
use std::alloc::Global;
use text_commands::write_text;
use transcript_runs::{HomeAnswer, Teller, answered};
use wire_core::{NoMemory, Put, Sink};

/// Counts a run, and tells its counts each so many milliseconds.
#[derive(Drop)]
pub struct Counter {
    pub(crate) millis: u64,
    /// The moment of the first event, and of the last one.
    pub(crate) first: Option<u64>,
    pub(crate) moment: u64,
    pub(crate) counts: Tally,
}

/// Where no event came.
const NO_GAUGES: Gauges = Gauges {
    link_up: 0,
    live: 0,
    waiting: 0,
    moment: 0,
};

/// What stands now in a core.
fn gauges_of(core: &Core, moment: u64) -> Gauges
    ensures { (H : List Event) → StandsFor core.now H → moment ≡ core.now.moment
        → result ≡ gauges_at core.now.config (past core.now.config H) }
{
    Gauges {
        link_up: u64::from(matches!(core.phase(), Phase::Serving)),
        live: u64::from(core.live(0)),
        waiting: u64::from(core.waiting(0)),
        moment,
    }
}

impl Counter {
    /// Before the first event.
    pub(crate) fn new(alloc: Global, millis: u64) -> Counter
        ensures { result ≡ record { millis = millis; first = None; moment = 0; counts = [] } }
    {
        Counter {
            millis,
            first: None,
            moment: 0,
            counts: Tally::new(alloc),
        }
    }

    /// Whether a block is due before an event of this moment.
    fn is_due(&self, moment: u64) -> bool
        ensures { result ≡ passes self.now.millis self.now.first self.now.moment moment }
    {
        match self.first {
            None => false,
            Some(first) => {
                let (last, next) = (
                    self.moment.saturating_sub(first),
                    moment.saturating_sub(first),
                );
                0 < self.millis && last / self.millis < next / self.millis
            }
        }
    }

    /// The block that stands before an event of this moment, where one is due, else nothing.
    fn due(&self, alloc: Global, core: &Core, moment: u64) -> Result<Vec<u8>, NoMemory>
        ensures { (H : List Event) → StandsFor core.now H → self.now.moment ≡ core.now.moment
            → IfOk result (λ text. text.items
            ≡ due_text self.now core.now.config (past core.now.config H) moment) }
    {
        if self.is_due(moment) {
            block(alloc, self.counts.as_slice(), gauges_of(core, self.moment))
        } else {
            Ok(Vec::new(alloc))
        }
    }

    /// Counts an input of this moment, its outputs, and what it answers.
    #[tactic(auto, using(crate::proofs::TallyLemmas::with_hits_append))]
    fn add(
        &mut self,
        alloc: Global,
        config: &Config,
        moment: u64,
        input: &Input,
        outputs: &[Output],
        answered: Option<HomeAnswer>,
    ) -> Result<(), NoMemory>
        requires { length config.now.clients ≤ 1024 }
        ensures millis { self.new.millis ≡ self.old.millis }
        ensures counts { OnOk result (self.new.counts ≡ with_hits self.old.counts
            (input_hits config.now input.now ++ flat_map (output_hits config.now input.now)
            outputs.now ++ answer_hits moment answered)) }
        ensures first { OnOk result (self.new.first ≡ Some (unwrap_or self.old.first moment)) }
        ensures moment { OnOk result (self.new.moment ≡ moment) }
    {
        let counts = &mut self.counts;
        count_input(alloc, counts, config, input)?;
        count_outputs(alloc, counts, config, input, outputs)?;
        count_answer(alloc, counts, moment, answered)?;
        self.first = Some(self.first.unwrap_or(moment));
        self.moment = moment;
        Ok(())
    }

    /// The block that stands behind all events.
    fn last(&self, alloc: Global, core: Option<&Core>) -> Result<Vec<u8>, NoMemory>
        ensures { (stage : Stage) → IsTold HasCounted (option_copied core.entry) self.now stage
            → IfOk result (λ text. text.items ≡ count_end stage) }
    {
        let gauges = match core {
            Some(core) => gauges_of(core, self.moment),
            None => NO_GAUGES,
        };
        block(alloc, self.counts.as_slice(), gauges)
    }
}

impl Teller for Counter {
    ghost telling = { λ counter. count_telling counter.millis };

    ghost told = { HasCounted };

    fn tell<K: Sink>(
        &mut self,
        alloc: Global,
        core: &mut Core,
        _number: u64,
        moment: u64,
        input: &Input,
        sink: &mut K,
    ) -> Result<(), Status> {
        agent_core::past_goes_on();
        let moment_so_far = self.moment.max(moment);
        let Ok(text) = self.due(alloc, core, moment_so_far) else {
            return Err(Status::OutOfMemory);
        };
        let Ok(home_answer) = answered(alloc, core, moment, input) else {
            return Err(Status::OutOfMemory);
        };
        let Ok(outputs) = core.step(alloc, moment, input) else {
            return Err(Status::OutOfMemory);
        };
        let outputs = outputs.as_slice();
        match self.add(
            alloc,
            core.config(),
            moment_so_far,
            input,
            outputs,
            home_answer,
        ) {
            Ok(()) => write_text(sink, text.as_slice()),
            Err(_) => Err(Status::OutOfMemory),
        }
    }

    fn close<K: Sink>(&self, alloc: Global, core: Option<&Core>, sink: &mut K) -> Status {
        let Ok(text) = self.last(alloc, core) else {
            return Status::OutOfMemory;
        };
        match sink.write(text.as_slice()) {
            Put::Done => Status::Done,
            Put::Failed => Status::WriteFault,
        }
    }
}
