//! A crew of threads.

ghost use Rattle.std.specs.Prelude.{◌≡◌, not};
ghost use Rattle.wire_core.specs.Counts.{one_more};
ghost use Rattle.wire_devices.specs.Forms.{plan_of, is_due, next_call};

use crate::jobs::{Crew, Job, MadeStart, RefusedStart};
use crate::plans::CallPlan;
use std::alloc::Global;
use std::marker::Model;
use std::sync::Wait;
use std::thread::Threads;

/// A crew that starts a thread for each job. Some of its starts are refused.
#[derive(Drop)]
pub struct ThreadCrew<R> {
    rt: R,
    alloc: Global,
    starts: CallPlan,
    faults: u64,
    started: u64,
}

impl<R> Model for ThreadCrew<R> {
    ghost use Rattle.wire_devices.specs.Forms.{PlannedStarts};

    ghost Value = { PlannedStarts };

    ghost view = { λ c. record { starts = c.starts; faults = c.faults; started = c.started } };
}

impl<R> ThreadCrew<R> {
    /// A crew of this runtime's threads. The starts whose numbers are in `refused`, counted from 0, are refused.
    pub fn new(alloc: Global, rt: R, refused: Vec<usize>) -> ThreadCrew<R>
        ensures { result ≡ record { starts = plan_of refused.items; faults = 0; started = 0 } }
    {
        ThreadCrew {
            rt,
            alloc,
            starts: CallPlan::new(refused),
            faults: 0,
            started: 0,
        }
    }
}

impl<R: Threads + Wait + Copy + Send + 'static, J: Job> Crew<J> for ThreadCrew<R> {
    type Rt = R;

    ghost faults = { λ c. c.faults };

    ghost started = { λ c. c.started };

    fn runtime(&self) -> R {
        self.rt
    }

    fn alloc(&self) -> Global {
        self.alloc
    }

    fn admits(&mut self) -> bool
        ensures answer { result ≡ not (is_due self.old.starts) }
        ensures plan { self.new.starts ≡ next_call self.old.starts }
        ensures faults { self.new.faults ≡ self.old.faults }
        ensures started { self.new.started ≡ self.old.started }
    {
        !self.starts.fails()
    }

    fn count(&mut self, _refused: RefusedStart)
        ensures plan { self.new.starts ≡ self.old.starts }
        ensures faults { self.new.faults ≡ one_more self.old.faults }
        ensures started { self.new.started ≡ self.old.started }
    {
        self.faults = self.faults.saturating_add(1);
    }

    fn count_started(&mut self, _made: MadeStart)
        ensures plan { self.new.starts ≡ self.old.starts }
        ensures faults { self.new.faults ≡ self.old.faults }
        ensures started { self.new.started ≡ one_more self.old.started }
    {
        self.started = self.started.saturating_add(1);
    }
}
