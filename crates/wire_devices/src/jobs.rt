//! Jobs, and the crews that run each in a thread of its own.

ghost use Rattle.std.specs.Prelude.{◌≡◌, IfOk, IfErr, IsOk, IsErr, MatchResult};
ghost use Rattle.wire_core.specs.Counts.{Counts, one_more};

use std::alloc::Global;
use std::marker::Model;
use std::snapshot::Snapshot;
use std::sync::atomic::{AtomicBool, Ordering};
use std::sync::{Arc, Wait};
use std::thread;
use std::thread::{Promise, PromisedHandle, Threads};

/// Work that is done once, in whatever thread.
pub trait Job: Send + Drop + 'static {
    type Done: Send + Drop + 'static;

    /// Whether it may be run.
    ghost can: { Self → Type 0 };

    /// What may come of it.
    ghost gives: { Self → Self.Done → Type 0 };

    /// Does the work. It may wait for other threads.
    fn run<R: Wait>(self, rt: &R) -> Self::Done
        requires { can self }
        ensures { gives self result };
}

/// Shows that a start was refused. `Crew::start` alone makes it, so nothing else can raise a crew's count.
#[derive(Clone, Copy)]
pub struct RefusedStart(());

/// Shows that a job was started, in the same way.
#[derive(Clone, Copy)]
pub struct MadeStart(());

/// Runs jobs beside each other.
pub trait Crew<J: Job> {
    ghost use Rattle.std.specs.Prelude.{ℕ};

    type Rt: Threads + Wait + Copy + Send + 'static;

    /// How many starts were refused.
    ghost faults: { Self → ℕ };

    /// How many jobs were started.
    ghost started: { Self → ℕ };

    /// The runtime that starts the threads and that the jobs are given.
    fn runtime(&self) -> Self::Rt;

    /// Where a thread's flag is kept.
    fn alloc(&self) -> Global;

    /// Whether a start may be made now. It is asked once a start.
    fn admits(&mut self) -> bool
        ensures faults { faults self.new ≡ faults self.old }
        ensures started { started self.new ≡ started self.old };

    /// Counts a start that was refused.
    fn count(&mut self, refused: RefusedStart)
        ensures faults { faults self.new ≡ one_more (faults self.old) }
        ensures started { started self.new ≡ started self.old };

    /// Counts a job that was started.
    fn count_started(&mut self, made: MadeStart)
        ensures faults { faults self.new ≡ faults self.old }
        ensures started { started self.new ≡ one_more (started self.old) };

    /// Starts the job. A start that is refused hands it back, not run.
    final fn start(&mut self, job: J) -> Result<ThreadHelper<J>, J>
        requires { J.can job }
        ensures ok { IfOk result (λ helper. helper ≡ job) }
        ensures err { IfErr result (λ back. back ≡ job) }
        ensures counts_faults { Counts (IsErr result) (faults self.old) (faults self.new) }
        ensures counts_started { Counts (IsOk result) (started self.old) (started self.new) }
    {
        if !self.admits() {
            self.count(RefusedStart(()));
            return Err(job);
        }
        match begin(self.runtime(), self.alloc(), job) {
            Ok(helper) => {
                self.count_started(MadeStart(()));
                Ok(helper)
            }
            Err(job) => {
                self.count(RefusedStart(()));
                Err(job)
            }
        }
    }

    /// Waits for what came of the job that the helper was started with.
    final fn finish(&mut self, helper: ThreadHelper<J>) -> J::Done
        ensures gives { J.gives helper result }
        ensures faults { faults self.new ≡ faults self.old }
        ensures started { started self.new ≡ started self.old }
    {
        end(&self.runtime(), helper)
    }
}

/// The job that a thread's result is held to.
#[derive(Drop)]
struct Held<J>(Snapshot<J>);

impl<J: Job> Promise<Result<J::Done, J>> for Held<J> {
    ghost kept_by = { λ held r. MatchResult r (λ done. J.gives held.0.value done) (λ job. job ≡ held.0.value) };
}

/// A job that was started. Contracts see it as the job.
#[derive(Drop)]
pub struct ThreadHelper<J: Job> {
    job: Snapshot<J>,
    /// The thread, which gives what came of the job, or the job where it didn't run it; or what came of it.
    state: Result<PromisedHandle<Result<J::Done, J>, Held<J>>, J::Done>,
}

impl<J: Job> Model for ThreadHelper<J> {
    ghost Value = { J };

    ghost view = { λ h. h.job.value };

    ghost invariant = { λ h. J.can h.job.value × MatchResult h.state (λ thread. thread.promise.0.value ≡ h.job.value) (λ done. J.gives h.job.value done) };
}

/// Starts a thread that does the job. Where none can be made the job comes back, since the flag is lowered before the
/// thread's closure is called here.
fn begin<R: Threads + Wait + Copy + Send + 'static, J: Job>(
    rt: R,
    alloc: Global,
    job: J,
) -> Result<ThreadHelper<J>, J>
    requires { J.can job }
    ensures ok { IfOk result (λ helper. helper ≡ job) }
    ensures err { IfErr result (λ back. back ≡ job) }
{
    let Ok(flag) = Arc::new(alloc, AtomicBool::new(true)) else {
        return Err(job);
    };
    let Ok(seen) = Arc::try_clone(&flag) else {
        return Err(job);
    };
    let asked = Snapshot::of(&job);
    let held = Held(Snapshot::of(&job));
    let work = move || -> Result<J::Done, J>
        requires { J.can job }
        ensures { MatchResult result (λ done. J.gives job done) (λ back. back ≡ job) }
    {
        if seen.load(Ordering::SeqCst) {
            Ok(job.run(&rt))
        } else {
            Err(job)
        }
    };
    match thread::spawn_with(&rt, held, work) {
        Ok(thread) => Ok(ThreadHelper {
            job: asked,
            state: Ok(thread),
        }),
        Err(refused) => {
            flag.store(false, Ordering::SeqCst);
            match (refused.value)() {
                Ok(done) => Ok(ThreadHelper {
                    job: asked,
                    state: Err(done),
                }),
                Err(job) => Err(job),
            }
        }
    }
}

/// Waits for the thread. A job that it gave back is run here.
fn end<R: Threads + Wait, J: Job>(rt: &R, helper: ThreadHelper<J>) -> J::Done
    ensures { J.gives helper result }
{
    let ThreadHelper { job: _, state } = helper;
    match state {
        Ok(thread) => match thread.join(rt) {
            Ok(done) => done,
            Err(job) => job.run(rt),
        },
        Err(done) => done,
    }
}
