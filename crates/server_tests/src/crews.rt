//! Threads of a crew, and the clock of the system.

ghost use Rattle.std.specs.Prelude.{◌≡◌, ◌+◌, ⊤};

use crate::calls::now;
use std::alloc::{AllocError, Global};
use std::sync::{Arc, Barrier, Wait};
use std::test::Fail;
use wire_devices::{Crew, Job, SystemClock, ThreadCrew, ThreadHelper};

/// Waits until all who meet are there, and gives one more than its number.
#[derive(Drop)]
struct Guest {
    meeting: Arc<Barrier>,
    number: u32,
}

impl Job for Guest {
    type Done = u64;

    ghost can = { λ _. ⊤ };

    ghost gives = { λ guest done. done ≡ guest.number + 1 };

    fn run<R: Wait>(self, rt: &R) -> u64 {
        self.meeting.wait(rt);
        u64::from(self.number) + 1
    }
}

fn begin<W: Crew<Guest>>(crew: &mut W, guest: Guest) -> Result<ThreadHelper<Guest>, Guest> {
    crew.start(guest)
}

fn end<W: Crew<Guest>>(crew: &mut W, helper: ThreadHelper<Guest>) -> u64 {
    crew.finish(helper)
}

/// Three guests, numbered from 1.
fn invite(alloc: Global, meeting: &Arc<Barrier>) -> Result<Vec<Guest>, AllocError> {
    let mut guests = Vec::new(alloc);
    for number in 1..4 {
        let meeting = Arc::try_clone(meeting)?;
        guests.push(Guest { meeting, number })?;
    }
    Ok(guests)
}

/// Starts the last guest. One whose start is refused is the last one again.
fn start_last<W: Crew<Guest>>(
    crew: &mut W,
    guests: &mut Vec<Guest>,
    helpers: &mut Vec<ThreadHelper<Guest>>,
) -> bool {
    let Some(guest) = guests.pop() else {
        return false;
    };
    match begin(crew, guest) {
        Ok(helper) => helpers.push(helper).is_ok(),
        Err(guest) => {
            let _ = guests.push(guest);
            false
        }
    }
}

/// What came of the guest that was started last.
fn end_last<W: Crew<Guest>>(crew: &mut W, helpers: &mut Vec<ThreadHelper<Guest>>) -> u64 {
    match helpers.pop() {
        Some(helper) => end(crew, helper),
        None => 0,
    }
}

/// The second start is refused. Each guest waits for the other two, so they run beside each other.
fn meet<W: Crew<Guest>>(
    crew: &mut W,
    guests: &mut Vec<Guest>,
    helpers: &mut Vec<ThreadHelper<Guest>>,
) -> bool {
    start_last(crew, guests, helpers)
        && !start_last(crew, guests, helpers)
        && start_last(crew, guests, helpers)
        && start_last(crew, guests, helpers)
        && end_last(crew, helpers) == 2
        && end_last(crew, helpers) == 3
        && end_last(crew, helpers) == 4
}

#[test]
fn three_threads_meet(rt: HostRuntime) -> Result<(), Fail> {
    let alloc = rt.alloc();
    let meeting = Arc::new(alloc, Barrier::new(3))?;
    let mut guests = invite(alloc, &meeting)?;
    let mut helpers = Vec::new(alloc);
    let mut crew = ThreadCrew::new(alloc, rt, vec![in alloc; 1]?);
    assert!(rt; meet(&mut crew, &mut guests, &mut helpers));
    Ok(())
}

/// Past 2020, and it goes on.
#[test]
fn clock_of_the_system(rt: HostRuntime) {
    let mut clock = SystemClock::new(rt);
    let first = now(&mut clock);
    assert!(rt; 1_577_836_800_000 < first);
    assert!(rt; first <= now(&mut clock));
}
