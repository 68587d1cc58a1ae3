//! Runs over devices in memory.

ghost use Rattle.std.specs.Prelude.{◌≡◌};

use agent_server::{Finish, World};
use agent_status::Status;
use std::alloc::Global;
use std::collections::VecDeque;
use wire_devices::{Line, MemoryClock, MemoryDatagrams, MemoryDialer, ThreadCrew};

/// The numbers of the calls of each kind that fail.
#[derive(Drop)]
pub(super) struct CallPlans {
    pub dials: Vec<usize>,
    pub auth: Vec<usize>,
    pub acct: Vec<usize>,
    pub acct_twins: Vec<usize>,
    pub starts: Vec<usize>,
}

impl CallPlans {
    /// No call fails.
    pub(super) fn none(alloc: Global) -> CallPlans {
        CallPlans {
            dials: Vec::new(alloc),
            auth: Vec::new(alloc),
            acct: Vec::new(alloc),
            acct_twins: Vec::new(alloc),
            starts: Vec::new(alloc),
        }
    }
}

/// Devices with this clock and these links, to which no datagram comes.
pub(super) fn world<R: Copy>(
    rt: R,
    alloc: Global,
    clock: MemoryClock,
    lines: VecDeque<Line>,
    plans: CallPlans,
) -> World<MemoryClock, MemoryDatagrams, MemoryDialer, ThreadCrew<R>>
    ensures { (result.auth.row ≡ 0) × (result.acct.row ≡ 0) × (result.dialer.told.row ≡ 0) }
{
    let CallPlans {
        dials,
        auth,
        acct,
        acct_twins,
        starts,
    } = plans;
    let looks = VecDeque::new(alloc);
    let no_looks = VecDeque::new(alloc);
    World {
        clock,
        auth: MemoryDatagrams::new(alloc, looks, auth, Vec::new(alloc), Vec::new(alloc)),
        acct: MemoryDatagrams::new(alloc, no_looks, acct, Vec::new(alloc), acct_twins),
        dialer: MemoryDialer::new(alloc, lines, dials),
        crew: ThreadCrew::new(alloc, rt, starts),
    }
}

/// How a run ended, and how many links its trail has, where there is one.
pub(super) fn ending<R: Drop>(
    finish: Finish<MemoryClock, MemoryDatagrams, MemoryDialer, ThreadCrew<R>>,
) -> (Status, Option<usize>) {
    let Finish {
        status,
        world,
        trail,
        home: _,
    } = finish;
    let World {
        clock: _,
        auth: _,
        acct: _,
        dialer: _,
        crew: _,
    } = world;
    (status, trail.map(|trail| trail.links.as_slice().len()))
}
