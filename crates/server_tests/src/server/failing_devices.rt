//! How runs over memory end, some of whose devices fail.

use super::memory_runs::{CallPlans, ending, world};
use super::octets::{CAPABLE, INCAPABLE, base};
use super::settings::settings;
use agent_server::serve;
use agent_status::Status;
use peer_machine::LinkCause;
use std::alloc::{AllocError, Global};
use std::collections::VecDeque;
use std::hash::RandomState;
use std::sync::Wait;
use std::test::Fail;
use std::thread::Threads;
use wire_core::{NoMemory, Octets};
use wire_devices::{Line, MemoryClock, SteadyLine};

/// The moment at which a run ends.
const UNTIL: u64 = 100;

/// So often the clock reads 0 before.
const READINGS: usize = 64;

/// What fails of a run: so many dials at first, all dials after the first, so many receives of each socket at first, the
/// first twin of the socket for accounting, and the start of the worker with this number.
#[derive(Clone, Copy)]
enum Fault {
    Nothing,
    Dials(usize),
    Redials,
    Auth(usize),
    Acct(usize),
    AcctTwin,
    Start(usize),
}

/// The first so many calls fail too.
fn fail_first(calls: &mut Vec<usize>, count: usize) -> Result<(), AllocError> {
    for call in 0..count {
        calls.push(call)?;
    }
    Ok(())
}

/// The first call goes well, and the 16 after it fail.
fn fail_redials(calls: &mut Vec<usize>) -> Result<(), AllocError> {
    for call in 1..17 {
        calls.push(call)?;
    }
    Ok(())
}

fn plans(alloc: Global, fault: Fault) -> Result<CallPlans, AllocError> {
    let mut plans = CallPlans::none(alloc);
    let filled = match fault {
        Fault::Nothing => Ok(()),
        Fault::Dials(count) => fail_first(&mut plans.dials, count),
        Fault::Redials => fail_redials(&mut plans.dials),
        Fault::Auth(count) => fail_first(&mut plans.auth, count),
        Fault::Acct(count) => fail_first(&mut plans.acct, count),
        Fault::AcctTwin => fail_first(&mut plans.acct_twins, 1),
        Fault::Start(number) => {
            plans.starts.push(number)?;
            Ok(())
        }
    };
    filled?;
    Ok(plans)
}

/// How such a run ends, and how many links its trail has, where there is one.
fn wanted(fault: Fault) -> (Status, Option<usize>) {
    match fault {
        Fault::Dials(16) => (Status::LinkFault, None),
        Fault::Redials => (Status::LinkFault, Some(1)),
        Fault::Acct(16) => (Status::DatagramFault, Some(1)),
        Fault::AcctTwin => (Status::DatagramFault, None),
        Fault::Start(3) => (Status::NoThread, Some(2)),
        Fault::Start(_) => (Status::NoThread, None),
        _ => (Status::Done, Some(1)),
    }
}

/// A clock that stands at 0 for so many readings, and reads this from then on.
fn clock(alloc: Global, readings: usize, then: u64) -> Result<MemoryClock, AllocError> {
    let mut moments = vec![in alloc; 0; readings]?;
    moments.push(then)?;
    Ok(MemoryClock::new(moments))
}

/// A link on which these octets come at once, and then nothing for so many looks.
fn line(alloc: Global, octets: &Octets, quiet: usize) -> Result<Line, NoMemory> {
    let mut looks = VecDeque::new(alloc);
    looks.push_back(octets.len())?;
    for _ in 0..quiet {
        looks.push_back(0)?;
    }
    let octets = octets.as_slice().to_vec(alloc)?;
    let script = SteadyLine::new(octets, looks, Vec::new(alloc));
    Ok(Line::new(script, Vec::new(alloc), Vec::new(alloc)))
}

fn only(alloc: Global, line: Line) -> Result<VecDeque<Line>, NoMemory> {
    let mut lines = VecDeque::new(alloc);
    lines.push_back(line)?;
    Ok(lines)
}

/// How a run ends in which these octets come on the only link, and this fails. Each look at the link costs a reading of the
/// clock, so a link with so many quiet looks lasts longer than the run.
fn ends<R: Threads + Wait + Copy + Send + Drop + 'static>(
    rt: R,
    alloc: Global,
    random: RandomState,
    octets: &Octets,
    quiet: usize,
    fault: Fault,
) -> Result<(Status, Option<usize>), Fail> {
    let clock = clock(alloc, quiet, if quiet == 0 { 0 } else { UNTIL })?;
    let plans = plans(alloc, fault)?;
    let lines = only(alloc, line(alloc, octets, quiet)?)?;
    let config = settings(alloc)?;
    let world = world(rt, alloc, clock, lines, plans);
    Ok(ending(serve(&rt, alloc, random, config, world, UNTIL)))
}

#[test]
fn what_fails_says_how_a_run_ends(rt: HostRuntime) -> Result<(), Fail> {
    let alloc = rt.alloc();
    let random = RandomState::new(&rt)?;
    let capable = base(alloc, &CAPABLE, 0)?;
    for fault in [
        Fault::Nothing,
        Fault::Dials(15),
        Fault::Dials(16),
        Fault::Auth(15),
        Fault::Acct(16),
        Fault::AcctTwin,
        Fault::Start(0),
        Fault::Start(1),
        Fault::Start(2),
    ] {
        assert!(rt; ends(rt, alloc, random, &capable, READINGS, fault)? == wanted(fault));
    }
    Ok(())
}

/// The clock stands still, and the first link ends at once, while the readers of the sockets run.
#[test]
fn what_fails_after_the_first_link(rt: HostRuntime) -> Result<(), Fail> {
    let alloc = rt.alloc();
    let random = RandomState::new(&rt)?;
    let capable = base(alloc, &CAPABLE, 0)?;
    for fault in [Fault::Redials, Fault::Start(3)] {
        assert!(rt; ends(rt, alloc, random, &capable, 0, fault)? == wanted(fault));
    }
    Ok(())
}

/// The clock stands still, and the dialer has no link that lasts.
#[test]
fn links_that_end_at_once_wear_a_run_out(rt: HostRuntime) -> Result<(), Fail> {
    let alloc = rt.alloc();
    let random = RandomState::new(&rt)?;
    let clock = clock(alloc, 0, 0)?;
    let config = settings(alloc)?;
    let plans = CallPlans::none(alloc);
    let world = world(rt, alloc, clock, VecDeque::new(alloc), plans);
    let end = ending(serve(&rt, alloc, random, config, world, UNTIL));
    let cause = LinkCause::Ended;
    assert!(rt; end == (Status::LinkEnded { cause }, Some(256)));
    Ok(())
}

/// The clock stands still here too.
#[test]
fn home_server_refuses_the_link(rt: HostRuntime) -> Result<(), Fail> {
    let incapable = base(rt.alloc(), &INCAPABLE, 0)?;
    let random = RandomState::new(&rt)?;
    let end = ends(rt, rt.alloc(), random, &incapable, 0, Fault::Nothing)?;
    assert!(rt; end == (Status::PeerRefused { result: 5010 }, Some(1)));
    Ok(())
}
