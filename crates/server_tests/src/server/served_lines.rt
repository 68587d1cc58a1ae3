//! The line that tells of a run of the server, where it can't be written.

use super::memory_runs::{CallPlans, ending, world};
use super::settings::SETTINGS;
use agent_status::Status;
use socket_commands::run_server;
use std::alloc::Global;
use std::collections::VecDeque;
use std::hash::RandomState;
use std::sync::Wait;
use std::test::Fail;
use std::thread::Threads;
use wire_core::{MemorySink, MemorySource, NoMemory};
use wire_devices::MemoryClock;

/// How a run ends whose time is over at the second reading of the clock, and whether it has a trail.
fn end<R: Threads + Wait + Copy + Send + Drop + 'static>(
    rt: R,
    alloc: Global,
    random: RandomState,
    output: &mut MemorySink,
) -> Result<(Status, bool), NoMemory> {
    let mut input = MemorySource::new(alloc, SETTINGS, 64, &[])?;
    let clock = MemoryClock::new(vec![in alloc; 0, 100]?);
    let world = world(
        rt,
        alloc,
        clock,
        VecDeque::new(alloc),
        CallPlans::none(alloc),
    );
    let finish = run_server(&rt, alloc, random, 100, &mut input, output, world);
    let (status, links) = ending(finish);
    Ok((status, links.is_some()))
}

/// The first write fails, in the middle of the line.
#[test]
fn line_that_cannot_be_written(rt: HostRuntime) -> Result<(), Fail> {
    let random = RandomState::new(&rt)?;
    let mut output = MemorySink::new(rt.alloc(), 64, &[0])?;
    assert!(rt; end(rt, rt.alloc(), random, &mut output)? == (Status::WriteFault, true));
    Ok(())
}
