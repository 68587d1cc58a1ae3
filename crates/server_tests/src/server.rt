//! Turns at a desk of the server.

use agent_core::Core;
use agent_events::Input;
use agent_server::{AgentDesk, Heard};
use peer_machine::LinkCause;
use settings::settings;
use std::hash::RandomState;
use std::sync::Wait;
use std::test::Fail;
use turnstile::Desk;
use wire_core::NoMemory;
use wire_devices::MemoryClock;

mod failing_devices;
mod links;
mod memory_runs;
mod octets;
mod recordings;
mod records;
mod runs;
mod served_lines;
mod settings;
mod sockets;
mod waiting;

/// A turn's answer, in short: the moment, how much went out and was handed over, whether the run is at its end, and whether
/// the link is closed as ended.
type Told = (u64, usize, usize, bool, bool);

fn told(heard: &Heard) -> Told {
    (
        heard.moment,
        heard.outputs.as_slice().len(),
        heard.sends.as_slice().len(),
        heard.finished,
        heard.closed == Some(LinkCause::Ended),
    )
}

fn answers<R: Wait>(
    rt: &R,
    desk: &mut AgentDesk<MemoryClock>,
    input: Input,
    wanted: Told,
) -> Result<bool, NoMemory> {
    Ok(told(&desk.step(rt, input)?) == wanted)
}

/// The clock goes back once. The capabilities go out at the Up, and are handed over at the Drain; a Down closes the link,
/// until the next Up; the last reading is at the end of the run.
fn answers_turns<R: Wait>(rt: &R, desk: &mut AgentDesk<MemoryClock>) -> Result<bool, NoMemory> {
    Ok(
        answers(rt, desk, Input::Up, (10, 0, 0, false, false))?
            && answers(rt, desk, Input::Drain, (20, 0, 1, false, false))?
            && answers(rt, desk, Input::Drain, (20, 0, 0, false, false))?
            && answers(rt, desk, Input::Down, (30, 1, 0, false, true))?
            && answers(rt, desk, Input::Up, (40, 0, 0, false, false))?
            && answers(rt, desk, Input::Drain, (50, 0, 1, true, false))?,
    )
}

#[test]
fn turns_at_a_desk(rt: HostRuntime) -> Result<(), Fail> {
    let clock = MemoryClock::new(vec![in rt.alloc(); 10, 20, 15, 30, 40, 50]?);
    let core = Core::new(rt.alloc(), RandomState::new(&rt)?, settings(rt.alloc())?)?;
    let mut desk = AgentDesk::new(rt.alloc(), core, clock, 50, None);
    let answers = answers_turns(&rt, &mut desk);
    drop(desk);
    assert!(rt; answers?);
    Ok(())
}
