//! Steps of a core.

ghost use Rattle.std.specs.Prelude.{IfOk};
ghost use Rattle.agent_settings.specs.Config.{InLimits};

use agent_config::ConfigFault;
use agent_core::Core;
use agent_events::{Input, Output};
use agent_settings::Config;
use peer_machine::Phase;
use radius_packet::{Reason, Via};
use std::alloc::Global;
use std::hash::RandomState;
use std::process::Abort;
use std::test::Fail;
use wire_core::{NoMemory, Octets};

/// Settings with one client.
pub(crate) fn settings(alloc: Global) -> Result<Config, ConfigFault>
    ensures { IfOk result InLimits }
{
    agent_config::settings_are_in_limits();
    agent_config::read(
        alloc,
        b"host = \"agent.example\"
realm = \"example\"
address = \"192.0.2.1\"
boot = 7
capacity = 64
[[clients]]
name = \"nas1\"
address = \"192.168.1.16\"
secret = \"xyzzy5461\"
origin_host = \"nas1.example\"
origin_realm = \"example\"
",
    )
}

/// A request with User-Name, NAS-Identifier and NAS-Port.
fn login(alloc: Global) -> Result<Input, NoMemory> {
    Ok(Input::Datagram {
        via: Via::Auth,
        address: 0xc0a8_0110,
        port: 1812,
        octets: Octets::copy(
            alloc,
            b"\x01\x05\x00\x26\x00\x01\x02\x03\x04\x05\x06\x07\x08\x09\x0a\x0b\x0c\x0d\x0e\x0f\
            \x01\x06nemo\x20\x06nas1\x05\x06\x00\x00\x00\x03",
        )?,
    })
}

/// A message of no octets.
fn no_message(alloc: Global) -> Result<Input, NoMemory> {
    let octets = Octets::copy(alloc, &[])?;
    Ok(Input::Message { octets })
}

/// Why the first output says that nothing is done.
fn first_reason(outputs: &[Output]) -> Option<Reason> {
    match outputs.first() {
        Some(Output::Dropped { reason }) => Some(*reason),
        _ => None,
    }
}

/// How many outputs a step has, and why the first says that nothing is done.
fn step(
    core: &mut Core,
    alloc: Global,
    input: &Input,
) -> Result<(usize, Option<Reason>), NoMemory> {
    let outputs = core.step(alloc, 5, input)?;
    Ok((outputs.as_slice().len(), first_reason(outputs.as_slice())))
}

/// What was sent since the last Drain, and how many requests live and wait at a moment.
fn counts(core: &Core, moment: u64) -> (u32, u32, u32) {
    (core.outbox(), core.live(moment), core.waiting(moment))
}

/// The link begins, a request is taken up, and octets come that are no message.
fn walk(rt: &impl Abort, alloc: Global, core: &mut Core) -> Result<(), Fail> {
    assert!(rt; core.phase() == Phase::Closed && core.begins(&Input::Ready));
    assert!(rt; step(core, alloc, &Input::Ready)? == (0, None));
    assert!(rt; core.phase() == Phase::Serving && !core.begins(&Input::Ready));
    assert!(rt; counts(core, 6) == (0, 0, 0) && core.config().capacity == 64);
    assert!(rt; step(core, alloc, &login(alloc)?)? == (1, None));
    assert!(rt; counts(core, 6) == (1, 1, 1) && counts(core, 30_005) == (1, 0, 0));
    assert!(rt; step(core, alloc, &no_message(alloc)?)? == (1, Some(Reason::BadMessage)));
    Ok(())
}

#[test]
fn a_core_takes_up_a_request(rt: HostRuntime) -> Result<(), Fail> {
    let mut core = Core::new(rt.alloc(), RandomState::new(&rt)?, settings(rt.alloc())?)?;
    let walked = walk(&rt, rt.alloc(), &mut core);
    drop(core);
    walked
}
