//! The link's rules where no transcript leads: a link that begins with no room for its first message, and what a step says of a
//! message besides what goes out.

use diameter_message::parse;
use peer_machine::{LinkCause, Peer, PeerInput, Phase};
use std::alloc::Global;
use std::process::Abort;
use std::test::Fail;

/// Whether an answer without AVPs, of this command of an application, is one for the caller.
fn passes(alloc: Global, peer: &mut Peer, command: u8) -> Result<bool, Fail> {
    let mut octets =
        *b"\x01\x00\x00\x14\x40\x00\x01\x00\x00\x00\x00\x01\x00\x00\x00\x00\x00\x70\x00\x00";
    octets[7] = command;
    match parse(&octets) {
        Ok(message) => {
            let output = peer.step(alloc, 2000, PeerInput::Message(&message), true, 0)?;
            Ok(output.application && output.send.is_none() && output.dropped == None)
        }
        Err(_) => Ok(false),
    }
}

/// Whether the agent's leave sends a request.
fn leaves(alloc: Global, peer: &mut Peer) -> Result<bool, Fail> {
    let output = peer.step(alloc, 2000, PeerInput::Leave, true, 0x70_0000)?;
    Ok(output.request && output.send.is_some())
}

/// Answers of the four commands of applications pass while the link serves and while it closes, another one doesn't.
fn answers_pass(rt: &impl Abort, alloc: Global, peer: &mut Peer) -> Result<(), Fail> {
    for command in [9, 12, 15, 19] {
        assert!(rt; passes(alloc, peer, command)?, "{command}");
    }
    assert!(rt; !passes(alloc, peer, 16)?);
    Ok(())
}

fn walk(rt: &impl Abort, alloc: Global, peer: &mut Peer) -> Result<(), Fail> {
    let output = peer.step(alloc, 0, PeerInput::Up, false, 0)?;
    assert!(rt; output.closed == Some(LinkCause::Stalled) && output.send.is_none());
    assert!(rt; peer.phase() == Phase::Closed && peer.link() == 1);
    let _ = peer.step(alloc, 0, PeerInput::Ready, false, 0)?;
    assert!(rt; peer.phase() == Phase::Serving && peer.link() == 2);
    answers_pass(rt, alloc, peer)?;
    assert!(rt; leaves(alloc, peer)?);
    assert!(rt; peer.phase() == Phase::Closing);
    answers_pass(rt, alloc, peer)
}

#[test]
fn a_link_stalls_serves_and_leaves(rt: HostRuntime) -> Result<(), Fail> {
    let mut peer = Peer::new(
        rt.alloc(),
        b"agent.example",
        b"example",
        0xc000_0201,
        7,
        30_000,
    )?;
    let walked = walk(&rt, rt.alloc(), &mut peer);
    drop(peer);
    walked
}
