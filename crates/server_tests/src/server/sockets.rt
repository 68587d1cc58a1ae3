//! The replies of both sockets, and what becomes of a socket that fails.

use super::octets::{ACCEPTED, BEGUN, LOGIN, START, STARTED, SUCCESS, datagram};
use super::runs::{
    ASKED, ASKED_TWICE, GREETED, Play, REPLIED, Ran, SERVES, SERVING, Says, heard, run,
};
use agent_status::Status;
use std::alloc::Global;
use std::test::Fail;

/// What happens in these runs besides: the socket for accounting hands out a reply by its twin, the socket for logins does
/// itself, and that for accounting does.
const ACCT_REPLIED: u64 = 1 << 5;

const REPEATED: u64 = 1 << 6;

const ACCT_REPEATED: u64 = 1 << 7;

/// A login and the beginning of a session, each of which comes again once it was replied to. The home server answers the
/// second one first.
fn ask_both(alloc: Global, play: &mut Play) -> Result<(), Fail> {
    play.auth.comes(alloc, LOGIN, SERVING)?;
    play.auth.comes(alloc, LOGIN, REPLIED)?;
    play.auth.raises.push(REPEATED)?;
    play.auth.twin_raises.push(REPLIED)?;
    play.acct.comes(alloc, START, ASKED)?;
    play.acct.comes(alloc, START, ACCT_REPLIED)?;
    play.acct.raises.push(ACCT_REPEATED)?;
    play.acct.twin_raises.push(ACCT_REPLIED)?;
    play.link(
        &[
            SERVES,
            heard(Says::Message(&BEGUN, 1, 2), ASKED_TWICE),
            heard(Says::Message(&ACCEPTED, 0, 1), 0),
        ],
        &[GREETED, ASKED, ASKED_TWICE],
    )
}

/// Whether the run ended well, the answers go out by the twins, and the kept replies by the sockets themselves.
fn is_replied_by_port(alloc: Global, ran: &Ran) -> Result<bool, Fail> {
    let success = [datagram(alloc, SUCCESS)?];
    let started = [datagram(alloc, STARTED)?];
    let by_twins = ran.trail.auth_twin.handed() == success.as_slice()
        && ran.trail.acct_twin.handed() == started.as_slice();
    Ok(
        ran.status == Status::Done
            && by_twins
            && ran.auth.handed() == success.as_slice()
            && ran.acct.handed() == started.as_slice(),
    )
}

#[test]
fn each_port_has_its_replies(rt: HostRuntime) -> Result<(), Fail> {
    let mut play = Play::new(rt, REPEATED | ACCT_REPEATED)?;
    ask_both(rt.alloc(), &mut play)?;
    let ran = run(rt, play)?;
    let by_port = is_replied_by_port(rt.alloc(), &ran);
    drop(ran);
    assert!(rt; by_port?);
    Ok(())
}

/// One link, on which a login is asked and answered. It comes again once its reply was handed out.
fn ask(alloc: Global, play: &mut Play) -> Result<(), Fail> {
    play.auth.comes(alloc, LOGIN, SERVING)?;
    play.auth.comes(alloc, LOGIN, REPLIED)?;
    play.auth.raises.push(REPEATED)?;
    play.auth.twin_raises.push(REPLIED)?;
    play.link(
        &[SERVES, heard(Says::Message(&ACCEPTED, 0, 1), ASKED)],
        &[GREETED, ASKED],
    )
}

/// Whether the run ended well, though the twin's send failed, and the socket handed out the success.
fn is_kept(alloc: Global, ran: &Ran) -> Result<bool, Fail> {
    let success = [datagram(alloc, SUCCESS)?];
    Ok(
        ran.status == Status::Done
            && ran.trail.auth_twin.faults() == 1
            && ran.auth.handed() == success.as_slice(),
    )
}

#[test]
fn reply_that_could_not_be_sent_is_kept(rt: HostRuntime) -> Result<(), Fail> {
    let mut play = Play::new(rt, REPEATED)?;
    ask(rt.alloc(), &mut play)?;
    play.auth.failing_sends = 1;
    let ran = run(rt, play)?;
    let kept = is_kept(rt.alloc(), &ran);
    drop(ran);
    assert!(rt; kept?);
    Ok(())
}

/// Nothing else ends the run, but for the clock after very many readings.
#[test]
fn socket_that_fails_ends_the_run(rt: HostRuntime) -> Result<(), Fail> {
    let mut play = Play::new(rt, ACCT_REPEATED)?;
    play.acct.failing_receives = 16;
    let ran = run(rt, play)?;
    let fails = ran.status == Status::DatagramFault && ran.acct.faults() == 16;
    drop(ran);
    assert!(rt; fails);
    Ok(())
}

/// The socket's second datagram is waited for within the look, until the reader of the link has handed out the reply. So the
/// look is in vain unless both readers run beside each other.
#[test]
fn readers_run_beside_each_other(rt: HostRuntime) -> Result<(), Fail> {
    let mut play = Play::new(rt, REPEATED)?;
    ask(rt.alloc(), &mut play)?;
    play.auth.insist();
    let ran = run(rt, play)?;
    let all = GREETED | SERVING | ASKED | REPLIED | REPEATED;
    let finds = ran.raised == all && ran.status == Status::Done;
    drop(ran);
    assert!(rt; finds);
    Ok(())
}
