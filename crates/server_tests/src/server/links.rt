//! Links that fail and end, and what is sent again on later ones.

use super::octets::{
    ACCEPTED, AGAIN, CAPABILITIES, CAPABLE, LOGIN, OTHER_LOGIN, REJECT, REJECTED, SECOND_ACCEPTED,
    SECOND_AGAIN, SECOND_REJECTED, SUCCESS, base, datagram, message,
};
use super::runs::{
    ASKED, ASKED_TWICE, GREETED, Play, REPLIED, Ran, SERVES, SERVING, Says, heard, run,
};
use super::waiting::WaitingOut;
use agent_status::Status;
use std::alloc::Global;
use std::sync::Wait;
use std::test::Fail;
use std::thread::Threads;
use wire_core::Octets;

/// What happens in these runs besides: the agent's capabilities are sent on the second link, a request is sent again on it,
/// and both on the third.
const GREETED_SECOND: u64 = 1 << 5;

const AGAIN_ON_SECOND: u64 = 1 << 6;

const GREETED_THIRD: u64 = 1 << 7;

const AGAIN_ON_THIRD: u64 = 1 << 8;

fn has_sent(link: &WaitingOut, number: usize, message: &Octets) -> bool {
    link.sent(number) == Some(message)
}

/// How the first of two links goes.
#[derive(Clone, Copy)]
enum First {
    CannotSend,
    CannotReceive,
    Ends,
}

/// The second link lasts until the agent's capabilities are sent on it.
fn open_twice(play: &mut Play, first: First) -> Result<(), Fail> {
    let opened = match first {
        First::CannotSend => play.failing_link(),
        First::CannotReceive => play.link(&[heard(Says::Fault, 0)], &[]),
        First::Ends => play.link(&[heard(Says::End, 0)], &[]),
    };
    opened?;
    play.link(&[], &[GREETED_SECOND])
}

/// Whether a run whose first link goes so has a second one, and nothing else.
fn links_again<R: Threads + Wait + Copy + Send + Drop + 'static>(
    rt: R,
    host: HostRuntime,
    first: First,
) -> Result<bool, Fail> {
    let mut play = Play::new(host, GREETED_SECOND)?;
    open_twice(&mut play, first)?;
    let ran = run(rt, play)?;
    Ok(
        ran.raised == GREETED_SECOND
            && ran.status == Status::Done
            && ran.trail.links.as_slice().len() == 2,
    )
}

#[test]
fn after_a_failed_link_another_is_dialled(rt: HostRuntime) -> Result<(), Fail> {
    for first in [First::CannotSend, First::CannotReceive, First::Ends] {
        assert!(rt; links_again(rt, rt, first)?);
    }
    Ok(())
}

/// The first link serves and takes a login, and then it ends. The second takes the answer.
fn reopen(alloc: Global, play: &mut Play) -> Result<(), Fail> {
    play.auth.comes(alloc, LOGIN, SERVING)?;
    play.auth.twin_raises.push(REPLIED)?;
    play.link(&[SERVES, heard(Says::End, ASKED)], &[GREETED, ASKED])?;
    play.link(
        &[
            heard(Says::Base(&CAPABLE, 2), GREETED_SECOND),
            heard(Says::Message(&ACCEPTED, 0, 1), AGAIN_ON_SECOND),
        ],
        &[GREETED_SECOND, AGAIN_ON_SECOND],
    )
}

/// Whether the run ended well, and this went out on the two links and to the access server.
fn is_sent_again(alloc: Global, ran: &Ran) -> Result<bool, Fail> {
    let [first, second] = ran.trail.links.as_slice() else {
        return Ok(false);
    };
    let greeting = base(alloc, &CAPABILITIES, 0)?;
    let next_greeting = base(alloc, &CAPABILITIES, 2)?;
    let again = message(alloc, &AGAIN, 0, 1)?;
    let success = [datagram(alloc, SUCCESS)?];
    Ok(
        ran.status == Status::Done
            && has_sent(&first.link_out, 0, &greeting)
            && has_sent(&second.link_out, 0, &next_greeting)
            && has_sent(&second.link_out, 1, &again)
            && ran.trail.auth_twin.handed() == success.as_slice(),
    )
}

#[test]
fn what_waits_is_sent_again_on_the_next_link(rt: HostRuntime) -> Result<(), Fail> {
    let mut play = Play::new(rt, REPLIED)?;
    reopen(rt.alloc(), &mut play)?;
    let ran = run(rt, play)?;
    let again = is_sent_again(rt.alloc(), &ran);
    drop(ran);
    assert!(rt; again?);
    Ok(())
}

/// On the first link two logins are sent, of which one is answered. The other is sent again on the second link, and then on
/// the third. Its answer by its first number is left alone there, and that by its present number is taken.
fn reopen_twice(alloc: Global, play: &mut Play) -> Result<(), Fail> {
    play.auth.comes(alloc, OTHER_LOGIN, SERVING)?;
    play.auth.comes(alloc, LOGIN, ASKED)?;
    play.auth.twin_raises.extend_from_slice(&[0, REPLIED])?;
    play.link(
        &[
            SERVES,
            heard(Says::Message(&REJECTED, 0, 1), ASKED_TWICE),
            heard(Says::End, 0),
        ],
        &[GREETED, ASKED, ASKED_TWICE],
    )?;
    play.link(
        &[
            heard(Says::Base(&CAPABLE, 3), GREETED_SECOND),
            heard(Says::End, AGAIN_ON_SECOND),
        ],
        &[GREETED_SECOND, AGAIN_ON_SECOND],
    )?;
    play.link(
        &[
            heard(Says::Base(&CAPABLE, 4), GREETED_THIRD),
            heard(Says::Message(&SECOND_ACCEPTED, 1, 2), AGAIN_ON_THIRD),
            heard(Says::Message(&SECOND_REJECTED, 0, 2), 0),
        ],
        &[GREETED_THIRD, AGAIN_ON_THIRD],
    )
}

/// Whether the run ended well, and this went out on the last two links and as the second reply.
fn is_found_late(alloc: Global, ran: &Ran) -> Result<bool, Fail> {
    let [_, second, third] = ran.trail.links.as_slice() else {
        return Ok(false);
    };
    let [_, reply] = ran.trail.auth_twin.handed() else {
        return Ok(false);
    };
    let again = message(alloc, &SECOND_AGAIN, 0, 2)?;
    let reject = datagram(alloc, REJECT)?;
    Ok(
        ran.status == Status::Done
            && has_sent(&second.link_out, 1, &again)
            && has_sent(&third.link_out, 1, &again)
            && *reply == reject,
    )
}

#[test]
fn late_answer_is_found_by_its_new_number(rt: HostRuntime) -> Result<(), Fail> {
    let mut play = Play::new(rt, REPLIED)?;
    reopen_twice(rt.alloc(), &mut play)?;
    let ran = run(rt, play)?;
    let late = is_found_late(rt.alloc(), &ran);
    drop(ran);
    assert!(rt; late?);
    Ok(())
}
