//! The rules of the link: what is done about an input, and what the link is then.

ghost use Rattle.std.specs.Prelude.{◌≡◌, ◌-◌, ◌<◌, ◌^◌};
ghost use Rattle.peer_machine.specs.Rules as specs;

use crate::words::{Act, BaseRequest, Event, LinkState, Said};
use crate::{LinkCause, Phase};
use diameter_message::is_success;
use radius_packet::Reason;

/// Result codes (RFC 6733, section 7.1).
const SUCCESS: u32 = 2001;

const COMMAND_UNSUPPORTED: u32 = 3001;

const UNABLE_TO_COMPLY: u32 = 5012;

/// Requests of a link are counted below this.
const REQUESTS: u32 = 0x8000_0000;

const WRONG_PHASE: Act = Act::Discard {
    reason: Reason::WrongPhase,
};

fn greeted(code: u32) -> Act
    ensures { result ≡ specs.greeted code }
{
    if is_success(code) {
        Act::Serve
    } else {
        Act::Close {
            cause: LinkCause::Refused { result: code },
        }
    }
}

/// A message while the link serves or closes.
fn open_said(said: Said) -> Act
    ensures { result ≡ specs.open_said said }
{
    match said {
        Said::WatchdogRequest => Act::Answer {
            code: SUCCESS,
            error: false,
        },
        Said::WatchdogAnswer => Act::Nothing,
        Said::DisconnectRequest { cause } => Act::AnswerAndClose {
            code: SUCCESS,
            cause: LinkCause::PeerLeft { cause },
        },
        Said::SessionRequest => Act::Answer {
            code: UNABLE_TO_COMPLY,
            error: false,
        },
        Said::OtherRequest => Act::Answer {
            code: COMMAND_UNSUPPORTED,
            error: true,
        },
        Said::DisconnectAnswer | Said::CapabilitiesRequest => WRONG_PHASE,
        Said::ApplicationAnswer => Act::Pass,
        Said::CapabilitiesAnswer { .. } | Said::OtherAnswer => Act::Discard {
            reason: Reason::Unmatched,
        },
    }
}

fn greeting_said(said: Said) -> Act
    ensures { result ≡ specs.greeting_said said }
{
    match said {
        Said::CapabilitiesAnswer { result: code } => greeted(code),
        _ => WRONG_PHASE,
    }
}

fn closing_said(said: Said) -> Act
    ensures { result ≡ specs.closing_said said }
{
    match said {
        Said::DisconnectAnswer => Act::Close {
            cause: LinkCause::Left,
        },
        _ => open_said(said),
    }
}

fn on_said(phase: Phase, said: Said) -> Act
    ensures { result ≡ specs.on_said phase said }
{
    match phase {
        Phase::Closed => WRONG_PHASE,
        Phase::Greeting => greeting_said(said),
        Phase::Serving => open_said(said),
        Phase::Closing => closing_said(said),
    }
}

/// Whether this moment is the watchdog's time past that one. A sum past the greatest moment is never reached.
fn is_past(since: u64, watchdog: u64, moment: u64) -> bool
    ensures { result ≡ specs.is_past since watchdog moment }
{
    match since.checked_add(watchdog) {
        Some(due) => due <= moment,
        None => false,
    }
}

/// `act` where the time is over, else nothing.
fn if_past(since: u64, watchdog: u64, moment: u64, act: Act) -> Act
    ensures { result ≡ specs.if_past since watchdog moment act }
{
    if is_past(since, watchdog, moment) {
        act
    } else {
        Act::Nothing
    }
}

fn serving_tick(link: LinkState, watchdog: u64, moment: u64) -> Act
    ensures { result ≡ specs.serving_tick link.asked link.heard watchdog moment }
{
    match link.asked {
        None => if_past(
            link.heard,
            watchdog,
            moment,
            Act::Request {
                request: BaseRequest::DeviceWatchdog,
            },
        ),
        Some(asked) => if_past(
            asked,
            watchdog,
            moment,
            Act::Close {
                cause: LinkCause::Watchdog,
            },
        ),
    }
}

fn on_tick(link: LinkState, watchdog: u64, moment: u64) -> Act
    ensures { result ≡ specs.on_tick link.phase link watchdog moment }
{
    match link.phase {
        Phase::Closed => Act::Nothing,
        Phase::Greeting => if_past(
            link.heard,
            watchdog,
            moment,
            Act::Close {
                cause: LinkCause::Watchdog,
            },
        ),
        Phase::Serving => serving_tick(link, watchdog, moment),
        Phase::Closing => if_past(
            link.leave,
            watchdog,
            moment,
            Act::Close {
                cause: LinkCause::Left,
            },
        ),
    }
}

/// Whether an Up or a Ready begins a link.
fn may_begin(link: LinkState) -> bool
    ensures { result ≡ specs.may_begin link.phase link.number }
{
    match link.phase {
        Phase::Closed => link.number < u64::MAX,
        Phase::Greeting | Phase::Serving | Phase::Closing => false,
    }
}

fn on_begin(link: LinkState, act: Act) -> Act
    ensures { result ≡ specs.on_begin link act }
{
    if may_begin(link) { act } else { WRONG_PHASE }
}

fn on_end(phase: Phase, cause: LinkCause) -> Act
    ensures { result ≡ specs.on_end phase cause }
{
    match phase {
        Phase::Closed => WRONG_PHASE,
        Phase::Greeting | Phase::Serving | Phase::Closing => Act::Close { cause },
    }
}

fn on_leave(phase: Phase) -> Act
    ensures { result ≡ specs.on_leave phase }
{
    match phase {
        Phase::Closed | Phase::Closing => WRONG_PHASE,
        Phase::Greeting => Act::Close {
            cause: LinkCause::Left,
        },
        Phase::Serving => Act::Request {
            request: BaseRequest::DisconnectPeer,
        },
    }
}

/// What is done about an input, by the state before it.
pub(crate) fn act_on(link: LinkState, watchdog: u64, moment: u64, event: Event) -> Act
    ensures { result ≡ specs.act_on link watchdog moment event }
{
    match event {
        Event::Opens => on_begin(
            link,
            Act::Request {
                request: BaseRequest::CapabilitiesExchange,
            },
        ),
        Event::Serves => on_begin(link, Act::Serve),
        Event::Says { said } => on_said(link.phase, said),
        Event::Breaks { fault } => on_end(link.phase, LinkCause::Broken { fault }),
        Event::Ends => on_end(link.phase, LinkCause::Ended),
        Event::Ticks => on_tick(link, watchdog, moment),
        Event::Leaves => on_leave(link.phase),
    }
}

/// The same where there is room; else a message of the link's own closes it.
pub(crate) fn if_room(spare: bool, act: Act) -> Act
    ensures { result ≡ specs.if_room spare act }
{
    match act {
        Act::Request { .. } | Act::Answer { .. } | Act::AnswerAndClose { .. } if !spare => {
            Act::Close {
                cause: LinkCause::Stalled,
            }
        }
        _ => act,
    }
}

fn begun(link: LinkState, moment: u64) -> LinkState
    requires { link.number < 2 ^ 64 - 1 }
    ensures { result ≡ specs.begun link moment }
{
    LinkState {
        phase: link.phase,
        number: link.number + 1,
        heard: moment,
        asked: None,
        leave: 0,
        requests: 0,
    }
}

fn if_begun(link: LinkState, moment: u64) -> LinkState
    requires { link.requests < 2 ^ 31 }
    ensures state { result ≡ specs.if_begun link moment }
    ensures few { result.requests < 2 ^ 31 }
{
    if may_begin(link) {
        begun(link, moment)
    } else {
        link
    }
}

fn heard_at(link: LinkState, moment: u64) -> LinkState
    requires { link.requests < 2 ^ 31 }
    ensures state { result ≡ specs.heard_at link.phase link moment }
    ensures few { result.requests < 2 ^ 31 }
{
    match link.phase {
        Phase::Closed => link,
        Phase::Greeting | Phase::Serving | Phase::Closing => LinkState {
            heard: moment,
            asked: None,
            ..link
        },
    }
}

/// The link with what the input itself changes.
pub(crate) fn noted(link: LinkState, moment: u64, event: Event) -> LinkState
    requires { link.requests < 2 ^ 31 }
    ensures state { result ≡ specs.after_event link moment event }
    ensures few { result.requests < 2 ^ 31 }
{
    match event {
        Event::Opens | Event::Serves => if_begun(link, moment),
        Event::Says { .. } => heard_at(link, moment),
        Event::Breaks { .. } | Event::Ends | Event::Ticks | Event::Leaves => link,
    }
}

fn requested(link: LinkState, moment: u64, request: BaseRequest) -> LinkState
    requires { link.requests < 2 ^ 31 }
    ensures state { result ≡ specs.requested link moment request }
    ensures few { result.requests < 2 ^ 31 }
{
    match request {
        BaseRequest::CapabilitiesExchange => LinkState {
            phase: Phase::Greeting,
            ..link
        },
        BaseRequest::DeviceWatchdog => LinkState {
            asked: Some(moment),
            ..link
        },
        BaseRequest::DisconnectPeer => LinkState {
            phase: Phase::Closing,
            leave: moment,
            ..link
        },
    }
}

fn counted(link: LinkState) -> LinkState
    requires { link.requests < 2 ^ 31 }
    ensures state { result ≡ specs.counted link }
    ensures few { result.requests < 2 ^ 31 }
{
    LinkState {
        requests: (link.requests + 1) % REQUESTS,
        ..link
    }
}

/// The link with what is done.
pub(crate) fn after(link: LinkState, moment: u64, act: Act) -> LinkState
    requires { link.requests < 2 ^ 31 }
    ensures state { result ≡ specs.after link moment act }
    ensures few { result.requests < 2 ^ 31 }
{
    match act {
        Act::Serve => LinkState {
            phase: Phase::Serving,
            ..link
        },
        Act::Close { .. } | Act::AnswerAndClose { .. } => LinkState {
            phase: Phase::Closed,
            ..link
        },
        Act::Request { request } => requested(counted(link), moment, request),
        Act::Nothing | Act::Discard { .. } | Act::Pass | Act::Answer { .. } => link,
    }
}
