//! The statuses that no run of the gate ends with.

use agent_status::Status;
use diameter_message::FrameFault;
use peer_machine::LinkCause;
use std::alloc::Global;

/// Whether the status is told so: by its name with what it holds, and its number.
pub(crate) fn is_told(alloc: Global, status: &Status, wanted: &str) -> bool {
    match format!(in alloc; "{status} {}", status.number()) {
        Ok(told) => told.as_str() == wanted,
        Err(_) => false,
    }
}

/// Whether a run that ends for this cause is told so.
fn is_ended(alloc: Global, cause: LinkCause, wanted: &str) -> bool {
    is_told(alloc, &Status::LinkEnded { cause }, wanted)
}

/// Whether the causes that hold a number or a fault are told with it.
fn have_values(alloc: Global) -> bool {
    let fault = FrameFault::BadLength;
    is_ended(
        alloc,
        LinkCause::Refused { result: 5010 },
        "LinkEnded Refused 5010 11",
    ) && is_ended(
        alloc,
        LinkCause::PeerLeft { cause: 2 },
        "LinkEnded PeerLeft 2 11",
    ) && is_ended(
        alloc,
        LinkCause::Broken { fault },
        "LinkEnded Broken BadLength 11",
    )
}

/// Whether the causes that hold nothing are told by their names.
fn have_names(alloc: Global) -> bool {
    is_ended(alloc, LinkCause::Ended, "LinkEnded Ended 11")
        && is_ended(alloc, LinkCause::Watchdog, "LinkEnded Watchdog 11")
        && is_ended(alloc, LinkCause::Stalled, "LinkEnded Stalled 11")
}

#[test]
fn names_of_statuses(rt: HostRuntime) {
    let refused = Status::PeerRefused { result: 5010 };
    assert!(rt; is_told(rt.alloc(), &refused, "PeerRefused 5010 7"));
    assert!(rt; is_told(rt.alloc(), &Status::NoThread, "NoThread 8"));
    assert!(rt; is_told(rt.alloc(), &Status::OutOfMemory, "OutOfMemory 9"));
    assert!(rt; have_values(rt.alloc()));
    assert!(rt; have_names(rt.alloc()));
}
