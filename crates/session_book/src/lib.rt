//! The book of sessions beside the core: an Abort-Session-Request of the home server becomes a Disconnect-Request to the
//! access server that reported the session (RFC 6733, section 8.5; RFC 5176; profile).
#![tactic(auto)]

mod aborts;
mod answers;
mod book_core;
mod events;
mod laws;
mod ledger;
mod passing;
mod plans;
mod reading;
mod sessions;
mod values;

pub use aborts::{Abort, Asked, OpenAbort, Sent};
pub use book_core::BookCore;
pub use events::{BookInput, BookOutput, BookOutputs, BookReason};
pub use laws::{
    aborts_are_limited, answers_are_told, outputs_are_said, requests_are_the_same,
    the_core_is_given_the_rest,
};
pub use sessions::Entry;
