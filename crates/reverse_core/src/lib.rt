//! The rule of the reverse way: Diameter requests become packets for a RADIUS server, and its replies answer them
//! (RFC 4005, section 9.2; profile).
#![tactic(auto)]

mod considering;
mod core_step;
mod events;
mod kept_answers;
mod key;
mod laws;
mod ledger;
mod open_requests;
mod reading;
mod replying;
mod requests;
mod ticking;
mod values;

pub use core_step::ReverseCore;
pub use events::{ReverseInput, ReverseOutput, ReverseOutputs, ReverseReason};
pub use key::Key;
pub use laws::{
    answers_differ_in_the_hop, keys_are_apart, outputs_are_said, packets_are_images,
    packets_are_the_same, requests_are_limited,
};
pub use requests::{KeptAnswer, OpenRequest, Sent, Taken};
