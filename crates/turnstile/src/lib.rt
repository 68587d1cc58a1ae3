//! A turnstile: threads take turns at one state, which lies in a slot of a table, and each visit is one turn of one
//! list. Passes share the numbers 0 to 3; a turn is taken under the least number of the pass that takes it.
#![tactic(auto)]

mod desk;
mod order;
mod pass;
mod steps;
mod turnstile;
mod view;

pub use desk::Desk;
pub use order::Order;
pub use pass::{Pass, PassOf, Turns, TurnsOf, Unstarted};
pub use turnstile::Turnstile;
pub use view::{Known, Stage, View};
