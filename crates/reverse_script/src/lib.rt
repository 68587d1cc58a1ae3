//! Scripts of the way from Diameter to a RADIUS server: lines in, lines out.
#![tactic(auto)]

mod command;
mod counts;
mod kind;
mod line;
mod printing;
mod work;

pub use command::reverse;
