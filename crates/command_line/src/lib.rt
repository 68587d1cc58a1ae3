//! The commands that the words of the command line name.
#![tactic(auto)]

mod command;
mod sockets;

pub use command::{Command, Places, TextCommand, command_of};
pub use sockets::places;
