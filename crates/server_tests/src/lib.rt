//! Tests of what no command of the program shows: threads at a turnstile, the devices, and the server over devices that wait
//! for one another or fail.
#![tactic(auto)]

#[cfg(test)]
mod calls;
#[cfg(test)]
mod crews;
#[cfg(test)]
mod datagrams;
#[cfg(test)]
mod links;
#[cfg(test)]
mod server;
#[cfg(test)]
mod turns;
