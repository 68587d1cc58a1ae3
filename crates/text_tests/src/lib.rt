//! Tests of settings, statuses, transcripts and the commands over text: of what no command of the built program shows,
//! and each kind of call once.
#![tactic(auto)]

#[cfg(test)]
mod commands;
#[cfg(test)]
mod printers;
#[cfg(test)]
mod readers;
#[cfg(test)]
mod records;
#[cfg(test)]
mod settings;
#[cfg(test)]
mod statuses;
