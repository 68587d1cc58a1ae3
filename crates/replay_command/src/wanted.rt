//! What a message says of a bad line.

/// What was wanted in place of a line of a transcript, by its number and the reason why it is bad.
pub fn wanted_in_transcript(line: u64, reason: u32) -> &'static str {
    match reason {
        1 => "expected at most 140000 octets",
        2 if line == 1 => "expected an agent line",
        2 => "expected an event line, or a client line before all events",
        3 => "a word isn't of its kind or not within its limits",
        _ => "another client has this address",
    }
}
