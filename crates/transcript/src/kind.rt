//! Which line of a transcript words are.

ghost use Rattle.std.specs.Prelude.{◌≡◌};
ghost use Rattle.std.specs.Str.{bytes_eq};
ghost use Rattle.text_lines.specs.Views.{plain};
ghost use Rattle.transcript.specs.Kinds as kinds;

use radius_packet::Via;

/// What an event line's second word names.
#[derive(Clone, Copy)]
pub(crate) enum EventName {
    Datagram(Via),
    Link,
    Up,
    Ready,
    Down,
    Tick,
    Drain,
    Leave,
}

/// A kind of line.
#[derive(Clone, Copy)]
pub(crate) enum Kind {
    Agent,
    Client,
    Event(EventName),
    Control,
}

/// Whether a word is this name.
fn is_name(word: &[u8], name: &[u8]) -> bool
    ensures { result ≡ bytes_eq word.now name.now }
{
    word == name
}

fn event_name(word: &[u8]) -> Option<EventName>
    ensures { result ≡ kinds.event_name word.now }
{
    if is_name(word, b"auth") {
        Some(EventName::Datagram(Via::Auth))
    } else if is_name(word, b"acct") {
        Some(EventName::Datagram(Via::Acct))
    } else if is_name(word, b"link") {
        Some(EventName::Link)
    } else if is_name(word, b"up") {
        Some(EventName::Up)
    } else if is_name(word, b"ready") {
        Some(EventName::Ready)
    } else if is_name(word, b"down") {
        Some(EventName::Down)
    } else if is_name(word, b"tick") {
        Some(EventName::Tick)
    } else if is_name(word, b"drain") {
        Some(EventName::Drain)
    } else if is_name(word, b"leave") {
        Some(EventName::Leave)
    } else {
        None
    }
}

/// How many words stand behind the name.
fn words_behind(name: EventName) -> usize
    ensures { result ≡ kinds.words_behind name }
{
    match name {
        EventName::Datagram(_) => 3,
        EventName::Link => 1,
        EventName::Up
        | EventName::Ready
        | EventName::Down
        | EventName::Tick
        | EventName::Drain
        | EventName::Leave => 0,
    }
}

fn event_kind(words: &[&[u8]]) -> Option<Kind>
    ensures { result ≡ kinds.event_kind (plain words.now) }
{
    match words {
        [_, name, rest @ ..] => {
            let name = event_name(name)?;
            if rest.len() == words_behind(name) {
                Some(Kind::Event(name))
            } else {
                None
            }
        }
        _ => None,
    }
}

/// Whether the words are those of a control line.
fn is_control(words: &[&[u8]]) -> bool
    ensures { result ≡ kinds.is_control (plain words.now) }
{
    match words {
        [_, name, rest @ ..] => *name == b"control".as_slice() && rest.len() == 3,
        _ => false,
    }
}

fn begins_with(name: &[u8], words: &[&[u8]]) -> bool
    ensures { result ≡ kinds.begins_with name.now (plain words.now) }
{
    match words {
        [word, ..] => *word == name,
        [] => false,
    }
}

/// The kind of line that these words are, by their count and their fixed words.
pub(crate) fn kind_of(words: &[&[u8]]) -> Option<Kind>
    ensures { result ≡ kinds.kind_of (plain words.now) }
{
    let count = words.len();
    if (count == 10 || count == 11) && begins_with(b"agent", words) {
        Some(Kind::Agent)
    } else if count == 9 && begins_with(b"client", words) {
        Some(Kind::Client)
    } else if is_control(words) {
        Some(Kind::Control)
    } else {
        event_kind(words)
    }
}
