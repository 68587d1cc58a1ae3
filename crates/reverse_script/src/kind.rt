//! Which line of a script words are.

ghost use Rattle.std.specs.Prelude.{◌≡◌};
ghost use Rattle.reverse_script.specs.Script as script;
ghost use Rattle.text_lines.specs.Views.{plain};

/// What an event line's second word names.
#[derive(Clone, Copy)]
pub(crate) enum EventName {
    Request,
    Reply,
    Tick,
}

/// A kind of line.
#[derive(Clone, Copy)]
pub(crate) enum Kind {
    Own,
    Event(EventName),
}

fn event_name(word: &[u8]) -> Option<EventName>
    ensures { result ≡ script.event_name word.now }
{
    if word == b"request".as_slice() {
        Some(EventName::Request)
    } else if word == b"reply".as_slice() {
        Some(EventName::Reply)
    } else if word == b"tick".as_slice() {
        Some(EventName::Tick)
    } else {
        None
    }
}

/// How many words stand behind the name.
fn words_behind(name: EventName) -> usize
    ensures { result ≡ script.words_behind name }
{
    match name {
        EventName::Request => 2,
        EventName::Reply => 1,
        EventName::Tick => 0,
    }
}

fn event_kind(words: &[&[u8]]) -> Option<Kind>
    ensures { result ≡ script.event_kind (plain words.now) }
{
    match words {
        [_, name, rest @ ..] => {
            let name = event_name(name)?;
            if rest.len() == words_behind(name) {
                Some(Kind::Event(name))
            } else {
                None
            }
        }
        _ => None,
    }
}

fn begins_with(name: &[u8], words: &[&[u8]]) -> bool
    ensures { result ≡ script.begins_with name.now (plain words.now) }
{
    match words {
        [word, ..] => *word == name,
        [] => false,
    }
}

/// The kind of line that these words are, by their count and their fixed words.
pub(crate) fn kind_of(words: &[&[u8]]) -> Option<Kind>
    ensures { result ≡ script.kind_of (plain words.now) }
{
    if words.len() == 7 && begins_with(b"reverse", words) {
        Some(Kind::Own)
    } else {
        event_kind(words)
    }
}
