//! A line of a script.

ghost use Rattle.std.specs.Prelude.{◌≡◌, IfNone, IfOk, IfSome, IsTrue, None};
ghost use Rattle.agent_settings.specs.Config as settings;
ghost use Rattle.text_lines.specs.Reads.{Reads};
ghost use Rattle.text_lines.specs.Views.{plain};
ghost use Rattle.reverse_script.specs.Script as script;
ghost use Rattle.reverse_script.specs.Running.{IsInLimits, Says, fault_of, own_told};

use crate::kind::{EventName, Kind, kind_of};
use reverse_core::ReverseInput;
use reverse_map::Reverse;
use std::alloc::Global;
use text_lines::words::{read_address, read_hex, read_number, read_u16, words_of};
use text_lines::{LONGEST_LINE, WordFault};
use wire_core::{NoMemory, Octets, is_identity};

/// How many octets a message has at most.
const LONGEST_MESSAGE: usize = 65_536;

/// How many octets a name has at most.
const LONGEST_NAME: usize = 64;

/// How many octets a secret has at most.
const LONGEST_SECRET: usize = 128;

/// What a line says.
#[derive(Drop)]
pub(crate) enum ScriptLine {
    /// What the agent goes by.
    Own { own: Reverse },
    /// What comes in, at this moment in milliseconds.
    Event { moment: u64, input: ReverseInput },
}

/// Why a line can't be read.
#[derive(Clone, Copy)]
pub(crate) enum ScriptFault {
    /// The first reason that stands: 1, the line has more than 140,000 octets; 2, its count of words and its fixed words are
    /// those of no line that may stand there; 3, a word isn't of its kind or not within its limits.
    Bad { reason: u32 },
    NoMemory,
}

impl From<NoMemory> for ScriptFault {
    ghost use Rattle.std.specs.Prelude.{◌≡◌};
    ghost use Rattle.reverse_script.specs.declared.line.ScriptFault.TheVariants as faults;

    ghost from_gives = { λ _ e. e ≡ faults.NoMemory };

    fn from(_e: NoMemory) -> ScriptFault {
        ScriptFault::NoMemory
    }
}

/// Whether this is an identity of at most 64 octets.
fn is_name(octets: &[u8]) -> bool
    ensures { result ≡ settings.is_name octets.now }
{
    is_identity(octets) && octets.len() <= LONGEST_NAME
}

fn is_own_in_limits(own: &Reverse) -> bool
    ensures { result ≡ script.is_own_in_limits own.now }
{
    is_name(own.host.as_slice())
        && is_name(own.realm.as_slice())
        && (1..=LONGEST_SECRET).contains(&own.secret.len())
        && (1_000..=300_000).contains(&own.retention)
}

/// The words after `reverse`.
#[derive(Clone, Copy)]
struct OwnWords<'a> {
    host: &'a [u8],
    realm: &'a [u8],
    server: &'a [u8],
    port: &'a [u8],
    secret: &'a [u8],
    retention: &'a [u8],
}

fn own_words<'a>(words: &[&'a [u8]]) -> Option<OwnWords<'a>>
    ensures some { IfSome result (λ found. script.own_of (plain words.now) ≡ own_told found) }
    ensures none { IfNone result (script.own_of (plain words.now) ≡ None) }
{
    let [_, host, realm, server, port, secret, retention, ..] = words else {
        return None;
    };
    Some(OwnWords {
        host,
        realm,
        server,
        port,
        secret,
        retention,
    })
}

fn read_own_words(alloc: Global, words: &OwnWords<'_>) -> Result<Reverse, WordFault>
    ensures exact { Reads result (own_told words.now) }
    ensures limits { IfOk result (λ own. IsTrue (script.is_own_in_limits own)) }
{
    let own = Reverse {
        host: Octets::copy(alloc, words.host)?,
        realm: Octets::copy(alloc, words.realm)?,
        server: read_address(words.server)?,
        port: read_u16(words.port)?,
        secret: read_hex(alloc, words.secret)?,
        retention: read_number(words.retention, u64::MAX)?,
    };
    if is_own_in_limits(&own) {
        Ok(own)
    } else {
        Err(WordFault::Bad)
    }
}

/// What the agent goes by, of the words of its line.
fn read_own(alloc: Global, words: &[&[u8]]) -> Result<Reverse, WordFault>
    ensures exact { Reads result (script.own_of (plain words.now)) }
    ensures limits { IfOk result (λ own. IsTrue (script.is_own_in_limits own)) }
{
    match own_words(words) {
        Some(words) => read_own_words(alloc, &words),
        None => Err(WordFault::Bad),
    }
}

/// Sixteen octets in hex.
fn read_random(alloc: Global, word: &[u8]) -> Result<[u8; 16], WordFault>
    ensures { Reads result (script.random_word word.now) }
{
    let octets = read_hex(alloc, word)?;
    if octets.len() != 16 {
        return Err(WordFault::Bad);
    }
    let mut random = [0; 16];
    random.copy_from_slice(octets.as_slice());
    Ok(random)
}

/// A message in hex.
fn read_message(alloc: Global, word: &[u8]) -> Result<Octets, WordFault>
    ensures { Reads result (script.message_word word.now) }
{
    let octets = read_hex(alloc, word)?;
    if octets.len() <= LONGEST_MESSAGE {
        Ok(octets)
    } else {
        Err(WordFault::Bad)
    }
}

/// A message, and sixteen random octets.
fn read_request(alloc: Global, words: &[&[u8]]) -> Result<ReverseInput, WordFault>
    ensures { Reads result (script.request_of (plain words.now)) }
{
    match words {
        [message, random] => Ok(ReverseInput::Request {
            octets: read_message(alloc, message)?,
            random: read_random(alloc, random)?,
        }),
        _ => Err(WordFault::Bad),
    }
}

/// A datagram.
fn read_reply(alloc: Global, words: &[&[u8]]) -> Result<ReverseInput, WordFault>
    ensures { Reads result (script.reply_of (plain words.now)) }
{
    match words {
        [packet] => Ok(ReverseInput::Reply {
            octets: read_hex(alloc, packet)?,
        }),
        _ => Err(WordFault::Bad),
    }
}

/// What comes in, by the words behind the name.
fn read_input(alloc: Global, name: EventName, words: &[&[u8]]) -> Result<ReverseInput, WordFault>
    ensures { Reads result (script.input_of name (plain words.now)) }
{
    match name {
        EventName::Request => read_request(alloc, words),
        EventName::Reply => read_reply(alloc, words),
        EventName::Tick => Ok(ReverseInput::Tick),
    }
}

/// The moment, and what came in then.
fn read_event(
    alloc: Global,
    name: EventName,
    words: &[&[u8]],
) -> Result<(u64, ReverseInput), WordFault>
    ensures { Reads result (script.event_of name (plain words.now)) }
{
    match words {
        [moment, _, rest @ ..] => {
            let moment = read_number(moment, u64::MAX)?;
            let input = read_input(alloc, name, rest)?;
            Ok((moment, input))
        }
        _ => Err(WordFault::Bad),
    }
}

/// Why words of some kind tell nothing.
fn script_fault(fault: WordFault) -> ScriptFault
    ensures { result ≡ fault_of fault }
{
    match fault {
        WordFault::Bad => ScriptFault::Bad { reason: 3 },
        WordFault::NoMemory => ScriptFault::NoMemory,
    }
}

/// What words of this kind tell.
fn read_kind(alloc: Global, kind: Kind, words: &[&[u8]]) -> Result<ScriptLine, ScriptFault>
    ensures exact { Says result (script.told_by kind (plain words.now)) }
    ensures limits { IfOk result IsInLimits }
{
    match kind {
        Kind::Own => match read_own(alloc, words) {
            Ok(own) => Ok(ScriptLine::Own { own }),
            Err(fault) => Err(script_fault(fault)),
        },
        Kind::Event(name) => match read_event(alloc, name, words) {
            Ok((moment, input)) => Ok(ScriptLine::Event { moment, input }),
            Err(fault) => Err(script_fault(fault)),
        },
    }
}

/// Whether a line of this kind may stand behind the settings, or before them.
fn may_stand(begun: bool, kind: Kind) -> bool
    ensures { result ≡ script.may_stand begun kind }
{
    match kind {
        Kind::Own => !begun,
        Kind::Event(_) => begun,
    }
}

/// What a line of these words says.
fn read_words(alloc: Global, begun: bool, words: &[&[u8]]) -> Result<ScriptLine, ScriptFault>
    ensures exact { Says result
        (script.read_words begun (script.kind_of (plain words.now)) (plain words.now)) }
    ensures limits { IfOk result IsInLimits }
{
    match kind_of(words) {
        Some(kind) if may_stand(begun, kind) => read_kind(alloc, kind, words),
        _ => Err(ScriptFault::Bad { reason: 2 }),
    }
}

/// What a line says that stands behind the settings, or before them.
pub(crate) fn read_line(alloc: Global, begun: bool, line: &[u8]) -> Result<ScriptLine, ScriptFault>
    ensures exact { Says result (script.read_line begun line.now) }
    ensures limits { IfOk result IsInLimits }
{
    if LONGEST_LINE < line.len() {
        return Err(ScriptFault::Bad { reason: 1 });
    }
    let words = words_of(alloc, line)?;
    read_words(alloc, begun, &words)
}
