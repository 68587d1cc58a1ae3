//! The commands that the words of the command line name.

ghost use Rattle.std.specs.Prelude.{◌≡◌, IfSome};
ghost use Rattle.text_lines.specs.Words.{number_word};
ghost use Rattle.command_line.specs.declared.command.Command.{Command};
ghost use Rattle.command_line.specs.Words.{IsSized, IsSizedCommand, plain_command as named_by, counting_command as counting_by, parsed_command as command_of_words, command_with as made_by, count_word, millis_word, peer_at as peer_by, peer_command as peer_by_words, port_word, server_at as server_by, server_command as server_by_words, sized_command as sized_by, span_word};

use address_text::read_address;
use text_lines::number_in;

/// The addresses and ports of the sockets that a command wants.
#[derive(Clone, Copy)]
pub enum Places {
    /// The server listens at `address`, for logins at the port `auth` and for accounting at `acct`. The home server is the
    /// peer.
    Serve {
        address: u32,
        auth: u16,
        acct: u16,
        peer: u32,
        port: u16,
    },
    /// The same, and the run is recorded.
    Record {
        address: u32,
        auth: u16,
        acct: u16,
        peer: u32,
        port: u16,
    },
    /// The home server of the tests listens here.
    Home {
        address: u32,
        port: u16,
    },
    /// The agent listens here, as the client of the tests sees it.
    Nas {
        address: u32,
        port: u16,
    },
}

/// A command that goes from text to text.
#[derive(Clone, Copy)]
pub enum TextCommand {
    Replay,
    /// What a replay is about, in names.
    Trace,
    /// Counters of a replay, a block each so many milliseconds.
    Count { millis: u64 },
    /// A replay with a book of sessions beside the agent.
    Dynamic,
    /// A script of Diameter requests for a RADIUS server.
    Reverse,
    Check,
    Show,
    /// A transcript of so many logins, by this seed.
    Generate { count: u32, seed: u32 },
    /// The end line of that transcript.
    Measure { count: u32, seed: u32 },
}

/// A command.
#[derive(Clone, Copy)]
pub enum Command {
    Text { command: TextCommand },
    /// A run over sockets, for so many milliseconds.
    Run { places: Places, millis: u64 },
}

/// How many logins are generated at most.
const MOST_LOGINS: u64 = 1_000_000;

/// How many milliseconds lie between blocks of counters: a second to a day.
const LEAST_SPAN: u64 = 1_000;

const MOST_SPAN: u64 = 86_400_000;

/// How many milliseconds a run takes at most.
const MOST_MILLIS: u64 = 1 << 63;

/// The command of one word.
fn command_named(word: &str) -> Option<TextCommand>
    ensures exact { result ≡ named_by word.now }
    ensures sized { IfSome result IsSized }
{
    match word {
        "replay" => Some(TextCommand::Replay),
        "trace" => Some(TextCommand::Trace),
        "dynamic" => Some(TextCommand::Dynamic),
        "reverse" => Some(TextCommand::Reverse),
        "check" => Some(TextCommand::Check),
        "show" => Some(TextCommand::Show),
        _ => None,
    }
}

/// How many logins this word asks for.
fn count_in(word: &str) -> Option<u32>
    ensures { result ≡ count_word word.now }
{
    match number_in(word.as_bytes(), MOST_LOGINS) {
        Some(0) => None,
        Some(count) => Some(count as u32),
        None => None,
    }
}

/// The seed that this word is.
fn seed_in(word: &str) -> Option<u32>
    ensures { result ≡ number_word 4294967295 word.now }
{
    match number_in(word.as_bytes(), u64::from(u32::MAX)) {
        Some(seed) => Some(seed as u32),
        None => None,
    }
}

/// The command of a word and two numbers.
fn command_with(word: &str, count: u32, seed: u32) -> Option<TextCommand>
    ensures { result ≡ made_by word.now count seed }
{
    match word {
        "generate" => Some(TextCommand::Generate { count, seed }),
        "measure" => Some(TextCommand::Measure { count, seed }),
        _ => None,
    }
}

/// The command of these three words.
fn sized_command(word: &str, count: &str, seed: &str) -> Option<TextCommand>
    ensures exact { result ≡ sized_by word.now count.now seed.now }
    ensures sized { IfSome result IsSized }
{
    let count = count_in(count)?;
    let seed = seed_in(seed)?;
    command_with(word, count, seed)
}

/// How many milliseconds between blocks this word asks for.
fn span_in(word: &str) -> Option<u64>
    ensures { result ≡ span_word word.now }
{
    match number_in(word.as_bytes(), MOST_SPAN) {
        Some(millis) if millis >= LEAST_SPAN => Some(millis),
        _ => None,
    }
}

/// The command of these two words.
fn counting_command(word: &str, millis: &str) -> Option<TextCommand>
    ensures exact { result ≡ counting_by word.now millis.now }
    ensures sized { IfSome result IsSized }
{
    let millis = span_in(millis)?;
    match word {
        "count" => Some(TextCommand::Count { millis }),
        _ => None,
    }
}

/// The port that this word is.
fn port_in(word: &str) -> Option<u16>
    ensures { result ≡ port_word word.now }
{
    match number_in(word.as_bytes(), u64::from(u16::MAX)) {
        Some(0) => None,
        Some(port) => Some(port as u16),
        None => None,
    }
}

/// The time in milliseconds that this word is.
fn millis_in(word: &str) -> Option<u64>
    ensures { result ≡ millis_word word.now }
{
    number_in(word.as_bytes(), MOST_MILLIS)
}

/// The run of a peer of the tests that a word names.
fn peer_at(word: &str, address: u32, port: u16, millis: u64) -> Option<Command>
    ensures { result ≡ peer_by word.now address port millis }
{
    match word {
        "home" => Some(Command::Run {
            places: Places::Home { address, port },
            millis,
        }),
        "nas" => Some(Command::Run {
            places: Places::Nas { address, port },
            millis,
        }),
        _ => None,
    }
}

/// The command of these four words.
fn peer_command(word: &str, address: &str, port: &str, millis: &str) -> Option<Command>
    ensures { result ≡ peer_by_words word.now address.now port.now millis.now }
{
    let address = read_address(address.as_bytes())?;
    let port = port_in(port)?;
    let millis = millis_in(millis)?;
    peer_at(word, address, port, millis)
}

/// The sockets of the server that a word names.
fn server_at(word: &str, address: u32, auth: u16, acct: u16, peer: u32, port: u16) -> Option<Places>
    ensures { result ≡ server_by word.now address auth acct peer port }
{
    match word {
        "serve" => Some(Places::Serve {
            address,
            auth,
            acct,
            peer,
            port,
        }),
        "record" => Some(Places::Record {
            address,
            auth,
            acct,
            peer,
            port,
        }),
        _ => None,
    }
}

/// The command of these seven words.
fn server_command(
    word: &str,
    address: &str,
    auth: &str,
    acct: &str,
    peer: &str,
    port: &str,
    millis: &str,
) -> Option<Command>
    ensures { result
        ≡ server_by_words word.now address.now auth.now acct.now peer.now port.now millis.now }
{
    let address = read_address(address.as_bytes())?;
    let auth = port_in(auth)?;
    let acct = port_in(acct)?;
    let peer = read_address(peer.as_bytes())?;
    let port = port_in(port)?;
    let millis = millis_in(millis)?;
    let places = server_at(word, address, auth, acct, peer, port)?;
    Some(Command::Run { places, millis })
}

fn text(command: TextCommand) -> Command
    ensures { result ≡ Command.Text command }
{
    Command::Text { command }
}

/// The command that these words name.
pub fn command_of(words: &[String]) -> Option<Command>
    ensures exact { result ≡ command_of_words words.now }
    ensures sized { IfSome result IsSizedCommand }
{
    match words {
        [word] => command_named(word.as_str()).map(text),
        [word, millis] => counting_command(word.as_str(), millis.as_str()).map(text),
        [word, count, seed] => {
            sized_command(word.as_str(), count.as_str(), seed.as_str()).map(text)
        }
        [word, address, port, millis] => peer_command(
            word.as_str(),
            address.as_str(),
            port.as_str(),
            millis.as_str(),
        ),
        [word, address, auth, acct, peer, port, millis] => server_command(
            word.as_str(),
            address.as_str(),
            auth.as_str(),
            acct.as_str(),
            peer.as_str(),
            port.as_str(),
            millis.as_str(),
        ),
        _ => None,
    }
}
