//! The program: `agent serve` serves RADIUS clients by a Diameter home server, `agent record` writes the transcript of that
//! besides, and the other commands go from text to text, or are the peers of its tests. Where the status isn't 0, its name
//! stands on stderr.
#![tactic(auto)]

ghost use Rattle.std.specs.Prelude.{◌≡◌, IfOk};

mod agent;

pub use agent::agent;
use agent_server::{Finish, Pair, Trail, World};
use agent_status::Status;
pub use command_line::{Places, places};
use command_line::{Command, TextCommand, command_of};
use record_text::RecordText;
use replay_command::wanted_in_transcript;
use socket_commands::{CommandEnd, Tape};
use std::alloc::Global;
use std::hash::RandomState;
use std::net::{Ipv4Addr, Net, TcpListener, TcpStream};
use std::process::ExitCode;
use std::sync::Wait;
use std::thread::Threads;
use std::{env, io, rt};
use wire_core::{ReaderSource, Sink, Source, WriterSink};
use wire_devices::{
    Clock, Dialer, LinkGot, LinkIn, SystemClock, TcpAccepter, TcpDialer, TcpIn, TcpOut, ThreadCrew,
    UdpDatagrams, Waker,
};

const USAGE: &str = "\
usage: agent replay < TRANSCRIPT
       agent trace < TRANSCRIPT
       agent count MILLIS < TRANSCRIPT
       agent dynamic < TRANSCRIPT
       agent reverse < SCRIPT
       agent check < SETTINGS
       agent show < LINES
       agent generate LOGINS SEED
       agent measure LOGINS SEED
       agent serve ADDRESS AUTH ACCT PEER PEERPORT MILLIS < SETTINGS
       agent record ADDRESS AUTH ACCT PEER PEERPORT MILLIS < SETTINGS
       agent home ADDRESS PORT MILLIS < USERS
       agent nas ADDRESS PORT MILLIS < PACKETS
       agent --help
       agent --version
";

const HELP: &str = "
replay reads a transcript: a line of settings, lines of clients, and lines of events, each with its moment in
milliseconds. It prints what the agent sends for each event, after the number of its line, and at last how many
replies, messages and drops there were.

trace reads a transcript too, also one that is still being recorded. It prints each event and what the agent sends for it in
the names of the RFCs, with every attribute and AVP, and why an answer of the home server was refused. Passwords and keys
are hidden.

count reads a transcript too, also one that is still being recorded, and prints counters of it in the text format of Prometheus: a
block before each event that reaches one of the moments that lie MILLIS milliseconds apart from the first event on, 1000 to
86400000, and one at the end.

dynamic does the same as replay with a book of sessions beside the agent: where the home server ends a session that is in the
book, by an Abort-Session-Request, a Disconnect-Request goes to the session's access server. Its packets come in as
lines 'MOMENT control ADDRESS PORT HEX', and at last the Disconnect-Requests are counted too.

reverse reads a script: a line 'reverse HOST REALM SERVER PORT SECRET RETENTION', and then Diameter requests that a RADIUS
server is to answer, its replies, and ticks. It prints the packets for the server and the Diameter answers, after the
number of their line, and at last how many packets, answers and drops there were.

check reads settings, a TOML document of at most 2^20 octets, and prints them as lines of a transcript, or says which
key is wrong: of the client of this number, or of the top table, which is 0.

show reads lines 'radius HEX' and 'diameter HEX', and prints each packet with its attributes and each message with
its AVPs, a line for each, or what is wrong with them.

generate writes a transcript of 1 to 1000000 logins of one client, some of them repeated, and of their answers. SEED,
below 2^32, decides which requests come again, and which answers refuse. measure replays that transcript, line by line
as it is made, and prints its end line alone.

serve listens at ADDRESS for logins at the port AUTH and for accounting at ACCT, links with the home server at PEER and
PEERPORT, and ends after MILLIS milliseconds. Then it prints how many inputs it took and how many it lost.

record serves as serve does, and prints the transcript of its run while it runs: replay of it prints all that went out.
How many inputs it took and how many it lost stands on the standard error. Where its output can't be written, or isn't
read for too long, the transcript ends there, and the service goes on.

home is a home server for tests: it listens for one link, knows users by lines 'NAME HEX' of a name and a password, and
prints the command of each message that it answers. nas is a client for tests: it sends each packet, a line of HEX, until
it is answered, and prints 'reply HEX', or 'none' after MILLIS milliseconds.

exit statuses: 0 done, 1 other words, 2 settings with a fault, 3 a line that isn't allowed where it is,
4 the input failed, 5 the output failed, 6 no link, 7 a link that the home server refused, 8 no thread, 9 no memory,
10 a socket failed, 11 too many links ended, 12 an input that is too long, 14 no random octets

The manual is seqwira-agent(1), with seqwira-settings(5) and seqwira-transcript(5).
";

/// The words after the program's name.
fn words_after_name(rt: &HostRuntime) -> io::Result<Vec<String>> {
    let mut words = Vec::new(rt.alloc());
    for word in env::args(rt)?.skip(1) {
        words.push(word)?;
    }
    Ok(words)
}

/// How a run ends whose words can't be had: one that isn't UTF-8 is no command's, and else memory is wanting.
fn status_without_words(error: &io::Error) -> Status {
    match error.kind() {
        io::ErrorKind::InvalidData => Status::Usage,
        _ => Status::OutOfMemory,
    }
}

/// The lines that may stand where one of another form was.
fn lines_wanted(command: TextCommand, line: u64) -> &'static str {
    match command {
        TextCommand::Show => "expected 'radius HEX' or 'diameter HEX'",
        TextCommand::Reverse if line == 1 => "expected a reverse line",
        TextCommand::Reverse => "expected a request, reply or tick line",
        TextCommand::Dynamic if line > 1 =>
            "expected an event or control line, or a client line before all events",
        _ => wanted_in_transcript(line, 2),
    }
}

/// What was wanted in place of a bad line of the command's input.
fn wanted(command: Option<Command>, line: u64, reason: u32) -> &'static str {
    match (reason, command) {
        (
            2,
            Some(
                Command::Run {
                    places: Places::Home { .. },
                    ..
                },
            ),
        ) => "expected 'NAME HEX'",
        (2, Some(Command::Run { .. })) => "expected one word of HEX",
        (2, Some(Command::Text { command })) => lines_wanted(command, line),
        (
            3,
            Some(
                Command::Run {
                    places: Places::Nas { .. },
                    ..
                },
            ),
        ) => "it is no RADIUS packet in HEX",
        _ => wanted_in_transcript(line, reason),
    }
}

/// Why nothing could be done at an address.
struct Trouble {
    what: &'static str,
    address: u32,
    port: u16,
    why: io::ErrorKind,
}

/// What a run of the server took.
#[derive(Clone, Copy)]
struct Taken {
    entries: u64,
    lost: u64,
}

/// How the program ends, and what is told of that beside.
struct Outcome {
    status: Status,
    /// What was the trouble with an address, where that is why.
    trouble: Option<Trouble>,
    taken: Option<Taken>,
    /// The moment of the first entry that a record lacks.
    closed: Option<u64>,
}

fn ended(status: Status) -> Outcome {
    Outcome {
        status,
        trouble: None,
        taken: None,
        closed: None,
    }
}

/// A socket couldn't be opened at this address.
fn unopened(status: Status, address: u32, port: u16, error: io::Error) -> Outcome {
    Outcome {
        status,
        trouble: Some(Trouble {
            what: "no socket at",
            address,
            port,
            why: error.kind(),
        }),
        taken: None,
        closed: None,
    }
}

/// Why no link could be had with the home server at this address, where the run ended so.
fn unlinked<R>(status: &Status, dialer: &TcpDialer<R>, address: u32, port: u16) -> Option<Trouble> {
    let refusal = match status {
        Status::LinkFault => dialer.refusal(),
        _ => None,
    };
    refusal.map(|why| Trouble {
        what: "no link to",
        address,
        port,
        why,
    })
}

/// Says on stderr what a recorded run took, and where its record ends before it.
fn tell_record(rt: &HostRuntime, taken: Option<Taken>, closed: Option<u64>) {
    if let Some(Taken { entries, lost }) = taken {
        let _ = eprintln!(rt; "served {entries} {lost}");
    }
    if let Some(moment) = closed {
        let _ = eprintln!(rt; "agent: the record ends before the moment {moment}");
    }
}

/// Says on stderr how a run of the command ended that wasn't done, and gives the status to exit with.
fn end(rt: &HostRuntime, command: Option<Command>, ended: Outcome) -> ExitCode {
    let Outcome {
        status,
        trouble,
        taken,
        closed,
    } = ended;
    if let Some(
        Command::Run {
            places: Places::Record { .. },
            ..
        },
    ) = command
    {
        tell_record(rt, taken, closed);
    }
    let code = ExitCode::from(status.number());
    if let Some(
        Trouble {
            what,
            address,
            port,
            why,
        },
    ) = trouble
    {
        let address = Ipv4Addr::from(address);
        let _ = eprintln!(rt; "agent: {status} ({what} {address} {port}: {why})");
        return code;
    }
    let _ = match status {
        Status::Done => Ok(()),
        Status::Usage => eprint!(rt; "agent: {status}\n{USAGE}"),
        Status::BadTranscript { line, reason } => {
            let wanted = wanted(command, line, reason);
            eprintln!(rt; "agent: {status} ({wanted})")
        }
        _ => eprintln!(rt; "agent: {status}"),
    };
    code
}

/// Prints these texts on stdout.
fn tell(rt: &HostRuntime, text: &str, more: &str) -> ExitCode {
    match print!(rt; "{text}{more}") {
        Ok(()) => ExitCode::SUCCESS,
        Err(_) => end(rt, None, ended(Status::WriteFault)),
    }
}

/// The outside of a run, by these sockets and this dialer.
fn world_of<R, L>(
    rt: R,
    alloc: Global,
    auth: UdpDatagrams,
    acct: UdpDatagrams,
    dialer: L,
) -> World<SystemClock<R>, UdpDatagrams, L, ThreadCrew<R>>
where
    R: rt::Clock + Copy,
    ensures { (result.auth ≡ auth) × (result.acct ≡ acct) × (result.dialer ≡ dialer) }
{
    World {
        clock: SystemClock::new(rt),
        auth,
        acct,
        dialer,
        crew: ThreadCrew::new(alloc, rt, Vec::new(alloc)),
    }
}

/// What writes the record of a run to this sink.
fn tape_of<R: Copy, T>(rt: R, alloc: Global, sink: T) -> Tape<R, T, ThreadCrew<R>>
    ensures { result.writer.faults ≡ 0 }
{
    Tape {
        writer: RecordText::new(rt, alloc, sink),
        crew: ThreadCrew::new(alloc, rt, Vec::new(alloc)),
    }
}

/// Looks at the last link until the home server has let it go, for a second at most, so that what the agent said last is
/// read before the link is gone. It gives what the run took.
fn take_leave<C: Clock + Drop, R: Drop>(trail: Trail<C, UdpDatagrams, TcpIn, TcpOut<R>>) -> Taken {
    let taken = Taken {
        entries: trail.entries,
        lost: trail.lost,
    };
    let mut pairs = trail.links.into_vec();
    let Some(
        Pair {
            mut link_in,
            link_out: _,
        },
    ) = pairs.pop()
    else {
        return taken;
    };
    let mut buf = [0; 4096];
    for _ in 0..10 {
        match link_in.receive(&mut buf) {
            LinkGot::Ended | LinkGot::Failed => return taken,
            LinkGot::Bytes(_) | LinkGot::Nothing => {}
        }
    }
    taken
}

/// A socket at this address and port, or how a run ends without it.
fn socket_at<R: Net>(rt: &R, address: u32, port: u16) -> Result<UdpDatagrams, Outcome>
    ensures { IfOk result (λ socket. socket.row ≡ 0) }
{
    UdpDatagrams::bind(rt, address, port).map_err(|e| unopened(
        Status::DatagramFault,
        address,
        port,
        e,
    ))
}

/// The sockets for logins and for accounting at these ports, or how a run ends without them.
fn sockets_at<R: Net>(
    rt: &R,
    address: u32,
    auth: u16,
    acct: u16,
) -> Result<(UdpDatagrams, UdpDatagrams), Outcome>
    ensures { IfOk result (λ sockets. (sockets.0.row ≡ 0) × (sockets.1.row ≡ 0)) }
{
    let for_logins = socket_at(rt, address, auth)?;
    let for_accounting = socket_at(rt, address, acct)?;
    Ok((for_logins, for_accounting))
}

/// The socket of a command that serves nobody: none, but for the client of the tests. The system chooses where that client's
/// packets come from.
fn socket_for<R: Net>(rt: &R, places: Option<Places>) -> Result<UdpDatagrams, Outcome>
    ensures { IfOk result (λ socket. socket.row ≡ 0) }
{
    match places {
        Some(Places::Nas { .. }) => socket_at(rt, 0, 0),
        _ => Ok(UdpDatagrams::closed()),
    }
}

/// A listener at this address and port, or how a run ends without it.
fn accepter_at<R: Net<Listener = TcpListener, Stream = TcpStream> + Copy>(
    rt: R,
    address: u32,
    port: u16,
) -> Result<TcpAccepter<R>, Outcome>
    ensures { IfOk result (λ accepter. accepter.told.row ≡ 0) }
{
    TcpAccepter::bind(rt, address, port).map_err(|e| unopened(Status::LinkFault, address, port, e))
}

/// Serves by these sockets and the home server at this address. Whoever looks at one of them wakes the link's writer before.
fn serve<R, S, K, T>(
    rt: R,
    alloc: Global,
    random: RandomState,
    words: &[String],
    input: &mut S,
    output: &mut K,
    record: T,
    sockets: (UdpDatagrams, UdpDatagrams),
    peer: u32,
    port: u16,
) -> Outcome
where
    R: Net<Listener = TcpListener, Stream = TcpStream>
        + Threads
        + Wait
        + rt::Clock
        + Copy
        + Drop
        + Send
        + 'static,
    S: Source,
    K: Sink,
    T: Sink + Send + Drop + 'static,
    requires { (sockets.0.row ≡ 0) × (sockets.1.row ≡ 0) }
{
    let Ok(waker) = Waker::new(alloc) else {
        return ended(Status::OutOfMemory);
    };
    let (auth, acct) = (sockets.0.waking(&waker), sockets.1.waking(&waker));
    let dialer = TcpDialer::new(rt, peer, port).woken_by(&waker);
    let world = world_of(rt, alloc, auth, acct, dialer);
    let tape = tape_of(rt, alloc, record);
    let CommandEnd {
        finish,
        tape: _,
        closed,
    } = agent(&rt, alloc, random, words, input, output, world, tape);
    let Finish {
        status,
        world,
        trail,
        home: _,
    } = finish;
    let taken = trail.map(take_leave);
    let World {
        clock: _,
        auth: _,
        acct: _,
        dialer,
        crew: _,
    } = world;
    let trouble = unlinked(&status, &dialer, peer, port);
    Outcome {
        status,
        trouble,
        taken,
        closed,
    }
}

/// Runs a command that wants no socket but this one.
fn run_with<R, S, K, T, L>(
    rt: R,
    alloc: Global,
    random: RandomState,
    words: &[String],
    input: &mut S,
    output: &mut K,
    record: T,
    socket: UdpDatagrams,
    dialer: L,
) -> Outcome
where
    R: Threads + Wait + rt::Clock + Copy + Drop + Send + 'static,
    S: Source,
    K: Sink,
    T: Sink + Send + Drop + 'static,
    L: Dialer<In = TcpIn, Out = TcpOut<R>> + Drop,
    requires { (socket.row ≡ 0) × ((L.told dialer).row ≡ 0) }
{
    let world = world_of(rt, alloc, socket, UdpDatagrams::closed(), dialer);
    let tape = tape_of(rt, alloc, record);
    let CommandEnd {
        finish,
        tape: _,
        closed: _,
    } = agent(&rt, alloc, random, words, input, output, world, tape);
    let Finish {
        status,
        world,
        trail: _,
        home: _,
    } = finish;
    let World {
        clock: _,
        auth: _,
        acct: _,
        dialer: _,
        crew: _,
    } = world;
    ended(status)
}

/// Opens the sockets that the words want, and runs their command.
fn run_words<R, S, K, T>(
    rt: R,
    alloc: Global,
    random: RandomState,
    words: &[String],
    input: &mut S,
    output: &mut K,
    record: T,
) -> Result<Outcome, Outcome>
where
    R: Net<Listener = TcpListener, Stream = TcpStream>
        + Threads
        + Wait
        + rt::Clock
        + Copy
        + Drop
        + Send
        + 'static,
    S: Source,
    K: Sink,
    T: Sink + Send + Drop + 'static,
{
    let places = places(words);
    match places {
        Some(
            Places::Serve {
                address,
                auth,
                acct,
                peer,
                port,
            }
            | Places::Record {
                address,
                auth,
                acct,
                peer,
                port,
            },
        ) => {
            let sockets = sockets_at(&rt, address, auth, acct)?;
            Ok(serve(
                rt, alloc, random, words, input, output, record, sockets, peer, port,
            ))
        }
        Some(Places::Home { address, port }) => {
            let accepter = accepter_at(rt, address, port)?;
            let none = UdpDatagrams::closed();
            Ok(run_with(
                rt, alloc, random, words, input, output, record, none, accepter,
            ))
        }
        Some(Places::Nas { .. }) | None => {
            let socket = socket_for(&rt, places)?;
            let none = TcpDialer::new(rt, 0, 0);
            Ok(run_with(
                rt, alloc, random, words, input, output, record, socket, none,
            ))
        }
    }
}

fn main(rt: HostRuntime) -> ExitCode {
    let words = match words_after_name(&rt) {
        Ok(words) => words,
        Err(error) => return end(&rt, None, ended(status_without_words(&error))),
    };
    if let [word] = words.as_slice() {
        match word.as_str() {
            "--help" => return tell(&rt, USAGE, HELP),
            "--version" => return tell(&rt, "agent 0.1.0\n", ""),
            _ => {}
        }
    }
    let Ok(random) = RandomState::new(&rt) else {
        let _ = eprintln!(&rt; "agent: random");
        return ExitCode::from(14);
    };
    let mut input = ReaderSource::new(rt.reader());
    let mut output = WriterSink::new(io::writer(&rt));
    let record = WriterSink::new(rt.stdout());
    let words = words.as_slice();
    match run_words(
        rt,
        rt.alloc(),
        random,
        words,
        &mut input,
        &mut output,
        record,
    ) {
        Ok(ended) => end(&rt, command_of(words), ended),
        Err(ended) => end(&rt, command_of(words), ended),
    }
}
