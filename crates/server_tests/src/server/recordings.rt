//! The command that records a run, and the replay of its record.

ghost use Rattle.std.specs.Prelude.{◌≡◌, IfOk};

use super::octets::{ACCEPTED, BEGUN, CAPABLE, LOGIN, START, STRANGE};
use super::runs::{
    ASKED, ASKED_TWICE, GREETED, Play, REPLIED, Ran, SERVES, SERVING, Says, Stage, heard, left,
    set_up,
};
use super::settings::SETTINGS;
use super::waiting::{UNTIL, WaitingIn, WaitingOut, WaitingSocket};
use agent_server::Pair;
use agent_status::Status;
use record_text::RecordText;
use replay_command::replay;
use socket_commands::{CommandEnd, Tape, run_recorder};
use std::alloc::Global;
use std::hash::RandomState;
use std::sync::Wait;
use std::test::Fail;
use std::thread::Threads;
use std::{rt, str};
use wire_core::{MemorySink, MemorySource, NoMemory, Octets};
use wire_devices::{Datagram, ThreadCrew};

/// What happens in this run besides: the socket for accounting hands out a reply by its twin, both hand one out themselves, the
/// agent's capabilities are sent on the second link and what waits again, and the capabilities on the third.
const ACCT_REPLIED: u64 = 1 << 5;

const REPEATED: u64 = 1 << 6;

const ACCT_REPEATED: u64 = 1 << 7;

const GREETED_SECOND: u64 = 1 << 8;

const AGAIN: u64 = 1 << 9;

const GREETED_THIRD: u64 = 1 << 10;

/// Both sockets ask, and ask again for what was replied to. At that for logins something comes that is no packet.
fn ask(alloc: Global, play: &mut Play) -> Result<(), Fail> {
    play.auth.comes(alloc, "00", 0)?;
    play.auth.comes(alloc, LOGIN, SERVING)?;
    play.auth.comes(alloc, LOGIN, REPLIED)?;
    play.auth.raises.push(REPEATED)?;
    play.auth.twin_raises.push(REPLIED)?;
    play.acct.comes(alloc, START, ASKED)?;
    play.acct.comes(alloc, START, ACCT_REPLIED)?;
    play.acct.raises.push(ACCT_REPEATED)?;
    play.acct.twin_raises.push(ACCT_REPLIED)?;
    Ok(())
}

/// The first link ends while both requests wait. On the second they are answered, and then it breaks.
fn answer(play: &mut Play) -> Result<(), Fail> {
    play.link(
        &[SERVES, heard(Says::End, ASKED_TWICE)],
        &[GREETED, ASKED, ASKED_TWICE],
    )?;
    play.link(
        &[
            heard(Says::Base(&CAPABLE, 3), GREETED_SECOND),
            heard(Says::Message(&ACCEPTED, 0, 1), AGAIN),
            heard(Says::Message(&BEGUN, 1, 2), 0),
            heard(Says::Message(&STRANGE, 0, 0), REPEATED | ACCT_REPEATED),
        ],
        &[GREETED_SECOND, AGAIN],
    )?;
    play.link(&[], &[GREETED_THIRD])
}

fn add_datagrams(alloc: Global, text: &mut String, datagrams: &[Datagram]) -> Result<(), NoMemory> {
    for datagram in datagrams {
        text.push_str(hex::encode(alloc, datagram.octets.as_slice())?.as_str())?;
    }
    Ok(())
}

/// What a socket and its twin handed out, in HEX.
fn of_socket(
    alloc: Global,
    twin: &WaitingSocket,
    socket: &WaitingSocket,
) -> Result<String, NoMemory> {
    let mut text = String::new(alloc);
    add_datagrams(alloc, &mut text, twin.handed())?;
    add_datagrams(alloc, &mut text, socket.handed())?;
    Ok(text)
}

fn add_pieces(alloc: Global, text: &mut String, pieces: &[Octets]) -> Result<(), NoMemory> {
    for piece in pieces {
        text.push_str(hex::encode(alloc, piece.as_slice())?.as_str())?;
    }
    Ok(())
}

/// What the links were handed, in HEX.
fn sent(alloc: Global, links: &[Pair<WaitingIn, WaitingOut>]) -> Result<String, NoMemory> {
    let mut text = String::new(alloc);
    for pair in links {
        add_pieces(alloc, &mut text, pair.link_out.pieces())?;
    }
    Ok(text)
}

/// What stands behind this mark in the lines that have it.
fn marked(alloc: Global, lines: &str, mark: &str) -> Result<String, NoMemory> {
    let mut text = String::new(alloc);
    for line in lines.lines() {
        if let Some((_, rest)) = line.split_once(mark) {
            text.push_str(rest)?;
        }
    }
    Ok(text)
}

/// What the sockets and the links were handed, in HEX.
#[derive(Drop)]
struct Handed {
    auth: String,
    acct: String,
    link: String,
}

/// Whether each socket handed something out.
fn hands_out(handed: &Handed) -> bool {
    !handed.auth.is_empty() && !handed.acct.is_empty()
}

fn all_handed(alloc: Global, ran: &Ran) -> Result<Handed, NoMemory> {
    Ok(Handed {
        auth: of_socket(alloc, &ran.trail.auth_twin, &ran.auth)?,
        acct: of_socket(alloc, &ran.trail.acct_twin, &ran.acct)?,
        link: sent(alloc, ran.trail.links.as_slice())?,
    })
}

/// How a run ended that was recorded, its record, and what was handed out in it.
#[derive(Drop)]
struct Recording {
    status: Status,
    closed: Option<u64>,
    sink: MemorySink,
    handed: Handed,
}

/// The devices of that run.
fn stage<R: Threads + Wait + Copy + Send + 'static>(
    rt: R,
    host: HostRuntime,
) -> Result<Stage<R>, Fail>
    ensures rows { IfOk result (λ stage. (stage.world.auth.row ≡ 0) × (stage.world.acct.row ≡ 0)
        × (stage.world.dialer.told.row ≡ 0)) }
{
    let mut play = Play::new(host, GREETED_THIRD | REPEATED | ACCT_REPEATED)?;
    ask(host.alloc(), &mut play)?;
    answer(&mut play)?;
    set_up(rt, play)
}

/// Records that run, to this sink.
fn record<R: Threads + Wait + rt::Clock + Copy + Send + Drop + 'static>(
    rt: R,
    host: HostRuntime,
    sink: MemorySink,
) -> Result<Recording, Fail> {
    let mut input = MemorySource::new(host.alloc(), SETTINGS, 64, &[])?;
    let Stage {
        alloc,
        random,
        word: _,
        config: _,
        world,
    } = stage(rt, host)?;
    let tape = Tape {
        writer: RecordText::new(rt, alloc, sink),
        crew: ThreadCrew::new(alloc, rt, Vec::new(alloc)),
    };
    let CommandEnd {
        finish,
        tape,
        closed,
    } = run_recorder(&rt, alloc, random, UNTIL, &mut input, world, tape);
    let ran = left(finish, 0)?;
    let handed = all_handed(alloc, &ran)?;
    Ok(Recording {
        status: ran.status,
        closed,
        sink: tape.writer.sink,
        handed,
    })
}

/// What `replay` prints of these lines, which are a transcript.
fn replayed(alloc: Global, random: RandomState, lines: &[u8]) -> Result<MemorySink, Fail> {
    let mut input = MemorySource::new(alloc, lines, 4096, &[])?;
    let mut output = MemorySink::new(alloc, 8192, &[])?;
    if replay(alloc, random, &mut input, &mut output) != Status::Done {
        return Err(Fail::from("no transcript"));
    }
    Ok(output)
}

/// Whether these lines of a replay are those of what was handed out, with what was dropped and closed.
fn is_all(alloc: Global, lines: &str, run: &Handed) -> Result<bool, NoMemory> {
    let auth = marked(alloc, lines, " reply auth 192.168.1.16 1812 ")?;
    let acct = marked(alloc, lines, " reply acct 192.168.1.16 1812 ")?;
    let link = marked(alloc, lines, " send ")?;
    let drops = marked(alloc, lines, " drop ")?;
    let closes = marked(alloc, lines, " close ")?;
    Ok(
        auth == run.auth
            && acct == run.acct
            && link == run.link
            && drops.as_str() == "2 Short"
            && closes.as_str() == "EndedBroken BadVersionLeft",
    )
}

/// Whether the run ended well with its whole record, whose replay is what was handed out.
fn is_replayed(alloc: Global, random: RandomState, run: &Recording) -> Result<bool, Fail> {
    let output = replayed(alloc, random, run.sink.as_slice())?;
    let all = is_all(alloc, str::from_utf8(output.as_slice())?, &run.handed)?;
    Ok(all && run.status == Status::Done && run.closed.is_none() && hands_out(&run.handed))
}

#[test]
fn a_record_is_replayed_to_what_was_handed_out(rt: HostRuntime) -> Result<(), Fail> {
    let random = RandomState::new(&rt)?;
    let run = record(rt, rt, MemorySink::new(rt.alloc(), 8192, &[])?)?;
    let is_replayed = is_replayed(rt.alloc(), random, &run);
    drop(run);
    assert!(rt; is_replayed?);
    Ok(())
}

/// Whether the run went on to its end, and the record has its first lines alone.
fn is_a_beginning(run: &Recording) -> bool {
    let Ok(written) = str::from_utf8(run.sink.as_slice()) else {
        return false;
    };
    run.status == Status::WriteFault
        && run.closed == Some(0)
        && hands_out(&run.handed)
        && written.starts_with("agent ")
        && written.lines().count() >= 3
}

/// The first write behind the settings fails in its middle.
#[test]
fn a_record_that_fails_is_a_beginning(rt: HostRuntime) -> Result<(), Fail> {
    let run = record(rt, rt, MemorySink::new(rt.alloc(), 8192, &[1])?)?;
    let is_a_beginning = is_a_beginning(&run);
    drop(run);
    assert!(rt; is_a_beginning);
    Ok(())
}
