//! What is recorded of a run.

ghost use Rattle.std.specs.Prelude.{◌≡◌, IfOk, ⊤};
ghost use Rattle.agent_settings.specs.Config.{InLimits};

use super::octets::{ACCEPTED, LOGIN};
use super::runs::{ASKED, GREETED, Play, REPLIED, SERVES, SERVING, Says, Stage, heard, set_up};
use super::waiting::{UNTIL, WaitingClock, WaitingDialer, WaitingSocket};
use agent_events::Input;
use agent_server::{Finish, RecordedRun, World, record};
use agent_status::Status;
use radius_packet::Via;
use run_record::{Entry, EntryWriter};
use std::alloc::Global;
use std::sync::Wait;
use std::test::Fail;
use std::thread;
use std::thread::Threads;
use std::time::Duration;
use wire_core::Put;
use wire_devices::ThreadCrew;

/// What happens in this run besides: the socket for logins hands out a reply itself.
const REPEATED: u64 = 1 << 5;

/// Notes the kind of each entry. So many writes are done, and the next one fails.
#[derive(Drop)]
struct Notes {
    rt: HostRuntime,
    kinds: Vec<u8>,
    writes: u32,
    faults: u64,
}

fn kind(input: &Input) -> u8 {
    match input {
        Input::Datagram { via: Via::Auth, .. } => b'a',
        Input::Datagram { via: Via::Acct, .. } => b'c',
        Input::Up => b'u',
        Input::Ready => b'r',
        Input::Message { .. } => b'm',
        Input::Broken { .. } => b'b',
        Input::Down => b'w',
        Input::Tick => b't',
        Input::Drain => b'd',
        Input::Leave => b'l',
    }
}

fn note(kinds: &mut Vec<u8>, entries: &[Entry]) {
    for entry in entries {
        let _ = kinds.push(kind(&entry.input));
    }
}

impl EntryWriter for Notes {
    type Base = ();

    ghost stands = { λ _ _ _. ⊤ };

    ghost faults = { λ n. n.faults };

    fn write(&mut self, entries: &[Entry]) -> Put {
        if self.writes == 0 {
            self.faults = self.faults.saturating_add(1);
            return Put::Failed;
        }
        self.writes -= 1;
        note(&mut self.kinds, entries);
        Put::Done
    }

    fn rest(&mut self) {
        thread::sleep(&self.rt, Duration::from_millis(1));
    }
}

/// Notes of no entry yet, which take so many writes.
fn notes_of(host: HostRuntime, writes: u32) -> Notes {
    Notes {
        rt: host,
        kinds: Vec::new(host.alloc()),
        writes,
        faults: 0,
    }
}

/// A crew that refuses these starts.
fn crew_refusing<R: Copy>(rt: R, alloc: Global, refused: &[usize]) -> Result<ThreadCrew<R>, Fail> {
    let mut starts = Vec::new(alloc);
    starts.extend_from_slice(refused)?;
    Ok(ThreadCrew::new(alloc, rt, starts))
}

/// A login is asked and answered, and comes again once its reply was handed out.
fn ask(alloc: Global, play: &mut Play) -> Result<(), Fail> {
    play.auth.comes(alloc, LOGIN, SERVING)?;
    play.auth.comes(alloc, LOGIN, REPLIED)?;
    play.auth.raises.push(REPEATED)?;
    play.auth.twin_raises.push(REPLIED)?;
    play.link(
        &[SERVES, heard(Says::Message(&ACCEPTED, 0, 1), ASKED)],
        &[GREETED, ASKED],
    )
}

/// How a run ended that was recorded, what was written of it, and from which moment on nothing was.
#[derive(Drop)]
struct Recorded {
    status: Status,
    kinds: Vec<u8>,
    closed: Option<u64>,
}

/// The devices of that run.
fn stage<R: Threads + Wait + Copy + Send + 'static>(
    rt: R,
    host: HostRuntime,
) -> Result<Stage<R>, Fail>
    ensures limits { IfOk result (λ stage. InLimits stage.config) }
    ensures rows { IfOk result (λ stage. (stage.world.auth.row ≡ 0) × (stage.world.acct.row ≡ 0)
        × (stage.world.dialer.told.row ≡ 0)) }
{
    let mut play = Play::new(host, REPEATED)?;
    ask(host.alloc(), &mut play)?;
    set_up(rt, play)
}

/// How a run ended.
fn status_of<R: Drop>(
    finish: Finish<WaitingClock, WaitingSocket, WaitingDialer, ThreadCrew<R>>,
) -> Status {
    let Finish {
        status,
        world,
        trail: _,
        home: _,
    } = finish;
    let World {
        clock: _,
        auth: _,
        acct: _,
        dialer: _,
        crew: _,
    } = world;
    status
}

/// Records that run by these notes, and with a crew that refuses these starts.
fn run_recorded<R: Threads + Wait + Copy + Send + Drop + 'static>(
    rt: R,
    host: HostRuntime,
    notes: Notes,
    refused: &[usize],
) -> Result<Recorded, Fail> {
    let mut recorders = crew_refusing(rt, host.alloc(), refused)?;
    let Stage {
        alloc,
        random,
        word: _,
        config,
        world,
    } = stage(rt, host)?;
    let RecordedRun { finish, record } = record(
        &rt,
        alloc,
        random,
        config,
        world,
        UNTIL,
        notes,
        &mut recorders,
    );
    Ok(Recorded {
        status: status_of(finish),
        kinds: record.writer.kinds,
        closed: record.closed,
    })
}

/// The link comes up, and the agent's capabilities are handed over; those of the home server come. The login comes, its
/// request is handed over, and its answer comes; then the repeat. At the end the agent leaves, and what it says then is
/// handed over. All else was idle.
#[test]
fn entries_are_recorded_but_for_idle_ones(rt: HostRuntime) -> Result<(), Fail> {
    let ran = run_recorded(rt, rt, notes_of(rt, u32::MAX), &[])?;
    assert!(rt; ran.status == Status::Done);
    assert!(rt; ran.kinds.as_slice() == b"udmadmald".as_slice());
    assert!(rt; ran.closed.is_none());
    Ok(())
}

/// The service goes on without a record: but for that the run would be Done.
#[test]
fn a_record_that_fails_is_short(rt: HostRuntime) -> Result<(), Fail> {
    let ran = run_recorded(rt, rt, notes_of(rt, 0), &[])?;
    assert!(rt; ran.status == Status::WriteFault);
    assert!(rt; ran.kinds.is_empty());
    assert!(rt; ran.closed == Some(0));
    let unstarted = run_recorded(rt, rt, notes_of(rt, 1), &[0])?;
    assert!(rt; unstarted.status == Status::NoThread);
    assert!(rt; unstarted.kinds.is_empty());
    Ok(())
}
