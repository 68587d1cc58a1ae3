//! The run of the home server.

ghost use Rattle.std.specs.Prelude.{◌≡◌, ◌≢◌, ◌≤◌, ◌⊎◌, ℕ, List, [], Option, Some, Ok, Err, length, IfOk, IfErr, MatchResult};
ghost use Rattle.wire_core.specs.Counts.{Rose};
ghost use Rattle.diameter_message.specs.Message.{read_message};
ghost use Rattle.wire_devices.specs.Links.{Inlet, IsFreshInlet, IsFreshOutlet};
ghost use Rattle.test_peers.specs.Users.{users_in};
ghost use Rattle.test_peers.specs.declared.users.User.{User};
ghost use Rattle.text_commands.specs.WholeInput.{most_whole};
ghost use Rattle.peer_runs.specs.HomeRuns.{FailsToRead, KeepsAnswering, HomeBy, HomeCauses, HomeCounts, IsSound, Knows, ReadsNone, Rests, RunsBy, SoFar, Takes, answer_octets, command_line as line_of, command_of as command_in, command_text};
ghost use Rattle.peer_runs.specs.Until.{Early, Late};

use agent_status::Status;
use diameter_message::{Framer, Next, parse};
use std::alloc::Global;
use std::sync::Wait;
use test_peers::{Home, HomeFault};
use text_commands::{take_whole, write_text};
use wire_core::{NoMemory, Octets, Put, Sink, Source};
use wire_devices::{Clock, Dialer, LinkGot, LinkIn, LinkOut};

/// So many octets are taken at once.
const BUFFER: usize = 4096;

/// How a run of the home server ended, with the two ends of its link, where one was made.
#[derive(Drop)]
pub struct HomeEnd<I, O> {
    pub status: Status,
    pub link: Option<(I, O)>,
}

/// The home server of the users that the input names.
fn read_users<S: Source>(alloc: Global, input: &mut S) -> Result<Home, Status>
    ensures reads { (X : List ℕ) → S.left input.old ≡ Some X
        → MatchResult result (λ home. Knows home X (S.left input.new))
        (λ status. ReadsNone status X (S.left input.new)) }
    ensures fails { IfErr result
        (λ status. FailsToRead status (S.faults input.old) (S.faults input.new)) }
{
    let text = match take_whole(alloc, input) {
        Ok(text) => text,
        Err(status) => return Err(status),
    };
    match Home::new(alloc, text.as_slice()) {
        Ok(home) => Ok(home),
        Err(HomeFault::BadLine { line, reason }) => Err(Status::BadTranscript { line, reason }),
        Err(HomeFault::NoMemory) => Err(Status::OutOfMemory),
    }
}

/// The command of a message, 0 where it is none.
fn command_of(message: &[u8]) -> u32
    ensures { result ≡ command_in (read_message message.now) }
{
    match parse(message) {
        Ok(message) => message.header.command,
        Err(_) => 0,
    }
}

/// The line of a message that has this command.
fn command_line(alloc: Global, command: u32) -> Result<Octets, NoMemory>
    ensures { IfOk result (λ line. line ≡ command_text command) }
{
    let line = format!(in alloc; "command {command}\n")?;
    Ok(Octets::from_vec(line.into_bytes()))
}

/// Answers a message, where it has an answer, and then writes its line. How the run ends, where that ends it.
fn take_message<O: LinkOut, K: Sink>(
    alloc: Global,
    home: &mut Home,
    message: &[u8],
    link: &mut O,
    output: &mut K,
) -> Option<Status>
    ensures users { home.new ≡ home.old }
    ensures takes { Takes result (answer_octets home.old message.now) (line_of home.old message.now)
        (record {
          outlet = O.told link.old;
          outlet' = O.told link.new;
          output = K.written output.old;
          output' = K.written output.new;
        }) }
    ensures fault { result ≡ Some Status.WriteFault
        → Rose (K.faults output.old) (K.faults output.new) }
    ensures faults_stay { K.faults output.old ≤ K.faults output.new }
{
    let Ok(answer) = home.step(message) else {
        return Some(Status::OutOfMemory);
    };
    let Some(answer) = answer else {
        return None;
    };
    let Put::Done = link.send(answer.as_slice()) else {
        return Some(Status::LinkFault);
    };
    let Ok(line) = command_line(alloc, command_of(message)) else {
        return Some(Status::OutOfMemory);
    };
    match write_text(output, line.as_slice()) {
        Ok(()) => None,
        Err(status) => Some(status),
    }
}

/// Answers the messages that the framer has. How the run ends, where that ends it.
fn take_messages<R: Wait, O: LinkOut, K: Sink>(
    rt: &R,
    alloc: Global,
    home: &mut Home,
    framer: &mut Framer,
    link: &mut O,
    output: &mut K,
) -> Option<Status>
    ensures users { home.new ≡ home.old }
    ensures answers { (inlet : Inlet) (before : Option (List ℕ))
        → SoFar home.old [] framer.old (record {
          inlet = inlet;
          outlet = O.told link.old;
          output = before;
          output' = K.written output.old;
        })
        → KeepsAnswering result home.old framer.new (record {
          inlet = inlet;
          outlet = O.told link.new;
          output = before;
          output' = K.written output.new;
        }) }
    ensures fault { result ≡ Some Status.WriteFault
        → Rose (K.faults output.old) (K.faults output.new) }
    ensures faults_stay { K.faults output.old ≤ K.faults output.new }
{
    for _ in rt.forever() {
        match framer.next_message() {
            Err(_) => return Some(Status::OutOfMemory),
            Ok(Next::Wait) => return None,
            Ok(Next::Fault(_)) => return Some(Status::Done),
            Ok(Next::Message(message)) => {
                if let Some(status) = take_message(alloc, home, message.as_slice(), link, output) {
                    return Some(status);
                }
            }
        }
    }
    unreachable!()
}

/// Takes a piece that was received. How the run ends, where that ends it.
fn take_piece<R: Wait, O: LinkOut, K: Sink>(
    rt: &R,
    alloc: Global,
    home: &mut Home,
    framer: &mut Framer,
    piece: &[u8],
    link: &mut O,
    output: &mut K,
) -> Option<Status>
    ensures users { home.new ≡ home.old }
    ensures answers { (inlet : Inlet) (before : Option (List ℕ))
        → SoFar home.old piece.now framer.old (record {
          inlet = inlet;
          outlet = O.told link.old;
          output = before;
          output' = K.written output.old;
        })
        → KeepsAnswering result home.old framer.new (record {
          inlet = inlet;
          outlet = O.told link.new;
          output = before;
          output' = K.written output.new;
        }) }
    ensures fault { result ≡ Some Status.WriteFault
        → Rose (K.faults output.old) (K.faults output.new) }
    ensures faults_stay { K.faults output.old ≤ K.faults output.new }
{
    let Ok(()) = framer.feed(piece) else {
        return Some(Status::OutOfMemory);
    };
    take_messages(rt, alloc, home, framer, link, output)
}

/// Looks once at the link, and answers what came. How the run ends, where that ends it.
fn look<R: Wait, I: LinkIn, O: LinkOut, K: Sink>(
    rt: &R,
    alloc: Global,
    home: &mut Home,
    framer: &mut Framer,
    link: &mut (I, O),
    buf: &mut [u8],
    output: &mut K,
) -> Option<Status>
    ensures users { home.new ≡ home.old }
    ensures answers { (before : Option (List ℕ))
        → Rests home.old framer.old (record {
          inlet = I.told link.old.0;
          outlet = O.told link.old.1;
          output = before;
          output' = K.written output.old;
        })
        → KeepsAnswering result home.old framer.new (record {
          inlet = I.told link.new.0;
          outlet = O.told link.new.1;
          output = before;
          output' = K.written output.new;
        }) }
    ensures fault { result ≡ Some Status.WriteFault
        → Rose (K.faults output.old) (K.faults output.new) }
    ensures faults_stay { K.faults output.old ≤ K.faults output.new }
{
    match link.0.receive(buf) {
        LinkGot::Bytes(count) => {
            if count == 0 {
                return Some(Status::Done);
            }
            take_piece(rt, alloc, home, framer, &buf[..count], &mut link.1, output)
        }
        LinkGot::Nothing => None,
        LinkGot::Ended => Some(Status::Done),
        LinkGot::Failed => Some(Status::LinkFault),
    }
}

/// Answers what comes over the link until this moment, or until the run ends before.
fn answer_link<R: Wait, I: LinkIn, O: LinkOut, K: Sink, C: Clock>(
    rt: &R,
    alloc: Global,
    home: &mut Home,
    until: u64,
    output: &mut K,
    clock: &mut C,
    link: &mut (I, O),
) -> Status
    requires fresh { IsFreshInlet (I.told link.old.0) × IsFreshOutlet (O.told link.old.1) }
    ensures runs { RunsBy result home.old (Early until (C.readings clock.old)
        (C.readings clock.new)) (Late until (C.readings clock.old) (C.readings clock.new))
        (record {
          inlet = I.told link.new.0;
          outlet = O.told link.new.1;
          output = K.written output.old;
          output' = K.written output.new;
        }) }
    ensures fault { result ≡ Status.WriteFault → Rose (K.faults output.old) (K.faults output.new) }
{
    let mut framer = Framer::new(alloc);
    let mut buf = [0; BUFFER];
    for _ in rt.forever() {
        if clock.now() >= until {
            return Status::Done;
        }
        if let Some(status) = look(rt, alloc, home, &mut framer, link, &mut buf, output) {
            return status;
        }
    }
    unreachable!()
}

/// Answers the messages of one link that is dialled, as the home server of the users that the input names, for so many
/// milliseconds or until the link ends. Each message is answered before the link is looked at again, and its command is
/// written after the answer was sent.
pub fn home<R: Wait, S: Source, K: Sink, C: Clock, L: Dialer>(
    rt: &R,
    alloc: Global,
    millis: u64,
    input: &mut S,
    output: &mut K,
    clock: &mut C,
    dialer: &mut L,
) -> HomeEnd<L::In, L::Out>
    ensures begun { result.status ≢ Status.Usage }
    ensures ends { HomeBy L.In.told L.Out.told result.status result.link (record {
      millis = millis;
      input = S.left input.old;
      input' = S.left input.new;
      reads = S.faults input.old;
      reads' = S.faults input.new;
      dials = L.told dialer.old;
      dials' = L.told dialer.new;
      clock = C.readings clock.old;
      clock' = C.readings clock.new;
      output = K.written output.old;
      output' = K.written output.new;
    }) }
    ensures causes { HomeCauses L.In.told L.Out.told result.status result.link (record {
      millis = millis;
      input = S.left input.old;
      input' = S.left input.new;
      reads = S.faults input.old;
      reads' = S.faults input.new;
      dials = L.told dialer.old;
      dials' = L.told dialer.new;
      clock = C.readings clock.old;
      clock' = C.readings clock.new;
      output = K.written output.old;
      output' = K.written output.new;
    }) }
    ensures counts { HomeCounts result.status (S.faults input.old) (S.faults input.new)
        (K.faults output.old) (K.faults output.new) }
    // A list of users that is short enough is served, but where a call failed or memory ran out.
    ensures complete { (X : List ℕ) (users : List User) → S.left input.old ≡ Some X
        → users_in X ≡ Ok users → length X ≤ most_whole
        → ¬ Rose (S.faults input.old) (S.faults input.new)
        → ¬ Rose (K.faults output.old) (K.faults output.new)
        → ¬ Rose (L.told dialer.old).faults (L.told dialer.new).faults
        → IsSound L.In.told L.Out.told result.link
        → (result.status ≡ Status.Done) ⊎ (result.status ≡ Status.OutOfMemory) }
{
    let mut home = match read_users(alloc, input) {
        Ok(home) => home,
        Err(status) => return HomeEnd { status, link: None },
    };
    let until = clock.now().saturating_add(millis);
    let Some(mut link) = dialer.dial() else {
        return HomeEnd {
            status: Status::LinkFault,
            link: None,
        };
    };
    let status = answer_link(rt, alloc, &mut home, until, output, clock, &mut link);
    HomeEnd {
        status,
        link: Some(link),
    }
}
