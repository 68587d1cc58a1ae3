//! Runs of the server over devices that wait for one another.

ghost use Rattle.std.specs.Prelude.{◌≡◌, IfOk};
ghost use Rattle.agent_settings.specs.Config.{InLimits};

use super::octets::{CAPABLE, base, datagram, message};
use super::settings::settings;
use super::waiting::{
    Find, Finds, Look, Post, Script, UNTIL, WaitingClock, WaitingDialer, WaitingIn, WaitingOut,
    WaitingSocket, Word,
};
use agent_server::{Finish, Trail, World, serve};
use agent_settings::Config;
use agent_status::Status;
use std::alloc::Global;
use std::collections::VecDeque;
use std::hash::RandomState;
use std::sync::atomic::{AtomicU64, Ordering};
use std::sync::{Arc, Wait};
use std::test::Fail;
use std::thread::Threads;
use wire_devices::ThreadCrew;

/// What happens in a run: the agent's capabilities are sent on a link, the link serves, a request is sent on it, a second
/// one, and a reply is handed out by the twin of the socket for logins. A test's own bits are above these.
pub(super) const GREETED: u64 = 1;

pub(super) const SERVING: u64 = 1 << 1;

pub(super) const ASKED: u64 = 1 << 2;

pub(super) const ASKED_TWICE: u64 = 1 << 3;

pub(super) const REPLIED: u64 = 1 << 4;

/// What comes on a link: the first message of the base protocol where so many requests were sent before, a message with these
/// two numbers, its end, or a fault.
#[derive(Clone, Copy)]
pub(super) enum Says {
    Base(&'static [&'static str; 2], u8),
    Message(&'static [&'static str; 2], u32, u8),
    End,
    Fault,
}

/// What comes once the first bits are raised, and what the look after it raises.
#[derive(Clone, Copy)]
pub(super) struct Hears {
    pub after: u64,
    pub says: Says,
    pub raises: u64,
}

/// What comes at once, or once these bits are raised, and raises nothing.
pub(super) fn heard(says: Says, after: u64) -> Hears {
    Hears {
        after,
        says,
        raises: 0,
    }
}

/// The home server's capabilities, once the agent's are sent: what is entered before may go out in one piece with them. The
/// link serves at the next look.
pub(super) const SERVES: Hears = Hears {
    after: GREETED,
    says: Says::Base(&CAPABLE, 0),
    raises: SERVING,
};

fn finds(alloc: Global, says: Says) -> Result<Finds, Fail> {
    match says {
        Says::Base(parts, before) => Ok(Finds::Octets(base(alloc, parts, before)?)),
        Says::Message(parts, hop, number) => {
            Ok(Finds::Octets(message(alloc, parts, hop, number)?))
        }
        Says::End => Ok(Finds::End),
        Says::Fault => Ok(Finds::Fault),
    }
}

fn look(alloc: Global, hears: Hears) -> Result<Look, Fail> {
    Ok(Look {
        after: hears.after,
        finds: finds(alloc, hears.says)?,
        raises: hears.raises,
    })
}

/// What the devices of a run do. The run lasts until the last bits are raised.
#[derive(Drop)]
pub(super) struct Play {
    host: HostRuntime,
    random: RandomState,
    last: u64,
    pub auth: Post,
    pub acct: Post,
    scripts: VecDeque<Script>,
}

impl Play {
    /// A run in which nothing comes.
    pub(super) fn new(host: HostRuntime, last: u64) -> Result<Play, Fail> {
        let alloc = host.alloc();
        Ok(Play {
            host,
            random: RandomState::new(&host)?,
            last,
            auth: Post::quiet(alloc),
            acct: Post::quiet(alloc),
            scripts: VecDeque::new(alloc),
        })
    }

    /// One link more, whose looks find these in turn, and whose first sends raise these bits.
    pub(super) fn link(&mut self, hears: &[Hears], raises: &[u64]) -> Result<(), Fail> {
        let alloc = self.host.alloc();
        let mut script = Script::quiet(alloc);
        script.raises.extend_from_slice(raises)?;
        for hear in hears {
            script.looks.push(look(alloc, *hear)?)?;
        }
        self.scripts.push_back(script)?;
        Ok(())
    }

    /// The same, but its first send fails.
    pub(super) fn failing_link(&mut self) -> Result<(), Fail> {
        let mut script = Script::quiet(self.host.alloc());
        script.failing_sends = 1;
        self.scripts.push_back(script)?;
        Ok(())
    }
}

impl Post {
    /// One datagram more, which comes once these bits are raised.
    pub(super) fn comes(&mut self, alloc: Global, text: &str, after: u64) -> Result<(), Fail> {
        self.finds.push(Find {
            after,
            insists: false,
            datagram: datagram(alloc, text)?,
        })?;
        Ok(())
    }

    /// The look for the last datagram insists on it.
    pub(super) fn insist(&mut self) {
        if let Some(find) = self.finds.as_mut_slice().last_mut() {
            find.insists = true;
        }
    }
}

/// What is left of a run. `raised` are the bits that its devices raised.
#[derive(Drop)]
pub(super) struct Ran {
    pub status: Status,
    pub raised: u64,
    pub auth: WaitingSocket,
    pub acct: WaitingSocket,
    pub trail: Trail<WaitingClock, WaitingSocket, WaitingIn, WaitingOut>,
}

/// A share of the word for the clock, for each socket and for the dialer.
fn shares(word: &Word) -> Result<(Word, Word, Word, Word), Fail> {
    let clock = Arc::try_clone(word)?;
    let auth = Arc::try_clone(word)?;
    let acct = Arc::try_clone(word)?;
    let dialer = Arc::try_clone(word)?;
    Ok((clock, auth, acct, dialer))
}

/// All that a run is made of.
pub(super) struct Stage<R> {
    pub alloc: Global,
    pub random: RandomState,
    pub word: Word,
    pub config: Config,
    pub world: World<WaitingClock, WaitingSocket, WaitingDialer, ThreadCrew<R>>,
}

/// The devices of a run, and its settings.
pub(super) fn set_up<R: Threads + Wait + Copy + Send + 'static>(
    rt: R,
    play: Play,
) -> Result<Stage<R>, Fail>
    ensures limits { IfOk result (λ stage. InLimits stage.config) }
    ensures rows { IfOk result (λ stage. (stage.world.auth.row ≡ 0) × (stage.world.acct.row ≡ 0)
        × (stage.world.dialer.told.row ≡ 0)) }
{
    let Play {
        host,
        random,
        last,
        auth,
        acct,
        scripts,
    } = play;
    let alloc = host.alloc();
    let word = Arc::new(alloc, AtomicU64::new(0))?;
    let (for_clock, for_auth, for_acct, for_dialer) = shares(&word)?;
    let config = settings(alloc)?;
    Ok(Stage {
        alloc,
        random,
        word,
        config,
        world: World {
            clock: WaitingClock::new(for_clock, last),
            auth: WaitingSocket::new(host, for_auth, auth),
            acct: WaitingSocket::new(host, for_acct, acct),
            dialer: WaitingDialer::new(host, for_dialer, scripts),
            crew: ThreadCrew::new(alloc, rt, Vec::new(alloc)),
        },
    })
}

/// What is left of a run that ended, in which these bits were raised.
pub(super) fn left<R: Drop>(
    finish: Finish<WaitingClock, WaitingSocket, WaitingDialer, ThreadCrew<R>>,
    raised: u64,
) -> Result<Ran, Fail> {
    let Finish {
        status,
        world,
        trail,
        home: _,
    } = finish;
    let World {
        clock: _,
        auth,
        acct,
        dialer: _,
        crew: _,
    } = world;
    Ok(Ran {
        status,
        raised,
        auth,
        acct,
        trail: trail.ok_or("no trail")?,
    })
}

/// Runs the server over these devices.
pub(super) fn run<R: Threads + Wait + Copy + Send + Drop + 'static>(
    rt: R,
    play: Play,
) -> Result<Ran, Fail> {
    let Stage {
        alloc,
        random,
        word,
        config,
        world,
    } = set_up(rt, play)?;
    let finish = serve(&rt, alloc, random, config, world, UNTIL);
    left(finish, word.load(Ordering::SeqCst))
}
