//! The reader of a link.

ghost use Rattle.std.specs.Prelude.{◌≡◌, ℕ, List, [], is_some, nat_lt, flat_map, MatchBool, MatchOption};
ghost use Rattle.radius_packet.specs.declared.reasons.Via.TheVariants.{Auth, Acct};
ghost use Rattle.diameter_message.specs.Framing.{FramerParts, without};
ghost use Rattle.turnstile.specs.Passes.{known, table_of};
ghost use Rattle.wire_devices.specs.Links.{Inlet};
ghost use Rattle.wire_devices.specs.Telling.{Adds};
ghost use Rattle.server_workers.specs.Entries.{reply_by};
ghost use Rattle.server_workers.specs.LinkReading.{Gives, HeededAll, ReadsLink, Sight, SoFar, StayAt, Stops, Visits, is_framed as framed_test, is_links_last as last_test, sight};

use crate::base::RunBase;
use crate::heard::Heard;
use crate::turns::enter;
use agent_events::{Input, Output};
use diameter_message::{Framer, Next};
use radius_packet::Via;
use std::alloc::Global;
use std::sync::Wait;
use turnstile::{Desk, Pass, PassOf, Turnstile};
use wire_core::NoMemory;
use wire_devices::{Datagrams, LinkGot, LinkIn};

/// So many octets are taken at once.
const BUFFER: usize = 4096;

/// What the reader of a link was given, and what came of it.
pub struct LinkEnd<T, D, I> {
    pub pass: PassOf<T, Input, Heard>,
    pub link: I,
    pub auth_twin: D,
    pub acct_twin: D,
    /// How many messages and faults of the stream have no entry, since memory was wanting. It stops at 2^64 - 1.
    pub lost: u64,
    /// How many Ticks were asked because the framer found no memory. It stops at 2^64 - 1.
    pub again: u64,
    /// Whether a receive failed.
    pub failed: bool,
}

/// The pass of a link's reader, the sockets that it sends replies by, and its counts.
struct Visitor<T, D> {
    pass: PassOf<T, Input, Heard>,
    auth_twin: D,
    acct_twin: D,
    lost: u64,
    again: u64,
}

/// The framer of a link's octets, and whether it has shown a fault.
#[derive(Drop)]
struct Frames {
    framer: Framer,
    broken: bool,
}

/// Whether an input is one that a stream of messages gives.
fn is_framed(input: &Input) -> bool
    ensures { result ≡ framed_test input.now }
{
    matches!(input, Input::Message { .. } | Input::Broken { .. })
}

/// Whether the reader stops after this answer.
fn is_last(heard: &Heard) -> bool
    ensures { result ≡ last_test heard.now }
{
    heard.finished || heard.closed.is_some()
}

/// Sends an output by the socket of its port, where it is a reply. A send that fails loses it.
fn send_reply<D: Datagrams>(output: &Output, auth: &mut D, acct: &mut D)
    ensures auth { Adds (D.told auth.old).handed (D.told auth.new).handed
        (reply_by Auth output.now) }
    ensures acct { Adds (D.told acct.old).handed (D.told acct.new).handed
        (reply_by Acct output.now) }
    ensures ports { StayAt (D.told auth.old) (D.told acct.old) (D.told auth.new) (D.told acct.new) }
{
    if let Output::Reply {
        via,
        address,
        port,
        octets,
    } = output
    {
        let _ = match via {
            Via::Auth => auth.send(*address, *port, octets.as_slice()),
            Via::Acct => acct.send(*address, *port, octets.as_slice()),
        };
    }
}

fn send_replies<D: Datagrams>(outputs: &[Output], auth: &mut D, acct: &mut D)
    ensures auth { Adds (D.told auth.old).handed (D.told auth.new).handed
        (flat_map (reply_by Auth) outputs.now) }
    ensures acct { Adds (D.told acct.old).handed (D.told acct.new).handed
        (flat_map (reply_by Acct) outputs.now) }
    ensures ports { StayAt (D.told auth.old) (D.told acct.old) (D.told auth.new) (D.told acct.new) }
{
    for output in outputs {
        send_reply(output, auth, acct);
    }
}

impl<
    T: Desk<Ask = Input, Answer = Heard, Refusal = NoMemory, Base = RunBase>,
    D: Datagrams,
> Visitor<T, D> {
    /// Enters an input, and sends the replies that come of it. True where the reader stops after it.
    fn visit<R: Wait>(&mut self, rt: &R, turnstile: &Turnstile<T>, input: Input) -> bool
        requires { table_of self.old.pass ≡ turnstile.now }
        ensures table { table_of self.new.pass ≡ table_of self.old.pass }
        ensures visits { Visits D.told input result self.old self.new }
    {
        let framed = is_framed(&input);
        match enter(rt, turnstile, &mut self.pass, input) {
            Some(heard) => {
                send_replies(
                    heard.outputs.as_slice(),
                    &mut self.auth_twin,
                    &mut self.acct_twin,
                );
                is_last(&heard)
            }
            None => {
                if framed {
                    self.lost = self.lost.saturating_add(1);
                }
                false
            }
        }
    }

    /// Lets time pass after the framer found no memory. True where the reader stops.
    fn tick_again<R: Wait>(&mut self, rt: &R, turnstile: &Turnstile<T>) -> bool
        requires { table_of self.old.pass ≡ turnstile.now }
        ensures table { table_of self.new.pass ≡ table_of self.old.pass }
        ensures reads { (start : Sight T) (link : Inlet) (piece : List ℕ) (framer : FramerParts)
            → SoFar D.told piece start self.old link framer
            → MatchBool result (Stops D.told start self.new link framer)
            (SoFar D.told piece start self.new link framer) }
    {
        let over = self.visit(rt, turnstile, Input::Tick);
        self.again = self.again.saturating_add(1);
        over
    }
}

/// Feeds a piece to the framer, however often memory is wanting. True where the reader stops before.
fn feed_all<
    R: Wait,
    T: Desk<Ask = Input, Answer = Heard, Refusal = NoMemory, Base = RunBase>,
    D: Datagrams,
>(
    rt: &R,
    turnstile: &Turnstile<T>,
    visitor: &mut Visitor<T, D>,
    framer: &mut Framer,
    piece: &[u8],
) -> bool
    requires { table_of visitor.old.pass ≡ turnstile.now }
    ensures table { table_of visitor.new.pass ≡ table_of visitor.old.pass }
    ensures shown { framer.new.shown ≡ framer.old.shown }
    ensures reads { (start : Sight T) (link : Inlet)
        → SoFar D.told piece.now start visitor.old link framer.old
        → MatchBool result (Stops D.told start visitor.new link framer.new)
        (SoFar D.told [] start visitor.new link framer.new) }
{
    for _ in rt.forever() {
        match framer.feed(piece) {
            Ok(()) => return false,
            Err(_) => {
                if visitor.tick_again(rt, turnstile) {
                    return true;
                }
            }
        }
    }
    unreachable!()
}

/// What comes next in the stream, however often memory is wanting. None where the reader stops before.
fn next_of_stream<
    R: Wait,
    T: Desk<Ask = Input, Answer = Heard, Refusal = NoMemory, Base = RunBase>,
    D: Datagrams,
>(
    rt: &R,
    turnstile: &Turnstile<T>,
    visitor: &mut Visitor<T, D>,
    framer: &mut Framer,
) -> Option<Next>
    requires { table_of visitor.old.pass ≡ turnstile.now }
    ensures table { table_of visitor.new.pass ≡ table_of visitor.old.pass }
    ensures framer { MatchOption result (framer.new ≡ framer.old)
        (λ next. framer.new ≡ without next framer.old) }
    ensures reads { (start : Sight T) (link : Inlet)
        → SoFar D.told [] start visitor.old link framer.old
        → MatchOption result (Stops D.told start visitor.new link framer.new)
        (λ next. Gives D.told next start visitor.new link framer.old) }
{
    for _ in rt.forever() {
        match framer.next_message() {
            Ok(next) => return Some(next),
            Err(_) => {
                if visitor.tick_again(rt, turnstile) {
                    return None;
                }
            }
        }
    }
    unreachable!()
}

/// Enters the messages that the framer has, and then the fault, where it shows one for the first time. True where the
/// reader stops.
fn take_messages<
    R: Wait,
    T: Desk<Ask = Input, Answer = Heard, Refusal = NoMemory, Base = RunBase>,
    D: Datagrams,
>(rt: &R, turnstile: &Turnstile<T>, visitor: &mut Visitor<T, D>, frames: &mut Frames) -> bool
    requires table { table_of visitor.old.pass ≡ turnstile.now }
    requires broken { frames.old.broken ≡ is_some frames.old.framer.shown }
    ensures table { table_of visitor.new.pass ≡ table_of visitor.old.pass }
    ensures broken { frames.new.broken ≡ is_some frames.new.framer.shown }
    ensures reads { (start : Sight T) (link : Inlet)
        → SoFar D.told [] start visitor.old link frames.old.framer
        → MatchBool result (Stops D.told start visitor.new link frames.new.framer)
        (HeededAll D.told start visitor.new link frames.new.framer) }
{
    for _ in rt.forever() {
        match next_of_stream(rt, turnstile, visitor, &mut frames.framer) {
            None => return true,
            Some(Next::Wait) => return false,
            Some(Next::Fault(fault)) => {
                if frames.broken {
                    return false;
                }
                frames.broken = true;
                return visitor.visit(rt, turnstile, Input::Broken { fault });
            }
            Some(Next::Message(octets)) => {
                if visitor.visit(rt, turnstile, Input::Message { octets }) {
                    return true;
                }
            }
        }
    }
    unreachable!()
}

/// Takes a piece that was received. True where the reader stops.
fn take_piece<
    R: Wait,
    T: Desk<Ask = Input, Answer = Heard, Refusal = NoMemory, Base = RunBase>,
    D: Datagrams,
>(
    rt: &R,
    turnstile: &Turnstile<T>,
    visitor: &mut Visitor<T, D>,
    frames: &mut Frames,
    piece: &[u8],
) -> bool
    requires table { table_of visitor.old.pass ≡ turnstile.now }
    requires broken { frames.old.broken ≡ is_some frames.old.framer.shown }
    ensures table { table_of visitor.new.pass ≡ table_of visitor.old.pass }
    ensures broken { frames.new.broken ≡ is_some frames.new.framer.shown }
    ensures reads { (start : Sight T) (link : Inlet)
        → SoFar D.told piece.now start visitor.old link frames.old.framer
        → MatchBool result (Stops D.told start visitor.new link frames.new.framer)
        (HeededAll D.told start visitor.new link frames.new.framer) }
{
    if feed_all(rt, turnstile, visitor, &mut frames.framer, piece) {
        return true;
    }
    take_messages(rt, turnstile, visitor, frames)
}

/// Looks at the link once, and does what follows from it. True where the reader stops.
fn look<
    R: Wait,
    T: Desk<Ask = Input, Answer = Heard, Refusal = NoMemory, Base = RunBase>,
    D: Datagrams,
    I: LinkIn,
>(
    rt: &R,
    turnstile: &Turnstile<T>,
    visitor: &mut Visitor<T, D>,
    frames: &mut Frames,
    link: &mut I,
    buf: &mut [u8],
    failed: &mut bool,
) -> bool
    requires table { table_of visitor.old.pass ≡ turnstile.now }
    requires broken { frames.old.broken ≡ is_some frames.old.framer.shown }
    requires failed { failed.old ≡ nat_lt 0 (I.told link.old).faults }
    ensures table { table_of visitor.new.pass ≡ table_of visitor.old.pass }
    ensures broken { frames.new.broken ≡ is_some frames.new.framer.shown }
    ensures failed { failed.new ≡ nat_lt 0 (I.told link.new).faults }
    ensures reads { (start : Sight T)
        → HeededAll D.told start visitor.old (I.told link.old) frames.old.framer
        → MatchBool result
        (Stops D.told start visitor.new (I.told link.new) frames.new.framer)
        (HeededAll D.told start visitor.new (I.told link.new) frames.new.framer) }
{
    match link.receive(buf) {
        LinkGot::Bytes(count) => {
            if count == 0 {
                return visitor.visit(rt, turnstile, Input::Down);
            }
            take_piece(rt, turnstile, visitor, frames, &buf[..count])
        }
        LinkGot::Nothing => visitor.visit(rt, turnstile, Input::Tick),
        LinkGot::Ended => visitor.visit(rt, turnstile, Input::Down),
        LinkGot::Failed => {
            *failed = true;
            visitor.visit(rt, turnstile, Input::Down)
        }
    }
}

/// Looks at the link until the reader stops. True where a receive failed.
fn read_on<
    R: Wait,
    T: Desk<Ask = Input, Answer = Heard, Refusal = NoMemory, Base = RunBase>,
    D: Datagrams,
    I: LinkIn,
>(
    rt: &R,
    turnstile: &Turnstile<T>,
    visitor: &mut Visitor<T, D>,
    frames: &mut Frames,
    link: &mut I,
) -> bool
    requires table { table_of visitor.old.pass ≡ turnstile.now }
    requires broken { frames.old.broken ≡ is_some frames.old.framer.shown }
    requires faults { (I.told link.old).faults ≡ 0 }
    ensures table { table_of visitor.new.pass ≡ table_of visitor.old.pass }
    ensures failed { result ≡ nat_lt 0 (I.told link.new).faults }
    ensures reads { (start : Sight T)
        → HeededAll D.told start visitor.old (I.told link.old) frames.old.framer
        → Stops D.told start visitor.new (I.told link.new) frames.new.framer }
{
    let mut buf = [0; BUFFER];
    let mut failed = false;
    for _ in rt.forever() {
        if look(rt, turnstile, visitor, frames, link, &mut buf, &mut failed) {
            return failed;
        }
    }
    unreachable!()
}

/// Enters what a link's stream of octets holds and sends the replies, until the run is at its end or the link is closed.
pub fn read_link<
    R: Wait,
    T: Desk<Ask = Input, Answer = Heard, Refusal = NoMemory, Base = RunBase>,
    D: Datagrams,
    I: LinkIn,
>(
    rt: &R,
    alloc: Global,
    turnstile: &Turnstile<T>,
    pass: Pass<T>,
    mut link: I,
    auth_twin: D,
    acct_twin: D,
) -> LinkEnd<T, D, I>
    requires table { table_of pass ≡ turnstile.now }
    requires fresh { ((I.told link).ends ≡ 0) × ((I.told link).faults ≡ 0) }
    ensures table { table_of result.pass ≡ table_of pass }
    ensures failed { result.failed ≡ nat_lt 0 (I.told result.link).faults }
    ensures reads { ReadsLink
        (sight (known pass) (I.told link) (D.told auth_twin) (D.told acct_twin))
        (sight (known result.pass) (I.told result.link) (D.told result.auth_twin)
        (D.told result.acct_twin)) result.lost result.again }
{
    let mut visitor = Visitor {
        pass,
        auth_twin,
        acct_twin,
        lost: 0,
        again: 0,
    };
    let mut frames = Frames {
        framer: Framer::new(alloc),
        broken: false,
    };
    let failed = read_on(rt, turnstile, &mut visitor, &mut frames, &mut link);
    let Visitor {
        pass,
        auth_twin,
        acct_twin,
        lost,
        again,
    } = visitor;
    LinkEnd {
        pass,
        link,
        auth_twin,
        acct_twin,
        lost,
        again,
        failed,
    }
}
