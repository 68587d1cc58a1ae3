//! The workers of the server: a reader of each socket, and the reader of the present link.

ghost use Rattle.std.specs.Prelude.{◌≡◌};
ghost use Rattle.std.specs.Bool.{then_some};
ghost use Rattle.agent_status.specs.declared.status.Status.TheVariants.{LinkFault};
ghost use Rattle.server_workers.specs.Workers.{CanRun, Ran};

use crate::base::RunBase;
use crate::heard::Heard;
use crate::link_reader::{LinkEnd, read_link};
use crate::socket_reader::read_socket;
use agent_events::Input;
use agent_status::Status;
use radius_packet::Via;
use std::alloc::Global;
use std::sync::{Arc, Wait};
use turnstile::{Desk, Pass, PassOf, Turnstile};
use wire_core::NoMemory;
use wire_devices::{Datagrams, Job, LinkIn};

/// The turnstile of a server, as its threads share it.
pub type Shared<T> = Arc<Turnstile<T>, Global>;

/// What a thread of the server does.
#[derive(Drop)]
pub enum Worker<T: Desk<Ask = Input, Answer = Heard, Refusal = NoMemory, Base = RunBase>, D, I> {
    /// Enters what a socket receives, and sends the replies by it.
    Reader {
        alloc: Global,
        turnstile: Arc<Turnstile<T>, Global>,
        pass: Pass<T>,
        via: Via,
        socket: D,
    },
    /// Enters what a link's stream of octets holds, and sends the replies by the twins of both sockets.
    Link {
        alloc: Global,
        turnstile: Arc<Turnstile<T>, Global>,
        pass: Pass<T>,
        link: I,
        auth_twin: D,
        acct_twin: D,
    },
}

/// What came of a worker. `lost` counts the inputs that have no entry, since memory was wanting, and `again` the Ticks that
/// were asked because a link's framer found none. Both stop at 2^64 - 1.
#[derive(Drop)]
pub enum Ended<T, D, I> {
    /// `fault` is there where 16 receives in a row failed.
    Reader {
        socket: D,
        pass: PassOf<T, Input, Heard>,
        lost: u64,
        fault: Option<Status>,
    },
    /// `fault` is there where a receive failed.
    Link {
        link: I,
        auth_twin: D,
        acct_twin: D,
        pass: PassOf<T, Input, Heard>,
        lost: u64,
        again: u64,
        fault: Option<Status>,
    },
}

/// What came of the reader of a link.
fn link_ended<T, D, I>(end: LinkEnd<T, D, I>) -> Ended<T, D, I>
    ensures { result ≡ Ended.Link end.link end.auth_twin end.acct_twin end.pass end.lost end.again
        (then_some end.failed LinkFault) }
{
    let LinkEnd {
        pass,
        link,
        auth_twin,
        acct_twin,
        lost,
        again,
        failed,
    } = end;
    Ended::Link {
        link,
        auth_twin,
        acct_twin,
        pass,
        lost,
        again,
        fault: failed.then_some(Status::LinkFault),
    }
}

impl<T, D, I> Job for Worker<T, D, I>
where
    T: Desk<Ask = Input, Answer = Heard, Refusal = NoMemory, Base = RunBase>
        + Send
        + Drop
        + 'static,
    D: Datagrams + Send + Drop + 'static,
    I: LinkIn + Send + Drop + 'static,
{
    type Done = Ended<T, D, I>;

    ghost can = { CanRun D.told I.told };

    ghost gives = { Ran D.told I.told };

    fn run<R: Wait>(self, rt: &R) -> Ended<T, D, I> {
        match self {
            Worker::Reader {
                alloc,
                turnstile,
                mut pass,
                via,
                mut socket,
            } => {
                let end = read_socket(rt, alloc, &turnstile, &mut pass, via, &mut socket);
                Ended::Reader {
                    socket,
                    pass,
                    lost: end.lost,
                    fault: end.failed.then_some(Status::DatagramFault),
                }
            }
            Worker::Link {
                alloc,
                turnstile,
                pass,
                link,
                auth_twin,
                acct_twin,
            } => {
                let end = read_link(rt, alloc, &turnstile, pass, link, auth_twin, acct_twin);
                link_ended(end)
            }
        }
    }
}
