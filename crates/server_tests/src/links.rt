//! Links over memory and over the loopback.

use crate::calls::{LOOPBACK, dial, first_look, hear, let_go, look, rest, speak};
use std::alloc::Global;
use std::collections::VecDeque;
use std::io::{ErrorKind, Read, Write};
use std::net::{Ipv4Addr, TcpListener, TcpStream};
use std::test::Fail;
use std::time::{Duration, Instant};
use std::{io, rt};
use wire_core::{NoMemory, Put};
use wire_devices::{
    Dialer, LinkGot, LinkIn, LinkOut, SteadyDialer, SteadyLine, SteadyLinkIn, TcpAccepter,
    TcpDialer, UdpDatagrams, Waker,
};

/// The octets `hello`, of which the first look finds two, the second none, and each later one all that are left; and room
/// for four octets that are sent.
fn hello_line(alloc: Global) -> Result<SteadyLine, NoMemory> {
    let mut looks = VecDeque::new(alloc);
    looks.push_back(2)?;
    looks.push_back(0)?;
    let octets = Vec::from_slice(alloc, b"hello")?;
    Ok(SteadyLine::new(octets, looks, Vec::with_capacity(alloc, 4)?))
}

fn hears_in_pieces(link: &mut SteadyLinkIn) -> bool {
    let mut buf = [0; 4];
    hear(link, &mut buf) == LinkGot::Bytes(2)
        && hear(link, &mut buf) == LinkGot::Nothing
        && hear(link, &mut buf) == LinkGot::Bytes(3)
        && buf == *b"llo\0"
        && hear(link, &mut buf) == LinkGot::Ended
}

fn dials_without_a_fault(dialer: &mut SteadyDialer) -> bool {
    let Some((mut link_in, mut link_out)) = dial(dialer) else {
        return false;
    };
    let spoke = speak(&mut link_out, b"ab") == Put::Done && speak(&mut link_out, b"c") == Put::Done;
    let_go(&mut link_out);
    hears_in_pieces(&mut link_in) && spoke && link_out.handed() == Some(b"abc".as_slice())
}

/// The dialer has one link, and then such as end at once.
#[test]
fn link_without_a_fault(rt: HostRuntime) -> Result<(), Fail> {
    let mut lines = VecDeque::new(rt.alloc());
    lines.push_back(hello_line(rt.alloc())?)?;
    let mut dialer = SteadyDialer::new(rt.alloc(), lines);
    let shows = dials_without_a_fault(&mut dialer);
    let ended = first_look(&mut dialer) == Some(LinkGot::Ended);
    assert!(rt; shows && ended);
    Ok(())
}

fn listener(net: &HostRuntime) -> io::Result<TcpListener> {
    TcpListener::bind(net, (Ipv4Addr::from(LOOPBACK), 0))
}

/// Whether something goes over, and comes back after a while.
fn goes_both_ways<I: LinkIn, O: LinkOut>(
    link: &mut (I, O),
    peer: &mut TcpStream,
) -> io::Result<bool> {
    let mut buf = [0; 8];
    let asked = speak(&mut link.1, b"ask") == Put::Done && peer.read(&mut buf)? == 3;
    let waited = hear(&mut link.0, &mut buf) == LinkGot::Nothing;
    peer.write_all(b"answer")?;
    Ok(asked && waited && hear(&mut link.0, &mut buf) == LinkGot::Bytes(6))
}

/// Whether both sides learn that the link is let go, and what is sent afterwards is lost.
fn ends_where_it_is_let_go<I: LinkIn, O: LinkOut>(
    link: &mut (I, O),
    peer: &mut TcpStream,
) -> io::Result<bool> {
    let_go(&mut link.1);
    let learned = peer.read(&mut [0; 8])? == 0 && hear(&mut link.0, &mut [0; 8]) == LinkGot::Ended;
    Ok(learned && speak(&mut link.1, b"ask") == Put::Failed)
}

/// Whether 500 rests of a hundredth of a second at most, each behind a look of the socket, end within half of their time.
fn looks_end_rests<R: rt::Clock, O: LinkOut>(
    rt: &R,
    socket: &mut UdpDatagrams,
    link: &mut O,
) -> io::Result<bool> {
    let before = Instant::now(rt)?;
    for _ in 0..500 {
        let _ = look(socket, &mut [0; 8]);
        rest(link);
    }
    Ok(before.elapsed(rt)? < Duration::from_millis(2500))
}

/// Whether a link goes both ways, its rests are ended, and it ends with its peer.
fn goes_and_ends<R: rt::Clock, I: LinkIn, O: LinkOut>(
    rt: &R,
    socket: &mut UdpDatagrams,
    link: &mut (I, O),
    mut peer: TcpStream,
) -> bool {
    let goes = goes_both_ways(link, &mut peer).unwrap_or(false);
    let rests = looks_end_rests(rt, socket, &mut link.1).unwrap_or(false);
    drop(peer);
    goes && rests && hear(&mut link.0, &mut [0; 8]) == LinkGot::Ended
}

/// A link of this dialer, with the other side.
fn linked<L: Dialer>(dialer: &mut L, listener: &TcpListener) -> Option<((L::In, L::Out), TcpStream)>
where
    L::In: Drop,
    L::Out: Drop,
{
    let link = dial(dialer)?;
    match listener.accept() {
        Ok((peer, _)) => Some((link, peer)),
        Err(_) => None,
    }
}

/// The first link goes both ways until its peer ends it, and the second one is let go.
fn links_twice<R: rt::Clock, L: Dialer>(
    rt: &R,
    dialer: &mut L,
    listener: &TcpListener,
    socket: &mut UdpDatagrams,
) -> bool
where
    L::In: Drop,
    L::Out: Drop,
{
    let goes = match linked(dialer, listener) {
        Some((mut link, peer)) => goes_and_ends(rt, socket, &mut link, peer),
        None => false,
    };
    let ends = match linked(dialer, listener) {
        Some((mut link, mut peer)) => ends_where_it_is_let_go(&mut link, &mut peer).unwrap_or(
            false,
        ),
        None => false,
    };
    goes && ends
}

#[test]
fn links_over_loopback(rt: HostRuntime) -> Result<(), Fail> {
    let listener = listener(&rt)?;
    let port = listener.local_addr()?.port();
    let waker = Waker::new(rt.alloc())?;
    let mut socket = UdpDatagrams::closed().waking(&waker);
    let mut dialer = TcpDialer::new(rt, LOOPBACK, port).woken_by(&waker);
    assert!(rt; links_twice(&rt, &mut dialer, &listener, &mut socket));
    Ok(())
}

/// Whether a dial is refused, after which the dialer pauses.
fn pauses<R: rt::Clock, L: Dialer>(rt: &R, dialer: &mut L) -> io::Result<bool>
where
    L::In: Drop,
    L::Out: Drop,
{
    let before = Instant::now(rt)?;
    let is_refused = dial(dialer).is_none();
    Ok(is_refused && before.elapsed(rt)? >= Duration::from_millis(100))
}

/// Nobody listens. A listener that isn't opened accepts nobody.
#[test]
fn refused_dials(rt: HostRuntime) -> Result<(), Fail> {
    let port = listener(&rt)?.local_addr()?.port();
    let mut dialer = TcpDialer::new(rt, LOOPBACK, port);
    let pauses = pauses(&rt, &mut dialer).unwrap_or(false);
    let is_refused = dialer.refusal() == Some(ErrorKind::ConnectionRefused);
    let accepts = dial(&mut TcpAccepter::closed(rt)).is_some();
    assert!(rt; pauses && is_refused && !accepts);
    Ok(())
}

/// Whether one connection is accepted, and no other.
fn accepts_one<L: Dialer>(net: &HostRuntime, accepter: &mut L, port: u16) -> io::Result<bool>
where
    L::In: Drop,
    L::Out: Drop,
{
    let mut peer = TcpStream::connect(net, (Ipv4Addr::from(LOOPBACK), port))?;
    peer.write_all(b"hi")?;
    Ok(first_look(accepter) == Some(LinkGot::Bytes(2)) && dial(accepter).is_none())
}

/// An address in use gives no listener.
#[test]
fn accepted_over_loopback(rt: HostRuntime) -> Result<(), Fail> {
    let port = listener(&rt)?.local_addr()?.port();
    let mut accepter = TcpAccepter::bind(rt, LOOPBACK, port)?;
    let in_use = TcpAccepter::bind(rt, LOOPBACK, port).is_err();
    let accepts = accepts_one(&rt, &mut accepter, port).unwrap_or(false);
    assert!(rt; in_use && accepts);
    Ok(())
}
