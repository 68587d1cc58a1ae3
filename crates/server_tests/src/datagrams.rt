//! Sockets over the loopback.

use crate::calls::{LOOPBACK, look, post, twin};
use std::io::ErrorKind;
use std::net::{Ipv4Addr, Net, UdpSocket};
use std::test::Fail;
use std::time::{Duration, Instant};
use std::{io, rt};
use wire_core::Put;
use wire_devices::{Took, UdpDatagrams};

/// What was found that came from this port.
fn found(port: u16, length: usize) -> Took {
    Took::From {
        address: LOOPBACK,
        port,
        length,
    }
}

/// A peer with a port that the system chooses, which waits a few seconds for a datagram.
fn peer(net: &HostRuntime) -> io::Result<UdpSocket> {
    let peer = UdpSocket::bind(net, (Ipv4Addr::from(LOOPBACK), 0))?;
    peer.set_read_timeout(Some(Duration::from_secs(5)))?;
    Ok(peer)
}

/// More than there is room for.
const LARGE: &[u8] = &[7; 5000];

/// Whether a datagram of 4096 octets comes, one of 5000, of which the end is lost, and then none for a tenth of a second.
fn takes_large<R: rt::Clock>(
    rt: &R,
    peer: &UdpSocket,
    port: u16,
    socket: &mut UdpDatagrams,
) -> io::Result<bool> {
    let mut buf = [0; 4096];
    let posted = post(socket, port, b"hi") == Put::Done;
    let (_, place) = peer.recv_from(&mut buf)?;
    peer.send_to(&LARGE[..4096], place)?;
    peer.send_to(LARGE, place)?;
    let full = found(port, 4096);
    let both = look(socket, &mut buf) == full && look(socket, &mut buf) == full;
    let before = Instant::now(rt)?;
    let none = look(socket, &mut buf) == Took::Nothing;
    let waited = before.elapsed(rt)? >= Duration::from_millis(50);
    Ok(posted && both && none && waited)
}

/// The port that a socket sends from.
fn port_of(peer: &UdpSocket, port: u16, socket: &mut UdpDatagrams) -> io::Result<u16> {
    let mut buf = [0; 8];
    let _ = post(socket, port, b"a");
    let (_, place) = peer.recv_from(&mut buf)?;
    Ok(place.port())
}

fn is_in_use<R: Net>(net: &R, port: u16) -> bool {
    match UdpDatagrams::bind(net, LOOPBACK, port) {
        Ok(_) => false,
        Err(error) => error.kind() == ErrorKind::AddrInUse,
    }
}

/// Whether a twin sends from the socket's port, and the port is in use for others.
fn shares_its_port<R: Net>(
    net: &R,
    peer: &UdpSocket,
    port: u16,
    socket: &mut UdpDatagrams,
) -> io::Result<bool> {
    let Some(mut twin) = twin(socket) else {
        return Ok(false);
    };
    let common = port_of(peer, port, socket)?;
    Ok(port_of(peer, port, &mut twin)? == common && is_in_use(net, common))
}

fn fails_at_each_call(socket: &mut UdpDatagrams) -> bool {
    look(socket, &mut [0; 8]) == Took::Failed
        && post(socket, 1812, b"c") == Put::Failed
        && twin(socket).is_none()
}

#[test]
fn datagrams_over_loopback(rt: HostRuntime) -> Result<(), Fail> {
    let peer = peer(&rt)?;
    let port = peer.local_addr()?.port();
    let mut socket = UdpDatagrams::bind(&rt, LOOPBACK, 0)?;
    let large = takes_large(&rt, &peer, port, &mut socket).unwrap_or(false);
    let shares = shares_its_port(&rt, &peer, port, &mut socket).unwrap_or(false);
    let closed = fails_at_each_call(&mut UdpDatagrams::closed());
    assert!(rt; large && shares && closed);
    Ok(())
}
