//! The calls of the devices, each through the bound of its trait.

use wire_core::Put;
use wire_devices::{Clock, Datagrams, Dialer, LinkGot, LinkIn, LinkOut, Took};

/// 127.0.0.1.
pub(crate) const LOOPBACK: u32 = 0x7f00_0001;

pub(crate) fn now<C: Clock>(clock: &mut C) -> u64 {
    clock.now()
}

pub(crate) fn look<D: Datagrams>(socket: &mut D, buf: &mut [u8]) -> Took {
    socket.receive(buf)
}

pub(crate) fn post<D: Datagrams>(socket: &mut D, port: u16, octets: &[u8]) -> Put {
    socket.send(LOOPBACK, port, octets)
}

pub(crate) fn twin<D: Datagrams>(socket: &mut D) -> Option<D> {
    socket.twin()
}

pub(crate) fn hear<I: LinkIn>(link: &mut I, buf: &mut [u8]) -> LinkGot {
    link.receive(buf)
}

pub(crate) fn speak<O: LinkOut>(link: &mut O, octets: &[u8]) -> Put {
    link.rest();
    link.send(octets)
}

pub(crate) fn rest<O: LinkOut>(link: &mut O) {
    link.rest();
}

pub(crate) fn let_go<O: LinkOut>(link: &mut O) {
    link.close();
}

pub(crate) fn dial<L: Dialer>(dialer: &mut L) -> Option<(L::In, L::Out)> {
    dialer.dial()
}

/// What the first look at the link of the next dial finds.
pub(crate) fn first_look<L: Dialer>(dialer: &mut L) -> Option<LinkGot>
where
    L::In: Drop,
    L::Out: Drop,
{
    let (mut link_in, _link_out) = dial(dialer)?;
    Some(hear(&mut link_in, &mut [0; 8]))
}
