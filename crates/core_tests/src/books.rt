//! Steps of a book of sessions beside a core.

use crate::cores::settings;
use agent_events::{Input, Output};
use radius_packet::Via;
use session_book::{BookCore, BookInput, BookOutput, BookOutputs};
use std::alloc::Global;
use std::hash::RandomState;
use std::process::Abort;
use std::test::Fail;
use wire_core::Octets;

/// The Start of a session, the home server's request to end it, and the access server's answer that it did.
const START: &str = "\
040900401f1aed5ba1e92cc4f7b73567ff20f4f628060000000101066e656d6f2c044131\
191c4469616d657465722f6167656e742e6578616d706c653b373b30";

const ABORT: &str = "\
01000044c000011200000001000000090000000a\
00000107400000196167656e742e6578616d706c653b373b30000000\
0000010840000014686f6d652e6578616d706c65";

const ACK: &str = "29000014b17b764073d8a212d53458f0cf9048fb";

/// What the access server is asked, and what the home server is told.
const ASKED: &str = "280000249ca36dc238c6313e1f9fb7d59cd65bf101066e656d6f0406c0a801102c044131";

const TOLD: &str = "\
010000644000011200000001000000090000000a\
00000107400000196167656e742e6578616d706c653b373b30000000\
0000010c4000000c000007d1\
00000108400000156167656e742e6578616d706c65000000\
000001284000000f6578616d706c6500";

fn octets(alloc: Global, digits: &str) -> Result<Octets, Fail> {
    Ok(Octets::from_vec(hex::decode(alloc, digits)?))
}

fn start(alloc: Global) -> Result<BookInput, Fail> {
    Ok(BookInput::Core {
        input: Input::Datagram {
            via: Via::Acct,
            address: 0xc0a8_0110,
            port: 1812,
            octets: octets(alloc, START)?,
        },
    })
}

fn abort(alloc: Global) -> Result<BookInput, Fail> {
    Ok(BookInput::Core {
        input: Input::Message {
            octets: octets(alloc, ABORT)?,
        },
    })
}

fn answer(alloc: Global) -> Result<BookInput, Fail> {
    Ok(BookInput::Control {
        address: 0xc0a8_0110,
        port: 3799,
        octets: octets(alloc, ACK)?,
    })
}

/// What the one output is: the kind, and its octets or the number of its reason.
fn only(outputs: &BookOutputs) -> (&'static str, &[u8], u32) {
    if outputs.as_slice().len() != 1 {
        return ("", b"", 0);
    }
    match outputs.as_slice().first() {
        Some(
            BookOutput::Core {
                output: Output::Send { octets },
            },
        ) => ("send", octets.as_slice(), 0),
        Some(BookOutput::Control { port, octets, .. }) => {
            ("control", octets.as_slice(), u32::from(*port))
        }
        Some(BookOutput::Dropped { reason }) => ("drop", b"", reason.number()),
        _ => ("", b"", 0),
    }
}

/// Whether the one output of a step is this.
fn gives(
    book: &mut BookCore,
    alloc: Global,
    moment: u64,
    input: &BookInput,
    wanted: (&str, &str, u32),
) -> Result<bool, Fail> {
    let outputs = book.step(alloc, moment, input)?;
    let digits = hex::decode(alloc, wanted.1)?;
    let (kind, octets, number) = only(&outputs);
    Ok(kind == wanted.0 && octets == digits.as_slice() && number == wanted.2)
}

/// A session begins, the home server ends it, twice, and the access server says that it did, twice.
fn walk(rt: &impl Abort, alloc: Global, book: &mut BookCore) -> Result<(), Fail> {
    let ready = BookInput::Core {
        input: Input::Ready,
    };
    assert!(rt; book.config().capacity == 64);
    assert!(rt; book.step(alloc, 0, &ready)?.as_slice().is_empty());
    assert!(rt; book.step(alloc, 1_000, &start(alloc)?)?.into_vec().len() == 1);
    let (abort, answer) = (abort(alloc)?, answer(alloc)?);
    assert!(rt; gives(book, alloc, 2_000, &abort, ("control", ASKED, 3799))?);
    assert!(rt; gives(book, alloc, 2_050, &abort, ("drop", "", 26))?);
    assert!(rt; gives(book, alloc, 2_100, &answer, ("send", TOLD, 0))?);
    assert!(rt; gives(book, alloc, 2_150, &answer, ("drop", "", 27))?);
    Ok(())
}

#[test]
fn a_book_asks_to_end_a_session(rt: HostRuntime) -> Result<(), Fail> {
    let mut book = BookCore::new(rt.alloc(), RandomState::new(&rt)?, settings(rt.alloc())?)?;
    let walked = walk(&rt, rt.alloc(), &mut book);
    drop(book);
    walked
}
