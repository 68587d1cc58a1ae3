//! Lines that are printed, shown and generated.

use agent_events::Output;
use generated_logins::{GenerateFault, Generator, generate};
use printed_lines::{
    ShowFault, print, print_control, print_drop, print_end, print_end_with_controls, show_line,
};
use radius_packet::Reason;
use std::alloc::Global;
use std::test::Fail;
use wire_core::{MemorySink, NoMemory, Octets};

/// Whether this line was made.
pub(crate) fn is_line(made: &Result<Octets, NoMemory>, wanted: &str) -> bool {
    match made {
        Ok(line) => line.as_slice() == wanted.as_bytes(),
        Err(_) => false,
    }
}

/// Whether a drop is printed.
fn prints_drop(alloc: Global) -> bool {
    let reason = Reason::Waiting;
    is_line(
        &print(alloc, 7, &Output::Dropped { reason }),
        "7 drop 17 Waiting\n",
    )
}

/// Whether the last line is printed.
fn prints_end(alloc: Global) -> bool {
    is_line(&print_end(alloc, 2, 1, 0), "end 2 1 0\n")
}

/// Whether the lines of control packets are printed.
fn prints_controls(alloc: Global) -> bool {
    is_line(
        &print_control(alloc, 7, 0xc0a8_0110, 3799, b"\x29\x00"),
        "7 control 192.168.1.16 3799 2900\n",
    ) && is_line(
        &print_drop(alloc, 7, 26, "AbortOpen"),
        "7 drop 26 AbortOpen\n",
    ) && is_line(&print_end_with_controls(alloc, 4, 3, 2, 1), "end 4 3 2 1\n")
}

/// Whether octets are shown, and a line that has none isn't.
fn shows(alloc: Global) -> Result<bool, ShowFault> {
    let shown = show_line(alloc, b"radius 0105")?;
    Ok(
        shown.as_slice() == b"fault 1 Short\n".as_slice()
            && show_line(alloc, b"radius").err() == Some(ShowFault::Bad { reason: 2 }),
    )
}

/// How the lines of one login begin.
const LOGIN: &str = "\
agent agent.example example example 192.0.2.1 0 1000 64 64 30000
client gen 10.0.0.1 736563726574 gen.example example plain refuse -
0 ready
0 auth 10.0.0.1 1812 010000210000000000000000000000000000000001077573657230050600000000
0 link 01000078
0 drain";

/// Whether the next line begins so.
fn begins(generator: &mut Generator, wanted: &str) -> bool {
    match generator.next_line() {
        Ok(Some(line)) => line.as_slice().starts_with(wanted.as_bytes()),
        _ => false,
    }
}

/// Whether all lines begin so.
fn all_begin(generator: &mut Generator) -> bool {
    for wanted in LOGIN.lines() {
        if !begins(generator, wanted) {
            return false;
        }
    }
    matches!(generator.next_line(), Ok(None))
}

/// Whether a sink whose second write fails gets the first line and half of the second.
fn writes_part(alloc: Global, sink: &mut MemorySink) -> bool {
    generate(alloc, 1, 1, sink) == Err(GenerateFault::Write)
        && Some(sink.as_slice()) == LOGIN.as_bytes().get(..99)
}

#[test]
fn printed_lines(rt: HostRuntime) -> Result<(), Fail> {
    assert!(rt; prints_drop(rt.alloc()));
    assert!(rt; prints_end(rt.alloc()));
    assert!(rt; prints_controls(rt.alloc()));
    assert!(rt; shows(rt.alloc())?);
    Ok(())
}

#[test]
fn generated_lines(rt: HostRuntime) -> Result<(), Fail> {
    assert!(rt; all_begin(&mut Generator::new(rt.alloc(), 1, 1)));
    let mut sink = MemorySink::new(rt.alloc(), 1_024, &[1])?;
    assert!(rt; writes_part(rt.alloc(), &mut sink));
    Ok(())
}
