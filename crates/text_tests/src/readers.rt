//! Lines of a transcript, given one by one and of a source.

use std::alloc::Global;
use std::test::Fail;
use text_lines::{RawLine, RawLines, number_in};
use transcript::{Line, LineFault, LineReader, Lines};
use wire_core::{MemorySource, NoMemory};

/// Lines of a transcript, each with how many inputs it ends. The octets of the link are a message in two pieces, two
/// messages and what is none, what follows that, and what is none of a new stream.
const LINES: &str = "\
agent a b c 192.0.2.1 0 1000 1 2 6000|0
7 up|1
7 link 010000140000010100000000|0
7 link 0000000000000000|1
7 link 0100001400000101000000000000000000000000010000140000010100000000000000000000000002|3
7 link 02|0
7 ready|1
7 link 01000015|1";

/// Whether a line is read as that many inputs of the moment 7, or as settings.
fn is_read(line: &Result<Line, LineFault>, count: &str) -> bool {
    match line {
        Ok(Line::Agent { number, .. }) => *number == 1,
        Ok(Line::Event { moment, inputs, .. }) => {
            *moment == 7
                && number_in(count.as_bytes(), 3) == Some(inputs.len() as u64)
                && inputs.as_slice().len() == inputs.len()
        }
        _ => false,
    }
}

/// Whether the next line is taken as it is to be.
fn is_taken(reader: &mut LineReader, case: &str) -> bool {
    match case.split_once('|') {
        Some((line, count)) => is_read(&reader.take(line.as_bytes()), count),
        None => false,
    }
}

#[test]
fn octets_of_the_link(rt: HostRuntime) -> Result<(), Fail> {
    let mut reader = LineReader::new(rt.alloc())?;
    for case in LINES.lines() {
        assert!(rt; is_taken(&mut reader, case), "{case}");
    }
    let long = LineFault::Bad { line: 9, reason: 1 };
    assert!(rt; reader.too_long() == long);
    Ok(())
}

/// Two lines, of which the last one ends with its source.
const TEXT: &[u8] = b"agent a b c 192.0.2.1 0 1000 1 2 6000\n0 ready";

/// Whether the lines are there, and then none.
fn are_all(lines: &mut Lines<'_, MemorySource>) -> Result<bool, LineFault> {
    Ok(lines.next_line()?.is_some() && lines.next_line()?.is_some() && lines.next_line()?.is_none())
}

/// Whether the source is given back when all its lines were read.
fn gives_lines(alloc: Global) -> Result<bool, LineFault> {
    let mut source = MemorySource::new(alloc, TEXT, 7, &[])?;
    let mut lines = Lines::new(alloc, &mut source)?;
    let is_given = are_all(&mut lines)?;
    lines.into_source();
    Ok(is_given)
}

/// Whether a source that fails once is a fault from then on.
fn gives_fault(alloc: Global) -> Result<bool, NoMemory> {
    let mut source = MemorySource::new(alloc, TEXT, 7, &[3])?;
    let mut lines = Lines::new(alloc, &mut source)?;
    let first = lines.next_line().err();
    let second = lines.next_line().err();
    lines.into_source();
    Ok(first == Some(LineFault::Read) && second == Some(LineFault::Read))
}

/// Whether the source's next line ends so, and is this.
fn is_next(lines: &mut RawLines, source: &mut MemorySource, end: RawLine, wanted: &[u8]) -> bool {
    lines.next_line(source) == Ok(end) && lines.line() == wanted
}

/// Whether a source is cut into lines.
fn cuts_lines(alloc: Global) -> Result<bool, NoMemory> {
    let mut source = MemorySource::new(alloc, b"ab\ncd", 4, &[])?;
    let mut lines = RawLines::new(alloc, 100)?;
    Ok(
        is_next(&mut lines, &mut source, RawLine::Line, b"ab")
            && is_next(&mut lines, &mut source, RawLine::LastLine, b"cd")
            && is_next(&mut lines, &mut source, RawLine::End, b""),
    )
}

/// Settings and a control line.
const AGENT: &str = "agent a b c 192.0.2.1 0 1000 1 2 6000";

const CONTROL: &str = "7 control 192.168.1.16 3799 2900";

const CONTROL_TEXT: &[u8] = b"\
agent a b c 192.0.2.1 0 1000 1 2 6000
7 control 192.168.1.16 3799 2900
";

/// Whether the control line is read as the second one.
fn is_control(line: &Result<Line, LineFault>) -> bool {
    match line {
        Ok(
            Line::Control {
                number,
                moment,
                address,
                port,
                octets,
            },
        ) => {
            (*number, *moment, *address, *port) == (2, 7, 0xc0a8_0110, 3799)
                && octets.as_slice() == b"\x29\x00".as_slice()
        }
        _ => false,
    }
}

/// Whether a reader with control takes a control line, and one without control refuses it.
fn takes_control(alloc: Global) -> Result<bool, NoMemory> {
    let refused = LineFault::Bad { line: 2, reason: 2 };
    let mut reader = LineReader::with_control(alloc)?;
    let mut plain = LineReader::new(alloc)?;
    Ok(
        is_read(&reader.take(AGENT.as_bytes()), "0")
            && is_control(&reader.take(CONTROL.as_bytes()))
            && is_read(&plain.take(AGENT.as_bytes()), "0")
            && plain.take(CONTROL.as_bytes()).err() == Some(refused),
    )
}

/// Whether a source gives a control line.
fn gives_control(alloc: Global) -> Result<bool, LineFault> {
    let mut source = MemorySource::new(alloc, CONTROL_TEXT, 7, &[])?;
    let mut lines = Lines::with_control(alloc, &mut source)?;
    let first = lines.next_line()?.is_some();
    let second = lines.next_line()?;
    lines.into_source();
    Ok(first && second.is_some_and(|line| is_control(&Ok(line))))
}

#[test]
fn lines_of_a_source(rt: HostRuntime) -> Result<(), Fail> {
    assert!(rt; gives_lines(rt.alloc())?);
    assert!(rt; gives_fault(rt.alloc())?);
    assert!(rt; cuts_lines(rt.alloc())?);
    assert!(rt; takes_control(rt.alloc())?);
    assert!(rt; gives_control(rt.alloc())?);
    Ok(())
}
