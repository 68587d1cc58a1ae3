//! Sources and sinks: those of memory, and those over a reader and a writer that fail in mid-stream.

use std::alloc::{AllocError, Global};
use std::io::{self, ErrorKind, Read, Write};
use std::test::Fail;
use wire_core::{
    Got, MemorySink, MemorySource, Put, ReaderSource, Sink, Source, SteadySink, SteadySource,
    WriterSink,
};

/// What a source answers to so many reads into one buffer of four octets: the count of octets and then the whole buffer,
/// or `!` for a fault and `.` for the end.
fn reads<S: Source>(alloc: Global, input: &mut S, count: usize) -> Result<Vec<u8>, AllocError> {
    let mut answers = Vec::new(alloc);
    let mut buf = *b"----";
    for _ in 0..count {
        match input.read(&mut buf) {
            Got::Bytes(length) => {
                answers.push(b'0'.saturating_add(length.min(4) as u8))?;
                answers.extend_from_slice(&buf)?;
            }
            Got::End => answers.push(b'.')?,
            Got::Failed => answers.push(b'!')?,
        }
    }
    Ok(answers)
}

/// Whether a sink takes a piece.
fn takes<K: Sink>(output: &mut K, piece: &[u8]) -> bool {
    output.write(piece) == Put::Done
}

/// Each call fails, is interrupted or moves one octet, by its number. The second flush fails.
#[derive(Drop)]
struct Flaky {
    calls: u8,
    flushes: u8,
}

impl Flaky {
    fn call(&mut self) -> io::Result<usize> {
        self.calls = self.calls.saturating_add(1);
        match self.calls {
            1 => Err(io::Error::from(ErrorKind::Interrupted)),
            2 => Ok(1),
            3 => Err(io::Error::from(ErrorKind::BrokenPipe)),
            _ => Ok(0),
        }
    }
}

impl Read for Flaky {
    fn read(&mut self, buf: &mut [u8]) -> io::Result<usize> {
        let count = self.call()?.min(buf.len());
        buf[..count].fill(b'a');
        Ok(count)
    }
}

impl Write for Flaky {
    fn write(&mut self, buf: &[u8]) -> io::Result<usize> {
        Ok(self.call()?.min(buf.len()))
    }

    fn flush(&mut self) -> io::Result<()> {
        self.flushes = self.flushes.saturating_add(1);
        match self.flushes {
            2 => Err(io::Error::from(ErrorKind::BrokenPipe)),
            _ => Ok(()),
        }
    }
}

#[test]
fn reads_with_and_without_faults(rt: HostRuntime) -> Result<(), Fail> {
    let mut cut = MemorySource::new(rt.alloc(), b"hello", 2, &[1])?;
    assert!(rt; reads(rt.alloc(), &mut cut, 5)?.as_slice() == b"2he--!2ll--1ol--.".as_slice());
    let mut steady = SteadySource::new(rt.alloc(), b"hello", 9)?;
    assert!(rt; steady.read(&mut []) == Got::Bytes(0));
    assert!(rt; reads(rt.alloc(), &mut steady, 3)?.as_slice() == b"4hell1oell.".as_slice());
    let mut flaky = ReaderSource::new(Flaky {
        calls: 0,
        flushes: 0,
    });
    assert!(rt; reads(rt.alloc(), &mut flaky, 3)?.as_slice() == b"1a---!.".as_slice());
    Ok(())
}

#[test]
fn writes_to_memory(rt: HostRuntime) -> Result<(), Fail> {
    let mut cut = MemorySink::new(rt.alloc(), 2, &[1])?;
    assert!(rt; takes(&mut cut, b"ab") && !takes(&mut cut, b"cdef") && takes(&mut cut, b"gh"));
    assert!(rt; cut.as_slice() == b"abcdgh".as_slice());
    let mut steady = SteadySink::new(rt.alloc(), 3)?;
    assert!(rt; takes(&mut steady, b"ab") && takes(&mut steady, b"cd"));
    assert!(rt; steady.as_slice() == b"abc".as_slice());
    Ok(())
}

/// A write is whole only where its flush is done.
#[test]
fn writes_to_a_writer(rt: HostRuntime) {
    let mut text = Vec::new(rt.alloc());
    assert!(rt; takes(&mut WriterSink::new(&mut text), b"ab"));
    assert!(rt; text.as_slice() == b"ab".as_slice());
    // a write, a write whose flush fails, and a write that fails
    let mut output = WriterSink::new(Flaky {
        calls: 0,
        flushes: 0,
    });
    assert!(rt; takes(&mut output, b"a") && !takes(&mut output, b"") && !takes(&mut output, b"b"));
}
