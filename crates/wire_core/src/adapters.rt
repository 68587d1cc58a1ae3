//! std's reader and writer as a source and a sink. They tell nothing of content: what the world gives and
//! takes is trusted, and so are these few lines.

ghost use Rattle.std.specs.Prelude.{◌≡◌, ◌≤◌, length, None, IfSome};

use crate::outside::{Got, Put, Sink, Source};
use std::io::{ErrorKind, Read, Write};
use std::marker::Model;

/// A reader of std as a source. A read that a signal interrupts is tried again.
#[derive(Drop)]
pub struct ReaderSource<R> {
    reader: R,
    faults: u64,
    ends: u64,
}

impl<R> Model for ReaderSource<R> {
    ghost use Rattle.wire_core.specs.Forms.{ReaderCounts};

    ghost Value = { ReaderCounts };

    ghost view = { λ s. record { faults = s.faults; ends = s.ends } };
}

impl<R> ReaderSource<R> {
    /// A source that has read nothing yet.
    pub fn new(reader: R) -> ReaderSource<R>
        ensures { result ≡ record { faults = 0; ends = 0 } }
    {
        ReaderSource {
            reader,
            faults: 0,
            ends: 0,
        }
    }
}

impl<R: Read> Source for ReaderSource<R> {
    ghost left = { λ _. None };

    ghost faults = { λ s. s.faults };

    ghost ends = { λ s. s.ends };

    fn read(&mut self, buf: &mut [u8]) -> Got {
        match read_uninterrupted(&mut self.reader, buf) {
            Some(0) if !buf.is_empty() => {
                self.ends = self.ends.saturating_add(1);
                Got::End
            }
            Some(n) => Got::Bytes(n),
            None => {
                self.faults = self.faults.saturating_add(1);
                Got::Failed
            }
        }
    }
}

/// One read, tried again where a signal interrupts it.
fn read_uninterrupted<R: Read>(reader: &mut R, buf: &mut [u8]) -> Option<usize>
    ensures { IfSome result (λ n. n ≤ length buf.new) }
{
    for _ in 0..u64::MAX {
        match reader.read(buf) {
            Ok(n) => return Some(n),
            Err(e) if e.kind() == ErrorKind::Interrupted => {}
            Err(_) => return None,
        }
    }
    None
}

/// A writer of std as a sink. `Put::Done` means that the piece was written and flushed.
#[derive(Drop)]
pub struct WriterSink<W> {
    writer: W,
    faults: u64,
}

impl<W> Model for WriterSink<W> {
    ghost use Rattle.std.specs.Prelude.{ℕ};

    ghost Value = { ℕ };

    ghost view = { λ s. s.faults };
}

impl<W> WriterSink<W> {
    /// A sink that has written nothing yet.
    pub fn new(writer: W) -> WriterSink<W>
        ensures { result ≡ 0 }
    {
        WriterSink { writer, faults: 0 }
    }
}

impl<W: Write> Sink for WriterSink<W> {
    ghost written = { λ _. None };

    ghost faults = { λ s. s };

    fn write(&mut self, piece: &[u8]) -> Put {
        let result = self
            .writer
            .write_all(piece)
            .and_then(|()| self.writer.flush());
        match result {
            Ok(()) => Put::Done,
            Err(_) => {
                self.faults = self.faults.saturating_add(1);
                Put::Failed
            }
        }
    }
}
