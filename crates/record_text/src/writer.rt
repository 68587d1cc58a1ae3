//! What writes the lines of a record.

ghost use Rattle.std.specs.Prelude.{◌≡◌, ◌⊎◌, not, IfOk, IfErr};
ghost use Rattle.wire_core.specs.Counts.{Rose};
ghost use Rattle.wire_core.specs.Sink.{Appends, AppendsPrefix};
ghost use Rattle.agent_status.specs.declared.status.Status.TheVariants.{OutOfMemory, WriteFault};
ghost use Rattle.printed_lines.specs.SettingsText.{settings_text};
ghost use Rattle.record_text.specs.Lines.{WroteLines, text_of};

use agent_settings::Config;
use agent_status::Status;
use printed_lines::{print_event, print_settings};
use run_record::{Entry, EntryWriter};
use std::alloc::Global;
use std::collections::LinkedList;
use std::sync::Wait;
use std::time::Duration;
use std::{rt, thread};
use wire_core::{NoMemory, Put, Sink};

/// How long entries gather, in milliseconds.
const REST: u64 = 20;

/// The lines of so many entries are written at once, which spares writes.
const PIECE: usize = 64;

/// What stood on a sink before the first entry, where the sink tells it. Contracts alone speak of it.
#[derive(Drop)]
pub struct TextBase {
    pub written: Option<LinkedList<u8>>,
}

/// Writes each entry of a record as a line of a transcript, and nothing once a write failed.
#[derive(Drop)]
pub struct RecordText<R, K> {
    rt: R,
    alloc: Global,
    pub sink: K,
    pub faults: u64,
}

impl<R, K> RecordText<R, K> {
    /// What writes to this sink, behind what stands there.
    pub fn new(rt: R, alloc: Global, sink: K) -> RecordText<R, K>
        ensures sink { result.sink ≡ sink }
        ensures faults { result.faults ≡ 0 }
    {
        RecordText {
            rt,
            alloc,
            sink,
            faults: 0,
        }
    }
}

impl<R, K: Sink> RecordText<R, K> {
    /// Writes the lines of the settings that a run has, before its first entry.
    pub fn begin(&mut self, config: &Config) -> Result<(), Status>
        ensures done { IfOk result (λ _. Appends (K.written self.old.sink) (K.written self.new.sink)
            (settings_text config.now)) }
        ensures failed { IfErr result (λ status. ((status ≡ WriteFault)
            × Rose (K.faults self.old.sink) (K.faults self.new.sink)) ⊎ (status ≡ OutOfMemory)) }
        ensures cut { IfErr result (λ _. AppendsPrefix (K.written self.old.sink)
            (K.written self.new.sink) (settings_text config.now)) }
        ensures faults { self.new.faults ≡ self.old.faults }
    {
        let Ok(lines) = print_settings(self.alloc, config) else {
            return Err(Status::OutOfMemory);
        };
        match self.sink.write(lines.as_slice()) {
            Put::Done => Ok(()),
            Put::Failed => Err(Status::WriteFault),
        }
    }
}

/// The lines of these entries.
fn lines_of(alloc: Global, entries: &[Entry]) -> Result<Vec<u8>, NoMemory>
    ensures { IfOk result (λ lines. lines.items ≡ text_of entries.now) }
{
    let mut lines = Vec::new(alloc);
    for entry in entries {
        let line = print_event(alloc, entry.moment, &entry.input)?;
        lines.extend_from_slice(line.as_slice())?;
    }
    Ok(lines)
}

/// Writes the lines of these entries at once. It says whether they were written whole.
fn write_piece<K: Sink>(alloc: Global, sink: &mut K, entries: &[Entry]) -> bool
    ensures { WroteLines (not result) (K.written sink.old) (K.written sink.new)
        (text_of entries.now) }
{
    match lines_of(alloc, entries) {
        Ok(lines) => matches!(sink.write(lines.as_slice()), Put::Done),
        Err(_) => false,
    }
}

/// Writes the lines of these entries, piece by piece, until one can't be written whole. It says whether all were.
fn write_lines<K: Sink>(alloc: Global, sink: &mut K, entries: &[Entry]) -> bool
    ensures { WroteLines (not result) (K.written sink.old) (K.written sink.new)
        (text_of entries.now) }
{
    for piece in entries.chunks(PIECE) {
        if !write_piece(alloc, sink, piece) {
            return false;
        }
    }
    true
}

impl<R: Wait + rt::Clock + Send + Drop + 'static, K: Sink + Send + Drop + 'static> EntryWriter
    for RecordText<R, K> {
    ghost use Rattle.record_text.specs.Lines.{StandsWritten};

    type Base = TextBase;

    ghost stands = { StandsWritten K.written };

    ghost faults = { λ w. w.faults };

    fn write(&mut self, entries: &[Entry]) -> Put {
        if self.faults > 0 {
            self.faults = self.faults.saturating_add(1);
            return Put::Failed;
        }
        if write_lines(self.alloc, &mut self.sink, entries) {
            Put::Done
        } else {
            self.faults = 1;
            Put::Failed
        }
    }

    fn rest(&mut self) {
        thread::sleep(&self.rt, Duration::from_millis(REST));
    }
}
