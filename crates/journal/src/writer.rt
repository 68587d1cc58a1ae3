//! Writing a journal.

ghost use Rattle.std.specs.Prelude.{◌≡◌, ◌≢◌, ◌≤◌, ◌⊎◌, List, [], ℕ, Some, None, length};
ghost use Rattle.wire_core.specs.Counts.{Rose};
ghost use Rattle.text_lines.specs.Streams.{most_octets};
ghost use Rattle.text_lines.specs.Words.{lines_of};
ghost use Rattle.text_commands.specs.Tasks.{EndsBy, EndsCounts};
ghost use Rattle.journal.specs.Writing.{IsWriting, journal_task, write_task};

use crate::block::{NO_SEAL, seal_block};
use crate::printed::{print_end, print_line};
use agent_status::Status;
use std::alloc::Global;
use text_commands::{Work, run, write_text};
use wire_core::{Octets, Sink, Source};

/// The first line.
const TITLE_LINE: &[u8] = b"journal 1\n";

/// What prints the lines, the key, and the seal of the last block.
#[derive(Drop)]
pub(crate) struct Writer<W> {
    work: W,
    key: Octets,
    seal: [u8; 16],
}

impl<W: Work> Work for Writer<W> {
    ghost task = { λ writer. write_task (W.task writer.work) writer.key };

    ghost took = { IsWriting W.task W.took };

    fn take<K: Sink>(&mut self, alloc: Global, line: &[u8], sink: &mut K) -> Result<(), Status> {
        self.work.is_task();
        let printed = match print_line(alloc, &mut self.work, line) {
            Ok(printed) => printed,
            Err(status) => return Err(status),
        };
        let given = printed.as_slice();
        let Ok(block) = seal_block(alloc, self.key.as_slice(), &self.seal, Some(line), given) else {
            return Err(Status::OutOfMemory);
        };
        match write_text(sink, &block.text) {
            Ok(()) => {
                let seal = block.seal;
                self.seal = seal;
                Ok(())
            }
            Err(status) => Err(status),
        }
    }

    fn close<K: Sink>(&self, alloc: Global, sink: &mut K) -> Status {
        let printed = match print_end(alloc, &self.work) {
            Ok(printed) => printed,
            Err(status) => return status,
        };
        let given = printed.as_slice();
        let Ok(block) = seal_block(alloc, self.key.as_slice(), &self.seal, None, given) else {
            return Status::OutOfMemory;
        };
        match write_text(sink, &block.text) {
            Ok(()) => Status::Done,
            Err(status) => status,
        }
    }

    fn longest_line(&self) -> usize {
        self.work.longest_line()
    }

    fn too_long(&self) -> Status {
        self.work.too_long()
    }

    fn is_task(&self) {
        self.work.is_task();
    }
}

/// Reads the input line by line, and writes its journal under this key. Each block is written before the next line is read.
pub fn write_journal<W: Work + Drop, S: Source, K: Sink>(
    alloc: Global,
    work: W,
    key: Octets,
    input: &mut S,
    output: &mut K,
) -> Status
    requires { W.took work [] }
    ensures begun { result ≢ Status.Usage }
    ensures ends { (X : List ℕ) → S.left input.old ≡ Some X
        → EndsBy (journal_task (W.task work) key) result X (S.left input.new) (K.written output.old)
        (K.written output.new) }
    ensures counts { EndsCounts result (S.ends input.old) (S.ends input.new) (S.faults input.old)
        (S.faults input.new)
        (K.faults output.old) (K.faults output.new) }
    ensures complete { (X : List ℕ) → S.left input.old ≡ Some X
        → (W.task work).stop (lines_of X) ≡ None → length X ≤ most_octets
        → ¬ Rose (S.faults input.old) (S.faults input.new)
        → ¬ Rose (K.faults output.old) (K.faults output.new)
        → (result ≡ Status.Done) ⊎ (result ≡ Status.OutOfMemory) }
{
    work.is_task();
    let mut writer = Writer {
        work,
        key,
        seal: NO_SEAL,
    };
    match write_text(output, TITLE_LINE) {
        Ok(()) => run(alloc, &mut writer, input, output),
        Err(status) => status,
    }
}
