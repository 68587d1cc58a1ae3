//! Checking a journal, line by line.

ghost use Rattle.std.specs.Prelude.{◌≡◌, ◌∷◌, ◌++◌, List, [], ℕ};
ghost use Rattle.wire_core.specs.Counts.{one_more};
ghost use Rattle.text_lines.specs.Streams.{IsUnended};
ghost use Rattle.text_commands.specs.Tasks.{ended_text};
ghost use Rattle.journal.specs.Checking as checking;
ghost use Rattle.journal.specs.Checking.{Blocks, Nothing, Seen, check_task, end_lines, end_step, said_step, verdict_at};
ghost use Rattle.journal.specs.Stands.{GoesOn, HasChecked, IsAt, StepsTo};

use crate::block::{LONGEST_LINE, NO_SEAL, SAID, seal_block};
use crate::due::Due;
use crate::printed::{print_end, print_line};
use crate::verdict::{Verdict, verdict_line};
use agent_status::Status;
use std::alloc::Global;
use text_commands::{Work, write_text};
use wire_core::{Octets, Sink};

/// The first line, without its end.
const TITLE: &[u8] = b"journal 1";

/// Where the next line of a journal stands.
#[derive(Clone, Copy, PartialEq, Eq)]
pub(crate) enum LinePlace {
    Title,
    /// The first line of a block.
    Block,
    /// A further line of a block.
    Within,
    /// A further line of the last block.
    Ending,
    /// Behind the last block.
    Behind,
}

/// What prints the lines, the key, the seal of the last block, and what of the journal was seen.
#[derive(Drop)]
pub(crate) struct Checker<W> {
    work: W,
    key: Octets,
    place: LinePlace,
    seal: [u8; 16],
    due: Due,
    /// How many lines there were. A count stands still at its end.
    lines: u64,
    /// How many of them were the input's.
    said: u64,
}

/// Why a line isn't the next one.
#[derive(Clone, Copy)]
pub(crate) enum StepFault {
    Bad { reason: u32 },
    NoMemory,
}

/// The number of the line after so many.
fn number_after(lines: u64) -> u64
    ensures { result ≡ one_more lines }
{
    lines.saturating_add(1)
}

impl<W: Work + Drop> Checker<W> {
    /// Before the first line.
    pub(crate) fn new(alloc: Global, work: W, key: Octets) -> Checker<W>
        requires { W.took work [] }
        ensures at { IsAt W.task W.took result Nothing }
        ensures given { (result.work ≡ work) × (result.key ≡ key) × (result.lines ≡ 0) }
    {
        Checker {
            work,
            key,
            place: LinePlace::Title,
            seal: NO_SEAL,
            due: Due::none(alloc),
            lines: 0,
            said: 0,
        }
    }
}

impl<W: Work> Checker<W> {
    /// The number of the next line.
    pub(crate) fn number(&self) -> u64
        ensures { result ≡ one_more self.now.lines }
    {
        number_after(self.lines)
    }

    /// The verdict where no line follows.
    pub(crate) fn verdict(&self) -> Verdict
        ensures { (seen : Seen) → IsAt W.task W.took self.now seen
            → result ≡ verdict_at (one_more self.now.lines) seen }
    {
        match self.place {
            LinePlace::Behind => Verdict::Yes { lines: self.said },
            _ => Verdict::No {
                line: self.number(),
                reason: 4,
            },
        }
    }

    /// Takes the title.
    fn take_title(&mut self, line: &[u8]) -> Result<(), StepFault>
        ensures { IsAt W.task W.took self.old Nothing
            → StepsTo W.task W.took result
            (checking.step (W.task self.old.work) self.old.key Nothing line.now) self.old self.new }
    {
        if line != TITLE {
            return Err(StepFault::Bad { reason: 1 });
        }
        self.place = LinePlace::Block;
        Ok(())
    }

    /// Takes a line of the input, behind its mark: its block and the seal are due behind it.
    fn take_said(&mut self, alloc: Global, said: &[u8]) -> Result<(), StepFault>
        requires { (lines : List (List ℕ))
            × ((seal : List ℕ) × IsAt W.task W.took self.old (Blocks lines seal)) }
        ensures { (lines : List (List ℕ)) (seal : List ℕ)
            → IsAt W.task W.took self.old (Blocks lines seal)
            → StepsTo W.task W.took result
            (said_step (W.task self.old.work) self.old.key lines seal said.now
            ((W.task self.old.work).stop (lines ++ said.now ∷ []))) self.old self.new }
    {
        let printed = match print_line(alloc, &mut self.work, said) {
            Ok(printed) => printed,
            Err(Status::BadTranscript { .. }) => return Err(StepFault::Bad { reason: 1 }),
            Err(_) => return Err(StepFault::NoMemory),
        };
        let given = printed.as_slice();
        let Ok(block) = seal_block(alloc, self.key.as_slice(), &self.seal, Some(said), given) else {
            return Err(StepFault::NoMemory);
        };
        let seal = block.seal;
        self.due = Due::behind(block.text, said.len() + 3);
        self.seal = seal;
        self.said = number_after(self.said);
        self.place = LinePlace::Within;
        Ok(())
    }

    /// Takes the first line of the last block.
    fn take_end(&mut self, alloc: Global, line: &[u8]) -> Result<(), StepFault>
        ensures { (lines : List (List ℕ)) (seal : List ℕ)
            → IsAt W.task W.took self.old (Blocks lines seal)
            → StepsTo W.task W.took result (end_step lines
            (end_lines (W.task self.old.work) self.old.key lines seal) line.now) self.old self.new }
    {
        let Ok(printed) = print_end(alloc, &self.work) else {
            return Err(StepFault::NoMemory);
        };
        let given = printed.as_slice();
        let Ok(block) = seal_block(alloc, self.key.as_slice(), &self.seal, None, given) else {
            return Err(StepFault::NoMemory);
        };
        self.due = Due::behind(block.text, 0);
        self.take_due(line, LinePlace::Ending, LinePlace::Behind)
    }

    /// Takes the line that is due. The next one stands at this place, or at the other where none is due.
    fn take_due(&mut self, line: &[u8], place: LinePlace, over: LinePlace) -> Result<(), StepFault>
        ensures { (due : List ℕ) (more : List (List ℕ)) → IsUnended due
            → self.old.due ≡ ended_text (due ∷ more)
            → GoesOn result due line.now more place over self.old self.new }
    {
        match self.due.take(line) {
            Ok(()) => {
                self.place = if self.due.is_empty() { over } else { place };
                Ok(())
            }
            Err(reason) => Err(StepFault::Bad { reason }),
        }
    }

    /// Takes the next line.
    fn step(&mut self, alloc: Global, line: &[u8]) -> Result<(), StepFault>
        requires { (seen : Seen) × IsAt W.task W.took self.old seen }
        ensures { (seen : Seen) → IsAt W.task W.took self.old seen
            → StepsTo W.task W.took result
            (checking.step (W.task self.old.work) self.old.key seen line.now) self.old self.new }
    {
        match self.place {
            LinePlace::Title => self.take_title(line),
            LinePlace::Block if line.starts_with(SAID) => self.take_said(alloc, &line[2..]),
            LinePlace::Block => self.take_end(alloc, line),
            LinePlace::Within => self.take_due(line, LinePlace::Within, LinePlace::Block),
            LinePlace::Ending => self.take_due(line, LinePlace::Ending, LinePlace::Behind),
            LinePlace::Behind => Err(StepFault::Bad { reason: 1 }),
        }
    }
}

impl<W: Work> Work for Checker<W> {
    ghost task = { λ checker. check_task (W.task checker.work) checker.key };

    ghost took = { HasChecked W.task W.took };

    fn take<K: Sink>(&mut self, alloc: Global, line: &[u8], _sink: &mut K) -> Result<(), Status> {
        let number = self.number();
        match self.step(alloc, line) {
            Ok(()) => {
                self.lines = number;
                Ok(())
            }
            Err(StepFault::Bad { reason }) => Err(Status::BadTranscript {
                line: number,
                reason,
            }),
            Err(StepFault::NoMemory) => Err(Status::OutOfMemory),
        }
    }

    fn close<K: Sink>(&self, alloc: Global, sink: &mut K) -> Status {
        let Ok(line) = verdict_line(alloc, self.verdict()) else {
            return Status::OutOfMemory;
        };
        match write_text(sink, line.as_slice()) {
            Ok(()) => Status::Done,
            Err(status) => status,
        }
    }

    fn longest_line(&self) -> usize {
        LONGEST_LINE
    }

    fn too_long(&self) -> Status {
        Status::BadTranscript {
            line: self.number(),
            reason: 1,
        }
    }

    fn is_task(&self) {}
}
