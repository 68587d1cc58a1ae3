//! What the table dropped, whose memory is given back later.

ghost use Rattle.std.specs.Prelude.{◌<◌};

use crate::Answer;
use crate::row::Row;
use std::alloc::Global;
use std::collections::VecDeque;
use wire_core::NoMemory;

/// How many dropped things of each kind are kept at most.
const MOST: usize = 512;

/// Where more of a kind are kept, two are freed for each that is taken.
const FEW: usize = 64;

/// After how many steps what was kept before them is freed.
const AGE: usize = 512;

/// What was dropped of one kind, oldest first.
#[derive(Drop)]
struct Dropped<T> {
    kept: VecDeque<T>,
    /// How many of them were dropped before the age began.
    old: usize,
}

impl<T: Drop> Dropped<T> {
    fn new(alloc: Global) -> Result<Dropped<T>, NoMemory> {
        Ok(Dropped {
            kept: VecDeque::with_capacity(alloc, MOST)?,
            old: 0,
        })
    }

    /// Keeps what was dropped, or frees it where enough is kept.
    fn keep(&mut self, dropped: T) {
        if self.kept.len() < MOST {
            let _ = self.kept.push_back(dropped);
        }
    }

    /// Frees the oldest.
    fn free(&mut self) {
        let _ = self.kept.pop_front();
        self.old = self.old.saturating_sub(1);
    }

    /// One of the kind is taken: frees one, and two where more than a few are kept.
    fn free_for_one(&mut self) {
        if self.kept.len() > FEW {
            self.free();
        }
        self.free();
    }

    /// An age ends: frees what was dropped before it began.
    fn end_age(&mut self) {
        for _ in 0..self.old {
            let _ = self.kept.pop_front();
        }
        self.old = self.kept.len();
    }
}

/// What was dropped, until the thread that took its memory gives it back: an allocator has memory ready for the thread that
/// freed it, and it costs more to free what another thread took. Those that put rows in take the memory of a row and of
/// what it sent, and those that settle it that of a reply. What is kept holds passwords, so none is kept for more than
/// two ages.
#[derive(Drop)]
pub(crate) struct Garbage {
    rows: Dropped<Row>,
    sent: Dropped<Answer>,
    replies: Dropped<Answer>,
    /// How many steps of the age went by.
    steps: usize,
    ghost few: { steps < 512 },
}

impl Garbage {
    pub(crate) fn new(alloc: Global) -> Result<Garbage, NoMemory> {
        Ok(Garbage {
            rows: Dropped::new(alloc)?,
            sent: Dropped::new(alloc)?,
            replies: Dropped::new(alloc)?,
            steps: 0,
        })
    }

    /// Takes a settled row that was dropped.
    pub(crate) fn take_row(&mut self, mut row: Row) {
        let reply = row.set_answer(Answer::Silent { at: 0 });
        self.replies.keep(reply);
        self.rows.keep(row);
    }

    /// Takes what a row sent that was settled.
    pub(crate) fn take_sent(&mut self, sent: Answer) {
        self.sent.keep(sent);
    }

    /// Frees what the next row that goes in takes anew.
    pub(crate) fn free_row(&mut self) {
        self.rows.free_for_one();
        self.sent.free_for_one();
    }

    /// Frees what the next reply takes anew.
    pub(crate) fn free_reply(&mut self) {
        self.replies.free_for_one();
    }

    /// A step went by.
    pub(crate) fn pass(&mut self) {
        if self.steps + 1 < AGE {
            self.steps += 1;
        } else {
            self.steps = 0;
            self.rows.end_age();
            self.sent.end_age();
            self.replies.end_age();
        }
    }
}
