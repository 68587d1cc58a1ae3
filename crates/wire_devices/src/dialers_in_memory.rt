//! Dialers over memory.

ghost use Rattle.std.specs.Prelude.{◌≡◌, Some, None, drop, slice_get, unwrap_or, vec_capacity, if◌then◌else◌, IfSome, IsSome};
ghost use Rattle.wire_core.specs.Counts.{Counts};
ghost use Rattle.wire_devices.specs.Links.{IsFreshInlet, IsFreshOutlet};
ghost use Rattle.wire_devices.specs.Telling.{TellsOnly};
ghost use Rattle.wire_devices.specs.Dialling.{Dialled};
ghost use Rattle.wire_devices.specs.Forms.{plan_of, is_due, next_call, made_of, made_of_planned, empty_script, empty_planned_script, told_of_stream, told_of_wall, told_of_planned_stream, told_of_planned_wall};

use crate::devices::Dialer;
use crate::links_in_memory::{MemoryLinkIn, MemoryLinkOut, SteadyLinkIn, SteadyLinkOut};
use crate::plans::{CallPlan, next_look};
use std::alloc::Global;
use std::collections::VecDeque;
use std::marker::Model;

/// What a link that never fails is made of.
#[derive(Drop)]
pub struct SteadyLine {
    octets: Vec<u8>,
    looks: VecDeque<usize>,
    room: Vec<u8>,
}

impl Model for SteadyLine {
    ghost use Rattle.std.specs.Prelude.{vec_capacity};
    ghost use Rattle.wire_devices.specs.Forms.{Script};

    ghost Value = { Script };

    ghost view = { λ l. record { octets = l.octets.items; looks = l.looks.items; room = vec_capacity l.room } };
}

impl SteadyLine {
    /// A link with the ends of `SteadyLinkIn::new(octets, looks)` and `SteadyLinkOut::new(room)`.
    pub fn new(octets: Vec<u8>, looks: VecDeque<usize>, room: Vec<u8>) -> SteadyLine
        ensures { result
            ≡ record { octets = octets.items; looks = looks.items; room = vec_capacity room } }
    {
        SteadyLine {
            octets,
            looks,
            room,
        }
    }

    /// A link that ends at once.
    fn ended(alloc: Global) -> SteadyLine
        ensures { result ≡ empty_script }
    {
        SteadyLine::new(Vec::new(alloc), VecDeque::new(alloc), Vec::new(alloc))
    }
}

/// A dialer over memory that never fails.
#[derive(Drop)]
pub struct SteadyDialer {
    alloc: Global,
    lines: VecDeque<SteadyLine>,
    made: u64,
}

impl Model for SteadyDialer {
    ghost use Rattle.wire_devices.specs.Forms.{SteadyDials};

    ghost Value = { SteadyDials };

    ghost view = { λ d. record { lines = d.lines.items; made = d.made } };
}

impl SteadyDialer {
    /// A dialer that makes these links in turn, and then such as end at once.
    pub fn new(alloc: Global, lines: VecDeque<SteadyLine>) -> SteadyDialer
        ensures { result ≡ record { lines = lines.items; made = 0 } }
    {
        SteadyDialer {
            alloc,
            lines,
            made: 0,
        }
    }

    fn next_line(&mut self) -> SteadyLine
        ensures line { result ≡ unwrap_or (slice_get self.old.lines 0) empty_script }
        ensures lines { self.new ≡ record self.old { lines = drop 1 self.old.lines } }
    {
        match next_look(&mut self.lines) {
            Some(line) => line,
            None => SteadyLine::ended(self.alloc),
        }
    }
}

impl Dialer for SteadyDialer {
    type In = SteadyLinkIn;

    type Out = SteadyLinkOut;

    ghost told = { λ _. record { faults = 0; row = 0 } };

    ghost made = { λ d. d.made };

    fn dial(&mut self) -> Option<(SteadyLinkIn, SteadyLinkOut)>
        ensures link { result
            ≡ Some (made_of self.old.made (unwrap_or (slice_get self.old.lines 0) empty_script)) }
        ensures lines { self.new.lines ≡ drop 1 self.old.lines }
        ensures counted { Counts (IsSome result) self.old.made self.new.made }
        ensures fresh { IfSome result (λ ends. IsFreshInlet (told_of_stream ends.0 0)
            × IsFreshOutlet (told_of_wall ends.1 0)) }
        ensures dialled { Dialled result (record { faults = 0; row = 0 })
            (record { faults = 0; row = 0 }) }
        ensures numbered { IfSome result
            (λ ends. TellsOnly (told_of_stream ends.0 0).number self.old.made) }
    {
        let number = self.made;
        self.made = self.made.saturating_add(1);
        let line = self.next_line();
        let SteadyLine {
            octets,
            looks,
            room,
        } = line;
        let link_in = SteadyLinkIn::new(octets, looks).numbered(number);
        Some((link_in, SteadyLinkOut::new(room)))
    }
}

/// What a link is made of, some of whose calls fail.
#[derive(Drop)]
pub struct Line {
    line: SteadyLine,
    failing_receives: Vec<usize>,
    failing_sends: Vec<usize>,
}

impl Model for Line {
    ghost use Rattle.wire_devices.specs.Forms.{PlannedScript};

    ghost Value = { PlannedScript };

    ghost view = { λ l. record { script = l.line; receives = l.failing_receives.items; sends = l.failing_sends.items } };
}

impl Line {
    /// The link of which the receives and the sends that are listed, counted from 0, fail.
    pub fn new(line: SteadyLine, failing_receives: Vec<usize>, failing_sends: Vec<usize>) -> Line
        ensures { result ≡ record
            { script = line; receives = failing_receives.items; sends = failing_sends.items } }
    {
        Line {
            line,
            failing_receives,
            failing_sends,
        }
    }

    fn ended(alloc: Global) -> Line
        ensures { result ≡ empty_planned_script }
    {
        Line::new(SteadyLine::ended(alloc), Vec::new(alloc), Vec::new(alloc))
    }
}

/// A dialer over memory, some of whose dials fail.
#[derive(Drop)]
pub struct MemoryDialer {
    alloc: Global,
    lines: VecDeque<Line>,
    dials: CallPlan,
    faults: u64,
    row: u8,
    made: u64,
}

impl Model for MemoryDialer {
    ghost use Rattle.std.specs.Prelude.{◌≤◌};
    ghost use Rattle.wire_devices.specs.Forms.{PlannedDials};

    ghost Value = { PlannedDials };

    ghost view = { λ d. record { lines = d.lines.items; dials = d.dials; told = record { faults = d.faults; row = d.row }; made = d.made } };

    ghost invariant = { λ d. d.row ≤ 16 };
}

impl MemoryDialer {
    /// A dialer that makes these links in turn, and then such as end at once. The dials whose numbers are in `failing`,
    /// counted from 0, fail, and make none.
    pub fn new(alloc: Global, lines: VecDeque<Line>, failing: Vec<usize>) -> MemoryDialer
        ensures { result ≡ record {
          lines = lines.items;
          dials = plan_of failing.items;
          told =
              record { faults = 0; row = 0 };
          made = 0;
        } }
    {
        MemoryDialer {
            alloc,
            lines,
            dials: CallPlan::new(failing),
            faults: 0,
            row: 0,
            made: 0,
        }
    }

    fn next_line(&mut self) -> Line
        ensures line { result ≡ unwrap_or (slice_get self.old.lines 0) empty_planned_script }
        ensures lines { self.new ≡ record self.old { lines = drop 1 self.old.lines } }
    {
        match next_look(&mut self.lines) {
            Some(line) => line,
            None => Line::ended(self.alloc),
        }
    }
}

impl Dialer for MemoryDialer {
    type In = MemoryLinkIn;

    type Out = MemoryLinkOut;

    ghost told = { λ d. d.told };

    ghost made = { λ d. d.made };

    fn dial(&mut self) -> Option<(MemoryLinkIn, MemoryLinkOut)>
        ensures link { result ≡ (if is_due self.old.dials then None else Some (made_of_planned
            self.old.made (unwrap_or (slice_get self.old.lines 0) empty_planned_script))) }
        ensures lines { self.new.lines
            ≡ (if is_due self.old.dials then self.old.lines else drop 1 self.old.lines) }
        ensures plan { self.new.dials ≡ next_call self.old.dials }
        ensures fresh { IfSome result (λ ends. IsFreshInlet (told_of_planned_stream ends.0)
            × IsFreshOutlet (told_of_planned_wall ends.1)) }
        ensures dialled { Dialled result self.old.told self.new.told }
        ensures numbered { IfSome result
            (λ ends. TellsOnly (told_of_planned_stream ends.0).number self.old.made) }
        ensures counted { Counts (IsSome result) self.old.made self.new.made }
    {
        if self.dials.fails() {
            self.faults = self.faults.saturating_add(1);
            self.row = self.row.saturating_add(1).min(16);
            return None;
        }
        self.row = 0;
        let number = self.made;
        self.made = self.made.saturating_add(1);
        let line = self.next_line();
        let Line {
            line,
            failing_receives,
            failing_sends,
        } = line;
        let SteadyLine {
            octets,
            looks,
            room,
        } = line;
        let link_in = MemoryLinkIn::new(octets, looks, failing_receives).numbered(number);
        Some((link_in, MemoryLinkOut::new(room, failing_sends)))
    }
}
