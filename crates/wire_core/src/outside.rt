//! The reader and the writer that a command is given.

ghost use Rattle.std.specs.Prelude.{◌≡◌, ℕ, List, Option, length};
ghost use Rattle.wire_core.specs.Counts.{Counts};
ghost use Rattle.wire_core.specs.Source.{GotReads, IsAtEnd, IsEnd, GotFailed};
ghost use Rattle.wire_core.specs.Sink.{PutWrites, PutFailed};

/// What a read answers.
#[derive(Clone, Copy, PartialEq, Eq)]
pub enum Got {
    /// So many octets stand at the front of the buffer. None for a buffer that isn't empty is an end.
    Bytes(usize),
    /// Nothing is left.
    End,
    /// The read failed, and took nothing.
    Failed,
}

/// What a write answers.
#[derive(Clone, Copy, PartialEq, Eq)]
pub enum Put {
    /// The whole piece was written.
    Done,
    /// The write failed, and a prefix of the piece was written.
    Failed,
}

/// Octets that come one read after another.
pub trait Source {
    /// The octets that are still to come, where the source tells them.
    ghost left: { Self → Option (List ℕ) };

    /// How many reads failed.
    ghost faults: { Self → ℕ };

    /// How many reads were an end.
    ghost ends: { Self → ℕ };

    /// Takes the next octets, as many as come and at most a buffer full, to the front of the buffer.
    fn read(&mut self, buf: &mut [u8]) -> Got
        ensures reads { GotReads result (left self.old) (left self.new) buf.new }
        ensures end { IsEnd result (length buf.old) → IsAtEnd (left self.old) }
        ensures counts_ends { Counts (IsEnd result (length buf.old)) (ends self.old)
            (ends self.new) }
        ensures counts_faults { Counts (GotFailed result) (faults self.old) (faults self.new) };
}

/// Where octets are written, one piece after another.
pub trait Sink {
    /// The octets that were written, where the sink tells them.
    ghost written: { Self → Option (List ℕ) };

    /// How many writes failed.
    ghost faults: { Self → ℕ };

    /// Writes the piece after what was written before.
    fn write(&mut self, piece: &[u8]) -> Put
        ensures writes { PutWrites result (written self.old) (written self.new) piece.now }
        ensures counts_faults { Counts (PutFailed result) (faults self.old) (faults self.new) };
}
