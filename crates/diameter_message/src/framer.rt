//! Messages out of a stream of octets.

ghost use Rattle.std.specs.Prelude.{◌≡◌, ◌++◌, ℕ, [], ◌∷◌, List, Option, None, IfOk, OnOk, OnErr};
ghost use Rattle.diameter_message.specs.declared.fault.FrameFault.{FrameFault};
ghost use Rattle.diameter_message.specs.Stream.{Stream, frame_fault, length_fault};

use crate::fault::FrameFault;
use crate::next::Next;
use std::alloc::Global;
use std::marker::Model;
use wire_core::{NoMemory, Octets, get_u24};

/// What a message takes at most, with its header (profile).
const MAX_MESSAGE: u32 = 65_536;

/// Cuts a stream of octets into messages, in whatever pieces it comes. Contracts see the octets that
/// are left, and the fault that was answered.
///
/// Messages that were given stay before `start` until they are at least as many octets as what is
/// left, and then that is moved over them. So all moves together are no more octets than were given,
/// and what is left is never copied for a single message.
#[derive(Drop)]
pub struct Framer {
    octets: Vec<u8>,
    start: usize,
    shown: Option<FrameFault>,
}

impl Model for Framer {
    ghost use Rattle.std.specs.Prelude.{◌≤◌, drop, length};
    ghost use Rattle.diameter_message.specs.Framing.{FramerParts};

    ghost Value = { FramerParts };

    ghost view = { λ f. record { left = drop f.start f.octets.items; shown = f.shown } };

    ghost invariant = { λ f. f.start ≤ length f.octets.items };
}

/// What stands where a message should begin.
#[derive(Clone, Copy)]
enum Look {
    /// A whole message of so many octets.
    Whole(usize),
    /// A part of one.
    Part,
    /// No message.
    Broken(FrameFault),
}

/// What is wrong with the length of a message.
fn fault_of_length(length: u32) -> Option<FrameFault>
    ensures { result ≡ length_fault length }
{
    if length < 20 || length % 4 != 0 {
        return Some(FrameFault::BadLength);
    }
    if length > MAX_MESSAGE {
        return Some(FrameFault::TooLong);
    }
    None
}

/// The fault that octets show where a message should begin.
#[tactic(auto, unfolding(crate::specs::Stream::frame_fault))]
fn fault_of(octets: &[u8]) -> Option<FrameFault>
    ensures { result ≡ frame_fault octets.now }
{
    if octets.is_empty() {
        return None;
    }
    if octets[0] != 1 {
        return Some(FrameFault::BadVersion);
    }
    if octets.len() < 4 {
        return None;
    }
    fault_of_length(get_u24(octets, 1))
}

impl Look {
    ghost use Rattle.diameter_message.specs.Looking.{Finds};

    #[tactic(auto, unfolding(crate::specs::Framing::next_in))]
    fn at(octets: &[u8]) -> Look
        ensures { Finds octets.now result }
    {
        if let Some(fault) = fault_of(octets) {
            return Look::Broken(fault);
        }
        if octets.len() < 4 {
            return Look::Part;
        }
        let length = get_u24(octets, 1) as usize;
        if octets.len() < length {
            return Look::Part;
        }
        Look::Whole(length)
    }
}

impl Framer {
    ghost use Rattle.diameter_message.specs.Framing.{StandsFor, IsNext, fed, given_with, next_of, without};

    /// A framer at the beginning of a stream.
    pub fn new(alloc: Global) -> Framer
        ensures value { result ≡ record { left = []; shown = None } }
        ensures stands { StandsFor result [] [] }
    {
        Framer {
            octets: Vec::new(alloc),
            start: 0,
            shown: None,
        }
    }

    /// Takes the next piece of the stream. After a fault was answered, pieces are given up.
    pub fn feed(&mut self, piece: &[u8]) -> Result<(), NoMemory>
        ensures ok { OnOk result (self.new ≡ fed self.old piece.now) }
        ensures stands { (octets : List ℕ) (given : List (List ℕ)) → StandsFor self.old octets given
            → OnOk result (StandsFor self.new (octets ++ piece.now) given) }
        ensures err { OnErr result (self.new ≡ self.old) }
    {
        self.take_piece(piece)
    }

    fn take_piece(&mut self, piece: &[u8]) -> Result<(), NoMemory>
        ensures ok { OnOk result (self.new ≡ fed self.old piece.now) }
        ensures err { OnErr result (self.new ≡ self.old) }
    {
        if self.shown.is_some() {
            return Ok(());
        }
        self.forget_given();
        self.octets.extend_from_slice(piece)?;
        Ok(())
    }

    /// Moves what is left to the front, once that is no more than what was given before it.
    fn forget_given(&mut self)
        ensures { self.new ≡ self.old }
    {
        let left = self.octets.len() - self.start;
        if left <= self.start {
            self.octets.copy_within(self.start.., 0);
            self.octets.truncate(left);
            self.start = 0;
        }
    }

    /// The next message of the stream, or whether it has to wait for more, or the stream's fault,
    /// which is answered for ever then.
    pub fn next_message(&mut self) -> Result<Next, NoMemory>
        ensures value { IfOk result (λ next. next ≡ next_of self.old) }
        ensures ok { IfOk result (λ next. self.new ≡ without next self.old) }
        ensures stands { (octets : List ℕ) (given : List (List ℕ)) → StandsFor self.old octets given
            → IfOk result (λ next. StandsFor self.new octets (given_with next given)) }
        ensures stream { (octets rest : List ℕ) (given messages : List (List ℕ))
            (fault : Option FrameFault)
            → StandsFor self.old octets given → Stream octets messages rest fault
            → IfOk result (λ next. IsNext next given messages fault) }
        ensures err { OnErr result (self.new ≡ self.old) }
    {
        self.take_next()
    }

    fn take_next(&mut self) -> Result<Next, NoMemory>
        ensures value { IfOk result (λ next. next ≡ next_of self.old) }
        ensures ok { IfOk result (λ next. self.new ≡ without next self.old) }
        ensures err { OnErr result (self.new ≡ self.old) }
    {
        if let Some(fault) = self.shown {
            return Ok(Next::Fault(fault));
        }
        let left = &self.octets[self.start..];
        match Look::at(left) {
            Look::Broken(fault) => {
                self.shown = Some(fault);
                Ok(Next::Fault(fault))
            }
            Look::Part => Ok(Next::Wait),
            Look::Whole(length) => {
                let message = Octets::copy(*self.octets.allocator(), &left[..length])?;
                self.start += length;
                Ok(Next::Message(message))
            }
        }
    }
}
