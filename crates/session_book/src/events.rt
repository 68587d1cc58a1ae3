//! What comes into the book and the core beside it, and what goes out of them.

ghost use Rattle.std.specs.Prelude.{◌≡◌};
ghost use Rattle.session_book.specs.Reasons.{reason_number};

use agent_events::{Input, Output};
use std::marker::Model;
use wire_core::Octets;

/// What comes in.
#[derive(Drop)]
pub enum BookInput {
    /// What also comes into a core that has no book.
    Core {
        input: Input,
    },
    /// A datagram at the port from which the book's own requests go. Addresses are IPv4.
    Control {
        address: u32,
        port: u16,
        octets: Octets,
    },
}

/// Why an input of the book has no other answer (profile). Its numbers follow those of the reasons of a core.
#[derive(Clone, Copy, PartialEq, Eq)]
pub enum BookReason {
    /// An Abort-Session-Request that comes again while its session's end is asked for.
    AbortOpen,
    /// A datagram that answers nothing that the book asked for.
    StrangeControl,
}

impl BookReason {
    /// Its number: 26 or 27.
    pub fn number(&self) -> u32
        ensures { result ≡ reason_number self.now }
    {
        match self {
            BookReason::AbortOpen => 26,
            BookReason::StrangeControl => 27,
        }
    }
}

/// What goes out.
#[derive(Drop)]
pub enum BookOutput {
    /// What the core says, and the book's own answers to the home server.
    Core {
        output: Output,
    },
    /// A request to an access server to end a session.
    Control {
        address: u32,
        port: u16,
        octets: Octets,
    },
    /// Nothing is done about this input.
    Dropped {
        reason: BookReason,
    },
}

/// What goes out for one input, in order. Contracts see it as the list.
#[derive(Drop)]
pub struct BookOutputs {
    outputs: Vec<BookOutput>,
}

impl Model for BookOutputs {
    ghost use Rattle.std.specs.Prelude.{List};
    ghost use Rattle.session_book.specs.declared.events.BookOutput.{BookOutput};

    ghost Value = { List BookOutput };

    ghost view = { λ o. o.outputs.items };
}

impl BookOutputs {
    /// These outputs, in their order.
    pub fn from_vec(outputs: Vec<BookOutput>) -> BookOutputs
        ensures { result ≡ outputs.items }
    {
        BookOutputs { outputs }
    }

    /// The outputs in order.
    pub fn as_slice(&self) -> &[BookOutput]
        ensures { result.now ≡ self.now }
    {
        self.outputs.as_slice()
    }

    /// The outputs in order, each by value.
    pub fn into_vec(self) -> Vec<BookOutput>
        ensures { result.items ≡ self }
    {
        self.outputs
    }
}
