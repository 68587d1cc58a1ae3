//! The links that were made.

ghost use Rattle.std.specs.Prelude.{◌≡◌};

use std::marker::Model;

/// The two ends of a link.
#[derive(Drop)]
pub struct Pair<I, O> {
    pub link_in: I,
    pub link_out: O,
}

/// The links that were made, in order. Contracts see it as the list of them.
#[derive(Drop)]
pub struct Links<I, O> {
    pairs: Vec<Pair<I, O>>,
}

impl<I, O> Model for Links<I, O> {
    ghost use Rattle.std.specs.Prelude.{List};
    ghost use Rattle.server_workers.specs.declared.links.Pair.{Pair};

    ghost Value = { List (Pair I O) };

    ghost view = { λ l. l.pairs.items };
}

impl<I, O> Links<I, O> {
    pub fn from_vec(pairs: Vec<Pair<I, O>>) -> Links<I, O>
        ensures { result ≡ pairs.items }
    {
        Links { pairs }
    }

    pub fn as_slice(&self) -> &[Pair<I, O>]
        ensures { result.now ≡ self.now }
    {
        self.pairs.as_slice()
    }

    pub fn into_vec(self) -> Vec<Pair<I, O>>
        ensures { result.items ≡ self }
    {
        self.pairs
    }
}
