//! What the requests that wait sent, one after the other.

ghost use Rattle.std.specs.Prelude.{◌≡◌, true};
ghost use Rattle.std.specs.List.{AllByRecursion};
ghost use Rattle.std.specs.Iterator.{YieldsFirstRef, item_count};
ghost use Rattle.pending_table.specs.Table as parts;

use crate::row::Row;
use std::collections::btree_map::Values;
use std::marker::Model;
use wire_core::Octets;

/// What some requests that wait sent, in the order of taking. Contracts see it as the list of what is left.
#[derive(Drop)]
pub struct Sends<'a> {
    rows: Values<'a, u64, Row>,
}

impl<'a> Model for Sends<'a> {
    ghost use Rattle.std.specs.Prelude.{◌≡◌, ℕ, List, true};
    ghost use Rattle.std.specs.List.{AllByRecursion};
    ghost use Rattle.pending_table.specs.Table.{is_waiting, sent_by};

    ghost Value = { List (List ℕ) };

    ghost view = { λ s. sent_by s.rows };

    ghost invariant = { λ s. AllByRecursion (λ r. is_waiting r.1.answer ≡ true) s.rows };
}

impl<'a> Sends<'a> {
    /// What these rows sent, all of which wait.
    pub(crate) fn new(rows: Values<'a, u64, Row>) -> Sends<'a>
        requires { AllByRecursion (λ r. parts.is_waiting r.1.answer ≡ true) rows }
        ensures { result ≡ parts.sent_by rows.entry }
    {
        Sends { rows }
    }
}

impl<'a> Iterator for Sends<'a> {
    type Item = &'a Octets;

    ghost next_gives = { YieldsFirstRef (λ s. s) };

    ghost remaining = { item_count (λ s. s) };

    fn next(&mut self) -> Option<&'a Octets> {
        let row = self.rows.next()?;
        row.entry().sent()
    }
}
