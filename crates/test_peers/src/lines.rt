//! The lines of a text, and the words of a line.

ghost use Rattle.std.specs.Prelude.{◌≡◌, ◌==◌, ◌<◌, ◌∷◌, length, position, option_map};
ghost use Rattle.std.specs.Option.{option_copied};
ghost use Rattle.std.specs.Iterator.{YieldsFirstBy, item_count};
ghost use Rattle.test_peers.specs.Lines.{lines_of, pieces_of, two_of, words_of};
ghost use Rattle.test_peers.specs.Views.{pair_view, pieces_left};

use std::marker::Model;

/// The place of the first separator.
fn first_separator(octets: &[u8], separator: u8) -> Option<usize>
    ensures { result ≡ position (λ x. x == separator) octets.now }
{
    octets.iter().position(|c| *c == separator)
}

/// The first piece, and what stands after the separator behind it.
pub(crate) fn cut(octets: &[u8], separator: u8) -> (&[u8], Option<&[u8]>)
    ensures { pieces_of separator octets.now
        ≡ result.0.now ∷ pieces_left separator (option_copied result.1) }
{
    match first_separator(octets, separator) {
        Some(end) => (&octets[..end], Some(&octets[end + 1..])),
        None => (octets, None),
    }
}

/// The two words of a line that has two.
#[tactic(auto, using(crate::proofs::LineLemmas::two_of_more, crate::proofs::LineLemmas::pieces_none))]
pub(crate) fn two_words(line: &[u8]) -> Option<(&[u8], &[u8])>
    ensures { option_map pair_view result ≡ two_of (words_of line.now) }
{
    let (first, rest) = cut(line, b' ');
    let (second, more) = cut(rest?, b' ');
    match more {
        None => Some((first, second)),
        Some(_) => None,
    }
}

/// The first line of a text that has one, and what stands after its end.
#[tactic(auto, using(crate::proofs::LineLemmas::line_left))]
fn first_line(text: &[u8]) -> (&[u8], &[u8])
    requires { 0 < length text.now }
    ensures { lines_of text.now ≡ result.0.now ∷ lines_of result.1.now }
{
    let (line, rest) = cut(text, b'\n');
    (line, rest.unwrap_or(&[]))
}

/// The lines of a text. Contracts see those that are left.
#[derive(Drop)]
pub(crate) struct Lines<'a> {
    rest: &'a [u8],
}

impl<'a> Model for Lines<'a> {
    ghost use Rattle.std.specs.Prelude.{List, ℕ};
    ghost use Rattle.test_peers.specs.Lines.{lines_of};

    ghost Value = { List (List ℕ) };

    ghost view = { λ l. lines_of l.rest.now };
}

impl<'a> Lines<'a> {
    /// The lines of this text.
    pub(crate) fn new(text: &'a [u8]) -> Lines<'a>
        ensures { result ≡ lines_of text.now }
    {
        Lines { rest: text }
    }
}

impl<'a> Iterator for Lines<'a> {
    type Item = &'a [u8];

    ghost next_gives = { YieldsFirstBy (λ x. x.now) (λ s. s) };

    ghost remaining = { item_count (λ s. s) };

    fn next(&mut self) -> Option<&'a [u8]> {
        if self.rest.is_empty() {
            return None;
        }
        let (line, rest) = first_line(self.rest);
        self.rest = rest;
        Some(line)
    }
}
