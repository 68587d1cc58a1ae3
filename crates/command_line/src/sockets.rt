//! The sockets that the words of the command line want.

ghost use Rattle.std.specs.Prelude.{◌≡◌};
ghost use Rattle.command_line.specs.Words.{parsed_command as command_of_words, places_of};

use crate::command::{Command, Places, command_of};

/// The addresses and ports of the sockets that the command wants which these words name. None where they name no command,
/// or one without sockets.
pub fn places(words: &[String]) -> Option<Places>
    ensures { result ≡ places_of (command_of_words words.now) }
{
    match command_of(words) {
        Some(Command::Run { places, millis: _ }) => Some(places),
        Some(Command::Text { .. }) | None => None,
    }
}
