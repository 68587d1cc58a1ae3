//! The users that the home server knows.

ghost use Rattle.std.specs.Prelude.{◌≡◌, IfOk};
ghost use Rattle.test_peers.specs.Users.{Reads, hex_word, user_in};

use crate::fault::HomeFault;
use crate::lines::two_words;
use hex::FromHexError;
use std::alloc::Global;
use wire_core::{NoMemory, Octets};

/// How many octets a line has at most.
pub(crate) const LONGEST_LINE: usize = 140_000;

/// The reasons why a line is no user's.
pub(crate) const TOO_LONG: u32 = 1;

const NOT_TWO_WORDS: u32 = 2;

pub(crate) const BAD_WORD: u32 = 3;

/// A user and the password that lets them in.
#[derive(Drop)]
pub(crate) struct User {
    pub(crate) name: Octets,
    pub(crate) password: Octets,
}

/// Octets in hex, or `-` for none.
pub(crate) fn read_hex(alloc: Global, word: &[u8]) -> Result<Option<Octets>, NoMemory>
    ensures { IfOk result (λ read. read ≡ hex_word word.now) }
{
    if word == b"-".as_slice() {
        return Ok(Some(Octets::from_vec(Vec::new(alloc))));
    }
    if word.is_empty() {
        return Ok(None);
    }
    match hex::decode(alloc, word) {
        Ok(octets) => Ok(Some(Octets::from_vec(octets))),
        Err(FromHexError::OutOfMemory) => Err(NoMemory),
        Err(_) => Ok(None),
    }
}

/// The user of the line with this number.
pub(crate) fn read_user(alloc: Global, line: &[u8], number: u64) -> Result<User, HomeFault>
    ensures { Reads result (user_in number line.now) }
{
    let bad = |reason: u32| HomeFault::BadLine {
        line: number,
        reason,
    };
    if line.len() > LONGEST_LINE {
        return Err(bad(TOO_LONG));
    }
    let (name, word) = two_words(line).ok_or(bad(NOT_TWO_WORDS))?;
    if name.is_empty() {
        return Err(bad(BAD_WORD));
    }
    let password = read_hex(alloc, word)?.ok_or(bad(BAD_WORD))?;
    Ok(User {
        name: Octets::copy(alloc, name)?,
        password,
    })
}
