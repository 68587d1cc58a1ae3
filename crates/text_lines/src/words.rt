//! What a word stands for.

ghost use Rattle.std.specs.Prelude.{◌≡◌, ◌==◌, ◌≤◌, ◌<◌, length, IsTrue, IfOk, IfSome};
ghost use Rattle.std.specs.Char.{is_ascii_digit};
ghost use Rattle.std.specs.List.{list_all, slice_split};
ghost use Rattle.address_text.specs.Address.{address_in};
ghost use Rattle.text_lines.specs.Words as words;
ghost use Rattle.text_lines.specs.Reads.{Reads};
ghost use Rattle.text_lines.specs.Views.{plain};

use crate::word_fault::WordFault;
use agent_settings::AddressList;
use hex::FromHexError;
use std::alloc::Global;
use std::str;
use wire_core::{NoMemory, Octets};

/// The words of a line: at least one, and empty ones are kept.
pub fn words_of(alloc: Global, line: &[u8]) -> Result<Vec<&[u8]>, NoMemory>
    ensures { IfOk result (λ found. plain found.items ≡ words.words_of line.now) }
{
    Ok(line.split(|c| *c == b' ').collect(alloc)?)
}

/// What stands between the commas of a word.
fn listed_in(alloc: Global, word: &[u8]) -> Result<Vec<&[u8]>, NoMemory>
    ensures { IfOk result (λ found. plain found.items ≡ slice_split (λ c. c == 44) word.now) }
{
    Ok(word.split(|c| *c == b',').collect(alloc)?)
}

fn all_digits(word: &[u8]) -> bool
    ensures { result ≡ list_all is_ascii_digit word.now }
{
    word.iter().all(|c| c.is_ascii_digit())
}

fn is_numeral(word: &[u8]) -> bool
    ensures { result ≡ words.is_numeral word.now }
{
    1 <= word.len() && all_digits(word) && (word.len() == 1 || word[0] != b'0')
}

/// The number that a numeral stands for, where it is below 2^64.
fn value_of(numeral: &[u8]) -> Option<u64>
    requires { IsTrue (words.is_numeral numeral.now) }
    ensures { result ≡ words.number_word 18446744073709551615 numeral.now }
{
    str::from_utf8(numeral).ok()?.parse().ok()
}

/// The number that a word is: decimal, at most this limit, without a sign or zeros in front.
pub fn number_in(word: &[u8], limit: u64) -> Option<u64>
    ensures exact { result ≡ words.number_word limit word.now }
    ensures small { IfSome result (λ n. n ≤ limit) }
{
    if !is_numeral(word) {
        return None;
    }
    let number = value_of(word)?;
    if number <= limit { Some(number) } else { None }
}

/// A decimal number up to a limit.
pub fn read_number(word: &[u8], limit: u64) -> Result<u64, WordFault>
    ensures exact { Reads result (words.number_word limit word.now) }
    ensures small { IfOk result (λ n. n ≤ limit) }
{
    number_in(word, limit).ok_or(WordFault::Bad)
}

/// A decimal number below 2^16.
pub fn read_u16(word: &[u8]) -> Result<u16, WordFault>
    ensures { Reads result (words.number_word 65535 word.now) }
{
    Ok(read_number(word, u64::from(u16::MAX))? as u16)
}

/// A decimal number below 2^32, without a sign or zeros in front. Any other word is `Bad`.
pub fn read_u32(word: &[u8]) -> Result<u32, WordFault>
    ensures { Reads result (words.number_word 4294967295 word.now) }
{
    Ok(read_number(word, u64::from(u32::MAX))? as u32)
}

/// An IPv4 address.
pub fn read_address(word: &[u8]) -> Result<u32, WordFault>
    ensures { Reads result (address_in word.now) }
{
    address_text::read_address(word).ok_or(WordFault::Bad)
}

/// Octets in hex, or `-` for none.
pub fn read_hex(alloc: Global, word: &[u8]) -> Result<Octets, WordFault>
    ensures { Reads result (words.hex_word word.now) }
{
    if word == b"-".as_slice() {
        return Ok(Octets::from_vec(Vec::new(alloc)));
    }
    if word.is_empty() {
        return Err(WordFault::Bad);
    }
    match hex::decode(alloc, word) {
        Ok(octets) => Ok(Octets::from_vec(octets)),
        Err(FromHexError::OutOfMemory) => Err(WordFault::NoMemory),
        Err(_) => Err(WordFault::Bad),
    }
}

/// One of two words: `on` stands for true, `off` for false. Any other word is `Bad`.
pub fn read_choice(word: &[u8], on: &[u8], off: &[u8]) -> Result<bool, WordFault>
    ensures { Reads result (words.choice_word on.now off.now word.now) }
{
    if word == on {
        Ok(true)
    } else if word == off {
        Ok(false)
    } else {
        Err(WordFault::Bad)
    }
}

/// An address in each of these pieces.
fn read_each(alloc: Global, pieces: &[&[u8]]) -> Result<AddressList, WordFault>
    ensures { Reads result (words.addresses_of (plain pieces.now)) }
{
    let mut addresses = Vec::new(alloc);
    for piece in pieces {
        addresses.push(read_address(piece)?)?;
    }
    Ok(AddressList::from_vec(addresses))
}

/// IPv4 addresses separated by `,`, or `-` for none. Any other word is `Bad`.
pub fn read_addresses(alloc: Global, word: &[u8]) -> Result<AddressList, WordFault>
    ensures { Reads result (words.addresses_word word.now) }
{
    if word == b"-".as_slice() {
        return Ok(AddressList::from_vec(Vec::new(alloc)));
    }
    let pieces = listed_in(alloc, word)?;
    read_each(alloc, &pieces)
}
