//! The blocks of a journal.

ghost use Rattle.std.specs.Prelude.{◌≡◌, ◌<◌, ◌∷◌, [], ◌++◌, length, IfOk, OnOk};
ghost use Rattle.text_commands.specs.Tasks.{ended_text};
ghost use Rattle.journal.specs.Blocks.{IsSealed, lines_with};
ghost use Rattle.journal.specs.Due.{AreShort};
ghost use Rattle.journal.specs.Journal.{given_line, given_lines, seal_line, seal_of};

use hmac_md5::Hmac;
use printed_lines::push_digits;
use std::alloc::Global;
use text_lines::first_piece;
use wire_core::NoMemory;

/// How many octets a line of a journal has at most.
pub(crate) const LONGEST_LINE: usize = 140_100;

/// The mark of a line of the input.
pub(crate) const SAID: &[u8; 2] = b"< ";

/// The mark of a line that went out.
pub(crate) const GIVEN: &[u8; 2] = b"> ";

/// The mark of a seal.
pub(crate) const SEAL: &[u8; 2] = b"= ";

/// The seal before the first block.
pub(crate) const NO_SEAL: [u8; 16] = [0; 16];

/// Room for most blocks, so that a text needn't grow.
const USUAL_BLOCK: usize = 1024;

/// A block with its seal.
#[derive(Drop)]
pub(crate) struct Block {
    /// The lines of both, each ended by the octet 0a.
    pub(crate) text: Vec<u8>,
    pub(crate) seal: [u8; 16],
}

/// Appends a line with its mark.
fn push_line(text: &mut Vec<u8>, mark: &[u8], line: &[u8]) -> Result<(), NoMemory>
    ensures { OnOk result (text.new.items ≡ text.old.items ++ (mark.now ++ line.now) ++ 10 ∷ []) }
{
    text.extend_from_slice(mark)?;
    text.extend_from_slice(line)?;
    text.push(b'\n')?;
    Ok(())
}

/// The first line of a text that isn't empty, and what stands behind it.
fn first_line(text: &[u8]) -> (&[u8], &[u8])
    requires { 0 < length text.now }
    ensures given { given_lines text.now ≡ given_line result.0.now ∷ given_lines result.1.now }
    ensures shorter { length result.1.now < length text.now }
{
    let (line, ends) = first_piece(text);
    (line, &text[line.len() + usize::from(ends)..])
}

/// Appends the lines of what went out. No line that goes out is longer than one of a journal may be. One that was couldn't be
/// read back, and is refused as if memory were wanting.
fn push_given(text: &mut Vec<u8>, given: &[u8]) -> Result<(), NoMemory>
    ensures given { OnOk result
        (text.new.items ≡ text.old.items ++ ended_text (given_lines given.now)) }
    ensures short { OnOk result (AreShort (given_lines given.now)) }
{
    let mut rest = given;
    while !rest.is_empty() {
        let (line, behind) = first_line(rest);
        if line.len() + GIVEN.len() > LONGEST_LINE {
            return Err(NoMemory);
        }
        push_line(text, GIVEN, line)?;
        rest = behind;
    }
    Ok(())
}

/// Appends the line of a seal.
fn push_seal(text: &mut Vec<u8>, seal: &[u8; 16]) -> Result<(), NoMemory>
    ensures { OnOk result
        (text.new.items ≡ text.old.items ++ ended_text (seal_line seal.now ∷ [])) }
{
    text.extend_from_slice(SEAL)?;
    push_digits(text, seal)?;
    text.push(b'\n')?;
    Ok(())
}

/// The block of a line of the input, or of none at its end, and of what went out, behind a block with this seal.
pub(crate) fn seal_block(
    alloc: Global,
    key: &[u8],
    before: &[u8; 16],
    said: Option<&[u8]>,
    given: &[u8],
) -> Result<Block, NoMemory>
    ensures sealed { IfOk result
        (λ block. IsSealed block key.now before.now (lines_with said.entry given.now)) }
    ensures short { IfOk result (λ block. AreShort (given_lines given.now
        ++ seal_line (seal_of key.now before.now (lines_with said.entry given.now)) ∷ [])) }
{
    let mut text = Vec::with_capacity(alloc, USUAL_BLOCK)?;
    if let Some(line) = said {
        push_line(&mut text, SAID, line)?;
    }
    push_given(&mut text, given)?;
    let mut code = Hmac::new(key);
    code.update(before);
    code.update(&text);
    let seal = code.finish();
    push_seal(&mut text, &seal)?;
    Ok(Block { text, seal })
}
