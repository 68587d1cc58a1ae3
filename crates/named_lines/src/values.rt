//! Values in the words that a reader knows.

ghost use Rattle.std.specs.Prelude.{◌≡◌, ◌++◌, decimal, option_map, OnOk};
ghost use Rattle.std.specs.List.{flat_map};
ghost use Rattle.named_lines.specs.Values as values;

use names::{Kind, find_value};
use printed_lines::push_digits;
use std::alloc::Global;
use wire_core::{NoMemory, get_u32, get_u64};

/// Appends an octet of a text that stands in double quotes.
fn push_escaped(text: &mut Vec<u8>, octet: u8) -> Result<(), NoMemory>
    ensures { OnOk result (text.new.items ≡ text.old.items ++ values.escaped octet) }
{
    match octet {
        b'"' | b'\\' => text.extend_from_slice(&[b'\\', octet])?,
        b' '..=b'~' => text.push(octet)?,
        _ => {
            text.extend_from_slice(b"\\x")?;
            push_digits(text, &[octet])?;
        }
    }
    Ok(())
}

/// Appends a text in double quotes.
fn push_quoted(text: &mut Vec<u8>, value: &[u8]) -> Result<(), NoMemory>
    ensures { OnOk result (text.new.items ≡ text.old.items ++ values.quoted value.now) }
{
    text.push(b'"')?;
    for octet in value {
        push_escaped(text, *octet)?;
    }
    text.push(b'"')?;
    Ok(())
}

/// Appends octets in hex behind `0x`.
pub(crate) fn push_hex(text: &mut Vec<u8>, value: &[u8]) -> Result<(), NoMemory>
    ensures { OnOk result (text.new.items ≡ text.old.items ++ values.in_hex value.now) }
{
    text.extend_from_slice(b"0x")?;
    push_digits(text, value)?;
    Ok(())
}

/// Appends a number in decimal.
pub(crate) fn push_decimal(alloc: Global, text: &mut Vec<u8>, number: u64) -> Result<(), NoMemory>
    ensures { OnOk result (text.new.items ≡ text.old.items ++ decimal number) }
{
    let digits = format!(in alloc; "{number}")?;
    text.extend_from_slice(digits.as_bytes())?;
    Ok(())
}

/// Appends the name of a value behind a space, where it has one.
fn push_value_name(text: &mut Vec<u8>, name: Option<&str>) -> Result<(), NoMemory>
    ensures { OnOk result (text.new.items
        ≡ text.old.items ++ values.name_behind (option_map (λ n. n.now) name.entry)) }
{
    if let Some(name) = name {
        text.push(b' ')?;
        text.extend_from_slice(name.as_bytes())?;
    }
    Ok(())
}

/// Appends a number of four octets, and the name of this value where it has one.
fn push_number(alloc: Global, text: &mut Vec<u8>, code: u32, body: &[u8]) -> Result<(), NoMemory>
    ensures { OnOk result (text.new.items ≡ text.old.items ++ values.number_text code body.now) }
{
    if body.len() != 4 {
        return push_hex(text, body);
    }
    let number = get_u32(body, 0);
    push_decimal(alloc, text, u64::from(number))?;
    push_value_name(text, find_value(code, number))
}

/// Appends a number of eight octets.
fn push_wide(alloc: Global, text: &mut Vec<u8>, body: &[u8]) -> Result<(), NoMemory>
    ensures { OnOk result (text.new.items ≡ text.old.items ++ values.wide_text body.now) }
{
    if body.len() != 8 {
        return push_hex(text, body);
    }
    push_decimal(alloc, text, get_u64(body, 0))
}

/// Appends a time of four octets, as a number.
fn push_time(alloc: Global, text: &mut Vec<u8>, body: &[u8]) -> Result<(), NoMemory>
    ensures { OnOk result (text.new.items ≡ text.old.items ++ values.time_text body.now) }
{
    if body.len() != 4 {
        return push_hex(text, body);
    }
    push_decimal(alloc, text, u64::from(get_u32(body, 0)))
}

/// Appends four octets with dots between them.
fn push_dotted(alloc: Global, text: &mut Vec<u8>, octets: [u8; 4]) -> Result<(), NoMemory>
    ensures { OnOk result (text.new.items ≡ text.old.items ++ values.dotted octets) }
{
    let [a, b, c, d] = octets;
    let address = format!(in alloc; "{a}.{b}.{c}.{d}")?;
    text.extend_from_slice(address.as_bytes())?;
    Ok(())
}

/// Appends an IPv4 address, with its family or without.
fn push_address(alloc: Global, text: &mut Vec<u8>, body: &[u8]) -> Result<(), NoMemory>
    ensures { OnOk result (text.new.items ≡ text.old.items ++ values.address_text body.now) }
{
    match body {
        [a, b, c, d] | [0, 1, a, b, c, d] => push_dotted(alloc, text, [*a, *b, *c, *d]),
        _ => push_hex(text, body),
    }
}

/// Appends a value of the attribute or AVP of this number and kind.
pub(crate) fn push_value(
    alloc: Global,
    text: &mut Vec<u8>,
    code: u32,
    kind: Kind,
    body: &[u8],
) -> Result<(), NoMemory>
    ensures { OnOk result
        (text.new.items ≡ text.old.items ++ values.value_text code kind body.now) }
{
    match kind {
        Kind::Text => push_quoted(text, body),
        Kind::Octets | Kind::Group => push_hex(text, body),
        Kind::Number => push_number(alloc, text, code, body),
        Kind::Wide => push_wide(alloc, text, body),
        Kind::Address => push_address(alloc, text, body),
        Kind::Time => push_time(alloc, text, body),
        Kind::Hidden => Ok(text.extend_from_slice(b"hidden")?),
    }
}
