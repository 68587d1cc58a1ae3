//! Lines of a name and a value.

ghost use Rattle.std.specs.Prelude.{◌≡◌, ◌++◌, ◌∷◌, codes, replicate, Some, OnOk};
ghost use Rattle.named_lines.specs.NamedText as named;
ghost use Rattle.named_lines.specs.Values as values;

use crate::values::{push_hex, push_value};
use attribute_table::is_key;
use names::Kind;
use std::alloc::Global;
use wire_core::NoMemory;

/// Appends so many spaces.
pub(crate) fn push_indent(text: &mut Vec<u8>, indent: usize) -> Result<(), NoMemory>
    ensures { OnOk result (text.new.items ≡ text.old.items ++ replicate indent 32) }
{
    for _ in 0..indent {
        text.push(b' ')?;
    }
    Ok(())
}

/// Appends the beginning of a line: a name, and what stands before its value.
pub(crate) fn push_name(text: &mut Vec<u8>, indent: usize, name: &str) -> Result<(), NoMemory>
    ensures { OnOk result
        (text.new.items ≡ text.old.items ++ (replicate indent 32 ++ name.now ++ codes " = ")) }
{
    push_indent(text, indent)?;
    text.extend_from_slice(name.as_bytes())?;
    text.extend_from_slice(b" = ")?;
    Ok(())
}

/// Appends the line of a value of the attribute or AVP of this number and kind.
pub(crate) fn push_line(
    alloc: Global,
    text: &mut Vec<u8>,
    indent: usize,
    name: &str,
    code: u32,
    kind: Kind,
    value: &[u8],
) -> Result<(), NoMemory>
    ensures { OnOk result (text.new.items
        ≡ text.old.items ++ named.line indent name.now (values.value_text code kind value.now)) }
{
    push_name(text, indent, name)?;
    push_value(alloc, text, code, kind, value)?;
    text.push(b'\n')?;
    Ok(())
}

/// Appends the line of a value of which no kind is known.
pub(crate) fn push_hex_line(
    text: &mut Vec<u8>,
    indent: usize,
    name: &str,
    value: &[u8],
) -> Result<(), NoMemory>
    ensures { OnOk result
        (text.new.items ≡ text.old.items ++ named.line indent name.now (values.in_hex value.now)) }
{
    push_name(text, indent, name)?;
    push_hex(text, value)?;
    text.push(b'\n')?;
    Ok(())
}

/// Appends a value of a vendor, unless it is a key.
fn push_vendor_value(
    text: &mut Vec<u8>,
    vendor: u32,
    code: u32,
    value: &[u8],
) -> Result<(), NoMemory>
    ensures { OnOk result
        (text.new.items ≡ text.old.items ++ named.vendor_value vendor code value.now) }
{
    if is_key(code, Some(vendor)) {
        text.extend_from_slice(b"hidden")?;
        Ok(())
    } else {
        push_hex(text, value)
    }
}

/// Appends the line of a value of a vendor.
pub(crate) fn push_vendor_line(
    text: &mut Vec<u8>,
    indent: usize,
    name: &str,
    vendor: u32,
    code: u32,
    value: &[u8],
) -> Result<(), NoMemory>
    ensures { OnOk result (text.new.items
        ≡ text.old.items ++ named.line indent name.now (named.vendor_value vendor code value.now)) }
{
    push_name(text, indent, name)?;
    push_vendor_value(text, vendor, code, value)?;
    text.push(b'\n')?;
    Ok(())
}
