//! Why an answer of the home server doesn't give what it says.

ghost use Rattle.std.specs.Prelude.{◌≡◌, ◌++◌, ◌∷◌, decimal, OnOk};
ghost use Rattle.answer_causes.specs.declared.cause.Cause.TheVariants as causes;
ghost use Rattle.trace_command.specs.Trace as specs;

use answer_causes::Cause;
use named_lines::vendor_name;
use names::find_avp;
use std::alloc::Global;
use transcript_runs::HomeAnswer;
use wire_core::NoMemory;

/// Why an answer doesn't give what it says, where there is one and it doesn't.
pub(crate) fn cause_in(answered: Option<HomeAnswer>) -> Option<Cause>
    ensures { result ≡ specs.cause_in answered }
{
    match answered {
        Some(answered) => answered.cause,
        None => None,
    }
}

/// Appends these words.
fn push_words(text: &mut Vec<u8>, words: &str) -> Result<(), NoMemory>
    ensures { OnOk result (text.new.items ≡ text.old.items ++ words.now) }
{
    text.extend_from_slice(words.as_bytes())?;
    Ok(())
}

/// Appends a number behind a space.
fn push_number(alloc: Global, text: &mut Vec<u8>, number: u32) -> Result<(), NoMemory>
    ensures { OnOk result (text.new.items ≡ text.old.items ++ 32 ∷ decimal number) }
{
    let words = format!(in alloc; " {number}")?;
    text.extend_from_slice(words.as_bytes())?;
    Ok(())
}

/// Appends which AVP must be understood and isn't.
fn push_unknown(
    alloc: Global,
    text: &mut Vec<u8>,
    code: u32,
    vendor: Option<u32>,
) -> Result<(), NoMemory>
    ensures { OnOk result
        (text.new.items ≡ text.old.items ++ specs.details (causes.UnknownAvp code vendor)) }
{
    let Some(vendor) = vendor else {
        return push_number(alloc, text, code);
    };
    let name = vendor_name(alloc, vendor, code)?;
    text.push(b' ')?;
    push_words(text, &name)
}

/// Appends which AVP has a value that can't be an attribute's.
fn push_bad_value(alloc: Global, text: &mut Vec<u8>, code: u32) -> Result<(), NoMemory>
    ensures { OnOk result
        (text.new.items ≡ text.old.items ++ specs.details (causes.BadValue code)) }
{
    match find_avp(code) {
        None => push_number(alloc, text, code),
        Some((name, _)) => {
            text.push(b' ')?;
            push_words(text, name)
        }
    }
}

/// Appends what stands behind a cause's name.
fn push_details(alloc: Global, text: &mut Vec<u8>, cause: Cause) -> Result<(), NoMemory>
    ensures { OnOk result (text.new.items ≡ text.old.items ++ specs.details cause) }
{
    match cause {
        Cause::Error { result: number }
        | Cause::Refused { result: number }
        | Cause::KeyRefused { code: number } => push_number(alloc, text, number),
        Cause::UnknownAvp { code, vendor } => push_unknown(alloc, text, code, vendor),
        Cause::BadValue { code } => push_bad_value(alloc, text, code),
        _ => Ok(()),
    }
}

/// Appends the words of a cause.
fn push_cause(alloc: Global, text: &mut Vec<u8>, cause: Cause) -> Result<(), NoMemory>
    ensures { OnOk result (text.new.items ≡ text.old.items ++ specs.cause_words cause) }
{
    push_words(text, cause.name())?;
    push_details(alloc, text, cause)
}

/// Appends the line of a cause, where there is one.
pub(crate) fn push_because(
    alloc: Global,
    text: &mut Vec<u8>,
    number: u64,
    cause: Option<Cause>,
) -> Result<(), NoMemory>
    ensures { OnOk result (text.new.items ≡ text.old.items ++ specs.because number cause) }
{
    let Some(cause) = cause else {
        return Ok(());
    };
    let start = format!(in alloc; "{number} because ")?;
    text.extend_from_slice(start.as_bytes())?;
    push_cause(alloc, text, cause)?;
    text.push(b'\n')?;
    Ok(())
}
