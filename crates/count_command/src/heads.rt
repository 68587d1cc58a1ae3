//! What stands before the value of a line: a metric with its labels.

ghost use Rattle.std.specs.Prelude.{◌≡◌, ◌++◌, IfOk, OnOk};
ghost use Rattle.count_command.specs.Hits as specs;

use std::alloc::Global;
use wire_core::{NoMemory, Octets};

/// A label and its value.
#[derive(Clone, Copy)]
pub(crate) struct Label<'a> {
    pub name: &'a str,
    pub value: &'a [u8],
}

/// Appends a label behind this sign.
fn push_label(text: &mut Vec<u8>, sign: u8, label: Label<'_>) -> Result<(), NoMemory>
    ensures { OnOk result (text.new.items
        ≡ text.old.items ++ specs.label sign label.entry.name.now label.entry.value.now) }
{
    text.push(sign)?;
    text.extend_from_slice(label.name.as_bytes())?;
    text.extend_from_slice(b"=\"")?;
    text.extend_from_slice(label.value)?;
    text.push(b'"')?;
    Ok(())
}

/// A metric with its first label.
fn begin(alloc: Global, metric: &str, label: Label<'_>) -> Result<Vec<u8>, NoMemory>
    ensures { IfOk result (λ text. text.items
        ≡ metric.now ++ specs.label 123 label.entry.name.now label.entry.value.now) }
{
    let mut text = Vec::new(alloc);
    text.extend_from_slice(metric.as_bytes())?;
    push_label(&mut text, b'{', label)?;
    Ok(text)
}

/// A metric with one label.
pub(crate) fn with_one(alloc: Global, metric: &str, label: Label<'_>) -> Result<Octets, NoMemory>
    ensures { IfOk result
        (λ head. head ≡ specs.with_one metric.now label.entry.name.now label.entry.value.now) }
{
    let mut text = begin(alloc, metric, label)?;
    text.push(b'}')?;
    Ok(Octets::from_vec(text))
}

/// A metric with two labels.
pub(crate) fn with_two(
    alloc: Global,
    metric: &str,
    first: Label<'_>,
    second: Label<'_>,
) -> Result<Octets, NoMemory>
    ensures { IfOk result (λ head. head ≡ specs.with_two metric.now first.entry.name.now
        first.entry.value.now second.entry.name.now second.entry.value.now) }
{
    let mut text = begin(alloc, metric, first)?;
    push_label(&mut text, b',', second)?;
    text.push(b'}')?;
    Ok(Octets::from_vec(text))
}

/// A metric with three labels.
pub(crate) fn with_three(
    alloc: Global,
    metric: &str,
    first: Label<'_>,
    second: Label<'_>,
    third: Label<'_>,
) -> Result<Octets, NoMemory>
    ensures { IfOk result (λ head. head ≡ specs.with_three metric.now first.entry.name.now
        first.entry.value.now second.entry.name.now second.entry.value.now
        third.entry.name.now third.entry.value.now) }
{
    let mut text = begin(alloc, metric, first)?;
    push_label(&mut text, b',', second)?;
    push_label(&mut text, b',', third)?;
    text.push(b'}')?;
    Ok(Octets::from_vec(text))
}
