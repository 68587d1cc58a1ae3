//! What is counted of an answer of the home server.

ghost use Rattle.std.specs.Prelude.{◌≡◌, ◌-◌, OnOk};
ghost use Rattle.count_command.specs.Hits as specs;
ghost use Rattle.count_command.specs.Tally.{added, with_hits};

use crate::heads::{Label, with_one, with_two};
use crate::tally::{Order, Tally};
use answer_causes::Cause;
use named_lines::command_name;
use std::alloc::Global;
use transcript_runs::HomeAnswer;
use wire_core::NoMemory;

/// The numbers of metrics, by which their lines are ordered.
pub(crate) const ANSWERS: u32 = 2;

pub(crate) const BAD_ANSWERS: u32 = 3;

pub(crate) const BUCKETS: u32 = 5;

pub(crate) const SUM: u32 = 6;

pub(crate) const COUNT: u32 = 7;

/// Counts an answer by its result.
fn count_result(alloc: Global, counts: &mut Tally, answered: &HomeAnswer) -> Result<(), NoMemory>
    ensures { OnOk result (counts.new ≡ added counts.old (specs.answer_hit answered.now)) }
{
    let order = Order {
        metric: ANSWERS,
        first: answered.command,
        second: answered.result,
        third: 0,
    };
    if counts.raise(order, 1) {
        return Ok(());
    }
    let name = command_name(alloc, answered.command, 0)?;
    let command = Label {
        name: "command",
        value: name.as_bytes(),
    };
    let code = answered.result;
    let code = format!(in alloc; "{code}")?;
    let result_label = Label {
        name: "result",
        value: code.as_bytes(),
    };
    let head = with_two(alloc, "agent_answers_total", command, result_label)?;
    counts.insert(order, head, 1)
}

/// Counts why an answer doesn't give what it says, where it doesn't.
fn count_cause(
    alloc: Global,
    counts: &mut Tally,
    command: u32,
    cause: Option<Cause>,
) -> Result<(), NoMemory>
    ensures { OnOk result (counts.new ≡ with_hits counts.old (specs.cause_hits command cause)) }
{
    let Some(cause) = cause else {
        return Ok(());
    };
    let order = Order {
        metric: BAD_ANSWERS,
        first: command,
        second: cause.number(),
        third: 0,
    };
    if counts.raise(order, 1) {
        return Ok(());
    }
    let name = command_name(alloc, command, 0)?;
    let command = Label {
        name: "command",
        value: name.as_bytes(),
    };
    let cause = Label {
        name: "cause",
        value: cause.name().as_bytes(),
    };
    let head = with_two(alloc, "agent_bad_answers_total", command, cause)?;
    counts.insert(order, head, 1)
}

/// Counts whether a time was within a bound, both in milliseconds.
fn count_bucket(
    alloc: Global,
    counts: &mut Tally,
    command: u32,
    time: u64,
    place: u32,
    bound: u64,
    bound_name: &str,
) -> Result<(), NoMemory>
    ensures { OnOk result
        (counts.new ≡ added counts.old (specs.bucket_hit command time place bound bound_name.now)) }
{
    let order = Order {
        metric: BUCKETS,
        first: command,
        second: place,
        third: 0,
    };
    let amount = u64::from(time <= bound);
    if counts.raise(order, amount) {
        return Ok(());
    }
    let name = command_name(alloc, command, 0)?;
    let command = Label {
        name: "command",
        value: name.as_bytes(),
    };
    let le = Label {
        name: "le",
        value: bound_name.as_bytes(),
    };
    let head = with_two(alloc, "agent_answer_seconds_bucket", command, le)?;
    counts.insert(order, head, amount)
}

/// Counts within which bounds up to a tenth of a second a time was.
fn count_short_buckets(
    alloc: Global,
    counts: &mut Tally,
    command: u32,
    time: u64,
) -> Result<(), NoMemory>
    ensures { OnOk result
        (counts.new ≡ with_hits counts.old (specs.short_bucket_hits command time)) }
{
    count_bucket(alloc, counts, command, time, 0, 1, "0.001")?;
    count_bucket(alloc, counts, command, time, 1, 5, "0.005")?;
    count_bucket(alloc, counts, command, time, 2, 10, "0.01")?;
    count_bucket(alloc, counts, command, time, 3, 50, "0.05")?;
    count_bucket(alloc, counts, command, time, 4, 100, "0.1")
}

/// Counts within which longer bounds a time was.
fn count_long_buckets(
    alloc: Global,
    counts: &mut Tally,
    command: u32,
    time: u64,
) -> Result<(), NoMemory>
    ensures { OnOk result
        (counts.new ≡ with_hits counts.old (specs.long_bucket_hits command time)) }
{
    count_bucket(alloc, counts, command, time, 5, 500, "0.5")?;
    count_bucket(alloc, counts, command, time, 6, 1_000, "1")?;
    count_bucket(alloc, counts, command, time, 7, 5_000, "5")?;
    count_bucket(alloc, counts, command, time, 8, u64::MAX, "+Inf")
}

/// Adds up the times.
fn count_sum(alloc: Global, counts: &mut Tally, command: u32, time: u64) -> Result<(), NoMemory>
    ensures { OnOk result (counts.new ≡ added counts.old (specs.sum_hit command time)) }
{
    let order = Order {
        metric: SUM,
        first: command,
        second: 0,
        third: 0,
    };
    if counts.raise(order, time) {
        return Ok(());
    }
    let name = command_name(alloc, command, 0)?;
    let command = Label {
        name: "command",
        value: name.as_bytes(),
    };
    let head = with_one(alloc, "agent_answer_seconds_sum", command)?;
    counts.insert(order, head, time)
}

/// Counts the times.
fn count_time(alloc: Global, counts: &mut Tally, command: u32) -> Result<(), NoMemory>
    ensures { OnOk result (counts.new ≡ added counts.old (specs.count_hit command)) }
{
    let order = Order {
        metric: COUNT,
        first: command,
        second: 0,
        third: 0,
    };
    if counts.raise(order, 1) {
        return Ok(());
    }
    let name = command_name(alloc, command, 0)?;
    let command = Label {
        name: "command",
        value: name.as_bytes(),
    };
    let head = with_one(alloc, "agent_answer_seconds_count", command)?;
    counts.insert(order, head, 1)
}

/// Counts the time from a request's taking to its answer, in milliseconds.
fn count_times(alloc: Global, counts: &mut Tally, command: u32, time: u64) -> Result<(), NoMemory>
    ensures { OnOk result (counts.new ≡ with_hits counts.old (specs.time_hits command time)) }
{
    count_short_buckets(alloc, counts, command, time)?;
    count_long_buckets(alloc, counts, command, time)?;
    count_sum(alloc, counts, command, time)?;
    count_time(alloc, counts, command)
}

/// Counts what an input answers that came at this moment.
#[tactic(auto, using(crate::proofs::TallyLemmas::with_hits_append))]
pub(crate) fn count_answer(
    alloc: Global,
    counts: &mut Tally,
    moment: u64,
    answered: Option<HomeAnswer>,
) -> Result<(), NoMemory>
    ensures { OnOk result (counts.new ≡ with_hits counts.old (specs.answer_hits moment answered)) }
{
    let Some(answered) = answered else {
        return Ok(());
    };
    count_result(alloc, counts, &answered)?;
    count_cause(alloc, counts, answered.command, answered.cause)?;
    let time = moment.saturating_sub(answered.taken);
    count_times(alloc, counts, answered.command, time)
}
