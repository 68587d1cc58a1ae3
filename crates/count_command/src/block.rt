//! A block of counters.

ghost use Rattle.std.specs.Prelude.{◌≡◌, ◌+◌, ◌%◌, ◌++◌, IfOk, OnOk};
ghost use Rattle.count_command.specs.Block as specs;

use crate::answers::{ANSWERS, BAD_ANSWERS, BUCKETS, COUNT, SUM};
use crate::events::{CLOSES, DROPS, REPLIES, REQUESTS, SENDS};
use crate::tally::Count;
use std::alloc::Global;
use wire_core::NoMemory;

const REQUESTS_HEAD: &str =
    "# HELP agent_requests_total Datagrams that came in.\n# TYPE agent_requests_total counter\n";

const REPLIES_HEAD: &str =
    "# HELP agent_replies_total RADIUS replies that went out.\n# TYPE agent_replies_total counter\n";

const DROPS_HEAD: &str =
    "# HELP agent_drops_total Inputs about which nothing was done.\n# TYPE agent_drops_total counter\n";

const SENDS_HEAD: &str =
    "# HELP agent_sends_total Diameter messages that went out.\n# TYPE agent_sends_total counter\n";

const ANSWERS_HEAD: &str =
    "# HELP agent_answers_total Answers to requests that waited.\n# TYPE agent_answers_total counter\n";

const BAD_ANSWERS_HEAD: &str =
    "# HELP agent_bad_answers_total Answers that don't give what they say.\n# TYPE agent_bad_answers_total counter\n";

const CLOSES_HEAD: &str =
    "# HELP agent_closes_total Links that were closed.\n# TYPE agent_closes_total counter\n";

const LINK_UP_HEAD: &str =
    "# HELP agent_link_up Whether the link to the home server serves.\n# TYPE agent_link_up gauge\nagent_link_up ";

const LIVE_HEAD: &str =
    "# HELP agent_live Requests that are kept.\n# TYPE agent_live gauge\nagent_live ";

const WAITING_HEAD: &str =
    "# HELP agent_waiting Requests that wait for their answer.\n# TYPE agent_waiting gauge\nagent_waiting ";

const SECONDS_HEAD: &str =
    "# HELP agent_answer_seconds The time from a request to its answer.\n# TYPE agent_answer_seconds histogram\n";

const MOMENT_HEAD: &str =
    "# HELP agent_moment_milliseconds The moment of the last event.\n# TYPE agent_moment_milliseconds gauge\nagent_moment_milliseconds ";

/// What stands at a moment, in milliseconds.
#[derive(Clone, Copy)]
pub struct Gauges {
    /// 1 where the link serves, else 0.
    pub link_up: u64,
    /// How many requests are kept, and how many of them wait.
    pub live: u64,
    pub waiting: u64,
    pub moment: u64,
}

/// The digit of a number below 10.
fn digit(number: u64) -> u8
    ensures { result ≡ 48 + number % 10 }
{
    b'0' + (number % 10) as u8
}

/// Appends milliseconds as seconds.
fn push_seconds(alloc: Global, text: &mut Vec<u8>, time: u64) -> Result<(), NoMemory>
    ensures { OnOk result (text.new.items ≡ text.old.items ++ specs.seconds time) }
{
    let whole = time / 1_000;
    let whole = format!(in alloc; "{whole}")?;
    text.extend_from_slice(whole.as_bytes())?;
    let digits = [
        b'.',
        digit(time % 1_000 / 100),
        digit(time % 100 / 10),
        digit(time),
    ];
    text.extend_from_slice(&digits)?;
    Ok(())
}

/// Appends the value of a count.
fn push_value(alloc: Global, text: &mut Vec<u8>, count: &Count) -> Result<(), NoMemory>
    ensures { OnOk result (text.new.items ≡ text.old.items ++ specs.value_text count.now) }
{
    if count.order.metric == SUM {
        return push_seconds(alloc, text, count.value);
    }
    let value = count.value;
    let value = format!(in alloc; "{value}")?;
    text.extend_from_slice(value.as_bytes())?;
    Ok(())
}

/// Appends the line of a count, where it is one of this metric.
fn push_line(alloc: Global, text: &mut Vec<u8>, metric: u32, count: &Count) -> Result<(), NoMemory>
    ensures { OnOk result (text.new.items ≡ text.old.items ++ specs.line_if metric count.now) }
{
    if count.order.metric != metric {
        return Ok(());
    }
    text.extend_from_slice(count.head.as_slice())?;
    text.push(b' ')?;
    push_value(alloc, text, count)?;
    text.push(b'\n')?;
    Ok(())
}

/// Appends the lines of a metric.
fn push_lines(
    alloc: Global,
    text: &mut Vec<u8>,
    metric: u32,
    counts: &[Count],
) -> Result<(), NoMemory>
    ensures { OnOk result (text.new.items ≡ text.old.items ++ specs.lines_of metric counts.now) }
{
    for count in counts {
        push_line(alloc, text, metric, count)?;
    }
    Ok(())
}

/// Appends a metric: what it is, and its lines.
fn push_family(
    alloc: Global,
    text: &mut Vec<u8>,
    head: &str,
    metric: u32,
    counts: &[Count],
) -> Result<(), NoMemory>
    ensures { OnOk result
        (text.new.items ≡ text.old.items ++ specs.family head.now metric counts.now) }
{
    text.extend_from_slice(head.as_bytes())?;
    push_lines(alloc, text, metric, counts)
}

/// Appends a metric of one line.
fn push_gauge(alloc: Global, text: &mut Vec<u8>, head: &str, value: u64) -> Result<(), NoMemory>
    ensures { OnOk result (text.new.items ≡ text.old.items ++ specs.gauge head.now value) }
{
    text.extend_from_slice(head.as_bytes())?;
    let value = format!(in alloc; "{value}\n")?;
    text.extend_from_slice(value.as_bytes())?;
    Ok(())
}

/// What was counted.
fn counters(alloc: Global, counts: &[Count]) -> Result<Vec<u8>, NoMemory>
    ensures { IfOk result (λ text. text.items ≡ specs.counters counts.now) }
{
    let mut text = Vec::new(alloc);
    push_family(alloc, &mut text, REQUESTS_HEAD, REQUESTS, counts)?;
    push_family(alloc, &mut text, REPLIES_HEAD, REPLIES, counts)?;
    push_family(alloc, &mut text, DROPS_HEAD, DROPS, counts)?;
    push_family(alloc, &mut text, SENDS_HEAD, SENDS, counts)?;
    push_family(alloc, &mut text, ANSWERS_HEAD, ANSWERS, counts)?;
    push_family(alloc, &mut text, BAD_ANSWERS_HEAD, BAD_ANSWERS, counts)?;
    push_family(alloc, &mut text, CLOSES_HEAD, CLOSES, counts)?;
    Ok(text)
}

/// What stands now, with the times to the answers.
fn state(alloc: Global, counts: &[Count], gauges: Gauges) -> Result<Vec<u8>, NoMemory>
    ensures { IfOk result (λ text. text.items ≡ specs.state counts.now gauges) }
{
    let mut text = Vec::new(alloc);
    push_gauge(alloc, &mut text, LINK_UP_HEAD, gauges.link_up)?;
    push_gauge(alloc, &mut text, LIVE_HEAD, gauges.live)?;
    push_gauge(alloc, &mut text, WAITING_HEAD, gauges.waiting)?;
    push_family(alloc, &mut text, SECONDS_HEAD, BUCKETS, counts)?;
    push_lines(alloc, &mut text, SUM, counts)?;
    push_lines(alloc, &mut text, COUNT, counts)?;
    push_gauge(alloc, &mut text, MOMENT_HEAD, gauges.moment)?;
    Ok(text)
}

/// A block, and the empty line behind it.
pub(crate) fn block(alloc: Global, counts: &[Count], gauges: Gauges) -> Result<Vec<u8>, NoMemory>
    ensures { IfOk result (λ text. text.items ≡ specs.block counts.now gauges) }
{
    let mut text = counters(alloc, counts)?;
    let rest = state(alloc, counts, gauges)?;
    text.extend_from_slice(rest.as_slice())?;
    text.push(b'\n')?;
    Ok(text)
}
