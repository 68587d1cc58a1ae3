//! How many lines of each kind were printed.

ghost use Rattle.std.specs.Prelude.{◌≡◌, count_by};
ghost use Rattle.dynamic_command.specs.Dynamic as lines;
ghost use Rattle.dynamic_command.specs.Running.{counted};

use agent_events::Output;
use session_book::BookOutput;

/// How many lines of each kind were printed. A count stands still at its end.
#[derive(Clone, Copy)]
pub(crate) struct Counts {
    pub(crate) replies: u64,
    pub(crate) sends: u64,
    pub(crate) drops: u64,
    pub(crate) controls: u64,
}

fn is_reply(output: &BookOutput) -> bool
    ensures { result ≡ lines.is_reply output.now }
{
    matches!(
        output,
        BookOutput::Core {
            output: Output::Reply { .. },
        }
    )
}

fn is_send(output: &BookOutput) -> bool
    ensures { result ≡ lines.is_send output.now }
{
    matches!(
        output,
        BookOutput::Core {
            output: Output::Send { .. },
        }
    )
}

fn is_drop(output: &BookOutput) -> bool
    ensures { result ≡ lines.is_drop output.now }
{
    matches!(
        output,
        BookOutput::Core {
            output: Output::Dropped { .. },
        } | BookOutput::Dropped { .. }
    )
}

fn is_control(output: &BookOutput) -> bool
    ensures { result ≡ lines.is_control output.now }
{
    matches!(output, BookOutput::Control { .. })
}

fn count_replies(outputs: &[BookOutput]) -> u64
    ensures { result ≡ count_by lines.is_reply outputs.now }
{
    outputs.iter().filter(|o| is_reply(o)).count() as u64
}

fn count_sends(outputs: &[BookOutput]) -> u64
    ensures { result ≡ count_by lines.is_send outputs.now }
{
    outputs.iter().filter(|o| is_send(o)).count() as u64
}

fn count_drops(outputs: &[BookOutput]) -> u64
    ensures { result ≡ count_by lines.is_drop outputs.now }
{
    outputs.iter().filter(|o| is_drop(o)).count() as u64
}

fn count_controls(outputs: &[BookOutput]) -> u64
    ensures { result ≡ count_by lines.is_control outputs.now }
{
    outputs.iter().filter(|o| is_control(o)).count() as u64
}

impl Counts {
    /// Counts these outputs too.
    pub(crate) fn add(&mut self, outputs: &[BookOutput])
        ensures { self.new ≡ counted self.old outputs.now }
    {
        self.replies = self.replies.saturating_add(count_replies(outputs));
        self.sends = self.sends.saturating_add(count_sends(outputs));
        self.drops = self.drops.saturating_add(count_drops(outputs));
        self.controls = self.controls.saturating_add(count_controls(outputs));
    }
}
