//! How many lines of each kind were printed.

ghost use Rattle.std.specs.Prelude.{◌≡◌, count_by};
ghost use Rattle.reverse_script.specs.Printed as printed;
ghost use Rattle.reverse_script.specs.Running.{counted};

use reverse_core::ReverseOutput;

/// How many lines of each kind were printed. A count stands still at its end.
#[derive(Clone, Copy)]
pub(crate) struct Counts {
    pub(crate) sends: u64,
    pub(crate) answers: u64,
    pub(crate) drops: u64,
}

fn is_send(output: &ReverseOutput) -> bool
    ensures { result ≡ printed.is_send output.now }
{
    matches!(output, ReverseOutput::Send { .. })
}

fn is_answer(output: &ReverseOutput) -> bool
    ensures { result ≡ printed.is_answer output.now }
{
    matches!(output, ReverseOutput::Answer { .. })
}

fn is_drop(output: &ReverseOutput) -> bool
    ensures { result ≡ printed.is_drop output.now }
{
    matches!(output, ReverseOutput::Dropped { .. })
}

fn count_sends(outputs: &[ReverseOutput]) -> u64
    ensures { result ≡ count_by printed.is_send outputs.now }
{
    outputs.iter().filter(|o| is_send(o)).count() as u64
}

fn count_answers(outputs: &[ReverseOutput]) -> u64
    ensures { result ≡ count_by printed.is_answer outputs.now }
{
    outputs.iter().filter(|o| is_answer(o)).count() as u64
}

fn count_drops(outputs: &[ReverseOutput]) -> u64
    ensures { result ≡ count_by printed.is_drop outputs.now }
{
    outputs.iter().filter(|o| is_drop(o)).count() as u64
}

impl Counts {
    /// Counts these outputs too.
    pub(crate) fn add(&mut self, outputs: &[ReverseOutput])
        ensures { self.new ≡ counted self.old outputs.now }
    {
        self.sends = self.sends.saturating_add(count_sends(outputs));
        self.answers = self.answers.saturating_add(count_answers(outputs));
        self.drops = self.drops.saturating_add(count_drops(outputs));
    }
}
