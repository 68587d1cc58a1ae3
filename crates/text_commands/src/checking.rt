//! The command `check`.

ghost use Rattle.std.specs.Prelude.{◌≡◌, ◌≢◌, ◌≤◌, ◌⊎◌, List, ℕ, Ok, Some, length, IfOk, IfErr};
ghost use Rattle.wire_core.specs.Counts.{Rose};
ghost use Rattle.agent_settings.specs.declared.config.Config.{Config};
ghost use Rattle.agent_config.specs.Settings.{settings_in};
ghost use Rattle.printed_lines.specs.SettingsText.{settings_text};
ghost use Rattle.text_commands.specs.Checks.{ChecksBy, IsCheckEnd};
ghost use Rattle.text_commands.specs.Tasks.{EndsCounts};
ghost use Rattle.text_commands.specs.WholeInput.{most_whole};

use crate::settings_input::take_settings;
use crate::work::write_text;
use agent_settings::Config;
use agent_status::Status;
use printed_lines::print_settings;
use std::alloc::Global;
use wire_core::{Octets, Sink, Source};

/// Settings as lines of a transcript.
fn lines_of(alloc: Global, config: &Config) -> Result<Octets, Status>
    ensures ok { IfOk result (λ lines. lines ≡ settings_text config.now) }
    ensures memory { IfErr result (λ status. status ≡ Status.OutOfMemory) }
{
    match print_settings(alloc, config) {
        Ok(lines) => Ok(lines),
        Err(_) => Err(Status::OutOfMemory),
    }
}

/// Reads settings, a TOML document of at most 2^20 octets, and prints them as lines of a transcript.
pub fn check<S: Source, K: Sink>(alloc: Global, input: &mut S, output: &mut K) -> Status
    ensures begun { result ≢ Status.Usage }
    ensures known { IsCheckEnd result }
    ensures ends { (X : List ℕ) → S.left input.old ≡ Some X
        → ChecksBy result X (S.left input.new) (K.written output.old) (K.written output.new) }
    ensures counts { EndsCounts result (S.ends input.old) (S.ends input.new) (S.faults input.old)
        (S.faults input.new)
        (K.faults output.old) (K.faults output.new) }
    ensures complete { (X : List ℕ) (config : Config) → S.left input.old ≡ Some X
        → settings_in X ≡ Ok config → length X ≤ most_whole
        → ¬ Rose (S.faults input.old) (S.faults input.new)
        → ¬ Rose (K.faults output.old) (K.faults output.new)
        → (result ≡ Status.Done) ⊎ (result ≡ Status.OutOfMemory) }
{
    let config = match take_settings(alloc, input) {
        Ok(config) => config,
        Err(status) => return status,
    };
    let lines = match lines_of(alloc, &config) {
        Ok(lines) => lines,
        Err(status) => return status,
    };
    match write_text(output, lines.as_slice()) {
        Ok(()) => Status::Done,
        Err(status) => status,
    }
}
