//! Settings that are read of an input.

ghost use Rattle.std.specs.Prelude.{◌≡◌, Ok, Err, IfOk, IfErr};
ghost use Rattle.wire_core.specs.Counts.{Rose};
ghost use Rattle.agent_settings.specs.Config.{InLimits};
ghost use Rattle.agent_config.specs.Settings.{settings_in};
ghost use Rattle.text_commands.specs.SettingsInput.{ReadsNot, SettingsNot, SettingsTaken};

use crate::whole_input::take_whole;
use agent_config::ConfigFault;
use agent_settings::Config;
use agent_status::Status;
use std::alloc::Global;
use wire_core::Source;

/// The settings of a text.
fn read_settings(alloc: Global, text: &[u8]) -> Result<Config, Status>
    ensures ok { IfOk result (λ config. settings_in text.now ≡ Ok config) }
    ensures limits { IfOk result InLimits }
    ensures not { IfErr result (λ status. ReadsNot status text.now) }
{
    agent_config::settings_are_in_limits();
    match agent_config::read(alloc, text) {
        Ok(config) => Ok(config),
        Err(ConfigFault::NoMemory) => Err(Status::OutOfMemory),
        Err(fault) => Err(Status::BadConfig { fault }),
    }
}

/// The settings of the input, a TOML document of at most 2^20 octets.
pub fn take_settings<S: Source>(alloc: Global, input: &mut S) -> Result<Config, Status>
    ensures taken { IfOk result
        (λ config. SettingsTaken config (S.left input.old) (S.left input.new)) }
    ensures limits { IfOk result InLimits }
    ensures not { IfErr result
        (λ status. SettingsNot status (S.left input.old) (S.left input.new)) }
    ensures ended { IfOk result (λ config. Rose (S.ends input.old) (S.ends input.new)) }
    ensures read { result ≡ Err Status.ReadFault → Rose (S.faults input.old) (S.faults input.new) }
    ensures refused { (fault : ConfigFault) → result ≡ Err (Status.BadConfig fault)
        → Rose (S.ends input.old) (S.ends input.new) }
{
    let text = match take_whole(alloc, input) {
        Ok(text) => text,
        Err(status) => return Err(status),
    };
    read_settings(alloc, text.as_slice())
}
