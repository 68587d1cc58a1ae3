//! The settings of the tests, which have one client.

ghost use Rattle.std.specs.Prelude.{IfOk};
ghost use Rattle.agent_settings.specs.Config.{InLimits};

use agent_config::ConfigFault;
use agent_settings::Config;
use std::alloc::Global;

pub(super) const SETTINGS: &[u8] = b"\
host = \"agent.example\"
realm = \"example\"
address = \"192.0.2.1\"
boot = 7

[[clients]]
name = \"nas1\"
address = \"192.168.1.16\"
secret = \"xyzzy5461\"
origin_host = \"nas1.example\"
origin_realm = \"example\"
";

/// What stands in them.
pub(super) fn settings(alloc: Global) -> Result<Config, ConfigFault>
    ensures { IfOk result InLimits }
{
    agent_config::settings_are_in_limits();
    agent_config::read(alloc, SETTINGS)
}
