//! Laws of the settings of texts.

ghost use Rattle.agent_config.specs.Settings.{SettingsAreInLimits};
ghost use Rattle.agent_config.specs.Twice.{DistinctUnlessTwice};

/// Where no client's address is an earlier one's, all addresses are distinct.
pub fn distinct_unless_twice()
    ensures { DistinctUnlessTwice }
{}

/// The settings of a text are in limits.
pub fn settings_are_in_limits()
    ensures { SettingsAreInLimits }
{}
