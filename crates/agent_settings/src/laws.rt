//! Laws of the limits, for all settings.

ghost use Rattle.agent_settings.specs.Config.{ClientKeepsLimits, ClientsAreInLimits, FoundStandsAtPlace};

/// A further client in limits, with an address of its own, keeps the settings in limits.
pub fn client_keeps_limits()
    ensures { ClientKeepsLimits }
{}

/// Each client of settings in limits is in limits.
pub fn clients_are_in_limits()
    ensures { ClientsAreInLimits }
{}

/// A client that is found has the address that was sought, and stands at its place.
pub fn found_stands_at_place()
    ensures { FoundStandsAtPlace }
{}
