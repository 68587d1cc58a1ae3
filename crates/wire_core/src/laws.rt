//! A law of numbers on the wire.

ghost use Rattle.wire_core.specs.Numbers.{NumbersAreReadBack};

/// A number that was written in two, three, four or eight octets is read back from them.
pub fn numbers_are_read_back()
    ensures { NumbersAreReadBack }
{}
