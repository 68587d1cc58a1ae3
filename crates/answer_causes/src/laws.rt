//! Laws of causes.

ghost use Rattle.answer_causes.specs.CauseLaws.{CausesAreRight};

/// An answer to a request for access has a cause exactly where it is bad, and one of accounting where it isn't accepted.
pub fn causes_are_right()
    ensures { CausesAreRight }
{}
