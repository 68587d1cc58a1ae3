//! Laws of the rule, for every history.

ghost use Rattle.session_book.specs.Laws.{AbortsAreLimited, AnswersAreTold, OutputsAreSaid, RequestsAreTheSame, TheCoreIsGivenTheRest};

/// What isn't caught goes to the core, whose outputs are those of its own rule.
pub fn the_core_is_given_the_rest()
    ensures { TheCoreIsGivenTheRest }
{}

/// What goes out is the core's part or one direct output, and what is said of aborts.
pub fn outputs_are_said()
    ensures { OutputsAreSaid }
{}

/// An abort has three Disconnect-Requests at most, and one answer at most.
pub fn aborts_are_limited()
    ensures { AbortsAreLimited }
{}

/// The Disconnect-Requests of an abort are the same.
pub fn requests_are_the_same()
    ensures { RequestsAreTheSame }
{}

/// An open abort has the answer that an authentic datagram of its access server gives it, and no other has one.
pub fn answers_are_told()
    ensures { AnswersAreTold }
{}
