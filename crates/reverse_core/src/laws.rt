//! Laws of the rule, for every history.

ghost use Rattle.reverse_core.specs.Laws.{AnswersDifferInTheHop, KeysAreApart, OutputsAreSaid, PacketsAreImages, PacketsAreTheSame, RequestsAreLimited};

/// What goes out is one direct output, or what is said of the requests that were taken up.
pub fn outputs_are_said()
    ensures { OutputsAreSaid }
{}

/// The packet of a request goes out three times at most.
pub fn requests_are_limited()
    ensures { RequestsAreLimited }
{}

/// The packets that go out for a request are the same.
pub fn packets_are_the_same()
    ensures { PacketsAreTheSame }
{}

/// The packet of a request is what the request becomes.
pub fn packets_are_images()
    ensures { PacketsAreImages }
{}

/// The answers of a request differ in octets 12 to 15 alone.
pub fn answers_differ_in_the_hop()
    ensures { AnswersDifferInTheHop }
{}

/// While a request is open, or its answer is kept, no other one of its key is taken up.
pub fn keys_are_apart()
    ensures { KeysAreApart }
{}
