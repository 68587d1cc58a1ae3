//! Laws of sessions and carriers, for all octets and numbers.

ghost use Rattle.session_carrier.specs.Session.{AccountingSessionsAreTexts, AccountingSessionsHaveLength, FreshSessionsAreShort, FreshSessionsAreTexts, FreshSessionsDiffer};
ghost use Rattle.session_carrier.specs.Carriers.{StatesAreReadBack, ClassesAreReadBack, StatesHaveOneReading, ClassesHaveOneReading, StatesHaveLength, ClassesHaveLength};

/// Two serials of one host and boot give two sessions.
pub fn fresh_sessions_differ()
    ensures { FreshSessionsDiffer }
{}

/// A session of an identity is a session text.
pub fn fresh_sessions_are_texts()
    ensures { FreshSessionsAreTexts }
{}

/// A session has at most 32 octets more than its host.
pub fn fresh_sessions_are_short()
    ensures { FreshSessionsAreShort }
{}

/// An accounting session of identities is a session text.
pub fn accounting_sessions_are_texts()
    ensures { AccountingSessionsAreTexts }
{}

/// How many octets an accounting session has.
pub fn accounting_sessions_have_length()
    ensures { AccountingSessionsHaveLength }
{}

/// A State that was made of identities and a session text is read back.
pub fn states_are_read_back()
    ensures { StatesAreReadBack }
{}

/// A Class that was made of a session text is read back.
pub fn classes_are_read_back()
    ensures { ClassesAreReadBack }
{}

/// A value is a State in one way at most.
pub fn states_have_one_reading()
    ensures { StatesHaveOneReading }
{}

/// A value is a Class in one way at most.
pub fn classes_have_one_reading()
    ensures { ClassesHaveOneReading }
{}

/// How many octets a State has.
pub fn states_have_length()
    ensures { StatesHaveLength }
{}

/// How many octets a Class has.
pub fn classes_have_length()
    ensures { ClassesHaveLength }
{}
