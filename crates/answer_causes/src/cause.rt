//! The causes.

ghost use Rattle.std.specs.Prelude.{◌≡◌};
ghost use Rattle.answer_causes.specs.CauseNames.{cause_name, cause_number};

/// Why an access server gets an Access-Reject that the home server didn't send, or no Accounting-Response.
#[derive(Clone, Copy)]
pub enum Cause {
    /// The AVPs can't be read.
    RottenAvps,
    /// Flag E is set in an answer of accounting, with this Result-Code.
    Error { result: u32 },
    /// There isn't exactly one Session-Id, the request's.
    OtherSession,
    /// This AVP must be understood and isn't.
    UnknownAvp { code: u32, vendor: Option<u32> },
    /// This AVP is or holds a key, which the client doesn't get.
    KeyRefused { code: u32 },
    /// This AVP must become attributes, and its value can't.
    BadValue { code: u32 },
    /// There are two EAP-Payloads, or there is none in a challenge.
    EapPayload,
    /// The State of a challenge can't be made.
    NoState,
    /// The reply would have more than 4096 octets.
    TooLong,
    /// The record wasn't taken, with this Result-Code.
    Refused { result: u32 },
}

impl Cause {
    /// Its number: 1 to 10 in order.
    pub fn number(self) -> u32
        ensures { result ≡ cause_number self }
    {
        match self {
            Cause::RottenAvps => 1,
            Cause::Error { .. } => 2,
            Cause::OtherSession => 3,
            Cause::UnknownAvp { .. } => 4,
            Cause::KeyRefused { .. } => 5,
            Cause::BadValue { .. } => 6,
            Cause::EapPayload => 7,
            Cause::NoState => 8,
            Cause::TooLong => 9,
            Cause::Refused { .. } => 10,
        }
    }

    /// Its name, without what stands behind it.
    pub fn name(self) -> &'static str
        ensures { result.now ≡ cause_name self }
    {
        match self {
            Cause::RottenAvps => "RottenAvps",
            Cause::Error { .. } => "Error",
            Cause::OtherSession => "OtherSession",
            Cause::UnknownAvp { .. } => "UnknownAvp",
            Cause::KeyRefused { .. } => "KeyRefused",
            Cause::BadValue { .. } => "BadValue",
            Cause::EapPayload => "EapPayload",
            Cause::NoState => "NoState",
            Cause::TooLong => "TooLong",
            Cause::Refused { .. } => "Refused",
        }
    }
}
