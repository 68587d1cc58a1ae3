//! What a pass over the attributes of an Access-Request has seen.

ghost use Rattle.std.specs.Prelude.{◌≡◌};
ghost use Rattle.eap_map.specs.Passing as passing;

use translation::Seen;

/// What stood before an attribute.
#[derive(Clone, Copy)]
pub(crate) struct EapSeen {
    pub common: Seen,
    /// An EAP-Message.
    pub eap: bool,
}

impl EapSeen {
    /// Nothing, as before the first attribute.
    pub fn nothing() -> EapSeen
        ensures { result ≡ passing.nothing }
    {
        EapSeen {
            common: Seen::nothing(),
            eap: false,
        }
    }
}
