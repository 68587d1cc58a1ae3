//! What a pass over the attributes of a packet has seen.

ghost use Rattle.std.specs.Prelude.{◌≡◌};
ghost use Rattle.translation.specs.Passing as passing;

/// What stood before an attribute.
#[derive(Clone, Copy)]
pub struct Seen {
    /// A State, or in accounting a Class, that carries a session.
    pub(crate) carrier: bool,
    /// The tags of tunnels, each at its number.
    pub(crate) tags: [bool; 32],
}

impl Seen {
    /// Nothing, as before the first attribute.
    pub fn nothing() -> Seen
        ensures { result ≡ passing.nothing }
    {
        Seen {
            carrier: false,
            tags: [false; 32],
        }
    }
}
